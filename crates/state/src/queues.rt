// Queues of messages: one more at the tail, and one taken out and the gap closed (Parts 2e, 4, 5, 6).
ghost use Rattle.std.specs.Prelude.{◌≡◌, cond, ltb};
ghost use Rattle.model.specs.Parts.{site_put, site_rest, net_put, net_rest};

use crate::places::{put, take_out};
use model::{Message, Queue, SiteQueue};

// The message joins a site's queue at its tail; a full one stays as it is.
pub fn site_put(q: &mut SiteQueue, m: Message)
    ensures { q.new ≡ cond (ltb q.old.count 5) (site_put q.old m) q.old }
{
    put(&mut q.items, &mut q.count, m)
}

// A site's queue loses its head.
pub fn site_rest(q: &mut SiteQueue)
    ensures { q.new ≡ site_rest q.old }
{
    take_out(&mut q.items, &mut q.count, 0, Message::none())
}

// The message joins a network, or a queue of memory, at its tail; a full one stays as it is.
pub fn net_put(q: &mut Queue, m: Message)
    ensures { q.new ≡ cond (ltb q.old.count 20) (net_put q.old m) q.old }
{
    put(&mut q.items, &mut q.count, m)
}

// A network, or a queue of memory, loses the message at the position.
pub fn net_rest(q: &mut Queue, position: usize)
    ensures { q.new ≡ net_rest q.old position }
{
    take_out(&mut q.items, &mut q.count, position, Message::none())
}
