// The stall queue: one more at the tail, the head taken out, and whether a tag is in it.
ghost use Rattle.std.specs.Prelude.{◌≡◌, cond, ◌+◌, ◌-◌, ltb, set};
ghost use Rattle.lists.specs.Places.{removed, none_of};
ghost use Rattle.model.specs.Fresh.{no_waiting};
ghost use Rattle.model.specs.Sound.{waits_under};

use crate::places::{none_of, put, take_out};
use model::{Stalls, Waiting};

// The instruction joins the stall queue at its tail; a full one stays as it is.
pub fn stall_put(t: &mut Stalls, w: Waiting)
    ensures { t.new ≡ cond (ltb t.old.count 8) (record { waiting = set t.old.waiting t.old.count w; count = t.old.count + 1 }) t.old }
{
    put(&mut t.waiting, &mut t.count, w)
}

// The stall queue loses its head.
pub fn stall_rest(t: &mut Stalls)
    ensures { t.new ≡ record { waiting = removed no_waiting 0 t.old.waiting; count = t.old.count - 1 } }
{
    take_out(&mut t.waiting, &mut t.count, 0, Waiting::none())
}

// None of the first n instructions has the tag, and there are so many places.
pub fn no_tag(t: &Stalls, n: usize, tag: u32) -> bool
    ensures { result ≡ none_of (waits_under tag) n t.now.waiting }
{
    none_of(&t.waiting, n, |w| w.tag == tag)
}
