// The messages of a queue (Parts 9b, 9d, 9i, 10): kinds of its side, sites and lines that exist,
// 0 in each field without a meaning, 0 in a free place.
ghost use Rattle.std.specs.Prelude.{◌≡◌, ◌*◌};
ghost use Rattle.model.specs.Sound.{free_message, carries, message_fits, site_queue_fits, net_fits};
ghost use Rattle.sound.specs.Sides.{side_of};

use crate::arrays::fits;
use crate::words::{marks_fit, riding, words_fit};
use model::{Message, Queue, SiteQueue, Sizes};
use state::kinds::{ACKNOWLEDGEMENT, FETCH_REPLY, WRITE_BACK};

#[tactic(auto, unfolding(model::specs::Sound::free_message))]
pub(crate) fn free_message(m: &Message) -> bool
    ensures { result ≡ free_message m.now }
{
    m.kind == 0 && m.site == 0 && m.line == 0 && words_fit(0, &m.values) && marks_fit(0, &m.dirty)
}

// The two sides of the messages (Parts 10): requests on the way to memory, and replies on the way back.
#[derive(Clone, Copy)]
pub(crate) enum Side {
    Requests,
    Replies,
}

impl Side {
    // The kind is one of this side.
    fn has(self, kind: u8) -> bool
        ensures { result ≡ side_of self kind }
    {
        match self {
            Side::Requests => kind <= WRITE_BACK,
            Side::Replies => (FETCH_REPLY..=ACKNOWLEDGEMENT).contains(&kind),
        }
    }
}

// Words ride in a write-back and a fetch reply alone, marks in a write-back alone.
#[tactic(auto, unfolding(model::specs::Sound::carries))]
fn carries(z: &Sizes, m: &Message) -> bool
    ensures { result ≡ carries z.now m.now.kind m.now.values m.now.dirty }
{
    let words = riding(m.kind == WRITE_BACK || m.kind == FETCH_REPLY, z.words);
    let marks = riding(m.kind == WRITE_BACK, z.words);
    words_fit(words, &m.values) && marks_fit(marks, &m.dirty)
}

#[tactic(auto, unfolding(model::specs::Sound::message_fits))]
fn message_fits(z: &Sizes, side: Side, m: &Message) -> bool
    ensures { result ≡ message_fits z.now (side_of side) m.now }
{
    side.has(m.kind) && m.site < z.sites && m.line < z.lines && carries(z, m)
}

// A queue of site i.
#[tactic(auto, using(crate::proofs::InUse::whole_array), unfolding(model::specs::Sound::queue_fits, model::specs::Sound::site_queue_fits))]
pub(crate) fn near_fits(z: &Sizes, side: Side, i: u8, q: &SiteQueue) -> bool
    ensures { result ≡ site_queue_fits z.now (side_of side) i q.now }
{
    let fit = |m: &Message| message_fits(z, side, m) && m.site == i;
    q.count <= z.pend && fits(&q.items, q.count, fit, free_message)
}

// The most messages under way: a pend entry has one.
fn most_far(z: &Sizes) -> u16
    ensures { result ≡ z.now.pend * z.now.sites }
{
    z.pend as u16 * z.sites as u16
}

// A network, or a queue of memory.
#[tactic(auto, using(crate::proofs::InUse::whole_array), unfolding(model::specs::Sound::queue_fits))]
pub(crate) fn far_fits(z: &Sizes, side: Side, q: &Queue) -> bool
    ensures { result ≡ net_fits z.now (side_of side) q.now }
{
    let fit = |m: &Message| message_fits(z, side, m);
    q.count as u16 <= most_far(z) && fits(&q.items, q.count, fit, free_message)
}
