// Pend entries and the stall queue (Parts 9b, 9c, 9d, 9i): known kinds, lines and words that exist,
// 0 in each field without a meaning, 0 in a free place.
ghost use Rattle.std.specs.Prelude.{◌≡◌};
ghost use Rattle.model.specs.Sound.{free_entry, free_waiting, entry_fits, waiting_fits, pends_fit, stalls_fit};

use crate::arrays::fits;
use crate::words::{riding, words_fit};
use model::{Entry, Pends, Sizes, Stalls, Waiting};
use state::kinds::{COMMIT, RECONCILE, STOREL, VOLUNTARY};

#[tactic(auto, unfolding(model::specs::Sound::free_entry))]
pub(crate) fn free_entry(e: &Entry) -> bool
    ensures { result ≡ free_entry e.now }
{
    e.kind == 0
        && e.tag == 0
        && e.line == 0
        && e.word == 0
        && e.value == 0
        && words_fit(0, &e.values)
}

// A value only for a Storel, words only for a Commit, and neither tag nor word if it is voluntary.
#[tactic(auto, unfolding(model::specs::Sound::entry_fits))]
fn entry_fits(z: &Sizes, e: &Entry) -> bool
    ensures { result ≡ entry_fits z.now e.now }
{
    e.kind <= VOLUNTARY
        && e.line < z.lines
        && e.word < z.words
        && (e.kind == STOREL || e.value == 0)
        && words_fit(riding(e.kind == COMMIT, z.words), &e.values)
        && (e.kind != VOLUNTARY || e.tag == 0 && e.word == 0)
}

#[tactic(auto, using(crate::proofs::InUse::whole_array), unfolding(model::specs::Sound::pends_fit))]
pub(crate) fn pends_fit(z: &Sizes, p: &Pends) -> bool
    ensures { result ≡ pends_fit z.now p.now.count p.now.entries }
{
    p.count <= z.pend && fits(&p.entries, p.count, |e| entry_fits(z, e), free_entry)
}

#[tactic(auto, unfolding(model::specs::Sound::free_waiting))]
pub(crate) fn free_waiting(w: &Waiting) -> bool
    ensures { result ≡ free_waiting w.now }
{
    w.kind == 0 && w.tag == 0 && w.line == 0 && w.word == 0 && w.value == 0
}

// No fence, and a value only for a Storel.
#[tactic(auto, unfolding(model::specs::Sound::waiting_fits))]
fn waiting_fits(z: &Sizes, w: &Waiting) -> bool
    ensures { result ≡ waiting_fits z.now w.now }
{
    w.kind <= RECONCILE
        && w.line < z.lines
        && w.word < z.words
        && (w.kind == STOREL || w.value == 0)
}

#[tactic(auto, using(crate::proofs::InUse::whole_array), unfolding(model::specs::Sound::stalls_fit))]
pub(crate) fn stalls_fit(z: &Sizes, t: &Stalls) -> bool
    ensures { result ≡ stalls_fit z.now t.now.count t.now.waiting }
{
    t.count <= z.stall && fits(&t.waiting, t.count, |w| waiting_fits(z, w), free_waiting)
}
