// The cache (Parts 9e, 9i): a line stands in the set of its number, and a free place holds 0.
ghost use Rattle.std.specs.Prelude.{◌≡◌};
ghost use Rattle.model.specs.Sets.{free_place, place_fits, set_fits, free_set};
ghost use Rattle.model.specs.Sound.{cache_fits};
ghost use Rattle.sound.specs.Sites.{cache_free};

use crate::words::{marks_fit, words_fit};
use model::{CacheSet, Place, Sizes};
use state::sets::set_number;

#[tactic(auto, unfolding(model::specs::Sets::free_place))]
fn free_place(p: &Place) -> bool
    ensures { result ≡ free_place p.now }
{
    !p.used && p.line == 0 && words_fit(0, &p.values) && marks_fit(0, &p.dirty)
}

// A place of set k: a line of memory whose set is k, or nothing.
#[tactic(auto, unfolding(model::specs::Sets::place_fits))]
fn place_fits(z: &Sizes, k: u8, p: &Place) -> bool
    ensures { result ≡ place_fits z.now k p.now }
{
    if !p.used {
        return free_place(p);
    }
    k < z.sets
        && p.line < z.lines
        && set_number(*z, p.line) == k
        && words_fit(z.words, &p.values)
        && marks_fit(z.words, &p.dirty)
}

// The places of set k fit.
#[tactic(auto, unfolding(model::specs::Sets::set_fits))]
fn set_fits(z: &Sizes, k: u8, t: &CacheSet) -> bool
    ensures { result ≡ set_fits z.now k t.now }
{
    place_fits(z, k, &t.low)
}

#[tactic(auto, unfolding(model::specs::Sets::free_set))]
fn free_set(t: &CacheSet) -> bool
    ensures { result ≡ free_set t.now }
{
    free_place(&t.low)
}

// Every line stands in the set that its number gives.
pub(crate) fn cache_fits(z: &Sizes, sets: &[CacheSet; 8]) -> bool
    ensures { result ≡ cache_fits z.now sets.now }
{
    (0..8u8).all(|k| set_fits(z, k, &sets[k as usize]))
}

// No line is cached.
pub(crate) fn cache_free(sets: &[CacheSet; 8]) -> bool
    ensures { result ≡ cache_free sets.now }
{
    sets.iter().all(free_set)
}
