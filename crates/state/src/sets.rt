// A cache set, which has one place: where a line is in it, what a coming line displaces, and the set after. How many
// places a set has is known here, in places.rt of crate sound, and where a system is made.
ghost use Rattle.std.specs.Prelude.{◌≡◌, ◌%◌};
ghost use Rattle.model.specs.Sets.{holds, set_number, seat, displaced, placed, without, anew};
ghost use Rattle.model.specs.Handling.{all_clean, written};

use crate::places::replace;
use model::{CacheSet, Place, Sizes, Value};

// The set in which the line lives.
pub fn set_number(z: Sizes, line: u8) -> u8
    ensures { result ≡ set_number z line }
{
    line.checked_rem(z.sets).unwrap_or(line)
}

// Where the line is, if it is in the set.
#[tactic(auto, unfolding(model::specs::Sets::seat))]
pub fn seat(t: CacheSet, line: u8) -> Place
    ensures { result ≡ seat t line }
{
    t.low
}

// The place holds the line.
pub fn holds(p: Place, line: u8) -> bool
    ensures { result ≡ holds p line }
{
    p.used && p.line == line
}

// What stands where the next line goes.
#[tactic(auto, unfolding(model::specs::Sets::displaced))]
pub fn displaced(z: Sizes, t: CacheSet) -> Place
    ensures { result ≡ displaced z t }
{
    t.low
}

// The set after a line came.
#[tactic(auto, unfolding(model::specs::Sets::placed))]
pub fn placed(z: Sizes, t: CacheSet, p: Place) -> CacheSet
    ensures { result ≡ placed z t p }
{
    CacheSet { low: p }
}

// The set after the line went.
#[tactic(auto, unfolding(model::specs::Sets::without))]
pub fn without(t: CacheSet, line: u8) -> CacheSet
    ensures { result ≡ without t line }
{
    CacheSet { low: Place::none() }
}

// The set with the line's place anew.
#[tactic(auto, unfolding(model::specs::Sets::anew))]
pub fn anew(t: CacheSet, line: u8, p: Place) -> CacheSet
    ensures { result ≡ anew t line p }
{
    CacheSet { low: p }
}

// No mark is Dirty.
pub fn all_clean(marks: [bool; 4]) -> bool
    ensures { result ≡ all_clean marks }
{
    marks.iter().all(|mark| !*mark)
}

// The place with the word set and marked Dirty; where there is no such word, as it is.
pub fn written(mut p: Place, word: u8, value: Value) -> Place
    ensures { result ≡ written p word value }
{
    replace(&mut p.dirty, word as usize, true);
    replace(&mut p.values, word as usize, value);
    p
}
