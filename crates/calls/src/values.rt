// The calls on a system, as functions of its value.
ghost use Rattle.std.specs.Prelude.{◌≡◌};
ghost use Rattle.model.specs.Given.{given};
ghost use Rattle.calls.specs.Calls.{sound_call, fresh_call, stepped_by, step_call, drained_by, drain_call};

use crate::DrainGiven;
use codes::kinds::step_of;
use codes::refusals::given_of;
use codes::sizes::sizes_of;
use drain::drain;
use model::{Given, Refusal, System};
use sound::is_sound;
use steps::step_sound;

// What is given back, and the system after it.
#[derive(Clone, Copy)]
pub struct Stepped {
    pub given: Given,
    pub system: System,
}

// What a drain gives back, and the system after it.
#[derive(Clone, Copy)]
pub struct DrainedTo {
    pub given: DrainGiven,
    pub system: System,
}

pub fn sound_call(s: &System) -> u32
    ensures { result ≡ sound_call s.now }
{
    u32::from(is_sound(s))
}

#[tactic(auto, using(crate::proofs::Sized::fresh_alike), unfolding(crate::specs::Calls::fresh_call))]
pub fn fresh_call(sites: u32, words: u32, lines: u32, sets: u32, pend: u32, stall: u32) -> Stepped
    ensures { result ≡ fresh_call sites words lines sets pend stall }
{
    let made = System::fresh(sizes_of([sites, words, lines, sets, pend, stall]));
    Stepped {
        given: given_of(made.outcome),
        system: made.system,
    }
}

fn refused(why: Refusal, s: System) -> Stepped
    ensures { result ≡ stepped_by (given (Err why)) s }
{
    Stepped {
        given: given_of(Err(why)),
        system: s,
    }
}

// It looks at soundness itself, before what the numbers name.
#[tactic(auto, unfolding(crate::specs::Calls::step_named, model::specs::Steps::stepped))]
pub fn step_call(
    mut s: System,
    kind: u32,
    site: u32,
    instruction: u32,
    tag: u32,
    first: u32,
    second: u32,
) -> Stepped
    ensures { result ≡ step_call s kind site instruction tag first second }
{
    if !is_sound(&s) {
        return refused(Refusal::NotSound, s);
    }
    match step_of(kind, site, instruction, tag, first, second) {
        Ok(x) => {
            let outcome = step_sound(&mut s, x);
            Stepped {
                given: given_of(outcome),
                system: s,
            }
        }
        Err(why) => refused(why, s),
    }
}

#[tactic(auto, unfolding(crate::specs::Calls::drain_call))]
pub fn drain_call(s: System, budget: usize, buf: &mut [u8]) -> DrainedTo
    ensures { drained_by result.given result.system buf.new ≡ drain_call s budget buf.old }
{
    let d = drain(s, budget, buf);
    DrainedTo {
        given: DrainGiven {
            number: given_of(d.outcome).number,
            quiet: u32::from(d.quiet),
            count: d.count,
            length: d.length,
        },
        system: d.system,
    }
}
