// The drain: of its tries the earliest that succeeds, over and over (Drain 1, 2).
#![tactic(auto)]

mod search;

ghost use Rattle.std.specs.Prelude.{◌≡◌, ◌+◌, ◌*◌, ◌≤◌, min, length};
ghost use Rattle.std.proofs.lemmas.List.Edits.{sets};
ghost use Rattle.numbers.specs.Groups.{put_to};
ghost use Rattle.model.specs.Limits.{most_drain};
ghost use Rattle.model.specs.Given.{most_bytes};
ghost use Rattle.model.specs.Record.{step_bytes};
ghost use Rattle.model.specs.Drain.{drain_gives, undrained, drain_of};

use model::{Answer, Drained, Refusal, Step, System};
use record::write_step;
use search::first_step;
use sound::is_sound;
use steps::step_sound;

fn refuse(why: Refusal, s: System) -> Drained
    ensures { result ≡ undrained why s }
{
    Drained {
        outcome: Err(why),
        count: 0,
        quiet: false,
        length: 0,
        system: s,
    }
}

// The bytes that a drain asks for: two for each step that it may take (Drain 4).
fn room_for(budget: usize) -> usize
    ensures { result ≡ 2 * min budget most_drain }
{
    2 * budget.min(System::MOST_DRAIN)
}

// Writes the step where it has room, and gives the offset past it.
fn put_step(buf: &mut [u8], at: usize, x: Step) -> usize
    requires { (at + length (step_bytes x) ≤ most_bytes) × (at + length (step_bytes x) ≤ length buf.old) }
    ensures { put_to result buf.new ≡ put_to (at + length (step_bytes x)) (sets buf.old at (step_bytes x)) }
{
    write_step(buf, at, x).unwrap()
}

// Takes steps until none is accepted or the budget is reached, and writes them down. Soundness is looked at once: each
// step leaves a sound state. That the bytes asked for are enough, whatever the budget, is the theorem of 656 steps; it
// stands in the loop's invariant (Onward, in proofs/Onward.antt).
#[tactic(auto, using(steps::proofs::Visits::few_sites, crate::proofs::Onward::start), unfolding(model::specs::Drain::drain_of))]
pub fn drain(s: System, budget: usize, buf: &mut [u8]) -> Drained
    ensures { drain_gives result buf.new ≡ drain_of s budget buf.old }
{
    let mut t = s;
    if !is_sound(&t) {
        return refuse(Refusal::NotSound, t);
    }
    if buf.len() < room_for(budget) {
        return refuse(Refusal::BufferShort, t);
    }
    let mut count = 0;
    let mut length = 0;
    let quiet = 'steps: loop {
        let Some(x) = first_step(&t) else {
            break 'steps true;
        };
        if count == budget {
            break 'steps false;
        }
        length = put_step(buf, length, x);
        let _ = step_sound(&mut t, x);
        count += 1;
    };
    Drained {
        outcome: Ok(Answer::Nothing),
        count,
        quiet,
        length,
        system: t,
    }
}
