// The pace of the step: takes the steps of the record on standard input from fresh, over and over, and writes how many
// were accepted. It is there to be timed.
#![tactic(auto)]

ghost use Rattle.std.specs.Prelude.{◌≡◌, true};
ghost use Rattle.model.specs.Sound.{sound};

use model::System;
use record::{read_sizes, read_step};
use sound::is_sound;
use std::io;
use steps::step_sound;
use streams::read_full;

// How often the record is taken.
const ROUNDS: u64 = 50;

// Takes the steps that stand in a record from an offset on, to its end or to a fault, and gives how many were accepted.
// It looks at no soundness: each step leaves a sound state.
#[tactic(auto, using(promises::proofs::Endings::step_on))]
fn take_steps(s: System, bytes: &[u8], start: usize) -> u64
    requires { sound s ≡ true }
{
    let mut system = s;
    let mut accepted: u64 = 0;
    let mut at = start;
    'steps: while let Ok(Some((x, next))) = read_step(bytes, at) {
        if step_sound(&mut system, x).is_ok() {
            accepted += 1;
        }
        at = next;
    }
    accepted
}

fn take_rounds(s: System, bytes: &[u8], start: usize) -> u64
    requires { sound s ≡ true }
{
    let mut accepted: u64 = 0;
    for _ in 0..ROUNDS {
        accepted = take_steps(s, bytes, start);
    }
    accepted
}

fn main(rt: HostRuntime) -> io::Result<()> {
    let mut bytes = [0u8; 65536];
    let size = read_full(&mut rt.stdin(), &mut bytes)?;
    let Ok((z, past)) = read_sizes(&bytes[..size]) else {
        return Ok(());
    };
    let s = System::fresh(z).system;
    if !is_sound(&s) {
        return Ok(());
    }
    let accepted = take_rounds(s, &bytes[..size], past);
    println!(rt; "{ROUNDS} rounds of {accepted} steps accepted")
}
