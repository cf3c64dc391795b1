// Reads every string of up to three bytes, millions of pseudo-random longer ones and two of the greatest length as
// records, and writes again each step that it read. What must come out is worked out by the reader in bench/, which was
// written from document 01 alone.
#![tactic(auto)]

ghost use Rattle.std.specs.Prelude.{◌≤◌};

mod draws;
mod seen;
mod sums;

use crate::draws::Draws;
use crate::seen::Seen;
use crate::sums::{mix_refusal, mix_sizes, mix_step, more};
use model::Step;
use record::{read_sizes, read_step, write_step};
use std::io;

// The step, written, is what stands between the two offsets.
fn written_again(bytes: &[u8], at: usize, next: usize, x: Step) -> bool {
    let mut buf = [0u8; 32];
    match write_step(&mut buf, 0, x) {
        Ok(size) => size <= 32 && stand_at(bytes, at, next, &buf[..size]),
        Err(_) => false,
    }
}

// What stands between the two offsets is what was written.
fn stand_at(bytes: &[u8], at: usize, next: usize, written: &[u8]) -> bool {
    bytes.get(at..next) == Some(written)
}

// Reads a string: its sizes, and then the steps, behind the sizes where those are good and else from the start.
fn read_string(bytes: &[u8], before: Seen) -> Seen {
    let mut seen = before;
    seen.strings = more(seen.strings);
    let start = match read_sizes(bytes) {
        Ok((z, past)) => {
            seen.sized = more(seen.sized);
            seen.sum = mix_sizes(seen.sum, z);
            past
        }
        Err(why) => {
            seen.sum = mix_refusal(seen.sum, why);
            0
        }
    };
    read_steps(bytes, start, seen)
}

// The steps from an offset to the end, or to a refusal. It comes to an end: each step read ends behind its start
// (`ReadOn`).
#[tactic(auto, using(promises::proofs::Endings::step_on))]
fn read_steps(bytes: &[u8], start: usize, before: Seen) -> Seen {
    let mut seen = before;
    let mut at = start;
    'steps: loop {
        match read_step(bytes, at) {
            Ok(Some((x, next))) => {
                seen.steps = more(seen.steps);
                seen.sum = mix_step(seen.sum, x);
                if written_again(bytes, at, next, x) {
                    seen.again = more(seen.again);
                }
                at = next;
            }
            Ok(None) => {
                seen.whole = more(seen.whole);
                return seen;
            }
            Err(why) => {
                seen.sum = mix_refusal(seen.sum, why);
                return seen;
            }
        }
    }
}

// Every string of a length of at most four bytes: the low bytes of 0, 1, 2 and so on below the count.
fn every_string(size: usize, count: u32) -> Seen
    requires { size ≤ 4 }
{
    let mut seen = Seen::default();
    for i in 0..count {
        seen = read_string(&i.to_le_bytes()[..size], seen);
    }
    seen
}

// So many pseudo-random strings, of 4 to 40 bytes.
fn random_strings(count: u32) -> Seen {
    let mut seen = Seen::default();
    let mut draws = Draws::new();
    let mut bytes = [0u8; 40];
    for _ in 0..count {
        let size = 4 + (draws.number() % 37) as usize;
        draws.fill(&mut bytes[..size]);
        seen = read_string(&bytes[..size], seen);
    }
    seen
}

// So many serves: the greatest length of a record, or one byte more.
fn longest(size: usize) -> Seen
    requires { size ≤ 65537 }
{
    read_string(&[4u8; 65537][..size], Seen::default())
}

fn main(rt: HostRuntime) -> io::Result<()> {
    println!(rt; "0 bytes: {}", every_string(0, 1))?;
    println!(rt; "1 byte: {}", every_string(1, 256))?;
    println!(rt; "2 bytes: {}", every_string(2, 65536))?;
    println!(rt; "3 bytes: {}", every_string(3, 16777216))?;
    println!(rt; "4 to 40 bytes: {}", random_strings(3000000))?;
    println!(rt; "65536 bytes: {}", longest(65536))?;
    println!(rt; "65537 bytes: {}", longest(65537))
}
