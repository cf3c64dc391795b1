// The longest drain: takes the steps of the record on standard input from fresh, and drains the state that they lead
// to, with several budgets and buffers.
#![tactic(auto)]

ghost use Rattle.std.specs.Prelude.{◌≤◌};

use drain::drain;
use model::{Drained, Refusal, System};
use record::{read_sizes, read_step};
use std::{fmt, io};
use steps::step_on;
use streams::read_full;

// A state, with how many steps led to it and how many of them were accepted.
#[derive(Clone, Copy)]
struct Reached {
    system: System,
    steps: u64,
    accepted: u64,
}

// Takes the steps that stand in a record from an offset on, to its end or to a fault. It comes to an end: each step
// read ends behind its start (`ReadOn`).
#[tactic(auto, using(promises::proofs::Endings::step_on))]
fn take_steps(s: System, bytes: &[u8], start: usize) -> Reached {
    let mut system = s;
    let mut steps: u64 = 0;
    let mut accepted: u64 = 0;
    let mut at = start;
    'steps: while let Ok(Some((x, next))) = read_step(bytes, at) {
        if step_on(&mut system, x).is_ok() {
            accepted += 1;
        }
        steps += 1;
        at = next;
    }
    Reached {
        system,
        steps,
        accepted,
    }
}

impl fmt::Display for Reached {
    fn fmt<W: fmt::Write>(&self, f: &mut fmt::Formatter<W>) -> fmt::Result {
        write!(f, "{} steps, accepted {}", self.steps, self.accepted)
    }
}

// A drain's line: its budget, the bytes of its buffer, its count, the length of what it wrote, and whether the system
// is quiet.
fn put_drained(rt: &impl Print, budget: usize, room: usize, d: Drained) -> io::Result<()> {
    let refused = match d.outcome {
        Err(Refusal::BufferShort) => " refused 11",
        _ => "",
    };
    let quiet = if d.quiet { "quiet" } else { "not quiet" };
    println!(rt;
        "budget {budget} buffer {room}{refused} count {} length {} {quiet}",
        d.count, d.length
    )
}

// Drains with a buffer of so many bytes.
fn drain_within(rt: &impl Print, s: System, budget: usize, room: usize) -> io::Result<()>
    requires { room ≤ 1312 }
{
    let mut buf = [255u8; 1312];
    put_drained(rt, budget, room, drain(s, budget, &mut buf[..room]))
}

// How many bytes from an offset on are 255, which a drain never writes.
fn untouched(buf: &[u8], from: usize) -> usize {
    buf.iter().skip(from).filter(|byte| **byte == 255).count()
}

// What the longest drain wrote leads to the state that it left, and it wrote nothing past its length.
fn drain_again(rt: &impl Print, s: System) -> io::Result<()> {
    let mut buf = [255u8; 1312];
    let d = drain(s, 656, &mut buf);
    println!(rt;
        "past the length {} bytes as they were",
        untouched(&buf, d.length)
    )?;
    let Some(wrote) = buf.get(..d.length) else {
        return Ok(());
    };
    let again = take_steps(s, wrote, 0);
    println!(rt; "read back {again}")?;
    drain_within(rt, again.system, 656, 1312)
}

fn main(rt: HostRuntime) -> io::Result<()> {
    let mut bytes = [0u8; 65536];
    let size = read_full(&mut rt.stdin(), &mut bytes)?;
    let Ok((z, past)) = read_sizes(&bytes[..size]) else {
        return Ok(());
    };
    let r = take_steps(System::fresh(z).system, &bytes[..size], past);
    println!(rt; "{r}")?;
    let s = r.system;
    drain_within(&rt, s, 656, 1312)?;
    drain_within(&rt, s, 655, 1312)?;
    drain_within(&rt, s, 18446744073709551615, 1312)?;
    drain_within(&rt, s, 656, 1311)?;
    drain_within(&rt, s, 655, 1310)?;
    drain_within(&rt, s, 655, 1309)?;
    drain_within(&rt, s, 0, 0)?;
    drain_again(&rt, s)
}
