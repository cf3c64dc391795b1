// Replay: a record on standard input, its listing on standard output. The contracts say what stands in the buffer, and
// what print_listing writes out.
#![tactic(auto)]

mod going;

ghost use Rattle.std.specs.Prelude.{◌≡◌, ℕ, ◌≤◌, length, take, OnOk, OnErr, Some};
ghost use Rattle.std.specs.Io.KnownBytes.{Appends};
ghost use Rattle.listing.specs.Room.{most_line};
ghost use Rattle.model.specs.Record.{written, put_at};
ghost use Rattle.model.specs.Replay.{listing};
ghost use Rattle.replay.specs.Going.{last_line, to_list, in_all, Further};

use crate::going::Going;
use left::{messages_left, outstanding_left};
use listing::{MOST_LINE, put_left, put_record, put_sizes, put_step};
use model::{ReadStep, System, Wrote};
use record::{read_sizes, read_step};
use std::io;
use std::io::Write;
use std::process::ExitCode;
use streams::{read_full, write_full};

// Lists the sizes: how many bytes of the buffer their line takes, and where to go on; of sizes that are refused the
// line is the last one.
fn list_sizes(bytes: &[u8], buf: &mut [u8]) -> (usize, Option<Going>)
    requires { most_line ≤ length buf.old }
    ensures whole { in_all bytes.now buf.new result ≡ listing bytes.now }
    ensures within { result.0 ≤ length buf.old }
{
    match read_sizes(bytes) {
        Ok((z, past)) => (put_sizes(buf, 0, z).unwrap(), Some(Going::first(z, past))),
        Err(why) => (put_record(buf, 0, why).unwrap(), None),
    }
}

// The line behind the last step: what is left, or the fault.
#[tactic(auto, unfolding(crate::specs::Going::last_line))]
fn put_last(buf: &mut [u8], at: usize, got: ReadStep, s: &System) -> Wrote
    ensures buf_after { written result buf.new ≡ put_at (last_line got s.now) buf.old at }
    ensures short { length (last_line got s.now) ≤ most_line }
{
    match got {
        Ok(_) => put_left(buf, at, outstanding_left(s), messages_left(s)),
        Err(why) => put_record(buf, at, why),
    }
}

// Lists on, from the buffer's start, as many lines as have room.
fn list_on(bytes: &[u8], from: Going, buf: &mut [u8]) -> (usize, Option<Going>)
    requires { most_line ≤ length buf.old }
    ensures whole { in_all bytes.now buf.new result ≡ to_list bytes.now (Some from) }
    ensures within { result.0 ≤ length buf.old }
    ensures further { Further bytes.now from result.1 }
{
    let mut going = from;
    let mut length = 0;
    'lines: loop {
        let got = read_step(bytes, going.at);
        let Ok(Some((x, next))) = got else {
            return match put_last(buf, length, got, &going.system) {
                Ok(end) => (end, None),
                Err(_) => (length, Some(going)),
            };
        };
        // A step is taken only where its line has room.
        if buf.len() < length + MOST_LINE {
            return (length, Some(going));
        }
        let outcome = going.take(x, next);
        length = put_step(buf, length, going.count, x, outcome).unwrap();
    }
}

fn complain(rt: &impl Eprint) {
    let _ = rt.eprintln("replay: standard output takes no more");
}

// Writes the listing out, a buffer at a time. A write that fails ends it with that error; what was written before it is
// a start of the listing.
fn print_listing<W: Write>(bytes: &[u8], buf: &mut [u8], output: &mut W) -> io::Result<()>
    requires { most_line ≤ length buf.old }
    ensures ok { OnOk result (Appends (W.contents output.old) (W.contents output.new) (listing bytes.now)) }
    ensures err { OnErr result ((n : ℕ) × (n ≤ length (listing bytes.now)) × Appends (W.contents output.old) (W.contents output.new) (take n (listing bytes.now))) }
{
    let (mut length, mut rest) = list_sizes(bytes, buf);
    'parts: loop {
        write_full(output, &buf[..length])?;
        let Some(from) = rest else {
            return Ok(());
        };
        (length, rest) = list_on(bytes, from, buf);
    }
}

// A byte more is read than a record may have, so that a longer one shows.
fn main(rt: HostRuntime) -> io::Result<ExitCode> {
    let mut bytes = [0u8; 65537];
    let size = read_full(&mut rt.stdin(), &mut bytes)?;
    let mut buf = [0u8; 65536];
    if print_listing(&bytes[0..size], &mut buf, &mut rt.stdout()).is_err() {
        complain(&rt);
        return Ok(ExitCode::FAILURE);
    }
    Ok(ExitCode::SUCCESS)
}
