// The lines that replay prints, each written into a lent buffer. What they are is in model/specs/Replay.
// Of each it is said too that it is short: whoever lends MOST_LINE bytes is not refused.
#![tactic(auto)]

mod line;

ghost use Rattle.std.specs.Prelude.{◌≡◌, ◌++◌, ◌+◌, ◌≤◌, length};
ghost use Rattle.listing.specs.Room.{most_line};
ghost use Rattle.model.specs.Record.{written, put_at};
ghost use Rattle.model.specs.Replay.{text, decimal, word, name_of, answer_text, outcome_text, sizes_line, step_line, left_line, record_line};

use crate::line::Line;
pub use crate::line::MOST_LINE;
use codes::refusals::{number, place};
use model::{Answer, Outcome, Refusal, Sizes, Step, Wrote};
use numbers::fits;
use words::put_text;

// What both answers begin with: `answer`, site and tag. At most 49 bytes: ` answer `, two numbers of twenty digits, a
// space.
#[tactic(auto, unfolding(model::specs::Replay::text))]
fn begin_answer(line: &mut Line, site: u32, tag: u32)
    requires { length line.old + 49 ≤ most_line }
    ensures after { line.new ≡ line.old ++ word " answer " site ++ word " " tag }
    ensures room { length line.new ≤ length line.old + 49 }
{
    line.add_word(b" answer ", u64::from(site));
    line.add_word(b" ", u64::from(tag));
}

// The words of an answer (Replay 2b). At most 70 bytes: ` answer `, three numbers of twenty digits, two spaces.
#[tactic(auto, unfolding(model::specs::Replay::answer_text, model::specs::Replay::text))]
fn add_answer(line: &mut Line, a: Answer)
    requires { length line.old + 70 ≤ most_line }
    ensures after { line.new ≡ line.old ++ answer_text a }
    ensures room { length line.new ≤ length line.old + 70 }
{
    match a {
        Answer::Nothing => {}
        Answer::Loaded { site, tag, value } => {
            begin_answer(line, site, tag);
            line.add_word(b" ", u64::from(value));
        }
        Answer::Acknowledged { site, tag } => {
            begin_answer(line, site, tag);
            line.add_text(b" ack");
        }
    }
}

// The number given back, and the answer. At most 90 bytes: twenty digits and an answer.
#[tactic(auto, unfolding(model::specs::Replay::outcome_text))]
fn add_outcome(line: &mut Line, o: Outcome)
    requires { length line.old + 90 ≤ most_line }
    ensures after { line.new ≡ line.old ++ outcome_text o }
    ensures room { length line.new ≤ length line.old + 90 }
{
    match o {
        Ok(a) => {
            line.add_number(0);
            add_answer(line, a);
        }
        Err(why) => line.add_number(u64::from(number(why))),
    }
}

// Writes a line with its newline at an offset of the buffer; nothing is written where it has no room.
#[tactic(auto, using(crate::proofs::Lined::whole_line), unfolding(model::specs::Replay::text))]
fn put_line(buf: &mut [u8], at: usize, mut line: Line) -> Wrote
    requires { length line + 1 ≤ most_line }
    ensures { written result buf.new ≡ put_at (line ++ text "\n") buf.old at }
{
    line.add_text(b"\n");
    let bytes = line.written();
    if fits(buf.len(), at, bytes.len()) {
        Ok(put_text(buf, at, bytes))
    } else {
        Err(Refusal::BufferShort)
    }
}

// The line of sizes (Replay 2a).
#[tactic(auto, unfolding(model::specs::Replay::text))]
pub fn put_sizes(buf: &mut [u8], at: usize, z: Sizes) -> Wrote
    ensures buf_after { written result buf.new ≡ put_at (sizes_line z) buf.old at }
    ensures short { length (sizes_line z) ≤ most_line }
{
    let mut line = Line::new();
    line.add_word(b"sites ", u64::from(z.sites));
    line.add_word(b" words ", u64::from(z.words));
    line.add_word(b" lines ", u64::from(z.lines));
    line.add_word(b" sets ", u64::from(z.sets));
    line.add_word(b" pend ", u64::from(z.pend));
    line.add_word(b" stall ", u64::from(z.stall));
    put_line(buf, at, line)
}

// The line of a step (Replay 2b): its count and name, what number it gave, and its answer.
#[tactic(auto, unfolding(model::specs::Replay::text))]
pub fn put_step(buf: &mut [u8], at: usize, n: u64, x: Step, o: Outcome) -> Wrote
    ensures buf_after { written result buf.new ≡ put_at (step_line n x o) buf.old at }
    ensures short { length (step_line n x o) ≤ most_line }
{
    let mut line = Line::new();
    line.add_number(n);
    line.add_text(b" ");
    line.add_name(x);
    line.add_text(b" ");
    add_outcome(&mut line, o);
    put_line(buf, at, line)
}

// The line `left` (Replay 2c): instructions that have no answer yet, and messages under way.
#[tactic(auto, unfolding(model::specs::Replay::text))]
pub fn put_left(buf: &mut [u8], at: usize, outstanding: u64, messages: u64) -> Wrote
    ensures buf_after { written result buf.new ≡ put_at (left_line outstanding messages) buf.old at }
    ensures short { length (left_line outstanding messages) ≤ most_line }
{
    let mut line = Line::new();
    line.add_word(b"left ", outstanding);
    line.add_word(b" ", messages);
    put_line(buf, at, line)
}

// The line `record` of a faulty record (Replay 3a): its number and its place.
#[tactic(auto, unfolding(model::specs::Replay::text))]
pub fn put_record(buf: &mut [u8], at: usize, why: Refusal) -> Wrote
    ensures buf_after { written result buf.new ≡ put_at (record_line why) buf.old at }
    ensures short { length (record_line why) ≤ most_line }
{
    let mut line = Line::new();
    line.add_word(b"record ", u64::from(number(why)));
    line.add_word(b" at ", place(why) as u64);
    put_line(buf, at, line)
}
