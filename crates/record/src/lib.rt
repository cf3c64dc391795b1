// A record, read and written: first the sizes, then steps alone (Record 2).
#![tactic(auto)]

ghost use Rattle.std.specs.Prelude.{◌≡◌};
ghost use Rattle.model.specs.Record.{read_move, read_sizes, read_step, written, write_sizes, write_step};

mod issues;
mod rows;
pub mod whole;

use crate::issues::read_issue;
use crate::rows::{read_row, write_row};
use codes::kinds::{move_of, move_with_field};
use codes::rows::numbers_of;
use codes::sizes::{sizes_of, sizes_row};
use model::{MOST_BYTES, ReadSizes, ReadStep, Refusal, Sizes, Step, Wrote};
use numbers::read_number;

// The limits of the fields.
pub const MOST_NUMBER: u32 = 4294967295;

pub const MOST_VALUE: u32 = 4294967295;

// The sizes at the start of a record, with the offset past them. 13 comes before 10, 10 before 12 (Numbers 14c, 15a).
#[tactic(auto, using(crate::proofs::ReadRow::sizes_read), unfolding(model::specs::Record::read_sizes, model::specs::Record::sizes_from))]
pub fn read_sizes(bytes: &[u8]) -> ReadSizes
    ensures { result ≡ read_sizes bytes.now }
{
    if MOST_BYTES < bytes.len() {
        return Err(Refusal::RecordLong);
    }
    let (numbers, past) = read_row(bytes, 0, [MOST_NUMBER; 6])?;
    let z = sizes_of(numbers);
    if z.fit() {
        Ok((z, past))
    } else {
        Err(Refusal::SizeOutside)
    }
}

// The step at an offset of a record, with the offset past it; none where the bytes end (Record 7). 13 comes before 10
// (Numbers 14c).
#[tactic(auto, unfolding(model::specs::Record::read_step_of, model::specs::Record::step_at, model::specs::Record::read_fields))]
pub fn read_step(bytes: &[u8], at: usize) -> ReadStep
    ensures { result ≡ read_step bytes.now at }
{
    let size = bytes.len();
    if MOST_BYTES < size {
        return Err(Refusal::RecordLong);
    }
    if at == size {
        return Ok(None);
    }
    let (kind, next) = read_number(bytes, at, MOST_NUMBER)?;
    if 7 < kind {
        return Err(Refusal::NoRecord(at));
    }
    if kind == 0 {
        return read_issue(bytes, next);
    }
    read_move(bytes, kind, next)
}

// A step that is no issue, behind its number: its site or position, if it has one (Record 3b).
#[tactic(auto, unfolding(model::specs::Record::read_move))]
fn read_move(bytes: &[u8], kind: u32, at: usize) -> ReadStep
    ensures { result ≡ read_move bytes.now kind at }
{
    if matches!(kind, 4 | 5) {
        return Ok(Some((move_of(kind, 0), at)));
    }
    let (field, next) = read_number(bytes, at, MOST_NUMBER)?;
    Ok(Some((move_with_field(kind, field), next)))
}

// Writes the sizes at the start of a buffer. 12 comes before 11 (Numbers 16); sizes within their limits are never too
// long for 13.
#[tactic(auto, unfolding(model::specs::Record::write_sizes))]
pub fn write_sizes(buf: &mut [u8], z: Sizes) -> Wrote
    ensures { written result buf.new ≡ write_sizes z buf.old }
{
    if z.fit() {
        return write_row(buf, 0, &sizes_row(z));
    }
    Err(Refusal::SizeOutside)
}

// Writes a step at an offset of a buffer. 13 comes before 11 (Numbers 16).
#[tactic(auto, unfolding(model::specs::Record::write_step))]
pub fn write_step(buf: &mut [u8], at: usize, x: Step) -> Wrote
    ensures { written result buf.new ≡ write_step x buf.old at }
{
    write_row(buf, at, &numbers_of(x))
}
