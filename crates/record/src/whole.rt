// A record written whole, of rows of six numbers: measured first, then written, so that a refusal finds every byte as
// it was.
ghost use Rattle.std.specs.Prelude.{◌≡◌, ◌++◌, true, ◌+◌, ◌≤◌, length};
ghost use Rattle.std.proofs.lemmas.List.Edits.{sets};
ghost use Rattle.numbers.specs.Groups.{put_to};
ghost use Rattle.model.specs.Given.{most_bytes};
ghost use Rattle.model.specs.Record.{bytes_of_all, written, written_at};
ghost use Rattle.record.specs.Rows.{named_by_row, cut, measured, are_all, rows_bytes};
ghost use Rattle.record.specs.Whole.{steps_in, write_whole};

use crate::rows::{put_row, room, row_length};
use codes::kinds::step_of;
use codes::rows::{Row, numbers_of};
use codes::sizes::sizes_row;
use model::{MOST_BYTES, Refusal, Sizes, Step, Wrote};

// Writes the record of sizes and of rows of six numbers. Looked at in this order: 12, 10 with the row's number, 13, 11.
#[tactic(auto, using(std::proofs::lemmas::Result::err_from_is_err_and, crate::proofs::WholeTurns::writing), unfolding(crate::specs::Whole::write_whole))]
pub fn write_record(buf: &mut [u8], z: Sizes, numbers: &[u32]) -> Wrote
    ensures { written result buf.new ≡ write_whole z numbers.now buf.old }
{
    if !z.fit() {
        return Err(Refusal::SizeOutside);
    }
    let sizes = sizes_row(z);
    let size = measure(numbers, row_length(&sizes))?;
    write_measured(buf, &sizes, numbers, size)
}

// The step that six numbers name.
fn step_in(row: &[u32; 6]) -> Result<Step, Refusal>
    ensures { result ≡ named_by_row row.now }
{
    let [kind, site, instruction, tag, first, second] = *row;
    step_of(kind, site, instruction, tag, first, second)
}

// Some bytes more, cut at one more than a record's most, so that no sum is too large for its type.
fn lengthened(size: usize, more: usize) -> usize
    requires { (size ≤ most_bytes + 1) × (more ≤ 30) }
    ensures { result ≡ cut (size + more) }
{
    (size + more).min(MOST_BYTES + 1)
}

// How many bytes the rows take behind the sizes' bytes, cut at one more than a record's most; or 10 with the number
// from 0 of the first row that names no step. Numbers that are left over are a row that is cut short.
#[tactic(auto, using(crate::proofs::WholeTurns::measuring))]
fn measure(numbers: &[u32], sizes: usize) -> Result<usize, Refusal>
    requires { sizes ≤ 30 }
    ensures { result ≡ measured sizes 0 (steps_in numbers.now) }
{
    let mut size = sizes;
    let mut row = 0;
    let mut rest = numbers;
    'rows: while let Some((six, more)) = rest.split_first_chunk::<6>() {
        let Ok(x) = step_in(six) else {
            return Err(Refusal::NoRecord(row));
        };
        size = lengthened(size, row_length(&numbers_of(x)));
        row += 1;
        rest = more;
    }
    if rest.is_empty() {
        Ok(size)
    } else {
        Err(Refusal::NoRecord(row))
    }
}

// Writes the steps of the rows where they have room, and gives the offset past them.
#[tactic(auto, using(crate::proofs::WholeTurns::putting))]
fn put_rows(buf: &mut [u8], start: usize, numbers: &[u32]) -> usize
    requires { (are_all (steps_in numbers.now) ≡ true) × (start + length (rows_bytes (steps_in numbers.now)) ≤ length buf.old) }
    ensures { put_to result buf.new ≡ put_to (start + length (rows_bytes (steps_in numbers.now))) (sets buf.old start (rows_bytes (steps_in numbers.now))) }
{
    let mut past = start;
    let mut rest = numbers;
    'rows: while let Some((six, more)) = rest.split_first_chunk::<6>() {
        let Ok(x) = step_in(six) else {
            return past;
        };
        past = put_row(buf, past, &numbers_of(x));
        rest = more;
    }
    past
}

// Writes sizes and rows that take so many bytes, or nothing: 13, then 11.
#[tactic(auto, using(crate::proofs::WholeTurns::put_on), unfolding(model::specs::Record::written_at, model::specs::Record::put_at, crate::specs::Rows::room_in))]
fn write_measured(buf: &mut [u8], sizes: &Row, numbers: &[u32], size: usize) -> Wrote
    requires { (are_all (steps_in numbers.now) ≡ true) × (size ≡ cut (length (bytes_of_all sizes.now ++ rows_bytes (steps_in numbers.now)))) }
    ensures { written result buf.new ≡ written_at (bytes_of_all sizes.now ++ rows_bytes (steps_in numbers.now)) buf.old 0 }
{
    room(buf.len(), 0, size)?;
    let past = put_row(buf, 0, sizes);
    Ok(put_rows(buf, past, numbers))
}
