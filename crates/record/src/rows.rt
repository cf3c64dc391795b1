// Numbers one behind the other: those of a step, or the six sizes.
ghost use Rattle.std.specs.Prelude.{◌≡◌, ◌+◌, ◌≤◌, length};
ghost use Rattle.std.proofs.lemmas.List.Edits.{sets};
ghost use Rattle.numbers.specs.Groups.{put_to};
ghost use Rattle.model.specs.Record.{bytes_of_all, read_numbers, written, written_at};
ghost use Rattle.record.specs.Rows.{read_as, room_in};

use codes::rows::Row;
use model::{MOST_BYTES, Refusal, Wrote};
use numbers::{Fault, number_length, read_number, write_number};

// A number for each limit, with the offset past them.
#[tactic(auto, using(std::proofs::lemmas::Result::err_from_is_err_and, crate::proofs::RowTurns::reading))]
pub(crate) fn read_row<const N: usize>(
    bytes: &[u8],
    at: usize,
    limits: [u32; N],
) -> Result<([u32; N], usize), Fault>
    ensures { read_as result ≡ read_numbers limits.entry bytes.now at }
{
    let mut numbers = [0; N];
    let mut past = at;
    for i in 0..N {
        let (n, next) = read_number(bytes, past, limits[i])?;
        numbers[i] = n;
        past = next;
    }
    Ok((numbers, past))
}

// How many bytes the numbers take.
#[tactic(auto, using(crate::proofs::RowTurns::lengths))]
pub(crate) fn row_length(row: &Row) -> usize
    ensures value { result ≡ length (bytes_of_all row.now) }
    ensures small { result ≤ 30 }
{
    let mut size = 0;
    for n in row.as_slice() {
        size += number_length(*n);
    }
    size
}

// Writes the numbers where they have room, and gives the offset past them.
pub(crate) fn put_row(buf: &mut [u8], at: usize, row: &Row) -> usize
    requires { at + length (bytes_of_all row.now) ≤ length buf.old }
    ensures { put_to result buf.new ≡ put_to (at + length (bytes_of_all row.now)) (sets buf.old at (bytes_of_all row.now)) }
{
    let mut past = at;
    for n in row.as_slice() {
        past = write_number(buf, past, *n);
    }
    past
}

// The offset past so many bytes: 13 where they would make the record too long, 11 where they do not fit into the
// buffer.
#[tactic(auto, unfolding(crate::specs::Rows::room_in))]
pub(crate) fn room(len: usize, at: usize, size: usize) -> Result<usize, Refusal>
    ensures { result ≡ room_in len at size }
{
    let past = at.saturating_add(size);
    if MOST_BYTES < past {
        return Err(Refusal::RecordLong);
    }
    if len < past {
        return Err(Refusal::BufferShort);
    }
    Ok(past)
}

// Writes the numbers at an offset, or nothing: 13 where they would make the record too long, 11 where they do not fit
// into the buffer.
#[tactic(auto, unfolding(model::specs::Record::written_at, model::specs::Record::put_at, crate::specs::Rows::room_in))]
pub(crate) fn write_row(buf: &mut [u8], at: usize, row: &Row) -> Wrote
    ensures { written result buf.new ≡ written_at (bytes_of_all row.now) buf.old at }
{
    room(buf.len(), at, row_length(row))?;
    Ok(put_row(buf, at, row))
}
