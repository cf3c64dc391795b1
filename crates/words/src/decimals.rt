// Numbers in decimal, without leading zeros.
ghost use Rattle.std.specs.Prelude.{◌≡◌, ◌+◌, ◌≤◌, length};
ghost use Rattle.std.proofs.lemmas.List.Edits.{sets};
ghost use Rattle.numbers.specs.Groups.{put_to, put_bytes};
ghost use Rattle.model.specs.Replay.{decimal};

use numbers::fits;

// How many digits a number has.
#[tactic(auto, using(crate::proofs::Decimal::decimal_last, crate::proofs::Decimal::length_more, crate::proofs::Decimal::decimal_most))]
fn decimal_length(n: u64) -> usize
    ensures { result ≡ length (decimal n) }
{
    if n < 10 {
        1
    } else {
        1 + decimal_length(n / 10)
    }
}

// Writes a number at an offset of the buffer, and gives the offset past it; nothing is written where it has no room.
#[tactic(auto, unfolding(numbers::specs::Groups::put_bytes))]
pub fn put_decimal(buf: &mut [u8], at: usize, n: u64) -> usize
    ensures { put_to result buf.new ≡ put_bytes (decimal n) buf.old at }
{
    if fits(buf.len(), at, decimal_length(n)) {
        put_digits(buf, at, n)
    } else {
        at
    }
}

// Writes the digits, where they have room: the last one behind the others.
#[tactic(auto, using(crate::proofs::Decimal::decimal_last, crate::proofs::Decimal::length_more, crate::proofs::Decimal::put_more))]
fn put_digits(buf: &mut [u8], at: usize, n: u64) -> usize
    requires { at + length (decimal n) ≤ length buf.old }
    ensures { put_to result buf.new ≡ put_to (at + length (decimal n)) (sets buf.old at (decimal n)) }
{
    if n < 10 {
        buf[at] = b'0' + n as u8;
        at + 1
    } else {
        let past = put_digits(buf, at, n / 10);
        buf[past] = b'0' + (n % 10) as u8;
        past + 1
    }
}
