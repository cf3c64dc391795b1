// Numbers in bytes, seven bits in each, the lowest ones in front, and never a byte more than needed (Record 1). What
// they mean is in specs/.
#![tactic(auto)]

mod samples;

ghost use Rattle.std.specs.Prelude.{◌≡◌, ℕ, suc, ◌+◌, ◌^◌, ◌<◌, ◌≤◌, leb, length, drop};
ghost use Rattle.std.proofs.lemmas.List.Edits.{sets};
ghost use Rattle.numbers.specs.Groups.{bytes_of, decoded, limited, read_number, put_to, write_number};

// What is no number, and where it begins.
#[derive(Clone, Copy, Debug, PartialEq, Eq)]
pub struct Fault {
    pub place: usize,
}

// The number at an offset of the bytes, for a field of which so much is the most, with the offset past it. Most have
// one group and are read at once. The answer for the others is made anew, so that it need not stand in memory.
#[tactic(auto, using(crate::proofs::Grouped::read_last), unfolding(crate::specs::Groups::read_number))]
pub fn read_number(bytes: &[u8], at: usize, most: u32) -> Result<(u32, usize), Fault>
    ensures { result ≡ read_number most bytes.now at }
{
    match bytes.get(at) {
        Some(b) if *b < 128 && u32::from(*b) <= most => Ok((u32::from(*b), at + 1)),
        _ => {
            let (n, past) = read_groups(bytes, at, most, true)?;
            Ok((n, past))
        }
    }
}

// The groups at an offset, the first of a number or those above others. How many there may be follows from the most.
#[tactic(auto, using(crate::proofs::Grouped::read_none, crate::proofs::Grouped::read_last, crate::proofs::Grouped::read_long, crate::proofs::Grouped::read_small))]
fn read_groups(bytes: &[u8], at: usize, most: u32, first: bool) -> Result<(u32, usize), Fault>
    ensures { (g : ℕ) → most < 128 ^ suc g → result ≡ limited most at (decoded (suc g) first (drop at bytes.now)) }
{
    let fault = Fault { place: at };
    if bytes.len() <= at {
        return Err(fault);
    }
    let b = bytes[at] as u32;
    if b < 128 {
        if first | (0 < b) {
            if b <= most {
                return Ok((b, at + 1));
            }
        }
        return Err(fault);
    }
    if most < 128 {
        return Err(fault);
    }
    let Ok((above, past)) = read_groups(bytes, at + 1, most / 128, false) else {
        return Err(fault);
    };
    let n = b - 128 + above * 128;
    if most < n {
        return Err(fault);
    }
    Ok((n, past))
}

// How many bytes a number takes.
#[tactic(auto, using(crate::proofs::Grouped::bytes_last, crate::proofs::Grouped::bytes_more, crate::proofs::Grouped::bytes_most))]
pub fn number_length(n: u32) -> usize
    ensures { result ≡ length (bytes_of n) }
{
    match n {
        0..=127 => 1,
        _ => 1 + number_length(n / 128),
    }
}

// So many bytes have room at an offset of a buffer.
pub fn fits(room: usize, at: usize, size: usize) -> bool
    ensures { result ≡ leb (at + size) room }
{
    size <= room && at <= room - size
}

// Writes a number at an offset of the buffer, and gives the offset past it; nothing is written where it has no room.
#[tactic(auto, unfolding(crate::specs::Groups::put_bytes))]
pub fn write_number(buf: &mut [u8], at: usize, n: u32) -> usize
    ensures { put_to result buf.new ≡ write_number n buf.old at }
{
    if fits(buf.len(), at, number_length(n)) {
        write_groups(buf, at, n)
    } else {
        at
    }
}

#[tactic(auto, using(crate::proofs::Grouped::writing))]
fn write_groups(buf: &mut [u8], at: usize, n: u32) -> usize
    requires { at + length (bytes_of n) ≤ length buf.old }
    ensures { put_to result buf.new ≡ put_to (at + length (bytes_of n)) (sets buf.old at (bytes_of n)) }
{
    if n < 128 {
        buf[at] = n as u8;
        at + 1
    } else {
        buf[at] = (128 + n % 128) as u8;
        write_groups(buf, at + 1, n / 128)
    }
}
