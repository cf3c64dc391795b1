// Texts, decimals and the names of the steps, written at an offset of a lent buffer.
#![tactic(auto)]

mod decimals;
mod names;

ghost use Rattle.std.specs.Prelude.{◌≡◌};
ghost use Rattle.numbers.specs.Groups.{put_to, put_bytes};

pub use decimals::put_decimal;
pub use names::put_name;
use numbers::fits;

// Writes a text at an offset of the buffer, and gives the offset past it; nothing is written where it has no room.
#[tactic(auto, using(crate::proofs::Behind::copied), unfolding(numbers::specs::Groups::put_bytes))]
pub fn put_text(buf: &mut [u8], at: usize, text: &[u8]) -> usize
    ensures { put_to result buf.new ≡ put_bytes text.now buf.old at }
{
    let size = text.len();
    if fits(buf.len(), at, size) {
        buf[at..at + size].copy_from_slice(text);
        at + size
    } else {
        at
    }
}
