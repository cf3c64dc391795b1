// Sizes as numbers, and back.
ghost use Rattle.std.specs.Prelude.{◌≡◌, min};
ghost use Rattle.model.specs.Record.{six_of};
ghost use Rattle.codes.specs.Capped.{capped};

use crate::rows::Row;
use model::Sizes;

// Six numbers as sizes. A number that is past every limit is as good as 255.
pub fn sizes_of(numbers: [u32; 6]) -> Sizes
    ensures { result ≡ capped numbers }
{
    let [sites, words, lines, sets, pend, stall] = numbers.map(size_of);
    Sizes {
        sites,
        words,
        lines,
        sets,
        pend,
        stall,
    }
}

fn size_of(n: u32) -> u8
    ensures { result ≡ min n 255 }
{
    n.min(255) as u8
}

// The six sizes, in the table's order.
pub fn sizes_row(z: Sizes) -> Row
    ensures { result ≡ six_of z }
{
    Row::of([z.sites, z.words, z.lines, z.sets, z.pend, z.stall].map(|size| size as u32))
}
