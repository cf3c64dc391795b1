// Samples 1 and 2, of the code: they hold by the contracts of `read_number` and `write_number` alone.
ghost use Rattle.std.specs.Prelude.{◌≡◌, [], ◌∷◌};
ghost use Rattle.numbers.specs.Groups.{got, no_number};

use crate::{Fault, read_number, write_number};

type Got = Result<(u32, usize), Fault>;

const MOST: u32 = u32::MAX;

#[derive(Clone, Copy)]
struct Read {
    n127: Got,
    n128: Got,
    n300: Got,
    longer: Got,
    largest: Got,
    larger: Got,
}

#[tactic(auto, unfolding(crate::specs::Groups::read_number, crate::specs::Groups::limited, crate::specs::Groups::decoded, crate::specs::Groups::above))]
fn samples_read() -> Read
    ensures { result ≡ record {
      n127 = got 127 1;
      n128 = got 128 2;
      n300 = got 300 2;
      longer = no_number 0;
      largest = got 4294967295 5;
      larger = no_number 0;
    } }
{
    Read {
        n127: read_number(b"\x7F", 0, MOST),
        n128: read_number(b"\x80\x01", 0, MOST),
        n300: read_number(b"\xAC\x02", 0, MOST),
        longer: read_number(b"\x80\x00", 0, MOST),
        largest: read_number(b"\xFF\xFF\xFF\xFF\x0F", 0, MOST),
        larger: read_number(b"\xFF\xFF\xFF\xFF\x10", 0, MOST),
    }
}

#[derive(Clone, Copy)]
struct Written {
    n127: [u8; 1],
    n128: [u8; 2],
    n300: [u8; 2],
    largest: [u8; 5],
}

#[tactic(auto, unfolding(crate::specs::Groups::put_bytes, crate::specs::Groups::encoded))]
fn samples_written() -> Written
    ensures { result ≡ record { n127 = 0x7F ∷ []; n128 = 0x80 ∷ 0x01 ∷ []; n300 = 0xAC ∷ 0x02 ∷ []; largest = 0xFF ∷ 0xFF ∷ 0xFF ∷ 0xFF ∷ 0x0F ∷ [] } }
{
    let mut n127 = [0u8; 1];
    let mut n128 = [0u8; 2];
    let mut n300 = [0u8; 2];
    let mut largest = [0u8; 5];
    write_number(&mut n127, 0, 127);
    write_number(&mut n128, 0, 128);
    write_number(&mut n300, 0, 300);
    write_number(&mut largest, 0, MOST);
    Written {
        n127,
        n128,
        n300,
        largest,
    }
}
