// Writing what numbers name.
ghost use Rattle.std.specs.Prelude.{◌≡◌};
ghost use Rattle.calls.specs.Calls.{wrote_numbers, wrote_by, write_sizes_call, write_step_call, write_record_call};

use crate::WriteGiven;
use codes::kinds::step_of;
use codes::refusals::{number, place};
use codes::sizes::sizes_of;
use model::Wrote;
use record::whole::write_record;
use record::{write_sizes, write_step};

impl From<Wrote> for WriteGiven {
    ghost from_gives = { λ wrote given. given ≡ wrote_numbers wrote };

    #[tactic(auto, unfolding(crate::specs::Calls::wrote_numbers))]
    fn from(wrote: Wrote) -> WriteGiven {
        match wrote {
            Ok(next) => WriteGiven {
                next,
                ..WriteGiven::default()
            },
            Err(why) => WriteGiven {
                number: number(why),
                place: place(why),
                next: 0,
            },
        }
    }
}

#[tactic(auto, using(crate::proofs::Sized::sizes_alike), unfolding(crate::specs::Calls::write_sizes_call))]
pub fn write_sizes_call(
    buf: &mut [u8],
    sites: u32,
    words: u32,
    lines: u32,
    sets: u32,
    pend: u32,
    stall: u32,
) -> WriteGiven
    ensures { wrote_by result buf.new ≡ write_sizes_call sites words lines sets pend stall buf.old }
{
    write_sizes(buf, sizes_of([sites, words, lines, sets, pend, stall])).into()
}

#[tactic(auto, unfolding(crate::specs::Calls::write_named))]
pub fn write_step_call(
    buf: &mut [u8],
    at: usize,
    kind: u32,
    site: u32,
    instruction: u32,
    tag: u32,
    first: u32,
    second: u32,
) -> WriteGiven
    ensures { wrote_by result buf.new ≡ write_step_call kind site instruction tag first second buf.old at }
{
    match step_of(kind, site, instruction, tag, first, second) {
        Ok(x) => write_step(buf, at, x).into(),
        Err(why) => WriteGiven::from(Err(why)),
    }
}

#[tactic(auto, using(crate::proofs::Sized::whole_alike), unfolding(crate::specs::Calls::write_record_call))]
pub fn write_record_call(
    buf: &mut [u8],
    sites: u32,
    words: u32,
    lines: u32,
    sets: u32,
    pend: u32,
    stall: u32,
    numbers: &[u32],
) -> WriteGiven
    ensures { wrote_by result buf.new ≡ write_record_call sites words lines sets pend stall numbers.now buf.old }
{
    let z = sizes_of([sites, words, lines, sets, pend, stall]);
    write_record(buf, z, numbers).into()
}
