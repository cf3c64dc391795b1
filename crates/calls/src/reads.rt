// What reading gives back, as numbers.
ghost use Rattle.std.specs.Prelude.{◌≡◌};
ghost use Rattle.calls.specs.Calls.{sizes_numbers, read_sizes_call, step_numbers, read_step_call};

use crate::{SizesGiven, StepGiven};
use codes::refusals::{number, place};
use codes::rows::numbers_of;
use model::{ReadSizes, ReadStep};
use record::{read_sizes, read_step};

impl From<ReadSizes> for SizesGiven {
    ghost from_gives = { λ read given. given ≡ sizes_numbers read };

    #[tactic(auto, unfolding(crate::specs::Calls::sizes_numbers))]
    fn from(read: ReadSizes) -> SizesGiven {
        match read {
            Ok((z, next)) => SizesGiven {
                number: 0,
                place: 0,
                next,
                sites: z.sites as u32,
                words: z.words as u32,
                lines: z.lines as u32,
                sets: z.sets as u32,
                pend: z.pend as u32,
                stall: z.stall as u32,
            },
            Err(why) => SizesGiven {
                number: number(why),
                place: place(why),
                ..SizesGiven::default()
            },
        }
    }
}

impl From<ReadStep> for StepGiven {
    ghost from_gives = { λ read given. given ≡ step_numbers read };

    #[tactic(auto, unfolding(crate::specs::Calls::step_numbers))]
    fn from(read: ReadStep) -> StepGiven {
        match read {
            Ok(Some((x, next))) => {
                let [step, site, instruction, tag, first, second] = numbers_of(x).padded();
                StepGiven {
                    number: 0,
                    end: 0,
                    place: 0,
                    next,
                    step,
                    site,
                    instruction,
                    tag,
                    first,
                    second,
                }
            }
            Ok(None) => StepGiven {
                end: 1,
                ..StepGiven::default()
            },
            Err(why) => StepGiven {
                number: number(why),
                place: place(why),
                ..StepGiven::default()
            },
        }
    }
}

// The sizes at the start of a record.
pub fn read_sizes_call(bytes: &[u8]) -> SizesGiven
    ensures { result ≡ read_sizes_call bytes.now }
{
    read_sizes(bytes).into()
}

// The step at an offset of a record.
pub fn read_step_call(bytes: &[u8], at: usize) -> StepGiven
    ensures { result ≡ read_step_call bytes.now at }
{
    read_step(bytes, at).into()
}
