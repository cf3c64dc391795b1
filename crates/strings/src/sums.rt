// Counts and sums that wrap at 4,294,967,296.
use codes::refusals::{number, place};
use model::{Refusal, Sizes, Step};
use rules::issue::take_apart;

pub(crate) fn more(n: u64) -> u64 {
    n % 4294967296 + 1
}

// The sum with one more number in it; the order of the numbers counts.
fn mixed(sum: u64, n: u64) -> u64 {
    (sum % 4294967296 * 31 + n % 4294967296) % 4294967296
}

fn mix_all(sum: u64, numbers: &[u64]) -> u64 {
    numbers.iter().fold(sum, |sum, n| mixed(sum, *n))
}

// A step's number, then its fields; of an issue site, tag, instruction number, first and last address, and value.
pub(crate) fn mix_step(sum: u64, x: Step) -> u64 {
    match x {
        Step::Issue {
            site,
            tag,
            instruction,
        } => {
            let a = take_apart(instruction);
            mix_all(
                sum,
                &[
                    0,
                    site.into(),
                    tag.into(),
                    a.kind.into(),
                    a.first.into(),
                    a.last.into(),
                    a.value.into(),
                ],
            )
        }
        Step::Retry(site) => mix_all(sum, &[1, site.into()]),
        Step::Send(site) => mix_all(sum, &[2, site.into()]),
        Step::ArriveMemory(position) => mix_all(sum, &[3, position.into()]),
        Step::Serve => mixed(sum, 4),
        Step::SendBack => mixed(sum, 5),
        Step::ArriveSite(position) => mix_all(sum, &[6, position.into()]),
        Step::Take(site) => mix_all(sum, &[7, site.into()]),
    }
}

// A refusal's number and its place.
pub(crate) fn mix_refusal(sum: u64, why: Refusal) -> u64 {
    mix_all(sum, &[number(why).into(), place(why) as u64])
}

pub(crate) fn mix_sizes(sum: u64, z: Sizes) -> u64 {
    mix_all(
        sum,
        &[
            z.sites.into(),
            z.words.into(),
            z.lines.into(),
            z.sets.into(),
            z.pend.into(),
            z.stall.into(),
        ],
    )
}
