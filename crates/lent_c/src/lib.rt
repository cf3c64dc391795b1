// What a bench links: the calls of `lent` under their names in C. Each makes that call and has its
// contract, clause for clause; `./mwb pages` holds the heads to those of `lent`.
#![tactic(auto)]

ghost use Rattle.std.specs.Prelude.{◌≡◌};
ghost use Rattle.calls.specs.Calls.{sound_call, stepped_by, fresh_call, step_call, drained_by, drain_call, read_sizes_call, read_step_call, wrote_by, write_sizes_call, write_step_call, write_record_call};

use calls::{DrainGiven, SizesGiven, StepGiven, WriteGiven};
use model::{Given, System};

// 1 where the lent state is sound, else 0.
#[unsafe(no_mangle)]
pub extern "C" fn mwb_sound(s: &System) -> u32
    ensures { result ≡ sound_call s.now }
{
    lent::mwb_sound(s)
}

// Makes the lent system a fresh one of six sizes; for sizes outside their limits it holds 0 everywhere (Numbers 18a).
#[unsafe(no_mangle)]
pub extern "C" fn mwb_fresh(
    s: &mut System,
    sites: u32,
    words: u32,
    lines: u32,
    sets: u32,
    pend: u32,
    stall: u32,
) -> Given
    ensures { stepped_by result s.new ≡ fresh_call sites words lines sets pend stall }
{
    lent::mwb_fresh(s, sites, words, lines, sets, pend, stall)
}

// Takes the step that the numbers name, on the lent system itself. With a refusal it stays as it was (Numbers 17d).
#[unsafe(no_mangle)]
pub extern "C" fn mwb_step(
    s: &mut System,
    step: u32,
    site: u32,
    instruction: u32,
    tag: u32,
    first: u32,
    second: u32,
) -> Given
    ensures { stepped_by result s.new ≡ step_call s.old step site instruction tag first second }
{
    lent::mwb_step(s, step, site, instruction, tag, first, second)
}

// Drains the lent system, and writes the steps taken into the lent buffer.
#[unsafe(no_mangle)]
pub extern "C" fn mwb_drain(s: &mut System, budget: usize, buf: &mut [u8]) -> DrainGiven
    ensures { drained_by result s.new buf.new ≡ drain_call s.old budget buf.old }
{
    lent::mwb_drain(s, budget, buf)
}

// The sizes at the start of a record.
#[unsafe(no_mangle)]
pub extern "C" fn mwb_read_sizes(bytes: &[u8]) -> SizesGiven
    ensures { result ≡ read_sizes_call bytes.now }
{
    lent::mwb_read_sizes(bytes)
}

// The step at an offset of a record.
#[unsafe(no_mangle)]
pub extern "C" fn mwb_read_step(bytes: &[u8], at: usize) -> StepGiven
    ensures { result ≡ read_step_call bytes.now at }
{
    lent::mwb_read_step(bytes, at)
}

// Writes six sizes at the start of a buffer.
#[unsafe(no_mangle)]
pub extern "C" fn mwb_write_sizes(
    buf: &mut [u8],
    sites: u32,
    words: u32,
    lines: u32,
    sets: u32,
    pend: u32,
    stall: u32,
) -> WriteGiven
    ensures { wrote_by result buf.new ≡ write_sizes_call sites words lines sets pend stall buf.old }
{
    lent::mwb_write_sizes(buf, sites, words, lines, sets, pend, stall)
}

// Writes the step that the numbers name at an offset of a buffer.
#[unsafe(no_mangle)]
pub extern "C" fn mwb_write_step(
    buf: &mut [u8],
    at: usize,
    step: u32,
    site: u32,
    instruction: u32,
    tag: u32,
    first: u32,
    second: u32,
) -> WriteGiven
    ensures { wrote_by result buf.new ≡ write_step_call step site instruction tag first second buf.old at }
{
    lent::mwb_write_step(buf, at, step, site, instruction, tag, first, second)
}

// Writes the record of six sizes and of rows of six numbers, all of it or nothing.
#[unsafe(no_mangle)]
pub extern "C" fn mwb_write_record(
    buf: &mut [u8],
    sites: u32,
    words: u32,
    lines: u32,
    sets: u32,
    pend: u32,
    stall: u32,
    numbers: &[u32],
) -> WriteGiven
    ensures { wrote_by result buf.new ≡ write_record_call sites words lines sets pend stall numbers.now buf.old }
{
    lent::mwb_write_record(buf, sites, words, lines, sets, pend, stall, numbers)
}
