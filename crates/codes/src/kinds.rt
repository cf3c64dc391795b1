// Numbers as steps and instructions.
#![tactic(auto, unfolding(model::specs::Record::move_of, model::specs::Record::instruction_of, crate::specs::Named::named_by))]

ghost use Rattle.std.specs.Prelude.{◌≡◌, cond, eqb, ◌||◌};
ghost use Rattle.model.specs.Record.{instruction_of, move_of};
ghost use Rattle.codes.specs.Named.{named_by};

use model::{Instruction, Refusal, Step};

// The step of a number from 1 to 7, with its site or position, if it has one.
pub fn move_of(kind: u32, field: u32) -> Step
    ensures { result ≡ move_of kind field }
{
    match kind {
        4 => Step::Serve,
        5 => Step::SendBack,
        _ => move_with_field(kind, field),
    }
}

// The step of a number whose step has a site or position; any other number counts as 7, which is a take. It is apart
// from move_of for speed: without 4 and 5 among them these steps need no indirect jump.
pub fn move_with_field(kind: u32, field: u32) -> Step
    ensures { result ≡ move_of (cond (eqb kind 4 || eqb kind 5) 7 kind) field }
{
    match kind {
        1 => Step::Retry(field),
        2 => Step::Send(field),
        3 => Step::ArriveMemory(field),
        6 => Step::ArriveSite(field),
        _ => Step::Take(field),
    }
}

// The instruction of a number, with its operands.
pub fn instruction_of(kind: u32, first: u32, second: u32) -> Instruction
    ensures { result ≡ instruction_of kind first second }
{
    match kind {
        0 => Instruction::Loadl { address: first },
        1 => Instruction::Storel {
            address: first,
            value: second,
        },
        2 => Instruction::Commit { address: first },
        3 => Instruction::Reconcile { address: first },
        4 => Instruction::FenceRr { first, second },
        5 => Instruction::FenceRw { first, second },
        6 => Instruction::FenceWr { first, second },
        _ => Instruction::FenceWw { first, second },
    }
}

// The step that six numbers name, in the order of a record: its own, its site or position, and an issue's instruction
// number, tag and operands; or 10, with the place from 0 of the number that names none.
pub fn step_of(
    kind: u32,
    site: u32,
    instruction: u32,
    tag: u32,
    first: u32,
    second: u32,
) -> Result<Step, Refusal>
    ensures { result ≡ named_by kind site instruction tag first second }
{
    if 7 < kind {
        return Err(Refusal::NoRecord(0));
    }
    if 0 < kind {
        return Ok(move_of(kind, site));
    }
    if 7 < instruction {
        return Err(Refusal::NoRecord(2));
    }
    Ok(Step::Issue {
        site,
        tag,
        instruction: instruction_of(instruction, first, second),
    })
}
