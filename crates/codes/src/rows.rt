// Steps as the numbers of a record.
#![tactic(auto, unfolding(model::specs::Record::numbers_of, model::specs::Record::operands, model::specs::Issue::kind_of))]

ghost use Rattle.std.specs.Prelude.{◌≡◌, ◌≤◌, get_or, length};
ghost use Rattle.model.specs.declared.Step.TheVariants.{Issue};
ghost use Rattle.model.specs.Record.{numbers_of};
ghost use Rattle.codes.specs.Padded.{padded};

use model::{Instruction, Step};
use std::marker::Model;

// Six numbers at most, one behind the other.
#[derive(Clone, Copy)]
pub struct Row {
    numbers: [u32; 6],
    count: usize,
}

// Clauses see the list of those in use; a number that is not there is 0.
impl Model for Row {
    ghost use Rattle.std.specs.Prelude.{ℕ, List, take, length, ◌≤◌, ◌≡◌};
    ghost use Rattle.codes.specs.Padded.{padded};

    ghost Value = { List ℕ };

    ghost view = { λ r. take r.count r.numbers };

    ghost invariant = { λ r. (r.count ≤ 6) × (r.numbers ≡ padded (take r.count r.numbers)) };

    ghost inverse = { λ ns. record { numbers = padded ns; count = length ns } };
}

impl Row {
    // Of these numbers.
    pub(crate) fn of<const N: usize>(numbers: [u32; N]) -> Row
        requires { N ≤ 6 }
        ensures { result ≡ numbers.entry }
    {
        let mut all = [0; 6];
        all[..N].copy_from_slice(&numbers);
        Row {
            numbers: all,
            count: N,
        }
    }

    pub fn as_slice(&self) -> &[u32]
        ensures value { result.now ≡ self.now }
        ensures six { length self.now ≤ 6 }
    {
        &self.numbers[..self.count]
    }

    // Six numbers, with 0 for each that is not there.
    pub fn padded(&self) -> [u32; 6]
        ensures { result ≡ padded self.now }
    {
        self.numbers
    }
}

// The numbers of a step: its own, then its fields.
pub fn numbers_of(x: Step) -> Row
    ensures { result ≡ numbers_of x }
{
    match x {
        Step::Issue {
            site,
            tag,
            instruction,
        } => issue_row(site, tag, instruction),
        Step::Serve | Step::SendBack => Row::of([step_number(x)]),
        Step::Retry(field)
        | Step::Send(field)
        | Step::ArriveMemory(field)
        | Step::ArriveSite(field)
        | Step::Take(field) => Row::of([step_number(x), field]),
    }
}

// The number of a step, which stands before its fields.
fn step_number(x: Step) -> u32
    ensures { result ≡ get_or (numbers_of x) 0 0 }
{
    match x {
        Step::Issue { .. } => 0,
        Step::Retry(_) => 1,
        Step::Send(_) => 2,
        Step::ArriveMemory(_) => 3,
        Step::Serve => 4,
        Step::SendBack => 5,
        Step::ArriveSite(_) => 6,
        Step::Take(_) => 7,
    }
}

fn issue_row(site: u32, tag: u32, n: Instruction) -> Row
    ensures { result ≡ numbers_of (Issue site tag n) }
{
    match n {
        Instruction::Loadl { address } => Row::of([0, site, 0, tag, address]),
        Instruction::Storel { address, value } => Row::of([0, site, 1, tag, address, value]),
        Instruction::Commit { address } => Row::of([0, site, 2, tag, address]),
        Instruction::Reconcile { address } => Row::of([0, site, 3, tag, address]),
        Instruction::FenceRr { first, second } => Row::of([0, site, 4, tag, first, second]),
        Instruction::FenceRw { first, second } => Row::of([0, site, 5, tag, first, second]),
        Instruction::FenceWr { first, second } => Row::of([0, site, 6, tag, first, second]),
        Instruction::FenceWw { first, second } => Row::of([0, site, 7, tag, first, second]),
    }
}
