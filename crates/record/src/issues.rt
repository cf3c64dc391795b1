// An issue, behind its step number (Record 3a): where, which instruction, under what tag, with which operands.
ghost use Rattle.std.specs.Prelude.{◌≡◌, ℕ};
ghost use Rattle.model.specs.Record.{issue_from, issue_limits, read_issue, read_numbers};
ghost use Rattle.record.specs.Rows.{issue_of};

use crate::rows::read_row;
use crate::{MOST_NUMBER, MOST_VALUE};
use codes::kinds::instruction_of;
use model::{ReadStep, Refusal, Step};
use numbers::{Fault, read_number};

#[tactic(auto, unfolding(model::specs::Record::read_issue))]
pub(crate) fn read_issue(bytes: &[u8], at: usize) -> ReadStep
    ensures { result ≡ read_issue bytes.now at }
{
    let (site, next) = read_number(bytes, at, MOST_NUMBER)?;
    let (kind, past) = read_number(bytes, next, MOST_NUMBER)?;
    if 7 < kind {
        return Err(Refusal::NoRecord(next));
    }
    let ([tag, first, second], end) = read_operands(bytes, kind, past)?;
    let instruction = instruction_of(kind, first, second);
    let x = Step::Issue {
        site,
        tag,
        instruction,
    };
    Ok(Some((x, end)))
}

// What stands behind an instruction's number: its tag and its operands, a second operand of 0 where it has one alone.
#[tactic(auto, using(std::proofs::lemmas::Result::err_from_is_err_and, crate::proofs::ReadRow::one_operand, crate::proofs::ReadRow::issue_read), unfolding(model::specs::Record::issue_limits, model::specs::Record::issue_from))]
fn read_operands(bytes: &[u8], kind: u32, at: usize) -> Result<([u32; 3], usize), Fault>
    ensures { (site : ℕ) → issue_of site kind result ≡ issue_from site kind (read_numbers (issue_limits kind) bytes.now at) }
{
    if kind == 1 {
        return read_row(bytes, at, [MOST_NUMBER, MOST_NUMBER, MOST_VALUE]);
    }
    if kind <= 3 {
        let ([tag, address], past) = read_row(bytes, at, [MOST_NUMBER; 2])?;
        return Ok(([tag, address, 0], past));
    }
    read_row(bytes, at, [MOST_NUMBER; 3])
}
