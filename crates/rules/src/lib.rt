// The rules that look and decide: may an instruction be issued, which action is it handled by,
// and what does memory store and answer.
#![tactic(auto)]

pub mod decision;
pub mod issue;
pub mod memory;
