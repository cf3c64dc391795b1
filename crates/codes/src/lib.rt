// What the model names, as document 01's numbers, and back: refusals, outcomes, steps, instructions, sizes.
#![tactic(auto)]

pub mod kinds;
pub mod refusals;
pub mod rows;
pub mod sizes;
