// What a state is made of (Parts 2 to 6): queues, pend entries, stall entries and cache sets, one more in, one out, one
// found.
#![tactic(auto)]

pub mod kinds;
pub mod pends;
mod places;
pub mod queues;
pub mod sets;
pub mod stalls;
