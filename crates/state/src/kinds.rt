// Each kind as a number, for messages, instructions and pend entries (Steps 9, Parts 9b): the numbers of Kinds.antt in
// crate model.

// Messages: requests, then replies.
pub const FETCH: u8 = 0;

pub const WRITE_BACK: u8 = 1;

pub const FETCH_REPLY: u8 = 2;

pub const ACKNOWLEDGEMENT: u8 = 3;

// Instructions; the fences name their two addresses' reads and writes.
pub const LOADL: u8 = 0;

pub const STOREL: u8 = 1;

pub const COMMIT: u8 = 2;

pub const RECONCILE: u8 = 3;

pub const FENCE_RR: u8 = 4;

pub const FENCE_RW: u8 = 5;

pub const FENCE_WR: u8 = 6;

pub const FENCE_WW: u8 = 7;

// A pend entry that no instruction asked for; any other has its instruction's kind.
pub const VOLUNTARY: u8 = 4;
