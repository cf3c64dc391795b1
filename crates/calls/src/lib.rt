// The calls of a bench as functions of values: numbers in, a small struct of numbers out, and the system after.
// A buffer is lent, and one that is written to is changed where it stands.
#![tactic(auto)]

pub mod reads;
pub mod values;
pub mod writes;

// What a drain gives back. quiet: 1 where nothing but an issue could be done.
#[repr(C)]
#[derive(Clone, Copy)]
pub struct DrainGiven {
    pub number: u32,
    pub quiet: u32,
    pub count: usize,
    pub length: usize,
}

// What reading the sizes gives back, and the offset past them.
#[repr(C)]
#[derive(Clone, Copy, Default)]
pub struct SizesGiven {
    pub number: u32,
    pub place: usize,
    pub next: usize,
    pub sites: u32,
    pub words: u32,
    pub lines: u32,
    pub sets: u32,
    pub pend: u32,
    pub stall: u32,
}

// What reading a step gives back: the numbers of the step, and the offset past them. end: 1 at the record's length.
#[repr(C)]
#[derive(Clone, Copy, Default)]
pub struct StepGiven {
    pub number: u32,
    pub end: u32,
    pub place: usize,
    pub next: usize,
    pub step: u32,
    pub site: u32,
    pub instruction: u32,
    pub tag: u32,
    pub first: u32,
    pub second: u32,
}

// What writing gives back, and the offset past what was written.
#[repr(C)]
#[derive(Clone, Copy, Default)]
pub struct WriteGiven {
    pub number: u32,
    pub place: usize,
    pub next: usize,
}
