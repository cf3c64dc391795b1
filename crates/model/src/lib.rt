// The types of document 01: what a system holds, the steps, the instructions, and what an operation gives back. And the
// fresh system. What they mean is in specs/. An array has the largest size that a system may have; a count or a size
// says how much is in use.
#![tactic(auto)]

ghost use Rattle.std.specs.Prelude.{◌≡◌};
ghost use Rattle.model.specs.Limits.{within, in_limits};
ghost use Rattle.model.specs.declared.Refusal.TheVariants.{NoRecord};
ghost use Rattle.model.specs.Fresh.{no_sizes, no_message, no_entry, no_waiting, no_place, blank, fresh_of};

use numbers::Fault;

// A record is at most so many bytes long (Numbers 13).
pub const MOST_BYTES: usize = 65536;

// A word's value (Covers 10).
pub type Value = u32;

// The six sizes of a system, in document 01's order (Covers 3).
#[repr(C)]
#[derive(Clone, Copy, Default)]
pub struct Sizes {
    pub sites: u8,
    pub words: u8,
    pub lines: u8,
    pub sets: u8,
    pub pend: u8,
    pub stall: u8,
}

// kind: 0 fetch, 1 write-back, 2 fetch reply, 3 acknowledgement.
#[repr(C)]
#[derive(Clone, Copy, Default)]
pub struct Message {
    pub kind: u8,
    pub site: u8,
    pub line: u8,
    pub dirty: [bool; 4],
    pub values: [Value; 4],
}

// A pend entry: what a site waits for. kind: 0 Loadl, 1 Storel, 2 Commit, 3 Reconcile, 4 voluntary.
#[repr(C)]
#[derive(Clone, Copy, Default)]
pub struct Entry {
    pub kind: u8,
    pub line: u8,
    pub word: u8,
    pub tag: u32,
    pub value: Value,
    pub values: [Value; 4],
}

// An instruction in the stall queue, its address as a line and a word. kind: 0 Loadl, 1 Storel, 2 Commit, 3 Reconcile.
#[repr(C)]
#[derive(Clone, Copy, Default)]
pub struct Waiting {
    pub kind: u8,
    pub line: u8,
    pub word: u8,
    pub tag: u32,
    pub value: Value,
}

// Where a set keeps a line (Parts 2a, 2b): its words, each with its mark Dirty or not.
#[repr(C)]
#[derive(Clone, Copy, Default)]
pub struct Place {
    pub used: bool,
    pub line: u8,
    pub dirty: [bool; 4],
    pub values: [Value; 4],
}

// The places of one set: one.
#[repr(C)]
#[derive(Clone, Copy)]
pub struct CacheSet {
    pub low: Place,
}

#[repr(C)]
#[derive(Clone, Copy)]
pub struct Cache {
    pub sets: [CacheSet; 8],
}

// The pend entries of a site, oldest first.
#[repr(C)]
#[derive(Clone, Copy)]
pub struct Pends {
    pub entries: [Entry; 5],
    pub count: u8,
}

// The stall queue of a site, first in first.
#[repr(C)]
#[derive(Clone, Copy)]
pub struct Stalls {
    pub waiting: [Waiting; 8],
    pub count: u8,
}

// The outgoing or the incoming queue of a site.
#[repr(C)]
#[derive(Clone, Copy)]
pub struct SiteQueue {
    pub items: [Message; 5],
    pub count: u8,
}

// A network, or one of memory's two queues.
#[repr(C)]
#[derive(Clone, Copy)]
pub struct Queue {
    pub items: [Message; 20],
    pub count: u8,
}

#[repr(C)]
#[derive(Clone, Copy)]
pub struct Line {
    pub values: [Value; 4],
}

// A system. Of what stands at the sites there is an array for each part, with an element for each site.
#[repr(C)]
#[derive(Clone, Copy)]
pub struct System {
    pub sizes: Sizes,
    pub memory: [Line; 16],
    pub caches: [Cache; 4],
    pub pends: [Pends; 4],
    pub stalls: [Stalls; 4],
    pub outgoing: [SiteQueue; 4],
    pub incoming: [SiteQueue; 4],
    // The network to memory, memory's incoming and outgoing queues, and the network to the sites.
    pub up: Queue,
    pub arrived: Queue,
    pub served: Queue,
    pub down: Queue,
}

// An instruction of a processor (Steps 9).
#[derive(Clone, Copy)]
pub enum Instruction {
    Loadl { address: u32 },
    Storel { address: u32, value: Value },
    Commit { address: u32 },
    Reconcile { address: u32 },
    FenceRr { first: u32, second: u32 },
    FenceRw { first: u32, second: u32 },
    FenceWr { first: u32, second: u32 },
    FenceWw { first: u32, second: u32 },
}

// A step, in the order of its numbers 0 to 7 (Steps 1 to 8).
#[derive(Clone, Copy)]
pub enum Step {
    Issue {
        site: u32,
        tag: u32,
        instruction: Instruction,
    },
    Retry(u32),
    Send(u32),
    ArriveMemory(u32),
    Serve,
    SendBack,
    ArriveSite(u32),
    Take(u32),
}

// What a processor is answered (Steps 11): the value that a Loadl read, or that another instruction is done.
#[derive(Clone, Copy)]
pub enum Answer {
    Nothing,
    Loaded { site: u32, tag: u32, value: Value },
    Acknowledged { site: u32, tag: u32 },
}

// Why an operation is refused (Numbers 2 to 13). The definition `number_of` gives document 01's number for each.
#[derive(Clone, Copy)]
pub enum Refusal {
    NotSound,
    NoSuchSite,
    AddressPastLast,
    TagOutstanding,
    MayNotIssue,
    StallFull,
    NothingThere,
    MustStillWait,
    NoRecord(usize),
    BufferShort,
    SizeOutside,
    RecordLong,
}

// What is no number is no record (Record 6).
impl From<Fault> for Refusal {
    ghost from_gives = { λ fault why. why ≡ NoRecord fault.place };

    fn from(fault: Fault) -> Refusal {
        Refusal::NoRecord(fault.place)
    }
}

// What comes of an operation on a system.
pub type Outcome = Result<Answer, Refusal>;

// An operation's outcome, and the system after it.
#[derive(Clone, Copy)]
pub struct After {
    pub outcome: Outcome,
    pub system: System,
}

// Six yes or no facts of a site that decide how it handles an instruction: is its line cached, is its word Dirty,
// is some word of its line Dirty, does its line pend, has it no free pend entry, has it no free stall entry.
#[derive(Clone, Copy)]
pub struct Facts {
    pub cached: bool,
    pub dirty: bool,
    pub stained: bool,
    pub pending: bool,
    pub full: bool,
    pub crowded: bool,
}

// What a site does with an instruction.
#[derive(Clone, Copy)]
pub enum Action {
    Load,
    Store,
    Acknowledge,
    Drop,
    Fetch,
    WriteBackKept,
    WriteBackDropped,
    Wait,
}

// What a drain gives (Drain 3): its outcome, how many steps it took, whether the system is quiet after them, how many
// bytes they are, and the system.
#[derive(Clone, Copy)]
pub struct Drained {
    pub outcome: Outcome,
    pub count: usize,
    pub quiet: bool,
    pub length: usize,
    pub system: System,
}

// The sizes of a record, with the offset past them.
pub type ReadSizes = Result<(Sizes, usize), Refusal>;

// The step at an offset of a record, with the offset past it; or none at the record's end.
pub type ReadStep = Result<Option<(Step, usize)>, Refusal>;

// What a writer gives: the offset past the bytes written.
pub type Wrote = Result<usize, Refusal>;

// An outcome as document 01's numbers. answered: 0 no answer, 1 a value, 2 an acknowledgement.
#[repr(C)]
#[derive(Clone, Copy, Default)]
pub struct Given {
    pub number: u32,
    pub place: usize,
    pub answered: u32,
    pub site: u32,
    pub tag: u32,
    pub value: Value,
}

// Not below 1, and no more than the most.
fn in_limit(most: u8, n: u8) -> bool
    ensures { result ≡ within most n }
{
    (1..=most).contains(&n)
}

impl Sizes {
    // No sizes: those of a system that a refused fresh leaves (Numbers 18a).
    pub fn none() -> Sizes
        ensures { result ≡ no_sizes }
    {
        Sizes::default()
    }

    // Each size lies within its row of the table (Covers 4 to 9).
    #[tactic(auto, unfolding(crate::specs::Limits::in_limits))]
    pub fn fit(self) -> bool
        ensures { result ≡ in_limits self }
    {
        in_limit(System::MOST_SITES, self.sites)
            && in_limit(System::MOST_WORDS, self.words)
            && in_limit(System::MOST_LINES, self.lines)
            && in_limit(System::MOST_SETS, self.sets)
            && in_limit(System::MOST_PEND, self.pend)
            && in_limit(System::MOST_STALL, self.stall)
    }
}

impl Message {
    pub fn none() -> Message
        ensures { result ≡ no_message }
    {
        Message::default()
    }
}

impl Entry {
    pub fn none() -> Entry
        ensures { result ≡ no_entry }
    {
        Entry::default()
    }
}

impl Waiting {
    pub fn none() -> Waiting
        ensures { result ≡ no_waiting }
    {
        Waiting::default()
    }
}

impl Place {
    pub fn none() -> Place
        ensures { result ≡ no_place }
    {
        Place::default()
    }
}

impl System {
    // The most of each size, and the most steps that a drain takes (Covers 12).
    pub const MOST_SITES: u8 = 4;

    pub const MOST_WORDS: u8 = 4;

    pub const MOST_LINES: u8 = 16;

    pub const MOST_SETS: u8 = 8;

    pub const MOST_PEND: u8 = 5;

    pub const MOST_STALL: u8 = 8;

    pub const MOST_DRAIN: usize = 656;

    // A fresh system (Parts 7); for sizes outside their limits it holds 0 everywhere (Numbers 18a).
    #[tactic(auto, unfolding(crate::specs::Fresh::fresh_of))]
    pub fn fresh(z: Sizes) -> After
        ensures { result ≡ fresh_of z }
    {
        if z.fit() {
            return After {
                outcome: Ok(Answer::Nothing),
                system: System::empty(z),
            };
        }
        After {
            outcome: Err(Refusal::SizeOutside),
            system: System::empty(Sizes::none()),
        }
    }

    // All 0 but the sizes.
    #[tactic(auto, using(lists::proofs::Places::set_same))]
    fn empty(z: Sizes) -> System
        ensures { result ≡ blank z }
    {
        let line = Line { values: [0; 4] };
        let set = CacheSet { low: Place::none() };
        let pends = Pends {
            entries: [Entry::none(); 5],
            count: 0,
        };
        let stalls = Stalls {
            waiting: [Waiting::none(); 8],
            count: 0,
        };
        let near = SiteQueue {
            items: [Message::none(); 5],
            count: 0,
        };
        let far = Queue {
            items: [Message::none(); 20],
            count: 0,
        };
        let mut s = System {
            sizes: z,
            memory: [line; 16],
            caches: [Cache { sets: [set; 8] }; 4],
            pends: [pends; 4],
            stalls: [stalls; 4],
            outgoing: [near; 4],
            incoming: [near; 4],
            up: far,
            arrived: far,
            served: far,
            down: far,
        };
        // Changes nothing: the line is 0 already. A store at an index known only when it runs keeps the state in one
        // piece, which is faster.
        let k = (z.sites % 16) as usize;
        s.memory[k] = line;
        s
    }
}
