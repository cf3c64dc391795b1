// Issue 1 to 5, figure 4-4, over the outstanding instructions of a site; and the looks for 4 and 5.
ghost use Rattle.std.specs.Prelude.{◌≡◌, ◌&&◌, Bool, ltb};
ghost use Rattle.lists.specs.Places.{none_of};
ghost use Rattle.model.specs.declared.Waiting.{Waiting};
ghost use Rattle.model.specs.Limits.{addresses};
ghost use Rattle.model.specs.Sound.{waits_under, pends_under};
ghost use Rattle.model.specs.Issue.{blocks, in_the_way};
ghost use Rattle.rules.specs.Apart.{apart_of};

use model::{Instruction, Pends, Sizes, Stalls, Value, Waiting};
use state::kinds::{COMMIT, FENCE_RR, FENCE_RW, FENCE_WR, FENCE_WW, LOADL, RECONCILE, STOREL};
use state::{pends, stalls};

// An instruction taken apart: its kind, its first and last address, its value.
#[derive(Clone, Copy)]
pub struct Apart {
    pub kind: u8,
    pub first: u32,
    pub last: u32,
    pub value: Value,
}

impl Apart {
    fn of(kind: u8, first: u32, last: u32, value: Value) -> Apart
        ensures { result ≡ record { kind = kind; first = first; last = last; value = value } }
    {
        Apart {
            kind,
            first,
            last,
            value,
        }
    }
}

// One address is both the first and the last; all but a Storel have the value 0.
#[tactic(auto, unfolding(model::specs::Issue::kind_of, model::specs::Issue::first_address, model::specs::Issue::last_address, model::specs::Issue::value_of))]
pub fn take_apart(n: Instruction) -> Apart
    ensures { result ≡ apart_of n }
{
    match n {
        Instruction::Loadl { address } => Apart::of(LOADL, address, address, 0),
        Instruction::Storel { address, value } => Apart::of(STOREL, address, address, value),
        Instruction::Commit { address } => Apart::of(COMMIT, address, address, 0),
        Instruction::Reconcile { address } => Apart::of(RECONCILE, address, address, 0),
        Instruction::FenceRr { first, second } => Apart::of(FENCE_RR, first, second, 0),
        Instruction::FenceRw { first, second } => Apart::of(FENCE_RW, first, second, 0),
        Instruction::FenceWr { first, second } => Apart::of(FENCE_WR, first, second, 0),
        Instruction::FenceWw { first, second } => Apart::of(FENCE_WW, first, second, 0),
    }
}

// The address exists (Numbers 4).
pub fn address_fits(z: Sizes, address: u32) -> bool
    ensures { result ≡ ltb address (addresses z) }
{
    address < z.lines as u32 * z.words as u32
}

// Nothing outstanding at the site has this tag (Numbers 5).
pub fn tag_free(p: &Pends, t: &Stalls, tag: u32) -> bool
    ensures { result ≡ none_of (waits_under tag) t.now.count t.now.waiting && none_of (pends_under tag) p.now.count p.now.entries }
{
    stalls::no_tag(t, t.count as usize, tag) && pends::no_tag(p, p.count as usize, tag)
}

// Nothing that is outstanding at the site is in the instruction's way (Issue 1).
pub fn may_pass(p: &Pends, t: &Stalls, later: Waiting) -> bool
    ensures { result ≡ none_of (λ w. in_the_way w.kind w.line w.word later) t.now.count t.now.waiting && none_of (λ e. in_the_way e.kind e.line e.word later) p.now.count p.now.entries }
{
    none_of(
        &t.waiting,
        t.count as usize,
        |w| in_the_way(w.kind, w.line, w.word, later),
    ) && none_of(
        &p.entries,
        p.count as usize,
        |e| in_the_way(e.kind, e.line, e.word, later),
    )
}

// None of the first n earlier ones holds back the later one, and there are so many places.
fn none_of<T, F: Fn(&T) -> bool>(earlier: &[T], n: usize, holds_back: F) -> bool
    requires { (state : F) (x : _) → F.pre state x }
    ensures { (test : T → Bool) → ((x : _) (b : Bool) → F.post holds_back x b → b ≡ test x.now) → result ≡ none_of test n earlier.now }
{
    n <= earlier.len() && earlier[..n].iter().all(|one| !holds_back(one))
}

// An earlier instruction, of a kind and at a line and a word, is in the way of a later one.
fn in_the_way(kind: u8, line: u8, word: u8, later: Waiting) -> bool
    ensures { result ≡ in_the_way kind line word later }
{
    line == later.line && word == later.word && cannot_pass(kind, later.kind)
}

// At one address, the later kind cannot pass the earlier.
#[tactic(auto, unfolding(model::specs::Issue::blocks))]
fn cannot_pass(earlier: u8, later: u8) -> bool
    ensures { result ≡ blocks earlier later }
{
    match earlier {
        LOADL => later == STOREL || later == FENCE_RR || later == FENCE_RW,
        STOREL => later == LOADL || later == STOREL || later == COMMIT,
        COMMIT => later == FENCE_WR || later == FENCE_WW,
        RECONCILE => later == LOADL,
        _ => false,
    }
}
