// What is left in a system (Replay 2c): instructions that have no answer yet, and messages under way.
#![tactic(auto)]

ghost use Rattle.std.specs.Prelude.{◌≡◌, not, ◌+◌, ◌≤◌, eqb, length, take};
ghost use Rattle.lists.specs.Places.{tally};
ghost use Rattle.model.specs.declared.Entry.{Entry};
ghost use Rattle.model.specs.Kinds.{voluntary};
ghost use Rattle.model.specs.Left.{outstanding_left, messages_left};

use model::{Message, Pends, System};

// The kind of a pend entry that no instruction asked for.
const VOLUNTARY: u8 = 4;

// The pend entries that are not voluntary.
fn not_voluntary(p: &Pends) -> u64
    ensures value { result ≡ tally (λ (e : Entry). not (eqb e.kind voluntary)) p.now.count p.now.entries }
    ensures upper_bound { result ≤ 5 }
{
    p.entries
        .iter()
        .take(usize::from(p.count))
        .filter(|e| e.kind != VOLUNTARY)
        .count() as u64
}

// Parts 11: at a site these are the stalled instructions and the pend entries that an instruction asked for.
pub fn outstanding_left(s: &System) -> u64
    ensures { result ≡ outstanding_left s.now }
{
    s.stalls
        .iter()
        .zip(&s.pends)
        .take(usize::from(s.sizes.sites))
        .map(|(stalls, pends)| u64::from(stalls.count) + not_voluntary(pends))
        .sum()
}

// How many of the places of a queue are in use: no more than there are, whatever the count says.
fn in_use(items: &[Message], count: u8) -> u64
    ensures value { result ≡ length (take count items.now) }
    ensures upper_bound { result ≤ 255 }
{
    items.len().min(usize::from(count)) as u64
}

// The messages in all queues and networks.
#[tactic(auto, using(crate::proofs::Remaining::lengths), unfolding(lists::specs::Places::all_of, model::specs::Sound::under_way))]
pub fn messages_left(s: &System) -> u64
    ensures { result ≡ messages_left s.now }
{
    let mut n = 0;
    for (outgoing, incoming) in s.outgoing.iter().zip(&s.incoming) {
        n += in_use(&outgoing.items, outgoing.count) + in_use(&incoming.items, incoming.count);
    }
    n + in_use(&s.up.items, s.up.count)
        + in_use(&s.arrived.items, s.arrived.count)
        + in_use(&s.served.items, s.served.count)
        + in_use(&s.down.items, s.down.count)
}
