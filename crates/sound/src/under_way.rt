// What tells whether pend entries and messages belong together one to one (Parts 9j, 9k): a table that says
// of each name how many messages have it, and how many messages and entries there are.
ghost use Rattle.std.specs.Prelude.{◌≡◌, ◌≤◌, length, get_or, replicate, take};
ghost use Rattle.std.specs.List.{sum_by};
ghost use Rattle.lists.specs.Places.{all_below, all_of, each};
ghost use Rattle.model.specs.declared.Pends.{Pends};
ghost use Rattle.model.specs.declared.SiteQueue.{SiteQueue};
ghost use Rattle.model.specs.Parts.{past_pends};
ghost use Rattle.model.specs.Sound.{trip_for};
ghost use Rattle.sound.specs.Naming.{near_at, name_at, tallied, one_for};

use crate::arrays::first;
use model::{Message, Pends, SiteQueue};
use state::kinds::STOREL;

// How many messages have each name: 0 none, 1 one, 3 more.
#[derive(Drop)]
pub(crate) struct Names {
    of: [u8; 128],
}

// The name of a site, a line and a trip.
fn name(site: u8, line: u8, trip: u8) -> usize
    ensures { result ≡ name_at site line trip }
{
    (site % 4) as usize * 32 + (line % 16) as usize * 2 + (trip % 2) as usize
}

// The kind of trip that an entry of the kind waits for.
fn trip_for(kind: u8) -> u8
    ensures { result ≡ trip_for kind }
{
    if kind <= STOREL { 0 } else { 1 }
}

impl Names {
    // No message has any name.
    pub(crate) fn none() -> Names
        ensures { result.of ≡ replicate 128 0 }
    {
        Names { of: [0; 128] }
    }

    // The messages are counted too.
    #[tactic(auto, using(crate::proofs::Table::tallied_turn), unfolding(crate::specs::Naming::tallied))]
    pub(crate) fn count(&mut self, messages: &[Message])
        ensures { self.new.of ≡ tallied messages.now self.old.of }
    {
        for m in messages {
            let k = name(m.site, m.line, m.kind);
            // 0 becomes 1; 1 and 3 become 3.
            self.of[k] = self.of[k] % 2 * 2 + 1;
        }
    }

    // The messages of all sites' queues are counted too.
    #[tactic(auto, using(crate::proofs::Table::tallied_append), unfolding(crate::specs::Naming::tallied, lists::specs::Places::all_of))]
    pub(crate) fn count_near(&mut self, outgoing: &[SiteQueue; 4], incoming: &[SiteQueue; 4])
        ensures { self.new.of ≡ tallied (all_of 4 (near_at outgoing.now incoming.now)) self.old.of }
    {
        for (out, back) in outgoing.iter().zip(incoming) {
            self.count(first(&out.items, out.count));
            self.count(first(&back.items, back.count));
        }
    }

    // Each entry of site i has exactly one message.
    fn fit_site(&self, i: u8, p: &Pends) -> bool
        ensures { result ≡ each (one_for self.now.of i) (take p.now.count p.now.entries) }
    {
        first(&p.entries, p.count)
            .iter()
            .all(|e| self.of[name(i, e.line, trip_for(e.kind))] == 1)
    }

    // Each entry of the first sites has exactly one message.
    pub(crate) fn fit(&self, pends: &[Pends; 4], sites: u8) -> bool
        requires { sites ≤ 4 }
        ensures { result ≡ all_below sites (λ i. each (one_for self.now.of i) (take (get_or pends.now i past_pends).count (get_or pends.now i past_pends).entries)) }
    {
        (0..sites).all(|i| self.fit_site(i, &pends[i as usize]))
    }
}

// How many messages stand in the queues.
pub(crate) fn near_count(queues: &[SiteQueue]) -> u16
    requires { length queues.now ≤ 4 }
    ensures { result ≡ sum_by (λ (q : SiteQueue). q.count) queues.now }
{
    queues.iter().map(|q| q.count as u16).sum()
}

// How many entries the sites have.
pub(crate) fn entry_count(pends: &[Pends]) -> u16
    requires { length pends.now ≤ 4 }
    ensures { result ≡ sum_by (λ (p : Pends). p.count) pends.now }
{
    pends.iter().map(|p| p.count as u16).sum()
}
