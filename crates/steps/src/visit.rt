// The steps that visit a site: issue, retry and take. With a refusal the state is as it was.
ghost use Rattle.std.specs.Prelude.{◌≡◌, ◌≤◌, ◌<◌, true};
ghost use Rattle.model.specs.Limits.{addresses};
ghost use Rattle.model.specs.Handling.{place_of};
ghost use Rattle.model.specs.Issue.{as_waiting};
ghost use Rattle.model.specs.Sound.{sound};
ghost use Rattle.model.specs.Results.{Outcome};
ghost use Rattle.model.specs.Steps.{entered_at, issued, issued_at, retried, retried_at, took, took_at};
ghost use Rattle.steps.specs.After.{after};
ghost use Rattle.steps.specs.View.{site_of, waiting_of, Visit, at_site, Does, Fits};

use crate::here::Here;
use model::{Action, Answer, Instruction, Outcome, Refusal, Sizes, System, Waiting};
use rules::decision::decide;
use rules::issue::{Apart, address_fits, may_pass, tag_free, take_apart};
use state::kinds;
use state::pends::entry_for;
use state::queues::site_rest;
use state::stalls::{stall_put, stall_rest};

// An instruction is offered to the site.
pub(crate) fn issue(s: &mut System, site: u32, tag: u32, n: Instruction) -> Outcome
    requires { sound s.old ≡ true }
    ensures { after result s.new ≡ issued s.old site tag n }
{
    at_site(s, site, |here| here.issue(tag, n))
}

// The first instruction of the site's stall queue is tried again.
pub(crate) fn retry(s: &mut System, site: u32) -> Outcome
    requires { sound s.old ≡ true }
    ensures { after result s.new ≡ retried s.old site }
{
    at_site(s, site, |here| here.retry())
}

// The site takes the first reply that came in.
pub(crate) fn take(s: &mut System, site: u32) -> Outcome
    requires { sound s.old ≡ true }
    ensures { after result s.new ≡ took s.old site }
{
    at_site(s, site, |here| here.take_reply())
}

// The site of that number, if there is one, is taken out, visited and put back: the system then shows what the visit
// does to the site in hand.
#[tactic(auto, using(crate::proofs::Visits::no_site))]
fn at_site<F: FnOnce(&mut Here) -> Outcome>(s: &mut System, site: u32, visit: F) -> Outcome
    requires sound { sound s.old ≡ true }
    requires can_visit { (x : _) → Fits x.now → F.pre visit x }
    ensures { (g : Visit) → ((x : _) (o : Outcome) (y : _) → F.post visit x o y → Does x.now y.now o (g x.now.home.site (site_of x.now))) →
        after result s.new ≡ at_site g s.old site }
{
    let mut here = Here::of(s, site)?;
    let outcome = visit(&mut here);
    here.put_back(s);
    outcome
}

impl Here {
    // An instruction with its tag, past the looks that refuse it in the order of their numbers.
    #[tactic(auto, using(crate::proofs::Visits::laid_same), unfolding(model::specs::Steps::issued_at, model::specs::Issue::addresses_fit, model::specs::Issue::tag_free, model::specs::Issue::may_issue))]
    fn issue(&mut self, tag: u32, n: Instruction) -> Outcome
        requires { Fits self.old }
        ensures { Does self.old self.new result (λ s. issued_at s self.old.home.site (site_of self.old) n (as_waiting s.sizes tag n)) }
    {
        let a = take_apart(n);
        let z = self.home.sizes;
        if !address_fits(z, a.first) || !address_fits(z, a.last) {
            return Err(Refusal::AddressPastLast);
        }
        if !tag_free(&self.pends, &self.stalls, tag) {
            return Err(Refusal::TagOutstanding);
        }
        let w = as_waiting(z, tag, a);
        if !may_pass(&self.pends, &self.stalls, w) {
            return Err(Refusal::MayNotIssue);
        }
        if kinds::RECONCILE < w.kind {
            return Ok(self.acknowledged(tag));
        }
        self.enter(w)
    }

    // An instruction past the looks of an issue is handled, or it waits (Handling 1).
    #[tactic(auto, using(crate::proofs::Visits::laid_same, crate::proofs::Visits::laid_done, crate::proofs::Visits::waits_not), unfolding(model::specs::Steps::entered))]
    fn enter(&mut self, w: Waiting) -> Outcome
        requires { Fits self.old × (w.kind < 4) × (w.word < 4) }
        ensures { Does self.old self.new result (λ s. entered_at s self.old.home.site (site_of self.old) w (place_of s.sizes (site_of self.old) w.line)) }
    {
        let p = self.place_of(w.line);
        let facts = self.facts_of(w, p);
        match decide(w.kind, facts) {
            Action::Wait if facts.crowded => Err(Refusal::StallFull),
            Action::Wait => {
                stall_put(&mut self.stalls, w);
                Ok(Answer::Nothing)
            }
            action => Ok(self.perform(w, p, action)),
        }
    }

    // The first of the stall queue meets the rules again; if it has to wait once more, it stays where it is.
    #[tactic(auto, using(crate::proofs::Visits::laid_same, crate::proofs::Visits::laid_done, crate::proofs::Visits::waits_not, crate::proofs::Visits::uncrowded, crate::proofs::Visits::head_word), unfolding(model::specs::Steps::retried_at, model::specs::Steps::resumed))]
    fn retry(&mut self) -> Outcome
        requires { Fits self.old }
        ensures { Does self.old self.new result (λ s. retried_at s self.old.home.site (site_of self.old)) }
    {
        if self.stalls.count == 0 {
            return Err(Refusal::NothingThere);
        }
        let w = self.stalls.waiting[0];
        let p = self.place_of(w.line);
        match decide(w.kind, self.facts_of(w, p)) {
            Action::Wait => Err(Refusal::MustStillWait),
            action => {
                stall_rest(&mut self.stalls);
                Ok(self.perform(w, p, action))
            }
        }
    }

    // The first reply of the incoming queue, with the pend entry that it is for.
    #[tactic(auto, using(crate::proofs::Visits::laid_same, crate::proofs::Visits::laid_done, crate::proofs::Visits::room_to_reply, crate::proofs::Visits::entry_word), unfolding(model::specs::Steps::took_at))]
    fn take_reply(&mut self) -> Outcome
        requires { Fits self.old }
        ensures { Does self.old self.new result (λ s. took_at s self.old.home.site (site_of self.old)) }
    {
        if self.incoming.count == 0 {
            return Err(Refusal::NothingThere);
        }
        let m = self.incoming.items[0];
        let position = entry_for(&self.pends, m.line);
        let e = self.pends.entries[position];
        site_rest(&mut self.incoming);
        Ok(self.take(position, e, m))
    }
}

// The instruction as it waits or pends.
fn as_waiting(z: Sizes, tag: u32, a: Apart) -> Waiting
    requires { (a.first < addresses z) × (0 < z.words) }
    ensures { result ≡ waiting_of z tag a }
{
    let words = z.words as u32;
    Waiting {
        kind: a.kind,
        line: (a.first / words) as u8,
        word: (a.first % words) as u8,
        tag,
        value: a.value,
    }
}
