// The step: of a sound state, and of any state.
#![tactic(auto)]

mod handling;
mod here;
mod hops;
mod taking;
mod visit;

ghost use Rattle.std.specs.Prelude.{◌≡◌, ◌≤◌, get_or, true};
ghost use Rattle.model.specs.Record.{numbers_of};
ghost use Rattle.model.specs.Sound.{sound};
ghost use Rattle.model.specs.Steps.{step_of, stepped};
ghost use Rattle.steps.specs.After.{after};

use hops::{arrive_memory, arrive_site, send, send_back, serve};
use model::{After, Outcome, Refusal, Step, System};
use sound::is_sound;
use visit::{issue, retry, take};

// A step on a sound state; with a refusal the state is as it was. It asks for soundness and does not look:
// what it leaves is sound again, so whoever steps on need not look either.
// First come a site's steps on the way out; what is not of the kind looked for leaves by `else`.
#[tactic(auto, using(crate::proofs::KindsLeft::past_send), unfolding(model::specs::Steps::step_of))]
pub fn step_sound(s: &mut System, x: Step) -> Outcome
    requires { sound s.old ≡ true }
    ensures { after result s.new ≡ step_of s.old x }
{
    let Step::Issue {
        site,
        tag,
        instruction,
    } = x
    else {
        let Step::Retry(site) = x else {
            let Step::Send(site) = x else {
                return step_at_memory(s, x);
            };
            return send(s, site);
        };
        return retry(s, site);
    };
    issue(s, site, tag, instruction)
}

// Then memory's steps: a request arrives there, it is served, and its reply goes back.
#[tactic(auto, using(crate::proofs::KindsLeft::past_send_back), unfolding(model::specs::Steps::step_of))]
fn step_at_memory(s: &mut System, x: Step) -> Outcome
    requires sound { sound s.old ≡ true }
    requires left { let kind = get_or (numbers_of x) 0 0 in 3 ≤ kind }
    ensures { after result s.new ≡ step_of s.old x }
{
    let Step::ArriveMemory(position) = x else {
        let Step::Serve = x else {
            let Step::SendBack = x else {
                return step_of_reply(s, x);
            };
            return send_back(s);
        };
        return serve(s);
    };
    arrive_memory(s, position)
}

// Then the steps of a reply, which arrives at its site and is taken there. No other kind is left.
#[tactic(auto, using(crate::proofs::KindsLeft::none_left), unfolding(model::specs::Steps::step_of))]
fn step_of_reply(s: &mut System, x: Step) -> Outcome
    requires sound { sound s.old ≡ true }
    requires left { let kind = get_or (numbers_of x) 0 0 in 6 ≤ kind }
    ensures { after result s.new ≡ step_of s.old x }
{
    let Step::ArriveSite(position) = x else {
        let Step::Take(site) = x else { unreachable!() };
        return take(s, site);
    };
    arrive_site(s, position)
}

// A step on any state: one that is not sound is refused with 1.
#[tactic(auto, unfolding(model::specs::Steps::stepped))]
pub fn step_on(s: &mut System, x: Step) -> Outcome
    ensures { after result s.new ≡ stepped s.old x }
{
    if !is_sound(s) {
        return Err(Refusal::NotSound);
    }
    step_sound(s, x)
}

// A step from any state to the next.
pub fn step(mut s: System, x: Step) -> After
    ensures { result ≡ stepped s x }
{
    let outcome = step_on(&mut s, x);
    After { outcome, system: s }
}
