// The steps that carry a message on: send, arrive-memory, serve, send-back and arrive-site.
// With a refusal the state is as it was.
ghost use Rattle.std.specs.Prelude.{◌≡◌, ◌≤◌, ◌<◌, true};
ghost use Rattle.model.specs.Sound.{sound};
ghost use Rattle.model.specs.Steps.{sent, arrived_memory, serve_step, sent_back, arrived_site};
ghost use Rattle.steps.specs.After.{after};
ghost use Rattle.steps.specs.Carried.{moved, hopped};

use model::{Answer, Outcome, Queue, Refusal, System};
use rules::memory::{line_after, reply_to};
use state::queues::{net_put, net_rest, site_put, site_rest};

// The message at the position goes from one network or queue of memory to the other's tail.
fn hop(from: &mut Queue, position: u32, to: &mut Queue) -> Outcome
    requires { (from.old.count ≤ 20) × (position < from.old.count → to.old.count < 20) }
    ensures { moved result from.new to.new ≡ hopped from.old position to.old }
{
    if from.count as u32 <= position {
        return Err(Refusal::NothingThere);
    }
    let at = position as usize;
    let m = from.items[at];
    net_rest(from, at);
    net_put(to, m);
    Ok(Answer::Nothing)
}

// The first message of the site's outgoing queue goes to the up network.
#[tactic(auto, using(crate::proofs::Visits::few_sites, crate::proofs::Carries::room_to_send), unfolding(model::specs::Steps::sent, model::specs::Steps::sent_from, model::specs::Steps::after_send))]
pub(crate) fn send(s: &mut System, site: u32) -> Outcome
    requires { sound s.old ≡ true }
    ensures { after result s.new ≡ sent s.old site }
{
    if s.sizes.sites as u32 <= site {
        return Err(Refusal::NoSuchSite);
    }
    let q = &mut s.outgoing[site as usize];
    if q.count == 0 {
        return Err(Refusal::NothingThere);
    }
    let m = q.items[0];
    site_rest(q);
    net_put(&mut s.up, m);
    Ok(Answer::Nothing)
}

// A message of the up network goes to memory's incoming queue.
#[tactic(auto, using(crate::proofs::Carries::up_most, crate::proofs::Carries::room_to_arrive), unfolding(model::specs::Steps::arrived_memory, model::specs::Steps::after_arrive_memory))]
pub(crate) fn arrive_memory(s: &mut System, position: u32) -> Outcome
    requires { sound s.old ≡ true }
    ensures { after result s.new ≡ arrived_memory s.old position }
{
    hop(&mut s.up, position, &mut s.arrived)
}

// Memory does what its first request asks, and its reply goes to memory's outgoing queue.
#[tactic(auto, using(crate::proofs::Carries::room_to_serve, crate::proofs::Carries::line_served, crate::proofs::Carries::stores), unfolding(model::specs::Steps::serve_step, model::specs::Steps::after_serve))]
pub(crate) fn serve(s: &mut System) -> Outcome
    requires { sound s.old ≡ true }
    ensures { after result s.new ≡ serve_step s.old }
{
    if s.arrived.count == 0 {
        return Err(Refusal::NothingThere);
    }
    let m = s.arrived.items[0];
    let k = m.line as usize;
    let old = s.memory[k];
    s.memory[k] = line_after(old, m);
    net_rest(&mut s.arrived, 0);
    net_put(&mut s.served, reply_to(old, m));
    Ok(Answer::Nothing)
}

// The first message of memory's outgoing queue goes to the down network.
#[tactic(auto, using(crate::proofs::Carries::served_most, crate::proofs::Carries::room_to_go_back), unfolding(model::specs::Steps::sent_back, model::specs::Steps::after_send_back))]
pub(crate) fn send_back(s: &mut System) -> Outcome
    requires { sound s.old ≡ true }
    ensures { after result s.new ≡ sent_back s.old }
{
    hop(&mut s.served, 0, &mut s.down)
}

// A message of the down network goes to its site's incoming queue.
#[tactic(auto, using(crate::proofs::Carries::down_most, crate::proofs::Carries::site_reached, crate::proofs::Carries::room_to_reach), unfolding(model::specs::Steps::arrived_site, model::specs::Steps::after_arrive_site))]
pub(crate) fn arrive_site(s: &mut System, position: u32) -> Outcome
    requires { sound s.old ≡ true }
    ensures { after result s.new ≡ arrived_site s.old position }
{
    if s.down.count as u32 <= position {
        return Err(Refusal::NothingThere);
    }
    let at = position as usize;
    let m = s.down.items[at];
    site_put(&mut s.incoming[m.site as usize], m);
    net_rest(&mut s.down, at);
    Ok(Answer::Nothing)
}
