// Which action a site handles an instruction by (Handling 2 to 12), from the six facts.
ghost use Rattle.std.specs.Prelude.{◌≡◌, cond};
ghost use Rattle.model.specs.Handling.{missed, absent, on_commit, on_reconcile, decided};

use model::{Action, Facts};
use state::kinds::{COMMIT, LOADL, STOREL};

// Not cached, and a fetch is wanted: with no entry free, or the line pending, wait (C5, C14); else fetch (C4, C13).
#[tactic(auto, unfolding(model::specs::Handling::missed))]
fn missed(f: Facts) -> Action
    ensures { result ≡ missed f }
{
    if f.full || f.pending {
        Action::Wait
    } else {
        Action::Fetch
    }
}

// A Loadl or a Storel: cached, it is done at once, by this action (Loadl C2, C3; Storel C12); else a fetch is wanted.
fn on_access(f: Facts, cached: Action) -> Action
    ensures { result ≡ cond f.cached cached (missed f) }
{
    if f.cached { cached } else { missed(f) }
}

// Not cached, and nothing is to be fetched: with the line pending, wait (C26, C39); else acknowledge (C25, C38).
#[tactic(auto, unfolding(model::specs::Handling::absent))]
fn absent(f: Facts) -> Action
    ensures { result ≡ absent f }
{
    if f.pending {
        Action::Wait
    } else {
        Action::Acknowledge
    }
}

// A Commit whose line is cached: with its word Clean, acknowledge (C22); Dirty, and no entry free, wait (C24);
// else write the line back and keep it (C23).
#[tactic(auto, unfolding(model::specs::Handling::on_commit))]
fn on_commit(f: Facts) -> Action
    ensures { result ≡ on_commit f }
{
    if !f.cached {
        absent(f)
    } else if !f.dirty {
        Action::Acknowledge
    } else if f.full {
        Action::Wait
    } else {
        Action::WriteBackKept
    }
}

// A Reconcile whose line is cached: with its word Dirty, acknowledge (C37); with no word Dirty, drop the line (C36);
// with another word Dirty and no entry free, wait (C35); else write the line back and drop it (C34).
#[tactic(auto, unfolding(model::specs::Handling::on_reconcile))]
fn on_reconcile(f: Facts) -> Action
    ensures { result ≡ on_reconcile f }
{
    if !f.cached {
        absent(f)
    } else if f.dirty {
        Action::Acknowledge
    } else if !f.stained {
        Action::Drop
    } else if f.full {
        Action::Wait
    } else {
        Action::WriteBackDropped
    }
}

// The action for an instruction of this kind, from the six facts.
#[tactic(auto, unfolding(model::specs::Handling::decided, model::specs::Handling::on_loadl, model::specs::Handling::on_storel))]
pub fn decide(kind: u8, f: Facts) -> Action
    ensures { result ≡ decided kind f }
{
    match kind {
        LOADL => on_access(f, Action::Load),
        STOREL => on_access(f, Action::Store),
        COMMIT => on_commit(f),
        _ => on_reconcile(f),
    }
}
