// The search for the step that the drain takes next.
ghost use Rattle.std.specs.Prelude.{◌≡◌, ◌≤◌, ◌<◌};
ghost use Rattle.model.specs.Drain.{tries};
ghost use Rattle.model.specs.Record.{move_of};
ghost use Rattle.drain.specs.Search.{standing, width_of, first_by};

use codes::kinds::move_of;
use model::{Step, System};

// The kinds in the order in which they are tried (Drain 1a).
const TRIED: [u32; 7] = [7, 6, 5, 4, 3, 2, 1];

// How many steps of the kind are tried: one at each site, but kinds 3 to 6 have no site.
fn width(kind: u32, sites: usize) -> usize
    ensures { result ≡ width_of sites kind }
{
    if (3..=6).contains(&kind) {
        return 1;
    }
    sites
}

// Something stands where the step of that kind, with that site or position, takes one from.
#[tactic(auto, unfolding(model::specs::Record::move_of, promises::proofs::Choices::stock))]
fn stands(s: &System, kind: u32, site: usize) -> bool
    requires { site < 4 }
    ensures { result ≡ standing s.now (move_of kind site) }
{
    match kind {
        1 => 0 < s.stalls[site].count,
        2 => 0 < s.outgoing[site].count,
        3 => 0 < s.up.count,
        4 => 0 < s.arrived.count,
        5 => 0 < s.served.count,
        6 => 0 < s.down.count,
        _ => 0 < s.incoming[site].count,
    }
}

// The first try where something stands.
// In a sound state it succeeds. Only a retry could fail there, and it is tried last: then nothing is under way, so its
// instruction need not wait (proofs/Standing.antt).
#[tactic(auto, using(crate::proofs::Tries::turns))]
pub(crate) fn first_step(s: &System) -> Option<Step>
    requires { s.now.sizes.sites ≤ 4 }
    ensures { result ≡ first_by (standing s.now) (tries s.now.sizes.sites) }
{
    let sites = s.sizes.sites as usize;
    let mut found = None;
    'kinds: for kind in TRIED {
        'sites: for site in 0..width(kind, sites) {
            if stands(s, kind, site) {
                found = Some(move_of(kind, site as u32));
                break 'kinds;
            }
        }
    }
    found
}
