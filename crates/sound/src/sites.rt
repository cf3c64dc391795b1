// What stands at a site fits: its cache, its pend entries, its stall queue and its two queues.
// A site past the sizes holds nothing.
ghost use Rattle.std.specs.Prelude.{◌≡◌, ◌<◌};
ghost use Rattle.model.specs.Parts.{site_at};
ghost use Rattle.model.specs.Sound.{site_fits, free_site, sites_fit};

use crate::arrays::{first, none_in_use};
use crate::differ::all_differ;
use crate::entries::{free_entry, free_waiting, pends_fit, stalls_fit};
use crate::messages::{Side, free_message, near_fits};
use crate::places::{cache_fits, cache_free};
use model::System;

// Site i of the system.
#[tactic(auto, using(crate::proofs::Site::own_tests), unfolding(model::specs::Sound::site_fits))]
fn site_fits(s: &System, i: u8) -> bool
    requires { i < 4 }
    ensures { result ≡ site_fits s.now.sizes i (site_at s.now i) }
{
    let at = i as usize;
    let z = &s.sizes;
    let sets = &s.caches[at].sets;
    let pends = &s.pends[at];
    let stalls = &s.stalls[at];
    cache_fits(z, sets)
        && pends_fit(z, pends)
        && stalls_fit(z, stalls)
        && all_differ(
            z,
            sets,
            first(&pends.entries, pends.count),
            first(&stalls.waiting, stalls.count),
        )
        && near_fits(z, Side::Requests, i, &s.outgoing[at])
        && near_fits(z, Side::Replies, i, &s.incoming[at])
}

// Site i, past the sizes: nothing of it may be in use.
#[tactic(auto, using(crate::proofs::InUse::whole_array), unfolding(model::specs::Sound::free_site))]
fn free_site(s: &System, i: u8) -> bool
    requires { i < 4 }
    ensures { result ≡ free_site (site_at s.now i) }
{
    let at = i as usize;
    cache_free(&s.caches[at].sets)
        && none_in_use(s.pends[at].count, &s.pends[at].entries, free_entry)
        && none_in_use(s.stalls[at].count, &s.stalls[at].waiting, free_waiting)
        && none_in_use(s.outgoing[at].count, &s.outgoing[at].items, free_message)
        && none_in_use(s.incoming[at].count, &s.incoming[at].items, free_message)
}

// The four sites: those of the system, and those past the sizes.
pub(crate) fn sites_fit(s: &System) -> bool
    ensures { result ≡ sites_fit s.now }
{
    let sites = s.sizes.sites;
    // Each part has a place for four sites.
    prove_eq!(s.caches[..].len(), 4);
    prove_eq!(s.pends[..].len(), 4);
    prove_eq!(s.stalls[..].len(), 4);
    prove_eq!(s.outgoing[..].len(), 4);
    prove_eq!(s.incoming[..].len(), 4);
    (0..4u8).all(|i| if i < sites {
        site_fits(s, i)
    } else {
        free_site(s, i)
    })
}
