// Whether a state is sound (Parts 9, 10): each part of it fits, and its pend entries and messages belong together
// one to one. Near: a site's two queues; far: the networks and memory's queues.
#![tactic(auto)]

ghost use Rattle.std.specs.Prelude.{◌≡◌, replicate};
ghost use Rattle.model.specs.Sound.{parts_fit, sound, under_way};
ghost use Rattle.promises.proofs.Room.{message_count};
ghost use Rattle.sound.specs.Naming.{tallied};

use crate::arrays::first;
use crate::memory::memory_fits;
use crate::messages::{Side, far_fits};
use crate::sites::sites_fit;
use crate::under_way::{Names, entry_count, near_count};
use model::System;

mod arrays;
mod differ;
mod entries;
mod memory;
mod messages;
mod places;
mod sites;
mod under_way;
mod words;

// Each part of the state fits.
fn parts_fit(s: &System) -> bool
    ensures { result ≡ parts_fit s.now }
{
    s.sizes.fit()
        && memory_fits(&s.sizes, &s.memory)
        && sites_fit(s)
        && far_fits(&s.sizes, Side::Requests, &s.up)
        && far_fits(&s.sizes, Side::Requests, &s.arrived)
        && far_fits(&s.sizes, Side::Replies, &s.served)
        && far_fits(&s.sizes, Side::Replies, &s.down)
}

// The messages under way and how many have each name.
fn named(s: &System) -> Names
    ensures { result.of ≡ tallied (under_way s.now) (replicate 128 0) }
{
    let mut names = Names::none();
    names.count_near(&s.outgoing, &s.incoming);
    names.count(first(&s.up.items, s.up.count));
    names.count(first(&s.arrived.items, s.arrived.count));
    names.count(first(&s.served.items, s.served.count));
    names.count(first(&s.down.items, s.down.count));
    names
}

// How many messages are under way.
fn message_count(s: &System) -> usize
    ensures { result ≡ message_count s.now }
{
    near_count(&s.outgoing) as usize
        + near_count(&s.incoming) as usize
        + s.up.count as usize
        + s.arrived.count as usize
        + s.served.count as usize
        + s.down.count as usize
}

// The state is sound.
#[tactic(auto, unfolding(model::specs::Sound::sound))]
pub fn is_sound(s: &System) -> bool
    ensures { result ≡ sound s.now }
{
    if !parts_fit(s) {
        return false;
    }
    let sites = s.sizes.sites;
    named(s).fit(&s.pends, sites)
        && message_count(s) == entry_count(first(&s.pends, sites)) as usize
}
