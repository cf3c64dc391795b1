// A site in hand: the parts of one site, taken out of a system for a visit and put back after it.
ghost use Rattle.std.specs.Prelude.{◌≡◌, ◌<◌, ◌≤◌, true, IfOk, IfErr};

use model::{Cache, Pends, Refusal, SiteQueue, Sizes, Stalls, System};

// Where the parts belong: the sizes of their system, and the number of their site.
#[derive(Clone, Copy)]
pub struct Home {
    pub sizes: Sizes,
    pub site: u8,
    pub ghost some_sets: { 0 < sizes.sets },
    pub ghost few_sets: { sizes.sets ≤ 8 },
    pub ghost few_sites: { site < 4 },
}

#[derive(Clone, Copy)]
pub struct Here {
    pub home: Home,
    pub cache: Cache,
    pub pends: Pends,
    pub stalls: Stalls,
    pub outgoing: SiteQueue,
    pub incoming: SiteQueue,
}

impl Here {
    ghost use Rattle.model.specs.declared.Refusal.TheVariants.{NoSuchSite};
    ghost use Rattle.model.specs.Parts.{put_site};
    ghost use Rattle.model.specs.Sound.{sound};
    ghost use Rattle.steps.specs.View.{site_of, Held};

    // The site taken out, where there is one of that number.
    #[tactic(auto, using(crate::proofs::Visits::sizes))]
    pub(crate) fn of(s: &System, site: u32) -> Result<Here, Refusal>
        requires { sound s.now ≡ true }
        ensures held { IfOk result (λ x. Held s.now site x) }
        ensures none { IfErr result (λ e. (e ≡ NoSuchSite) × (s.now.sizes.sites ≤ site)) }
    {
        if s.sizes.sites as u32 <= site {
            return Err(Refusal::NoSuchSite);
        }
        let k = site as usize;
        Ok(Here {
            home: Home {
                sizes: s.sizes,
                site: site as u8,
            },
            cache: s.caches[k],
            pends: s.pends[k],
            stalls: s.stalls[k],
            outgoing: s.outgoing[k],
            incoming: s.incoming[k],
        })
    }

    // The site put back.
    pub(crate) fn put_back(self, s: &mut System)
        ensures { s.new ≡ put_site s.old self.home.site (site_of self) }
    {
        let k = self.home.site as usize;
        s.caches[k] = self.cache;
        s.pends[k] = self.pends;
        s.stalls[k] = self.stalls;
        s.outgoing[k] = self.outgoing;
        s.incoming[k] = self.incoming;
    }
}
