//! Maps without fault lines, as steady sites.
use crate::map_site::MapSite;
use address::{Address, Origin};
use fetcher::{Answer, Ask, Body, Fetcher, SteadyFetcher};
use robots_rules::RuleSet;
use std::alloc::AllocError;
use std::marker::Model;

/// A site in memory, read from a map without fault lines. It gives each address one outcome, with
/// an empty body, and each origin one rule set. Contracts see what they see of a map.
#[derive(Drop)]
pub struct SteadyMap {
    map: MapSite,
}

impl Model for SteadyMap {
    ghost use Rattle.site_maps.specs.MapSites.{MapValue};

    ghost Value = { MapValue };

    ghost use Rattle.site_maps.specs.MapSites.{NeverFails};
    ghost use Rattle.site_maps.specs.Maps.{says_of};

    ghost view = { λ s. s.map };

    ghost invariant = { λ s. NeverFails (says_of s.map.answers s.map.rules) };
}

impl SteadyMap {
    ghost use Rattle.std.specs.Prelude.{◌≡◌, false, IfOk};
    ghost use Rattle.site_maps.specs.MapSites.{has_fault};

    // The site of a map without fault lines. Takes no memory.
    pub(crate) fn of(map: MapSite) -> Self
        requires { has_fault map.answers ≡ false }
        ensures { result ≡ map }
    {
        SteadyMap { map }
    }

    /// An equal site, with the same asks, or an error if memory ran out.
    pub fn try_clone(&self) -> Result<SteadyMap, AllocError>
        ensures { IfOk result (λ copy. copy ≡ self.now) }
    {
        Ok(SteadyMap {
            map: self.map.try_clone()?,
        })
    }
}

impl Fetcher for SteadyMap {
    ghost use Rattle.std.specs.Prelude.{◌≡◌, List, [], ◌∷◌, ◌++◌, IfOk, OnOk, OnErr};
    ghost use Rattle.fetcher.specs.declared.fetcher.Ask.TheVariants.{Page, Rules};
    ghost use Rattle.fetcher.specs.Logs.{GainedAtMost};
    ghost use Rattle.site_maps.specs.Maps.{says_of};
    ghost use Rattle.fetcher.specs.Sites.{SiteAnswers, GivesOutcome, GivesRules, without_faults};

    type Body = Body;

    ghost Site = { SiteAnswers };

    ghost site = { λ m. without_faults (says_of m.answers m.rules) };

    ghost says = { GivesOutcome };

    ghost rules = { GivesRules };

    ghost log = { λ m. m.asks };

    /// Requests the page of an address, as of the map.
    fn ask(&mut self, at: &Address) -> Result<Answer<Body>, AllocError> {
        self.map.ask(at)
    }

    /// Requests the robots rules of an origin, as of the map.
    fn ask_robots(&mut self, of: &Origin) -> Result<RuleSet, AllocError> {
        self.map.ask_robots(of)
    }

    /// What was asked, in order.
    fn asks(&self) -> &[Ask] {
        self.map.asks()
    }
}

impl SteadyFetcher for SteadyMap {
    ghost use Rattle.site_maps.specs.Maps.{says_of};
    ghost use Rattle.fetcher.specs.Sites.{without_faults-IsSteady};

    ghost steady = { λ m. without_faults-IsSteady (says_of m.answers m.rules) };
}
