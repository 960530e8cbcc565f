//! Sites that are read from a map.
use crate::known::KnownAddresses;
use crate::reading::MapReading;
use crate::steady_map::SteadyMap;
use address::{Address, Origin};
use fetcher::{Answer, Ask, Body, Fetcher, NOT_FOUND, Outcome};
use indexmap::IndexMap;
use robots_rules::RuleSet;
use site_inputs::{InputFault, KeptRules};
use std::alloc::{AllocError, Global};
use std::marker::Model;
use std::sync::Arc;

// What a map states.
#[derive(Drop)]
struct Stated {
    answers: IndexMap<Address, Outcome>,
    rules: IndexMap<Origin, KeptRules>,
}

/// A site in memory, read from a map. It gives each address one outcome, with a body of no bytes, which is
/// HTML if the outcome is a page, and each origin one rule set. Copies share the map; each has its own asks. Contracts see the
/// answers and the rule sets that the map states, and what was asked.
pub struct MapSite {
    alloc: Global,
    stated: Arc<Stated>,
    asks: Vec<Ask>,
}

// By hand: who drops one proves a call, and nothing of what it holds.
impl Drop for MapSite {
    fn drop(self) {
        let MapSite {
            alloc: _alloc,
            stated: _stated,
            asks: _asks,
        } = self;
    }
}

impl Model for MapSite {
    ghost use Rattle.std.specs.Arc.{arc_value};
    ghost use Rattle.site_maps.specs.MapSites.{MapValue};

    ghost Value = { MapValue };

    ghost view = { λ m. record { answers = (arc_value m.stated).answers.entries; rules = (arc_value m.stated).rules.entries; asks = m.asks.items } };
}

impl MapSite {
    ghost use Rattle.std.specs.Prelude.{◌≡◌, [], true, false, List, IfOk, IfErr};
    ghost use Rattle.site_maps.specs.MapSites.{has_fault};
    ghost use Rattle.site_maps.specs.Lines.{Statement};
    ghost use Rattle.site_maps.specs.Maps.{text_lines_of, IsMap, answers_of, rules_of, outcome_in_map, IsFault};
    ghost use Rattle.site_inputs.specs.Tables.{rules_at};
    ghost use Rattle.site_maps.specs.inner.Readings.{IsFresh, answers_in, all_rules};

    /// Reads a map. Each page, moved, leaf and fault line states the outcome of an address, and
    /// each robots line the rules of an origin; edge lines give edges to the page above them, and
    /// rule lines give rules to the origin above them, for every agent (RFC 9309, section 2.2).
    /// The error names the first bad line, or says that memory ran out.
    pub fn read(alloc: Global, text: &[u8]) -> Result<MapSite, InputFault>
        ensures map { IfOk result (λ m. (said : List Statement) × IsMap (text_lines_of text.now) said × (m ≡ record { answers = answers_of said; rules = rules_of said; asks = [] })) }
        ensures fault { IfErr result (λ f. IsFault text.now f) }
    {
        let mut reading = MapReading::new(alloc);
        let mut known = KnownAddresses::new(alloc);
        let mut number = 0;
        for line in text.split(|byte| *byte == b'\n') {
            number += 1;
            if let Err(fault) = reading.read_line(&mut known, line) {
                // By a call, since what an exit drops is proved anew at each exit.
                drop(reading);
                drop(known);
                return Err(fault.at(number));
            }
        }
        drop(known);
        Ok(MapSite::of(reading)?)
    }

    // The site of the answers and the rule sets so far.
    fn of(mut reading: MapReading) -> Result<MapSite, AllocError>
        ensures { IsFresh reading → IfOk result (λ m. m ≡ record { answers = answers_in reading; rules = all_rules reading; asks = [] }) }
    {
        if reading.close().is_err() {
            drop(reading);
            return Err(AllocError);
        }
        let MapReading {
            alloc,
            answers,
            rules,
            open,
        } = reading;
        drop(open);
        Ok(MapSite {
            alloc,
            stated: Arc::new(alloc, Stated { answers, rules })?,
            asks: Vec::new(alloc),
        })
    }

    /// An equal site, which shares the map of this one, with the same asks, or an error if memory
    /// ran out.
    pub fn try_clone(&self) -> Result<MapSite, AllocError>
        ensures { IfOk result (λ copy. copy ≡ self.now) }
    {
        Ok(MapSite {
            alloc: self.alloc,
            stated: Arc::try_clone(&self.stated)?,
            asks: self.asks.clone()?,
        })
    }

    /// The site as a steady one, with the same asks; refused, and handed back as it was, if the
    /// map has a fault line. Takes no memory.
    pub fn steady(self) -> Result<SteadyMap, MapSite>
        ensures taken { IfOk result (λ s. (s ≡ self) × (has_fault self.answers ≡ false)) }
        ensures refused { IfErr result (λ m. (m ≡ self) × (has_fault self.answers ≡ true)) }
    {
        if self.has_fault() {
            return Err(self);
        }
        Ok(SteadyMap::of(self))
    }

    // Whether the map has a fault line.
    fn has_fault(&self) -> bool
        ensures { result ≡ has_fault self.now.answers }
    {
        self.stated
            .answers
            .values()
            .any(|outcome| outcome.is_fault())
    }

    // What the map says of an address.
    fn outcome(&self, at: &Address) -> Result<Outcome, AllocError>
        ensures { IfOk result (λ x. x ≡ outcome_in_map self.now.answers at.now) }
    {
        match self.stated.answers.get(at) {
            Some(outcome) => outcome.try_clone(),
            None => Ok(Outcome::Leaf(NOT_FOUND)),
        }
    }

    // What the map says of an origin.
    fn rule_set(&self, of: &Origin) -> Result<RuleSet, AllocError>
        ensures { IfOk result (λ r. r ≡ rules_at self.now.rules of.now) }
    {
        match self.stated.rules.get(of) {
            Some(kept) => kept.rule_set(),
            None => Ok(RuleSet::all()),
        }
    }
}

impl Fetcher for MapSite {
    ghost use Rattle.std.specs.Prelude.{◌≡◌, ℕ, List, [], ◌∷◌, ◌++◌, IfOk, OnOk, OnErr};
    ghost use Rattle.fetcher.specs.declared.outcome.Outcome.{Outcome};
    ghost use Rattle.fetcher.specs.declared.fetcher.Ask.TheVariants.{Page, Rules};
    ghost use Rattle.fetcher.specs.Logs.{GainedAtMost};
    ghost use Rattle.site_maps.specs.Maps.{says_of};
    ghost use Rattle.fetcher.specs.Sites.{SiteAnswers, GivesOutcome, GivesRules};

    type Body = Body;

    ghost Site = { SiteAnswers };

    ghost site = { λ m. says_of m.answers m.rules };

    ghost says = { GivesOutcome };

    ghost rules = { GivesRules };

    ghost log = { λ m. m.asks };

    /// Requests the page of an address. The answer is what the map says of it, with a body of no bytes, which is HTML
    /// if it is a page; the request is logged first, and the map stays what it is.
    fn ask(&mut self, at: &Address) -> Result<Answer<Body>, AllocError> {
        self.asks.push(Ask::Page(at.try_clone()?))?;
        let outcome = self.outcome(at)?;
        Ok(Answer::bare(self.alloc, outcome))
    }

    /// Requests the robots rules of an origin. They are those that the map states, and allow everything if it states
    /// none; the request is logged first, and the map stays what it is.
    fn ask_robots(&mut self, of: &Origin) -> Result<RuleSet, AllocError> {
        self.asks.push(Ask::Rules(of.try_clone()?))?;
        self.rule_set(of)
    }

    /// What was asked, in order.
    fn asks(&self) -> &[Ask] {
        self.asks.as_slice()
    }
}
