//! A site for which a fetcher requests what a record doesn't say.
ghost use Rattle.std.specs.Prelude.{◌≡◌, ◌++◌, ◌∷◌, List, [], IfOk, OnOk, OnErr, drop, take, length, All};
ghost use Rattle.fetcher.specs.Logs.{GainedAtMost};
ghost use Rattle.fetcher.specs.declared.fetcher.Ask.TheVariants as ask;
ghost use Rattle.fetcher.specs.Sites.{SiteAnswers, AreAnswers};
ghost use Rattle.fetcher.specs.declared.fetcher.Ask.{Ask};
ghost use Rattle.site_records.specs.Resumption.{AreOf, IsUnstated, IsSpared, RulesOr, SaysOr};

use crate::recorded_site::RecordedSite;
use address::{Address, Origin};
use answer_notes::{Noted, Recording};
use fetcher::{Answer, Ask, Body, Fetcher};
use observer::Observer;
use robots_rules::RuleSet;
use std::alloc::{AllocError, Global};
use std::marker::Model;

/// Answers from a record what this states, recorded faults too, and asks a fetcher for the rest. An observer counts the first.
#[derive(Drop)]
pub struct Resumed<'a, F: Fetcher<Body = Body>, O: Observer> {
    recorded: RecordedSite,
    inner: F,
    asks: Vec<Ask>,
    since: usize,
    observer: &'a O,
}

impl<'a, F: Fetcher<Body = Body>, O: Observer> Model for Resumed<'a, F, O> {
    ghost use Rattle.site_records.specs.Resumption.{Resuming, IsSpared};

    ghost Value = { Resuming F };

    ghost view = { λ r. record { recorded = r.recorded; inner = r.inner; asks = r.asks.items; since = r.since } };

    ghost invariant = { λ r. IsSpared r.recorded.answers r.recorded.rules r.since (F.log r.inner) };
}

impl<'a, F: Fetcher<Body = Body>, O: Observer> Resumed<'a, F, O> {
    /// Answers from the record, and asks the fetcher for what this doesn't state. Takes no memory; later growth comes from
    /// `alloc`.
    pub fn new(
        alloc: Global,
        recorded: RecordedSite,
        inner: F,
        observer: &'a O,
    ) -> Resumed<'a, F, O>
        ensures recorded { result.recorded ≡ recorded }
        ensures inner { result.inner ≡ inner }
        ensures asks { result.asks ≡ [] }
        ensures since { result.since ≡ length (F.log inner) }

        // If the fetcher's site is steady and the record's answers are that site's, this is that site.
        ensures steady { (answers : SiteAnswers) → AreAnswers F.says F.rules (F.site inner) answers
            → AreOf F.says F.rules (F.site inner) recorded.answers recorded.rules
            → AreAnswers (SaysOr F.says) (RulesOr F.rules)
            (record { answers = recorded.answers; rules = recorded.rules; inner = F.site inner; before = F.log inner }) answers }
    {
        let since = inner.asks().len();
        Resumed {
            recorded,
            inner,
            asks: Vec::new(alloc),
            since,
            observer,
        }
    }

    /// The fetcher. What it was asked since it was handed in is nothing that the record states.
    pub fn inner(&self) -> &F
        ensures value { result.now ≡ self.now.inner }
        ensures spared { IsSpared self.now.recorded.answers self.now.recorded.rules self.now.since (F.log result.now) }
    {
        &self.inner
    }

    /// The record.
    pub fn recorded(&self) -> &RecordedSite
        ensures { result.now ≡ self.now.recorded }
    {
        &self.recorded
    }
}

impl<'a, F: Fetcher<Body = Body>, O: Observer> Fetcher for Resumed<'a, F, O> {
    ghost use Rattle.site_records.specs.Resumption.{Resumption, resumption_of, SaysOr, RulesOr};

    type Body = Body;

    ghost Site = { Resumption F.Site };

    ghost site = { resumption_of F.site F.log };

    ghost says = { SaysOr F.says };

    ghost rules = { RulesOr F.rules };

    ghost log = { λ r. r.asks };

    fn ask(&mut self, at: &Address) -> Result<Answer<Body>, AllocError>
        ensures site { resumption_of F.site F.log self.new ≡ resumption_of F.site F.log self.old }
        ensures told { IfOk result (λ a. SaysOr F.says (resumption_of F.site F.log self.old) at.now a.outcome a.body) }
        ensures asked { OnOk result (self.new.asks ≡ self.old.asks ++ ask.Page at.now ∷ []) }
        ensures refused { OnErr result (GainedAtMost self.old.asks self.new.asks (ask.Page at.now)) }
        // The fetcher is asked this once, or not at all.
        ensures once { GainedAtMost (F.log self.old.inner) (F.log self.new.inner) (ask.Page at.now) }
    {
        self.asks.push(Ask::Page(at.try_clone()?))?;
        match self.recorded.stated_answer(at)? {
            Some(answer) => {
                self.observer.recorded();
                Ok(answer)
            }
            None => self.inner.ask(at),
        }
    }

    fn ask_robots(&mut self, of: &Origin) -> Result<RuleSet, AllocError>
        ensures site { resumption_of F.site F.log self.new ≡ resumption_of F.site F.log self.old }
        ensures told { IfOk result (λ r. RulesOr F.rules (resumption_of F.site F.log self.old) of.now r) }
        ensures asked { OnOk result (self.new.asks ≡ self.old.asks ++ ask.Rules of.now ∷ []) }
        ensures refused { OnErr result (GainedAtMost self.old.asks self.new.asks (ask.Rules of.now)) }
        // The fetcher is asked this once, or not at all.
        ensures once { GainedAtMost (F.log self.old.inner) (F.log self.new.inner) (ask.Rules of.now) }
    {
        self.asks.push(Ask::Rules(of.try_clone()?))?;
        match self.recorded.stated_rules(of)? {
            Some(rules) => {
                self.observer.recorded();
                Ok(rules)
            }
            None => self.inner.ask_robots(of),
        }
    }

    fn asks(&self) -> &[Ask] {
        self.asks.as_slice()
    }
}

// The fetcher's notes: what the record states isn't noted again.
impl<'a, F: Recording, O: Observer> Recording for Resumed<'a, F, O> {
    ghost noted = { λ r. F.noted r.inner };

    fn notes(&self) -> &[Noted] {
        self.inner.notes()
    }
}
