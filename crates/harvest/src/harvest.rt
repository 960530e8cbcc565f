//! The harvest of a retrieval: what its frontier holds, and the pages that are kept.
ghost use Rattle.std.specs.Prelude.{◌≡◌, ◌↔◌, ◌≤◌, ◌<◌, ℕ, List, [], None, Some, IfOk, IfSome, Contains, MatchOption, length, slice_get, map};
ghost use Rattle.frontier_core.specs.Tables.{IsOnce};
ghost use Rattle.frontier_core.specs.Machine.{permits_out, answers};
ghost use Rattle.frontier_core.specs.Lines.{IsReplay, IsFalling, IsAskedOnce};
ghost use Rattle.frontier_core.specs.SpreadCounts.{IsSeldomSpread};
ghost use Rattle.frontier_core.specs.Invariants.{IsSound, IsClosed};
ghost use Rattle.frontier_core.specs.Plans.{policy};
ghost use Rattle.harvest.specs.Harvests.{nothing};
ghost use Rattle.harvest.specs.Gathered.{AreEntries, AreRecords, AreRules, ArePages};
ghost use Rattle.harvest.specs.Pages.{IsKept};
ghost use Rattle.harvest.specs.Gathered.{IsHarvestOf};

use crate::entry::HarvestEntry;
use crate::gathering::{FrontierContents, Parted, gather_all};
use crate::page::KeptPage;
use address::{Address, Origin};
use fetcher::Outcome;
use follow_filters::Plan;
use frontier_core::{Event, Frontier};
use robots_rules::RuleSet;
use std::alloc::{AllocError, Global};
use std::marker::Model;

/// What a retrieval brings in: the frontier as it was left, and the pages that are kept. It is empty if memory was
/// short; then its trace has no line.
pub struct Harvest<B> {
    frontier: Option<Box<Frontier>>,
    entries: Vec<HarvestEntry>,
    records: Vec<(Address, Outcome)>,
    rules: Vec<(Origin, RuleSet)>,
    kept: Vec<Address>,
    bodies: Vec<B>,
}

// Written by hand: a user that drops one proves a call, and nothing about its fields.
impl<B: Drop> Drop for Harvest<B> {
    fn drop(self) {
        let Harvest {
            frontier: _frontier,
            entries: _entries,
            records: _records,
            rules: _rules,
            kept: _kept,
            bodies: _bodies,
        } = self;
    }
}

impl<B> Model for Harvest<B> {
    ghost use Rattle.harvest.specs.Harvests.{Harvested, plan_of, state_of, trace_of};
    ghost use Rattle.harvest.specs.Gathered.{AreEntries, AreRecords, AreRules, ArePages};
    ghost use Rattle.harvest.specs.Shown.{harvest_of};
    ghost use Rattle.std.specs.Prelude.{option_map};

    ghost Value = { Harvested B };

    ghost view = { λ h. harvest_of (option_map (λ b. b.value) h.frontier) h.entries.items h.records.items h.rules.items h.kept.items h.bodies.items };

    ghost invariant = { λ h. let all = harvest_of (option_map (λ b. b.value) h.frontier) h.entries.items h.records.items h.rules.items h.kept.items h.bodies.items in
        AreEntries all × AreRecords all × AreRules all × ArePages all };
}

impl<B: Drop> Harvest<B> {
    /// The harvest of a retrieval that found no memory. Takes no memory.
    pub fn empty(alloc: Global) -> Self
        ensures plan { result.plan ≡ None }
        ensures state { result.state ≡ nothing }
        ensures trace { result.trace ≡ [] }
    {
        Harvest {
            frontier: None,
            entries: Vec::new(alloc),
            records: Vec::new(alloc),
            rules: Vec::new(alloc),
            kept: Vec::new(alloc),
            bodies: Vec::new(alloc),
        }
    }

    /// The harvest of a frontier and of the pages that are kept of it, one for each address that its plan keeps. Fails
    /// only if memory runs out; the frontier and the pages are then gone.
    pub fn gather(
        alloc: Global,
        frontier: Frontier,
        pages: Vec<KeptPage<B>>,
    ) -> Result<Self, AllocError>
        requires once { IsOnce (map (λ page. page.address) pages.items) }
        requires kept { (u : List ℕ) → Contains (map (λ page. page.address) pages.items) u ↔ IsKept frontier.plan (answers frontier.state) u }
        ensures { IfOk result (IsHarvestOf frontier pages.items) }
    {
        let frontier = Box::new(alloc, frontier)?;
        let (held, parted) = match gather_all(alloc, &frontier, pages) {
            Ok(all) => all,
            Err(short) => {
                // By a call, since what an exit drops is proved anew at each exit.
                drop(frontier);
                return Err(short);
            }
        };
        let FrontierContents {
            entries,
            records,
            rules,
        } = held;
        let Parted { addresses, bodies } = parted;
        Ok(Harvest {
            frontier: Some(frontier),
            entries,
            records,
            rules,
            kept: addresses,
            bodies,
        })
    }

    /// The addresses that were found, in address order, each with its depth, and with the place of its outcome in
    /// [`Harvest::records`]. Takes no memory.
    pub fn entries(&self) -> &[HarvestEntry]
        ensures value { result.now ≡ self.now.entries }
        ensures entries { AreEntries self.now }
    {
        self.entries.as_slice()
    }

    /// The recorded addresses in address order, each with its outcome. Takes no memory.
    pub fn records(&self) -> &[(Address, Outcome)]
        ensures value { result.now ≡ self.now.records }
        ensures records { AreRecords self.now }
    {
        self.records.as_slice()
    }

    /// The origins whose robots rules are known, in origin order, each with its rules (RFC 9309, section 2.3). Takes no
    /// memory.
    pub fn rules(&self) -> &[(Origin, RuleSet)]
        ensures value { result.now ≡ self.now.rules }
        ensures rules { AreRules self.now }
    {
        self.rules.as_slice()
    }

    /// The pages that are kept, in address order: those with a response of success whose file name the plan keeps (GNU Wget
    /// manual, Types of Files; RFC 9110, section 15.3). Takes no memory.
    pub fn kept(&self) -> &[Address]
        ensures value { result.now ≡ self.now.kept }
        ensures pages { ArePages self.now }
    {
        self.kept.as_slice()
    }

    /// The bodies of the pages in [`Harvest::kept`], in their places, as their fetcher keeps bodies. Takes no memory.
    pub fn bodies(&self) -> &[B]
        ensures value { result.now ≡ self.now.bodies }
        ensures count { length result.now ≡ length self.now.kept }
    {
        self.bodies.as_slice()
    }

    /// The body of the page at that place in [`Harvest::kept`], counted from 0, as its fetcher keeps bodies. Takes no memory.
    pub fn kept_body(&self, i: usize) -> &B
        requires { i < length self.now.kept }
        ensures { slice_get self.now.bodies i ≡ Some result.now }
    {
        &self.bodies[i]
    }

    /// The lines of what happened, in order; none if memory was short. Replayed, they give the harvest's state; what
    /// holds of every replay is said by the clauses. Takes no memory.
    pub fn trace(&self) -> &[Event]
        ensures trace { result.now ≡ self.now.trace }
        ensures empty { self.now.plan ≡ None ↔ (self.now.trace ≡ []) }
        ensures nothing { self.now.plan ≡ None → self.now.state ≡ nothing }
        ensures replay { IfSome self.now.plan (λ plan. IsReplay (policy plan) self.now.trace self.now.state) }
        ensures sound { IfSome self.now.plan (λ plan. IsSound (policy plan) self.now.state) }
        ensures closed { IfSome self.now.plan (λ plan. IsClosed (policy plan) self.now.state) }
        ensures falling { IsFalling self.now.trace }
        ensures count { IfSome self.now.plan (λ plan. IsSeldomSpread (policy plan) self.now.trace self.now.state) }
        ensures once { IsAskedOnce self.now.trace }
        ensures within { IfSome self.now.plan (λ plan. (origin : List ℕ) → permits_out (policy plan) self.now.state origin ≤ plan.per_host) }
    {
        match &self.frontier {
            Some(frontier) => frontier.trace(),
            None => &[],
        }
    }

    /// The plan by which the retrieval went; none if memory was short. Takes no memory.
    pub fn plan(&self) -> Option<&Plan>
        ensures { MatchOption result (self.now.plan ≡ None) (λ plan. self.now.plan ≡ Some plan.now) }
    {
        match &self.frontier {
            Some(frontier) => Some(frontier.plan()),
            None => None,
        }
    }
}
