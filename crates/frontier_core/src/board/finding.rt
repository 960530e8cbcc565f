//! What is found in the tables.
ghost use Rattle.std.specs.Prelude.{◌≡◌, ℕ, ◌<◌, ◌+◌, ◌^◌, length, IsTrue, ◌↔◌, IfSome, IfNone, MatchOption, Some, None};
ghost use Rattle.frontier_core.specs.Tables.{Text, lookup};
ghost use Rattle.frontier_core.specs.Routes.{admits};
ghost use Rattle.address.specs.Address.{origin_of};
ghost use Rattle.frontier_core.specs.Machine.{Slot as Held, slot_outcome, Parked, Waiting, slot, arrival, known_rules_in, asked_count, IsDue, IsQuiet, HasRoom};
ghost use Rattle.frontier_core.specs.Invariants.{IsOverfull, IsStuck, IsGivenUp, AreRulesGivenUp};
ghost use Rattle.frontier_core.specs.Owed.{owed};
ghost use Rattle.frontier_core.specs.inner.TableCalls.{key_numbered};
ghost use Rattle.frontier_core.specs.Waiting.{how_many_wait};
ghost use Rattle.frontier_core.specs.Plans.{policy};
ghost use Rattle.frontier_core.specs.Traced.{HasWaitingPage, HasRules, IsOutTo, IsAskedBy};

use crate::board::Board;
use crate::following::{admits, is_start, weight};
use crate::progress::Progress;
use crate::robots::Robots;
use address::{Address, Origin};
use fetcher::{EdgeKind, Outcome};
use follow_filters::Plan;
use robots_rules::RuleSet;

impl Board {
    /// The number of an address.
    pub(super) fn find(&self, address: &Address) -> Option<usize>
        ensures held { IfSome result (λ i. (i < length self.now.entries) × (key_numbered self.now.entries i ≡ address.now)) }
        ensures absent { IfNone result (lookup self.now.entries address.now ≡ None) }
    {
        self.entries.find(address)
    }

    /// Each edge of the outcome whose target is held shares the text of the table's address from now on.
    pub fn share_texts(&self, outcome: &mut Outcome)
        ensures { outcome.new ≡ outcome.old }
    {
        if !outcome.can_share_texts() {
            return;
        }
        for k in 0..outcome.edge_count() {
            let (target, _) = outcome.edge(k);
            if let Some(i) = self.find(target) {
                outcome.share_text(k, self.address_at(i));
            }
        }
    }

    /// The number of an address that is due.
    pub fn find_due(&self) -> Option<usize>
        ensures found { IfSome result (λ i. (i < length self.now.entries) × ((d : ℕ) × IsDue self.now (key_numbered self.now.entries i) d)) }
        ensures none { IfNone result ((u : Text) (d : ℕ) → IsDue self.now u d → ⊥) }
    {
        self.agenda.first_due()
    }

    /// The place of an origin in the order of asking.
    pub(super) fn find_origin(&self, origin: &Origin) -> Option<usize>
        ensures held { IfSome result (λ i. (i < length self.now.origins) × (key_numbered self.now.origins i ≡ origin.now)) }
        ensures absent { IfNone result (lookup self.now.origins origin.now ≡ None) }
    {
        self.origins.get_index_of(origin)
    }

    /// What is kept of an origin's robots rules, if they were requested.
    fn robots_of(&self, origin: &Origin) -> Option<&Robots>
        ensures { MatchOption result (lookup self.now.origins origin.now ≡ None) (λ robots. lookup self.now.origins origin.now ≡ Some robots.now) }
    {
        let i = self.find_origin(origin)?;
        Some(self.robots_at(i))
    }

    /// The robots rules of an origin, if they are known.
    pub fn rules_of(&self, origin: &Origin) -> Option<&RuleSet>
        ensures { MatchOption result (known_rules_in (lookup self.now.origins origin.now) ≡ None) (λ rules. known_rules_in (lookup self.now.origins origin.now) ≡ Some rules.now) }
    {
        self.robots_of(origin)?.rules()
    }

    /// The outcome of an address, if it is recorded.
    pub fn outcome_of(&self, address: &Address) -> Option<&Outcome>
        ensures { MatchOption result (slot_outcome (lookup self.now.entries address.now) ≡ None) (λ x. slot_outcome (lookup self.now.entries address.now) ≡ Some x.now) }
    {
        let i = self.find(address)?;
        self.progress_at(i).outcome()
    }

    /// Whether an address was requested and given up.
    pub fn is_given_up(&self, address: &Address) -> bool
        ensures { IsTrue result ↔ IsGivenUp self.now address.now }
    {
        match self.find(address) {
            Some(i) => self.progress_at(i).is_given_up(),
            None => false,
        }
    }

    /// Whether an origin's robots rules were requested and given up.
    pub fn are_rules_given_up(&self, origin: &Origin) -> bool
        ensures { IsTrue result ↔ AreRulesGivenUp self.now origin.now }
    {
        match self.robots_of(origin) {
            Some(robots) => robots.is_given_up(),
            None => false,
        }
    }

    /// Whether an edge of the page to that address is followed if the sum after it is this, and leads out of the table.
    pub(super) fn leads_out(
        &self,
        plan: &Plan,
        page: &Address,
        target: &Address,
        kind: EdgeKind,
        sum: u32,
    ) -> bool
        ensures { IsTrue result ↔ (IsTrue (admits (policy plan.now) page.now (record { target = target.now; kind = kind }) sum) × (lookup self.now.entries target.now ≡ None)) }
    {
        admits(plan, page, target, kind, sum) && self.find(target).is_none()
    }

    /// Whether the address of that number is answered and has an edge that is followed and leads out of the table.
    fn is_stuck(&self, plan: &Plan, at: usize) -> bool
        requires place { at < length self.now.entries }
        requires sum { (u : Text) (held : Held) → lookup self.now.entries u ≡ Some held → held.depth + 1 < 2 ^ 32 }
        ensures { IsTrue result ↔ ((d : ℕ) × (k : ℕ) × IsStuck (policy plan.now) self.now d (key_numbered self.now.entries at) k) }
    {
        let depth = self.depth_at(at);
        for k in 0..self.edge_count(at) {
            let (target, kind) = self.edge_at(at, k);
            if self.leads_out(
                plan,
                self.address_at(at),
                target,
                kind,
                depth + weight(kind),
            ) {
                return true;
            }
        }
        false
    }

    /// Whether as many addresses are held as the plan allows, and an edge that is followed leads to one more.
    pub fn is_overfull(&self, plan: &Plan) -> bool
        requires { (u : Text) (held : Held) → lookup self.now.entries u ≡ Some held → held.depth + 1 < 2 ^ 32 }
        ensures { IsTrue result ↔ IsOverfull (policy plan.now) self.now }
    {
        if self.len() < plan.max_urls as usize {
            return false;
        }
        for at in 0..self.len() {
            if self.is_stuck(plan, at) {
                return true;
            }
        }
        false
    }

    /// How many permits are out for the origin's robots rules.
    fn robots_out(&self, origin: &Origin) -> usize
        ensures { result ≡ asked_count (lookup self.now.origins origin.now) }
    {
        match self.robots_of(origin) {
            Some(robots) => robots.permits_out(),
            None => 0,
        }
    }

    /// Whether one more permit may be given of the origin of the address of that number.
    fn has_room(&self, plan: &Plan, i: usize) -> bool
        requires { i < length self.now.entries }
        ensures { IsTrue result ↔ HasRoom (policy plan.now) self.now (origin_of (key_numbered self.now.entries i)) }
    {
        let most = plan.per_host as usize;
        let pages = self.agenda.out(i);
        pages < most && self.robots_out(self.agenda.origin(i)) < most - pages
    }

    /// The number of a parked address whose origin's robots rules may be requested: nobody requested them, and the origin
    /// has room for a permit.
    pub fn find_rules(&self, plan: &Plan) -> Option<usize>
        ensures found { IfSome result (λ i. (i < length self.now.entries)
            × ((d : ℕ) × (lookup self.now.entries (key_numbered self.now.entries i) ≡ Some (slot d Parked)))
            × (lookup self.now.origins (origin_of (key_numbered self.now.entries i)) ≡ None)
            × HasRoom (policy plan.now) self.now (origin_of (key_numbered self.now.entries i))) }
        ensures none { IfNone result (HasRules (policy plan.now) self.now → ⊥) }
    {
        let agenda = &self.agenda;
        for k in 0..agenda.parked_len() {
            let i = agenda.parked_at(k);
            let is_fresh = self.find_origin(agenda.origin(i)).is_none();
            if is_fresh && self.has_room(plan, i) {
                return Some(i);
            }
        }
        None
    }

    /// The number of a waiting address whose origin has room for a permit.
    pub fn find_page(&self, plan: &Plan) -> Option<usize>
        ensures found { IfSome result (λ i. (i < length self.now.entries)
            × ((d : ℕ) × (lookup self.now.entries (key_numbered self.now.entries i) ≡ Some (slot d Waiting)))
            × HasRoom (policy plan.now) self.now (origin_of (key_numbered self.now.entries i))) }
        ensures none { IfNone result (HasWaitingPage (policy plan.now) self.now → ⊥) }
    {
        let agenda = &self.agenda;
        for k in 0..agenda.waiting_len() {
            let i = agenda.waiting_at(k);
            if self.has_room(plan, i) {
                return Some(i);
            }
        }
        None
    }

    /// How many lines are still owed a place in the trace: the end of each permit, and the first stop.
    pub fn owed(&self) -> usize
        ensures { result ≡ owed self.now }
    {
        if self.cause.is_none() {
            self.counters.out + 1
        } else {
            self.counters.out
        }
    }

    /// At how many addresses and origins something is left to do, except those that are out to workers.
    pub fn waiting(&self) -> usize
        ensures { result ≡ how_many_wait self.now }
    {
        self.counters.left - self.counters.out
    }

    /// Whether nothing is left to do.
    pub fn is_quiet(&self) -> bool
        ensures { IsTrue result ↔ IsQuiet self.now }
    {
        self.cause.is_none() && self.counters.left == 0
    }

    /// Whether the address of that number is this one, and is out to that worker.
    pub fn is_out_to(&self, number: usize, worker: u32, address: &Address) -> bool
        ensures { IsTrue result ↔ IsOutTo self.now number worker address.now }
    {
        if number >= self.entries.len() {
            return false;
        }
        *self.address_at(number) == *address && self.progress_at(number).is_out_to(worker)
    }

    /// Whether that worker requests the robots rules of this origin.
    pub fn is_asked_by(&self, worker: u32, origin: &Origin) -> bool
        ensures { IsTrue result ↔ IsAskedBy self.now worker origin.now }
    {
        match self.robots_of(origin) {
            Some(robots) => robots.is_asked_by(worker),
            None => false,
        }
    }

    /// The progress of an address that is first found: it waits, or is parked or refused by what is known of its origin's
    /// robots rules (RFC 9309, section 2.2.2). A start waits, and each address if robots are off.
    pub(super) fn arrival(&self, plan: &Plan, origin: &Origin, address: &Address) -> Progress
        requires { origin.now ≡ origin_of address.now }
        ensures { result ≡ arrival (policy plan.now) self.now address.now }
    {
        if !plan.robots || is_start(plan, address) {
            return Progress::waiting();
        }
        match self.rules_of(origin) {
            None => Progress::parked(),
            Some(rules) => Progress::settled(rules.allows(address.path_query())),
        }
    }
}
