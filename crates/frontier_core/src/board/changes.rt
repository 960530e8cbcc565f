//! What changes in the tables.
ghost use Rattle.std.specs.Prelude.{◌≡◌, ◌<◌, length, map, slice_get, slice_set, IsSome, Some, None, OnOk, OnErr};
ghost use Rattle.fetcher.specs.Outcomes.{edges};
ghost use Rattle.frontier_core.specs.Tables.{lookup};
ghost use Rattle.frontier_core.specs.Machine.{Slot as Held, Out, Worker, Nobody, Answered, Asked, Known, halted, with_entry, with_origin, slot, again, offering_of, unparked, ruled};
ghost use Rattle.frontier_core.specs.inner.TableCalls.{key_numbered, settled_all, spread_over};
ghost use Rattle.frontier_core.specs.inner.Agendas.{task_of};
ghost use Rattle.frontier_core.specs.inner.Counters.{share_of, HasShare, Recounts};
ghost use Rattle.frontier_core.specs.Plans.{policy};
ghost use Rattle.work_queues.specs.Tasks.{Item};

use crate::board::Board;
use crate::counters::{Counters, Share};
use crate::event::Cause;
use crate::progress::Progress;
use crate::robots::Robots;
use crate::table::AddressTable;
use address::Origin;
use fetcher::Outcome;
use follow_filters::Plan;
use robots_rules::RuleSet;
use std::alloc::AllocError;
use work_queues::Agenda;

impl Board {
    /// The work on the address of that number has come so far.
    fn advance(&mut self, i: usize, progress: Progress)
        requires { i < length self.old.entries }
        ensures { (old : Held) × (lookup self.old.entries (key_numbered self.old.entries i) ≡ Some old)
            × (self.new ≡ with_entry self.old (key_numbered self.old.entries i) (slot old.depth progress)) }
    {
        let share = self.entries.progress(i).share();
        self.entries.set_progress(i, progress);
        recount(
            &self.entries,
            &mut self.agenda,
            &mut self.counters,
            i,
            share,
        );
    }

    /// The address of that number is requested by the worker.
    pub fn give_out(&mut self, i: usize, worker: u32)
        requires { i < length self.old.entries }
        ensures { (old : Held) × (lookup self.old.entries (key_numbered self.old.entries i) ≡ Some old)
            × (self.new ≡ with_entry self.old (key_numbered self.old.entries i) (slot old.depth (Out (Worker worker)))) }
    {
        self.advance(i, Progress::out(worker));
    }

    /// The address of that number is given up, and the work stops if it hasn't yet.
    pub fn abandon(&mut self, i: usize, cause: Cause)
        requires { i < length self.old.entries }
        ensures { (old : Held) × (lookup self.old.entries (key_numbered self.old.entries i) ≡ Some old)
            × (self.new ≡ with_entry (halted self.old cause) (key_numbered self.old.entries i) (slot old.depth (Out Nobody))) }
    {
        self.give_up(i);
        self.halt(cause);
    }

    /// Nobody requests the address of that number any more.
    fn give_up(&mut self, i: usize)
        requires { i < length self.old.entries }
        ensures { (old : Held) × (lookup self.old.entries (key_numbered self.old.entries i) ≡ Some old)
            × (self.new ≡ with_entry self.old (key_numbered self.old.entries i) (slot old.depth (Out Nobody))) }
    {
        self.advance(i, Progress::given_up());
    }

    /// The work stops, if nothing stopped it yet.
    pub fn halt(&mut self, cause: Cause)
        ensures { self.new ≡ halted self.old cause }
    {
        self.cause = self.cause.or(Some(cause));
    }

    /// The address of that number is answered.
    pub fn record(&mut self, i: usize, outcome: Outcome)
        requires { i < length self.old.entries }
        ensures { (old : Held) × (lookup self.old.entries (key_numbered self.old.entries i) ≡ Some old)
            × (self.new ≡ with_entry self.old (key_numbered self.old.entries i) (slot old.depth (Answered outcome (offering_of (edges outcome))))) }
    {
        self.advance(i, Progress::answered(outcome));
    }

    /// The worker requests the robots rules of an origin. Fails only if memory runs out, and then changes nothing.
    pub fn ask_rules(&mut self, origin: &Origin, worker: u32) -> Result<(), AllocError>
        requires { lookup self.old.origins origin.now ≡ None }
        ensures ok { OnOk result (self.new ≡ with_origin self.old origin.now (Asked (Worker worker))) }
        ensures err { OnErr result (self.new ≡ self.old) }
    {
        let key = origin.try_clone()?;
        let robots = Robots::asked(worker);
        let share = robots.share();
        self.origins.insert(key, robots)?;
        // Called for what its clause says after an insertion, whose own clause says nothing of it: the length fits, and so does
        // what is counted in the table.
        let _len = self.origins.len();
        self.counters.exchange(Share::NONE, share);
        Ok(())
    }

    /// The robots rules of the origin are given up, and the work stops if it hasn't yet.
    pub fn abandon_rules(&mut self, origin: &Origin, cause: Cause)
        requires { IsSome (lookup self.old.origins origin.now) }
        ensures { self.new ≡ with_origin (halted self.old cause) origin.now (Asked Nobody) }
    {
        if let Some(i) = self.find_origin(origin) {
            self.give_up_rules(i);
        }
        self.halt(cause);
    }

    /// Nobody requests the robots rules of the origin at that place any more.
    fn give_up_rules(&mut self, i: usize)
        requires { i < length self.old.origins }
        ensures { self.new ≡ with_origin self.old (key_numbered self.old.origins i) (Asked Nobody) }
    {
        self.origins[i].give_up(&mut self.counters);
    }

    /// The robots rules of the origin are these: its parked addresses wait from now on, or are refused.
    pub fn rule(&mut self, plan: &Plan, origin: &Origin, rules: RuleSet)
        requires { IsSome (lookup self.old.origins origin.now) }
        ensures { self.new ≡ ruled (policy plan.now) self.old origin.now rules }
    {
        self.settle_all(plan, origin, &rules);
        if let Some(i) = self.find_origin(origin) {
            self.know(i, rules);
        }
    }

    /// The robots rules of the origin at that place are these.
    fn know(&mut self, i: usize, rules: RuleSet)
        requires { i < length self.old.origins }
        ensures { self.new ≡ with_origin self.old (key_numbered self.old.origins i) (Known rules) }
    {
        self.origins[i].know(rules, &mut self.counters);
    }

    /// Each parked address of the origin waits from now on, or is refused.
    fn settle_all(&mut self, plan: &Plan, origin: &Origin, rules: &RuleSet)
        ensures { self.new ≡ settled_all (policy plan.now) self.old origin.now rules.now }
    {
        while let Some(i) = self.agenda.first_parked(origin) {
            self.settle(plan, origin, rules, i);
        }
    }

    /// The address of that number, if it is parked and of the origin, waits from now on, or is refused.
    fn settle(&mut self, plan: &Plan, origin: &Origin, rules: &RuleSet, i: usize)
        requires { i < length self.old.entries }
        ensures { (old : Held) × (lookup self.old.entries (key_numbered self.old.entries i) ≡ Some old)
            × (self.new ≡ with_entry self.old (key_numbered self.old.entries i) (slot old.depth (unparked (policy plan.now) origin.now rules.now (key_numbered self.old.entries i) old.progress))) }
    {
        // Named by the contract alone: what rules do to an address is said under a plan.
        let _ = plan;
        let address = self.address_at(i);
        if self.progress_at(i).is_parked() && address.origin() == origin.as_str() {
            let is_allowed = rules.allows(address.path_query());
            self.advance(i, Progress::settled(is_allowed));
        }
    }

    /// All edges of the address of that number have been offered.
    pub(super) fn mark_spread(&mut self, i: usize)
        requires { i < length self.old.entries }
        ensures { (old : Held) × (lookup self.old.entries (key_numbered self.old.entries i) ≡ Some old)
            × (self.new ≡ with_entry self.old (key_numbered self.old.entries i) (slot old.depth (spread_over old.progress))) }
    {
        let share = self.entries.progress(i).share();
        self.entries.mark_spread(i);
        recount(
            &self.entries,
            &mut self.agenda,
            &mut self.counters,
            i,
            share,
        );
    }

    /// The label of the address of that number falls to this depth.
    pub(super) fn lower(&mut self, i: usize, depth: u32)
        requires place { i < length self.old.entries }
        requires less { (old : Held) → lookup self.old.entries (key_numbered self.old.entries i) ≡ Some old → depth < old.depth }
        ensures { (old : Held) × (lookup self.old.entries (key_numbered self.old.entries i) ≡ Some old)
            × (self.new ≡ with_entry self.old (key_numbered self.old.entries i) (slot depth (again old.progress))) }
    {
        let share = self.entries.progress(i).share();
        self.entries.lower(i, depth);
        recount(
            &self.entries,
            &mut self.agenda,
            &mut self.counters,
            i,
            share,
        );
    }
}

// What is listed and counted of the address of that number is what its progress says, in place of its old share.
fn recount(
    entries: &AddressTable,
    agenda: &mut Agenda,
    counters: &mut Counters,
    i: usize,
    old: Share,
)
    requires place { i < length entries.now.entries }
    requires listed { i < length agenda.old.items }
    requires share { HasShare counters.old old }
    ensures { (new : Held) × (slice_get (map (λ entry. entry.1) entries.now.entries) i ≡ Some new)
        × ((item : Item) → slice_get agenda.old.items i ≡ Some item → agenda.new.items ≡ slice_set agenda.old.items i (record item { task = task_of new.progress }))
        × Recounts counters.old old counters.new (share_of new.progress) }
{
    let progress = entries.progress(i);
    agenda.set(i, progress.task(), entries.depth(i));
    counters.exchange(old, progress.share());
}
