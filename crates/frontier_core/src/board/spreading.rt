//! How edges are offered.
ghost use Rattle.std.specs.Prelude.{◌≡◌, ◌<◌, ◌≤◌, ◌+◌, ◌^◌, length, take, slice_get, IsTrue, ◌↔◌, IfSome, IfNone, Some, None, OnOk, OnErr};
ghost use Rattle.fetcher.specs.declared.edge.Edge.{Edge};
ghost use Rattle.frontier_core.specs.Tables.{lookup};
ghost use Rattle.frontier_core.specs.Routes.{admits, weight as weight_of};
ghost use Rattle.frontier_core.specs.Machine.{Slot, Waiting, with_entry, slot, arrival, follow, follow_all, IsDue, IsRunning, Spread, Part, Step};
ghost use Rattle.frontier_core.specs.Invariants.{IsOverfull, IsStuck};
ghost use Rattle.frontier_core.specs.inner.TableCalls.{key_numbered, edges_at};
ghost use Rattle.frontier_core.specs.Plans.{policy};

use crate::board::{Board, Followed, SpreadFault};
use crate::counters::Share;
use crate::following::{admits, is_within, weight};
use crate::progress::Progress;
use address::{Address, Origin};
use depth_labels::LabelFault;
use follow_filters::Plan;
use std::alloc::AllocError;

impl Board {
    /// Follows edge k of the page at place `at`, whose label is `depth`.
    fn follow_edge(
        &mut self,
        plan: &Plan,
        at: usize,
        depth: u32,
        k: usize,
    ) -> Result<(), SpreadFault>
        requires place { at < length self.old.entries }
        requires edge { k < length (edges_at self.old (key_numbered self.old.entries at)) }
        requires sum { depth + 1 < 2 ^ 32 }
        requires few { length self.old.entries ≤ plan.now.max_urls }
        ensures ok { OnOk result ((edge : Edge) × (slice_get (edges_at self.old (key_numbered self.old.entries at)) k ≡ Some edge)
            × (self.new ≡ follow (policy plan.now) (key_numbered self.old.entries at) depth self.old edge)) }
        ensures few { length self.new.entries ≤ plan.now.max_urls }
        ensures err { OnErr result (self.new ≡ self.old) }
        ensures space { result ≡ Err SpreadFault.Memory → length self.old.entries < plan.now.max_urls }
        ensures stuck { OnErr result ((edge : Edge) × (slice_get (edges_at self.old (key_numbered self.old.entries at)) k ≡ Some edge)
            × IsTrue (admits (policy plan.now) (key_numbered self.old.entries at) edge (depth + weight_of edge.kind)) × (lookup self.old.entries edge.target ≡ None)) }
        ensures full { result ≡ Err SpreadFault.Full → (plan.now.max_urls ≤ length self.old.entries)
            × (edge : Edge) × (slice_get (edges_at self.old (key_numbered self.old.entries at)) k ≡ Some edge)
            × IsTrue (admits (policy plan.now) (key_numbered self.old.entries at) edge (depth + weight_of edge.kind)) × (lookup self.old.entries edge.target ≡ None) }
    {
        let (target, kind) = self.edge_at(at, k);
        let sum = depth + weight(kind);
        // First, as it looks at no text: of a large site most links lead beyond the limit.
        if !is_within(plan, kind, sum) {
            return Ok(());
        }
        match self.find(target) {
            Some(i) => {
                // Most others lead to what is held at no greater depth, which stays as it is, whatever the filters say.
                if self.depth_at(i) <= sum {
                    return Ok(());
                }
                if admits(plan, self.address_at(at), target, kind, sum) {
                    self.lower(i, sum);
                }
                Ok(())
            }
            None => {
                if !admits(plan, self.address_at(at), target, kind, sum) {
                    return Ok(());
                }
                self.discover(plan, at, k, sum)
            }
        }
    }

    /// The start waits at 0 from now on, if it isn't held yet.
    pub(super) fn hold_start(&mut self, max_urls: u32, start: &Address) -> Result<(), AllocError>
        requires few { length self.old.entries < max_urls }
        requires waits { (held : Slot) → lookup self.old.entries start.now ≡ Some held → held ≡ slot 0 Waiting }
        ensures { OnOk result (self.new ≡ with_entry self.old start.now (slot 0 Waiting)) }
    {
        if let Some(_) = self.find(start) {
            return Ok(());
        }
        let Ok(()) = self.entries.reserve(max_urls) else {
            return Err(AllocError);
        };
        let Ok(address) = start.try_clone() else {
            return Err(AllocError);
        };
        let Ok(origin) = Origin::of(start) else {
            return Err(AllocError);
        };
        let progress = Progress::waiting();
        let alloc = self.entries.allocator();
        let Ok(()) = self.agenda.add(alloc, origin, progress.task(), 0) else {
            return Err(AllocError);
        };
        let share = progress.share();
        self.entries.add(address, 0, progress);
        self.counters.exchange(Share::NONE, share);
        Ok(())
    }

    /// The target of edge k of the page at place `at`, which isn't held, is held from now on, at this depth. Its room is made
    /// first, in the labels before all: if as many are held as the plan allows, they answer `Full`.
    fn discover(&mut self, plan: &Plan, at: usize, k: usize, depth: u32) -> Result<(), SpreadFault>
        requires place { at < length self.old.entries }
        requires edge { k < length (edges_at self.old (key_numbered self.old.entries at)) }
        requires few { length self.old.entries ≤ plan.now.max_urls }
        requires absent { (edge : Edge) → slice_get (edges_at self.old (key_numbered self.old.entries at)) k ≡ Some edge → lookup self.old.entries edge.target ≡ None }
        ensures ok { OnOk result ((edge : Edge) × (slice_get (edges_at self.old (key_numbered self.old.entries at)) k ≡ Some edge)
            × (self.new ≡ with_entry self.old edge.target (slot depth (arrival (policy plan.now) self.old edge.target)))) }
        ensures few { length self.new.entries ≤ plan.now.max_urls }
        ensures err { OnErr result (self.new ≡ self.old) }
        ensures full { (result ≡ Err SpreadFault.Full) ↔ (length self.old.entries ≡ plan.now.max_urls) }
    {
        match self.entries.reserve(plan.max_urls) {
            Ok(()) => {}
            Err(LabelFault::Full) => return Err(SpreadFault::Full),
            Err(LabelFault::Memory) => return Err(SpreadFault::Memory),
        }
        let (target, _) = self.edge_at(at, k);
        let Ok(address) = target.try_clone() else {
            return Err(SpreadFault::Memory);
        };
        let Ok(origin) = Origin::of(target) else {
            return Err(SpreadFault::Memory);
        };
        let progress = self.arrival(plan, &origin, target);
        let alloc = self.entries.allocator();
        let Ok(()) = self.agenda.add(alloc, origin, progress.task(), depth) else {
            return Err(SpreadFault::Memory);
        };
        let share = progress.share();
        self.entries.add(address, depth, progress);
        self.counters.exchange(Share::NONE, share);
        Ok(())
    }

    /// Follows the edges of the page at place `at` in order, up to the first that is refused.
    fn follow_edges(&mut self, plan: &Plan, at: usize, depth: u32) -> Followed
        requires place { at < length self.old.entries }
        requires due { IsDue self.old (key_numbered self.old.entries at) depth }
        requires sum { depth + 1 < 2 ^ 32 }
        requires few { length self.old.entries ≤ plan.now.max_urls }
        ensures state { self.new ≡ follow_all (policy plan.now) (key_numbered self.old.entries at) depth self.old (take result.edges (edges_at self.old (key_numbered self.old.entries at))) }
        ensures whole { IfNone result.fault (result.edges ≡ length (edges_at self.old (key_numbered self.old.entries at))) }
        ensures part { IfSome result.fault (λ fault. result.edges < length (edges_at self.old (key_numbered self.old.entries at))) }
        ensures full { result.fault ≡ Some SpreadFault.Full → IsOverfull (policy plan.now) self.new }
        ensures space { result.fault ≡ Some SpreadFault.Memory → length self.new.entries < plan.now.max_urls }
        ensures stuck { IfSome result.fault (λ fault. IsStuck (policy plan.now) self.new depth (key_numbered self.old.entries at) result.edges) }
        ensures few { length self.new.entries ≤ plan.now.max_urls }
        ensures place { (key_numbered self.new.entries at ≡ key_numbered self.old.entries at) × (at < length self.new.entries) }
        ensures slot { lookup self.new.entries (key_numbered self.old.entries at) ≡ lookup self.old.entries (key_numbered self.old.entries at) }
    {
        let count = self.edge_count(at);
        for k in 0..count {
            if let Err(fault) = self.follow_edge(plan, at, depth, k) {
                return Followed {
                    edges: k,
                    fault: Some(fault),
                };
            }
        }
        Followed {
            edges: count,
            fault: None,
        }
    }

    /// Spreads the address at place `at`, whole or in part: one step of the machine.
    pub fn spread_at(&mut self, plan: &Plan, at: usize, depth: u32) -> Followed
        requires place { at < length self.old.entries }
        requires due { IsDue self.old (key_numbered self.old.entries at) depth }
        requires sum { depth + 1 < 2 ^ 32 }
        requires few { length self.old.entries ≤ plan.now.max_urls }
        requires running { IsRunning self.old }
        ensures whole { IfNone result.fault (Step (policy plan.now) self.old (Spread depth (key_numbered self.old.entries at) result.edges) self.new) }
        ensures part { IfSome result.fault (λ fault. Step (policy plan.now) self.old (Part depth (key_numbered self.old.entries at) result.edges) self.new) }
        ensures full { result.fault ≡ Some SpreadFault.Full → IsOverfull (policy plan.now) self.new }
        ensures space { result.fault ≡ Some SpreadFault.Memory → length self.new.entries < plan.now.max_urls }
        ensures stuck { IfSome result.fault (λ fault. IsStuck (policy plan.now) self.new depth (key_numbered self.old.entries at) result.edges) }
    {
        let followed = self.follow_edges(plan, at, depth);
        if followed.fault.is_none() {
            self.mark_spread(at);
            return followed;
        }
        followed
    }
}
