//! A retrieval that stops because memory ran out keeps what it found.
use crate::rows::plan;
use address::{Address, Origin};
use fetcher::{Answer, Ask, Body, Fetcher};
use frontier_core::{Cause, Event};
use robots_rules::RuleSet;
use site_maps::MapSite;
use std::alloc::{AllocError, Global};
use std::process::Abort;
use workers::{Halt, Harvest, retrieve_in_order};

/// The start leads to `/a`, for which there is no memory.
const PAIR: &str = "page 200 http://h/
link http://h/a
";

/// A map's site that finds memory for its start alone.
#[derive(Drop)]
struct Poor {
    site: MapSite,
}

impl Fetcher for Poor {
    ghost use Rattle.std.specs.Prelude.{⊤};

    type Body = Body;

    ghost Site = { Unit {0} };

    ghost site = { λ _. tt };

    ghost says = { λ _ _ _ _. ⊤ };

    ghost rules = { λ _ _ _. ⊤ };

    ghost log = { λ f. f.site.asks };

    fn ask(&mut self, at: &Address) -> Result<Answer<Body>, AllocError> {
        if at.path_query() == "/" {
            self.site.ask(at)
        } else {
            Err(AllocError)
        }
    }

    fn ask_robots(&mut self, of: &Origin) -> Result<RuleSet, AllocError> {
        self.site.ask_robots(of)
    }

    fn asks(&self) -> &[Ask] {
        self.site.asks()
    }
}

/// How many addresses the harvest has an outcome of.
fn record_count(harvest: &Harvest<Body>) -> usize {
    harvest.records().len()
}

/// Whether the harvest has its plan.
fn has_plan(harvest: &Harvest<Body>) -> bool {
    harvest.plan().is_some()
}

/// Whether the trace ends with a stop because memory ran out.
fn ends_for_memory(harvest: &Harvest<Body>) -> bool {
    matches!(harvest.trace().last(), Some(Event::Stop(Cause::Memory)))
}

/// Whether the retrieval stopped because memory ran out with one record, its plan, and a trace that ends so.
fn kept_one(halt: &Halt<Body>) -> bool {
    let harvest = &halt.harvest;
    halt.cause == Cause::Memory
        && record_count(harvest) == 1
        && has_plan(harvest)
        && ends_for_memory(harvest)
}

/// The halt of a retrieval of such a site.
fn halt_of(rt: &impl Abort, alloc: Global) -> Halt<Body> {
    let plan = plan(rt, alloc, 3, 100);
    let mut poor = Poor {
        site: MapSite::read(alloc, PAIR.as_bytes()).expect(rt, "a map"),
    };
    let ended = retrieve_in_order(alloc, &plan, &mut poor);
    drop(plan);
    drop(poor);
    match ended {
        Ok(_harvest) => panic!(rt; "no halt"),
        Err(halt) => halt,
    }
}

#[test]
fn a_stop_for_memory_keeps_what_was_found(rt: HostRuntime) {
    let halt = halt_of(&rt, rt.alloc());
    assert!(rt; kept_one(&halt));
    drop(halt);
}
