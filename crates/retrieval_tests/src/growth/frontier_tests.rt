//! A frontier of which calls are refused memory: what that leaves, and that the same call does the rest afterwards.
use crate::growth::common::{address, plan};
use address::Address;
use fetcher::{Edge, EdgeKind, Edges, Outcome};
use frontier_core::{
    AddressState, AnswerFault, Event, Frontier, OriginPermit, Permit, Rejected, RejectedRules,
    SpreadFault, Work,
};
use robots_rules::{RuleSet, parse};
use std::alloc::{AllocError, Global};
use std::process::Abort;

/// What is held once the start is spread, and the start's edges except the first.
const HELD: &str = "http://h/ http://h/a http://h/p/b http://h/c";

/// The states of these once the rules are known.
const STANDS: &str = "answered waiting refused waiting";

/// The outcome of the start, with a link to each of the others.
fn try_page(alloc: Global) -> Result<Outcome, AllocError> {
    let mut edges = Vec::new(alloc);
    for text in HELD.split(' ').skip(1) {
        let Ok(target) = Address::read(alloc, text) else {
            return Err(AllocError);
        };
        let kind = EdgeKind::Link;
        edges.push(Edge { target, kind })?;
    }
    Ok(Outcome::Page(200, Edges::new(edges)?))
}

fn page(rt: &impl Abort, alloc: Global) -> Outcome {
    match try_page(alloc) {
        Ok(outcome) => outcome,
        Err(_) => try_page(alloc).expect(rt, "memory"),
    }
}

/// Rules that refuse what is below `/p/`.
fn rules(rt: &impl Abort, alloc: Global) -> RuleSet {
    let file = b"User-agent: *\nDisallow: /p/\n";
    match parse(alloc, file) {
        Ok(rules) => rules,
        Err(_) => parse(alloc, file).expect(rt, "memory"),
    }
}

fn opened(rt: &impl Abort, alloc: Global) -> Frontier {
    match Frontier::open(alloc, plan(rt, alloc)) {
        Ok(frontier) => frontier,
        Err(_) => Frontier::open(alloc, plan(rt, alloc)).expect(rt, "memory"),
    }
}

/// How many lines the trace has.
fn lines(frontier: &Frontier) -> usize {
    frontier.trace().len()
}

/// What the worker is to do. If that was refused, nothing happened.
fn taken(rt: &impl Abort, frontier: &mut Frontier) -> Work {
    let before = lines(frontier);
    match frontier.take(0) {
        Ok(work) => work,
        Err(_) => {
            assert!(rt; lines(frontier) == before);
            frontier.take(0).expect(rt, "memory")
        }
    }
}

fn page_permit(rt: &impl Abort, frontier: &mut Frontier) -> Permit {
    match taken(rt, frontier) {
        Work::Page(permit) => permit,
        _other => panic!(rt; "no page is asked for"),
    }
}

fn robots_permit(rt: &impl Abort, frontier: &mut Frontier) -> OriginPermit {
    match taken(rt, frontier) {
        Work::Robots(permit) => permit,
        _other => panic!(rt; "no robots file is asked for"),
    }
}

/// The permit and the outcome as they come back from a frontier that didn't give the permit.
fn returned(
    rt: &impl Abort,
    other: &mut Frontier,
    permit: Permit,
    outcome: Outcome,
) -> (Permit, Outcome) {
    match other.answer(permit, outcome) {
        Ok(()) => panic!(rt; "a stray answer is taken"),
        Err(rejected) => {
            let Rejected {
                permit,
                outcome,
                fault,
            } = rejected;
            let is_same = permit.address().as_str() == "http://h/" && outcome.edge_count() == 3;
            assert!(rt; fault == AnswerFault::Stray && is_same);
            (permit, outcome)
        }
    }
}

/// The permit and the rules as they come back from such a frontier.
fn returned_rules(
    rt: &impl Abort,
    other: &mut Frontier,
    permit: OriginPermit,
    rules: RuleSet,
) -> (OriginPermit, RuleSet) {
    match other.robots_answer(permit, rules) {
        Ok(()) => panic!(rt; "stray rules are taken"),
        Err(rejected) => {
            let RejectedRules {
                permit,
                rules,
                fault,
            } = rejected;
            let is_same = permit.origin().as_str() == "http://h" && !rules.allows("/p/b");
            assert!(rt; fault == AnswerFault::Stray && is_same);
            (permit, rules)
        }
    }
}

/// The start's outcome is refused by another frontier, and then taken.
fn answer(
    rt: &impl Abort,
    other: &mut Frontier,
    frontier: &mut Frontier,
    permit: Permit,
    outcome: Outcome,
) {
    let (permit, outcome) = returned(rt, other, permit, outcome);
    if let Err(_rejected) = frontier.answer(permit, outcome) {
        panic!(rt; "an answer is rejected");
    }
}

/// The rules are refused by another frontier, and then taken.
fn rule(
    rt: &impl Abort,
    other: &mut Frontier,
    frontier: &mut Frontier,
    permit: OriginPermit,
    rules: RuleSet,
) {
    let (permit, rules) = returned_rules(rt, other, permit, rules);
    if let Err(_rejected) = frontier.robots_answer(permit, rules) {
        panic!(rt; "rules are rejected");
    }
}

/// Whether the start is held, and of the others the first so many and no more.
fn holds(frontier: &Frontier, others: usize) -> bool {
    let mut wanted = HELD.split(' ').take(others.saturating_add(1));
    for (at, _, _) in frontier.entries() {
        if wanted.next() != Some(at.as_str()) {
            return false;
        }
    }
    wanted.next().is_none()
}

/// Over how many edges of the start the last line of the trace says that a spread went, with `is_part` before one was refused.
fn last_spread(frontier: &Frontier, is_part: bool) -> Option<usize> {
    match frontier.trace().last() {
        Some(Event::Part(0, at, edges)) if is_part && at.as_str() == "http://h/" => Some(*edges),
        Some(Event::Spread(0, at, edges)) if !is_part && at.as_str() == "http://h/" => Some(*edges),
        _ => None,
    }
}

/// Whether a refused spread, before which the trace had so many lines, left nothing changed, or said how many edges it went
/// through, whose targets are held.
fn is_left(frontier: &Frontier, before: usize) -> bool {
    if lines(frontier) == before {
        return holds(frontier, 0);
    }
    match last_spread(frontier, true) {
        Some(edges) => edges < 3
            && lines(frontier) == before.saturating_add(1)
            && holds(frontier, edges),
        None => false,
    }
}

/// The worker learns that something is due.
fn hear_due(rt: &impl Abort, frontier: &mut Frontier) {
    match taken(rt, frontier) {
        Work::Spread => {}
        _other => panic!(rt; "nothing is due"),
    }
}

/// The start is due, and is spread. Whether it was, or that was refused.
fn is_spread(rt: &impl Abort, frontier: &mut Frontier) -> bool {
    hear_due(rt, frontier);
    let before = lines(frontier);
    match frontier.spread() {
        Ok(()) => true,
        Err(SpreadFault::Memory) => {
            assert!(rt; is_left(frontier, before));
            false
        }
        Err(SpreadFault::Full) => panic!(rt; "it is full"),
    }
}

/// The word for the state of an address.
fn word_of(condition: AddressState) -> &'static str {
    match condition {
        AddressState::Waiting => "waiting",
        AddressState::Answered => "answered",
        AddressState::Refused => "refused",
        _ => "otherwise",
    }
}

/// Whether the addresses have the states that they are to have.
fn stands(frontier: &Frontier) -> bool {
    let mut words = STANDS.split(' ');
    for (_, _, condition) in frontier.entries() {
        if words.next() != Some(word_of(condition)) {
            return false;
        }
    }
    words.next().is_none()
}

/// The start is requested and spread, and then its origin's rules are requested.
fn go_through(rt: &impl Abort, alloc: Global, other: &mut Frontier, frontier: &mut Frontier) {
    let outcome = page(rt, alloc);
    let rules = rules(rt, alloc);
    let permit = page_permit(rt, frontier);
    answer(rt, other, frontier, permit, outcome);
    assert!(rt; is_spread(rt, frontier) || is_spread(rt, frontier));
    assert!(rt; last_spread(frontier, false) == Some(3) && holds(frontier, 3));
    let permit = robots_permit(rt, frontier);
    rule(rt, other, frontier, permit, rules);
    assert!(rt; stands(frontier));
}

#[test]
fn a_refused_call_is_made_again_and_does_the_rest(rt: HostRuntime) {
    let mut other = opened(&rt, rt.alloc());
    let mut frontier = opened(&rt, rt.alloc());
    go_through(&rt, rt.alloc(), &mut other, &mut frontier);
    drop(frontier);
    drop(other);
}
