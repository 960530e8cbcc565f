//! One worker: it takes work from a shared frontier, asks with the lock free, and hands the answers over.
ghost use Rattle.std.specs.Prelude.{◌≡◌, ◌<◌, ◌++◌, ◌∷◌, [], List, None, IfOk, IfSome, OnOk, MatchOption, vec_len, vec_capacity};
ghost use Rattle.follow_filters.specs.declared.plan.Plan.{Plan};
ghost use Rattle.workers.specs.inner.Notes.{Goes, body_of};
ghost use Rattle.workers.specs.inner.Seats.{SeatGoes};

use crate::kept_body::keep_body;
use crate::note::{Notes, PageNote, RulesNote};
use crate::quota::{Meter, Quota};
use address::{Address, Origin};
use fetcher::{Answer, Fetcher, Outcome};
use follow_filters::Plan;
use frontier_core::{AnswerFault, Cause, OriginPermit, Permit, SpreadFault, Work};
use frontier_lock::{Done, FrontierLock, HeldPermit, Refused, Unanswered};
use observer::Observer;
use robots_rules::RuleSet;
use std::alloc::{AllocError, Global};
use std::sync::Wait;

/// A worker's place: its number, its fetcher and its notes.
#[derive(Drop)]
pub struct Seat<F, B> {
    pub number: u32,
    pub fetcher: F,
    pub notes: Notes<B>,
}

// Makes room for the note of a page, and gives its address.
fn make_page_room<B>(notes: &mut Notes<B>, address: &Address) -> Result<Address, AllocError>
    ensures pages { notes.new.pages.items ≡ notes.old.pages.items }
    ensures rules { notes.new.rules.items ≡ notes.old.rules.items }
    ensures name { IfOk result (λ copy. copy ≡ address.now) }
    ensures room { OnOk result (vec_len notes.new.pages < vec_capacity notes.new.pages) }
{
    notes.pages.reserve(1)?;
    address.try_clone()
}

// Makes room for the note of an origin's rules, and gives the origin.
fn make_rules_room<B>(notes: &mut Notes<B>, origin: &Origin) -> Result<Origin, AllocError>
    ensures pages { notes.new.pages.items ≡ notes.old.pages.items }
    ensures rules { notes.new.rules.items ≡ notes.old.rules.items }
    ensures name { IfOk result (λ copy. copy ≡ origin.now) }
    ensures room { OnOk result (vec_len notes.new.rules < vec_capacity notes.new.rules) }
{
    notes.rules.reserve(1)?;
    origin.try_clone()
}

// Why an answer that wasn't taken stops the retrieval.
fn cause_of(fault: AnswerFault) -> Cause {
    match fault {
        AnswerFault::Stray => Cause::Mismatch,
        AnswerFault::Memory => Cause::Memory,
    }
}

// The permit of an answer that wasn't taken.
fn held_of(done: Done) -> HeldPermit {
    match done {
        Done::Page(permit, _outcome) => HeldPermit::Page(permit),
        Done::Rules(permit, _rules) => HeldPermit::Rules(permit),
    }
}

// Stops the frontier, and the worker with it.
fn halt<O: Observer, R: Wait>(
    rt: &R,
    lock: &FrontierLock<'_, O>,
    held: Option<HeldPermit>,
    cause: Cause,
) -> Work {
    lock.halt(rt, held, cause);
    Work::Stopped(cause)
}

// What the worker is to do next, when others have done what it has to wait for.
fn next<O: Observer, R: Wait>(rt: &R, lock: &FrontierLock<'_, O>, worker: u32) -> Work {
    match lock.next_or_wait(rt, worker) {
        Ok(work) => work,
        Err(_) => halt(rt, lock, None, Cause::Memory),
    }
}

// Gives up the permit of an answer that wasn't taken, and stops the frontier.
fn refuse<O: Observer, R: Wait>(rt: &R, lock: &FrontierLock<'_, O>, refused: Refused) -> Cause {
    let Refused { done, fault } = refused;
    let cause = cause_of(fault);
    lock.halt(rt, Some(held_of(done)), cause);
    cause
}

// Hands an answer over. If it isn't taken the frontier stops.
fn give<O: Observer, R: Wait>(rt: &R, lock: &FrontierLock<'_, O>, done: Done) -> bool {
    match lock.give(rt, done) {
        Ok(()) => true,
        Err(refused) => {
            refuse(rt, lock, refused);
            false
        }
    }
}

// The note of a page that was requested, if nothing of it was handed over.
fn unanswered_page<B>(worker: u32, address: Address) -> PageNote<B>
    ensures { result ≡ record { worker = worker; address = address; outcome = None; body = None } }
{
    PageNote {
        worker,
        address,
        outcome: None,
        body: None,
    }
}

// Counts the body of a page, if it is kept. If it passes the quota the frontier stops, before what was received is recorded:
// so no permit is given once what is recorded passes it.
fn count<B, Q: Quota<B>, O: Observer, R: Wait>(
    rt: &R,
    lock: &FrontierLock<'_, O>,
    meter: &Meter<'_, Q>,
    body: &Option<B>,
) {
    if let Some(body) = body {
        if meter.passes(body) {
            lock.halt(rt, None, Cause::Quota);
        }
    }
}

// Hands the answer of a page over, and gives the note of it with what the worker is to do next.
fn hand_over<B: Drop, Q: Quota<B>, O: Observer, R: Wait>(
    rt: &R,
    lock: &FrontierLock<'_, O>,
    plan: &Plan,
    meter: &Meter<'_, Q>,
    worker: u32,
    address: Address,
    permit: Permit,
    answer: Answer<B>,
) -> (PageNote<B>, Work)
    ensures worker { result.0.worker ≡ worker }
    ensures address { result.0.address ≡ address }
    ensures told { MatchOption result.0.outcome (result.0.body ≡ None) (λ x. (x ≡ answer.outcome) × (result.0.body ≡ body_of plan.now result.0.address x answer.body)) }
{
    let Answer { mut outcome, body } = answer;
    let body = keep_body(plan, &address, &outcome, body);
    count(rt, lock, meter, &body);
    let next = match lock.answer_and_take(rt, worker, permit, &mut outcome) {
        Ok(next) => next,
        Err(unanswered) => {
            let Unanswered { permit, fault } = unanswered;
            let stopped = halt(rt, lock, Some(HeldPermit::Page(permit)), cause_of(fault));
            return (unanswered_page(worker, address), stopped);
        }
    };
    let note = PageNote {
        worker,
        address,
        outcome: Some(outcome),
        body,
    };
    (note, next)
}

// Requests the page of a permit with the lock free, hands the outcome over, and notes what was requested. Gives what the worker
// is to do next.
fn fetch_page<F: Fetcher, Q: Quota<F::Body>, O: Observer, R: Wait>(
    rt: &R,
    lock: &FrontierLock<'_, O>,
    plan: &Plan,
    meter: &Meter<'_, Q>,
    worker: u32,
    fetcher: &mut F,
    notes: &mut Notes<F::Body>,
    permit: Permit,
) -> Work
    ensures { Goes F.Fetcher plan.now worker (fetcher.old, notes.old) (fetcher.new, notes.new) }
{
    let Ok(address) = make_page_room(notes, permit.address()) else {
        return halt(rt, lock, Some(HeldPermit::Page(permit)), Cause::Memory);
    };
    let before = fetcher.asks().len();
    let Ok(answer) = fetcher.ask(permit.address()) else {
        let stopped = halt(rt, lock, Some(HeldPermit::Page(permit)), Cause::Memory);
        if fetcher.asks().len() == before {
            return stopped;
        }
        notes.pages.push_reserved(unanswered_page(worker, address));
        return stopped;
    };
    let (note, next) = hand_over(rt, lock, plan, meter, worker, address, permit, answer);
    notes.pages.push_reserved(note);
    next
}

// The note of an origin's rules that were requested, if none were handed over.
fn unanswered_rules(worker: u32, origin: Origin) -> RulesNote
    ensures { result ≡ record { worker = worker; origin = origin; rules = None } }
{
    RulesNote {
        worker,
        origin,
        rules: None,
    }
}

// Hands an origin's rules over, and gives the note of them.
fn hand_rules_over<O: Observer, R: Wait>(
    rt: &R,
    alloc: Global,
    lock: &FrontierLock<'_, O>,
    worker: u32,
    origin: Origin,
    permit: OriginPermit,
    rules: RuleSet,
) -> RulesNote
    ensures worker { result.worker ≡ worker }
    ensures origin { result.origin ≡ origin }
    ensures told { IfSome result.rules (λ told. told ≡ rules) }
{
    let Ok(copy) = rules.try_clone(alloc) else {
        lock.halt(rt, Some(HeldPermit::Rules(permit)), Cause::Memory);
        return unanswered_rules(worker, origin);
    };
    if !give(rt, lock, Done::Rules(permit, copy)) {
        return unanswered_rules(worker, origin);
    }
    RulesNote {
        worker,
        origin,
        rules: Some(rules),
    }
}

// Requests the robots rules of a permit's origin with the lock free, hands them over, and notes what was requested. Whatever
// the plan is.
fn fetch_robots<F: Fetcher, O: Observer, R: Wait>(
    rt: &R,
    alloc: Global,
    lock: &FrontierLock<'_, O>,
    worker: u32,
    fetcher: &mut F,
    notes: &mut Notes<F::Body>,
    permit: OriginPermit,
)
    ensures { (plan : Plan) → Goes F.Fetcher plan worker (fetcher.old, notes.old) (fetcher.new, notes.new) }
{
    let Ok(origin) = make_rules_room(notes, permit.origin()) else {
        lock.halt(rt, Some(HeldPermit::Rules(permit)), Cause::Memory);
        return;
    };
    let before = fetcher.asks().len();
    let Ok(rules) = fetcher.ask_robots(permit.origin()) else {
        lock.halt(rt, Some(HeldPermit::Rules(permit)), Cause::Memory);
        if fetcher.asks().len() == before {
            return;
        }
        notes.rules.push_reserved(unanswered_rules(worker, origin));
        return;
    };
    let note = hand_rules_over(rt, alloc, lock, worker, origin, permit, rules);
    notes.rules.push_reserved(note);
}

// Offers the edges of one due address. If they are refused the frontier stops.
fn spread<O: Observer, R: Wait>(rt: &R, lock: &FrontierLock<'_, O>) {
    match lock.spread(rt) {
        Ok(()) => {}
        Err(SpreadFault::Full) => lock.halt(rt, None, Cause::Full),
        Err(SpreadFault::Memory) => lock.halt(rt, None, Cause::Memory),
    }
}

// Takes work and does it, until none is left or the frontier stopped.
fn work<F: Fetcher, Q: Quota<F::Body>, O: Observer, R: Wait>(
    rt: &R,
    alloc: Global,
    lock: &FrontierLock<'_, O>,
    plan: &Plan,
    meter: &Meter<'_, Q>,
    worker: u32,
    fetcher: &mut F,
    notes: &mut Notes<F::Body>,
)
    ensures { Goes F.Fetcher plan.now worker (fetcher.old, notes.old) (fetcher.new, notes.new) }
{
    let mut work = next(rt, lock, worker);
    for _ in rt.forever() {
        work = match work {
            Work::Stopped(_) => return,
            Work::Quiet => return,
            Work::Busy => next(rt, lock, worker),
            Work::Spread => {
                spread(rt, lock);
                next(rt, lock, worker)
            }
            Work::Robots(permit) => {
                fetch_robots(rt, alloc, lock, worker, fetcher, notes, permit);
                next(rt, lock, worker)
            }
            Work::Page(permit) => fetch_page(rt, lock, plan, meter, worker, fetcher, notes, permit),
        };
    }
    unreachable!()
}

/// Has the worker of a seat work, under the seat's number.
pub fn work_at<F: Fetcher, Q: Quota<F::Body>, O: Observer, R: Wait>(
    rt: &R,
    alloc: Global,
    lock: &FrontierLock<'_, O>,
    plan: &Plan,
    meter: &Meter<'_, Q>,
    seat: &mut Seat<F, F::Body>,
)
    ensures { SeatGoes F.Fetcher plan.now seat.old seat.new }
{
    work(
        rt,
        alloc,
        lock,
        plan,
        meter,
        seat.number,
        &mut seat.fetcher,
        &mut seat.notes,
    );
}
