//! A frontier behind a lock: what each call does with ample memory, and that a worker sleeps until another is done.
use crate::rows::plan;
use address::Address;
use fetcher::{Edge, EdgeKind, Edges, Outcome};
use frontier_core::{Cause, Frontier, Permit, Work};
use frontier_lock::{Done, FrontierLock, HeldPermit, Refused};
use observer::Observer;
use std::alloc::Global;
use std::process::Abort;
use std::sync::Wait;
use std::sync::atomic::{AtomicU64, AtomicUsize, Ordering};
use std::thread;
use std::thread::Threads;

/// A frontier from `http://h/`, one hop deep, without robots rules, and two permits at a time.
fn opened(rt: &impl Abort, alloc: Global) -> Frontier {
    let plan = plan(rt, alloc, 1, 10);
    Frontier::open(alloc, plan).expect(rt, "memory")
}

/// Keeps how many wait, as is reported to it.
#[derive(Drop)]
struct Waiting {
    count: AtomicUsize,
}

impl Waiting {
    /// Before anything is reported.
    fn new() -> Waiting {
        Waiting {
            count: AtomicUsize::new(1),
        }
    }

    /// How many wait, as was reported last.
    fn seen(&self) -> usize {
        self.count.load(Ordering::Relaxed)
    }
}

impl Observer for Waiting {
    fn waiting(&self, count: usize) {
        self.count.store(count, Ordering::Relaxed);
    }
}

/// The lock of these tests.
type Lock<'a> = FrontierLock<'a, Waiting>;

/// That frontier behind a lock.
fn locked<'a>(rt: &impl Abort, alloc: Global, waiting: &'a Waiting) -> Lock<'a> {
    FrontierLock::new(opened(rt, alloc), waiting)
}

/// A page with a link to each of these.
fn page_to(rt: &impl Abort, alloc: Global, links: &[&str]) -> Outcome {
    let mut edges = Vec::new(alloc);
    for link in links {
        let target = Address::read(alloc, link).expect(rt, "an address");
        let kind = EdgeKind::Link;
        edges.push(Edge { target, kind }).expect(rt, "memory");
    }
    Outcome::Page(200, Edges::new(edges).expect(rt, "memory"))
}

/// A page with one link, to `http://h/a`.
fn page(rt: &impl Abort, alloc: Global) -> Outcome {
    page_to(rt, alloc, &["http://h/a"])
}

/// What a worker receives; a permit is given up.
#[derive(Clone, Copy, PartialEq, Eq)]
enum Told {
    Stopped(Cause),
    Spread,
    Quiet,
    Busy,
    Permit,
}

/// What the worker receives.
fn tell(rt: &impl Wait, lock: &Lock, work: Work) -> Told {
    match work {
        Work::Stopped(cause) => Told::Stopped(cause),
        Work::Spread => Told::Spread,
        Work::Quiet => Told::Quiet,
        Work::Busy => Told::Busy,
        Work::Page(permit) => {
            lock.halt(rt, Some(HeldPermit::Page(permit)), Cause::Mismatch);
            Told::Permit
        }
        Work::Robots(permit) => {
            lock.halt(rt, Some(HeldPermit::Rules(permit)), Cause::Mismatch);
            Told::Permit
        }
    }
}

/// What worker 1 receives at once.
fn told_now<R: Abort + Wait>(rt: &R, lock: &Lock) -> Told {
    let work = lock.next(rt, 1).expect(rt, "memory");
    tell(rt, lock, work)
}

/// The permit for a page that the worker gets.
fn page_permit<R: Abort + Wait>(rt: &R, lock: &Lock, worker: u32) -> Permit {
    let work = lock.next(rt, worker).expect(rt, "memory");
    permit_of(rt, lock, work)
}

/// The permit for the page that a worker is to request.
fn permit_of<R: Abort + Wait>(rt: &R, lock: &Lock, work: Work) -> Permit {
    let Work::Page(permit) = work else {
        tell(rt, lock, work);
        panic!(rt; "no page");
    };
    permit
}

/// The permit of an answer that wasn't taken.
fn held_of(refused: Refused) -> HeldPermit {
    let Refused { done, fault: _ } = refused;
    match done {
        Done::Page(permit, _) => HeldPermit::Page(permit),
        Done::Rules(permit, _) => HeldPermit::Rules(permit),
    }
}

/// Hands the page's outcome over; one that isn't taken is given up.
fn give(rt: &impl Wait, lock: &Lock, permit: Permit, outcome: Outcome) {
    if let Err(refused) = lock.give(rt, Done::Page(permit, outcome)) {
        lock.halt(rt, Some(held_of(refused)), Cause::Mismatch);
    }
}

/// Hands the page's outcome over for worker 0's next work; one that isn't taken is given up.
fn exchange<R: Abort + Wait>(rt: &R, lock: &Lock, permit: Permit, outcome: Outcome) -> Work {
    match lock.give_and_take(rt, 0, Done::Page(permit, outcome)) {
        Ok(work) => work,
        Err(refused) => {
            lock.halt(rt, Some(held_of(refused)), Cause::Mismatch);
            panic!(rt; "a stray permit");
        }
    }
}

/// Has the lock's two pages requested and answered by worker 0, and asserts what is received and what waits between.
fn go_through<R: Abort + Wait>(rt: &R, alloc: Global, lock: &Lock, waiting: &Waiting) {
    let permit = page_permit(rt, lock, 0);
    assert!(rt; waiting.seen() == 0);
    give(rt, lock, permit, page(rt, alloc));
    assert!(rt; told_now(rt, lock) == Told::Spread);
    assert!(rt; waiting.seen() == 1);
    assert!(rt; lock.spread(rt).is_ok());
    let permit = page_permit(rt, lock, 0);
    assert!(rt; waiting.seen() == 0);
    assert!(rt; permit.address().as_str() == "http://h/a");
    assert!(rt; told_now(rt, lock) == Told::Busy);
    give(rt, lock, permit, Outcome::Leaf(200));
    assert!(rt; told_now(rt, lock) == Told::Quiet);
}

/// Whether nothing is left to do.
fn is_quiet(frontier: &Frontier) -> bool {
    frontier.is_quiet()
}

/// Whether a lock is left with nothing to do.
fn is_left_quiet(lock: Lock) -> bool {
    let frontier = lock.into_frontier();
    let is_quiet = is_quiet(&frontier);
    drop(frontier);
    is_quiet
}

#[test]
fn the_edges_of_a_page_are_offered(rt: HostRuntime) {
    let waiting = Waiting::new();
    let lock = locked(&rt, rt.alloc(), &waiting);
    go_through(&rt, rt.alloc(), &lock, &waiting);
    assert!(rt; is_left_quiet(lock));
}

/// Has the lock's pages requested by worker 0, each answer in exchange for the next.
fn exchange_all<R: Abort + Wait>(rt: &R, alloc: Global, lock: &Lock, waiting: &Waiting) {
    let permit = page_permit(rt, lock, 0);
    let links = page_to(rt, alloc, &["http://h/a", "http://h/b"]);
    let work = exchange(rt, lock, permit, links);
    let permit = permit_of(rt, lock, work);
    assert!(rt; permit.address().as_str() == "http://h/a");
    assert!(rt; waiting.seen() == 1);
    let work = exchange(rt, lock, permit, Outcome::Leaf(200));
    let permit = permit_of(rt, lock, work);
    assert!(rt; permit.address().as_str() == "http://h/b");
    assert!(rt; waiting.seen() == 0);
    let work = exchange(rt, lock, permit, Outcome::Leaf(200));
    assert!(rt; tell(rt, lock, work) == Told::Quiet);
}

#[test]
fn an_answer_is_exchanged_for_the_next_page(rt: HostRuntime) {
    let waiting = Waiting::new();
    let lock = locked(&rt, rt.alloc(), &waiting);
    exchange_all(&rt, rt.alloc(), &lock, &waiting);
    assert!(rt; is_left_quiet(lock));
}

/// Hands an answer to a lock that didn't give its permit, and then to the one that did.
fn go_astray<R: Abort + Wait>(rt: &R, own: &Lock, other: &Lock) {
    let permit = page_permit(rt, own, 0);
    match other.give_and_take(rt, 0, Done::Page(permit, Outcome::Leaf(200))) {
        Ok(work) => {
            tell(rt, other, work);
            panic!(rt; "a stray permit was taken");
        }
        Err(refused) => match held_of(refused) {
            HeldPermit::Page(permit) => {
                let work = exchange(rt, own, permit, Outcome::Leaf(200));
                assert!(rt; tell(rt, own, work) == Told::Quiet);
            }
            held => own.halt(rt, Some(held), Cause::Mismatch),
        },
    }
    assert!(rt; told_now(rt, own) == Told::Quiet);
    assert!(rt; told_now(rt, other) == Told::Permit);
}

#[test]
fn a_stray_answer_comes_back(rt: HostRuntime) {
    let waiting = Waiting::new();
    let own = locked(&rt, rt.alloc(), &waiting);
    let other = locked(&rt, rt.alloc(), &waiting);
    go_astray(&rt, &own, &other);
    drop(own);
    drop(other);
}

/// Stops twice while worker 0 holds the permit for the start, for another cause each time.
fn stop_twice<R: Abort + Wait>(rt: &R, lock: &Lock) {
    let permit = page_permit(rt, lock, 0);
    lock.halt(rt, None, Cause::Full);
    lock.halt(rt, Some(HeldPermit::Page(permit)), Cause::Memory);
    assert!(rt; told_now(rt, lock) == Told::Stopped(Cause::Full));
}

/// Whether an address is given up.
fn is_given_up(frontier: &Frontier, at: &Address) -> bool {
    frontier.is_given_up(at)
}

/// Whether a lock is left with the address given up.
fn is_left_given_up(lock: Lock, at: &Address) -> bool {
    let frontier = lock.into_frontier();
    let is_given_up = is_given_up(&frontier, at);
    drop(frontier);
    is_given_up
}

#[test]
fn the_first_cause_stops_all_workers(rt: HostRuntime) {
    let start = Address::read(rt.alloc(), "http://h/").expect(&rt, "an address");
    let waiting = Waiting::new();
    let lock = locked(&rt, rt.alloc(), &waiting);
    stop_twice(&rt, &lock);
    assert!(rt; is_left_given_up(lock, &start));
}

/// How far the workers are: one holds a permit, and so many more request work.
const HELD: u64 = 1;

/// Beside the one that holds a permit, one other requests work.
const ASKED: u64 = 2;

/// That other learned what to do.
const TOLD: u64 = 3;

/// Lets other threads run until the workers are so far.
fn wait_until(progress: &AtomicU64, reached: u64) {
    for _ in 0..1_000_000u32 {
        if progress.load(Ordering::SeqCst) >= reached {
            return;
        }
        thread::yield_now();
    }
}

/// Lets other threads run a while.
fn let_others_run() {
    for _ in 0..1_000u32 {
        thread::yield_now();
    }
}

/// What worker 1 receives if it requests work while worker 0 holds a permit.
fn wait_for_work<R: Abort + Wait>(rt: &R, lock: &Lock, progress: &AtomicU64) -> Told {
    wait_until(progress, HELD);
    progress.fetch_add(1, Ordering::SeqCst);
    let work = lock.next_or_wait(rt, 1).expect(rt, "memory");
    tell(rt, lock, work)
}

/// Has worker 0 answer its page, or give it up, a while after so many others requested work.
fn end_permit<R: Abort + Wait>(
    rt: &R,
    lock: &Lock,
    progress: &AtomicU64,
    others: u64,
    answer: Option<Outcome>,
) {
    let permit = page_permit(rt, lock, 0);
    progress.store(HELD, Ordering::SeqCst);
    wait_until(progress, HELD.saturating_add(others));
    let_others_run();
    match answer {
        Some(outcome) => give(rt, lock, permit, outcome),
        None => lock.halt(rt, Some(HeldPermit::Page(permit)), Cause::Memory),
    }
}

/// What a worker receives that waited for another's page to be answered, or to be given up.
fn woken<R: Abort + Threads + Wait + Sync>(rt: &R, alloc: Global, answer: Option<Outcome>) -> Told {
    let waiting = Waiting::new();
    let lock = locked(rt, alloc, &waiting);
    let progress = AtomicU64::new(0);
    let (told, ()) = thread::join(
        rt,
        || wait_for_work(rt, &lock, &progress),
        || end_permit(rt, &lock, &progress, 1, answer),
    );
    told
}

#[test]
fn a_halt_wakes_all_that_sleep(rt: HostRuntime) {
    let waiting = Waiting::new();
    let lock = locked(&rt, rt.alloc(), &waiting);
    let progress = AtomicU64::new(0);
    let ((one, other), ()) = thread::join(
        &rt,
        || {
            thread::join(
                &rt,
                || wait_for_work(&rt, &lock, &progress),
                || wait_for_work(&rt, &lock, &progress),
            )
        },
        || end_permit(&rt, &lock, &progress, 2, None),
    );
    assert!(rt; one == Told::Stopped(Cause::Memory));
    assert!(rt; other == Told::Stopped(Cause::Memory));
}

#[test]
fn a_worker_sleeps_until_another_is_done(rt: HostRuntime) {
    let alloc = rt.alloc();
    assert!(rt; woken(&rt, alloc, Some(page(&rt, alloc))) == Told::Spread);
    assert!(rt; woken(&rt, alloc, Some(Outcome::Leaf(200))) == Told::Quiet);
    assert!(rt; woken(&rt, alloc, None) == Told::Stopped(Cause::Memory));
}

/// Has worker 0 exchange the start for its next page a while after worker 1 requested work, and says whether worker 1
/// receives anything before that page is answered too. If it `is_due` to receive something, that is waited for.
fn exchange_late<R: Abort + Wait>(
    rt: &R,
    alloc: Global,
    lock: &Lock,
    progress: &AtomicU64,
    links: &[&str],
    is_due: bool,
) -> bool {
    let permit = page_permit(rt, lock, 0);
    progress.store(HELD, Ordering::SeqCst);
    wait_until(progress, ASKED);
    let_others_run();
    let work = exchange(rt, lock, permit, page_to(rt, alloc, links));
    let Work::Page(permit) = work else {
        tell(rt, lock, work);
        return false;
    };
    if is_due {
        wait_until(progress, TOLD);
    }
    let_others_run();
    let is_told = progress.load(Ordering::SeqCst) == TOLD;
    let work = exchange(rt, lock, permit, Outcome::Leaf(200));
    tell(rt, lock, work);
    is_told
}

/// What worker 1 receives that slept while worker 0 exchanged the start for its next page, and whether it received it
/// before that page was answered too.
fn told_by<R: Abort + Threads + Wait + Sync>(
    rt: &R,
    alloc: Global,
    links: &[&str],
    is_due: bool,
) -> (Told, bool) {
    let waiting = Waiting::new();
    let lock = locked(rt, alloc, &waiting);
    let progress = AtomicU64::new(0);
    thread::join(
        rt,
        || {
            let told = wait_for_work(rt, &lock, &progress);
            progress.store(TOLD, Ordering::SeqCst);
            told
        },
        || exchange_late(rt, alloc, &lock, &progress, links, is_due),
    )
}

#[test]
fn who_sleeps_is_told_where_something_is_left(rt: HostRuntime) {
    let (told, is_told) = told_by(&rt, rt.alloc(), &["http://h/a", "http://h/b"], true);
    assert!(rt; told == Told::Permit);
    assert!(rt; is_told);
}

#[test]
fn who_sleeps_sleeps_on_where_nothing_is_left(rt: HostRuntime) {
    let (told, is_told) = told_by(&rt, rt.alloc(), &["http://h/a"], false);
    assert!(rt; told == Told::Quiet);
    assert!(rt; !is_told);
}

#[test]
fn who_sleeps_is_told_that_it_is_quiet(rt: HostRuntime) {
    let (told, _) = told_by(&rt, rt.alloc(), &[], false);
    assert!(rt; told == Told::Quiet);
}
