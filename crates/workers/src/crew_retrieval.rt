//! The retrieval by several workers over one frontier.
ghost use Rattle.std.specs.Prelude.{◌≡◌, ◌≢◌, ◌<◌, ◌≤◌, [], length, IfOk, IfErr, IsOk, IsErr, vec_len, vec_capacity};
ghost use Rattle.frontier_core.specs.Machine.{answers};
ghost use Rattle.frontier_core.specs.Invariants.{IsOverfull};
ghost use Rattle.frontier_core.specs.Plans.{policy};
ghost use Rattle.frontier_core.specs.Routes.{Answers, HasTooMany};
ghost use Rattle.workers.specs.Crews.{AreLater, all_gained, SomeSays, SomeRules, AllFit};
ghost use Rattle.workers.specs.Found.{AreMadeOnce, AreAsked, AreFound};
ghost use Rattle.workers.specs.inner.Answered.{IsRetrievedBy, IsStoppedBy, IsAccount, IsOwnAccount};
ghost use Rattle.workers.specs.OneWorker.{AreByCrew};
ghost use Rattle.workers.specs.Quotas.{KeepsTo};
ghost use Rattle.workers.specs.Retrieval.{IsRetrieved, IsStopped};
ghost use Rattle.workers.specs.Sites.{IsCompleteFor};
ghost use Rattle.workers.specs.Takers.{AreOwn};

use crate::conclusion::conclude;
use crate::crew::run_crew;
use crate::note::Notes;
use crate::once::is_once_in_place;
use crate::quota::{NoQuota, Quota};
use crate::retrieval::{Halt, open, retrieve_noting};
use crate::seats::{SeatContents, leave_all, leave_bare, note_room, seat_all};
use crate::worker::Seat;
use fetcher::Fetcher;
use follow_filters::Plan;
use frontier_core::{Cause, Frontier};
use frontier_lock::FrontierLock;
use harvest::Harvest;
use observer::{NoObserver, Observer};
use std::alloc::{AllocError, Global};
use std::sync::Wait;
use std::thread::Threads;

/// A retrieval that found what is to be found.
#[derive(Drop)]
pub struct Retrieved<F, B> {
    /// What it found.
    pub harvest: Harvest<B>,
    /// The fetchers, in their order.
    pub fetchers: Vec<F>,
}

/// A retrieval that stopped.
#[derive(Drop)]
pub struct Stopped<F, B> {
    /// Why it stopped.
    pub cause: Cause,
    /// What it had found until then; empty if there was no memory for more, or if a check of the workers failed.
    pub harvest: Harvest<B>,
    /// The fetchers, in their order.
    pub fetchers: Vec<F>,
}

// The retrieval with one fetcher: it needs no other thread, and no lock.
fn ask_alone<F: Fetcher, Q: Quota<F::Body>, O: Observer>(
    alloc: Global,
    plan: &Plan,
    quota: &Q,
    fetchers: &mut [F],
    observer: &O,
) -> Result<Harvest<F::Body>, Halt<F::Body>>
    requires { length fetchers.old ≡ 1 }
    ensures ok { IfOk result (λ h. IsRetrievedBy F.Fetcher plan.now fetchers.old fetchers.new h) }
    ensures err { IfErr result (λ halt. IsStoppedBy F.Fetcher plan.now fetchers.old fetchers.new halt.cause halt.harvest) }
    ensures quota { KeepsTo (Q.most quota.now) Q.len_of result }
    ensures mismatch { IfErr result (λ halt. halt.cause ≢ Cause.Mismatch) }
    ensures numbered { IfOk result (λ h. AreByCrew 1 h.trace) × IfErr result (λ halt. halt.cause ≢ Cause.Mismatch → AreByCrew 1 halt.harvest.trace) }
    ensures own { IfOk result (λ h. AreOwn F.Fetcher 0 fetchers.old fetchers.new h.trace) × IfErr result (λ halt. halt.cause ≢ Cause.Mismatch → AreOwn F.Fetcher 0 fetchers.old fetchers.new halt.harvest.trace) }
{
    if let [fetcher] = fetchers {
        return retrieve_noting(alloc, plan, quota, fetcher, observer);
    }
    unreachable!()
}

// The same, with the fetcher that is handed back.
fn retrieve_alone<F: Fetcher, Q: Quota<F::Body>, O: Observer>(
    alloc: Global,
    plan: &Plan,
    quota: &Q,
    mut fetchers: Vec<F>,
    observer: &O,
) -> (Result<Harvest<F::Body>, Halt<F::Body>>, Vec<F>)
    requires { vec_len fetchers ≡ 1 }
    ensures ok { IfOk result.0 (λ h. IsRetrievedBy F.Fetcher plan.now fetchers.items result.1.items h) }
    ensures err { IfErr result.0 (λ halt. IsStoppedBy F.Fetcher plan.now fetchers.items result.1.items halt.cause halt.harvest) }
    ensures quota { KeepsTo (Q.most quota.now) Q.len_of result.0 }
    ensures mismatch { IfErr result.0 (λ halt. halt.cause ≢ Cause.Mismatch) }
    ensures numbered { IfOk result.0 (λ h. AreByCrew 1 h.trace) × IfErr result.0 (λ halt. halt.cause ≢ Cause.Mismatch → AreByCrew 1 halt.harvest.trace) }
    ensures own { IfOk result.0 (λ h. AreOwn F.Fetcher 0 fetchers.items result.1.items h.trace)
        × IfErr result.0 (λ halt. halt.cause ≢ Cause.Mismatch → AreOwn F.Fetcher 0 fetchers.items result.1.items halt.harvest.trace) }
{
    let retrieved = ask_alone(alloc, plan, quota, &mut fetchers, observer);
    (retrieved, fetchers)
}

// What is needed before any worker starts.
#[derive(Drop)]
struct CrewRoom<F, B> {
    frontier: Frontier,
    seats: Vec<Seat<F, B>>,
    fetchers: Vec<F>,
}

impl<F: Drop, B: Drop> CrewRoom<F, B> {
    // A frontier over a copy of the plan, with room for so many seats, and for the fetchers that come back.
    fn new(alloc: Global, plan: &Plan, count: usize) -> Result<Self, AllocError>
        ensures empty { IfOk result (λ room. (room.seats.items ≡ []) × (room.fetchers.items ≡ [])) }
        ensures seats { IfOk result (λ room. count ≤ vec_capacity room.seats) }
        ensures fetchers { IfOk result (λ room. count ≤ vec_capacity room.fetchers) }
    {
        let seats = Vec::with_capacity(alloc, count)?;
        let fetchers = Vec::with_capacity(alloc, count)?;
        // Made last: at each exit after it all that a frontier holds would be dropped, and each is proved.
        let frontier = open(alloc, plan)?;
        Ok(CrewRoom {
            frontier,
            seats,
            fetchers,
        })
    }
}

// Who worked, and what was noted; only whether anything was requested twice if there was no memory for more.
#[derive(Drop)]
struct Worked<F, B> {
    fetchers: Vec<F>,
    noted: KnownNotes<B>,
}

// What is known of the notes.
#[derive(Drop)]
enum KnownNotes<B> {
    All(Notes<B>),
    // There was no memory to bring them together; nothing was requested twice.
    Once,
    // There was no memory to bring them together; something was requested twice.
    Twice,
}

// Seats the fetchers, has them work, and takes the seats apart.
fn work_all<
    F: Fetcher + Send,
    Q: Quota<F::Body> + Sync,
    O: Observer + Sync,
    R: Threads + Wait + Sync,
>(
    rt: &R,
    alloc: Global,
    lock: &FrontierLock<'_, O>,
    plan: &Plan,
    quota: &Q,
    fetchers: Vec<F>,
    seats: Vec<Seat<F, F::Body>>,
    room: Vec<F>,
) -> Worked<F, F::Body>
where
    F::Body: Send,
    requires most { vec_len fetchers ≤ 64 }
    requires seats { (seats.items ≡ []) × (vec_len fetchers ≤ vec_capacity seats) }
    requires room { (room.items ≡ []) × (vec_len fetchers ≤ vec_capacity room) }
    ensures later { AreLater F.Fetcher fetchers.items result.fetchers.items }
    ensures noted { IsAccount F.Fetcher plan.now fetchers.items result.fetchers.items result.noted }
    ensures own { IsOwnAccount F.Fetcher fetchers.items result.fetchers.items result.noted }
{
    let seats = seat_all(alloc, fetchers, seats);
    let mut seats = run_crew(rt, alloc, lock, plan, quota, seats);
    match note_room(alloc, &seats) {
        Ok(notes) => {
            let SeatContents { fetchers, notes } = leave_all(seats, room, notes);
            Worked {
                fetchers,
                noted: KnownNotes::All(notes),
            }
        }
        Err(_) => {
            let is_once = is_once_in_place(&mut seats);
            let fetchers = leave_bare(seats, room);
            if !is_once {
                return Worked {
                    fetchers,
                    noted: KnownNotes::Twice,
                };
            }
            Worked {
                fetchers,
                noted: KnownNotes::Once,
            }
        }
    }
}

// The retrieval with several fetchers.
fn retrieve_together<
    F: Fetcher + Send,
    Q: Quota<F::Body> + Sync,
    O: Observer + Sync,
    R: Threads + Wait + Sync,
>(
    rt: &R,
    alloc: Global,
    plan: &Plan,
    quota: &Q,
    fetchers: Vec<F>,
    observer: &O,
) -> (Result<Harvest<F::Body>, Halt<F::Body>>, Vec<F>)
where
    F::Body: Send,
    requires most { vec_len fetchers ≤ 64 }
    ensures ok { IfOk result.0 (λ h. IsRetrievedBy F.Fetcher plan.now fetchers.items result.1.items h) }
    ensures err { IfErr result.0 (λ halt. IsStoppedBy F.Fetcher plan.now fetchers.items result.1.items halt.cause halt.harvest) }
    ensures quota { KeepsTo (Q.most quota.now) Q.len_of result.0 }
    ensures numbered { IfOk result.0 (λ h. AreByCrew (vec_len fetchers) h.trace) × IfErr result.0 (λ halt. halt.cause ≢ Cause.Mismatch → AreByCrew (vec_len fetchers) halt.harvest.trace) }
    ensures own { IfOk result.0 (λ h. AreOwn F.Fetcher 0 fetchers.items result.1.items h.trace)
        × IfErr result.0 (λ halt. halt.cause ≢ Cause.Mismatch → AreOwn F.Fetcher 0 fetchers.items result.1.items halt.harvest.trace) }
{
    let workers = fetchers.len();
    let Ok(room) = CrewRoom::new(alloc, plan, workers) else {
        return (Err(Halt::empty(alloc)), fetchers);
    };
    let CrewRoom {
        frontier,
        seats,
        fetchers: back,
    } = room;
    let lock = FrontierLock::new(frontier, observer);
    let Worked { fetchers, noted } = work_all(rt, alloc, &lock, plan, quota, fetchers, seats, back);
    let frontier = lock.into_frontier();
    match noted {
        KnownNotes::All(notes) => (
            conclude(alloc, plan, quota, workers, frontier, notes),
            fetchers,
        ),
        KnownNotes::Once => {
            drop(frontier);
            (Err(Halt::empty(alloc)), fetchers)
        }
        KnownNotes::Twice => {
            drop(frontier);
            (Err(Halt::mismatch(alloc)), fetchers)
        }
    }
}

// The retrieval with one fetcher or with several.
fn retrieve_with<
    F: Fetcher + Send,
    Q: Quota<F::Body> + Sync,
    O: Observer + Sync,
    R: Threads + Wait + Sync,
>(
    rt: &R,
    alloc: Global,
    plan: &Plan,
    quota: &Q,
    fetchers: Vec<F>,
    observer: &O,
) -> (Result<Harvest<F::Body>, Halt<F::Body>>, Vec<F>)
where
    F::Body: Send,
    requires most { vec_len fetchers ≤ 64 }
    ensures ok { IfOk result.0 (λ h. IsRetrievedBy F.Fetcher plan.now fetchers.items result.1.items h) }
    ensures err { IfErr result.0 (λ halt. IsStoppedBy F.Fetcher plan.now fetchers.items result.1.items halt.cause halt.harvest) }
    ensures quota { KeepsTo (Q.most quota.now) Q.len_of result.0 }
    ensures one { vec_len fetchers ≡ 1 → IfErr result.0 (λ halt. halt.cause ≢ Cause.Mismatch) }
    ensures numbered { IfOk result.0 (λ h. AreByCrew (vec_len fetchers) h.trace) × IfErr result.0 (λ halt. halt.cause ≢ Cause.Mismatch → AreByCrew (vec_len fetchers) halt.harvest.trace) }
    ensures own { IfOk result.0 (λ h. AreOwn F.Fetcher 0 fetchers.items result.1.items h.trace)
        × IfErr result.0 (λ halt. halt.cause ≢ Cause.Mismatch → AreOwn F.Fetcher 0 fetchers.items result.1.items halt.harvest.trace) }
{
    if fetchers.len() == 1 {
        return retrieve_alone(alloc, plan, quota, fetchers, observer);
    }
    retrieve_together(rt, alloc, plan, quota, fetchers, observer)
}

/// Retrieves as [`retrieve`] does, and gives the result beside the fetchers, which come back in their order whatever it
/// is. How many addresses wait is reported to the observer.
pub fn retrieve_shown<
    F: Fetcher + Send,
    Q: Quota<F::Body> + Sync,
    O: Observer + Sync,
    R: Threads + Wait + Sync,
>(
    rt: &R,
    alloc: Global,
    plan: &Plan,
    quota: &Q,
    fetchers: Vec<F>,
    observer: &O,
) -> (Result<Harvest<F::Body>, Halt<F::Body>>, Vec<F>)
where
    F::Body: Send,
    requires some { 0 < vec_len fetchers }
    requires most { vec_len fetchers ≤ 64 }
    ensures fetchers { AreLater F.Fetcher fetchers.items result.1.items }
    ensures ok { IfOk result.0 (IsRetrieved (SomeSays F.Fetcher fetchers.items result.1.items) (SomeRules F.Fetcher fetchers.items result.1.items)
        plan.now (all_gained F.Fetcher fetchers.items result.1.items)) }
    ensures err { IfErr result.0 (λ halt. halt.cause ≢ Cause.Mismatch → IsStopped (SomeSays F.Fetcher fetchers.items result.1.items)
        (SomeRules F.Fetcher fetchers.items result.1.items) plan.now (all_gained F.Fetcher fetchers.items result.1.items) halt.cause halt.harvest) }
    ensures quota { KeepsTo (Q.most quota.now) Q.len_of result.0 }

    // What was found, by the answers alone.
    ensures finds { IfOk result.0 (λ h. (m : Answers) × AreAsked (SomeSays F.Fetcher fetchers.items result.1.items) (SomeRules F.Fetcher fetchers.items result.1.items)
        plan.now (all_gained F.Fetcher fetchers.items result.1.items) m × AreFound plan.now m h.entries) }
    ensures once { IfErr result.0 (λ halt. halt.cause ≢ Cause.Mismatch → AreMadeOnce (all_gained F.Fetcher fetchers.items result.1.items)) }
    ensures full { IfErr result.0 (λ halt. halt.cause ≡ Cause.Full → HasTooMany (policy plan.now) (answers halt.harvest.state) × IsOverfull (policy plan.now) halt.harvest.state) }
    ensures one { vec_len fetchers ≡ 1 → IfErr result.0 (λ halt. halt.cause ≢ Cause.Mismatch) }
    ensures numbered { IfOk result.0 (λ h. AreByCrew (vec_len fetchers) h.trace) × IfErr result.0 (λ halt. halt.cause ≢ Cause.Mismatch → AreByCrew (vec_len fetchers) halt.harvest.trace) }
    ensures own { IfOk result.0 (λ h. AreOwn F.Fetcher 0 fetchers.items result.1.items h.trace)
        × IfErr result.0 (λ halt. halt.cause ≢ Cause.Mismatch → AreOwn F.Fetcher 0 fetchers.items result.1.items halt.harvest.trace) }

    // What holds of fetchers whose sites give each address one outcome, and each origin one rule set, and the same.
    ensures whole_site { (whole : Answers) → AllFit F.Fetcher fetchers.items whole → IfOk result.0 (λ h. IsCompleteFor (policy plan.now) whole h.state) }
    ensures full_site { (whole : Answers) → AllFit F.Fetcher fetchers.items whole → IfErr result.0 (λ halt. halt.cause ≡ Cause.Full → HasTooMany (policy plan.now) whole) }
    ensures crowded_site { (whole : Answers) → AllFit F.Fetcher fetchers.items whole → HasTooMany (policy plan.now) whole → IsErr result.0 }
{
    retrieve_with(rt, alloc, plan, quota, fetchers, observer)
}

// What a retrieval resulted in, with its fetchers.
fn with_fetchers<F: Drop, B: Drop>(
    retrieved: Result<Harvest<B>, Halt<B>>,
    fetchers: Vec<F>,
) -> Result<Retrieved<F, B>, Stopped<F, B>>
    ensures ok { IfOk result (λ r. (r.fetchers.items ≡ fetchers.items) × IfOk retrieved (λ h. r.harvest ≡ h) × IsOk retrieved) }
    ensures err { IfErr result (λ s. (s.fetchers.items ≡ fetchers.items) × IfErr retrieved (λ halt. (s.cause ≡ halt.cause) × (s.harvest ≡ halt.harvest)) × IsErr retrieved) }
{
    match retrieved {
        Ok(harvest) => Ok(Retrieved { harvest, fetchers }),
        Err(halt) => {
            let Halt { cause, harvest } = halt;
            Err(Stopped {
                cause,
                harvest,
                fetchers,
            })
        }
    }
}

/// Requests what the plan wants, with one worker for each fetcher, until nothing is left to do. The fetchers come back in their
/// order, and the site of each is what it was. What they were asked, all together, and what some of them said is what
/// [`retrieve_in_order`] says of one.
///
/// The lines of the trace name these workers alone, which are counted from 0, in the order of their fetchers, and each fetcher
/// was to request what its own worker took. It stops with Mismatch if a check of what the workers noted fails; then nothing more
/// is said, and with one fetcher that never happens.
pub fn retrieve<F: Fetcher + Send, R: Threads + Wait + Sync>(
    rt: &R,
    alloc: Global,
    plan: &Plan,
    fetchers: Vec<F>,
) -> Result<Retrieved<F, F::Body>, Stopped<F, F::Body>>
where
    F::Body: Send,
    requires some { 0 < vec_len fetchers }
    requires most { vec_len fetchers ≤ 64 }
    ensures fetchers { IfOk result (λ r. AreLater F.Fetcher fetchers.items r.fetchers.items) × IfErr result (λ s. AreLater F.Fetcher fetchers.items s.fetchers.items) }
    ensures ok { IfOk result (λ r. IsRetrieved (SomeSays F.Fetcher fetchers.items r.fetchers.items) (SomeRules F.Fetcher fetchers.items r.fetchers.items)
        plan.now (all_gained F.Fetcher fetchers.items r.fetchers.items) r.harvest) }
    ensures err { IfErr result (λ s. s.cause ≢ Cause.Mismatch → IsStopped (SomeSays F.Fetcher fetchers.items s.fetchers.items)
        (SomeRules F.Fetcher fetchers.items s.fetchers.items) plan.now (all_gained F.Fetcher fetchers.items s.fetchers.items) s.cause s.harvest) }

    // What was found, by the answers alone.
    ensures finds { IfOk result (λ r. (m : Answers) × AreAsked (SomeSays F.Fetcher fetchers.items r.fetchers.items) (SomeRules F.Fetcher fetchers.items r.fetchers.items)
        plan.now (all_gained F.Fetcher fetchers.items r.fetchers.items) m × AreFound plan.now m r.harvest.entries) }
    ensures once { IfErr result (λ s. s.cause ≢ Cause.Mismatch → AreMadeOnce (all_gained F.Fetcher fetchers.items s.fetchers.items)) }
    ensures full { IfErr result (λ s. s.cause ≡ Cause.Full → HasTooMany (policy plan.now) (answers s.harvest.state) × IsOverfull (policy plan.now) s.harvest.state) }
    ensures one { vec_len fetchers ≡ 1 → IfErr result (λ s. s.cause ≢ Cause.Mismatch) }
    ensures unlimited { IfErr result (λ s. s.cause ≢ Cause.Quota) }
    ensures numbered { IfOk result (λ r. AreByCrew (vec_len fetchers) r.harvest.trace) × IfErr result (λ s. s.cause ≢ Cause.Mismatch → AreByCrew (vec_len fetchers) s.harvest.trace) }
    ensures own { IfOk result (λ r. AreOwn F.Fetcher 0 fetchers.items r.fetchers.items r.harvest.trace)
        × IfErr result (λ s. s.cause ≢ Cause.Mismatch → AreOwn F.Fetcher 0 fetchers.items s.fetchers.items s.harvest.trace) }

    // What holds of fetchers whose sites give each address one outcome, and each origin one rule set, and the same.
    ensures whole_site { (whole : Answers) → AllFit F.Fetcher fetchers.items whole → IfOk result (λ r. IsCompleteFor (policy plan.now) whole r.harvest.state) }
    ensures full_site { (whole : Answers) → AllFit F.Fetcher fetchers.items whole → IfErr result (λ s. s.cause ≡ Cause.Full → HasTooMany (policy plan.now) whole) }
    ensures crowded_site { (whole : Answers) → AllFit F.Fetcher fetchers.items whole → HasTooMany (policy plan.now) whole → IsErr result }
{
    let (retrieved, fetchers) = retrieve_shown(rt, alloc, plan, &NoQuota, fetchers, &NoObserver);
    with_fetchers(retrieved, fetchers)
}
