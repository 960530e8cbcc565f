//! A crew: one worker for each seat, half of them in a new thread, and so on by halves.
ghost use Rattle.std.specs.Prelude.{◌≡◌, vec_len};
ghost use Rattle.workers.specs.inner.Seats.{AllGo, SeatGoes};

use crate::quota::{Meter, Quota};
use crate::worker::{Seat, work_at};
use fetcher::Fetcher;
use follow_filters::Plan;
use frontier_lock::FrontierLock;
use observer::Observer;
use std::alloc::Global;
use std::sync::Wait;
use std::thread::{Threads, for_each_mut};

// Has a worker at each of these seats work, each in a thread of its own if one can be made.
fn work_all_at<
    F: Fetcher + Send,
    Q: Quota<F::Body> + Sync,
    O: Observer + Sync,
    R: Threads + Wait + Sync,
>(
    rt: &R,
    alloc: Global,
    lock: &FrontierLock<'_, O>,
    plan: &Plan,
    meter: &Meter<'_, Q>,
    seats: &mut [Seat<F, F::Body>],
)
where
    F::Body: Send,
    ensures { AllGo F.Fetcher plan.now seats.old seats.new }
{
    let threads = seats.len().max(1);
    let work = move |_: usize, seat: &mut Seat<F, F::Body>|
        ensures { SeatGoes F.Fetcher plan.entry.now seat.entry.now seat.exit.now }
    { work_at(rt, alloc, lock, plan, meter, seat) };
    for_each_mut(rt, seats, threads, &work);
}

/// Has a worker at each seat work until all are done.
pub fn run_crew<
    F: Fetcher + Send,
    Q: Quota<F::Body> + Sync,
    O: Observer + Sync,
    R: Threads + Wait + Sync,
>(
    rt: &R,
    alloc: Global,
    lock: &FrontierLock<'_, O>,
    plan: &Plan,
    quota: &Q,
    mut seats: Vec<Seat<F, F::Body>>,
) -> Vec<Seat<F, F::Body>>
where
    F::Body: Send,
    ensures went { AllGo F.Fetcher plan.now seats.items result.items }
    ensures len { vec_len result ≡ vec_len seats }
{
    let meter = Meter::new(quota);
    work_all_at(rt, alloc, lock, plan, &meter, &mut seats);
    seats
}
