//! The lock round a frontier.
ghost use Rattle.std.specs.Prelude.{◌≡◌, ◌≢◌, ◌↔◌, false, length, IsTrue, OnOk, OnErr, IfOk, IfErr};
ghost use Rattle.frontier_core.specs.Machine.{Action};
ghost use Rattle.frontier_core.specs.Traced.{Traced, Makes};
ghost use Rattle.frontier_core.specs.Waits.{ends_waits};
ghost use Rattle.frontier_lock.specs.Permits.{IsFor};
ghost use Rattle.frontier_lock.specs.inner.Steps.{Records, GivesPermitUp};
ghost use Rattle.frontier_lock.specs.inner.Exchanges.{OffersOrStops, TakesOrStops, Exchanges};
ghost use Rattle.frontier_lock.specs.inner.Waits.{IsSleptAt, MakesAtMostOne, IsMadeBy, IsOneStep};

use fetcher::Outcome;
use frontier_core::{
    AnswerFault, Cause, Event, Frontier, OriginPermit, Permit, Rejected, RejectedRules,
    SpreadFault, Work,
};
use observer::Observer;
use robots_rules::RuleSet;
use std::alloc::AllocError;
use std::sync::{Condvar, Mutex, Wait};

/// A permit with what was answered. It can't be dropped: it is given, or taken apart.
pub enum Done {
    /// The page's outcome.
    Page(Permit, Outcome),
    /// The origin's robots rules (RFC 9309, section 2.3).
    Rules(OriginPermit, RuleSet),
}

/// A permit that is given up.
pub enum HeldPermit {
    /// That of a page.
    Page(Permit),
    /// That of an origin's robots rules.
    Rules(OriginPermit),
}

/// An answer that the frontier didn't take.
pub struct Refused {
    /// The permit, still to be answered or given up, and the answer.
    pub done: Done,
    /// Why it wasn't taken.
    pub fault: AnswerFault,
}

/// A page's answer that the frontier didn't take.
pub struct Unanswered {
    /// The permit, still to be answered or given up.
    pub permit: Permit,
    /// Why it wasn't taken.
    pub fault: AnswerFault,
}

/// A frontier that many workers share.
#[derive(Drop)]
pub struct FrontierLock<'a, O: Observer> {
    core: Mutex<Frontier>,
    work_available: Condvar,
    observer: &'a O,
}

// Takes work for the worker. While somebody may be asleep nothing changes, so that nobody has to be woken.
fn take(core: &mut Frontier, worker: u32) -> Result<Work, AllocError>
    ensures work { IfOk result (IsFor worker) }
    ensures one { MakesAtMostOne core.old core.new }
    ensures still { IsSleptAt core.old → core.new ≡ core.old }
{
    core.take(worker)
}

// Offers the edges of one due address. While somebody may be asleep nothing is due, and nothing changes.
#[tactic(auto, using(crate::proofs::Waits::spread_one, crate::proofs::Waits::spread_still))]
fn offer(core: &mut Frontier) -> Result<(), SpreadFault>
    ensures one { MakesAtMostOne core.old core.new }
    ensures still { IsSleptAt core.old → core.new ≡ core.old }
{
    core.spread()
}

// Hands an answer over.
fn hand_over(core: &mut Frontier, done: Done) -> Result<(), Refused>
    ensures one { MakesAtMostOne core.old core.new }
    ensures recorded { OnOk result (Records core.old done core.new) }
    ensures same { OnErr result (core.new ≡ core.old) }
    ensures back { IfErr result (λ refused. refused.done ≡ done) }
    ensures stray { IfErr result (λ refused. refused.fault ≡ AnswerFault.Stray) }
{
    match done {
        Done::Page(permit, outcome) => match core.answer(permit, outcome) {
            Ok(()) => Ok(()),
            Err(rejected) => {
                let Rejected {
                    permit,
                    outcome,
                    fault,
                } = rejected;
                Err(Refused {
                    done: Done::Page(permit, outcome),
                    fault,
                })
            }
        },
        Done::Rules(permit, rules) => match core.robots_answer(permit, rules) {
            Ok(()) => Ok(()),
            Err(rejected) => {
                let RejectedRules {
                    permit,
                    rules,
                    fault,
                } = rejected;
                Err(Refused {
                    done: Done::Rules(permit, rules),
                    fault,
                })
            }
        },
    }
}

// Gives a permit up if there is one, and stops.
fn give_up(core: &mut Frontier, held: Option<HeldPermit>, cause: Cause)
    ensures one { MakesAtMostOne core.old core.new }
    ensures given { GivesPermitUp core.old held cause core.new }
{
    match held {
        None => core.stop(cause),
        Some(HeldPermit::Page(permit)) => core.abandon(permit, cause),
        Some(HeldPermit::Rules(permit)) => core.abandon_robots(permit, cause),
    }
}

// Offers the edges of one due address. If they are refused the frontier stops.
fn offer_or_stop(core: &mut Frontier)
    ensures { OffersOrStops core.old core.new }
{
    match core.spread() {
        Ok(()) => {}
        Err(SpreadFault::Full) => core.stop(Cause::Full),
        Err(SpreadFault::Memory) => core.stop(Cause::Memory),
    }
}

// Takes work for the worker. If there is no memory for it the frontier stops.
fn take_or_stop(core: &mut Frontier, worker: u32) -> Work
    ensures work { IsFor worker result }
    ensures takes { TakesOrStops core.old worker result core.new }
{
    match core.take(worker) {
        Ok(work) => work,
        Err(_) => {
            core.stop(Cause::Memory);
            Work::Stopped(Cause::Memory)
        }
    }
}

// Hands an answer over, offers the edges of one due address, and takes the worker's next work.
fn exchange(core: &mut Frontier, worker: u32, done: Done) -> Result<Work, Refused>
    ensures work { IfOk result (IsFor worker) }
    ensures steps { IfOk result (λ work. Exchanges core.old done worker work core.new) }
    ensures same { OnErr result (core.new ≡ core.old) }
    ensures back { IfErr result (λ refused. refused.done ≡ done) }
    ensures stray { IfErr result (λ refused. refused.fault ≡ AnswerFault.Stray) }
{
    hand_over(core, done)?;
    offer_or_stop(core);
    Ok(take_or_stop(core, worker))
}

// Exchanges an answer for work, and says whether all who sleep are to be woken. They went to sleep while the frontier
// was busy; as long as it is busy whenever the lock is released, they have nothing to do. So an exchange wakes them
// if it finds it busy and leaves it otherwise: with work, quiet or stopped. So does each other call that can end a wait.
fn exchange_waking(core: &mut Frontier, worker: u32, done: Done) -> (Result<Work, Refused>, bool)
    ensures work { IfOk result.0 (IsFor worker) }
    ensures steps { IfOk result.0 (λ work. Exchanges core.old done worker work core.new) }
    ensures same { OnErr result.0 (core.new ≡ core.old) }
    ensures back { IfErr result.0 (λ refused. refused.done ≡ done) }
    ensures stray { IfErr result.0 (λ refused. refused.fault ≡ AnswerFault.Stray) }

    ensures woken { IsSleptAt core.old → result.1 ≡ false → IsSleptAt core.new }
    ensures exact { IsTrue result.1 ↔ (IsSleptAt core.old × ¬ IsSleptAt core.new) }
{
    let was_busy = core.is_busy();
    let answer = exchange(core, worker, done);
    (answer, was_busy && !core.is_busy())
}

// Has the edges of a page's outcome share the texts of held addresses, and exchanges a copy of it, like `exchange_waking`.
// The copy comes after that, since a list with one owner alone can be written to.
fn answer_waking(
    core: &mut Frontier,
    worker: u32,
    permit: Permit,
    outcome: &mut Outcome,
) -> (Result<Work, Unanswered>, bool)
    ensures outcome { outcome.new ≡ outcome.old }
    ensures work { IfOk result.0 (IsFor worker) }
    ensures steps { IfOk result.0 (λ work. Exchanges core.old (Done.Page permit outcome.old) worker work core.new) }
    ensures same { OnErr result.0 (core.new ≡ core.old) }
    ensures back { IfErr result.0 (λ unanswered. unanswered.permit ≡ permit) }

    ensures woken { IsSleptAt core.old → result.1 ≡ false → IsSleptAt core.new }
    ensures exact { IsTrue result.1 ↔ (IsSleptAt core.old × ¬ IsSleptAt core.new) }
{
    core.share_texts(outcome);
    let Ok(copy) = outcome.try_clone() else {
        let fault = AnswerFault::Memory;
        return (Err(Unanswered { permit, fault }), false);
    };
    let (answer, wakes) = exchange_waking(core, worker, Done::Page(permit, copy));
    match answer {
        Ok(work) => (Ok(work), wakes),
        Err(Refused { done, fault }) => match done {
            Done::Page(permit, _copy) => (Err(Unanswered { permit, fault }), wakes),
            Done::Rules(_permit, _rules) => unreachable!(),
        },
    }
}

// Whether the step that the frontier made, when it had so many lines, is one that can end a wait.
fn can_end_waits(core: &Frontier, lines: usize) -> bool
    ensures { (old : Traced) (action : Action) → length old.trace ≡ lines → Makes old action core.now → result ≡ ends_waits action }
{
    matches!(
        core.trace().get(lines),
        Some(
            Event::Answer(_, _)
                | Event::Ruled(_, _)
                | Event::Abandon(_, _)
                | Event::AbandonRules(_, _)
                | Event::Stop(_)
        )
    )
}

// Makes a step of the frontier, and says whether all who sleep are to be woken: if it is one that can end a wait. If
// somebody may be asleep and it says no, nothing changed.
fn make<A, T, S: FnOnce(&mut Frontier, A) -> T>(core: &mut Frontier, step: S, input: A) -> (T, bool)
    requires call { S.IsAlwaysCallable step }
    requires one { IsOneStep S.FnOnce step input }
    ensures made { IsMadeBy S.FnOnce step input core.old result.0 core.new }
    ensures exact { (action : Action) → Makes core.old action core.new → result.1 ≡ ends_waits action }
    ensures woken { IsSleptAt core.old → result.1 ≡ false → core.new ≡ core.old }
{
    let lines = core.trace().len();
    let answer = step(core, input);
    let wakes = can_end_waits(core, lines);
    (answer, wakes)
}

impl<'a, O: Observer> FrontierLock<'a, O> {
    /// Shares a frontier. Each call reports to the observer how many addresses wait after it, counted like `Frontier::waiting`, with
    /// the lock held, so that the last number is the newest. Takes no memory.
    pub fn new(core: Frontier, observer: &'a O) -> Self {
        FrontierLock {
            core: Mutex::new(core),
            work_available: Condvar::new(),
            observer,
        }
    }

    /// What the worker is to do now, by `Frontier::take`. A permit is for this worker.
    pub fn next<R: Wait>(&self, rt: &R, worker: u32) -> Result<Work, AllocError>
        ensures { IfOk result (IsFor worker) }
    {
        self.step(rt, |core, worker| take(core, worker), worker)
    }

    /// Like [`FrontierLock::next`], but if others are at work it sleeps until one of them made a step that can end its
    /// wait, so it never returns Busy. It goes to sleep under the same lock under which it had to wait.
    pub fn next_or_wait<R: Wait>(&self, rt: &R, worker: u32) -> Result<Work, AllocError>
        ensures work { IfOk result (IsFor worker) }
        ensures waits { result ≢ Ok Work.Busy }
    {
        let mut core = self.core.lock(rt);
        for _ in rt.forever() {
            match take(&mut core, worker) {
                Ok(Work::Busy) => core = self.work_available.wait(rt, core),
                other => {
                    self.report_waiting(&core);
                    return other;
                }
            }
        }
        unreachable!()
    }

    /// Offers the edges of one due address, like `Frontier::spread`.
    pub fn spread<R: Wait>(&self, rt: &R) -> Result<(), SpreadFault> {
        self.step(rt, |core, ()| offer(core), ())
    }

    /// Hands an answer over, like `Frontier::answer` and `Frontier::robots_answer`. If it isn't taken, that is, if the
    /// permit is stray, the permit and the answer are handed back.
    pub fn give<R: Wait>(&self, rt: &R, done: Done) -> Result<(), Refused>
        ensures back { IfErr result (λ refused. refused.done ≡ done) }
        ensures stray { IfErr result (λ refused. refused.fault ≡ AnswerFault.Stray) }
    {
        self.step(rt, |core, done| hand_over(core, done), done)
    }

    /// Hands an answer over, like [`FrontierLock::give`], offers the edges of one due address, and takes what the worker is
    /// to do next, like [`FrontierLock::next`], all under one lock. If the edges are refused, or there is no memory, the
    /// frontier stops for that cause, and the answer is Stopped. If the permit is stray nothing else happens.
    pub fn give_and_take<R: Wait>(&self, rt: &R, worker: u32, done: Done) -> Result<Work, Refused>
        ensures work { IfOk result (IsFor worker) }
        ensures back { IfErr result (λ refused. refused.done ≡ done) }
        ensures stray { IfErr result (λ refused. refused.fault ≡ AnswerFault.Stray) }
    {
        let (answer, wakes) = {
            let mut core = self.core.lock(rt);
            let made = exchange_waking(&mut core, worker, done);
            self.report_waiting(&core);
            made
        };
        if wakes {
            self.work_available.notify_all();
        }
        answer
    }

    /// Hands a copy of a page's outcome over, like [`FrontierLock::give_and_take`], all under one lock. Before that the edges
    /// share the texts of the addresses that are held, like `Frontier::share_texts`; the outcome stays equal. If the permit is
    /// stray, or there are 2^63 copies, nothing else happens.
    pub fn answer_and_take<R: Wait>(
        &self,
        rt: &R,
        worker: u32,
        permit: Permit,
        outcome: &mut Outcome,
    ) -> Result<Work, Unanswered>
        ensures outcome { outcome.new ≡ outcome.old }
        ensures work { IfOk result (IsFor worker) }
        ensures back { IfErr result (λ unanswered. unanswered.permit ≡ permit) }
    {
        let (answer, wakes) = {
            let mut core = self.core.lock(rt);
            let made = answer_waking(&mut core, worker, permit, outcome);
            self.report_waiting(&core);
            made
        };
        if wakes {
            self.work_available.notify_all();
        }
        answer
    }

    /// Gives up the permit if there is one, like `Frontier::abandon` and `Frontier::abandon_robots`, and stops the
    /// frontier if nothing stopped it yet. Takes no memory.
    pub fn halt<R: Wait>(&self, rt: &R, held: Option<HeldPermit>, cause: Cause) {
        self.step(
            rt,
            |core, (held, cause)| give_up(core, held, cause),
            (held, cause),
        )
    }

    // Makes one locked step, reports how many addresses wait, and wakes all who sleep, with the lock free again, if it says so.
    // Whom this wakes no clause can say.
    fn step<R: Wait, A, T, S: FnOnce(&mut Frontier, A) -> T>(&self, rt: &R, step: S, input: A) -> T
        requires call { S.IsAlwaysCallable step }
        requires one { IsOneStep S.FnOnce step input }
        ensures { (old : Traced) × (new : Traced) × IsMadeBy S.FnOnce step input old result new }
    {
        let (answer, wakes) = {
            let mut core = self.core.lock(rt);
            let made = make(&mut core, step, input);
            self.report_waiting(&core);
            made
        };
        if wakes {
            self.work_available.notify_all();
        }
        answer
    }

    // Reports to the observer how many addresses wait.
    fn report_waiting(&self, core: &Frontier) {
        self.observer.waiting(core.waiting());
    }

    /// The frontier again. Takes no memory.
    pub fn into_frontier(self) -> Frontier {
        let FrontierLock {
            core,
            work_available: _,
            observer: _,
        } = self;
        core.into_inner()
    }
}
