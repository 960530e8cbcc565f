//! What is concluded from the notes of all workers and the frontier that they left.
ghost use Rattle.std.specs.Prelude.{◌≡◌, ◌≢◌, ◌⊎◌, ◌↔◌, ◌++◌, ◌∷◌, [], ℕ, List, All, Contains, IfOk, IfErr, OnOk, map};
ghost use Rattle.std.specs.List.{filter_map, sum_by};
ghost use Rattle.frontier_core.specs.Machine.{answers, IsQuiet};
ghost use Rattle.frontier_core.specs.Invariants.{IsComplete, IsOverfull};
ghost use Rattle.frontier_core.specs.Plans.{policy};
ghost use Rattle.frontier_core.specs.Routes.{HasTooMany};
ghost use Rattle.frontier_core.specs.Tables.{IsOnce};
ghost use Rattle.workers.specs.Quotas.{IsPassed, KeepsTo, page_len};
ghost use Rattle.workers.specs.inner.Concluded.{HasBody, IsConcluded, IsBorneOut, IsBare, IsBelied, IsMiscounted, IsUnexplained};
ghost use Rattle.workers.specs.OneWorker.{AreByCrew};
ghost use Rattle.workers.specs.inner.Takers.{AreNotedBy};
ghost use Rattle.workers.specs.inner.Noted.{page_of};

use crate::comparison::agree;
use crate::crew_trace::{are_by_crew, are_taken_by};
use crate::followed::are_followed;
use crate::note::{Notes, PageNote};
use crate::quota::{Quota, are_passed};
use crate::retrieval::{Halt, finish};
use follow_filters::Plan;
use frontier_core::{Cause, Frontier};
use harvest::{Harvest, KeptPage};
use std::alloc::{AllocError, Global};

// How a frontier was left: quiet, or stopped for a cause that is borne out; Mismatch otherwise.
fn end_of(frontier: &Frontier) -> Result<(), Cause>
    ensures quiet { OnOk result (IsQuiet frontier.now.state × IsComplete (policy frontier.now.plan) frontier.now.state) }
    ensures stopped { IfErr result (λ cause. cause ≢ Cause.Mismatch → frontier.now.state.cause ≡ Some cause) }
    ensures full { result ≡ Err Cause.Full → HasTooMany (policy frontier.now.plan) (answers frontier.now.state) × IsOverfull (policy frontier.now.plan) frontier.now.state }
    ensures memory { result ≡ Err Cause.Memory ↔ frontier.now.state.cause ≡ Some Cause.Memory }
    ensures mismatch { result ≡ Err Cause.Mismatch ↔ IsUnexplained frontier.now }
{
    if frontier.is_quiet() {
        return Ok(());
    }
    match frontier.cause() {
        Some(Cause::Full) => {
            if frontier.is_overfull() {
                return Err(Cause::Full);
            }
            Err(Cause::Mismatch)
        }
        Some(Cause::Memory) => Err(Cause::Memory),
        Some(Cause::Mismatch) => Err(Cause::Mismatch),
        Some(Cause::Quota) => Err(Cause::Quota),
        None => Err(Cause::Mismatch),
    }
}

// How a frontier was left with these pages: as `end_of` says, if they have more bytes than the quota exactly if it stopped for
// that; else Mismatch.
fn end_with<B, Q: Quota<B>>(
    frontier: &Frontier,
    quota: &Q,
    pages: &[KeptPage<B>],
) -> Result<(), Cause>
    ensures quiet { OnOk result (IsQuiet frontier.now.state × IsComplete (policy frontier.now.plan) frontier.now.state) }
    ensures stopped { IfErr result (λ cause. cause ≢ Cause.Mismatch → frontier.now.state.cause ≡ Some cause) }
    ensures full { result ≡ Err Cause.Full → HasTooMany (policy frontier.now.plan) (answers frontier.now.state) × IsOverfull (policy frontier.now.plan) frontier.now.state }
    ensures within { OnOk result (¬ IsPassed (Q.most quota.now) (sum_by (page_len Q.len_of) pages.now)) }
    ensures beyond { result ≡ Err Cause.Quota → IsPassed (Q.most quota.now) (sum_by (page_len Q.len_of) pages.now) }
    ensures mismatch { result ≡ Err Cause.Mismatch → IsUnexplained frontier.now ⊎ IsMiscounted (Q.most quota.now) frontier.now (sum_by (page_len Q.len_of) pages.now) }
{
    let ended = end_of(frontier);
    match ended {
        Ok(()) => {
            if are_passed(quota, pages) {
                return Err(Cause::Mismatch);
            }
            Ok(())
        }
        Err(Cause::Quota) => {
            if are_passed(quota, pages) {
                return Err(Cause::Quota);
            }
            Err(Cause::Mismatch)
        }
        Err(cause) => Err(cause),
    }
}

// Keeps the page of a note, if it has a body.
fn keep_page<B: Drop>(pages: &mut Vec<KeptPage<B>>, note: PageNote<B>) -> Result<(), AllocError>
    ensures { OnOk result (pages.new.items ≡ pages.old.items ++ filter_map page_of (note ∷ [])) }
{
    let PageNote {
        worker: _,
        address,
        outcome: _,
        body,
    } = note;
    if let Some(body) = body {
        pages.push(KeptPage { address, body })?;
    }
    Ok(())
}

// The pages that are kept of notes.
fn keep_pages<B: Drop>(
    alloc: Global,
    notes: Vec<PageNote<B>>,
) -> Result<Vec<KeptPage<B>>, AllocError>
    ensures { IfOk result (λ pages. pages.items ≡ filter_map page_of notes.items) }
{
    let mut pages = Vec::new(alloc);
    for note in notes {
        keep_page(&mut pages, note)?;
    }
    Ok(pages)
}

// The pages that are kept of notes, which are compared with the plan, with the workers that the trace names, and with the
// frontier's table.
fn kept_pages<B: Drop>(
    alloc: Global,
    plan: &Plan,
    workers: usize,
    frontier: &Frontier,
    mut notes: Notes<B>,
) -> Result<Vec<KeptPage<B>>, Halt<B>>
    ensures ok { IfOk result (λ pages. IsBorneOut plan.now frontier.now notes.pages.items notes.rules.items pages.items) }
    ensures err { IfErr result (λ halt. halt.cause ≢ Cause.Mismatch → IsBare notes.pages.items notes.rules.items halt.cause halt.harvest) }
    ensures full { IfErr result (λ halt. halt.cause ≢ Cause.Full) }
    ensures numbered { OnOk result (AreByCrew workers frontier.now.trace) }
    ensures own { OnOk result (AreNotedBy notes.pages.items notes.rules.items frontier.now.trace) }
    ensures mismatch { IfErr result (λ halt. halt.cause ≡ Cause.Mismatch → IsBelied plan.now workers frontier.now notes.pages.items notes.rules.items) }
{
    if !frontier.plan().same(plan) {
        return Err(Halt::mismatch(alloc));
    }
    if !are_by_crew(frontier.trace(), workers) {
        return Err(Halt::mismatch(alloc));
    }
    // Before the notes are put in order.
    let is_followed = are_followed(frontier.trace(), &notes);
    if !agree(frontier, &mut notes) {
        return Err(Halt::mismatch(alloc));
    }
    if !are_taken_by(is_followed, frontier.trace(), &notes) {
        return Err(Halt::mismatch(alloc));
    }
    let Notes { pages, rules: _ } = notes;
    match keep_pages(alloc, pages) {
        Ok(pages) => Ok(pages),
        Err(AllocError) => Err(Halt::empty(alloc)),
    }
}

/// What a crew of so many workers retrieved, at its end or until it stopped, by its notes and its frontier.
pub fn conclude<B: Drop, Q: Quota<B>>(
    alloc: Global,
    plan: &Plan,
    quota: &Q,
    workers: usize,
    frontier: Frontier,
    notes: Notes<B>,
) -> Result<Harvest<B>, Halt<B>>
    requires { All (HasBody plan.now) notes.pages.items }
    ensures ok { IfOk result (λ h. IsConcluded plan.now frontier notes.pages.items notes.rules.items h × IsQuiet frontier.state × IsComplete (policy frontier.plan) frontier.state) }
    ensures err { IfErr result (λ halt. halt.cause ≢ Cause.Mismatch → IsBare notes.pages.items notes.rules.items halt.cause halt.harvest
        ⊎ (IsConcluded plan.now frontier notes.pages.items notes.rules.items halt.harvest × (frontier.state.cause ≡ Some halt.cause))) }
    ensures full { IfErr result (λ halt. halt.cause ≡ Cause.Full → HasTooMany (policy frontier.plan) (answers frontier.state) × IsOverfull (policy frontier.plan) frontier.state) }
    ensures numbered { IfOk result (λ h. AreByCrew workers h.trace) × IfErr result (λ halt. halt.cause ≢ Cause.Mismatch → AreByCrew workers halt.harvest.trace) }
    ensures own { IfOk result (λ h. AreNotedBy notes.pages.items notes.rules.items h.trace)
        × IfErr result (λ halt. halt.cause ≢ Cause.Mismatch → AreNotedBy notes.pages.items notes.rules.items halt.harvest.trace) }
    ensures quota { KeepsTo (Q.most quota.now) Q.len_of result }
    ensures mismatch { IfErr result (λ halt. halt.cause ≡ Cause.Mismatch → IsBelied plan.now workers frontier notes.pages.items notes.rules.items
        ⊎ (IsUnexplained frontier ⊎ IsMiscounted (Q.most quota.now) frontier (sum_by Q.len_of halt.harvest.bodies))) }
{
    match kept_pages(alloc, plan, workers, &frontier, notes) {
        Ok(pages) => {
            let ended = end_with(&frontier, quota, &pages);
            finish(alloc, frontier, pages, ended)
        }
        Err(halt) => {
            // By a call, since what an exit drops is proved anew at each exit.
            drop(frontier);
            Err(halt)
        }
    }
}
