//! The log of the links that filters reject, which is handed over at the end of a run.
ghost use Rattle.std.specs.Prelude.{◌≡◌, None, IfOk, string_bytes};
ghost use Rattle.retriever.specs.Rejecting.{IfLog, IsLogOfEnd, IsLogRead, TakesLog, TakesMade};

use live_system::RejectedLog;
use options::Order;
use rejected_links::rejected_log;
use std::alloc::{AllocError, Global};
use workers::{Halt, Harvest};

// The log of a harvest.
fn log_of_harvest<B: Drop>(alloc: Global, harvest: &Harvest<B>) -> Result<String, AllocError>
    ensures { IfOk result (λ text. IsLogRead harvest.now (string_bytes text)) }
{
    // Named by the contract alone: what they are.
    let _entries = harvest.entries();
    let _records = harvest.records();
    rejected_log(alloc, harvest)
}

/// The log of what was retrieved, if the order names a file for it. A retrieval that stopped has none, nor has one that its quota ended:
/// which pages it has depends on time.
pub(crate) fn log_of<B: Drop>(
    alloc: Global,
    order: &Order,
    retrieved: &Result<Harvest<B>, Halt<B>>,
) -> Option<Result<String, AllocError>>
    ensures log { IfLog (IsLogOfEnd retrieved.now) result }
    ensures unordered { order.now.rejected_log ≡ None → result ≡ None }
{
    let Ok(harvest) = retrieved else {
        return None;
    };
    if order.rejected_log.is_none() {
        return None;
    }
    Some(log_of_harvest(alloc, harvest))
}

// Hands a log over, or that there was no memory for it.
fn hand_made<L: RejectedLog>(made: Result<String, AllocError>, taker: &mut L)
    ensures { TakesMade made (L.contents taker.old) (L.contents taker.new) }
{
    match made {
        Ok(text) => taker.take(text.as_str()),
        Err(_) => taker.lose(),
    }
}

/// Hands a log over, or that there was no memory for it, if there is one.
pub(crate) fn hand_over<L: RejectedLog>(log: Option<Result<String, AllocError>>, taker: &mut L)
    ensures { TakesLog log (L.contents taker.old) (L.contents taker.new) }
{
    match log {
        Some(made) => hand_made(made, taker),
        None => {}
    }
}
