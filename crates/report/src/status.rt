//! The exit status of a retrieval (GNU Wget manual, Exit Status).
ghost use Rattle.std.specs.Prelude.{◌≡◌, map};
ghost use Rattle.fetcher.specs.FaultWords.{class_of};
ghost use Rattle.report.specs.ExitStatus.{is_network, is_network_fault, exit_status};

use crate::text::is_failed;
use fetcher::{FaultClass, FaultKind, Outcome};
use harvest::Harvest;

// Whether it is the network's fault.
fn is_loss(kind: FaultKind) -> bool
    ensures { result ≡ is_network (class_of kind) }
{
    kind.class() == FaultClass::Network
}

// Whether the network failed.
fn is_network_fault(outcome: &Outcome) -> bool
    ensures { result ≡ is_network_fault outcome.now }
{
    match outcome {
        Outcome::Fault(kind) => is_loss(*kind),
        Outcome::Page(_, _) | Outcome::Moved(_, _) | Outcome::Leaf(_) => false,
    }
}

/// The exit status of a harvest: 4 if the network failed for an address, else 7 if there was
/// another fault, else 8 if a status was 400 or more, else 0. Robots files don't count. Takes no
/// memory.
pub fn exit_status<B: Drop>(harvest: &Harvest<B>) -> u8
    ensures { result ≡ exit_status (map (λ recorded. recorded.1) harvest.now.records) }
{
    let records = harvest.records();
    if records.iter().any(|(_, outcome)| is_network_fault(outcome)) {
        4
    } else if records.iter().any(|(_, outcome)| outcome.is_fault()) {
        7
    } else if records.iter().any(|(_, outcome)| is_failed(outcome)) {
        8
    } else {
        0
    }
}
