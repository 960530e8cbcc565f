//! Answers and faults that are worth another try (GNU Wget manual, option `--tries`; RFC 9110, section 10.2.3).
ghost use Rattle.std.specs.Prelude.{◌≡◌};
ghost use Rattle.pacing.specs.Retries.{retries_by};
ghost use Rattle.retries.specs.Worth.{is_worth, is_worth_fault, is_worth_hops, is_worth_loss, is_worth_outcome, is_worth_status};

use answer_notes::{Hops, Received};
use fetcher::{FaultKind, Outcome};
use pacing::Retries;
use run_failures::LossKind;

/// Too many requests (RFC 6585, section 4).
const TOO_MANY_REQUESTS: u16 = 429;

/// The server serves nobody now (RFC 9110, section 15.6.4).
const SERVICE_UNAVAILABLE: u16 = 503;

/// The server behind a gateway was late (RFC 9110, section 15.6.5).
const GATEWAY_TIMEOUT: u16 = 504;

// Whether an answer of this status is worth another try.
fn is_worth_status(retries: &Retries, status: u16) -> bool
    ensures { result ≡ is_worth_status (retries_by retries.now) status }
{
    status == TOO_MANY_REQUESTS
        || status == SERVICE_UNAVAILABLE
        || status == GATEWAY_TIMEOUT
        || retries.statuses.contains(&status)
}

// Whether a connection that wasn't made is worth another try.
fn is_worth_loss(retries: &Retries, loss: Option<LossKind>) -> bool
    ensures { result ≡ is_worth_loss (retries_by retries.now) loss }
{
    match loss {
        Some(LossKind::TimedOut | LossKind::Broken | LossKind::Other) => true,
        Some(LossKind::Refused | LossKind::Unreachable) => retries.refused,
        Some(LossKind::Unknown | LossKind::Resolver) => retries.refused || retries.unknown,
        Some(LossKind::Descriptor | LossKind::Port) | None => false,
    }
}

// Whether a fault is worth another try.
fn is_worth_fault(retries: &Retries, kind: FaultKind, loss: Option<LossKind>) -> bool
    ensures { result ≡ is_worth_fault (retries_by retries.now) kind loss }
{
    match kind {
        FaultKind::Connect => is_worth_loss(retries, loss),
        FaultKind::Device | FaultKind::Ended => true,
        FaultKind::Head
        | FaultKind::HeadLong
        | FaultKind::Length
        | FaultKind::Coding
        | FaultKind::Chunk
        | FaultKind::BodyLong => false,
    }
}

// Whether what was received is worth another try, if this was the connection's loss.
pub(crate) fn is_worth(retries: &Retries, received: &Received, loss: Option<LossKind>) -> bool
    ensures { result ≡ is_worth (retries_by retries.now) received.now loss }
{
    match received {
        Received::Whole(given) => is_worth_status(retries, given.response().status),
        Received::Fault(kind) => is_worth_fault(retries, *kind, loss),
    }
}

// The same of an origin's robots file: the last of its hops counts.
pub(crate) fn is_worth_hops(retries: &Retries, hops: &Hops, loss: Option<LossKind>) -> bool
    ensures { result ≡ is_worth_hops (retries_by retries.now) hops.now.hops loss }
{
    match hops.hops() {
        [.., (_, received)] => is_worth(retries, received, loss),
        [] => false,
    }
}

// The same by what became of an address.
pub(crate) fn is_worth_outcome(retries: &Retries, outcome: &Outcome, loss: Option<LossKind>) -> bool
    ensures { result ≡ is_worth_outcome (retries_by retries.now) outcome.now loss }
{
    match outcome {
        Outcome::Page(status, _) | Outcome::Moved(status, _) | Outcome::Leaf(status) => {
            is_worth_status(retries, *status)
        }
        Outcome::Fault(kind) => is_worth_fault(retries, *kind, loss),
    }
}
