//! What one answer of a robots file says: a redirect to follow, or which rules these are (RFC 9309, section 2.3.1).
ghost use Rattle.std.specs.Prelude.{◌≡◌, IfOk};
ghost use Rattle.http_fetcher.specs.inner.Chains.{IsHopReceived};

use address::Address;
use answer_notes::Received;
use robots_rules::RuleSet;
use std::alloc::{AllocError, Global};

/// What one answer says of an origin's rules.
#[derive(Drop)]
pub(crate) enum Hop {
    /// The file is elsewhere: this address is to be asked.
    Next(Address),
    /// These are the rules.
    Last(RuleSet),
}

/// What the answer of an address says if this many redirects may still be followed. Fails only if memory runs out.
pub(crate) fn read_hop(
    alloc: Global,
    at: &Address,
    received: &Received,
    left: u32,
) -> Result<Hop, AllocError>
    ensures { IfOk result (λ hop. IsHopReceived at.now received.now left hop) }
{
    if left == 0 {
        return Ok(Hop::Last(received.rules(alloc)?));
    }
    match received.target(at)? {
        Some(next) => Ok(Hop::Next(next)),
        None => Ok(Hop::Last(received.rules(alloc)?)),
    }
}
