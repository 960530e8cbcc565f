//! Pages that are kept: an address with the body of its response.
ghost use Rattle.std.specs.Prelude.{◌≡◌};
ghost use Rattle.harvest.specs.Pages.{is_success};

use address::Address;
use fetcher::{Outcome, is_successful};

/// A page that is kept: its address, and the body of its response.
#[derive(Drop)]
pub struct KeptPage<B> {
    /// The address that was requested.
    pub address: Address,
    /// The body of its response, as its fetcher keeps bodies.
    pub body: B,
}

/// Whether the outcome is a response of success (RFC 9110, section 15.3).
pub fn is_success(outcome: &Outcome) -> bool
    ensures { result ≡ is_success outcome.now }
{
    match outcome {
        Outcome::Page(status, _) | Outcome::Moved(status, _) | Outcome::Leaf(status) => {
            is_successful(*status)
        }
        Outcome::Fault(_) => false,
    }
}
