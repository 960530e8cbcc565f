//! What is noted of an ask, so that it can be answered again.
use crate::hops::Hops;
use crate::received::Received;
use address::Address;

/// What was received when a page, or an origin's robots rules, were requested.
#[derive(Drop)]
pub enum Noted {
    /// What was received for this address.
    Page(Address, Received),
    /// What was received for an origin's robots file and for the redirects after it.
    Chain(Hops),
}
