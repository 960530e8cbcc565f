//! Links that are rejected.
use crate::reason::Reason;
use address::Address;

/// A link that is rejected. Links are in the order of their lines.
#[derive(Clone, Copy, PartialEq, Eq, PartialOrd, Ord)]
pub(crate) struct RejectedLink<'a> {
    /// Why.
    pub reason: Reason,
    /// Where it leads.
    pub target: &'a Address,
    /// The page that has it.
    pub page: &'a Address,
}
