//! The maximum depth of a retrieval (GNU Wget manual, option `--level`).

/// The greatest limit on hops that is a number.
pub const MAX_LEVEL: u32 = 1_000_000;

/// How many hops an address may be away from the start.
#[derive(Clone, Copy, PartialEq, Eq, Debug)]
pub enum Limit {
    /// At most this many hops.
    AtMost(u32),
    /// Any number of hops.
    Unlimited,
}
