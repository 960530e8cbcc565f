//! Kinds of lost connections.
ghost use Rattle.std.specs.Prelude.{◌≡◌};
ghost use Rattle.run_failures.specs.Losses.{is_kind, words_of};

/// Why a connection was lost.
#[derive(Clone, Copy, Debug, PartialEq, Eq)]
pub enum LossKind {
    /// The server refused it.
    Refused,
    /// The host has no address.
    Unknown,
    /// The server didn't answer within the system's time limit.
    TimedOut,
    /// No way leads to the host.
    Unreachable,
    /// The resolver had no answer.
    Resolver,
    /// The system had no descriptor, or no buffer.
    Descriptor,
    /// This machine had no port or no address for it.
    Port,
    /// It broke after it was made.
    Broken,
    /// Anything else.
    Other,
}

/// Each kind, in the order in which they are reported to a person.
pub const KINDS: [LossKind; 9] = [
    LossKind::Refused,
    LossKind::Unknown,
    LossKind::TimedOut,
    LossKind::Unreachable,
    LossKind::Resolver,
    LossKind::Descriptor,
    LossKind::Port,
    LossKind::Broken,
    LossKind::Other,
];

impl LossKind {
    // The words after `connection` or `connections`.
    pub(crate) fn words(self) -> &'static str
        ensures { result.now ≡ words_of self }
    {
        match self {
            LossKind::Refused => "refused",
            LossKind::Unknown => "to an unknown host",
            LossKind::TimedOut => "timed out",
            LossKind::Unreachable => "to an unreachable host",
            LossKind::Resolver => "without an answer of the resolver",
            LossKind::Descriptor => "without a descriptor left",
            LossKind::Port => "without a local port left",
            LossKind::Broken => "broken",
            LossKind::Other => "failed",
        }
    }

    // Whether it is this kind.
    pub(crate) fn is(self, other: LossKind) -> bool
        ensures { result ≡ is_kind self other }
    {
        self as u8 == other as u8
    }
}
