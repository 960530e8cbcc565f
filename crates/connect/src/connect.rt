//! What makes connections to origins.
ghost use Rattle.std.specs.Prelude.{◌≡◌, ℕ, List, IfOk, IfSome, MatchOption};
ghost use Rattle.std.specs.Io.KnownBytes.{IsAtEnd};
ghost use Rattle.response_reader.specs.Wire.{CountsFault, counted};
ghost use Rattle.connect.specs.Connects.{CountsRefusal, Stays, StaysWith};

use address::Origin;
use response_reader::Wire;
use std::alloc::AllocError;
use thiserror::Error;

/// Why no connection was made.
#[derive(Clone, Copy, Debug, PartialEq, Eq, Error)]
pub enum ConnectFault {
    /// The origin's host has no address, or nobody there took the connection.
    #[error("no connection was made")]
    Failed,
    /// Memory ran out.
    #[error("out of memory")]
    Memory,
}

impl From<AllocError> for ConnectFault {
    fn from(_e: AllocError) -> ConnectFault {
        ConnectFault::Memory
    }
}

/// Makes connections, a new one at each call, and may keep those that serve again.
///
/// A connection is given back only after a response that leaves it usable (RFC 9112, section 9.3), and
/// what is kept is given to one taker, for the origin that it was made for.
pub trait Connect: Drop {
    /// A connection.
    type Wire: Wire + Drop;

    // How many connections were requested.
    ghost made: { Self → ℕ };

    // How many calls answered an error.
    ghost failed: { Self → ℕ };

    // How many calls answered `Failed`.
    ghost refused: { Self → ℕ };

    // The wires that a call may give for an origin.
    ghost gives: { Self → List ℕ → Self.Wire → Type 0 };

    // How many connections that were kept were taken again.
    ghost taken: { Self → ℕ };

    // The wires that a call may give again for an origin.
    ghost stands: { Self → List ℕ → Self.Wire → Type 0 };

    // The second wire is the first one's connection, idle since it was given back.
    ghost again: { Self.Wire → Self.Wire → Type 0 };

    /// A new connection to an origin.
    fn connect(&mut self, of: &Origin) -> Result<Self::Wire, ConnectFault>
        ensures given { IfOk result (λ wire. gives self.old of.now wire) }
        ensures made { made self.new ≡ counted (made self.old) 1 }
        ensures counted { CountsFault (failed self.old) (failed self.new) result }
        ensures refused { CountsRefusal (refused self.old) (refused self.new) result }
        ensures taken { taken self.new ≡ taken self.old }
        ensures stands { Stays (stands self.old) (stands self.new) };

    /// A connection to an origin that was kept, if there is one, over which nothing came since. It is
    /// kept no longer.
    fn take(&mut self, _of: &Origin) -> Option<Self::Wire>
        ensures given { IfSome result (λ wire. stands self.old _of.now wire) }
        ensures quiet { IfSome result (λ wire. IsAtEnd (Self.Wire.incoming wire)) }
        ensures made { made self.new ≡ made self.old }
        ensures failed { failed self.new ≡ failed self.old }
        ensures refused { refused self.new ≡ refused self.old }
        ensures taken { MatchOption result (taken self.new ≡ taken self.old) (λ _. taken self.new ≡ counted (taken self.old) 1) }
        ensures stands { Stays (stands self.old) (stands self.new) }
        ensures gives { Stays (gives self.old) (gives self.new) }
    {
        None
    }

    /// Keeps a connection to an origin, after a response that leaves it usable, or ends it.
    fn give_back(&mut self, _of: &Origin, wire: Self::Wire)
        ensures made { made self.new ≡ made self.old }
        ensures failed { failed self.new ≡ failed self.old }
        ensures refused { refused self.new ≡ refused self.old }
        ensures taken { taken self.new ≡ taken self.old }
        ensures stands { StaysWith (stands self.old) (stands self.new) _of.now (again wire) }
    {
        self.close(wire);
    }

    /// Ends a connection that isn't to be used again.
    fn close(&mut self, wire: Self::Wire)
        ensures made { made self.new ≡ made self.old }
        ensures failed { failed self.new ≡ failed self.old }
        ensures refused { refused self.new ≡ refused self.old }
        ensures taken { taken self.new ≡ taken self.old }
        ensures stands { Stays (stands self.old) (stands self.new) }
        ensures gives { Stays (gives self.old) (gives self.new) }
    {}

    /// How many calls answered an error; at the largest number it stays.
    fn failures(&self) -> u64
        ensures { result ≡ failed self.now };
}
