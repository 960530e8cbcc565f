//! Fetchers that know of their connections.
ghost use Rattle.std.specs.Prelude.{◌≡◌, Option};
ghost use Rattle.run_failures.specs.declared.loss_kind.LossKind.{LossKind};
ghost use Rattle.retries.specs.Keeping.{lost_of};

use address::Origin;
use answer_notes::Receiving;
use connect::Connect;
use http_fetcher::HttpFetcher;
use run_failures::LossKind;
use std::time::Duration;

/// Asks as any fetcher does, knows why a connection was lost and what time it is, and can leave an origin alone.
pub trait Calling: Receiving {
    // Why the last connection was lost, if it was.
    ghost lost: { Self → Option LossKind };

    /// Why the last connection was lost, if it was.
    fn loss(&self) -> Option<LossKind>
        ensures { result ≡ lost self.now };

    /// The seconds since 1970, if there is a clock that shows them.
    fn now(&self) -> Option<u64>;

    /// Has no request to an origin begin before this time is over. What was found out of its host's faults is forgotten.
    fn leave_alone(&self, of: &Origin, pause: Duration);
}

/// Makes connections as any does, knows why one was lost and what time it is, and can leave an origin alone.
pub trait CallingConnect: Connect {
    // Why the last connection was lost, if it was.
    ghost lost: { Self → Option LossKind };

    /// Why the last connection was lost, if it was.
    fn loss(&self) -> Option<LossKind>
        ensures { result ≡ lost self.now };

    /// The seconds since 1970, if there is a clock that shows them.
    fn now(&self) -> Option<u64>;

    /// Has no connection to an origin made before this time is over. What was found out of its host's faults is forgotten.
    fn leave_alone(&self, of: &Origin, pause: Duration);
}

impl<C: CallingConnect> Calling for HttpFetcher<C> {
    ghost lost = { lost_of C.lost };

    fn loss(&self) -> Option<LossKind> {
        self.connect().loss()
    }

    fn now(&self) -> Option<u64> {
        self.connect().now()
    }

    fn leave_alone(&self, of: &Origin, pause: Duration) {
        self.connect().leave_alone(of, pause);
    }
}
