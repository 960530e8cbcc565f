//! The quota of an order, which counts the bytes of kept bodies.
ghost use Rattle.std.specs.Prelude.{◌≡◌};

use frontier_core::Cause;
use live_system::System;
use local_tree::HasKind;
use options::Order;
use workers::{Halt, Harvest, Quota};

/// So many bytes, if there is a limit.
#[derive(Clone, Copy)]
pub(crate) struct ByLength {
    pub(crate) most: Option<u64>,
}

impl ByLength {
    /// That of an order.
    pub(crate) fn of(order: &Order) -> ByLength
        ensures { result.most ≡ order.now.quota }
    {
        ByLength { most: order.quota }
    }
}

impl<B: HasKind> Quota<B> for ByLength {
    ghost most = { λ quota. quota.most };

    ghost len_of = { B.len_of };

    fn most(&self) -> Option<u64> {
        self.most
    }

    fn len_of(&self, body: &B) -> u64 {
        body.len_of()
    }
}

/// Reports to a person if the quota ended a retrieval.
pub(crate) fn report_quota<S: System, B: Drop>(
    system: &S,
    retrieved: &Result<Harvest<B>, Halt<B>>,
) {
    let Err(halt) = retrieved else {
        return;
    };
    if halt.cause == Cause::Quota {
        system.report("stopped quota\n");
    }
}
