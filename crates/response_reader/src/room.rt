//! Room for the bytes of one response at a time, kept from each to the next.
ghost use Rattle.std.specs.Prelude.{◌≡◌, [], IfOk};

use crate::incoming::Incoming;
use std::alloc::{AllocError, Global};

/// Room for the bytes of a response, 65,536 bytes once one was read. Whoever reads many keeps it from each to the next, so that it
/// is cleared once and not for each; what an earlier response left there is never seen. After a fault it is given back.
#[derive(Drop)]
pub struct Room {
    spare: Option<Incoming>,
}

impl Room {
    /// Room that takes memory when the first response is read.
    pub fn new() -> Room {
        Room { spare: None }
    }

    /// What takes the bytes of a response and has none yet. Fails only if memory runs out.
    pub(crate) fn take(&mut self, alloc: Global) -> Result<Incoming, AllocError>
        ensures none { IfOk result (λ s. s.unread ≡ []) }
        ensures uninterrupted { IfOk result (λ s. s.interrupted ≡ 0) }
    {
        match self.spare.take() {
            Some(mut incoming) => {
                incoming.clear();
                Ok(incoming)
            }
            None => Incoming::new(alloc),
        }
    }

    /// Keeps it for the next response.
    pub(crate) fn give_back(&mut self, incoming: Incoming) {
        self.spare = Some(incoming);
    }
}
