//! When a request is made again.
ghost use Rattle.std.specs.Prelude.{◌≡◌, IfOk};
ghost use Rattle.pacing.specs.Retries.{retries_by};

use std::alloc::AllocError;
use std::time::Duration;

/// When a request is made again, and how often.
#[derive(Drop)]
pub struct Retries {
    /// How often a request is made again at most.
    pub most: u32,
    /// The longest pause before it.
    pub wait: Duration,
    /// Whether it is made again after a server refused the connection, or no way led there.
    pub refused: bool,
    /// Whether it is made again after the host had no address.
    pub unknown: bool,
    /// The statuses after which it is made again, besides those that demand it.
    pub statuses: Vec<u16>,
}

impl Retries {
    /// The same. The error is that memory ran out.
    pub fn try_clone(&self) -> Result<Retries, AllocError>
        ensures { IfOk result (λ copy. retries_by copy ≡ retries_by self.now) }
    {
        Ok(Retries {
            most: self.most,
            wait: self.wait,
            refused: self.refused,
            unknown: self.unknown,
            statuses: self.statuses.clone()?,
        })
    }
}
