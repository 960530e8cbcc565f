//! When the next read may begin, so that a run reads no faster than it may.
ghost use Rattle.std.specs.Prelude.{◌≡◌, ◌≤◌, ◌<◌, ◌^◌};
ghost use Rattle.pacing.specs.Flows.{Flows, time_of};

use std::marker::Model;

/// The nanoseconds of a second.
const SECOND: u128 = 1_000_000_000;

/// When the bytes that were read have taken the time that they take at a rate, whoever read them. Times are nanoseconds since some
/// beginning, which is the same for all.
#[derive(Drop)]
pub struct Flow {
    taken: u64,
}

// Contracts see that time.
impl Model for Flow {
    ghost use Rattle.std.specs.Prelude.{ℕ};

    ghost Value = { ℕ };

    ghost view = { λ f. f.taken };
}

// The nanoseconds that so many bytes take at so many bytes a second.
fn time_of(rate: u64, bytes: u64) -> u128
    requires { 0 < rate }
    ensures value { result ≡ time_of rate bytes }
    ensures few { result ≤ 2 ^ 100 }
{
    (u128::from(bytes) * SECOND + u128::from(rate - 1)) / u128::from(rate)
}

impl Flow {
    /// Nothing was read.
    pub fn new() -> Flow
        ensures { result ≡ 0 }
    {
        Flow { taken: 0 }
    }

    /// When the next read may begin after so many bytes were read by now, at a rate of so many bytes a second: once these bytes have taken
    /// the time that they take at this rate, after all that were booked before.
    pub fn book(&mut self, rate: u64, bytes: u64, now: u64) -> u64
        requires { 0 < rate }
        ensures { Flows rate bytes now result self.old self.new }
    {
        let from = now.max(self.taken);
        let taken = u128::from(from) + time_of(rate, bytes);
        self.taken = u64::try_from(taken).unwrap_or(u64::MAX);
        self.taken
    }
}
