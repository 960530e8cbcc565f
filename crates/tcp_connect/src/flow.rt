//! Reads that are no faster than a rate, all workers' together, by the system's clock.
ghost use Rattle.std.specs.Prelude.{◌<◌};

use crate::hosts::Hosts;
use crate::turn::SystemTimer;
use pacing::{Timer, wait_until};
use std::sync::Wait;
use std::time::{Clock, Duration};

// Waits after so many bytes were read until the next read may begin, outside of any lock, and says how long. Nothing is waited for if
// there is no clock.
pub(crate) fn wait_flow<R: Wait + Clock>(rt: &R, hosts: &Hosts, rate: u64, read: usize) -> Duration
    requires { 0 < rate }
{
    let mut timer = SystemTimer::new(rt);
    let Some(now) = timer.now() else {
        return Duration::ZERO;
    };
    let begins = hosts.book_read(rt, rate, read as u64, now);
    let _ = wait_until(&mut timer, begins);
    Duration::from_nanos(timer.shown().saturating_sub(now))
}
