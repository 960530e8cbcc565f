//! Turns of origins, which are waited for by the system's clock.
use crate::hosts::Hosts;
use address::Origin;
use pacing::{Manner, Timer, wait_until};
use rand_core::{Rng, SeedableRng};
use rand_xoshiro::SplitMix64;
use std::alloc::AllocError;
use std::sync::Wait;
use std::thread;
use std::time::{Clock, Duration};

// The system's clock. Its beginning is the same for all workers.
#[derive(Drop)]
pub(crate) struct SystemTimer<'a, R: Clock> {
    rt: &'a R,
    // What it showed last.
    shown: u64,
}

impl<'a, R: Clock> SystemTimer<'a, R> {
    pub(crate) fn new(rt: &'a R) -> SystemTimer<'a, R> {
        SystemTimer { rt, shown: 0 }
    }

    // What it showed last.
    pub(crate) fn shown(&self) -> u64 {
        self.shown
    }
}

impl<'a, R: Clock> Timer for SystemTimer<'a, R> {
    ghost time = { λ t. t.shown };

    fn now(&mut self) -> Option<u64> {
        let now = self.rt.monotonic().ok()?;
        self.shown = u64::try_from(now.as_nanos()).ok()?;
        Some(self.shown)
    }

    fn pause(&mut self, nanos: u64) {
        thread::sleep(self.rt, Duration::from_nanos(nanos));
    }
}

// Waits until a request to an origin may begin, outside of any lock. Nothing is waited for if there is no clock. The error is that
// memory ran out.
pub(crate) fn wait_turn<R: Wait + Clock>(
    rt: &R,
    hosts: &Hosts,
    manner: &Manner,
    of: &Origin,
) -> Result<(), AllocError> {
    let mut timer = SystemTimer::new(rt);
    let Some(now) = timer.now() else {
        return Ok(());
    };
    let random = SplitMix64::seed_from_u64(now).next_u64();
    let begins = hosts.book(rt, of, now, manner.pause(random))?;
    let _ = wait_until(&mut timer, begins);
    Ok(())
}

// Has no request to an origin begin before this time is over. Without a clock it may.
pub(crate) fn hold_turn<R: Wait + Clock>(rt: &R, hosts: &Hosts, of: &Origin, pause: Duration) {
    let mut timer = SystemTimer::new(rt);
    if let Some(now) = timer.now() {
        let nanos = u64::try_from(pause.as_nanos()).unwrap_or(u64::MAX);
        hosts.hold(rt, of, now.saturating_add(nanos));
    }
}

// Has so much time at least pass between the beginnings of two requests to an origin.
pub(crate) fn space_turns<R: Wait>(rt: &R, hosts: &Hosts, of: &Origin, delay: Duration) {
    hosts.space(rt, of, u64::try_from(delay.as_nanos()).unwrap_or(u64::MAX));
}
