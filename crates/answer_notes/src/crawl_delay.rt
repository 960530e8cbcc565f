//! How long a robots file has its crawlers wait between two requests.
ghost use Rattle.std.specs.Prelude.{◌≡◌, IfOk};
ghost use Rattle.std.specs.Duration.{as_nanos};
ghost use Rattle.answer_notes.specs.CrawlDelays.{delay_by_status, delay_of_hops, received_delay};

use crate::hops::Hops;
use crate::received::Received;
use fetcher::is_successful;
use robots_rules::crawl_delay;
use std::alloc::{AllocError, Global};
use std::time::Duration;

// What the status and the body of the last answer say.
fn delay_by_status(alloc: Global, status: u16, file: &[u8]) -> Result<Duration, AllocError>
    ensures { IfOk result (λ delay. as_nanos delay ≡ delay_by_status status file.now) }
{
    if is_successful(status) {
        crawl_delay(alloc, file)
    } else {
        Ok(Duration::ZERO)
    }
}

// What the answer at the end of the hops says.
fn received_delay(alloc: Global, received: &Received) -> Result<Duration, AllocError>
    ensures { IfOk result (λ delay. as_nanos delay ≡ received_delay received.now) }
{
    match received {
        Received::Whole(given) => {
            let response = given.response();
            delay_by_status(alloc, response.status, response.body.as_slice())
        }
        Received::Fault(_) => Ok(Duration::ZERO),
    }
}

impl Hops {
    ghost use Rattle.std.specs.Prelude.{◌≡◌, IfOk};
    ghost use Rattle.std.specs.Duration.{as_nanos};
    ghost use Rattle.answer_notes.specs.CrawlDelays.{delay_of_hops};

    /// How long the file at the end has this agent wait between the beginnings of two requests to the origin: no time if it doesn't say, or
    /// there is no such file. The error is that memory ran out.
    pub fn crawl_delay(&self, alloc: Global) -> Result<Duration, AllocError>
        ensures { IfOk result (λ delay. as_nanos delay ≡ delay_of_hops self.now.hops) }
    {
        match self.hops() {
            [.., (_, received)] => received_delay(alloc, received),
            [] => Ok(Duration::ZERO),
        }
    }
}
