//! How a run treats servers: pauses, and limits of waits and of bodies.
ghost use Rattle.std.specs.Prelude.{◌≡◌, ◌≤◌, ◌+◌, ◌/◌, ◌%◌, min};
ghost use Rattle.std.specs.Duration.{as_nanos};
ghost use Rattle.pacing.specs.Manners.{mannered, pause_by, usual};
ghost use Rattle.pacing.specs.declared.span.TheConstants.{MAX_SPAN};

use crate::span::MAX_SPAN;
use std::time::Duration;

/// The seconds that a read or a write may wait if no limit is said (GNU Wget manual, option `--read-timeout`).
const USUAL_READ_LIMIT: u64 = 900;

/// The most bytes of a body that goes to a file, if no limit is said: 2^40.
const USUAL_BODY_LIMIT: u64 = 1_099_511_627_776;

/// Which addresses of a host are connected to.
#[derive(Clone, Copy, PartialEq, Eq, Debug)]
pub enum Family {
    /// All that it has.
    Any,
    /// Those of IPv4 (RFC 791).
    V4,
    /// Those of IPv6 (RFC 8200).
    V6,
}

/// How a run treats servers.
#[derive(Clone, Copy)]
pub struct Manner {
    /// The pause between the beginnings of two requests to an origin.
    pub wait: Duration,
    /// Whether that pause varies.
    pub is_random: bool,
    /// How long a host may take to be looked up, if there is a limit besides the system's.
    pub lookup_limit: Option<Duration>,
    /// How long a connection may take to be made, if there is a limit besides the system's.
    pub connect_limit: Option<Duration>,
    /// How long a read or a write may wait, if there is a limit.
    pub read_limit: Option<Duration>,
    /// How long a whole answer may take, if there is a limit.
    pub answer_limit: Option<Duration>,
    /// How many bytes a body may have that goes to a file.
    pub body_limit: u64,
    /// How many bytes a second may be read, if there is a limit.
    pub rate: Option<u64>,
    /// Whether an origin's robots file may lengthen the pause.
    pub crawl_delay: bool,
    /// Which addresses of a host are connected to.
    pub family: Family,
}

// The nanoseconds of a length of time, at most those of the longest.
fn nanos_of(span: Duration) -> u64
    ensures value { result ≡ min (as_nanos span) MAX_SPAN }
    ensures most { result ≤ MAX_SPAN }
{
    let most = Duration::from_nanos(MAX_SPAN);
    if span < most {
        span.as_nanos() as u64
    } else {
        MAX_SPAN
    }
}

// A pause that varies from a half of this one to three halves, by a random number (GNU Wget manual, option `--random-wait`).
fn varied(pause: u64, random: u64) -> u64
    requires { pause ≤ MAX_SPAN }
    ensures { result ≡ pause / 2 + random % (pause + 1) }
{
    pause / 2 + random % (pause + 1)
}

impl Manner {
    ghost use Rattle.std.specs.Prelude.{◌≡◌};
    ghost use Rattle.pacing.specs.Manners.{mannered, pause_by, usual};

    /// Nothing is waited for, bytes are read as fast as they come, reads and writes have a limit of 900 seconds, and bodies that go to files one of 2^40 bytes.
    pub fn usual() -> Manner
        ensures { mannered result ≡ usual }
    {
        Manner {
            wait: Duration::ZERO,
            is_random: false,
            lookup_limit: None,
            connect_limit: None,
            read_limit: Some(Duration::from_secs(USUAL_READ_LIMIT)),
            answer_limit: None,
            body_limit: USUAL_BODY_LIMIT,
            rate: None,
            crawl_delay: false,
            family: Family::Any,
        }
    }

    /// The nanoseconds of the pause after the beginning of a request, given a random number.
    pub fn pause(&self, random: u64) -> u64
        ensures { result ≡ pause_by self.now random }
    {
        let wait = nanos_of(self.wait);
        if self.is_random {
            varied(wait, random)
        } else {
            wait
        }
    }
}
