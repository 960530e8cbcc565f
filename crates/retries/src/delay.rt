//! How long an origin is left alone before it is asked again (RFC 9110, section 10.2.3; GNU Wget manual, option `--waitretry`).
ghost use Rattle.std.specs.Prelude.{◌≡◌, ◌&&◌, length, min, nat_lt, option_map};
ghost use Rattle.std.specs.Duration.{as_nanos};
ghost use Rattle.std.specs.List.{list_all};
ghost use Rattle.std.specs.Char.{is_ascii_digit};
ghost use Rattle.pacing.specs.Retries.{retries_by};
ghost use Rattle.retries.specs.Delays.{pause_after, pause_before, pause_before_hops, pause_of, seconds_after, seconds_in, retry_after_seconds};

use answer_notes::{Hops, Received};
use httpdate::HttpDate;
use pacing::Retries;
use response_reader::number;
use std::time::Duration;

// Whether each byte is a digit.
fn has_digits(value: &[u8]) -> bool
    ensures { result ≡ list_all is_ascii_digit value.now }
{
    value.iter().all(|byte| byte.is_ascii_digit())
}

// Whether there are digits alone, and some.
fn is_digits(value: &[u8]) -> bool
    ensures { result ≡ (nat_lt 0 (length value.now) && list_all is_ascii_digit value.now) }
{
    !value.is_empty() && has_digits(value)
}

// The seconds that digits say. More than 64 bits can say are as many as they can.
fn seconds_in(value: &[u8]) -> Option<u64>
    ensures { result ≡ seconds_in value.now }
{
    if !is_digits(value) {
        return None;
    }
    Some(number(value).unwrap_or(u64::MAX))
}

// The seconds that a Retry-After says at this time, which is in seconds since 1970. What has no such form says none.
#[tactic(auto, unfolding(crate::specs::Delays::seconds_after))]
fn seconds_after(value: &[u8], now: Option<u64>) -> Option<u64>
    ensures { result ≡ seconds_after now value.now }
{
    if let Some(seconds) = seconds_in(value) {
        return Some(seconds);
    }
    match HttpDate::parse_ascii(value) {
        Ok(date) => Some(date.unix_secs().saturating_sub(now?)),
        Err(_) => None,
    }
}

// The seconds that what was received says at this time.
fn retry_after_seconds(received: &Received, now: Option<u64>) -> Option<u64>
    ensures { result ≡ retry_after_seconds now received.now }
{
    match received {
        Received::Whole(given) => match &given.response().retry_after {
            Some(value) => seconds_after(value, now),
            None => None,
        },
        Received::Fault(_) => None,
    }
}

// The shorter of two lengths of time.
fn shorter(first: Duration, second: Duration) -> Duration
    ensures { as_nanos result ≡ min (as_nanos first) (as_nanos second) }
{
    if first < second { first } else { second }
}

// How long the origin is left alone if so many tries were made again and so many seconds were said.
fn pause_of(retries: &Retries, made: u32, said: Option<u64>) -> Duration
    ensures { as_nanos result ≡ pause_of (retries_by retries.now) made said }
{
    let seconds = said.unwrap_or(u64::from(made) + 1);
    shorter(Duration::from_secs(seconds), retries.wait)
}

// How long the origin is left alone after this was received, if so many tries were repeated, and this is the time.
pub(crate) fn pause_before(
    retries: &Retries,
    made: u32,
    now: Option<u64>,
    received: &Received,
) -> Duration
    ensures { as_nanos result ≡ pause_before (retries_by retries.now) made now received.now }
{
    pause_of(retries, made, retry_after_seconds(received, now))
}

// The same after a response with this Retry-After, if it has one.
pub(crate) fn pause_after(
    retries: &Retries,
    made: u32,
    now: Option<u64>,
    said: Option<&[u8]>,
) -> Duration
    ensures { as_nanos result ≡ pause_after (retries_by retries.now) made now (option_map (λ value. value.now) said.entry) }
{
    let seconds = match said {
        Some(value) => seconds_after(value, now),
        None => None,
    };
    pause_of(retries, made, seconds)
}

// The same of an origin's robots file: the last of its hops counts.
pub(crate) fn pause_before_hops(
    retries: &Retries,
    made: u32,
    now: Option<u64>,
    hops: &Hops,
) -> Duration
    ensures { as_nanos result ≡ pause_before_hops (retries_by retries.now) made now hops.now.hops }
{
    match hops.hops() {
        [.., (_, received)] => pause_before(retries, made, now, received),
        [] => Duration::ZERO,
    }
}
