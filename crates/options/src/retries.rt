//! When requests are made again, as the options say it (GNU Wget manual, chapter Download Options).
ghost use Rattle.std.specs.Prelude.{◌≡◌, ◌⊎◌, IfOk, MatchResult, None, Some, codes, map, option_map};
ghost use Rattle.std.specs.Duration.{as_nanos};
ghost use Rattle.clap.specs.Words.{first_of, found_of, rows_of};
ghost use Rattle.pacing.specs.Retries.{retries_by};
ghost use Rattle.options.specs.Asked.{words_refused};
ghost use Rattle.options.specs.Given.{list_of};
ghost use Rattle.options.specs.Retries.{again_by, again_of, longest_by, read_status, read_tries, retries_of, status_of};
ghost use Rattle.options.specs.declared.fault.LineFault.TheVariants as fault;

use crate::fault::LineFault;
use crate::given::{elements, given, is_set, number_in};
use clap::ArgMatches;
use clap::error::ErrorKind;
use follow_filters::{Element, ElementFault, Elements};
use pacing::{Retries, read_span};
use std::alloc::{AllocError, Global};
use std::time::Duration;

/// The seconds of the longest pause if none is said.
const LONGEST_PAUSE: u64 = 10;

/// A status of `--retry-on-http-error`.
#[derive(Clone, Copy)]
pub(crate) struct Status {
    /// Its number.
    pub code: u16,
}

// A number that a status may have.
fn status_of(code: u32) -> Option<Status>
    ensures { result ≡ status_of code }
{
    match code {
        100..=999 => Some(Status { code: code as u16 }),
        _ => None,
    }
}

// A status as it is written.
#[tactic(auto, unfolding(crate::specs::Retries::read_status))]
fn read_status(text: &str) -> Option<Status>
    ensures { result ≡ read_status text.now }
{
    status_of(number_in(text)?)
}

impl Element for Status {
    ghost use Rattle.options.specs.Retries.{read_status};

    ghost read_of = { read_status };

    fn read(_alloc: Global, text: &str) -> Result<Status, ElementFault> {
        match read_status(text) {
            Some(status) => Ok(status),
            None => Err(ElementFault::Bad),
        }
    }
}

// The numbers of statuses.
fn codes_of(alloc: Global, statuses: &[Status]) -> Result<Vec<u16>, AllocError>
    ensures { IfOk result (λ all. all.items ≡ map (λ status. status.code) statuses.now) }
{
    let mut codes = Vec::new(alloc);
    for status in statuses {
        codes.push(status.code)?;
    }
    Ok(codes)
}

// The statuses after which a request is made again.
fn statuses(alloc: Global, matches: &ArgMatches) -> Result<Vec<u16>, LineFault>
    ensures { MatchResult result
        (λ all. option_map (λ found. map (λ status. status.code) found) (list_of read_status (codes "retry-on-http-error") (rows_of (found_of matches.now))) ≡ Some all.items)
        (λ f. ((f ≡ words_refused) × (list_of read_status (codes "retry-on-http-error") (rows_of (found_of matches.now)) ≡ None)) ⊎ (f ≡ fault.Memory)) }
{
    let refused = LineFault::Words(ErrorKind::InvalidValue);
    let found: Elements<Status> = elements(alloc, matches, "retry-on-http-error", refused)?;
    match codes_of(alloc, found.as_slice()) {
        Ok(codes) => Ok(codes),
        Err(_) => Err(LineFault::Memory),
    }
}

// How often a request is repeated if it is made this often.
fn again_of(tries: u32) -> u32
    ensures { result ≡ again_of tries }
{
    match tries {
        0 => u32::MAX,
        tries => tries - 1,
    }
}

// How often a request is made again, by a number of tries as it is written.
#[tactic(auto, unfolding(crate::specs::Retries::read_tries))]
fn read_tries(text: &str) -> Option<u32>
    ensures { result ≡ read_tries text.now }
{
    if text == "inf" {
        return Some(u32::MAX);
    }
    match number_in(text) {
        Some(tries) => Some(again_of(tries)),
        None => None,
    }
}

// How often a request is made again.
#[tactic(auto, unfolding(crate::specs::Retries::again_by))]
fn again(matches: &ArgMatches) -> Option<u32>
    ensures { result ≡ again_by (first_of (codes "tries") (rows_of (found_of matches.now))) }
{
    match given(matches, "tries") {
        Some(text) => read_tries(text),
        None => Some(0),
    }
}

// The longest pause before a request is made again.
#[tactic(auto, unfolding(crate::specs::Retries::longest_by))]
fn longest(matches: &ArgMatches) -> Option<Duration>
    ensures { option_map as_nanos result ≡ longest_by (first_of (codes "waitretry") (rows_of (found_of matches.now))) }
{
    match given(matches, "waitretry") {
        Some(text) => read_span(text),
        None => Some(Duration::from_secs(LONGEST_PAUSE)),
    }
}

/// What the options say of when requests are made again. The fault is that a value can't be, or that memory ran out.
#[tactic(auto, unfolding(crate::specs::Retries::retries_of))]
pub(crate) fn retries(alloc: Global, matches: &ArgMatches) -> Result<Retries, LineFault>
    ensures { MatchResult result
        (λ retries. retries_of (rows_of (found_of matches.now)) ≡ Some (retries_by retries))
        (λ f. ((f ≡ words_refused) × (retries_of (rows_of (found_of matches.now)) ≡ None)) ⊎ (f ≡ fault.Memory)) }
{
    let Some(most) = again(matches) else {
        return Err(LineFault::Words(ErrorKind::InvalidValue));
    };
    let Some(wait) = longest(matches) else {
        return Err(LineFault::Words(ErrorKind::InvalidValue));
    };
    let statuses = statuses(alloc, matches)?;
    Ok(Retries {
        most,
        wait,
        refused: is_set(matches, "retry-connrefused"),
        unknown: is_set(matches, "retry-on-host-error"),
        statuses,
    })
}
