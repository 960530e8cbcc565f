//! How servers are treated, as the options say it (GNU Wget manual, chapter Download Options).
ghost use Rattle.std.specs.Prelude.{◌≡◌, None, codes, option_map};
ghost use Rattle.std.specs.Duration.{as_nanos};
ghost use Rattle.clap.specs.Words.{first_of, found_of, rows_of};
ghost use Rattle.pacing.specs.Manners.{mannered};
ghost use Rattle.options.specs.Manners.{body_by, family_of, limit_by, limit_of, manner_of, quota_by, rate_by, rate_limit, rate_unless_zero, read_limit, unless_zero, wait_by};

use crate::given::{given, is_set};
use clap::ArgMatches;
use pacing::{Family, Manner, read_rate, read_size, read_span};
use std::time::Duration;

// The pause between the beginnings of two requests to a server.
#[tactic(auto, unfolding(crate::specs::Manners::wait_by))]
fn wait(matches: &ArgMatches) -> Option<Duration>
    ensures { option_map as_nanos result ≡ wait_by (first_of (codes "wait") (rows_of (found_of matches.now))) }
{
    match given(matches, "wait") {
        Some(text) => read_span(text),
        None => Some(Duration::ZERO),
    }
}

// No limit is written as 0.
fn unless_zero(span: Duration) -> Option<Duration>
    ensures { option_map as_nanos result ≡ unless_zero (as_nanos span) }
{
    if span.is_zero() { None } else { Some(span) }
}

// A limit as it is written; nothing if it is none.
#[tactic(auto, unfolding(crate::specs::Manners::read_limit))]
fn read_limit(text: &str) -> Option<Option<Duration>>
    ensures { option_map (λ limit. option_map as_nanos limit) result ≡ read_limit text.now }
{
    if text == "inf" {
        return Some(None);
    }
    match read_span(text) {
        Some(span) => Some(unless_zero(span)),
        None => None,
    }
}

// The limit that a value gives, or this one if there is none.
fn limit_by(value: Option<&str>, usual: Option<Duration>) -> Option<Option<Duration>>
    ensures { option_map (λ limit. option_map as_nanos limit) result ≡ limit_by (option_map as_nanos usual) (option_map (λ s. s.now) value.entry) }
{
    match value {
        Some(text) => read_limit(text),
        None => Some(usual),
    }
}

// The limit that an option gives, or else `--timeout`, or else this one.
#[tactic(auto, unfolding(crate::specs::Manners::limit_of))]
fn limit_of(matches: &ArgMatches, id: &str, usual: Option<Duration>) -> Option<Option<Duration>>
    ensures { option_map (λ limit. option_map as_nanos limit) result ≡ limit_of id.now (option_map as_nanos usual) (rows_of (found_of matches.now)) }
{
    match limit_by(given(matches, "timeout"), usual) {
        Some(all) => limit_by(given(matches, id), all),
        None => None,
    }
}

// The most bytes of a body, or so many if the option isn't given.
fn body_limit(matches: &ArgMatches, usual: u64) -> Option<u64>
    ensures { result ≡ body_by usual (first_of (codes "max-body") (rows_of (found_of matches.now))) }
{
    match given(matches, "max-body") {
        Some(text) => read_size(text),
        None => Some(usual),
    }
}

// No limit is written as 0.
fn rate_unless_zero(rate: u64) -> Option<u64>
    ensures { result ≡ rate_unless_zero rate }
{
    if rate == 0 { None } else { Some(rate) }
}

// A limit of speed as it is written; nothing if it is none.
#[tactic(auto, unfolding(crate::specs::Manners::rate_limit))]
fn rate_limit(text: &str) -> Option<Option<u64>>
    ensures { result ≡ rate_limit text.now }
{
    if text == "inf" {
        return Some(None);
    }
    match read_rate(text) {
        Some(rate) => Some(rate_unless_zero(rate)),
        None => None,
    }
}

// How many bytes a second may be read, if there is a limit.
fn rate(matches: &ArgMatches) -> Option<Option<u64>>
    ensures { result ≡ rate_by (first_of (codes "limit-rate") (rows_of (found_of matches.now))) }
{
    match given(matches, "limit-rate") {
        Some(text) => rate_limit(text),
        None => Some(None),
    }
}

/// The most bytes of kept bodies before nothing more is requested, if there is a limit; nothing if the value can't be.
pub(crate) fn quota(matches: &ArgMatches) -> Option<Option<u64>>
    ensures { result ≡ quota_by (first_of (codes "quota") (rows_of (found_of matches.now))) }
{
    match given(matches, "quota") {
        Some(text) => rate_limit(text),
        None => Some(None),
    }
}

// Which addresses of hosts are connected to.
#[tactic(auto, unfolding(crate::specs::Manners::family_of))]
fn family(matches: &ArgMatches) -> Option<Family>
    ensures { result ≡ family_of (rows_of (found_of matches.now)) }
{
    match (is_set(matches, "inet4-only"), is_set(matches, "inet6-only")) {
        (true, true) => None,
        (true, false) => Some(Family::V4),
        (false, true) => Some(Family::V6),
        (false, false) => Some(Family::Any),
    }
}

/// What the options say of how servers are treated; nothing if a value can't be.
#[tactic(auto, unfolding(crate::specs::Manners::manner_of))]
pub(crate) fn manner(matches: &ArgMatches) -> Option<Manner>
    ensures { option_map mannered result ≡ manner_of (rows_of (found_of matches.now)) }
{
    let usual = Manner::usual();
    let wait = wait(matches)?;
    let lookup_limit = limit_of(matches, "dns-timeout", usual.lookup_limit)?;
    let connect_limit = limit_of(matches, "connect-timeout", usual.connect_limit)?;
    let read_limit = limit_of(matches, "read-timeout", usual.read_limit)?;
    let answer_limit = limit_by(given(matches, "answer-timeout"), usual.answer_limit)?;
    let body_limit = body_limit(matches, usual.body_limit)?;
    let rate = rate(matches)?;
    let family = family(matches)?;
    Some(Manner {
        wait,
        is_random: is_set(matches, "random-wait"),
        lookup_limit,
        connect_limit,
        read_limit,
        answer_limit,
        body_limit,
        rate,
        crawl_delay: is_set(matches, "crawl-delay"),
        family,
    })
}
