//! Lengths of time, as they are written (GNU Wget manual, option `--wait`).
ghost use Rattle.std.specs.Prelude.{◌≡◌, ◌==◌, ◌*◌, ◌+◌, ◌<◌, ◌≤◌, IfSome, option_map};
ghost use Rattle.std.specs.Duration.{as_nanos};
ghost use Rattle.std.specs.List.{after_first, before_first, list_all};
ghost use Rattle.std.specs.Char.{is_ascii_digit};
ghost use Rattle.pacing.specs.Spans.{cut_by, digits_in, place_value, span_by, span_in, split_unit, within};

use std::time::Duration;

/// The most nanoseconds of a length of time: those of 365 days.
pub const MAX_SPAN: u64 = 31_536_000_000_000_000;

/// The nanoseconds of a second.
const SECOND: u64 = 1_000_000_000;

// Whether each byte is a digit.
fn has_digits(text: &[u8]) -> bool
    ensures { result ≡ list_all is_ascii_digit text.now }
{
    text.iter().all(|byte| byte.is_ascii_digit())
}

// The number that digits write, 0 if there are none.
pub(crate) fn digits_in(text: &str) -> Option<u64>
    ensures { result ≡ digits_in text.now }
{
    if text.is_empty() {
        return Some(0);
    }
    if !has_digits(text.as_bytes()) {
        return None;
    }
    text.parse().ok()
}

// The nanoseconds of the last of so many decimal places of a second. There are nine at most.
pub(crate) fn place_value(places: usize) -> Option<u64>
    ensures value { result ≡ place_value places }
    ensures most { IfSome result (λ place. place ≤ 1_000_000_000) }
{
    match places {
        0 => Some(1_000_000_000),
        1 => Some(100_000_000),
        2 => Some(10_000_000),
        3 => Some(1_000_000),
        4 => Some(100_000),
        5 => Some(10_000),
        6 => Some(1_000),
        7 => Some(100),
        8 => Some(10),
        9 => Some(1),
        _ => None,
    }
}

// So many seconds and parts of one, in nanoseconds, as often as the unit says, if these aren't too many.
fn within(seconds: u64, parts: u64, place: u64, unit: u64) -> Option<u64>
    requires { 0 < unit }
    ensures { result ≡ within ((seconds * 1_000_000_000 + parts * place) * unit) }
{
    let whole = seconds.checked_mul(SECOND)?;
    let nanos = whole.checked_add(parts.checked_mul(place)?)?;
    let span = nanos.checked_mul(unit)?;
    if span <= MAX_SPAN { Some(span) } else { None }
}

// What is before a unit, if the text ends with it.
pub(crate) fn cut(text: &str, unit: char) -> Option<&str>
    requires ascii { unit < 128 }
    requires some { 0 < unit }
    ensures { option_map (λ number. number.now) result ≡ cut_by unit text.entry.now }
{
    text.strip_suffix(unit)
}

// A number, and how many seconds its unit has.
fn split_unit(text: &str) -> (&str, u64)
    ensures value { (result.0.now, result.1) ≡ split_unit text.entry.now }
    ensures some { 0 < result.1 }
{
    if let Some(number) = cut(text, 's') {
        return (number, 1);
    }
    if let Some(number) = cut(text, 'm') {
        return (number, 60);
    }
    if let Some(number) = cut(text, 'h') {
        return (number, 3_600);
    }
    match cut(text, 'd') {
        Some(number) => (number, 86_400),
        None => (text, 1),
    }
}

// What is before the point, and after it.
pub(crate) fn split_point(number: &str) -> (&str, &str)
    ensures whole { result.0.now ≡ before_first (λ byte. byte == 46) number.entry.now }
    ensures fraction { result.1.now ≡ after_first (λ byte. byte == 46) number.entry.now }
{
    match number.split_once('.') {
        Some((whole, fraction)) => (whole, fraction),
        None => (number, ""),
    }
}

// The nanoseconds of a number whose digits before and after the point these are.
fn span_by(whole: &str, fraction: &str, unit: u64) -> Option<u64>
    requires { 0 < unit }
    ensures { result ≡ span_by whole.now fraction.now unit }
{
    if whole.is_empty() && fraction.is_empty() {
        return None;
    }
    let seconds = digits_in(whole)?;
    let parts = digits_in(fraction)?;
    let place = place_value(fraction.len())?;
    within(seconds, parts, place, unit)
}

/// The length of time that a text writes: digits, with a point and up to nine more if it is no whole number, and perhaps `s`, `m`,
/// `h` or `d` at the end, of which `s` is meant if there is none. 365 days are the longest. Takes no memory.
#[tactic(auto, unfolding(crate::specs::Spans::span_in))]
pub fn read_span(text: &str) -> Option<Duration>
    ensures value { option_map as_nanos result ≡ span_in text.now }
    ensures most { IfSome result (λ span. as_nanos span ≤ MAX_SPAN) }
{
    let (number, unit) = split_unit(text);
    let (whole, fraction) = split_point(number);
    match span_by(whole, fraction, unit) {
        Some(nanos) => Some(Duration::from_nanos(nanos)),
        None => None,
    }
}
