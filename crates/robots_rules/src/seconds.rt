//! Numbers of seconds, as `Crawl-delay` lines have them.
ghost use Rattle.std.specs.Prelude.{◌≡◌, ◌<◌, ◌++◌, true, position, min, codes, slice_index};
ghost use Rattle.std.specs.List.{after_first, before_first, list_all};
ghost use Rattle.std.specs.Char.{digit_value, is_ascii_digit};
ghost use Rattle.std.specs.Str.Parse.{digits_value};
ghost use Rattle.robots_rules.specs.Delays.{delay_in, is_point, nanos_in};

/// The longest delay that is kept, in nanoseconds: 60 seconds.
const MAX_DELAY: u64 = 60_000_000_000;

/// The nanoseconds of a second.
const SECOND: u64 = 1_000_000_000;

/// How many digits after the point count.
const PLACES: usize = 9;

/// The nanoseconds that a text writes as seconds: digits, with a point and more digits if it is no whole number. Of these the first nine count. It is
/// 60 seconds at most.
#[tactic(auto, unfolding(crate::specs::Delays::delay_in))]
pub(crate) fn delay_in(text: &[u8]) -> Option<u64>
    ensures { result ≡ delay_in text.now }
{
    let (whole, fraction) = split_point(text);
    if !has_digits(whole) || !has_digits(fraction) {
        return None;
    }
    if whole.is_empty() && fraction.is_empty() {
        return None;
    }
    Some((seconds_in(whole) * SECOND + nanos_in(fraction)).min(MAX_DELAY))
}

/// What is before the point, and after it.
fn split_point(text: &[u8]) -> (&[u8], &[u8])
    ensures whole { result.0.now ≡ before_first is_point text.now }
    ensures fraction { result.1.now ≡ after_first is_point text.now }
{
    match first_point(text) {
        Some(point) => (&text[..point], &text[point + 1..]),
        None => (text, &[]),
    }
}

fn first_point(text: &[u8]) -> Option<usize>
    ensures { result ≡ position is_point text.now }
{
    text.iter().position(|octet| *octet == b'.')
}

/// Whether each octet is a digit.
fn has_digits(text: &[u8]) -> bool
    ensures { result ≡ list_all is_ascii_digit text.now }
{
    text.iter().all(|octet| octet.is_ascii_digit())
}

/// The number that digits write, at most 60.
fn seconds_in(digits: &[u8]) -> u64
    requires { list_all is_ascii_digit digits.now ≡ true }
    ensures { result ≡ min (digits_value 10 digits.now) 60 }
{
    let mut seconds = 0;
    for octet in digits {
        seconds = (seconds * 10 + u64::from(*octet - b'0')).min(60);
    }
    seconds
}

/// The nanoseconds that the digits after a point write.
fn nanos_in(digits: &[u8]) -> u64
    requires { list_all is_ascii_digit digits.now ≡ true }
    ensures value { result ≡ nanos_in digits.now }
    ensures few { result < 1_000_000_000 }
{
    let mut nanos = 0;
    for place in 0..PLACES {
        nanos = nanos * 10 + digit_at(digits, place);
    }
    nanos
}

/// The digit at a place after the point, 0 past the last one.
fn digit_at(digits: &[u8], place: usize) -> u64
    requires digits { list_all is_ascii_digit digits.now ≡ true }
    requires place { place < 9 }
    ensures value { result ≡ digit_value (slice_index (digits.now ++ codes "000000000") place) }
    ensures few { result < 10 }
{
    match digits.get(place) {
        Some(octet) => u64::from(*octet - b'0'),
        None => 0,
    }
}
