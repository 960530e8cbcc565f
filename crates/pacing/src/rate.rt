//! Numbers of bytes a second, as they are written (GNU Wget manual, option `--limit-rate`).
ghost use Rattle.std.specs.Prelude.{◌≡◌, ◌+◌, ◌*◌, ◌/◌, ◌≤◌, IfSome};
ghost use Rattle.pacing.specs.Rates.{bytes_in, rate_by, rate_in, rate_within};
ghost use Rattle.pacing.specs.declared.size.TheConstants.{MAX_SIZE};

use crate::size::{MAX_SIZE, split_size};
use crate::span::{digits_in, place_value, split_point};

/// The parts of a unit that are counted.
const BILLION: u128 = 1_000_000_000;

// The bytes of so many units and billionths of one, rounded up, if these aren't too many.
fn within(whole: u64, parts: u64, place: u64, unit: u64) -> Option<u64>
    requires place { place ≤ 1_000_000_000 }
    requires unit { unit ≤ 1_073_741_824 }
    ensures value { result ≡ rate_within (bytes_in whole (parts * place) unit) }
{
    let billionths = u128::from(parts) * u128::from(place) * u128::from(unit);
    let bytes = u128::from(whole) * u128::from(unit) + (billionths + (BILLION - 1)) / BILLION;
    if bytes <= u128::from(MAX_SIZE) {
        Some(bytes as u64)
    } else {
        None
    }
}

// The bytes a second of a number whose digits before and after the point these are.
fn rate_by(whole: &str, fraction: &str, unit: u64) -> Option<u64>
    requires { unit ≤ 1_073_741_824 }
    ensures { result ≡ rate_by whole.now fraction.now unit }
{
    if whole.is_empty() && fraction.is_empty() {
        return None;
    }
    let units = digits_in(whole)?;
    let parts = digits_in(fraction)?;
    let place = place_value(fraction.len())?;
    within(units, parts, place, unit)
}

/// The bytes a second that a text writes: digits, with a point and up to nine more if it is no whole number, and perhaps `k`, `m` or `g` at
/// the end, for units of 1,024 bytes, of 1,024 `k` and of 1,024 `m`. What isn't a whole byte counts as one. They are at most [`MAX_SIZE`]. Takes no memory.
#[tactic(auto, unfolding(crate::specs::Rates::rate_in))]
pub fn read_rate(text: &str) -> Option<u64>
    ensures { result ≡ rate_in text.now }
{
    let (number, unit) = split_size(text);
    let (whole, fraction) = split_point(number);
    rate_by(whole, fraction, unit)
}
