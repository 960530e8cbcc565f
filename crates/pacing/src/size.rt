//! Numbers of bytes, as they are written (GNU Wget manual, option `--quota`).
ghost use Rattle.std.specs.Prelude.{◌≡◌, ◌*◌, ◌<◌, ◌≤◌, IfSome};
ghost use Rattle.pacing.specs.Sizes.{size_in, size_within, split_size};
ghost use Rattle.pacing.specs.declared.size.TheConstants.{MAX_SIZE};

use crate::span::{cut, digits_in};

/// The most bytes that can be written: 2^60.
pub const MAX_SIZE: u64 = 1_152_921_504_606_846_976;

// A number, and how many bytes its unit has.
pub(crate) fn split_size(text: &str) -> (&str, u64)
    ensures value { (result.0.now, result.1) ≡ split_size text.entry.now }
    ensures most { result.1 ≤ 1_073_741_824 }
{
    if let Some(number) = cut(text, 'k') {
        return (number, 1_024);
    }
    if let Some(number) = cut(text, 'm') {
        return (number, 1_048_576);
    }
    match cut(text, 'g') {
        Some(number) => (number, 1_073_741_824),
        None => (text, 1),
    }
}

// So many units, if they are some bytes and not too many.
fn within(number: u64, unit: u64) -> Option<u64>
    ensures value { result ≡ size_within (number * unit) }
    ensures bounds { IfSome result (λ size. (0 < size) × (size ≤ MAX_SIZE)) }
{
    let size = number.checked_mul(unit)?;
    if 0 < size && size <= MAX_SIZE {
        Some(size)
    } else {
        None
    }
}

/// The number of bytes that a text writes: digits, and perhaps `k`, `m` or `g` at the end, for units of 1,024 bytes, of 1,024 `k` and of
/// 1,024 `m`. It is at least 1 and at most [`MAX_SIZE`]. Takes no memory.
#[tactic(auto, unfolding(crate::specs::Sizes::size_in))]
pub fn read_size(text: &str) -> Option<u64>
    ensures value { result ≡ size_in text.now }
    ensures bounds { IfSome result (λ size. (0 < size) × (size ≤ MAX_SIZE)) }
{
    let (number, unit) = split_size(text);
    match digits_in(number) {
        Some(number) => within(number, unit),
        None => None,
    }
}
