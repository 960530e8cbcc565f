//! Vectors of 32 bytes, and which of their lanes are set.
ghost use Rattle.std.specs.Prelude.{◌≡◌, ◌≢◌, ◌↔◌, ◌||◌, ℕ, Bool, List, ◌+◌, ◌<◌, ◌≤◌, length, nat_le, slice_index};
ghost use Rattle.std.specs.Int.{bit_at};
ghost use Rattle.memchr.specs.Lanes.{HasLanes};
ghost use Rattle.css_links.specs.inner.Spans.{is};
ghost use Rattle.css_links.specs.inner.Lanes.{Covers};

use std::simd::prelude::*;

/// The 32 bytes of a text from a place on.
#[inline(always)]
pub(crate) fn load(text: &[u8], at: usize) -> u8x32
    requires { at + 32 ≤ length text.now }
    ensures { HasLanes result (λ k. slice_index text.now (at + k)) }
{
    u8x32::from_slice(&text[at..])
}

/// Sets the lanes of that byte.
#[inline(always)]
pub(crate) fn equal_to(bytes: u8x32, byte: u8) -> u8x32
    ensures { Covers (is byte) bytes result }
{
    bytes
        .simd_eq(u8x32::splat(byte))
        .select(u8x32::splat(255), u8x32::splat(0))
}

/// Sets the lanes of that byte and all below it.
#[inline(always)]
pub(crate) fn at_most(bytes: u8x32, byte: u8) -> u8x32
    ensures { Covers (λ b. nat_le b byte) bytes result }
{
    bytes
        .simd_le(u8x32::splat(byte))
        .select(u8x32::splat(255), u8x32::splat(0))
}

/// The lanes that are set in one or the other.
#[inline(always)]
pub(crate) fn either(one: u8x32, other: u8x32) -> u8x32
    ensures { (f g : ℕ → Bool) (bytes : List ℕ) → Covers f bytes one → Covers g bytes other → Covers (λ b. f b || g b) bytes result }
{
    one | other
}

/// A bit for each lane that is set.
#[inline(always)]
pub(crate) fn marks(lanes: u8x32) -> u64
    ensures { (k : ℕ) → (bit_at result k ≡ 1) ↔ (128 ≤ slice_index lanes k) }
{
    lanes.simd_ge(u8x32::splat(128)).to_bitmask()
}

/// The lowest bit that is set.
#[inline(always)]
pub(crate) fn lowest(marks: u64) -> usize
    requires { marks ≢ 0 }
    ensures bound { result < 64 }
    ensures set { bit_at marks result ≡ 1 }
    ensures below { (k : ℕ) → k < result → bit_at marks k ≡ 0 }
{
    marks.trailing_zeros() as usize
}
