//! The reference from the file of one local name to that of another.
ghost use Rattle.std.specs.Prelude.{◌≡◌, ◌++◌, [], ◌∷◌, ◌<◌, ⊤, IfOk, OnOk, MatchOption, All, map, length, string_bytes};
ghost use Rattle.std.specs.List.{slice_split};
ghost use Rattle.std.specs.Str.{bytes_eq};
ghost use Rattle.local_links.specs.Relative as spec;
ghost use Rattle.local_links.specs.Relative.{is_slash, resolve, IsLocal, IsLinkByte};
ghost use Rattle.local_links.specs.inner.Climbs.{climb, climbs, IsApart, goes_from};

use memchr::memchr;
use percent_encoding::{AsciiSet, NON_ALPHANUMERIC, ascii_set, percent_encode};
use std::alloc::{AllocError, Global};

/// What is escaped of a name: all but unreserved bytes (RFC 3986, section 2.3) and the slashes between its segments.
const ESCAPED: AsciiSet = ascii_set!(
    NON_ALPHANUMERIC
        .remove(b'-')
        .remove(b'.')
        .remove(b'_')
        .remove(b'~')
        .remove(b'/')
);

// The first directory of a name, and what is below it; nothing, if the name has none.
fn split_directory(name: &[u8]) -> Option<(&[u8], &[u8])>
    ensures parts { MatchOption result (slice_split is_slash name.now ≡ name.now ∷ []) (λ x. slice_split is_slash name.now ≡ x.0.now ∷ slice_split is_slash x.1.now) }
    ensures shorter { MatchOption result ⊤ (λ x. length x.1.now < length name.now) }
{
    match memchr(b'/', name) {
        Some(at) => Some((&name[..at], &name[at + 1..])),
        None => None,
    }
}

// Whether two names are the same.
fn is_name(name: &[u8], other: &[u8]) -> bool
    ensures { result ≡ bytes_eq name.now other.now }
{
    name == other
}

// Both names below their first directory, if they have the same.
fn below_shared<'a>(from: &'a [u8], to: &'a [u8]) -> Option<(&'a [u8], &'a [u8])>
    ensures same { MatchOption result (IsApart from.now to.now) (λ x. goes_from from.now to.now ≡ goes_from x.0.now x.1.now) }
    ensures shorter { MatchOption result ⊤ (λ x. length x.0.now < length from.now) }
{
    let (directory, above) = split_directory(from)?;
    let (other, below) = split_directory(to)?;
    if is_name(directory, other) {
        Some((above, below))
    } else {
        None
    }
}

// Both names below the directories that they share.
fn apart<'a>(from: &'a [u8], to: &'a [u8]) -> (&'a [u8], &'a [u8])
    ensures same { goes_from from.now to.now ≡ goes_from result.0.now result.1.now }
    ensures apart { IsApart result.0.now result.1.now }
{
    let mut above = from;
    let mut below = to;
    while let Some((inner, other)) = below_shared(above, below) {
        above = inner;
        below = other;
    }
    (above, below)
}

// Puts down the way up out of the directory that a byte ends.
fn push_climb(text: &mut String, byte: u8) -> Result<(), AllocError>
    ensures { OnOk result (string_bytes text.new ≡ string_bytes text.old ++ climb byte) }
{
    if byte == b'/' {
        text.push_str("../")?;
    }
    Ok(())
}

// Puts down the way up out of each directory of a name.
fn push_climbs(text: &mut String, name: &[u8]) -> Result<(), AllocError>
    ensures { OnOk result (string_bytes text.new ≡ string_bytes text.old ++ climbs name.now) }
{
    let mut left = name;
    while let [byte, others @ ..] = left {
        push_climb(text, *byte)?;
        left = others;
    }
    Ok(())
}

/// The reference from the file of one name to that of another: up out of the directories that the other doesn't have, and down to
/// it. It takes time linear in both. The error is out of memory.
///
/// From `h/d/a.html` to `h/i?x.png` it is `../i%3Fx.png`.
pub fn relative(alloc: Global, from: &str, to: &str) -> Result<String, AllocError>
    ensures value { IfOk result (λ text. string_bytes text ≡ spec.relative from.now to.now) }

    // It leads to that file.
    ensures leads { IsLocal to.now → IfOk result (λ text. resolve from.now (string_bytes text) ≡ to.now) }

    // It has unreserved bytes, `%` and `/` alone.
    ensures bytes { IfOk result (λ text. All IsLinkByte (string_bytes text)) }
{
    let (above, below) = apart(from.as_bytes(), to.as_bytes());
    let mut text = String::new(alloc);
    push_climbs(&mut text, above)?;
    percent_encode(below, ESCAPED).append_to(&mut text)?;
    Ok(text)
}
