//! How patterns are written (GNU Wget manual, section Types of Files).
ghost use Rattle.std.specs.Prelude.{◌≡◌, ◌≤◌, ◌∷◌, map, length, Some, IfOk, IfSome, ◌<◌, None, is_some, position, MatchOption, MatchResult};
ghost use Rattle.follow_filters.specs.Elements.{IsFaultOf};
ghost use Rattle.follow_filters.specs.declared.pattern.PatternPart.TheVariants as part;
ghost use Rattle.follow_filters.specs.Patterns.{is_end, first_part, parts_spelled, read_pattern};

use crate::class::Class;
use crate::elements::ElementFault;
use crate::pattern::PatternPart;
use crate::wildcards::has_wildcard;
use std::alloc::{AllocError, Global};

/// The parts of an element: those that it spells, or if none of its bytes is a wildcard, any run and its bytes.
pub(crate) fn read_parts(alloc: Global, element: &[u8]) -> Result<Vec<PatternPart>, ElementFault>
    ensures { MatchResult result (λ v. read_pattern element.now ≡ Some v.items) (IsFaultOf (read_pattern element.now)) }
{
    if has_wildcard(element) {
        spelled_parts(alloc, element)
    } else {
        Ok(suffix_parts(alloc, element)?)
    }
}

// The parts of a suffix.
fn suffix_parts(alloc: Global, suffix: &[u8]) -> Result<Vec<PatternPart>, AllocError>
    ensures { IfOk result (λ v. v.items ≡ part.Run ∷ map (λ b. part.Byte b) suffix.now) }
{
    let mut parts = Vec::new(alloc);
    parts.push(PatternPart::Run)?;
    for byte in suffix {
        parts.push(PatternPart::Byte(*byte))?;
    }
    Ok(parts)
}

/// The parts that a text spells.
pub(crate) fn spelled_parts(alloc: Global, text: &[u8]) -> Result<Vec<PatternPart>, ElementFault>
    ensures { MatchResult result (λ v. parts_spelled text.now ≡ Some v.items) (IsFaultOf (parts_spelled text.now)) }
{
    let mut parts = Vec::new(alloc);
    let mut rest = text;
    while let Some((first, behind)) = rest.split_first() {
        let (part, after) = split_part(alloc, *first, behind)?;
        parts.push(part)?;
        rest = after;
    }
    Ok(parts)
}

// The part that a byte and the text after it begin with, and what follows that part.
fn split_part<'a>(
    alloc: Global,
    first: u8,
    text: &'a [u8],
) -> Result<(PatternPart, &'a [u8]), ElementFault>
    ensures { MatchResult result (λ x. (first_part first text.now ≡ Some (x.0, x.1.now)) × (length x.1.now ≤ length text.now))
        (IsFaultOf (first_part first text.now)) }
{
    if first != b'[' {
        return Ok((PatternPart::of(first), text));
    }
    match class_end(text) {
        Some(end) => {
            let class = Class::read(alloc, &text[..end])?;
            Ok((PatternPart::Class(class), &text[end + 1..]))
        }
        None => Err(ElementFault::Bad),
    }
}

/// Whether a text spells parts. Takes no memory.
pub(crate) fn is_spelled(text: &[u8]) -> bool
    ensures { result ≡ is_some (parts_spelled text.now) }
{
    let mut rest = text;
    while let Some((first, behind)) = rest.split_first() {
        let Some(after) = after_part(*first, behind) else {
            return false;
        };
        rest = after;
    }
    true
}

// What is after the part with which a byte and the text after it begin, if they begin with one.
fn after_part(first: u8, text: &[u8]) -> Option<&[u8]>
    ensures { MatchOption result (first_part first text.now ≡ None)
        (λ after. (part : _) × (first_part first text.now ≡ Some (part, after.now)) × (length after.now ≤ length text.now)) }
{
    if first != b'[' {
        return Some(text);
    }
    let end = class_end(text)?;
    if !Class::is_spelled(&text[..end]) {
        return None;
    }
    Some(&text[end + 1..])
}

// The place of the first `]`.
fn class_end(text: &[u8]) -> Option<usize>
    ensures place { result ≡ position is_end text.now }
    ensures within { IfSome result (λ end. end < length text.now) }
{
    text.iter().position(|byte| *byte == b']')
}
