//! The patterns of rules, with `*` and `$` (RFC 9309, section 2.2.3).
ghost use Rattle.std.specs.Prelude.{◌≡◌, IfOk, if◌then◌else◌};
ghost use Rattle.robots_rules.specs.Octets.{normal_pattern};
ghost use Rattle.robots_rules.specs.Patterns.{normal_of, ends_text, front};

use crate::octets::NormalText;
use part_match::Text;
use std::alloc::{AllocError, Global};

/// A pattern in normal form.
pub(crate) fn normal_of(alloc: Global, pattern: &[u8]) -> Result<Vec<u8>, AllocError>
    ensures { IfOk result (λ octets. octets.items ≡ normal_of pattern.now) }
{
    let (body, ends) = split_end(pattern);
    let mut octets = normal_pattern(alloc, body)?;
    if ends {
        octets.push(b'$')?;
    }
    Ok(octets)
}

/// The octets before a last `$`, and whether there is one.
fn split_end(pattern: &[u8]) -> (&[u8], bool)
    ensures body { result.0.now ≡ (if ends_text pattern.now then front pattern.now else pattern.now) }
    ensures ends { result.1 ≡ ends_text pattern.now }
{
    match pattern {
        [front @ .., b'$'] => (front, true),
        _ => (pattern, false),
    }
}

/// Whether the last octet is `$`, which means the end of the text.
pub(crate) fn ends_text(pattern: &[u8]) -> bool
    ensures { result ≡ ends_text pattern.now }
{
    matches!(pattern, [.., b'$'])
}

fn normal_pattern(alloc: Global, pattern: &[u8]) -> Result<Vec<u8>, AllocError>
    ensures { IfOk result (λ octets. octets.items ≡ normal_pattern pattern.now) }
{
    let mut octets = Vec::new(alloc);
    let mut rest = NormalText::pattern(pattern);
    while let Some((octet, behind)) = rest.split_first() {
        octets.push(octet)?;
        rest = behind;
    }
    Ok(octets)
}
