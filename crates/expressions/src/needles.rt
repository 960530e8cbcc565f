//! Texts of which an expression needs one: without any of them nothing is looked for.
ghost use Rattle.std.specs.Prelude.{◌≡◌, ℕ, ◌<◌, true, length};
ghost use Rattle.regex_extract.specs.Needles.{needles_of};
ghost use Rattle.regex_literal.specs.Find.{OccursAt, needle_at};
ghost use Rattle.expressions.specs.inner.Needles.{needle_lists, MayHave};

use memchr::memmem;
use regex_extract::Needles;

// Whether the needle is in the text.
fn has(needle: &[u8], text: &[u8]) -> bool
    ensures { (k : ℕ) → OccursAt text.now needle.now k → result ≡ true }
{
    match memmem::find(text, needle) {
        Some(_) => true,
        None => false,
    }
}

// Whether one of the needles is in the text.
fn has_some(needles: &[Vec<u8>], text: &[u8]) -> bool
    ensures { (n k : ℕ) → n < length needles.now → OccursAt text.now (needle_at (needle_lists needles.now) n) k → result ≡ true }
{
    for needle in needles {
        if has(needle, text) {
            return true;
        }
    }
    false
}

/// Whether an expression that needs one of these, if it does, may be found in the text.
pub(crate) fn may_have(needles: &Option<Needles>, text: &[u8]) -> bool
    ensures { MayHave needles.now text.now result }
{
    match needles {
        Some(needles) => has_some(needles.as_slice(), text),
        None => true,
    }
}
