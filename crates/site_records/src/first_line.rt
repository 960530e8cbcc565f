//! The front of a record's text: its first line, and bytes whose number is known.
ghost use Rattle.std.specs.Prelude.{◌≡◌, ◌==◌, ℕ, List, MatchOption, Some, slice_get};
ghost use Rattle.std.specs.List.{position};
ghost use Rattle.std.specs.Str.{IsUtf8};
ghost use Rattle.site_records.specs.Entries.{IsLine, HasBytes};

use std::str;

// The place of the first line feed.
fn first_line_feed(text: &[u8]) -> Option<usize>
    ensures { result ≡ position (λ b. b == 10) text.now }
{
    text.iter().position(|b| *b == b'\n')
}

// The first line without its line feed, and what follows that.
pub(crate) fn first_line(text: &[u8]) -> Option<(&[u8], &[u8])>
    ensures { MatchOption result ((line : List ℕ) (behind : List ℕ) → ¬ IsLine text.now line behind) (λ parts. IsLine text.now parts.0.now parts.1.now) }
{
    let end = first_line_feed(text)?;
    Some((&text[..end], &text[end + 1..]))
}

// The same if the first line is UTF-8.
pub(crate) fn first_text_line(text: &[u8]) -> Option<(&str, &[u8])>
    ensures { MatchOption result ((line : List ℕ) (behind : List ℕ) → IsLine text.now line behind → ¬ IsUtf8 line) (λ parts. IsLine text.now parts.0.now parts.1.now × IsUtf8 parts.0.now) }
{
    let Some((line, behind)) = first_line(text) else {
        return None;
    };
    match str::from_utf8(line) {
        Ok(line) => Some((line, behind)),
        Err(_) => None,
    }
}

// This many bytes, and what is after the line feed that follows them.
pub(crate) fn counted(text: &[u8], count: usize) -> Option<(&[u8], &[u8])>
    ensures { MatchOption result (¬ (slice_get text.now count ≡ Some 10)) (λ parts. HasBytes text.now count parts.0.now parts.1.now) }
{
    if count < text.len() && text[count] == b'\n' {
        return Some((&text[..count], &text[count + 1..]));
    }
    None
}
