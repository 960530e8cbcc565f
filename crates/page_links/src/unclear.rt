//! Values and texts of which it isn't known what they say: with a character reference that isn't understood, or bytes that aren't UTF-8.
ghost use Rattle.std.specs.Prelude.{◌≡◌, ◌≤◌, false, length};
ghost use Rattle.page_links.specs.Unclear.{ends_name, begins_number, is_reference, has_reference, is_replacement, has_replacement, is_unclear};

use html_links::{OutOfMemory, value_text};
use memchr::memchr;
use std::alloc::Global;

/// Whether letters or digits are at the front of a text, and then `;`.
fn begins_name(text: &[u8]) -> bool
    ensures { result ≡ ends_name false text.now }
{
    let mut some = false;
    let mut rest = text;
    while let Some((first, others)) = rest.split_first() {
        if !first.is_ascii_alphanumeric() {
            return some && *first == b';';
        }
        some = true;
        rest = others;
    }
    false
}

/// Whether a number is at the front of a text, decimal or hexadecimal.
fn begins_number(text: &[u8]) -> bool
    ensures { result ≡ begins_number text.now }
{
    match text.split_first() {
        Some((first, _)) => first.is_ascii_digit() || *first == b'x' || *first == b'X',
        None => false,
    }
}

/// Whether a text goes on after an `&` as a character reference does.
fn is_reference(text: &[u8]) -> bool
    ensures { result ≡ is_reference text.now }
{
    match text.split_first() {
        Some((b'#', others)) => begins_number(others),
        _ => begins_name(text),
    }
}

/// Whether a character reference is left in a text, which wasn't understood.
fn has_reference(text: &[u8]) -> bool
    ensures { result ≡ has_reference text.now }
{
    let mut rest = text;
    while let Some((first, others)) = rest.split_first() {
        if *first == b'&' && is_reference(others) {
            return true;
        }
        rest = others;
    }
    false
}

/// Whether U+FFFD begins with that byte.
fn is_replacement(first: u8, others: &[u8]) -> bool
    ensures { result ≡ is_replacement first others.now }
{
    match others {
        [second, third, ..] => first == 0xef && *second == 0xbf && *third == 0xbd,
        _ => false,
    }
}

/// Whether U+FFFD is in a text, as for bytes that aren't UTF-8.
fn has_replacement(text: &[u8]) -> bool
    ensures { result ≡ has_replacement text.now }
{
    let mut rest = text;
    while let Some((first, others)) = rest.split_first() {
        if is_replacement(*first, others) {
            return true;
        }
        rest = others;
    }
    false
}

/// Whether it isn't known of a text that it is what is written.
pub(crate) fn is_unclear(text: &[u8]) -> bool
    ensures { result ≡ is_unclear text.now }
{
    has_reference(text) || has_replacement(text)
}

/// How many letters, digits and `#` are at the front of a text.
fn reference_len(text: &[u8]) -> usize
    ensures { result ≤ length text.now }
{
    for (i, byte) in text.iter().enumerate() {
        if *byte != b'#' && !byte.is_ascii_alphanumeric() {
            return i;
        }
    }
    text.len()
}

/// Whether a text that begins with an `&`, which these others follow, begins with a character reference by its looks that isn't read as one.
fn is_unread(alloc: Global, text: &[u8], others: &[u8]) -> Result<bool, OutOfMemory> {
    if !is_reference(others) {
        return Ok(false);
    }
    let part = match text.get(..2 + reference_len(others)) {
        Some(part) => part,
        None => text,
    };
    let read = value_text(alloc, part)?;
    Ok(read.as_bytes() == part)
}

/// Whether it isn't known what a value says.
///
/// # Errors
/// `OutOfMemory` if a growth is refused.
pub(crate) fn is_unclear_value(alloc: Global, value: &[u8]) -> Result<bool, OutOfMemory> {
    if std::str::from_utf8(value).is_err() {
        return Ok(true);
    }
    if memchr(b'&', value).is_none() {
        return Ok(false);
    }
    let mut rest = value;
    while let Some((first, others)) = rest.split_first() {
        if *first == b'&' && is_unread(alloc, rest, others)? {
            return Ok(true);
        }
        rest = others;
    }
    Ok(false)
}
