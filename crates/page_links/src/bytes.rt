//! Searches for the byte that ends a value (HTML Standard, sections 13.2.5.36 to 13.2.5.38).
ghost use Rattle.std.specs.Prelude.{◌≡◌, ◌≤◌, length};
ghost use Rattle.html_links.specs.Pieces.{until, from, is, is_white, ends_bare_value, is_quote};

use memchr::{memchr, memchr2};

pub(crate) fn is_white(byte: u8) -> bool
    ensures { result ≡ is_white byte }
{
    byte == b'\t' || byte == b'\n' || byte == 0x0c || byte == b'\r' || byte == b' '
}

pub(crate) fn is_quote(byte: u8) -> bool
    ensures { result ≡ is_quote byte }
{
    byte == b'"' || byte == b'\''
}

fn ends_bare_value(byte: u8) -> bool
    ensures { result ≡ ends_bare_value byte }
{
    is_white(byte) || byte == b'>'
}

/// A text cut before the first such byte; whole, if there is none.
pub(crate) fn split_at_byte(byte: u8, text: &[u8]) -> (&[u8], &[u8])
    ensures front { result.0.now ≡ until (is byte) text.now }
    ensures left { result.1.now ≡ from (is byte) text.now }
{
    match memchr(byte, text) {
        Some(at) => text.split_at(at),
        None => (text, &[]),
    }
}

/// A text cut before the first byte that ends a value without quotes; whole, if there is none.
pub(crate) fn split_bare(text: &[u8]) -> (&[u8], &[u8])
    ensures front { result.0.now ≡ until ends_bare_value text.now }
    ensures left { result.1.now ≡ from ends_bare_value text.now }
{
    for (i, byte) in text.iter().enumerate() {
        if ends_bare_value(*byte) {
            return text.split_at(i);
        }
    }
    (text, &[])
}

/// How many white bytes are at the front of a text.
fn white_len(text: &[u8]) -> usize
    ensures { result ≤ length text.now }
{
    for (i, byte) in text.iter().enumerate() {
        if !is_white(*byte) {
            return i;
        }
    }
    text.len()
}

/// How many bytes of a text can't have a value that is awaited after them: the white at its front, or else all up to the first `=` or `>`.
pub(crate) fn run_len(text: &[u8]) -> usize
    ensures some { 1 ≤ length text.now → 1 ≤ result }
    ensures within { result ≤ length text.now }
{
    match text {
        [first, others @ ..] if is_white(*first) => 1 + white_len(others),
        _ => match memchr2(b'=', b'>', text) {
            Some(at) => at + 1,
            None => text.len(),
        },
    }
}
