//! Classes of bytes, and searches for the byte that ends a part of the markup (HTML Standard, section 13.2.5).
ghost use Rattle.std.specs.Prelude.{◌≡◌, ◌≤◌, length};
ghost use Rattle.html_links.specs.Pieces.{until, from, is, is_white, ends_tag_name, ends_attribute_name, ends_bare_value, is_quote};
ghost use Rattle.std.specs.Str.{bytes_eq};
ghost use Rattle.html_links.specs.References.{ends_name};
ghost use Rattle.html_links.specs.inner.Spans.{ends_span};

use memchr::memchr;

/// Whether two names are the same. Most that are compared differ in length, which takes no call to see.
#[inline(always)]
#[tactic(auto, using(crate::proofs::Names::lengths_differ))]
pub(crate) fn is_name(name: &[u8], other: &[u8]) -> bool
    ensures { result ≡ bytes_eq name.now other.now }
{
    name.len() == other.len() && name == other
}

pub(crate) fn is_white(byte: u8) -> bool
    ensures { result ≡ is_white byte }
{
    byte == b'\t' || byte == b'\n' || byte == 0x0c || byte == b'\r' || byte == b' '
}

pub(crate) fn ends_tag_name(byte: u8) -> bool
    ensures { result ≡ ends_tag_name byte }
{
    is_white(byte) || byte == b'/' || byte == b'>'
}

pub(crate) fn ends_attribute_name(byte: u8) -> bool
    ensures { result ≡ ends_attribute_name byte }
{
    ends_tag_name(byte) || byte == b'='
}

pub(crate) fn ends_bare_value(byte: u8) -> bool
    ensures { result ≡ ends_bare_value byte }
{
    is_white(byte) || byte == b'>'
}

/// Whether a byte ends the name in a character reference: any but a letter or a digit.
fn ends_name(byte: u8) -> bool
    ensures { result ≡ ends_name byte }
{
    !byte.is_ascii_alphanumeric()
}

pub(crate) fn is_quote(byte: u8) -> bool
    ensures { result ≡ is_quote byte }
{
    byte == b'"' || byte == b'\''
}

/// A part of a tag or a character reference that a class of bytes ends.
#[derive(Clone, Copy)]
pub(crate) enum TagSpan {
    TagName,
    AttributeName,
    BareValue,
    ReferenceName,
}

impl TagSpan {
    fn ends_at(self, byte: u8) -> bool
        ensures { result ≡ ends_span self byte }
    {
        match self {
            TagSpan::TagName => ends_tag_name(byte),
            TagSpan::AttributeName => ends_attribute_name(byte),
            TagSpan::BareValue => ends_bare_value(byte),
            TagSpan::ReferenceName => ends_name(byte),
        }
    }

    /// A text cut before the first byte that ends the part; whole, if there is none.
    pub(crate) fn split(self, text: &[u8]) -> (&[u8], &[u8])
        ensures front { result.0.now ≡ until (ends_span self) text.now }
        ensures left { result.1.now ≡ from (ends_span self) text.now }
        ensures shorter { length result.1.now ≤ length text.now }
    {
        for (i, byte) in text.iter().enumerate() {
            if self.ends_at(*byte) {
                return text.split_at(i);
            }
        }
        (text, &[])
    }
}

/// A text cut before the first such byte; whole, if there is none.
pub(crate) fn split_at_byte(byte: u8, text: &[u8]) -> (&[u8], &[u8])
    ensures front { result.0.now ≡ until (is byte) text.now }
    ensures left { result.1.now ≡ from (is byte) text.now }
    ensures shorter { length result.1.now ≤ length text.now }
{
    match memchr(byte, text) {
        Some(at) => text.split_at(at),
        None => (text, &[]),
    }
}

/// A text from the first such byte on; nothing, if there is none.
pub(crate) fn from_byte(byte: u8, text: &[u8]) -> &[u8]
    ensures left { result.now ≡ from (is byte) text.now }
    ensures shorter { length result.now ≤ length text.now }
{
    split_at_byte(byte, text).1
}
