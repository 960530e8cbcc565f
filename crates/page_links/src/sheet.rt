//! Texts of `style` elements (HTML Standard, section 13.2.5.3 and on).
ghost use Rattle.std.specs.Prelude.{◌≡◌, true, false, ◌++◌, drop, length, MatchOption};
ghost use Rattle.html_links.specs.Pieces.{lower, ends_tag_name};
ghost use Rattle.html_links.specs.Pieces as pieces;
ghost use Rattle.html_links.specs.Markup.{style, is_close, ends_here, raw_text};
ghost use Rattle.page_links.specs.Places.{IsSheetText};

use crate::bytes::is_white;

fn ends_tag_name(byte: u8) -> bool
    ensures { result ≡ ends_tag_name byte }
{
    is_white(byte) || byte == b'/' || byte == b'>'
}

/// Whether a byte that ends a tag's name is at the front.
fn ends_here(text: &[u8]) -> bool
    ensures { result ≡ ends_here text.now }
{
    match text {
        [first, ..] => ends_tag_name(*first),
        [] => false,
    }
}

/// What follows these bytes at the front of a text, in any case.
fn behind_front<'a>(front: &[u8], text: &'a [u8]) -> Option<&'a [u8]>
    ensures { MatchOption result (pieces.begins front.now (lower text.now) ≡ false) (λ rest. (pieces.begins front.now (lower text.now) ≡ true) × (rest.now ≡ drop (length front.now) text.now)) }
{
    let mut left = front;
    let mut rest = text;
    while let [expected, more @ ..] = left {
        let [byte, others @ ..] = rest else {
            return None;
        };
        if byte.to_ascii_lowercase() != *expected {
            return None;
        }
        left = more;
        rest = others;
    }
    Some(rest)
}

/// Whether the end tag of a `style` element is at the front.
fn is_close(text: &[u8]) -> bool
    ensures { result ≡ is_close style text.now }
{
    match behind_front(b"</style", text) {
        Some(rest) => ends_here(rest),
        None => false,
    }
}

/// A text cut before the end of its `style` element.
pub(crate) fn split_sheet(text: &[u8]) -> (&[u8], &[u8])
    ensures bytes { text.now ≡ result.0.now ++ result.1.now }
    ensures sheet { result.0.now ≡ raw_text style text.now }
{
    for (i, _) in text.iter().enumerate() {
        if is_close(&text[i..]) {
            return text.split_at(i);
        }
    }
    (text, &[])
}

/// Whether another text may be there in place of that of a `style` element.
pub(crate) fn fits(text: &[u8], sheet: &[u8], end: &[u8]) -> bool
    requires { IsSheetText sheet.now end.now }
    ensures { result ≡ true → IsSheetText text.now end.now }
{
    split_sheet(text).1.is_empty()
}
