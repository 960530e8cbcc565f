//! Fragments, and references to parts of the own document (RFC 3986, sections 3.5 and 4.4).
ghost use Rattle.std.specs.Prelude.{◌≡◌, ◌++◌, OnOk, string_bytes};
ghost use Rattle.link_changes.specs.Leading.{from_mark, fragment_of, is_own, begins_mark};

use memchr::memchr;
use percent_encoding::{AsciiSet, CONTROLS, ascii_set, percent_encode};
use std::alloc::AllocError;

/// What is escaped of a fragment: the URL Standard's fragment percent-encode set (section 1.3).
pub(crate) const FRAGMENT: AsciiSet = ascii_set!(
    CONTROLS.add(b' ').add(b'"').add(b'<').add(b'>').add(b'`')
);

// A text from its first `#` on; nothing, if there is none.
fn from_mark(text: &[u8]) -> &[u8]
    ensures { result.now ≡ from_mark text.now }
{
    match memchr(b'#', text) {
        Some(at) => &text[at..],
        None => &[],
    }
}

/// Puts down the fragment of a link, with its `#`; nothing, if it has none. The error is out of memory.
#[tactic(auto, unfolding(crate::specs::Leading::fragment_of))]
pub(crate) fn push_fragment(out: &mut String, text: &str) -> Result<(), AllocError>
    ensures { OnOk result (string_bytes out.new ≡ string_bytes out.old ++ fragment_of text.now) }
{
    percent_encode(from_mark(text.as_bytes()), FRAGMENT).append_to(out)
}

/// Whether a text begins with `#`.
pub(crate) fn begins_mark(text: &[u8]) -> bool
    ensures { result ≡ begins_mark text.now }
{
    matches!(text, [b'#', ..])
}

/// Whether a text names the own document or a part of it: it is empty or begins with `#`.
pub(crate) fn is_own(text: &[u8]) -> bool
    ensures { result ≡ is_own text.now }
{
    matches!(text, [] | [b'#', ..])
}
