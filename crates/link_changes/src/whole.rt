//! Texts of links with a scheme and a host of their own (RFC 3986, section 4.3).
ghost use Rattle.std.specs.Prelude.{◌≡◌};
ghost use Rattle.link_changes.specs.Leading.{begins_as, is_whole};

/// Whether these bytes are at the front of a text, its letters in any case.
fn begins_as(front: &[u8], text: &[u8]) -> bool
    ensures { result ≡ begins_as front.now text.now }
{
    let mut left = front;
    let mut rest = text;
    while let Some((expected, more)) = left.split_first() {
        let Some((byte, others)) = rest.split_first() else {
            return false;
        };
        if byte.to_ascii_lowercase() != *expected {
            return false;
        }
        left = more;
        rest = others;
    }
    true
}

/// Whether a text has a scheme and a host of its own.
pub(crate) fn is_whole(text: &[u8]) -> bool
    ensures { result ≡ is_whole text.now }
{
    begins_as(b"http://", text) || begins_as(b"https://", text)
}
