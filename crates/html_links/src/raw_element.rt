//! Elements whose content is text: raw text and escapable raw text (HTML Standard, sections 13.1.2 and 13.1.2.6; for
//! `xmp` section 13.2.6.4.7).
ghost use Rattle.std.specs.Prelude.{◌≡◌, false, MatchOption};
ghost use Rattle.html_links.specs.Markup.{is_raw, closing_text};
ghost use Rattle.html_links.specs.Lexing.{raw_name};

use crate::bytes::is_name;

/// An element whose content is text up to its end tag.
#[derive(Clone, Copy)]
pub(crate) enum RawElement {
    Script,
    Style,
    Title,
    Textarea,
    Xmp,
}

impl RawElement {
    /// The element of that name in lower case.
    pub(crate) fn named(name: &[u8]) -> Option<RawElement>
        ensures { MatchOption result (is_raw name.now ≡ false) (λ e. name.now ≡ raw_name e) }
    {
        // One by one, as the proof of a match over texts is several times as long.
        if is_name(name, b"script") {
            Some(RawElement::Script)
        } else if is_name(name, b"style") {
            Some(RawElement::Style)
        } else if is_name(name, b"title") {
            Some(RawElement::Title)
        } else if is_name(name, b"textarea") {
            Some(RawElement::Textarea)
        } else if is_name(name, b"xmp") {
            Some(RawElement::Xmp)
        } else {
            None
        }
    }

    /// The front of the tag that ends the element's text.
    pub(crate) fn closing(self) -> &'static [u8]
        ensures { result.now ≡ closing_text (raw_name self) }
    {
        match self {
            RawElement::Script => b"</script",
            RawElement::Style => b"</style",
            RawElement::Title => b"</title",
            RawElement::Textarea => b"</textarea",
            RawElement::Xmp => b"</xmp",
        }
    }
}
