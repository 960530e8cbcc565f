//! Values at the front of a text (HTML Standard, section 13.2.5.35).
ghost use Rattle.std.specs.Prelude.{◌≡◌, true, false, ◌∷◌, ◌≤◌, length, MatchOption};
ghost use Rattle.html_links.specs.Pieces.{is_white, is_quote};
ghost use Rattle.page_links.specs.Places.{IsCut};

use crate::bytes::{is_quote, is_white, split_at_byte, split_bare};

/// A text cut at the value at its front: its quote if it has one, the value as it is written, and what ends it.
#[derive(Clone, Copy)]
pub(crate) struct Cut<'a> {
    pub(crate) quote: &'a [u8],
    pub(crate) value: &'a [u8],
    pub(crate) end: &'a [u8],
}

/// A text cut at the value at its front; nothing, if it begins with white, or its end cuts the value.
pub(crate) fn cut_value(text: &[u8]) -> Option<Cut<'_>>
    ensures { MatchOption result (Unit {0}) (λ cut. IsCut text.now cut.quote.now cut.value.now cut.end.now) }
{
    match text {
        [first, others @ ..] => {
            if is_quote(*first) {
                cut_quoted(text, *first, others)
            } else if is_white(*first) {
                None
            } else {
                cut_bare(text, *first, others)
            }
        },
        [] => None,
    }
}

fn cut_quoted<'a>(text: &'a [u8], quote: u8, others: &'a [u8]) -> Option<Cut<'a>>
    requires text { text.now ≡ quote ∷ others.now }
    requires quote { is_quote quote ≡ true }
    ensures { MatchOption result (Unit {0}) (λ cut. IsCut text.now cut.quote.now cut.value.now cut.end.now) }
{
    let (opening, _) = text.split_at(1);
    let (value, end) = split_at_byte(quote, others);
    if end.is_empty() {
        return None;
    }
    Some(Cut {
        quote: opening,
        value,
        end,
    })
}

fn cut_bare<'a>(text: &'a [u8], first: u8, others: &'a [u8]) -> Option<Cut<'a>>
    requires text { text.now ≡ first ∷ others.now }
    requires quote { is_quote first ≡ false }
    requires white { is_white first ≡ false }
    ensures { MatchOption result (Unit {0}) (λ cut. IsCut text.now cut.quote.now cut.value.now cut.end.now) }
{
    let (value, end) = split_bare(text);
    if end.is_empty() {
        return None;
    }
    Some(Cut {
        quote: &[],
        value,
        end,
    })
}
