//! What a place is in, as far as a rewriter cares.
ghost use Rattle.std.specs.Prelude.{◌≡◌};
ghost use Rattle.css_links.specs.Rewriting.{part_zone, zone};

use crate::place::{Place, SheetPart};

/// What a place is in.
#[derive(Clone, Copy)]
pub(crate) enum Zone {
    /// In none of these.
    Outside,
    /// After `url(` and white.
    Begun,
    /// In a string between such quotes that may be a reference.
    Quoted(u8),
    /// In a URL without quotes.
    Unquoted,
    /// After such a URL and white.
    Ended,
}

fn part_zone(part: SheetPart) -> Zone
    ensures { result ≡ part_zone part }
{
    match part {
        SheetPart::Word(_) => Zone::Outside,
        SheetPart::Reference(quote) => Zone::Quoted(quote),
        SheetPart::Other(_) => Zone::Outside,
        SheetPart::Bare => Zone::Unquoted,
        SheetPart::Bad => Zone::Outside,
    }
}

/// What a place is in.
pub(crate) fn zone_of(place: Place) -> Zone
    ensures { result ≡ zone place }
{
    match place {
        Place::Between => Zone::Outside,
        Place::Slash => Zone::Outside,
        Place::Comment => Zone::Outside,
        Place::CommentStar => Zone::Outside,
        Place::Import => Zone::Outside,
        Place::ImportSlash => Zone::Outside,
        Place::ImportComment => Zone::Outside,
        Place::ImportCommentStar => Zone::Outside,
        Place::Inside(part) => part_zone(part),
        Place::Escaped(part, _) => part_zone(part),
        Place::UrlBegun => Zone::Begun,
        Place::UrlEnded => Zone::Ended,
    }
}
