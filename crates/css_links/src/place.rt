//! Places in a style sheet (CSS Syntax Level 3, section 4.3).

/// What comes before a word.
#[derive(Clone, Copy)]
pub(crate) enum Lead {
    Nothing,
    Hash,
    At,
}

/// A part of a style sheet in which escapes are read.
#[derive(Clone, Copy)]
pub(crate) enum SheetPart {
    /// A word: a run of name bytes and escapes.
    Word(Lead),
    /// A string between such quotes that is a reference.
    Reference(u8),
    /// Any other string between such quotes.
    Other(u8),
    /// A URL without quotes.
    Bare,
    /// What is left of a bad URL.
    Bad,
}

/// Where in an escape the next byte is.
#[derive(Clone, Copy)]
pub(crate) enum Escape {
    /// After the backslash.
    Begun,
    /// After that many hexadecimal digits.
    Digits(u8),
    /// After a carriage return: a line feed belongs to it.
    Return,
}

/// Where in the sheet the next byte is.
#[derive(Clone, Copy)]
pub(crate) enum Place {
    /// Between words, strings, URLs and comments.
    Between,
    /// After a `/`.
    Slash,
    Comment,
    /// In a comment, after `*`.
    CommentStar,
    /// After `@import`, white and comments.
    Import,
    /// There, after a `/`.
    ImportSlash,
    ImportComment,
    ImportCommentStar,
    Inside(SheetPart),
    Escaped(SheetPart, Escape),
    /// After `url(` and white.
    UrlBegun,
    /// After a URL without quotes and white.
    UrlEnded,
}

/// What a byte does in its place.
#[derive(Clone, Copy)]
pub(crate) enum Turn {
    /// It leads to that place.
    At(Place),
    /// A text begins after it.
    Anew(Place),
    /// A text begins with it.
    First(Place),
    /// The text goes on with it.
    With(Place),
    /// It ends the text, which is a reference.
    Refer,
    /// A string between such quotes begins after it: a reference directly in an image set.
    Quote(u8),
    /// A string between such quotes begins after it that is a reference, in the function `url`.
    UrlQuote(u8),
    /// It opens a function or a parenthesis; whether that of an image set.
    Open(bool),
    /// It closes one.
    Close,
}
