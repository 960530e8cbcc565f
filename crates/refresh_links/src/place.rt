//! Places in the content of a refresh (HTML Standard, shared declarative refresh steps).
ghost use Rattle.std.specs.Prelude.{◌≡◌};
ghost use Rattle.refresh_links.specs.Refresh as refresh;

/// Where in the content the next byte is.
#[derive(Clone, Copy)]
pub(crate) enum ContentPlace {
    /// Before the time: white.
    Start,
    /// In the time.
    Time,
    /// After the time: white, and perhaps `;` or `,`.
    Behind,
    /// After that: white.
    Before,
    /// After `u`, which may be the URL's own.
    U,
    /// After `ur`.
    R,
    /// After `url` and white.
    L,
    /// After `url=` and white.
    Equals,
    /// In a URL without quotes.
    Url,
    /// In a URL between such quotes.
    Quoted(u8),
    /// After a URL in quotes.
    Done,
    /// In a content that is no refresh.
    Bad,
}

/// What a byte does in its place.
#[derive(Clone, Copy)]
pub(crate) enum ContentTurn {
    /// It leads to that place; what may have been a URL is none.
    At(ContentPlace),
    /// What may be a URL begins with it.
    First(ContentPlace),
    /// It goes on with it.
    With(ContentPlace),
    /// It is the quote that ends the URL.
    End,
}

pub(crate) fn is_white(byte: u8) -> bool
    ensures { result ≡ refresh.is_white byte }
{
    byte == b'\t' || byte == b'\n' || byte == 0x0c || byte == b'\r' || byte == b' '
}

fn is_quote(byte: u8) -> bool
    ensures { result ≡ refresh.is_quote byte }
{
    byte == b'"' || byte == b'\''
}

/// What a byte does in a place.
pub(crate) fn turn_at(place: ContentPlace, byte: u8) -> ContentTurn
    ensures { result ≡ refresh.turn place byte }
{
    match place {
        ContentPlace::Start => start(byte),
        ContentPlace::Time => time(byte),
        ContentPlace::Behind => behind(byte),
        ContentPlace::Before => before(byte),
        ContentPlace::U => u(byte),
        ContentPlace::R => r(byte),
        ContentPlace::L => l(byte),
        ContentPlace::Equals => equals(byte),
        ContentPlace::Url => ContentTurn::With(ContentPlace::Url),
        ContentPlace::Quoted(quote) => quoted(quote, byte),
        ContentPlace::Done => ContentTurn::At(ContentPlace::Done),
        ContentPlace::Bad => ContentTurn::At(ContentPlace::Bad),
    }
}

fn start(byte: u8) -> ContentTurn
    ensures { result ≡ refresh.start byte }
{
    if is_white(byte) {
        ContentTurn::At(ContentPlace::Start)
    } else if byte.is_ascii_digit() || byte == b'.' {
        ContentTurn::At(ContentPlace::Time)
    } else {
        ContentTurn::At(ContentPlace::Bad)
    }
}

fn time(byte: u8) -> ContentTurn
    ensures { result ≡ refresh.time byte }
{
    if byte.is_ascii_digit() || byte == b'.' {
        ContentTurn::At(ContentPlace::Time)
    } else if is_white(byte) {
        ContentTurn::At(ContentPlace::Behind)
    } else if byte == b';' || byte == b',' {
        ContentTurn::At(ContentPlace::Before)
    } else {
        ContentTurn::At(ContentPlace::Bad)
    }
}

fn behind(byte: u8) -> ContentTurn
    ensures { result ≡ refresh.behind byte }
{
    if is_white(byte) {
        ContentTurn::At(ContentPlace::Behind)
    } else if byte == b';' || byte == b',' {
        ContentTurn::At(ContentPlace::Before)
    } else {
        url_begins(byte)
    }
}

fn before(byte: u8) -> ContentTurn
    ensures { result ≡ refresh.before byte }
{
    if is_white(byte) {
        ContentTurn::At(ContentPlace::Before)
    } else {
        url_begins(byte)
    }
}

fn url_begins(byte: u8) -> ContentTurn
    ensures { result ≡ refresh.url_begins byte }
{
    if byte == b'u' || byte == b'U' {
        ContentTurn::First(ContentPlace::U)
    } else {
        quote_or_url(byte)
    }
}

fn quote_or_url(byte: u8) -> ContentTurn
    ensures { result ≡ refresh.quote_or_url byte }
{
    if is_quote(byte) {
        ContentTurn::At(ContentPlace::Quoted(byte))
    } else {
        ContentTurn::First(ContentPlace::Url)
    }
}

fn u(byte: u8) -> ContentTurn
    ensures { result ≡ refresh.u byte }
{
    if byte == b'r' || byte == b'R' {
        ContentTurn::With(ContentPlace::R)
    } else {
        ContentTurn::With(ContentPlace::Url)
    }
}

fn r(byte: u8) -> ContentTurn
    ensures { result ≡ refresh.r byte }
{
    if byte == b'l' || byte == b'L' {
        ContentTurn::With(ContentPlace::L)
    } else {
        ContentTurn::With(ContentPlace::Url)
    }
}

fn l(byte: u8) -> ContentTurn
    ensures { result ≡ refresh.l byte }
{
    if is_white(byte) {
        ContentTurn::With(ContentPlace::L)
    } else if byte == b'=' {
        ContentTurn::At(ContentPlace::Equals)
    } else {
        ContentTurn::With(ContentPlace::Url)
    }
}

fn equals(byte: u8) -> ContentTurn
    ensures { result ≡ refresh.equals byte }
{
    if is_white(byte) {
        ContentTurn::At(ContentPlace::Equals)
    } else {
        quote_or_url(byte)
    }
}

fn quoted(quote: u8, byte: u8) -> ContentTurn
    ensures { result ≡ refresh.quoted quote byte }
{
    if byte == quote {
        ContentTurn::End
    } else {
        ContentTurn::With(ContentPlace::Quoted(quote))
    }
}
