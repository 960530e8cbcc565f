//! Places in a source set (HTML Standard, section 4.8.4.3.10).
ghost use Rattle.std.specs.Prelude.{◌≡◌};
ghost use Rattle.source_sets.specs.Sets.{is_white, turn};

/// Where in the set the next byte is.
#[derive(Clone, Copy)]
pub(crate) enum SetPlace {
    /// Before a candidate: white and commas.
    Before,
    /// In a URL.
    Url,
    /// In a URL, after commas that may end it.
    Commas,
    /// In the descriptors of a candidate.
    Descriptors,
    /// There, in parentheses.
    Parentheses,
}

/// What a byte does in its place.
#[derive(Clone, Copy)]
pub(crate) enum SetTurn {
    /// It leads to that place, outside of URLs.
    At(SetPlace),
    /// A URL begins with it.
    First,
    /// The URL goes on with it.
    With,
    /// It is a comma that may end the URL.
    Comma,
    /// It ends the URL, and leads to that place.
    End(SetPlace),
}

pub(crate) fn is_white(byte: u8) -> bool
    ensures { result ≡ is_white byte }
{
    byte == b'\t' || byte == b'\n' || byte == 0x0c || byte == b'\r' || byte == b' '
}

/// What a byte does in a place.
pub(crate) fn turn_at(place: SetPlace, byte: u8) -> SetTurn
    ensures { result ≡ turn place byte }
{
    match place {
        SetPlace::Before => before(byte),
        SetPlace::Url => url(byte),
        SetPlace::Commas => commas(byte),
        SetPlace::Descriptors => descriptors(byte),
        SetPlace::Parentheses => parentheses(byte),
    }
}

ghost use Rattle.source_sets.specs.Sets as sets;

fn before(byte: u8) -> SetTurn
    ensures { result ≡ sets.before byte }
{
    if is_white(byte) || byte == b',' {
        SetTurn::At(SetPlace::Before)
    } else {
        SetTurn::First
    }
}

fn url(byte: u8) -> SetTurn
    ensures { result ≡ sets.url byte }
{
    if is_white(byte) {
        SetTurn::End(SetPlace::Descriptors)
    } else if byte == b',' {
        SetTurn::Comma
    } else {
        SetTurn::With
    }
}

fn commas(byte: u8) -> SetTurn
    ensures { result ≡ sets.commas byte }
{
    if is_white(byte) {
        SetTurn::End(SetPlace::Before)
    } else if byte == b',' {
        SetTurn::Comma
    } else {
        SetTurn::With
    }
}

fn descriptors(byte: u8) -> SetTurn
    ensures { result ≡ sets.descriptors byte }
{
    if byte == b',' {
        SetTurn::At(SetPlace::Before)
    } else if byte == b'(' {
        SetTurn::At(SetPlace::Parentheses)
    } else {
        SetTurn::At(SetPlace::Descriptors)
    }
}

fn parentheses(byte: u8) -> SetTurn
    ensures { result ≡ sets.parentheses byte }
{
    if byte == b')' {
        SetTurn::At(SetPlace::Descriptors)
    } else {
        SetTurn::At(SetPlace::Parentheses)
    }
}
