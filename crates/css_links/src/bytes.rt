//! Classes of bytes (CSS Syntax Level 3, section 4.2).
ghost use Rattle.std.specs.Prelude.{◌≡◌};
ghost use Rattle.css_links.specs.Bytes.{is_newline, is_white, is_quote, is_name, is_unfit, is_loud};

/// A line feed, form feed or carriage return.
pub(crate) fn is_newline(byte: u8) -> bool
    ensures { result ≡ is_newline byte }
{
    byte == b'\n' || byte == 0x0c || byte == b'\r'
}

/// A newline, tab or space.
pub(crate) fn is_white(byte: u8) -> bool
    ensures { result ≡ is_white byte }
{
    is_newline(byte) || byte == b'\t' || byte == b' '
}

pub(crate) fn is_quote(byte: u8) -> bool
    ensures { result ≡ is_quote byte }
{
    byte == b'"' || byte == b'\''
}

/// A byte of an ident code point.
pub(crate) fn is_name(byte: u8) -> bool
    ensures { result ≡ is_name byte }
{
    byte.is_ascii_alphanumeric() || byte == b'-' || byte == b'_' || byte == 0 || byte > 127
}

/// A byte that a URL without quotes can't have.
pub(crate) fn is_unfit(byte: u8) -> bool
    ensures { result ≡ is_unfit byte }
{
    is_quote(byte)
        || byte == b'('
        || byte == 127
        || byte == 0x0b
        || (byte > 0 && byte < 9)
        || (byte > 13 && byte < 32)
}

/// A byte that does more between tokens, outside of image sets, than begin, continue or end a word.
pub(crate) fn is_loud(byte: u8) -> bool
    ensures { result ≡ is_loud byte }
{
    is_quote(byte) || byte == b'(' || byte == b'/' || byte == b'@' || byte == b'\\'
}
