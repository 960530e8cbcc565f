//! Texts of links that begin with neither a scheme nor `/` (RFC 3986, section 4.2; URL Standard, section 4.4).
ghost use Rattle.std.specs.Prelude.{◌≡◌, ◌||◌, ◌==◌};
ghost use Rattle.html_links.specs.Rules.{is_passed, is_relative, is_scheme_byte, ends_scheme, without_passed};

/// Whether a link's text begins with neither a scheme nor `/`, as a reader of URLs has it: it passes over tabs, newlines and what is before
/// the first visible byte, and takes `\` for `/`.
#[tactic(auto, using(crate::proofs::Schemes::hidden, crate::proofs::Schemes::visible))]
pub(crate) fn is_relative(text: &[u8]) -> bool
    ensures { result ≡ is_relative text.now }
{
    let mut left = text;
    while let [first, others @ ..] = left {
        if *first > b' ' {
            return !is_slash(*first) && !(first.is_ascii_alphabetic() && ends_scheme(others));
        }
        left = others;
    }
    true
}

fn is_slash(byte: u8) -> bool
    ensures { result ≡ (byte == 47 || byte == 92) }
{
    byte == b'/' || byte == b'\\'
}

fn is_passed(byte: u8) -> bool
    ensures { result ≡ is_passed byte }
{
    byte == b'\t' || byte == b'\n' || byte == b'\r'
}

fn is_scheme_byte(byte: u8) -> bool
    ensures { result ≡ is_scheme_byte byte }
{
    byte.is_ascii_alphanumeric() || byte == b'+' || byte == b'-' || byte == b'.'
}

fn may_follow(byte: u8) -> bool
    ensures { result ≡ (is_scheme_byte byte || is_passed byte) }
{
    is_scheme_byte(byte) || is_passed(byte)
}

/// Whether what follows a letter is the rest of a scheme with its `:`, and maybe more.
#[tactic(auto, using(crate::proofs::Schemes::goes_on, crate::proofs::Schemes::ends, crate::proofs::Schemes::colon))]
fn ends_scheme(text: &[u8]) -> bool
    ensures { result ≡ ends_scheme (without_passed text.now) }
{
    for byte in text {
        if *byte == b':' {
            return true;
        }
        if !may_follow(*byte) {
            return false;
        }
    }
    false
}
