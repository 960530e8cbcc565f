//! Fields of a map's line, which are between single spaces.
ghost use Rattle.std.specs.Prelude.{◌≡◌, ℕ, List, MatchOption};
ghost use Rattle.site_maps.specs.Lines.{three_digits, IsBehind};

// What follows the word that a text begins with: nothing, or a space and more.
pub(crate) fn behind_word<'a>(text: &'a str, word: &str) -> Option<&'a str>
    ensures { MatchOption result ((rest : List ℕ) → ¬ IsBehind text.now word.now rest) (λ rest. IsBehind text.now word.now rest.now) }
{
    let rest = text.strip_prefix(word)?;
    if rest.is_empty() || rest.starts_with(' ') {
        return Some(rest);
    }
    None
}

// The value of three decimal digits; other texts have none.
pub(crate) fn three_digits(text: &str) -> Option<u16>
    ensures { result ≡ three_digits text.now }
{
    match text.as_bytes() {
        [a, b, c] if a.is_ascii_digit() && b.is_ascii_digit() && c.is_ascii_digit() => {
            Some(100 * u16::from(*a - b'0') + 10 * u16::from(*b - b'0') + u16::from(*c - b'0'))
        }
        _ => None,
    }
}
