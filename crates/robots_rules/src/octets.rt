//! Paths and patterns in normal form, octet by octet.
ghost use Rattle.std.specs.Prelude.{◌≡◌, ◌++◌, ◌∷◌, [], ℕ, Bool, List, ◌<◌, ◌≤◌, length, take, IfSome, IfNone, ◌↔◌, IsTrue};
ghost use Rattle.robots_rules.specs.inner.NormalTextView.{octets_of_text};
ghost use Rattle.robots_rules.specs.Octets.{normal, normal_path, escape_if, is_unreserved, is_escaped};
ghost use Rattle.robots_rules.specs.inner.Octets.{SplitsEscape};

use part_match::Text;
use percent_encoding::percent_encode_byte;

/// A path or a pattern in normal form: `ready`, and then the normal form of `rest`.
#[derive(Clone, Copy)]
pub(crate) struct NormalText<'a> {
    ready: &'a [u8],
    rest: &'a [u8],
    in_path: bool,
}

impl<'a> NormalText<'a> {
    ghost use Rattle.std.specs.Prelude.{◌≡◌, ◌↔◌, [], true, false, IsTrue};
    ghost use Rattle.robots_rules.specs.Octets.{normal_path, normal_pattern};
    ghost use Rattle.robots_rules.specs.inner.NormalTextView.{octets_of_text};

    pub(crate) fn path(path: &'a str) -> Self
        ensures { octets_of_text result ≡ normal_path path.now }
    {
        NormalText {
            ready: &[],
            rest: path.as_bytes(),
            in_path: true,
        }
    }

    pub(crate) fn pattern(pattern: &'a [u8]) -> Self
        ensures { octets_of_text result ≡ normal_pattern pattern.now }
    {
        NormalText {
            ready: &[],
            rest: pattern,
            in_path: false,
        }
    }

    pub(crate) fn is_empty(&self) -> bool
        ensures { IsTrue result ↔ (octets_of_text self.now ≡ []) }
    {
        match self.split_first() {
            Some(_) => false,
            None => true,
        }
    }
}

impl Text for NormalText<'_> {
    ghost use Rattle.robots_rules.specs.inner.NormalTextView.{octets_of_text};

    ghost octets = { octets_of_text };

    fn split_first(self) -> Option<(u8, Self)> {
        if let [first, ready @ ..] = self.ready {
            return Some((*first, NormalText { ready, ..self }));
        }
        if let Some((octet, rest)) = split_escape(self.rest) {
            return Some(first_of(octet, !is_unreserved(octet), rest, self.in_path));
        }
        let (&octet, rest) = self.rest.split_first()?;
        Some(first_of(octet, is_escaped(self.in_path, octet), rest, self.in_path))
    }
}

/// The octet that the escape at the front names, and what follows it.
pub(crate) fn split_escape(text: &[u8]) -> Option<(u8, &[u8])>
    ensures { (must_escape : ℕ → Bool) → SplitsEscape must_escape text.now result }
{
    let [b'%', high, low, rest @ ..] = text else {
        return None;
    };
    let high = char::from(*high).to_digit(16)?;
    let low = char::from(*low).to_digit(16)?;
    Some((high as u8 * 0x10 + low as u8, rest))
}

/// The first octet of the normal form of the octet, and what follows with the rest.
#[tactic(auto, unfolding(percent_encoding::specs::Percent::percent_encode_byte))]
fn first_of(octet: u8, is_escaped: bool, rest: &[u8], in_path: bool) -> (u8, NormalText<'_>)
    ensures octets { (m : ℕ → Bool) → escape_if is_escaped octet ++ normal m rest.now
        ≡ result.0 ∷ (result.1.ready.now ++ normal m result.1.rest.now) }
    ensures kind { result.1.in_path ≡ in_path }
{
    if is_escaped {
        let escape = percent_encode_byte(octet).as_bytes();
        (
            escape[0],
            NormalText {
                ready: &escape[1..],
                rest,
                in_path,
            },
        )
    } else {
        (
            octet,
            NormalText {
                ready: &[],
                rest,
                in_path,
            },
        )
    }
}

pub(crate) fn is_unreserved(octet: u8) -> bool
    ensures { result ≡ is_unreserved octet }
{
    octet.is_ascii_alphanumeric()
        || octet == b'-'
        || octet == b'.'
        || octet == b'_'
        || octet == b'~'
}

fn is_escaped(in_path: bool, octet: u8) -> bool
    ensures { result ≡ is_escaped in_path octet }
{
    octet >= 128 || octet == b'$' || in_path && octet == b'*'
}

/// The front of a path that is in normal form as it is, and what follows it.
pub(crate) fn split_normal(path: &str) -> (&[u8], NormalText<'_>)
    ensures { normal_path path.now ≡ result.0.now ++ octets_of_text result.1 }
{
    let bytes = path.as_bytes();
    let mut len = 0;
    let mut rest = NormalText::path(path);
    while len < bytes.len() {
        let Some((octet, behind)) = rest.split_first() else {
            break;
        };
        if octet != bytes[len] {
            break;
        }
        len += 1;
        rest = behind;
    }
    (&bytes[..len], rest)
}

/// Writes a path in normal form into the buffer and gives its length, or `None` if it is longer than the buffer.
pub(crate) fn write_path(buffer: &mut [u8], path: &str) -> Option<usize>
    ensures written { IfSome result (λ len. (len ≤ length buffer.new) × (take len buffer.new ≡ normal_path path.now)) }
    ensures longer { IfNone result (length buffer.old < length (normal_path path.now)) }
{
    let mut rest = NormalText::path(path);
    let mut len = 0;
    while let Some((octet, behind)) = rest.split_first() {
        if len == buffer.len() {
            return None;
        }
        buffer[len] = octet;
        len += 1;
        rest = behind;
    }
    Some(len)
}
