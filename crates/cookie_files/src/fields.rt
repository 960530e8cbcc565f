//! The fields of a line, and what they may be.
ghost use Rattle.std.specs.Prelude.{◌≡◌, ◌==◌, bytes_eq, codes, option_map, position};
ghost use Rattle.std.specs.List.{list_all, list_any};
ghost use Rattle.cookie_files.specs.Lines.{cut, fault_of, fields_of, is_bad, is_bad_in_name, is_bracketed, is_value, is_control, is_domain, is_expiry, is_flag, is_host, is_host_byte, is_name, is_path, is_port, number_in, place_in, place_of, port_number, without_dot};
ghost use Rattle.cookie_files.specs.inner.FieldsView.{fields_value};

use crate::fault::CookieLineFault;

/// A number is smaller than this before a digit is added to it.
const MAX_BEFORE: u64 = 1_000_000_000_000_000_000;

/// The fields of a line, as they are written.
#[derive(Clone, Copy)]
pub(crate) struct CookieFields<'a> {
    pub(crate) domain: &'a [u8],
    pub(crate) subdomains: &'a [u8],
    pub(crate) path: &'a [u8],
    pub(crate) secure: &'a [u8],
    pub(crate) expiry: &'a [u8],
    pub(crate) name: &'a [u8],
    pub(crate) value: &'a [u8],
}

// Where the first byte of this value is.
fn first(mark: u8, text: &[u8]) -> Option<usize>
    ensures { result ≡ position (λ byte. byte == mark) text.now }
{
    text.iter().position(|byte| *byte == mark)
}

/// What is before the first byte of this value, and what is after it.
#[tactic(auto, unfolding(crate::specs::Lines::cut))]
pub(crate) fn cut(mark: u8, text: &[u8]) -> Option<(&[u8], &[u8])>
    ensures { option_map (λ parts. (parts.0.now, parts.1.now)) result ≡ cut mark text.now }
{
    match first(mark, text) {
        Some(at) => Some((&text[..at], &text[at + 1..])),
        None => None,
    }
}

/// The fields of a line; the last has no end.
#[tactic(auto, unfolding(crate::specs::Lines::fields_of))]
pub(crate) fn fields_of(line: &[u8]) -> Option<CookieFields<'_>>
    ensures { option_map fields_value result ≡ fields_of line.now }
{
    let (domain, rest) = cut(b'\t', line)?;
    let (subdomains, rest) = cut(b'\t', rest)?;
    let (path, rest) = cut(b'\t', rest)?;
    let (secure, rest) = cut(b'\t', rest)?;
    let (expiry, rest) = cut(b'\t', rest)?;
    let (name, value) = cut(b'\t', rest)?;
    Some(CookieFields {
        domain,
        subdomains,
        path,
        secure,
        expiry,
        name,
        value,
    })
}

/// The number that a text is.
#[tactic(auto, unfolding(crate::specs::Lines::number_in))]
pub(crate) fn number_in(text: &[u8]) -> Option<u64>
    ensures { result ≡ number_in text.now }
{
    if text.is_empty() {
        return None;
    }
    let mut number: u64 = 0;
    let mut rest = text;
    while let [digit, after @ ..] = rest {
        if !digit.is_ascii_digit() || number >= MAX_BEFORE {
            return None;
        }
        number = 10 * number + (*digit - b'0') as u64;
        rest = after;
    }
    Some(number)
}

/// The number of a port that a text is.
#[tactic(auto, unfolding(crate::specs::Lines::port_number))]
pub(crate) fn port_number(text: &[u8]) -> Option<u16>
    ensures { result ≡ port_number text.now }
{
    match number_in(text) {
        Some(number) if number < 65_536 => Some(number as u16),
        _ => None,
    }
}

// Whether a host is written in brackets.
pub(crate) fn is_bracketed(text: &[u8]) -> bool
    ensures { result ≡ is_bracketed text.now }
{
    text.starts_with(b"[")
}

fn is_host_byte(byte: u8) -> bool
    ensures { result ≡ is_host_byte byte }
{
    byte.is_ascii_alphanumeric() || byte == b'-' || byte == b'.' || byte == b'_'
}

fn has_host_bytes(text: &[u8]) -> bool
    ensures { result ≡ list_all is_host_byte text.now }
{
    text.iter().all(|byte| is_host_byte(*byte))
}

// Whether a text is a host.
fn is_host(text: &[u8]) -> bool
    ensures { result ≡ is_host text.now }
{
    if is_bracketed(text) {
        return text.ends_with(b"]");
    }
    !text.is_empty() && has_host_bytes(text)
}

// The text without one leading dot.
fn without_dot(text: &[u8]) -> &[u8]
    ensures { result.now ≡ without_dot text.now }
{
    if text.starts_with(b".") {
        &text[1..]
    } else {
        text
    }
}

// The host of a domain without a leading dot, and its port if it has one.
#[tactic(auto, unfolding(crate::specs::Lines::place_of))]
fn place_of(text: &[u8]) -> (&[u8], Option<&[u8]>)
    ensures { (result.0.now, option_map (λ port. port.now) result.1) ≡ place_of text.now }
{
    if is_bracketed(text) {
        return (text, None);
    }
    match cut(b':', text) {
        Some((host, port)) => (host, Some(port)),
        None => (text, None),
    }
}

/// The host of a domain, and its port if it has one.
#[tactic(auto, unfolding(crate::specs::Lines::place_in))]
pub(crate) fn place_in(domain: &[u8]) -> (&[u8], Option<&[u8]>)
    ensures { (result.0.now, option_map (λ port. port.now) result.1) ≡ place_in domain.now }
{
    place_of(without_dot(domain))
}

fn is_port(text: Option<&[u8]>) -> bool
    ensures { result ≡ is_port (option_map (λ port. port.now) text.entry) }
{
    match text {
        Some(text) => port_number(text).is_some(),
        None => true,
    }
}

fn is_domain(domain: &[u8]) -> bool
    ensures { result ≡ is_domain domain.now }
{
    let (host, port) = place_in(domain);
    is_host(host) && is_port(port)
}

/// Whether a text is `TRUE`.
pub(crate) fn is_true(text: &[u8]) -> bool
    ensures { result ≡ bytes_eq text.now (codes "TRUE") }
{
    text == b"TRUE".as_slice()
}

fn is_flag(text: &[u8]) -> bool
    ensures { result ≡ is_flag text.now }
{
    is_true(text) || text == b"FALSE".as_slice()
}

fn is_control(byte: u8) -> bool
    ensures { result ≡ is_control byte }
{
    byte < 32 || byte == 127
}

fn has_control(text: &[u8]) -> bool
    ensures { result ≡ list_any is_control text.now }
{
    text.iter().any(|byte| is_control(*byte))
}

fn is_path(text: &[u8]) -> bool
    ensures { result ≡ is_path text.now }
{
    text.starts_with(b"/") && !has_control(text)
}

fn is_expiry(text: &[u8]) -> bool
    ensures { result ≡ is_expiry text.now }
{
    number_in(text).is_some()
}

fn is_bad(byte: u8) -> bool
    ensures { result ≡ is_bad byte }
{
    is_control(byte) || byte == b';'
}

fn is_bad_in_name(byte: u8) -> bool
    ensures { result ≡ is_bad_in_name byte }
{
    is_bad(byte) || byte == b'='
}

fn has_bad_in_name(text: &[u8]) -> bool
    ensures { result ≡ list_any is_bad_in_name text.now }
{
    text.iter().any(|byte| is_bad_in_name(*byte))
}

fn is_name(text: &[u8]) -> bool
    ensures { result ≡ is_name text.now }
{
    !text.is_empty() && !has_bad_in_name(text)
}

fn has_bad(text: &[u8]) -> bool
    ensures { result ≡ list_any is_bad text.now }
{
    text.iter().any(|byte| is_bad(*byte))
}

fn is_value(text: &[u8]) -> bool
    ensures { result ≡ is_value text.now }
{
    !has_bad(text)
}

/// The first of the fields that can't be.
#[tactic(auto, unfolding(crate::specs::Lines::fault_of))]
pub(crate) fn fault_of(fields: &CookieFields<'_>) -> Option<CookieLineFault>
    ensures { result ≡ fault_of (fields_value fields.now) }
{
    if !is_domain(fields.domain) {
        Some(CookieLineFault::Domain)
    } else if !is_flag(fields.subdomains) {
        Some(CookieLineFault::Subdomains)
    } else if !is_path(fields.path) {
        Some(CookieLineFault::Path)
    } else if !is_flag(fields.secure) {
        Some(CookieLineFault::Secure)
    } else if !is_expiry(fields.expiry) {
        Some(CookieLineFault::Expiry)
    } else if !is_name(fields.name) {
        Some(CookieLineFault::Name)
    } else if !is_value(fields.value) {
        Some(CookieLineFault::Value)
    } else {
        None
    }
}
