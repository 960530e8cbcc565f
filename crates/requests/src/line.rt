//! Field lines that a person adds (RFC 9110, section 5).
ghost use Rattle.std.specs.Prelude.{◌≡◌, ◌⊎◌, ◌≤◌, ◌++◌, codes, IfOk, None, Some, MatchResult, length, string_bytes};
ghost use Rattle.std.specs.List.{list_all, list_any};
ghost use Rattle.requests.specs.Lines.{checked, is_bad, is_clean, is_coded, is_control, is_for_others, is_line, is_mark, is_named, is_of_body, is_of_connection, is_other_mark, is_refused, is_secret, is_token, is_token_byte, line_of, parted, read_line, trimmed};
ghost use Rattle.requests.specs.declared.fields.FieldsFault.TheVariants.{Line, Memory};

use crate::fields::FieldsFault;
use std::alloc::{AllocError, Global};
use std::marker::Model;

/// The most bytes of a field line that a person says, without its end.
pub const MAX_FIELD_LINE: usize = 8192;

/// A field: its name and its value.
#[derive(Drop)]
pub(crate) struct Field {
    name: String,
    value: String,
}

// Contracts see a field as its texts.
impl Model for Field {
    ghost use Rattle.std.specs.String.{string_bytes};
    ghost use Rattle.requests.specs.Lines.{Field};

    ghost Value = { Field };

    ghost view = { λ f. record { name = string_bytes f.name; value = string_bytes f.value } };
}

impl Field {
    /// A field of these texts.
    pub(crate) fn of(alloc: Global, name: &str, value: &str) -> Result<Field, AllocError>
        ensures { IfOk result (λ field. field ≡ record { name = name.now; value = value.now }) }
    {
        Ok(Field {
            name: String::from_str(alloc, name)?,
            value: String::from_str(alloc, value)?,
        })
    }

    /// Its name.
    pub(crate) fn name(&self) -> &str
        ensures { result.now ≡ self.now.name }
    {
        self.name.as_str()
    }

    /// Its value.
    pub(crate) fn value(&self) -> &str
        ensures { result.now ≡ self.now.value }
    {
        self.value.as_str()
    }
}

/// Whether these are the same name, in letters of either case.
pub(crate) fn is_named(one: &str, other: &str) -> bool
    ensures { result ≡ is_named one.now other.now }
{
    one.eq_ignore_ascii_case(other)
}

// Whether this is a control byte.
fn is_control(byte: u8) -> bool
    ensures { result ≡ is_control byte }
{
    byte < 32 || byte == 127
}

/// Whether bytes have a control byte.
pub(crate) fn has_control(text: &[u8]) -> bool
    ensures { result ≡ list_any is_control text.now }
{
    text.iter().any(|byte| is_control(*byte))
}

/// Whether a text has no control byte.
pub(crate) fn is_clean(text: &str) -> bool
    ensures { result ≡ is_clean text.now }
{
    !has_control(text.as_bytes())
}

// Whether this is a control byte that isn't a tab.
fn is_bad(byte: u8) -> bool
    ensures { result ≡ is_bad byte }
{
    is_control(byte) && byte != 9
}

fn has_bad(text: &[u8]) -> bool
    ensures { result ≡ list_any is_bad text.now }
{
    text.iter().any(|byte| is_bad(*byte))
}

fn is_mark(byte: u8) -> bool
    ensures { result ≡ is_mark byte }
{
    byte == b'!'
        || byte == b'#'
        || byte == b'$'
        || byte == b'%'
        || byte == b'&'
        || byte == b'\''
        || byte == b'*'
        || byte == b'+'
}

fn is_other_mark(byte: u8) -> bool
    ensures { result ≡ is_other_mark byte }
{
    byte == b'-'
        || byte == b'.'
        || byte == b'^'
        || byte == b'_'
        || byte == b'`'
        || byte == b'|'
        || byte == b'~'
}

fn is_token_byte(byte: u8) -> bool
    ensures { result ≡ is_token_byte byte }
{
    byte.is_ascii_alphanumeric() || is_mark(byte) || is_other_mark(byte)
}

fn has_token_bytes(text: &[u8]) -> bool
    ensures { result ≡ list_all is_token_byte text.now }
{
    text.iter().all(|byte| is_token_byte(*byte))
}

// Whether a text is a token.
fn is_token(text: &str) -> bool
    ensures { result ≡ is_token text.now }
{
    !text.is_empty() && has_token_bytes(text.as_bytes())
}

fn is_of_connection(name: &str) -> bool
    ensures { result ≡ is_of_connection name.now }
{
    is_named(name, "connection")
        || is_named(name, "keep-alive")
        || is_named(name, "proxy-connection")
        || is_named(name, "te")
        || is_named(name, "upgrade")
        || is_named(name, "http2-settings")
}

fn is_of_body(name: &str) -> bool
    ensures { result ≡ is_of_body name.now }
{
    is_named(name, "transfer-encoding")
        || is_named(name, "content-length")
        || is_named(name, "trailer")
        || is_named(name, "expect")
}

fn is_for_others(name: &str) -> bool
    ensures { result ≡ is_for_others name.now }
{
    is_named(name, "range") || is_named(name, "if-range") || is_named(name, "proxy-authorization")
}

fn is_coded(name: &str, value: &str) -> bool
    ensures { result ≡ is_coded (record { name = name.now; value = value.now }) }
{
    is_named(name, "accept-encoding") && !is_named(value, "identity")
}

// Whether a field isn't sent, whoever says it.
fn is_refused(name: &str, value: &str) -> bool
    ensures { result ≡ is_refused (record { name = name.now; value = value.now }) }
{
    is_of_connection(name) || is_of_body(name) || is_for_others(name) || is_coded(name, value)
}

/// Whether a field of this name goes to the origins of the starts alone.
pub(crate) fn is_secret(name: &str) -> bool
    ensures { result ≡ is_secret name.now }
{
    is_named(name, "authorization") || is_named(name, "cookie")
}

// The text without white space at its ends.
fn trimmed(text: &str) -> &str
    ensures { result.now ≡ trimmed text.now }
{
    text.trim_ascii()
}

// The field that has this name and this value, if it may be sent.
fn checked(alloc: Global, name: &str, value: &str) -> Result<Field, FieldsFault>
    ensures { MatchResult result
        (λ field. checked (record { name = name.now; value = value.now }) ≡ Some field)
        (λ f. ((f ≡ Line) × (checked (record { name = name.now; value = value.now }) ≡ None)) ⊎ (f ≡ Memory)) }
{
    if !is_token(name) || is_refused(name, value) {
        return Err(FieldsFault::Line);
    }
    match Field::of(alloc, name, value) {
        Ok(field) => Ok(field),
        Err(_) => Err(FieldsFault::Memory),
    }
}

// What a line without bad bytes says, if it has a colon.
fn parted(alloc: Global, line: &str) -> Result<Field, FieldsFault>
    ensures { MatchResult result
        (λ field. parted line.now ≡ Some field)
        (λ f. ((f ≡ Line) × (parted line.now ≡ None)) ⊎ (f ≡ Memory)) }
{
    match line.split_once(':') {
        Some((name, value)) => checked(alloc, name, trimmed(value)),
        None => Err(FieldsFault::Line),
    }
}

// Whether a line isn't too long, and has no bad byte.
fn is_line(line: &str) -> bool
    ensures { result ≡ is_line line.now }
{
    line.len() <= MAX_FIELD_LINE && !has_bad(line.as_bytes())
}

/// The field that a line says. The fault is that it says none that may be sent, or that memory ran out.
#[tactic(auto, unfolding(crate::specs::Lines::read_line))]
pub(crate) fn read_line(alloc: Global, line: &str) -> Result<Field, FieldsFault>
    ensures { MatchResult result
        (λ field. read_line line.now ≡ Some field)
        (λ f. ((f ≡ Line) × (read_line line.now ≡ None)) ⊎ (f ≡ Memory)) }
{
    if is_line(line) {
        parted(alloc, line)
    } else {
        Err(FieldsFault::Line)
    }
}
