//! Lines of a cookie file.
ghost use Rattle.std.specs.Prelude.{◌≡◌, IfOk, IfSome, None, option_map};
ghost use Rattle.cookie_files.specs.Lines.{fault_of, is_silent, read_line, sound, without_mark, without_return};
ghost use Rattle.cookie_files.specs.inner.FieldsView.{fields_value, said_value};

use crate::fault::CookieLineFault;
use crate::fields::{CookieFields, fault_of, fields_of};

// The line before CR LF.
fn without_return(line: &[u8]) -> &[u8]
    ensures { result.now ≡ without_return line.now }
{
    if line.ends_with(b"\r") {
        &line[..line.len() - 1]
    } else {
        line
    }
}

// The line of a cookie that scripts don't see, without its mark.
fn without_mark(line: &[u8]) -> &[u8]
    ensures { result.now ≡ without_mark line.now }
{
    if line.starts_with(b"#HttpOnly_") {
        &line[10..]
    } else {
        line
    }
}

// Whether a line says nothing.
fn is_silent(line: &[u8]) -> bool
    ensures { result ≡ is_silent line.now }
{
    line.is_empty() || line.starts_with(b"#")
}

// The fields, unless one can't be.
fn sound(fields: Option<CookieFields<'_>>) -> Result<Option<CookieFields<'_>>, CookieLineFault>
    ensures value { said_value result ≡ sound (option_map fields_value fields.entry) }
    ensures sound { IfOk result (λ said. IfSome said (λ found. fault_of (fields_value found) ≡ None)) }
{
    let Some(fields) = fields else {
        return Err(CookieLineFault::Fields);
    };
    match fault_of(&fields) {
        Some(fault) => Err(fault),
        None => Ok(Some(fields)),
    }
}

/// What a line says: the fields of a cookie, or nothing.
#[tactic(auto, unfolding(crate::specs::Lines::read_line))]
pub(crate) fn read_line(text: &[u8]) -> Result<Option<CookieFields<'_>>, CookieLineFault>
    ensures value { said_value result ≡ read_line text.now }
    ensures sound { IfOk result (λ said. IfSome said (λ found. fault_of (fields_value found) ≡ None)) }
{
    let line = without_mark(without_return(text));
    if is_silent(line) {
        return Ok(None);
    }
    sound(fields_of(line))
}
