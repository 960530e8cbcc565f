//! How a response is written down, so that it can be read again (RFC 9112, sections 4 to 6.2).
ghost use Rattle.std.specs.Prelude.{◌≡◌, ◌++◌, ◌∷◌, [], OnOk, codes, decimal, flat_map, length, option_map, vec_items};
ghost use Rattle.httparse.specs.Ascii.{crlf_bytes};
ghost use Rattle.response_reader.specs.Whole.{response_parts};
ghost use Rattle.response_reader.specs.Written.{field_line, field_of_value, field_of_coding, field_of_len, written_fields, head_text};

use crate::response::Response;
use crate::status::has_no_body;
use std::alloc::AllocError;

// A number in decimal digits.
fn push_number(text: &mut Vec<u8>, number: usize) -> Result<(), AllocError>
    ensures { OnOk result (text.new.items ≡ text.old.items ++ decimal number) }
{
    let alloc = *text.allocator();
    let digits = format!(in alloc; "{number}")?;
    text.extend_from_slice(digits.as_bytes())
}

// A field line.
fn push_field(text: &mut Vec<u8>, name: &[u8], value: &[u8]) -> Result<(), AllocError>
    ensures { OnOk result (text.new.items ≡ text.old.items ++ field_line (name.now, value.now)) }
{
    text.extend_from_slice(name)?;
    text.extend_from_slice(b": ")?;
    text.extend_from_slice(value)?;
    text.extend_from_slice(b"\r\n")
}

// The field line of this name, if there is a value.
fn push_value(text: &mut Vec<u8>, name: &[u8], value: &Option<Vec<u8>>) -> Result<(), AllocError>
    ensures { OnOk result (text.new.items ≡ text.old.items ++ flat_map field_line (field_of_value name.now (option_map vec_items value.now))) }
{
    match value {
        Some(value) => push_field(text, name, value),
        None => Ok(()),
    }
}

// The field line of a content coding, if there is one.
fn push_coding(text: &mut Vec<u8>, coded: bool) -> Result<(), AllocError>
    ensures { OnOk result (text.new.items ≡ text.old.items ++ flat_map field_line (field_of_coding coded)) }
{
    if coded {
        return push_field(text, b"Content-Encoding", b"coded");
    }
    Ok(())
}

// The field line of a body's length, unless the status says that there is none.
fn push_len(text: &mut Vec<u8>, status: u16, len: usize) -> Result<(), AllocError>
    ensures { OnOk result (text.new.items ≡ text.old.items ++ flat_map field_line (field_of_len status len)) }
{
    if has_no_body(status) {
        return Ok(());
    }
    let alloc = *text.allocator();
    let digits = format!(in alloc; "{len}")?;
    push_field(text, b"Content-Length", digits.as_bytes())
}

// The fields that a response is written with.
fn push_fields(text: &mut Vec<u8>, response: &Response) -> Result<(), AllocError>
    ensures { OnOk result (text.new.items ≡ text.old.items ++ flat_map field_line (written_fields (response_parts response.now))) }
{
    push_value(text, b"Content-Type", &response.content_type)?;
    push_coding(text, response.coded)?;
    push_value(text, b"Location", &response.location)?;
    push_value(text, b"Retry-After", &response.retry_after)?;
    push_value(text, b"Last-Modified", &response.last_modified)?;
    push_value(text, b"ETag", &response.etag)?;
    push_len(text, response.status, response.body.len())
}

/// Adds the head with which a response is written down; its body follows it. Fails only if memory runs out, and then a front of the
/// head may have been added.
#[tactic(auto, unfolding(crate::specs::Written::head_text))]
pub fn push_head(text: &mut Vec<u8>, response: &Response) -> Result<(), AllocError>
    ensures { OnOk result (text.new.items ≡ text.old.items ++ head_text (response_parts response.now)) }
{
    text.extend_from_slice(b"HTTP/1.1 ")?;
    push_number(text, response.status as usize)?;
    text.extend_from_slice(b" \r\n")?;
    push_fields(text, response)?;
    text.extend_from_slice(b"\r\n")
}
