//! Any bytes as an entry.
ghost use Rattle.std.specs.Prelude.{◌≡◌, ◌++◌, List, ℕ, IfOk, IsTrue, OnOk};
ghost use Rattle.entry_lines.specs.Escapes.{escaped, read_back, meant as meant_by, HasNoSpace};
ghost use Rattle.entry_lines.specs.Lines.{ArePlain};

use std::alloc::{AllocError, Global};

/// Bytes without a zero, a line feed and a space that represent these.
pub fn escape(alloc: Global, bytes: &[u8]) -> Result<Vec<u8>, AllocError>
    ensures escaped { IfOk result (λ v. v.items ≡ escaped bytes.now) }
    ensures plain { IfOk result (λ v. ArePlain v.items) }
    ensures no_space { IfOk result (λ v. HasNoSpace v.items) }
{
    let mut out = Vec::new(alloc);
    let mut rest = bytes;
    while let [b, after @ ..] = rest {
        match *b {
            0 => out.extend_from_slice(b"\\0")?,
            b'\n' => out.extend_from_slice(b"\\n")?,
            b'\\' => out.extend_from_slice(b"\\\\")?,
            b' ' => out.extend_from_slice(b"\\s")?,
            other => out.push(other)?,
        }
        rest = after;
    }
    Ok(out)
}

// Whether bytes represent themselves: each is written as it is.
fn is_written_as_is(bytes: &[u8]) -> bool
    ensures { IsTrue result → escaped bytes.now ≡ bytes.now }
{
    let mut rest = bytes;
    while let [b, after @ ..] = rest {
        if *b == 0 || *b == b'\n' || *b == b'\\' || *b == b' ' {
            return false;
        }
        rest = after;
    }
    true
}

// Adds bytes that represent these.
pub(crate) fn push_escaped(
    alloc: Global,
    text: &mut Vec<u8>,
    bytes: &[u8],
) -> Result<(), AllocError>
    ensures { OnOk result (text.new.items ≡ text.old.items ++ escaped bytes.now) }
{
    if is_written_as_is(bytes) {
        return text.extend_from_slice(bytes);
    }
    let escaped = escape(alloc, bytes)?;
    text.extend_from_slice(escaped.as_slice())
}

// Whether bytes are what they represent: none is a backslash.
fn is_meant_as_is(bytes: &[u8]) -> bool
    ensures { IsTrue result → read_back bytes.now ≡ bytes.now }
{
    let mut rest = bytes;
    while let [b, after @ ..] = rest {
        if *b == b'\\' {
            return false;
        }
        rest = after;
    }
    true
}

// The bytes that these represent, byte by byte.
fn unescape_each(alloc: Global, bytes: &[u8]) -> Result<Vec<u8>, AllocError>
    ensures { IfOk result (λ v. v.items ≡ read_back bytes.now) }
{
    let mut out = Vec::new(alloc);
    let mut rest = bytes;
    loop {
        match rest {
            [] => return Ok(out),
            [b'\\', c, after @ ..] => {
                out.push(meant(*c))?;
                rest = after;
            }
            [b, after @ ..] => {
                out.push(*b)?;
                rest = after;
            }
        }
    }
}

/// The bytes that these represent.
pub fn unescape(alloc: Global, bytes: &[u8]) -> Result<Vec<u8>, AllocError>
    ensures read { IfOk result (λ v. v.items ≡ read_back bytes.now) }
    // What was escaped is read back.
    ensures back { IfOk result (λ v. (x : List ℕ) → bytes.now ≡ escaped x → v.items ≡ x) }
{
    if is_meant_as_is(bytes) {
        return Vec::from_slice(alloc, bytes);
    }
    unescape_each(alloc, bytes)
}

fn meant(c: u8) -> u8
    ensures { result ≡ meant_by c }
{
    match c {
        b'0' => 0,
        b'n' => b'\n',
        b's' => b' ',
        other => other,
    }
}
