//! Texts as values of attributes (HTML Standard, sections 13.1.2.3 and 13.1.4).
ghost use Rattle.std.specs.Prelude.{◌≡◌, ◌≢◌, ◌++◌, [], ◌∷◌, ℕ, List, IfOk, OnOk, true};
ghost use Rattle.html_links.specs.Escaping.{escaped, escaped_byte};
ghost use Rattle.html_links.specs.References.{referenced};
ghost use Rattle.html_links.specs.Pieces.{is_quote, ends_bare_value};
ghost use Rattle.html_links.specs.Markup.{value_at, valued};

use crate::memory::OutOfMemory;
use std::alloc::{AllocError, Global};

// Puts down what is written for a byte.
fn push_escaped_byte(value: &mut Vec<u8>, byte: u8) -> Result<(), AllocError>
    ensures { OnOk result (value.new.items ≡ value.old.items ++ escaped_byte byte) }
{
    match byte {
        b'&' => value.extend_from_slice(b"&amp;"),
        b'"' => value.extend_from_slice(b"&quot;"),
        b'\'' => value.extend_from_slice(b"&#39;"),
        b'<' => value.extend_from_slice(b"&lt;"),
        b'>' => value.extend_from_slice(b"&gt;"),
        b'\t' => value.extend_from_slice(b"&#9;"),
        b'\n' => value.extend_from_slice(b"&#10;"),
        0x0c => value.extend_from_slice(b"&#12;"),
        b'\r' => value.extend_from_slice(b"&#13;"),
        b' ' => value.extend_from_slice(b"&#32;"),
        _ => value.extend_from_slice(&[byte]),
    }
}

/// A text as it is written in a value, in quotes of either kind or without: its text, with references replaced, is this
/// one, and it ends where it is to end.
///
/// # Errors
/// `OutOfMemory` if a growth is refused.
pub fn escape(alloc: Global, text: &[u8]) -> Result<Vec<u8>, OutOfMemory>
    ensures value { IfOk result (λ value. value.items ≡ escaped text.now) }
    ensures text { IfOk result (λ value. referenced value.items ≡ text.now) }
    // in quotes, and without them before a byte that ends such a value
    ensures quoted { IfOk result (λ value. (quote : ℕ) (rest : List ℕ) → is_quote quote ≡ true → value_at (quote ∷ (value.items ++ quote ∷ rest)) ≡ valued value.items rest) }
    ensures bare { text.now ≢ [] → IfOk result (λ value. (end : ℕ) (rest : List ℕ) → ends_bare_value end ≡ true → value_at (value.items ++ end ∷ rest) ≡ valued value.items (end ∷ rest)) }
{
    let mut value = Vec::new(alloc);
    let mut left = text;
    while let [byte, others @ ..] = left {
        push_escaped_byte(&mut value, *byte)?;
        left = others;
    }
    Ok(value)
}
