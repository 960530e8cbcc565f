//! The line of a text, and what a line says.
ghost use Rattle.std.specs.Prelude.{◌≡◌, ◌↔◌, IfOk, IfSome, IsTrue, Some, option_map};
ghost use Rattle.mirror_index.specs.Entries.{Text, text_line};

use crate::line::{check_of, fields_of};
use entry_lines::push_field;
use std::alloc::{AllocError, Global};

/// The line of a text of any bytes, without its end. Fails only if memory runs out.
pub fn text_line(alloc: Global, text: &[u8]) -> Result<Vec<u8>, AllocError>
    ensures { IfOk result (λ line. line.items ≡ text_line text.now) }
{
    let mut line = Vec::new(alloc);
    push_field(alloc, &mut line, text)?;
    let check = check_of(alloc, line.as_slice())?;
    line.extend_from_slice(check.as_slice())?;
    Ok(line)
}

// Whether a line is that of a text.
fn is_line_of(alloc: Global, line: &[u8], text: &[u8]) -> Result<bool, AllocError>
    ensures { IfOk result (λ is. IsTrue is ↔ (line.now ≡ text_line text.now)) }
{
    let own = text_line(alloc, text)?;
    Ok(line == own.as_slice())
}

/// The text whose line this is, if it is a text's.
pub fn read_text(alloc: Global, line: &[u8]) -> Result<Option<Vec<u8>>, AllocError>
    ensures is { IfOk result (λ text. IfSome text (λ t. line.now ≡ text_line t.items)) }
    ensures back { IfOk result (λ text. (t : Text) → line.now ≡ text_line t → option_map (λ v. v.items) text ≡ Some t) }
{
    let mut fields = fields_of(alloc, line)?;
    let Some(text) = fields.pop() else {
        return Ok(None);
    };
    let is_own = is_line_of(alloc, line, text.as_slice())?;
    if is_own {
        return Ok(Some(text));
    }
    Ok(None)
}
