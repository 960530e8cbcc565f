//! Entries that have fields.
ghost use Rattle.std.specs.Prelude.{◌≡◌, ◌++◌, [], ◌∷◌, ℕ, List, OnOk};
ghost use Rattle.entry_lines.specs.Escapes.{escaped};
ghost use Rattle.entry_lines.specs.Fields.{fields_text, fields_of, ReadsBack, ReadsCut};
ghost use Rattle.entry_lines.specs.Lines.{ArePlain};

use crate::escapes::push_escaped;
use std::alloc::{AllocError, Global};

/// Adds a field of any bytes to an entry. Fails only if memory runs out, and then the entry isn't to be used.
pub fn push_field(alloc: Global, entry: &mut Vec<u8>, field: &[u8]) -> Result<(), AllocError>
    ensures added { OnOk result (entry.new.items ≡ entry.old.items ++ (escaped field.now ++ 32 ∷ [])) }
    ensures pushed { (fields : List (List ℕ)) → entry.old.items ≡ fields_text fields → OnOk result (entry.new.items ≡ fields_text (fields ++ field.now ∷ [])) }
    // What was added is read back.
    ensures back { (fields : List (List ℕ)) → entry.old.items ≡ fields_text fields → OnOk result (fields_of entry.new.items ≡ fields ++ field.now ∷ []) }
    ensures plain { (fields : List (List ℕ)) → entry.old.items ≡ fields_text fields → OnOk result (ArePlain entry.new.items) }
    // An index of such entries is read back as exactly what was added, in order, and what a crash leaves of it as a front.
    ensures index { OnOk result (ReadsBack × ReadsCut) }
{
    push_escaped(alloc, entry, field)?;
    entry.push(b' ')?;
    Ok(())
}
