//! The line of an entry, and what a line says.
ghost use Rattle.std.specs.Prelude.{◌≡◌, ◌≢◌, ◌++◌, ◌^◌, ◌<◌, ◌↔◌, ◌∷◌, ℕ, List, [], IfOk, IfSome, IsTrue, IsUtf8, MatchOption, OnOk, Option, Some, map, option_map, string_bytes};
ghost use Rattle.std.specs.Fmt.{decimal};
ghost use Rattle.address.specs.Address.{IsAddress};
ghost use Rattle.entry_lines.specs.Escapes.{escaped};
ghost use Rattle.entry_lines.specs.Fields.{fields_text};
ghost use Rattle.hex.specs.Hex.{encode_lower};
ghost use Rattle.mirror_index.specs.Cuts.{Lacks};
ghost use Rattle.mirror_index.specs.Entries.{Entry, HasParts, IsDigest, IsEntry, IsMark, Text, KeptHead, check_of, entry_fields, entry_line, head_fields, mark_field, value_field};
ghost use Rattle.mirror_index.specs.declared.entry.Mark.{Mark};

use crate::cut::cut_at;
use crate::entry::{Entry, KeptHead, Mark, digest_of};
use address::{Address, AddressFault};
use entry_lines::{push_field, unescape};
use hex::FromHex;
use std::alloc::{AllocError, Global};

// Adds a number.
fn push_number(alloc: Global, text: &mut Vec<u8>, number: u64) -> Result<(), AllocError>
    ensures { OnOk result (text.new.items ≡ text.old.items ++ (escaped (decimal number) ++ 32 ∷ [])) }
{
    let digits = format!(in alloc; "{number}")?;
    push_field(alloc, text, digits.as_bytes())
}

// The field of a mark.
fn mark_field(alloc: Global, mark: Mark) -> Result<String, AllocError>
    ensures { IfOk result (λ field. string_bytes field ≡ mark_field mark) }
{
    match mark {
        Mark::Digest(digest) => hex::encode(alloc, digest.as_slice()),
        Mark::Changed(time) => format!(in alloc; "@{time}"),
    }
}

// Adds a mark.
fn push_mark(alloc: Global, text: &mut Vec<u8>, mark: Mark) -> Result<(), AllocError>
    ensures { OnOk result (text.new.items ≡ text.old.items ++ (escaped (mark_field mark) ++ 32 ∷ [])) }
{
    let field = mark_field(alloc, mark)?;
    push_field(alloc, text, field.as_bytes())
}

// The field of a value that may be missing.
fn value_field(alloc: Global, value: Option<&[u8]>) -> Result<Vec<u8>, AllocError>
    ensures { IfOk result (λ field. field.items ≡ value_field (option_map (λ v. v.now) value.entry)) }
{
    let mut field = Vec::new(alloc);
    match value {
        Some(value) => {
            field.push(b'=')?;
            field.extend_from_slice(value)?;
        }
        None => field.push(b'-')?,
    }
    Ok(field)
}

// Adds a value that may be missing.
fn push_value(alloc: Global, text: &mut Vec<u8>, value: Option<&[u8]>) -> Result<(), AllocError>
    ensures { OnOk result (text.new.items ≡ text.old.items ++ (escaped (value_field (option_map (λ v. v.now) value.entry)) ++ 32 ∷ [])) }
{
    let field = value_field(alloc, value)?;
    push_field(alloc, text, field.as_slice())
}

// Adds what was said with a page.
fn push_head(alloc: Global, text: &mut Vec<u8>, head: &KeptHead) -> Result<(), AllocError>
    ensures fits { head.now.status < 2 ^ 16 }
    ensures added { OnOk result (text.new.items ≡ text.old.items ++ fields_text (head_fields head.now)) }
{
    push_number(alloc, text, u64::from(head.status()))?;
    push_value(alloc, text, head.content_type())?;
    push_value(alloc, text, head.etag())?;
    push_value(alloc, text, head.last_modified())
}

// The fields of an entry, each with a space after it.
fn entry_text(alloc: Global, entry: &Entry) -> Result<Vec<u8>, AllocError>
    ensures text { IfOk result (λ text. text.items ≡ fields_text (entry_fields entry.now)) }
    ensures parts { OnOk result (HasParts entry.now) }
{
    let mut text = Vec::new(alloc);
    push_field(alloc, &mut text, entry.address().as_str().as_bytes())?;
    push_field(alloc, &mut text, entry.name().as_bytes())?;
    push_number(alloc, &mut text, entry.size())?;
    push_mark(alloc, &mut text, entry.mark())?;
    push_head(alloc, &mut text, entry.head())?;
    Ok(text)
}

/// What shows that a text wasn't damaged.
#[tactic(auto, unfolding(crate::specs::Entries::check_of))]
pub(crate) fn check_of(alloc: Global, text: &[u8]) -> Result<Vec<u8>, AllocError>
    ensures { IfOk result (λ check. check.items ≡ check_of text.now) }
{
    let mut digits = hex::encode(alloc, digest_of(text))?.into_bytes();
    digits.truncate(16);
    Ok(digits)
}

/// The line of an entry, without its end.
pub fn entry_line(alloc: Global, entry: &Entry) -> Result<Vec<u8>, AllocError>
    ensures line { IfOk result (λ line. line.items ≡ entry_line entry.now) }
    ensures parts { OnOk result (HasParts entry.now) }
{
    let mut line = entry_text(alloc, entry)?;
    let check = check_of(alloc, line.as_slice())?;
    line.extend_from_slice(check.as_slice())?;
    Ok(line)
}

/// The fields of a line that have a space after them.
pub(crate) fn fields_of(alloc: Global, line: &[u8]) -> Result<Vec<Vec<u8>>, AllocError>
    ensures { IfOk result (λ fields. (said : List Text) (after : Text) → Lacks 32 after → line.now ≡ fields_text said ++ after → map (λ f. f.items) fields.items ≡ said) }
{
    let mut fields = Vec::new(alloc);
    let mut rest = line;
    'fields: while let Some((field, after)) = cut_at(b' ', rest) {
        let field = unescape(alloc, field)?;
        fields.push(field)?;
        rest = after;
    }
    Ok(fields)
}

// The number that a field says, and 0 if it says none.
fn number_in(field: &[u8]) -> u64
    ensures { (n : ℕ) → n < 2 ^ 64 → field.now ≡ decimal n → result ≡ n }
{
    match str::from_utf8(field) {
        Ok(text) => text.parse::<u64>().unwrap_or(0),
        Err(_) => 0,
    }
}

// The digest that a field says, and zeros if it says none.
fn digest_in(field: &[u8]) -> [u8; 32]
    ensures { (d : List ℕ) → IsDigest d → field.now ≡ encode_lower d → result ≡ d }
{
    match <[u8; 32] as FromHex>::from_hex(field) {
        Ok(digest) => digest,
        Err(_) => [0; 32],
    }
}

// The mark that a field says.
fn mark_in(field: &[u8]) -> Mark
    ensures { (m : Mark) → IsMark m → field.now ≡ mark_field m → result ≡ m }
{
    match field.strip_prefix(b"@") {
        Some(time) => Mark::Changed(number_in(time)),
        None => Mark::Digest(digest_in(field)),
    }
}

// The value that a field says, if one is there.
fn value_in(alloc: Global, field: &[u8]) -> Result<Option<Vec<u8>>, AllocError>
    ensures { IfOk result (λ value. (v : Option Text) → field.now ≡ value_field v → option_map (λ x. x.items) value ≡ v) }
{
    match field {
        [b'=', value @ ..] => Ok(Some(value.to_vec(alloc)?)),
        _ => Ok(None),
    }
}

// The address that a field says, if it says one as an index has it.
fn address_in(alloc: Global, field: &[u8]) -> Result<Option<Address>, AllocError>
    ensures { IfOk result (λ address. IsAddress field.now → address ≡ Some field.now) }
{
    let Ok(text) = str::from_utf8(field) else {
        return Ok(None);
    };
    match Address::read_either(alloc, text) {
        Ok(address) => Ok(Some(address)),
        Err(AddressFault::Memory) => Err(AllocError),
        Err(_) => Ok(None),
    }
}

// The name that a field says, if it is a text.
fn name_in(alloc: Global, field: &[u8]) -> Result<Option<String>, AllocError>
    ensures { IfOk result (λ name. IsUtf8 field.now → option_map string_bytes name ≡ Some field.now) }
{
    match str::from_utf8(field) {
        Ok(text) => Ok(Some(String::from_str(alloc, text)?)),
        Err(_) => Ok(None),
    }
}

// What fields say that was said with a page.
fn head_in(
    alloc: Global,
    status: &[u8],
    content_type: &[u8],
    etag: &[u8],
    last_modified: &[u8],
) -> Result<KeptHead, AllocError>
    ensures { IfOk result (λ head. (t : KeptHead) → t.status < 2 ^ 16 → status.now ≡ decimal t.status → content_type.now ≡ value_field t.content_type → etag.now ≡ value_field t.etag
        → last_modified.now ≡ value_field t.last_modified → head ≡ t) }
{
    let status = u16::try_from(number_in(status)).unwrap_or(0);
    let content_type = value_in(alloc, content_type)?;
    let etag = value_in(alloc, etag)?;
    let last_modified = value_in(alloc, last_modified)?;
    Ok(KeptHead::new(status, content_type, etag, last_modified))
}

// The entry that fields say, if they say one as an index has it.
fn entry_in(alloc: Global, fields: &[Vec<u8>]) -> Result<Option<Entry>, AllocError>
    ensures { IfOk result (λ entry. (e : Entry) → IsEntry e → map (λ f. f.items) fields.now ≡ entry_fields e → entry ≡ Some e) }
{
    let [
        address,
        name,
        size,
        mark,
        status,
        content_type,
        etag,
        last_modified,
    ] = fields
    else {
        return Ok(None);
    };
    let Some(address) = address_in(alloc, address.as_slice())? else {
        return Ok(None);
    };
    let Some(name) = name_in(alloc, name.as_slice())? else {
        return Ok(None);
    };
    let head = head_in(
        alloc,
        status.as_slice(),
        content_type.as_slice(),
        etag.as_slice(),
        last_modified.as_slice(),
    )?;
    let size = number_in(size.as_slice());
    let mark = mark_in(mark.as_slice());
    Ok(Some(Entry::new(address, name, size, mark, head)))
}

// Whether a line is that of an entry.
fn is_line_of(alloc: Global, line: &[u8], entry: &Entry) -> Result<bool, AllocError>
    ensures { IfOk result (λ is. IsTrue is ↔ (line.now ≡ entry_line entry.now)) }
{
    let own = entry_line(alloc, entry)?;
    Ok(line == own.as_slice())
}

// An entry, if the line is its own.
fn if_own(alloc: Global, line: &[u8], entry: Entry) -> Result<Option<Entry>, AllocError>
    ensures { IfOk result (λ own. MatchOption own (line.now ≢ entry_line entry) (λ e. (e ≡ entry) × (line.now ≡ entry_line entry))) }
{
    let is_own = is_line_of(alloc, line, &entry)?;
    if is_own {
        return Ok(Some(entry));
    }
    Ok(None)
}

/// The entry whose line this is, if it is an entry's.
pub fn read_line(alloc: Global, line: &[u8]) -> Result<Option<Entry>, AllocError>
    ensures is { IfOk result (λ entry. IfSome entry (λ e. line.now ≡ entry_line e)) }
    ensures back { IfOk result (λ entry. (e : Entry) → IsEntry e → line.now ≡ entry_line e → entry ≡ Some e) }
{
    let fields = fields_of(alloc, line)?;
    let said = entry_in(alloc, fields.as_slice())?;
    match said {
        Some(entry) => if_own(alloc, line, entry),
        None => Ok(None),
    }
}
