//! Copies of entries.
ghost use Rattle.std.specs.Prelude.{◌≡◌, IfOk, option_map};

use mirror_index::{Entry, KeptHead};
use std::alloc::{AllocError, Global};

// A copy of a value that may be missing.
fn value_again(alloc: Global, value: Option<&[u8]>) -> Result<Option<Vec<u8>>, AllocError>
    ensures { IfOk result (λ copy. option_map (λ v. v.items) copy ≡ option_map (λ v. v.now) value.entry) }
{
    match value {
        Some(value) => Ok(Some(Vec::from_slice(alloc, value)?)),
        None => Ok(None),
    }
}

// A copy of what was said with a page.
fn head_again(alloc: Global, head: &KeptHead) -> Result<KeptHead, AllocError>
    ensures { IfOk result (λ copy. copy ≡ head.now) }
{
    let content_type = value_again(alloc, head.content_type())?;
    let etag = value_again(alloc, head.etag())?;
    let last_modified = value_again(alloc, head.last_modified())?;
    Ok(KeptHead::new(head.status(), content_type, etag, last_modified))
}

/// A copy of an entry, with this name.
pub(crate) fn named_again(alloc: Global, entry: &Entry, name: &str) -> Result<Entry, AllocError>
    ensures { IfOk result (λ copy. copy ≡ record entry.now { name = name.now }) }
{
    let address = entry.address().try_clone()?;
    let name = String::from_str(alloc, name)?;
    let head = head_again(alloc, entry.head())?;
    Ok(Entry::new(address, name, entry.size(), entry.mark(), head))
}

/// A copy of an entry.
pub(crate) fn again(alloc: Global, entry: &Entry) -> Result<Entry, AllocError>
    ensures { IfOk result (λ copy. copy ≡ entry.now) }
{
    named_again(alloc, entry, entry.name())
}
