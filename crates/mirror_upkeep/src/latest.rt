//! The index of entries of which several may be of one address: the last of them counts.
ghost use Rattle.std.specs.Prelude.{◌≡◌, ◌++◌, ◌∷◌, ◌↔◌, [], false, List, ℕ, IfOk, IsTrue, OnOk, Some, length, option_map};
ghost use Rattle.std.specs.List.Sorted.{IsPermutation};
ghost use Rattle.address.specs.Address.{AddressText};
ghost use Rattle.mirror_index.specs.Entries.{Entry};
ghost use Rattle.mirror_upkeep.specs.Latest.{ArePages, IsIndexOf, IsWholeIndexOf, latest};
ghost use Rattle.mirror_upkeep.specs.inner.Taking.{IsFalling};

use address::Address;
use mirror_index::{Entry, MirrorIndex};
use std::alloc::{AllocError, Global};

/// An index that was made of entries.
#[derive(Drop)]
pub(crate) struct Made {
    pub(crate) index: MirrorIndex,
    /// Whether each entry that counts is in it.
    pub(crate) is_whole: bool,
}

// Sorts entries by their addresses, the last one first; those of one address stay in their order.
fn sort_falling(entries: &mut Vec<Entry>) -> Result<(), AllocError>
    ensures falling { OnOk result (IsFalling entries.new.items) }
    ensures latest { (at : AddressText) → latest entries.new.items at ≡ latest entries.old.items at }
    ensures same { IsPermutation entries.old.items entries.new.items }
{
    entries.sort_by(|one, other| other.address().cmp(one.address()))
}

// Whether an entry is of this address.
fn is_of(at: &Option<Address>, entry: &Entry) -> bool
    ensures { IsTrue result ↔ (at.now ≡ Some entry.now.address) }
{
    match at {
        Some(at) => at == entry.address(),
        None => false,
    }
}

/// The index of entries, of which several may be of one address. Those that may not be in an index aren't, nor are those after the first
/// 10,000,000.
pub(crate) fn index_of(alloc: Global, entries: Vec<Entry>) -> Result<Made, AllocError>
    ensures index { IfOk result (λ made. IsIndexOf entries.items made.index) }
    ensures whole { IfOk result (λ made. IsTrue made.is_whole → IsWholeIndexOf entries.items made.index) }
    ensures all { IfOk result (λ made. ArePages entries.items → IsTrue made.is_whole) }
{
    let mut left = entries;
    sort_falling(&mut left)?;
    let mut index = MirrorIndex::new(alloc);
    let mut is_whole = true;
    let mut last = None;
    'entries: while let Some(entry) = left.pop() {
        if is_of(&last, &entry) {
            continue;
        }
        last = Some(entry.address().try_clone()?);
        let added = index.add(alloc, entry)?;
        is_whole = is_whole && added;
    }
    Ok(Made { index, is_whole })
}
