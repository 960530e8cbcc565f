//! What an index has after a run.
ghost use Rattle.std.specs.Prelude.{◌≡◌, ◌++◌, IfOk, OnOk, map, option_map, string_bytes};
ghost use Rattle.std.specs.List.Sorted.{IsPermutation, IsSorted};
ghost use Rattle.address.specs.AddressOrder.{IsAscending};
ghost use Rattle.mirror_upkeep.specs.Joined.{is_replaced, left_of, name_at, names, renamed};
ghost use Rattle.mirror_upkeep.specs.Latest.{IsIndexOf};
ghost use Rattle.mirror_upkeep.specs.inner.Lent.{lent_text, text_cmp};

use crate::copies::{again, named_again};
use crate::latest::index_of;
use crate::names::{entry_names, is_among};
use address::Address;
use mirror_index::{Entry, MirrorIndex};
use std::alloc::{AllocError, Global};

// Whether one of these pages, of which the names are in order, has the address or the name of an entry.
fn is_replaced(pages: &MirrorIndex, in_order: &[&[u8]], entry: &Entry) -> bool
    requires sorted { IsSorted text_cmp in_order.now }
    requires same { IsPermutation (names pages.now) (map lent_text in_order.now) }
    ensures { result ≡ is_replaced pages.now entry.now }
{
    pages.entry(entry.address()).is_some() || is_among(in_order, entry.name().as_bytes())
}

// Adds copies of those of an earlier index that have neither an address nor a name of these pages.
fn push_left(
    alloc: Global,
    all: &mut Vec<Entry>,
    earlier: &[Entry],
    pages: &MirrorIndex,
) -> Result<(), AllocError>
    ensures { OnOk result (all.new.items ≡ all.old.items ++ left_of earlier.now pages.now) }
{
    let names = entry_names(alloc, pages.entries())?;
    let names = names.as_slice();
    let mut rest = earlier;
    'entries: while let Some((entry, later)) = rest.split_first() {
        if !is_replaced(pages, names, entry) {
            all.push(again(alloc, entry)?)?;
        }
        rest = later;
    }
    Ok(())
}

// Adds copies of entries.
fn push_all(alloc: Global, all: &mut Vec<Entry>, entries: &[Entry]) -> Result<(), AllocError>
    ensures { OnOk result (all.new.items ≡ all.old.items ++ entries.now) }
{
    let mut rest = entries;
    'entries: while let Some((entry, later)) = rest.split_first() {
        all.push(again(alloc, entry)?)?;
        rest = later;
    }
    Ok(())
}

/// The index of a run's pages, and of those of an earlier index that have neither an address nor a name of them. If these are more than
/// 10,000,000 some aren't in it. Fails only if memory runs out.
pub fn joined(
    alloc: Global,
    earlier: &MirrorIndex,
    pages: &MirrorIndex,
) -> Result<MirrorIndex, AllocError>
    ensures { IfOk result (λ index. IsIndexOf (left_of earlier.now pages.now ++ pages.now) index) }
{
    let mut all = Vec::new(alloc);
    push_left(alloc, &mut all, earlier.entries(), pages)?;
    push_all(alloc, &mut all, pages.entries())?;
    let made = index_of(alloc, all)?;
    Ok(made.index)
}

// The name of the page of an address, of which the kept pages are in order, if it is kept.
fn name_of<'a>(kept: &[Address], names: &'a [String], at: &Address) -> Option<&'a String>
    requires { IsAscending kept.now }
    ensures { option_map (λ name. string_bytes name.now) result ≡ name_at kept.now (map string_bytes names.now) at.now }
{
    let Ok(place) = kept.binary_search(at) else {
        return None;
    };
    if place >= names.len() {
        return None;
    }
    Some(&names[place])
}

// Copies of the pages that are kept, under the names of these.
fn renamed(
    alloc: Global,
    pages: &[Entry],
    kept: &[Address],
    names: &[String],
) -> Result<Vec<Entry>, AllocError>
    requires { IsAscending kept.now }
    ensures { IfOk result (λ named. named.items ≡ renamed pages.now kept.now (map string_bytes names.now)) }
{
    let mut named = Vec::new(alloc);
    let mut rest = pages;
    'pages: while let Some((page, later)) = rest.split_first() {
        let name = name_of(kept, names, page.address());
        if let Some(name) = name {
            named.push(named_again(alloc, page, name.as_str())?)?;
        }
        rest = later;
    }
    Ok(named)
}

/// The index of the pages that a run noted, as far as they are kept, under the names that they got in the end. Both the addresses of the
/// kept pages, which are in order, and their names are given. Of several notes of one address the last counts. A page that no index may
/// have, since its line would be too long, isn't in it. Fails only if memory runs out.
pub fn named_pages(
    alloc: Global,
    pages: &[Entry],
    kept: &[Address],
    names: &[String],
) -> Result<MirrorIndex, AllocError>
    requires { IsAscending kept.now }
    ensures { IfOk result (λ index. IsIndexOf (renamed pages.now kept.now (map string_bytes names.now)) index) }
{
    let named = renamed(alloc, pages, kept, names)?;
    let made = index_of(alloc, named)?;
    Ok(made.index)
}
