//! Which files of an earlier run go.
ghost use Rattle.std.specs.Prelude.{◌≡◌, ◌++◌, IfOk, OnOk, map, string_bytes};
ghost use Rattle.std.specs.List.{filter};
ghost use Rattle.std.specs.List.Sorted.{IsSorted};
ghost use Rattle.address.specs.AddressOrder.{IsAscending};
ghost use Rattle.mirror_upkeep.specs.Leaving.{displaced_name, files, files_of, is_displaced, is_gone, is_renewed, is_to_go, originals, originals_of, other_name};
ghost use Rattle.mirror_upkeep.specs.Names.{has_name, is_in_way};
ghost use Rattle.mirror_upkeep.specs.inner.Lent.{lent_text, text_cmp};

use crate::names::{has_below, in_order, is_among, is_below};
use address::Address;
use mirror_index::Entry;
use std::alloc::{AllocError, Global};

// Adds a name, unless it is one of these, which are in order.
fn push_other(
    alloc: Global,
    leaving: &mut Vec<String>,
    names: &[&[u8]],
    name: &str,
) -> Result<(), AllocError>
    requires { IsSorted text_cmp names.now }
    ensures { OnOk result (map string_bytes leaving.new.items ≡ map string_bytes leaving.old.items ++ other_name (map lent_text names.now) name.now) }
{
    if !is_among(names, name.as_bytes()) {
        leaving.push(String::from_str(alloc, name)?)?;
    }
    Ok(())
}

// Adds the names of the files of a page's body as it came, whose file has this name: beside it if such are kept, and in the program's own
// directory, since an earlier run may have kept it there. Those of this run, which are in order, aren't added.
fn push_originals(
    alloc: Global,
    leaving: &mut Vec<String>,
    names: &[&[u8]],
    name: &str,
    backs_up: bool,
) -> Result<(), AllocError>
    requires { IsSorted text_cmp names.now }
    ensures { OnOk result (map string_bytes leaving.new.items ≡ map string_bytes leaving.old.items ++ originals_of backs_up (map lent_text names.now) name.now) }
{
    if backs_up {
        let beside = format!(in alloc; "{name}.orig")?;
        push_other(alloc, leaving, names, beside.as_str())?;
    }
    let hidden = format!(in alloc; ".wgetr%orig/{name}")?;
    push_other(alloc, leaving, names, hidden.as_str())
}

// Adds the names of the files of a page that has this name: of its body as it came, and of its file. Those of this run, which are in
// order, aren't added.
fn push_files(
    alloc: Global,
    leaving: &mut Vec<String>,
    names: &[&[u8]],
    name: &str,
    backs_up: bool,
) -> Result<(), AllocError>
    requires { IsSorted text_cmp names.now }
    ensures { OnOk result (map string_bytes leaving.new.items ≡ map string_bytes leaving.old.items ++ files_of backs_up (map lent_text names.now) name.now) }
{
    push_originals(alloc, leaving, names, name, backs_up)?;
    push_other(alloc, leaving, names, name)
}

// The names of the files of entries whose names aren't among these, which are in order.
fn gone_beside(
    alloc: Global,
    earlier: &[Entry],
    names: &[&[u8]],
    backs_up: bool,
) -> Result<Vec<String>, AllocError>
    requires { IsSorted text_cmp names.now }
    ensures { IfOk result (λ leaving. map string_bytes leaving.items ≡ files backs_up (map lent_text names.now) (filter (is_gone (map lent_text names.now)) earlier.now)) }
{
    let mut leaving = Vec::new(alloc);
    let mut rest = earlier;
    'entries: while let Some((entry, later)) = rest.split_first() {
        if !is_among(names, entry.name().as_bytes()) {
            push_files(alloc, &mut leaving, names, entry.name(), backs_up)?;
        }
        rest = later;
    }
    Ok(leaving)
}

/// The names of the files of an earlier run's pages whose names this run doesn't give, each after those of its body as it came: beside it,
/// if such are kept, and in the program's own directory. Fails only if memory runs out.
pub fn gone(
    alloc: Global,
    earlier: &[Entry],
    names: &[String],
    backs_up: bool,
) -> Result<Vec<String>, AllocError>
    ensures { IfOk result (λ leaving. map string_bytes leaving.items ≡ files backs_up (map string_bytes names.now) (filter (is_gone (map string_bytes names.now)) earlier.now)) }
{
    let sorted = in_order(alloc, names)?;
    gone_beside(alloc, earlier, sorted.as_slice(), backs_up)
}

// Whether a file of this name can't be where it is beside files of these names, which are in order: one of them is a directory of the
// other.
fn is_in_way(alloc: Global, names: &[&[u8]], name: &str) -> Result<bool, AllocError>
    requires { IsSorted text_cmp names.now }
    ensures { IfOk result (λ is. is ≡ is_in_way (map lent_text names.now) name.now) }
{
    if is_below(names, name.as_bytes()) {
        return Ok(true);
    }
    has_below(alloc, names, name)
}

// Whether an address is one of these, which are in order.
fn is_kept(kept: &[Address], at: &Address) -> bool
    requires { IsAscending kept.now }
    ensures { result ≡ has_name kept.now at.now }
{
    kept.binary_search(at).is_ok()
}

// Whether an entry's file is to go before files of these names, which are in order, are put: the page is kept under another name, or the
// file is in the way.
fn is_to_go(
    alloc: Global,
    entry: &Entry,
    names: &[&[u8]],
    kept: &[Address],
) -> Result<bool, AllocError>
    requires names { IsSorted text_cmp names.now }
    requires kept { IsAscending kept.now }
    ensures { IfOk result (λ is. is ≡ is_to_go (map lent_text names.now) kept.now entry.now) }
{
    if is_among(names, entry.name().as_bytes()) {
        return Ok(false);
    }
    if is_kept(kept, entry.address()) {
        return Ok(true);
    }
    is_in_way(alloc, names, entry.name())
}

// The names of the files of entries that are to go before files of these names, which are in order, are put.
fn in_way_of(
    alloc: Global,
    earlier: &[Entry],
    names: &[&[u8]],
    kept: &[Address],
    backs_up: bool,
) -> Result<Vec<String>, AllocError>
    requires names { IsSorted text_cmp names.now }
    requires kept { IsAscending kept.now }
    ensures { IfOk result (λ leaving. map string_bytes leaving.items ≡ files backs_up (map lent_text names.now) (filter (is_to_go (map lent_text names.now) kept.now) earlier.now)) }
{
    let mut leaving = Vec::new(alloc);
    let mut rest = earlier;
    'entries: while let Some((entry, later)) = rest.split_first() {
        let goes = is_to_go(alloc, entry, names, kept)?;
        if goes {
            push_files(alloc, &mut leaving, names, entry.name(), backs_up)?;
        }
        rest = later;
    }
    Ok(leaving)
}

/// The names of the files of an earlier run's pages that are to go before this run's are put: those of pages that are kept under other
/// names, and those that are in the way, since one name is a directory of the other. None is a name of this run. Each is after those of
/// its body as it came, as of [`gone`]. The addresses of the kept pages are in order. Fails only if memory runs out.
pub fn in_way(
    alloc: Global,
    earlier: &[Entry],
    names: &[String],
    kept: &[Address],
    backs_up: bool,
) -> Result<Vec<String>, AllocError>
    requires { IsAscending kept.now }
    ensures { IfOk result (λ leaving. map string_bytes leaving.items ≡ files backs_up (map string_bytes names.now) (filter (is_to_go (map string_bytes names.now) kept.now) earlier.now)) }
{
    let sorted = in_order(alloc, names)?;
    in_way_of(alloc, earlier, sorted.as_slice(), kept, backs_up)
}

// Adds a name, if it is a directory of some of these others, which are in order.
fn push_displaced(
    alloc: Global,
    leaving: &mut Vec<String>,
    names: &[&[u8]],
    name: &str,
) -> Result<(), AllocError>
    requires { IsSorted text_cmp names.now }
    ensures { OnOk result (map string_bytes leaving.new.items ≡ map string_bytes leaving.old.items ++ displaced_name (map lent_text names.now) name.now) }
{
    let is_displaced = has_below(alloc, names, name)?;
    if is_displaced {
        leaving.push(String::from_str(alloc, name)?)?;
    }
    Ok(())
}

// Those of these names that are directories of others, which are in order.
fn displaced_among(
    alloc: Global,
    alone: &[String],
    names: &[&[u8]],
) -> Result<Vec<String>, AllocError>
    requires { IsSorted text_cmp names.now }
    ensures { IfOk result (λ leaving. map string_bytes leaving.items ≡ filter (is_displaced (map lent_text names.now)) (map string_bytes alone.now)) }
{
    let mut leaving = Vec::new(alloc);
    let mut rest = alone;
    'names: while let Some((name, later)) = rest.split_first() {
        push_displaced(alloc, &mut leaving, names, name.as_str())?;
        rest = later;
    }
    Ok(leaving)
}

/// Those of the names that pages have by themselves whose files are to go before files of this run's names are put: directories are to
/// be in their places. Fails only if memory runs out.
pub fn displaced(
    alloc: Global,
    alone: &[String],
    names: &[String],
) -> Result<Vec<String>, AllocError>
    ensures { IfOk result (λ leaving. map string_bytes leaving.items ≡ filter (is_displaced (map string_bytes names.now)) (map string_bytes alone.now)) }
{
    let sorted = in_order(alloc, names)?;
    displaced_among(alloc, alone, sorted.as_slice())
}

// The names of the files of the bodies as they came of entries whose names are among these renewed ones. Both lists are in order.
fn outdated_among(
    alloc: Global,
    earlier: &[Entry],
    names: &[&[u8]],
    renewed: &[&[u8]],
    backs_up: bool,
) -> Result<Vec<String>, AllocError>
    requires names { IsSorted text_cmp names.now }
    requires renewed { IsSorted text_cmp renewed.now }
    ensures { IfOk result (λ leaving. map string_bytes leaving.items ≡ originals backs_up (map lent_text names.now) (filter (is_renewed (map lent_text renewed.now)) earlier.now)) }
{
    let mut leaving = Vec::new(alloc);
    let mut rest = earlier;
    'entries: while let Some((entry, later)) = rest.split_first() {
        if is_among(renewed, entry.name().as_bytes()) {
            push_originals(alloc, &mut leaving, names, entry.name(), backs_up)?;
        }
        rest = later;
    }
    Ok(leaving)
}

/// The names of the files of an earlier run's bodies as they came whose pages' files are renewed, under the same names, by bodies that were
/// received since: beside them, if such are kept, and in the program's own directory. None is a name of this run. Fails only if memory runs
/// out.
pub fn outdated(
    alloc: Global,
    earlier: &[Entry],
    names: &[String],
    renewed: &[String],
    backs_up: bool,
) -> Result<Vec<String>, AllocError>
    ensures { IfOk result (λ leaving. map string_bytes leaving.items ≡ originals backs_up (map string_bytes names.now) (filter (is_renewed (map string_bytes renewed.now)) earlier.now)) }
{
    let sorted = in_order(alloc, names)?;
    let renewed = in_order(alloc, renewed)?;
    outdated_among(
        alloc,
        earlier,
        sorted.as_slice(),
        renewed.as_slice(),
        backs_up,
    )
}
