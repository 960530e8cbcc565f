//! Rows of a report: what is said of each address of a harvest.
ghost use Rattle.std.specs.Prelude.{◌≡◌, ◌<◌, List, [], IsTrue, length, IfOk, map, option_map, slice_index_or, string_bytes};
ghost use Rattle.address.specs.AddressOrder.{IsAscending};
ghost use Rattle.report.specs.inner.Fates.{fate_of};
ghost use Rattle.harvest.specs.Gathered.{AreEntries, AreRecords};
ghost use Rattle.report.specs.Entries.{name_among, fate_at, line_with, harvest_lines_of};

use address::Address;
use fetcher::Outcome;
use harvest::{Harvest, HarvestEntry};
use std::alloc::{AllocError, Global};
use std::marker::Model;

/// What became of an address.
#[derive(Clone, Copy)]
pub(crate) enum Fate<'a> {
    /// It was requested, with this outcome.
    Asked(&'a Outcome),
    /// Its origin's robots rules refuse it.
    Refused,
}

/// What the report says of one address.
#[derive(Drop)]
pub(crate) struct ReportRow<'a> {
    pub address: &'a str,
    pub depth: u32,
    pub fate: Fate<'a>,
    /// The name of its file, if its page is kept.
    pub name: Option<&'a str>,
}

// Contracts see its line, without where that lies in memory.
impl<'a> Model for ReportRow<'a> {
    ghost use Rattle.std.specs.Prelude.{option_map};
    ghost use Rattle.report.specs.Report.{Line};
    ghost use Rattle.report.specs.inner.Fates.{fate_of};

    ghost Value = { Line };

    ghost view = { λ row. record { address = row.address.now; depth = row.depth; fate = fate_of row.fate; name = option_map (λ name. name.now) row.name } };
}

// Whether this page has this place among those that are kept.
fn stands_at(kept: &[Address], place: usize, page: &Address) -> bool
    ensures { IsTrue result → (place < length kept.now) × (slice_index_or kept.now place [] ≡ page.now) }
{
    place < kept.len() && kept[place] == *page
}

// The name of a page among those that are kept, which ascend, each with its name in its place. The page
// is looked for at this place, and then by halves.
fn name_of<'a>(
    kept: &[Address],
    names: &'a [String],
    page: &Address,
    near: usize,
) -> Option<&'a str>
    requires count { length names.now ≡ length kept.now }
    requires ascending { IsAscending kept.now }
    ensures { option_map (λ name. name.now) result ≡ name_among kept.now (map string_bytes names.now) page.now }
{
    if stands_at(kept, near, page) {
        return Some(names[near].as_str());
    }
    match kept.binary_search(page) {
        Ok(place) => Some(names[place].as_str()),
        Err(_) => None,
    }
}

// What became of an entry, if anything did.
fn fate_of<'a>(entry: &HarvestEntry, records: &'a [(Address, Outcome)]) -> Option<Fate<'a>>
    ensures { option_map fate_of result ≡ fate_at records.now entry.now.refused entry.now.answer }
{
    if entry.refused {
        return Some(Fate::Refused);
    }
    Some(Fate::Asked(&records.get(entry.answer?)?.1))
}

// The row of an entry with this fate. Its page is looked for at this place among those that are
// kept first.
fn row_of<'a, B: Drop>(
    harvest: &'a Harvest<B>,
    names: &'a [String],
    entry: &'a HarvestEntry,
    fate: Fate<'a>,
    near: usize,
) -> ReportRow<'a>
    requires { length names.now ≡ length harvest.now.kept }
    ensures { result ≡ line_with harvest.now (map string_bytes names.now) entry.now (fate_of fate.entry) }
{
    ReportRow {
        address: entry.address.as_str(),
        depth: entry.depth,
        fate,
        name: name_of(harvest.kept(), names, &entry.address, near),
    }
}

/// The rows of a harvest whose kept pages have these names, in the order of its entries.
pub(crate) fn rows_of<'a, B: Drop>(
    alloc: Global,
    harvest: &'a Harvest<B>,
    names: &'a [String],
) -> Result<Vec<ReportRow<'a>>, AllocError>
    requires { length names.now ≡ length harvest.now.kept }
    ensures rows { IfOk result (λ rows. rows.items ≡ harvest_lines_of harvest.now (map string_bytes names.now)) }
    ensures entries { AreEntries harvest.now }
    ensures records { AreRecords harvest.now }
{
    let records = harvest.records();
    let mut rows = Vec::new(alloc);
    // Entries ascend as kept pages do, so the next page that is kept is after as many.
    let mut named = 0usize;
    for entry in harvest.entries() {
        let Some(fate) = fate_of(entry, records) else {
            continue;
        };
        let row = row_of(harvest, names, entry, fate, named);
        if row.name.is_some() {
            named = named.saturating_add(1);
        }
        rows.push(row)?;
    }
    Ok(rows)
}
