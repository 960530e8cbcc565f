//! What a frontier holds, gathered in address order.
ghost use Rattle.std.specs.Prelude.{◌≡◌, List, Some, IfOk, IsTrue, All, map, IsPermutation};
ghost use Rattle.std.specs.List.{filter_map};
ghost use Rattle.frontier_core.specs.Tables.{IsOnce};
ghost use Rattle.harvest.specs.declared.page.KeptPage.{KeptPage};
ghost use Rattle.frontier_core.specs.Readers.{entry_of, record_of, ruled_of, item_entry};
ghost use Rattle.address.specs.AddressOrder.{IsAscending};
ghost use Rattle.harvest.specs.Entries.{is_refused, seen_of, seen_in, said_by, recorded_addresses, ruled_origins, IsPlaceOf};

use crate::entry::HarvestEntry;
use crate::named::sort_by_name;
use crate::page::KeptPage;
use address::{Address, Origin};
use fetcher::Outcome;
use frontier_core::{AddressState, Entries, Frontier, Records, Rules};
use robots_rules::RuleSet;
use std::alloc::{AllocError, Global};

// Copies of records, in their order.
fn copy_records(alloc: Global, records: Records<'_>) -> Result<Vec<(Address, Outcome)>, AllocError>
    ensures { IfOk result (λ copies. copies.items ≡ records.entry) }
{
    let mut copies = Vec::new(alloc);
    let mut records = records;
    'records: while let Some((address, outcome)) = records.next() {
        copies.push((address.try_clone()?, outcome.try_clone()?))?;
    }
    Ok(copies)
}

/// The records of a frontier in address order.
pub fn gather_records(
    alloc: Global,
    frontier: &Frontier,
) -> Result<Vec<(Address, Outcome)>, AllocError>
    ensures ascending { IfOk result (λ records. IsAscending (recorded_addresses records.items)) }
    ensures same { IfOk result (λ records. IsPermutation (filter_map record_of frontier.now.state.entries) records.items) }
{
    let mut records = copy_records(alloc, frontier.records())?;
    sort_by_name(&mut records)?;
    Ok(records)
}

// Copies of origins and their rules, in their order.
fn copy_rules(alloc: Global, rules: Rules<'_>) -> Result<Vec<(Origin, RuleSet)>, AllocError>
    ensures { IfOk result (λ copies. copies.items ≡ rules.entry) }
{
    let mut copies = Vec::new(alloc);
    let mut rules = rules;
    'rules: while let Some((origin, set)) = rules.next() {
        copies.push((origin.try_clone()?, set.try_clone(alloc)?))?;
    }
    Ok(copies)
}

/// The origins whose rules a frontier knows, in origin order, each with its rules.
pub fn gather_rules(
    alloc: Global,
    frontier: &Frontier,
) -> Result<Vec<(Origin, RuleSet)>, AllocError>
    ensures ascending { IfOk result (λ rules. IsAscending (ruled_origins rules.items)) }
    ensures same { IfOk result (λ rules. IsPermutation (filter_map ruled_of frontier.now.state.origins) rules.items) }
{
    let mut rules = copy_rules(alloc, frontier.rules())?;
    sort_by_name(&mut rules)?;
    Ok(rules)
}

// Whether records have an address at this place.
fn stands_at(records: &[(Address, Outcome)], place: usize, address: &Address) -> bool
    ensures { IsTrue result → IsPlaceOf records.now address.now (Some place) }
{
    place < records.len() && records[place].0 == *address
}

// The place of an address's outcome in records that are in address order. The address is looked for at
// this place, and then by halves.
fn place_of(records: &[(Address, Outcome)], address: &Address, near: usize) -> Option<usize>
    requires { IsAscending (recorded_addresses records.now) }
    ensures { IsPlaceOf records.now address.now result }
{
    if stands_at(records, near, address) {
        return Some(near);
    }
    records
        .binary_search_by(|recorded| recorded.0.cmp(address))
        .ok()
}

// Whether robots rules refuse an address.
fn is_refused(condition: AddressState) -> bool
    ensures { result ≡ is_refused condition }
{
    matches!(condition, AddressState::Refused)
}

// The entry of an address, whose outcome is looked for at this place in the records first.
fn entry_of(
    address: &Address,
    depth: u32,
    condition: AddressState,
    records: &[(Address, Outcome)],
    near: usize,
) -> Result<HarvestEntry, AllocError>
    requires { IsAscending (recorded_addresses records.now) }
    ensures said { IfOk result (λ entry. said_by entry ≡ seen_of (address.now, depth, condition)) }
    ensures place { IfOk result (λ entry. IsPlaceOf records.now entry.address entry.answer) }
{
    Ok(HarvestEntry {
        address: address.try_clone()?,
        depth,
        refused: is_refused(condition),
        answer: place_of(records, address, near),
    })
}

// What is held, as a list in the same order.
fn list_held<'a>(
    alloc: Global,
    entries: Entries<'a>,
) -> Result<Vec<(&'a Address, u32, AddressState)>, AllocError>
    ensures { IfOk result (λ held. map item_entry held.items ≡ entries.entry) }
{
    let mut held = Vec::new(alloc);
    let mut entries = entries;
    'entries: while let Some(entry) = entries.next() {
        held.push(entry)?;
    }
    Ok(held)
}

// The entries of what is held, in its order, each with the place of its outcome.
fn entries_of(
    alloc: Global,
    held: &[(&Address, u32, AddressState)],
    records: &[(Address, Outcome)],
) -> Result<Vec<HarvestEntry>, AllocError>
    requires { IsAscending (recorded_addresses records.now) }
    ensures same { IfOk result (λ entries. map said_by entries.items ≡ map (λ one. seen_of (item_entry one)) held.now) }
    ensures places { IfOk result (λ entries. All (λ entry. IsPlaceOf records.now entry.address entry.answer) entries.items) }
{
    let mut entries = Vec::with_capacity(alloc, held.len())?;
    // If what is held ascends as records do, the next outcome is after the last one.
    let mut near = 0usize;
    for (address, depth, condition) in held {
        let entry = entry_of(address, *depth, *condition, records, near)?;
        if let Some(place) = entry.answer {
            near = place.saturating_add(1);
        }
        entries.push(entry)?;
    }
    Ok(entries)
}

/// The entries of a frontier in address order, each with the place of its outcome in these records.
pub fn gather_entries(
    alloc: Global,
    frontier: &Frontier,
    records: &[(Address, Outcome)],
) -> Result<Vec<HarvestEntry>, AllocError>
    requires { IsAscending (recorded_addresses records.now) }
    ensures ascending { IfOk result (λ entries. IsAscending (map (λ entry. entry.address) entries.items)) }
    ensures same { IfOk result (λ entries. IsPermutation (seen_in frontier.now.state) (map said_by entries.items)) }
    ensures places { IfOk result (λ entries. All (λ entry. IsPlaceOf records.now entry.address entry.answer) entries.items) }
{
    let mut held = list_held(alloc, frontier.entries())?;
    sort_by_name(&mut held)?;
    entries_of(alloc, held.as_slice(), records)
}

/// Addresses and bodies of pages, apart.
#[derive(Drop)]
pub struct Parted<B> {
    pub addresses: Vec<Address>,
    pub bodies: Vec<B>,
}

/// What a frontier holds, in address order, and in origin order.
#[derive(Drop)]
pub struct FrontierContents {
    pub entries: Vec<HarvestEntry>,
    pub records: Vec<(Address, Outcome)>,
    pub rules: Vec<(Origin, RuleSet)>,
}

/// What a frontier holds, each list sorted; an entry names the place of its outcome in the records.
fn gather_held(alloc: Global, frontier: &Frontier) -> Result<FrontierContents, AllocError>
    ensures entries_ascend { IfOk result (λ held. IsAscending (map (λ entry. entry.address) held.entries.items)) }
    ensures entries { IfOk result (λ held. IsPermutation (seen_in frontier.now.state) (map said_by held.entries.items)) }
    ensures places { IfOk result (λ held. All (λ entry. IsPlaceOf held.records.items entry.address entry.answer) held.entries.items) }
    ensures records_ascend { IfOk result (λ held. IsAscending (recorded_addresses held.records.items)) }
    ensures records { IfOk result (λ held. IsPermutation (filter_map record_of frontier.now.state.entries) held.records.items) }
    ensures rules_ascend { IfOk result (λ held. IsAscending (ruled_origins held.rules.items)) }
    ensures rules { IfOk result (λ held. IsPermutation (filter_map ruled_of frontier.now.state.origins) held.rules.items) }
{
    let records = gather_records(alloc, frontier)?;
    let entries = gather_entries(alloc, frontier, records.as_slice())?;
    let rules = gather_rules(alloc, frontier)?;
    Ok(FrontierContents {
        entries,
        records,
        rules,
    })
}

// Takes pages apart.
fn part_pages<B: Drop>(alloc: Global, pages: Vec<KeptPage<B>>) -> Result<Parted<B>, AllocError>
    ensures addresses { IfOk result (λ parted. parted.addresses.items ≡ map (λ page. page.address) pages.items) }
    ensures bodies { IfOk result (λ parted. parted.bodies.items ≡ map (λ page. page.body) pages.items) }
{
    let mut addresses = Vec::with_capacity(alloc, pages.len())?;
    let mut bodies = Vec::with_capacity(alloc, pages.len())?;
    for page in pages {
        let KeptPage { address, body } = page;
        addresses.push(address)?;
        bodies.push(body)?;
    }
    Ok(Parted { addresses, bodies })
}

/// Pages in address order, taken apart.
fn order_pages<B: Drop>(alloc: Global, mut pages: Vec<KeptPage<B>>) -> Result<Parted<B>, AllocError>
    requires { IsOnce (map (λ page. page.address) pages.items) }
    ensures { IfOk result (λ parted. (sorted : List (KeptPage B)) × IsPermutation pages.items sorted × IsAscending (map (λ page. page.address) sorted)
        × (parted.addresses.items ≡ map (λ page. page.address) sorted) × (parted.bodies.items ≡ map (λ page. page.body) sorted)) }
{
    sort_by_name(&mut pages)?;
    let parted = part_pages(alloc, pages)?;
    Ok(parted)
}

/// What a frontier holds, and pages in address order, taken apart.
pub fn gather_all<B: Drop>(
    alloc: Global,
    frontier: &Frontier,
    pages: Vec<KeptPage<B>>,
) -> Result<(FrontierContents, Parted<B>), AllocError>
    requires { IsOnce (map (λ page. page.address) pages.items) }
    ensures entries_ascend { IfOk result (λ all. IsAscending (map (λ entry. entry.address) all.0.entries.items)) }
    ensures entries { IfOk result (λ all. IsPermutation (seen_in frontier.now.state) (map said_by all.0.entries.items)) }
    ensures places { IfOk result (λ all. All (λ entry. IsPlaceOf all.0.records.items entry.address entry.answer) all.0.entries.items) }
    ensures records_ascend { IfOk result (λ all. IsAscending (recorded_addresses all.0.records.items)) }
    ensures records { IfOk result (λ all. IsPermutation (filter_map record_of frontier.now.state.entries) all.0.records.items) }
    ensures rules_ascend { IfOk result (λ all. IsAscending (ruled_origins all.0.rules.items)) }
    ensures rules { IfOk result (λ all. IsPermutation (filter_map ruled_of frontier.now.state.origins) all.0.rules.items) }
    ensures pages { IfOk result (λ all. (sorted : List (KeptPage B)) × IsPermutation pages.items sorted × IsAscending (map (λ page. page.address) sorted)
        × (all.1.addresses.items ≡ map (λ page. page.address) sorted) × (all.1.bodies.items ≡ map (λ page. page.body) sorted)) }
{
    let held = gather_held(alloc, frontier)?;
    let parted = order_pages(alloc, pages)?;
    Ok((held, parted))
}
