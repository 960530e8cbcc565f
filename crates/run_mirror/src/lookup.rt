//! Searches by address among what a run kept and recorded, which is in address order.
ghost use Rattle.std.specs.Prelude.{◌≡◌, ◌<◌, List, [], IfSome, length, map, option_map, slice_index_or, string_bytes};
ghost use Rattle.address.specs.AddressOrder.{IsAscending};
ghost use Rattle.run_mirror.specs.Mirrors.{name_among, outcome_among, recorded_addresses, target};
ghost use Rattle.run_mirror.specs.Anew.{is_read};

use crate::place_hints::PlaceHints;
use address::Address;
use fetcher::Outcome;

// The place of a page, if there are hints and one leads there.
fn guess(hints: &Option<PlaceHints>, kept: &[Address], page: &Address) -> Option<usize>
    ensures place { IfSome result (λ place. place < length kept.now) }
    ensures page { IfSome result (λ place. slice_index_or kept.now place [] ≡ page.now) }
{
    match hints {
        Some(hints) => hints.place(kept, page),
        None => None,
    }
}

/// The name of a page among those that are kept, each with its name in its place. It is searched for if no hint leads there.
pub(crate) fn name_of<'a>(
    hints: &Option<PlaceHints>,
    kept: &[Address],
    names: &'a [String],
    page: &Address,
) -> Option<&'a str>
    requires count { length names.now ≡ length kept.now }
    requires ascending { IsAscending kept.now }
    ensures { option_map (λ name. name.now) result ≡ name_among kept.now (map string_bytes names.now) page.now }
{
    if let Some(place) = guess(hints, kept, page) {
        return Some(names[place].as_str());
    }
    match kept.binary_search(page) {
        Ok(place) => Some(names[place].as_str()),
        Err(_) => None,
    }
}

/// The outcome that is recorded of an address.
pub(crate) fn outcome_of<'a>(
    records: &'a [(Address, Outcome)],
    address: &Address,
) -> Option<&'a Outcome>
    requires { IsAscending (recorded_addresses records.now) }
    ensures { option_map (λ outcome. outcome.now) result ≡ outcome_among records.now address.now }
{
    match records.binary_search_by(|recorded| recorded.0.cmp(address)) {
        Ok(place) => Some(&records[place].1),
        Err(_) => None,
    }
}

/// Where an outcome redirects.
pub(crate) fn target_of(outcome: &Outcome) -> Option<&Address>
    ensures { option_map (λ to. to.now) result ≡ target outcome.now }
{
    match outcome {
        Outcome::Moved(_, to) => Some(to),
        Outcome::Page(_, _) | Outcome::Leaf(_) | Outcome::Fault(_) => None,
    }
}

/// Whether links were looked for in the body of an outcome.
pub(crate) fn is_read(outcome: Option<&Outcome>) -> bool
    ensures { result ≡ is_read (option_map (λ outcome. outcome.now) outcome.entry) }
{
    match outcome {
        Some(Outcome::Page(_, _)) => true,
        Some(Outcome::Moved(_, _) | Outcome::Leaf(_) | Outcome::Fault(_)) => false,
        None => false,
    }
}
