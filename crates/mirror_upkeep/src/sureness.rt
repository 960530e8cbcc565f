//! Whether what a run doesn't have is gone.
ghost use Rattle.std.specs.Prelude.{◌≡◌, ◌↔◌, All, IsTrue, MatchBool, false};
ghost use Rattle.mirror_index.specs.Indexes.{HasNone};
ghost use Rattle.mirror_upkeep.specs.Sure.{IsSure, is_open};

use address::Address;
use fetcher::Outcome;
use harvest::{Harvest, HarvestEntry};
use mirror_index::MirrorIndex;

// Whether what became of an address leaves open what is there: it wasn't answered, or by a failure other than that nothing is there.
fn is_open(outcome: &Outcome) -> bool
    ensures { result ≡ is_open outcome.now }
{
    match outcome {
        Outcome::Fault(_) => true,
        Outcome::Leaf(status) => *status >= 400 && *status != 404 && *status != 410,
        Outcome::Page(_, _) | Outcome::Moved(_, _) => false,
    }
}

// Whether it is known of each of these addresses what is there.
fn are_answered(records: &[(Address, Outcome)]) -> bool
    ensures { IsTrue result ↔ All (λ r. is_open r.1 ≡ false) records.now }
{
    for (_, outcome) in records {
        if is_open(outcome) {
            return false;
        }
    }
    true
}

// Whether an index has this address.
fn has(index: &MirrorIndex, at: &Address) -> bool
    ensures { MatchBool result (¬ HasNone index.now at.now) (HasNone index.now at.now) }
{
    index.entry(at).is_some()
}

// Whether robots rules refuse none of the addresses that an earlier index has.
fn are_allowed(entries: &[HarvestEntry], earlier: &MirrorIndex) -> bool
    ensures { IsTrue result ↔ All (λ e. IsTrue e.refused → HasNone earlier.now e.address) entries.now }
{
    for entry in entries {
        if entry.refused && has(earlier, &entry.address) {
            return false;
        }
    }
    true
}

/// Whether what a harvest doesn't have is gone: some page was kept, each address was answered, and robots rules refuse none that an
/// earlier index has, since they also do so if they can't be had.
pub fn is_sure<B: Drop>(harvest: &Harvest<B>, earlier: &MirrorIndex) -> bool
    ensures { IsTrue result ↔ IsSure harvest.now earlier.now }
{
    if harvest.kept().is_empty() {
        return false;
    }
    if !are_answered(harvest.records()) {
        return false;
    }
    are_allowed(harvest.entries(), earlier)
}
