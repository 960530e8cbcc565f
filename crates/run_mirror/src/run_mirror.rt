//! What a run kept.
ghost use Rattle.std.specs.Prelude.{◌≡◌, List, ℕ, Option, length, map, string_bytes};
ghost use Rattle.address.specs.AddressOrder.{IsAscending};
ghost use Rattle.run_mirror.specs.Mirrors.{name_in, recorded_addresses, target_in};

use crate::lookup::{name_of, outcome_of, target_of};
use crate::place_hints::PlaceHints;
use address::Address;
use fetcher::Outcome;
use link_changes::Mirror;
use std::alloc::Global;
use std::marker::Model;

/// What a run kept, under which names, and where it was redirected. Each look takes a time
/// that is logarithmic in the number of addresses, or constant with hints of names, and no memory.
#[derive(Drop)]
pub struct RunMirror<'a> {
    pub(crate) kept: &'a [Address],
    pub(crate) names: &'a [String],
    records: &'a [(Address, Outcome)],
    // Of the kept pages.
    hints: Option<PlaceHints>,
}

// Contracts see the lists.
impl<'a> Model for RunMirror<'a> {
    ghost use Rattle.std.specs.Prelude.{map, string_bytes};
    ghost use Rattle.run_mirror.specs.Mirrors.{Kept, IsOrdered};

    ghost Value = { Kept };

    ghost view = { λ run. record { kept = run.kept.now; names = map string_bytes run.names.now; records = run.records.now } };

    ghost invariant = { λ run. IsOrdered (record { kept = run.kept.now; names = map string_bytes run.names.now; records = run.records.now }) };
}

impl<'a> RunMirror<'a> {
    /// What a run kept: these pages, each with its name in its place, and the outcomes that it recorded. Pages and records are in address
    /// order, as a harvest has them. Takes no memory.
    pub fn new(
        kept: &'a [Address],
        names: &'a [String],
        records: &'a [(Address, Outcome)],
    ) -> RunMirror<'a>
        requires named { length names.now ≡ length kept.now }
        requires kept { IsAscending kept.now }
        requires records { IsAscending (recorded_addresses records.now) }
        ensures { result ≡ record { kept = kept.now; names = map string_bytes names.now; records = records.now } }
    {
        RunMirror {
            kept,
            names,
            records,
            hints: None,
        }
    }

    /// The same, with hints by which names are found without a search. They take 8 bytes for each page; without memory for them there are none.
    pub fn with_hints(self, alloc: Global) -> RunMirror<'a>
        ensures { result ≡ self.entry }
    {
        let hints = PlaceHints::of(alloc, self.kept).ok();
        RunMirror { hints, ..self }
    }

    /// The outcome that the run recorded of an address. Takes no memory.
    pub(crate) fn outcome(&self, address: &Address) -> Option<&Outcome>
        ensures { option_map (λ outcome. outcome.now) result ≡ outcome_among self.now.records address.now }
    {
        outcome_of(self.records, address)
    }
}

ghost use Rattle.std.specs.Prelude.{option_map};
ghost use Rattle.run_mirror.specs.Mirrors.{outcome_among};

impl<'a> Mirror for RunMirror<'a> {
    ghost name_of = { λ run u. name_in run u };

    ghost target_of = { λ run u. target_in run u };

    fn name(&self, address: &Address) -> Option<&str> {
        name_of(&self.hints, self.kept, self.names, address)
    }

    fn target(&self, address: &Address) -> Option<&Address> {
        match self.outcome(address) {
            Some(outcome) => target_of(outcome),
            None => None,
        }
    }
}
