//! Things that are ordered by the text of an address or an origin.
ghost use Rattle.std.specs.Prelude.{◌≡◌, List, ℕ, map, OnOk, IsPermutation};
ghost use Rattle.frontier_core.specs.Tables.{IsOnce};
ghost use Rattle.address.specs.AddressOrder.{IsAscending};

use crate::near_order::order_nearly;
use crate::page::KeptPage;
use address::{Address, Origin};
use fetcher::Outcome;
use frontier_core::AddressState;
use robots_rules::RuleSet;
use std::alloc::AllocError;

/// Things that are named by a text.
pub trait Named {
    /// The text.
    ghost text_of: { Self → List ℕ };

    /// The text by which this is named.
    fn name(&self) -> &str
        ensures { result.now ≡ text_of self.now };
}

impl<'a> Named for (&'a Address, u32, AddressState) {
    ghost text_of = { λ held. held.0.now };

    fn name(&self) -> &str {
        self.0.as_str()
    }
}

impl<B> Named for KeptPage<B> {
    ghost text_of = { λ page. page.address };

    fn name(&self) -> &str {
        self.address.as_str()
    }
}

impl Named for (Address, Outcome) {
    ghost text_of = { λ recorded. recorded.0 };

    fn name(&self) -> &str {
        self.0.as_str()
    }
}

impl Named for (Origin, RuleSet) {
    ghost text_of = { λ ruled. ruled.0 };

    fn name(&self) -> &str {
        self.0.as_str()
    }
}

/// Sorts things of which no two are named alike, by their names' bytes. Fails only if memory runs out.
pub fn sort_by_name<T: Named>(things: &mut Vec<T>) -> Result<(), AllocError>
    requires { IsOnce (map T.text_of things.old.items) }
    ensures permutation { IsPermutation things.old.items things.new.items }
    ensures ascending { OnOk result (IsAscending (map T.text_of things.new.items)) }
{
    order_nearly(things);
    // The sort that keeps runs, so that few names are compared.
    things.sort_by(|thing, other| thing.name().cmp(other.name()))
}
