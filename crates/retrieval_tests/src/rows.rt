//! Plans. For tests.
ghost use Rattle.std.specs.Prelude.{◌≡◌, true};
ghost use Rattle.follow_filters.specs.Limits.{is_in_range};

use address::Address;
use follow_filters::{Limit, Plan};
use std::alloc::Global;
use std::process::Abort;

/// A plan without filters from this address, so deep and for so many addresses.
fn plan_from(rt: &impl Abort, alloc: Global, start: &str, limit: Limit, most: u16) -> Plan
    requires { is_in_range limit ≡ true }
{
    let start = Address::read(alloc, start).expect(rt, "an address");
    if start.is_robots_file() || most == 0 {
        panic!(rt; "no plan");
    }
    Plan::unfiltered(alloc, start, limit, u32::from(most))
}

/// Such a plan from `http://h/`, so many hops deep.
pub(crate) fn plan(rt: &impl Abort, alloc: Global, hops: u8, most: u16) -> Plan {
    let limit = Limit::AtMost(u32::from(hops));
    plan_from(rt, alloc, "http://h/", limit, most)
}
