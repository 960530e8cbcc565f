//! What the tests are set up with.
use address::Address;
use follow_filters::{Limit, Plan};
use std::alloc::Global;
use std::process::Abort;

/// The address of a text.
pub(crate) fn address(rt: &impl Abort, alloc: Global, text: &str) -> Address {
    match Address::read(alloc, text) {
        Ok(address) => address,
        Err(_) => Address::read(alloc, text).expect(rt, "an address"),
    }
}

/// A plan from `http://h/` to any host that honours robots rules, two hops deep and for a hundred addresses.
pub(crate) fn plan(rt: &impl Abort, alloc: Global) -> Plan {
    let start = address(rt, alloc, "http://h/");
    if start.is_robots_file() {
        panic!(rt; "a robots file");
    }
    let mut plan = Plan::unfiltered(alloc, start, Limit::AtMost(2), 100);
    plan.span_hosts = true;
    plan.robots = true;
    plan
}
