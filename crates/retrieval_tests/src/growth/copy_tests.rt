//! A copy of an address, which shares its URL.
use crate::growth::common::address;

#[test]
fn a_copy_takes_no_memory(rt: HostRuntime) {
    let page = address(&rt, rt.alloc(), "http://h/a");
    let copy = page.try_clone().expect(&rt, "a copy");
    assert!(rt; copy == page);
}
