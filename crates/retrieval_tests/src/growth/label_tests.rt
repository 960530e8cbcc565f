//! A table of labels to which an offer is refused is as it was, and then takes it.
use crate::growth::common::address;
use depth_labels::{LabelFault, Labels, Offer};
use std::alloc::Global;
use std::process::Abort;

/// What is offered: each line is an address, a depth, what the offer answers, and then the depths in order of discovery.
const OFFERS: &str = "http://h/a 3 New 3
http://h/b 5 New 35
http://h/a 2 Lowered 25
http://h/b 6 Kept 25
http://h/c 1 New 251
http://h/d 4 New 2514
http://h/e 9 New 25149
http://h/f 0 Full 25149";

/// The word for an answer.
fn word_of(answer: Result<Offer, LabelFault>) -> &'static str {
    match answer {
        Ok(Offer::New) => "New",
        Ok(Offer::Lowered) => "Lowered",
        Ok(Offer::Kept) => "Kept",
        Err(LabelFault::Full) => "Full",
        Err(LabelFault::Memory) => "Memory",
    }
}

/// The depths, as the digits of a number.
fn depths_of(labels: &Labels) -> u32 {
    let mut depths = 0u32;
    for (_, depth) in labels.iter() {
        depths = depths.wrapping_mul(10).wrapping_add(*depth);
    }
    depths
}

/// Whether the offer of a line is answered as it says, and one that is refused memory changes nothing.
fn is_answered(rt: &impl Abort, alloc: Global, labels: &mut Labels, line: &str) -> bool {
    let (text, rest) = line.split_once(' ').unwrap_or((line, ""));
    let (depth, rest) = rest.split_once(' ').unwrap_or((rest, ""));
    let (answer, depths) = rest.split_once(' ').unwrap_or((rest, ""));
    let depth = depth.parse::<u32>().expect(rt, "a depth");
    let depths = depths.parse::<u32>().expect(rt, "depths");
    let address = address(rt, alloc, text);
    let before = depths_of(labels);
    let mut told = word_of(labels.offer(&address, depth));
    if told == "Memory" {
        assert!(rt; depths_of(labels) == before, "{line}");
        told = word_of(labels.offer(&address, depth));
    }
    told == answer && depths_of(labels) == depths
}

#[test]
fn a_refused_offer_leaves_the_table_as_it_was(rt: HostRuntime) {
    let mut labels = Labels::new(rt.alloc(), 5);
    for line in OFFERS.lines() {
        assert!(rt; is_answered(&rt, rt.alloc(), &mut labels, line), "{line}");
    }
}
