//! Classes of bytes in a pattern, such as `[a-c]` (GNU Wget manual, section Types of Files).
ghost use Rattle.std.specs.Prelude.{◌≡◌, ◌<◌, [], length, Some, MatchOption, MatchResult, is_some};
ghost use Rattle.follow_filters.specs.Classes.{bracketed_class, class_with, ranges_of, then_range};
ghost use Rattle.follow_filters.specs.Elements.{IsFaultOf};

use crate::elements::ElementFault;
use std::alloc::Global;
use std::marker::Model;

/// The bytes from `low` to `high`.
#[derive(Clone, Copy, PartialEq, Eq)]
pub(crate) struct Range {
    low: u8,
    high: u8,
}

/// A class of bytes, such as `[a-c]` or `[!a-c]`.
#[derive(Drop)]
pub(crate) struct Class {
    is_negated: bool,
    ranges: Vec<Range>,
}

// Contracts see a class as whether it is negated, and its ranges.
impl Model for Class {
    ghost use Rattle.follow_filters.specs.ClassValues.{ClassValue};

    ghost Value = { ClassValue };

    ghost view = { λ c. record { is_negated = c.is_negated; ranges = c.ranges.items } };
}

impl Range {
    ghost use Rattle.follow_filters.specs.Classes.{is_in};

    fn has(&self, byte: u8) -> bool
        ensures { result ≡ is_in byte self.now }
    {
        self.low <= byte && byte <= self.high
    }
}

impl Class {
    ghost use Rattle.std.specs.Prelude.{is_some};
    ghost use Rattle.follow_filters.specs.Classes.{class_names, class_takes, class_names_letter, class_takes_any_case, bracketed_class};
    ghost use Rattle.follow_filters.specs.Elements.{ReadsElement};

    /// Reads what is between the brackets of a class: a `!` if one comes first, and one or more items; `Bad` if there
    /// is none, or if one has its greater byte first.
    pub(crate) fn read(alloc: Global, inner: &[u8]) -> Result<Class, ElementFault>
        ensures { ReadsElement result (bracketed_class inner.now) }
    {
        let (is_negated, items) = split_negation(inner);
        let ranges = read_ranges(alloc, items)?;
        if ranges.is_empty() {
            return Err(ElementFault::Bad);
        }
        Ok(Class { is_negated, ranges })
    }

    /// Whether a class can be read of what is between its brackets. Takes no memory.
    pub(crate) fn is_spelled(inner: &[u8]) -> bool
        ensures { result ≡ is_some (bracketed_class inner.now) }
    {
        let (_, items) = split_negation(inner);
        !items.is_empty() && are_spelled(items)
    }

    fn names(&self, byte: u8) -> bool
        ensures { result ≡ class_names self.now byte }
    {
        self.ranges.iter().any(|range| range.has(byte))
    }

    pub(crate) fn takes(&self, byte: u8) -> bool
        ensures { result ≡ class_takes self.now byte }
    {
        if self.is_negated {
            !self.names(byte)
        } else {
            self.names(byte)
        }
    }

    // Whether a range names the byte in lower or in upper case.
    fn names_letter(&self, byte: u8) -> bool
        ensures { result ≡ class_names_letter self.now byte }
    {
        self.names(byte.to_ascii_lowercase()) || self.names(byte.to_ascii_uppercase())
    }

    /// What the class takes if the case of letters doesn't count.
    pub(crate) fn takes_any_case(&self, byte: u8) -> bool
        ensures { result ≡ class_takes_any_case self.now byte }
    {
        if self.is_negated {
            !self.names_letter(byte)
        } else {
            self.names_letter(byte)
        }
    }
}

// Whether a `!` comes first, and the items of the class.
fn split_negation(inner: &[u8]) -> (bool, &[u8])
    ensures { bracketed_class inner.now ≡ class_with result.0 (ranges_of result.1.now) }
{
    match inner {
        [b'!', items @ ..] => (true, items),
        _ => (false, inner),
    }
}

// The first item of a class, and the items after it: `x-y` is a range, and any other byte means itself.
fn split_item(items: &[u8]) -> Option<(Range, &[u8])>
    ensures { MatchOption result (items.now ≡ []) (λ x. (ranges_of items.now ≡ then_range x.0 (ranges_of x.1.now))
        × (length x.1.now < length items.now)) }
{
    match items {
        [] => None,
        [low, b'-', high, behind @ ..] => Some((
            Range {
                low: *low,
                high: *high,
            },
            behind,
        )),
        [byte, behind @ ..] => Some((
            Range {
                low: *byte,
                high: *byte,
            },
            behind,
        )),
    }
}

// Whether the items of a class spell ranges.
fn are_spelled(items: &[u8]) -> bool
    ensures { result ≡ is_some (ranges_of items.now) }
{
    let mut rest = items;
    while let Some((range, behind)) = split_item(rest) {
        if range.low > range.high {
            return false;
        }
        rest = behind;
    }
    true
}

// The ranges that the items of a class spell.
fn read_ranges(alloc: Global, items: &[u8]) -> Result<Vec<Range>, ElementFault>
    ensures { MatchResult result (λ v. ranges_of items.now ≡ Some v.items) (IsFaultOf (ranges_of items.now)) }
{
    let mut ranges = Vec::new(alloc);
    let mut rest = items;
    while let Some((range, behind)) = split_item(rest) {
        if range.high < range.low {
            return Err(ElementFault::Bad);
        }
        ranges.push(range)?;
        rest = behind;
    }
    Ok(ranges)
}
