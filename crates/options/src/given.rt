//! What is found for an option: flags, levels, numbers and lists.
ghost use Rattle.std.specs.Prelude.{◌≡◌, ◌⊎◌, true, ◌<◌, ◌≤◌, option_map, Some, None, IfSome, MatchResult};
ghost use Rattle.clap.specs.Words.{found_of, rows_of, first_of};
ghost use Rattle.follow_filters.specs.Elements.{ReadsElement};
ghost use Rattle.follow_filters.specs.Levels.{number_in};
ghost use Rattle.follow_filters.specs.Limits.{is_in_range};
ghost use Rattle.options.specs.declared.fault.LineFault.TheVariants as fault;
ghost use Rattle.options.specs.Given.{is_set, number_within, number_given, level_of, list_of};

use crate::fault::LineFault;
use clap::ArgMatches;
use follow_filters::{Element, ElementFault, Elements, Limit};
use std::alloc::Global;

/// The first value of an option.
pub(crate) fn given<'a>(matches: &ArgMatches<'a>, id: &str) -> Option<&'a str>
    ensures { option_map (λ s. s.now) result ≡ first_of id.now (rows_of (found_of matches.now)) }
{
    matches.get_str(id)
}

/// Whether a flag is given.
pub(crate) fn is_set(matches: &ArgMatches, id: &str) -> bool
    ensures { result ≡ is_set id.now (rows_of (found_of matches.now)) }
{
    given(matches, id) == Some("true")
}

/// The number that a text is.
pub(crate) fn number_in(text: &str) -> Option<u32>
    ensures { result ≡ number_in text.now }
{
    text.parse().ok()
}

fn within(most: u32, number: Option<u32>) -> Option<u32>
    ensures value { result ≡ number_within most number }
    ensures bounds { IfSome result (λ n. (0 < n) × (n ≤ most)) }
{
    match number {
        Some(n) if 0 < n && n <= most => Some(n),
        _ => None,
    }
}

/// The number that an option gives, from 1 to the most, or the default if it isn't given.
#[tactic(auto, unfolding(crate::specs::Given::number_given))]
pub(crate) fn number(matches: &ArgMatches, id: &str, most: u32, default: u32) -> Option<u32>
    requires { (0 < default) × (default ≤ most) }
    ensures value { result ≡ number_given id.now most default (rows_of (found_of matches.now)) }
    ensures bounds { IfSome result (λ n. (0 < n) × (n ≤ most)) }
{
    match given(matches, id) {
        Some(text) => within(most, number_in(text)),
        None => Some(default),
    }
}

/// The limit that the level sets, 5 hops if it isn't given.
#[tactic(auto, unfolding(crate::specs::Given::level_of))]
pub(crate) fn level(matches: &ArgMatches) -> Option<Limit>
    ensures value { result ≡ level_of (rows_of (found_of matches.now)) }
    ensures in_range { IfSome result (λ limit. is_in_range limit ≡ true) }
{
    match given(matches, "level") {
        Some(text) => Limit::read(text),
        None => Some(Limit::AtMost(5)),
    }
}

/// The elements of an option's list; an option that isn't given has none.
#[tactic(auto, unfolding(crate::specs::Given::list_of))]
pub(crate) fn list<T: Element>(
    alloc: Global,
    matches: &ArgMatches,
    id: &str,
) -> Result<Elements<T>, ElementFault>
    ensures { ReadsElement result (list_of T.read_of id.now (rows_of (found_of matches.now))) }
{
    Elements::read(alloc, given(matches, id).unwrap_or(""))
}

/// The elements of an option's list; `bad` if one is bad.
pub(crate) fn elements<T: Element>(
    alloc: Global,
    matches: &ArgMatches,
    id: &str,
    bad: LineFault,
) -> Result<Elements<T>, LineFault>
    ensures { MatchResult result (λ es. list_of T.read_of id.now (rows_of (found_of matches.now)) ≡ Some es)
        (λ f. ((f ≡ bad) × (list_of T.read_of id.now (rows_of (found_of matches.now)) ≡ None)) ⊎ (f ≡ fault.Memory)) }
{
    match list(alloc, matches, id) {
        Ok(elements) => Ok(elements),
        Err(ElementFault::Bad) => Err(bad),
        Err(ElementFault::Memory) => Err(LineFault::Memory),
    }
}
