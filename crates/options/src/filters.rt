//! What words say of filters: lists of names, directories and hosts, expressions, and where links are taken from.
ghost use Rattle.std.specs.Prelude.{◌≡◌, ◌⊎◌, Some, None, MatchResult};
ghost use Rattle.clap.specs.Words.{found_of, rows_of};
ghost use Rattle.options.specs.declared.fault.LineFault.TheVariants as fault;
ghost use Rattle.options.specs.Given.{list_of};
ghost use Rattle.options.specs.Line.{rows};
ghost use Rattle.options.specs.Sought.{IsUnsaid};
ghost use Rattle.options.specs.Order.{both, patterns_of, directories_of, domains_of, expressions_of, seeks, rows_taken, taken_if};
ghost use Rattle.options.specs.inner.Order.{FailsToFilter};

use crate::fault::LineFault;
use crate::given::{elements, given};
use crate::sought::{Sought, read_sought};
use clap::ArgMatches;
use follow_filters::{Directory, Domain, Element, Elements, Pattern};
use html_links::RowSet;
use std::alloc::Global;

// The lists of an option and of its opposite.
#[derive(Drop)]
pub(crate) struct FilterLists<T> {
    pub(crate) given: Elements<T>,
    pub(crate) excluded: Elements<T>,
}

/// The lists of names, directories and hosts, the expressions, and where links of pages are taken from.
#[derive(Drop)]
pub(crate) struct Filters {
    pub(crate) names: FilterLists<Pattern>,
    pub(crate) places: FilterLists<Directory>,
    pub(crate) hosts: FilterLists<Domain>,
    pub(crate) sought: Sought,
    pub(crate) rows: RowSet,
}

// The elements of two options' lists; `bad` if one is bad.
fn read_lists<T: Element>(
    alloc: Global,
    matches: &ArgMatches,
    id: &str,
    opposite: &str,
    bad: LineFault,
) -> Result<FilterLists<T>, LineFault>
    ensures { MatchResult result
        (λ l. both (list_of T.read_of id.now (rows_of (found_of matches.now))) (list_of T.read_of opposite.now (rows_of (found_of matches.now))) ≡ Some (l.given, l.excluded))
        (λ f. ((f ≡ bad) × (both (list_of T.read_of id.now (rows_of (found_of matches.now))) (list_of T.read_of opposite.now (rows_of (found_of matches.now))) ≡ None)) ⊎ (f ≡ fault.Memory)) }
{
    let given = elements(alloc, matches, id, bad)?;
    let excluded = elements(alloc, matches, opposite, bad)?;
    Ok(FilterLists { given, excluded })
}

// The patterns of names.
#[tactic(auto, unfolding(crate::specs::Order::patterns_of))]
fn patterns(alloc: Global, matches: &ArgMatches) -> Result<FilterLists<Pattern>, LineFault>
    ensures { MatchResult result
        (λ l. patterns_of (rows_of (found_of matches.now)) ≡ Some (l.given, l.excluded))
        (λ f. ((f ≡ fault.Pattern) × (patterns_of (rows_of (found_of matches.now)) ≡ None)) ⊎ (f ≡ fault.Memory)) }
{
    read_lists(alloc, matches, "accept", "reject", LineFault::Pattern)
}

// The directories that are included and excluded.
#[tactic(auto, unfolding(crate::specs::Order::directories_of))]
fn directories(alloc: Global, matches: &ArgMatches) -> Result<FilterLists<Directory>, LineFault>
    ensures { MatchResult result
        (λ l. directories_of (rows_of (found_of matches.now)) ≡ Some (l.given, l.excluded))
        (λ f. ((f ≡ fault.Directory) × (directories_of (rows_of (found_of matches.now)) ≡ None)) ⊎ (f ≡ fault.Memory)) }
{
    read_lists(
        alloc,
        matches,
        "include-directories",
        "exclude-directories",
        LineFault::Directory,
    )
}

// The domains that are followed and excluded.
#[tactic(auto, unfolding(crate::specs::Order::domains_of))]
fn domains(alloc: Global, matches: &ArgMatches) -> Result<FilterLists<Domain>, LineFault>
    ensures { MatchResult result
        (λ l. domains_of (rows_of (found_of matches.now)) ≡ Some (l.given, l.excluded))
        (λ f. ((f ≡ fault.Domain) × (domains_of (rows_of (found_of matches.now)) ≡ None)) ⊎ (f ≡ fault.Memory)) }
{
    read_lists(
        alloc,
        matches,
        "domains",
        "exclude-domains",
        LineFault::Domain,
    )
}

// Where links of pages are taken from by these lists; nothing if one names an attribute that has no link.
fn listed_rows(followed: &str, ignored: &str) -> Option<RowSet>
    ensures { result ≡ taken_if followed.now ignored.now }
{
    RowSet::from_lists(followed, ignored)
}

// Where links of pages are taken from.
#[tactic(auto, unfolding(crate::specs::Order::rows_taken))]
fn rows_taken(matches: &ArgMatches) -> Option<RowSet>
    ensures { result ≡ rows_taken (rows_of (found_of matches.now)) }
{
    listed_rows(
        given(matches, "follow-tags").unwrap_or(""),
        given(matches, "ignore-tags").unwrap_or(""),
    )
}

/// The lists and expressions, or the fault of the first that is bad. Here and in `order_of_matches` an exit drops what was read by explicit calls:
/// an implicit drop is proved anew at each exit.
pub(crate) fn read_filters(alloc: Global, matches: &ArgMatches) -> Result<Filters, LineFault>
    ensures { MatchResult result
        (λ l. (patterns_of (rows_of (found_of matches.now)) ≡ Some (l.names.given, l.names.excluded))
        × (directories_of (rows_of (found_of matches.now)) ≡ Some (l.places.given, l.places.excluded))
        × (domains_of (rows_of (found_of matches.now)) ≡ Some (l.hosts.given, l.hosts.excluded))
        × (expressions_of (rows_of (found_of matches.now)) ≡ Some (l.sought.accepted, l.sought.rejected))
        × (rows_taken (rows_of (found_of matches.now)) ≡ Some l.rows))
        (λ f. FailsToFilter (rows_of (found_of matches.now)) f ⊎ IsUnsaid (seeks (rows_of (found_of matches.now))) f) }
{
    let names = match patterns(alloc, matches) {
        Ok(names) => names,
        Err(fault) => return Err(fault),
    };
    let places = match directories(alloc, matches) {
        Ok(places) => places,
        Err(fault) => {
            drop(names);
            return Err(fault);
        }
    };
    let hosts = match domains(alloc, matches) {
        Ok(hosts) => hosts,
        Err(fault) => {
            drop(names);
            drop(places);
            return Err(fault);
        }
    };
    let sought = match read_sought(alloc, matches) {
        Ok(sought) => sought,
        Err(fault) => {
            drop(names);
            drop(places);
            drop(hosts);
            return Err(fault);
        }
    };
    let Some(rows) = rows_taken(matches) else {
        drop(names);
        drop(places);
        drop(hosts);
        drop(sought);
        return Err(LineFault::Tags);
    };
    Ok(Filters {
        names,
        places,
        hosts,
        sought,
        rows,
    })
}
