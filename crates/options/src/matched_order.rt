//! What matched words order.
ghost use Rattle.std.specs.Prelude.{◌≡◌, ◌⊎◌, true, ◌<◌, ◌≤◌, codes, false, not, is_none, is_some, ◌||◌, option_map, Some, None, Err, IfSome, MatchOption, MatchResult};
ghost use Rattle.clap.specs.Words.{found_of, rows_of, first_of};
ghost use Rattle.address.specs.Address.{is_robots_file};
ghost use Rattle.options.specs.declared.fault.LineFault.TheVariants as fault;
ghost use Rattle.follow_filters.specs.Limits.{is_in_range};
ghost use Rattle.follow_filters.specs.declared.plan.TheConstants.{MAX_PER_HOST, MAX_URLS};
ghost use Rattle.options.specs.declared.order.TheConstants.{MAX_WORKERS};
ghost use Rattle.options.specs.Given.{is_set};
ghost use Rattle.pacing.specs.Manners.{mannered};
ghost use Rattle.pacing.specs.Retries.{retries_by};
ghost use Rattle.options.specs.Naming.{naming_by};
ghost use Rattle.options.specs.Line.{rows};
ghost use Rattle.options.specs.Order.{AnswersRows, order_of_rows, are_good, is_plain_value, counts_of, source_of, honours_robots, limit_within, links_of, ordered, ordered_by, prefix_of, log_by, log_of, upkeep_of, agrees};
ghost use Rattle.options.specs.Asked.{without_kind, words_refused};
ghost use Rattle.options.specs.inner.Order.{Settles};

use crate::fault::LineFault;
use crate::filters::{Filters, read_filters};
use crate::given::{given, is_set, level, number};
use crate::manner::{manner, quota};
use crate::naming::{PageNames, names};
use crate::order::{
    DEFAULT_MAX_URLS, DEFAULT_PER_HOST, DEFAULT_WORKERS, MAX_WORKERS, Order, Source, Upkeep,
};
use crate::paths::{Paths, read_paths};
use crate::proxying::proxies;
use crate::request_fields::fields;
use crate::retries::retries;
use crate::sought::is_type;
use crate::start_page::start;
use address::Address;
use clap::ArgMatches;
use clap::error::ErrorKind;
use follow_filters::{Limit, MAX_PER_HOST, MAX_URLS, Plan, Starts};
use html_links::{LinkRules, RowSet};
use pacing::{Manner, Retries};
use requests::{Fields, Proxies};
use std::alloc::Global;

// The numbers of workers, requests out to an origin, and addresses, and the quota.
#[derive(Drop)]
struct Counts {
    workers: u32,
    per_host: u32,
    max_urls: u32,
    quota: Option<u64>,
    ghost some_workers: { 0 < workers },
    ghost workers_in_range: { workers ≤ MAX_WORKERS },
    ghost some_per_host: { 0 < per_host },
    ghost per_host_in_range: { per_host ≤ MAX_PER_HOST },
    ghost some_urls: { 0 < max_urls },
    ghost max_urls_in_range: { max_urls ≤ MAX_URLS },
}

// Numbers, the proxies, what shapes names and what requests say, how servers are treated, and when requests are made again.
#[derive(Drop)]
struct Settings {
    counts: Counts,
    proxies: Proxies,
    names: PageNames,
    fields: Fields,
    manner: Manner,
    retries: Retries,
}

// Whether the value of `--compression` is one that it may have.
fn is_plain_value(value: Option<&str>) -> bool
    ensures { result ≡ is_plain_value (option_map (λ s. s.now) value.entry) }
{
    match value {
        Some(value) => value == "none",
        None => true,
    }
}

// What becomes of what earlier runs left.
#[tactic(auto, unfolding(crate::specs::Order::upkeep_of))]
fn upkeep(matches: &ArgMatches) -> Upkeep
    ensures { result ≡ upkeep_of (rows_of (found_of matches.now)) }
{
    Upkeep {
        timestamps: is_set(matches, "timestamping"),
        skips: is_set(matches, "no-clobber"),
        continues: is_set(matches, "continue"),
        deletes_gone: is_set(matches, "delete-gone"),
    }
}

// Whether a record is resumed or saved.
fn has_record(matches: &ArgMatches) -> bool
    ensures { result ≡ (is_some (first_of (codes "resume") (rows_of (found_of matches.now))) || is_some (first_of (codes "save") (rows_of (found_of matches.now)))) }
{
    given(matches, "resume").is_some() || given(matches, "save").is_some()
}

// Whether all of this can be so.
fn agrees(has_record: bool, upkeep: Upkeep) -> bool
    ensures { result ≡ agrees has_record upkeep }
{
    if upkeep.timestamps && upkeep.skips {
        return false;
    }
    if has_record && (upkeep.timestamps || upkeep.skips || upkeep.continues) {
        return false;
    }
    !upkeep.deletes_gone || upkeep.timestamps || upkeep.skips
}

// Whether there is a record to resume if what failed is to be requested again.
fn has_failures(matches: &ArgMatches) -> bool
    ensures { result ≡ (not (is_set (codes "retry-failed") (rows_of (found_of matches.now))) || is_some (first_of (codes "resume") (rows_of (found_of matches.now)))) }
{
    !is_set(matches, "retry-failed") || given(matches, "resume").is_some()
}

// What is wrong with words that `clap` takes: an encoding of bodies is requested, or a kind of expressions that isn't known, or words that
// exclude each other are there.
#[tactic(auto, unfolding(crate::specs::Order::are_good))]
fn word_fault(matches: &ArgMatches) -> Option<LineFault>
    ensures good { is_none result ≡ are_good (rows_of (found_of matches.now)) }
    ensures refused { IfSome result (λ f. without_kind f ≡ words_refused) }
{
    if !is_plain_value(given(matches, "compression")) || !is_type(given(matches, "regex-type")) {
        return Some(LineFault::Words(ErrorKind::InvalidValue));
    }
    if agrees(has_record(matches), upkeep(matches)) && has_failures(matches) {
        None
    } else {
        Some(LineFault::Words(ErrorKind::ArgumentConflict))
    }
}

#[tactic(auto, unfolding(crate::specs::Order::counts_of))]
fn read_counts(matches: &ArgMatches) -> Option<Counts>
    ensures { MatchOption result (counts_of (rows_of (found_of matches.now)) ≡ None)
        (λ c. counts_of (rows_of (found_of matches.now)) ≡ Some (record { workers = c.workers; per_host = c.per_host; max_urls = c.max_urls; quota = c.quota })) }
{
    Some(Counts {
        workers: number(matches, "workers", MAX_WORKERS, DEFAULT_WORKERS)?,
        per_host: number(matches, "per-host", MAX_PER_HOST, DEFAULT_PER_HOST)?,
        max_urls: number(matches, "max-urls", MAX_URLS, DEFAULT_MAX_URLS)?,
        quota: quota(matches)?,
    })
}

fn source(matches: &ArgMatches) -> Source
    ensures { result ≡ source_of (rows_of (found_of matches.now)) }
{
    if is_set(matches, "map") {
        Source::Map
    } else if is_set(matches, "record") {
        Source::Recorded
    } else {
        Source::Live
    }
}

// The numbers, how servers are treated, what shapes names, when requests are made
// again, the proxies and what requests say: their faults come before those of levels and lists.
fn read_settings(alloc: Global, matches: &ArgMatches) -> Result<Settings, LineFault>
    ensures { MatchResult result
        (λ s. Settles (rows_of (found_of matches.now)) (record { workers = s.counts.workers; per_host = s.counts.per_host; max_urls = s.counts.max_urls; quota = s.counts.quota }) s.proxies (naming_by s.names) s.fields (mannered s.manner) (retries_by s.retries))
        (λ f. (order_of_rows (rows_of (found_of matches.now)) ≡ Err (without_kind f)) ⊎ (f ≡ fault.Memory)) }
{
    if let Some(fault) = word_fault(matches) {
        return Err(fault);
    }
    let Some(counts) = read_counts(matches) else {
        return Err(LineFault::Words(ErrorKind::InvalidValue));
    };
    let Some(manner) = manner(matches) else {
        return Err(LineFault::Words(ErrorKind::InvalidValue));
    };
    let names = match names(alloc, matches) {
        Ok(names) => names,
        Err(fault) => return Err(fault),
    };
    let retries = match retries(alloc, matches) {
        Ok(retries) => retries,
        Err(fault) => {
            drop(names);
            return Err(fault);
        }
    };
    let proxies = match proxies(alloc, matches) {
        Ok(proxies) => proxies,
        Err(fault) => {
            drop(names);
            drop(retries);
            return Err(fault);
        }
    };
    let fields = match fields(alloc, matches) {
        Ok(fields) => fields,
        Err(fault) => {
            drop(proxies);
            drop(names);
            drop(retries);
            return Err(fault);
        }
    };
    Ok(Settings {
        counts,
        proxies,
        names,
        fields,
        manner,
        retries,
    })
}

/// The order of what is found for each option, or the lowest fault.
pub(crate) fn order_of_matches(alloc: Global, matches: &ArgMatches) -> Result<Order, LineFault>
    ensures { AnswersRows (rows_of (found_of matches.now)) result (order_of_rows (rows_of (found_of matches.now))) }
{
    let settings = match read_settings(alloc, matches) {
        Ok(settings) => settings,
        Err(fault) => return Err(fault),
    };
    let Some(level) = level(matches) else {
        drop(settings);
        return Err(LineFault::Depth);
    };
    let filters = match read_filters(alloc, matches) {
        Ok(filters) => filters,
        Err(fault) => {
            drop(settings);
            return Err(fault);
        }
    };
    let page = match start(alloc, matches) {
        Ok(page) => page,
        Err(fault) => {
            drop(settings);
            drop(filters);
            return Err(fault);
        }
    };
    let Ok(paths) = read_paths(alloc, matches) else {
        drop(settings);
        drop(filters);
        drop(page);
        return Err(LineFault::Memory);
    };
    Ok(filled(alloc, matches, settings, level, filters, page, paths))
}

// The order of what was read and of the other options.
fn filled(
    alloc: Global,
    matches: &ArgMatches,
    settings: Settings,
    level: Limit,
    filters: Filters,
    start: Address,
    paths: Paths,
) -> Order
    requires page { is_robots_file start ≡ false }
    requires level { is_in_range level ≡ true }
    requires prefix { paths.prefix ≡ prefix_of (rows_of (found_of matches.now)) }
    requires resume { paths.resume ≡ first_of (codes "resume") (rows_of (found_of matches.now)) }
    requires save { paths.save ≡ first_of (codes "save") (rows_of (found_of matches.now)) }
    requires log { option_map log_by paths.log ≡ log_of (rows_of (found_of matches.now)) }
    requires rejected { paths.rejected_log ≡ first_of (codes "rejected-log") (rows_of (found_of matches.now)) }
    ensures { ordered_by result ≡ ordered (rows_of (found_of matches.now)) (record { workers = settings.counts.workers; per_host = settings.counts.per_host; max_urls = settings.counts.max_urls; quota = settings.counts.quota })
        settings.proxies (naming_by settings.names) settings.fields (mannered settings.manner) (retries_by settings.retries) level (filters.names.given, filters.names.excluded) (filters.places.given, filters.places.excluded) (filters.hosts.given, filters.hosts.excluded) (filters.sought.accepted, filters.sought.rejected) filters.rows start }
{
    let Settings {
        counts,
        proxies,
        names: naming,
        fields,
        manner,
        retries,
    } = settings;
    let Filters {
        names,
        places,
        hosts,
        sought,
        rows,
    } = filters;
    Order {
        plan: Plan {
            start,
            others: Starts::none(alloc),
            limit: limit_within(matches, level),
            span_hosts: is_set(matches, "span-hosts"),
            no_parent: is_set(matches, "no-parent"),
            domains: hosts.given,
            exclude_domains: hosts.excluded,
            include_dirs: places.given,
            exclude_dirs: places.excluded,
            accept: names.given,
            reject: names.excluded,
            accept_expressions: sought.accepted,
            reject_expressions: sought.rejected,
            ignore_case: is_set(matches, "ignore-case"),
            robots: honours_robots(matches),
            page_requisites: is_set(matches, "page-requisites"),
            span_requisites: is_set(matches, "span-requisites"),
            max_urls: counts.max_urls,
            per_host: counts.per_host,
        },
        logins: Vec::new(alloc),
        workers: counts.workers,
        links: links(matches, rows),
        keeps_connections: !is_set(matches, "no-http-keep-alive"),
        source: source(matches),
        quota: counts.quota,
        trace: is_set(matches, "trace"),
        quiet: is_set(matches, "quiet"),
        log: paths.log,
        prefix: paths.prefix,
        names: naming,
        converts: is_set(matches, "convert-links"),
        backs_up: is_set(matches, "backup-converted"),
        takes_times: !is_set(matches, "no-use-server-timestamps"),
        upkeep: upkeep(matches),
        fields,
        manner,
        retries,
        proxies,
        trusts_proxy: is_set(matches, "trust-proxy"),
        resume: paths.resume,
        retries_failed: is_set(matches, "retry-failed"),
        save: paths.save,
        rejected_log: paths.rejected_log,
    }
}

// The limit of the level, or no hop if links aren't followed.
fn limit_within(matches: &ArgMatches, level: Limit) -> Limit
    requires { is_in_range level ≡ true }
    ensures value { result ≡ limit_within level (rows_of (found_of matches.now)) }
    ensures in_range { is_in_range result ≡ true }
{
    if is_set(matches, "recursive") {
        level
    } else {
        Limit::AtMost(0)
    }
}

// Which links of pages are taken, of those that are taken by their place.
fn links(matches: &ArgMatches, rows: RowSet) -> LinkRules
    ensures { result ≡ links_of rows (rows_of (found_of matches.now)) }
{
    LinkRules {
        robots: honours_robots(matches),
        relative: is_set(matches, "relative"),
        rows,
    }
}

fn honours_robots(matches: &ArgMatches) -> bool
    ensures { result ≡ honours_robots (rows_of (found_of matches.now)) }
{
    is_set(matches, "recursive") && !is_set(matches, "no-robots")
}
