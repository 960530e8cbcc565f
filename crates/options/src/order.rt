//! What the words order.
ghost use Rattle.std.specs.Prelude.{◌≡◌, ◌<◌, ◌≤◌, IfOk, false, length};
ghost use Rattle.std.specs.List.{list_any};
ghost use Rattle.address.specs.Address.{is_robots_file};
ghost use Rattle.options.specs.declared.order.TheConstants.{MAX_WORKERS};

use crate::homes::homes_of;
use crate::naming::PageNames;
use follow_filters::{Plan, Starts};
use html_links::LinkRules;
use pacing::{Manner, Retries};
use requests::{Fields, Login, Proxies, Sending};
use std::alloc::{AllocError, Global};
use std::marker::Model;

/// The most workers of a retrieval.
pub const MAX_WORKERS: u32 = 64;

/// The number of workers if none is given.
pub(crate) const DEFAULT_WORKERS: u32 = 4;

/// The number of requests at a time to one origin if none is given.
pub(crate) const DEFAULT_PER_HOST: u32 = 2;

/// The number of addresses that may be held if none is given.
pub(crate) const DEFAULT_MAX_URLS: u32 = 100_000;

/// Where the site is.
#[derive(Clone, Copy, PartialEq, Eq, Debug)]
pub enum Source {
    /// A map of it is on standard input.
    Map,
    /// A record of it is on standard input.
    Recorded,
    /// On the network.
    Live,
}

/// The folder in which files are put, such as `.`.
#[derive(Drop)]
pub struct Prefix {
    path: String,
}

// Contracts see the folder as its path.
impl Model for Prefix {
    ghost use Rattle.std.specs.Prelude.{List, ℕ};
    ghost use Rattle.std.specs.String.{string_bytes};

    ghost Value = { List ℕ };

    ghost view = { λ p. string_bytes p.path };
}

impl Prefix {
    pub(crate) fn of(alloc: Global, path: &str) -> Result<Prefix, AllocError>
        ensures { IfOk result (λ prefix. prefix ≡ path.now) }
    {
        Ok(Prefix {
            path: String::from_str(alloc, path)?,
        })
    }

    /// The path of the folder as it was given; `.` if it was empty or none was. Takes no memory.
    pub fn as_str(&self) -> &str
        ensures { result.now ≡ self.now }
    {
        self.path.as_str()
    }
}

/// A file that an option names, such as `site.record`.
#[derive(Drop)]
pub struct FilePath {
    path: String,
}

// Contracts see the file as its path.
impl Model for FilePath {
    ghost use Rattle.std.specs.Prelude.{List, ℕ};
    ghost use Rattle.std.specs.String.{string_bytes};

    ghost Value = { List ℕ };

    ghost view = { λ p. string_bytes p.path };
}

impl FilePath {
    pub(crate) fn of(alloc: Global, path: &str) -> Result<FilePath, AllocError>
        ensures { IfOk result (λ file. file ≡ path.now) }
    {
        Ok(FilePath {
            path: String::from_str(alloc, path)?,
        })
    }

    /// The path of the file as it was given. Takes no memory.
    pub fn as_str(&self) -> &str
        ensures { result.now ≡ self.now }
    {
        self.path.as_str()
    }
}

/// A file that takes what would go to standard output and standard error.
#[derive(Drop)]
pub struct Log {
    /// Which file; `-` is standard output.
    pub path: FilePath,
    /// Whether it keeps what it has.
    pub appends: bool,
}

/// What becomes of what earlier runs left in the folder.
#[derive(Clone, Copy, PartialEq, Eq, Debug)]
pub struct Upkeep {
    /// Whether their pages are requested only to see if they changed.
    pub timestamps: bool,
    /// Whether they aren't requested at all.
    pub skips: bool,
    /// Whether a run that was stopped is gone on with.
    pub continues: bool,
    /// Whether files of pages that are gone are removed.
    pub deletes_gone: bool,
}

/// What to retrieve, from where, and what to do with it.
#[derive(Drop)]
pub struct Order {
    /// What is retrieved.
    pub plan: Plan,
    /// User and password of each start, if it has them.
    pub logins: Vec<Option<Login>>,
    /// How many workers retrieve it, 1 to 64.
    pub workers: u32,
    /// Which links of pages are taken.
    pub links: LinkRules,
    /// Whether connections are kept, to be used again.
    pub keeps_connections: bool,
    /// Where the site is.
    pub source: Source,
    /// The most bytes of kept bodies before nothing more is requested, if there is a limit.
    pub quota: Option<u64>,
    /// Whether the trace is shown before the report.
    pub trace: bool,
    /// Whether nothing is written to standard output and standard error.
    pub quiet: bool,
    /// The file that takes that text instead.
    pub log: Option<Log>,
    /// The folder below which files are put.
    pub prefix: Prefix,
    /// How files are named.
    pub names: PageNames,
    /// Whether the links of files lead from file to file.
    pub converts: bool,
    /// Whether the body of a file whose links change is kept beside it as it came.
    pub backs_up: bool,
    /// Whether a file has the time that its page's `Last-Modified` says.
    pub takes_times: bool,
    /// What becomes of what earlier runs left.
    pub upkeep: Upkeep,
    /// What requests say besides their addresses.
    pub fields: Fields,
    /// How servers are treated.
    pub manner: Manner,
    /// When requests are made again.
    pub retries: Retries,
    /// The proxies that are asked, and which hosts are requested without one.
    pub proxies: Proxies,
    /// Whether the proxy for https may be on another machine.
    pub trusts_proxy: bool,
    /// The record whose answers aren't requested again.
    pub resume: Option<FilePath>,
    /// Whether what it has as failed is requested again.
    pub retries_failed: bool,
    /// The record that is written of what was answered.
    pub save: Option<FilePath>,
    /// The file that takes the log of the links that filters reject.
    pub rejected_log: Option<FilePath>,
    pub ghost some_workers: { 0 < workers },
    pub ghost workers_in_range: { workers ≤ MAX_WORKERS },
}

// The same plan with these starts besides its own.
fn with_starts(plan: Plan, others: Starts) -> Plan
    requires pages { list_any is_robots_file others ≡ false }
    requires in_range { length others < plan.max_urls }
    ensures start { result.start ≡ plan.start }
    ensures limit { result.limit ≡ plan.limit }
    ensures span_hosts { result.span_hosts ≡ plan.span_hosts }
    ensures no_parent { result.no_parent ≡ plan.no_parent }
    ensures domains { result.domains ≡ plan.domains }
    ensures exclude_domains { result.exclude_domains ≡ plan.exclude_domains }
    ensures include_dirs { result.include_dirs ≡ plan.include_dirs }
    ensures exclude_dirs { result.exclude_dirs ≡ plan.exclude_dirs }
    ensures accept { result.accept ≡ plan.accept }
    ensures reject { result.reject ≡ plan.reject }
    ensures accept_expressions { result.accept_expressions ≡ plan.accept_expressions }
    ensures reject_expressions { result.reject_expressions ≡ plan.reject_expressions }
    ensures ignore_case { result.ignore_case ≡ plan.ignore_case }
    ensures robots { result.robots ≡ plan.robots }
    ensures page_requisites { result.page_requisites ≡ plan.page_requisites }
    ensures span_requisites { result.span_requisites ≡ plan.span_requisites }
    ensures max_urls { result.max_urls ≡ plan.max_urls }
    ensures per_host { result.per_host ≡ plan.per_host }
    ensures others { result.others ≡ others }
{
    let Plan {
        start,
        others: _others,
        limit,
        span_hosts,
        no_parent,
        domains,
        exclude_domains,
        include_dirs,
        exclude_dirs,
        accept,
        reject,
        accept_expressions,
        reject_expressions,
        ignore_case,
        robots,
        page_requisites,
        span_requisites,
        max_urls,
        per_host,
    } = plan;
    Plan {
        start,
        others,
        limit,
        span_hosts,
        no_parent,
        domains,
        exclude_domains,
        include_dirs,
        exclude_dirs,
        accept,
        reject,
        accept_expressions,
        reject_expressions,
        ignore_case,
        robots,
        page_requisites,
        span_requisites,
        max_urls,
        per_host,
    }
}

impl Order {
    ghost use Rattle.std.specs.Prelude.{◌≡◌, false, length};
    ghost use Rattle.std.specs.List.{list_any};
    ghost use Rattle.address.specs.Address.{is_robots_file};
    ghost use Rattle.options.specs.Order.{kept_of, ordered_by, sending_of};

    /// The proxies that are asked, once more.
    pub fn proxies(&self) -> Result<Proxies, AllocError>
        ensures { IfOk result (λ proxies. proxies ≡ self.now.proxies) }
    {
        self.proxies.try_clone()
    }

    /// What is sent with each request: secret fields go to the origins of the starts alone, and what a proxy wants to it alone.
    pub fn sending(&self, alloc: Global) -> Result<Sending, AllocError>
        ensures { IfOk result (λ sending. sending ≡ sending_of self.now) }
    {
        let fields = self.fields.try_clone()?;
        let homes = homes_of(
            alloc,
            &self.plan.start,
            self.plan.others.as_slice(),
            self.logins.as_slice(),
        )?;
        let proxies = self.proxies()?;
        Ok(Sending::new(fields, homes, proxies))
    }

    /// The same order with these starts besides its own.
    pub(crate) fn with_others(self, others: Starts) -> Order
        requires pages { list_any is_robots_file others ≡ false }
        requires in_range { length others < self.plan.max_urls }
        ensures { ordered_by result ≡ record (ordered_by self) { others = others } }
    {
        let Order {
            plan,
            logins,
            workers,
            links,
            keeps_connections,
            source,
            quota,
            trace,
            quiet,
            log,
            prefix,
            names,
            converts,
            backs_up,
            takes_times,
            upkeep,
            fields,
            manner,
            retries,
            proxies,
            trusts_proxy,
            resume,
            retries_failed,
            save,
            rejected_log,
        } = self;
        Order {
            plan: with_starts(plan, others),
            logins,
            workers,
            links,
            keeps_connections,
            source,
            quota,
            trace,
            quiet,
            log,
            prefix,
            names,
            converts,
            backs_up,
            takes_times,
            upkeep,
            fields,
            manner,
            retries,
            proxies,
            trusts_proxy,
            resume,
            retries_failed,
            save,
            rejected_log,
        }
    }

    /// The same order with the credentials of its starts.
    pub(crate) fn with_logins(self, logins: Vec<Option<Login>>) -> Order
        ensures { ordered_by result ≡ record (ordered_by self) { logins = logins.items } }
    {
        let Order {
            plan,
            logins: _logins,
            workers,
            links,
            keeps_connections,
            source,
            quota,
            trace,
            quiet,
            log,
            prefix,
            names,
            converts,
            backs_up,
            takes_times,
            upkeep,
            fields,
            manner,
            retries,
            proxies,
            trusts_proxy,
            resume,
            retries_failed,
            save,
            rejected_log,
        } = self;
        Order {
            plan,
            logins,
            workers,
            links,
            keeps_connections,
            source,
            quota,
            trace,
            quiet,
            log,
            prefix,
            names,
            converts,
            backs_up,
            takes_times,
            upkeep,
            fields,
            manner,
            retries,
            proxies,
            trusts_proxy,
            resume,
            retries_failed,
            save,
            rejected_log,
        }
    }

    /// The file that takes the text of the run. Takes no memory.
    pub fn into_log(self) -> Option<Log>
        ensures { result ≡ self.log }
    {
        let Order { log, .. } = self;
        log
    }

    /// How many connections to a server may be open at a time, if they are kept: as many as the requests to it.
    pub fn kept(&self) -> Option<u32>
        ensures { result ≡ kept_of self.now }
    {
        if self.keeps_connections {
            Some(self.plan.per_host)
        } else {
            None
        }
    }
}
