//! The plan of a retrieval: where it starts, how far it goes and what it may follow
//! (GNU Wget manual, chapters Recursive Download and Following Links).
ghost use Rattle.std.specs.Prelude.{◌≡◌, ◌≤◌, ◌<◌, ◌↔◌, true, false, length, IsTrue, IfOk};
ghost use Rattle.std.specs.List.{list_any};
ghost use Rattle.address.specs.Address.{is_robots_file};
ghost use Rattle.follow_filters.specs.declared.plan.TheConstants.{MAX_URLS, MAX_PER_HOST};
ghost use Rattle.follow_filters.specs.Limits.{is_in_range};

use crate::directory::Directory;
use crate::domain::Domain;
use crate::elements::Elements;
use crate::limit::Limit;
use crate::pattern::Pattern;
use crate::starts::Starts;
use address::Address;
use expressions::Expression;
use std::alloc::{AllocError, Global};

/// The most addresses that a retrieval may hold.
pub const MAX_URLS: u32 = 1_000_000;

/// The most requests that may be out to one origin at a time.
pub const MAX_PER_HOST: u32 = 16;

/// What to retrieve. A list of elements that is empty counts as not given.
#[derive(PartialEq, Drop)]
pub struct Plan {
    /// Where the retrieval starts. It isn't a robots file.
    pub start: Address,
    /// Where it starts besides, in any order; none is a robots file. One that occurs twice counts once.
    pub others: Starts,
    /// How many hops are followed, at most 1,000,000 or without limit.
    pub limit: Limit,
    /// Whether edges are followed to hosts other than their page's.
    pub span_hosts: bool,
    /// Whether on a host with starts directories that aren't below one of theirs are left out.
    pub no_parent: bool,
    /// The domains whose hosts are followed.
    pub domains: Elements<Domain>,
    /// The domains whose hosts aren't followed.
    pub exclude_domains: Elements<Domain>,
    /// The directories that are followed.
    pub include_dirs: Elements<Directory>,
    /// The directories that aren't followed.
    pub exclude_dirs: Elements<Directory>,
    /// The patterns of the file names that are followed and kept.
    pub accept: Elements<Pattern>,
    /// The patterns of the file names that are neither followed nor kept.
    pub reject: Elements<Pattern>,
    /// The expression that is found in what is followed. Of several, one has to be.
    pub accept_expressions: Elements<Expression>,
    /// The expression that isn't found in what is followed. Of several, none may be.
    pub reject_expressions: Elements<Expression>,
    /// Whether the patterns of directories and file names match ASCII letters in either case.
    pub ignore_case: bool,
    /// Whether robots files are honoured.
    pub robots: bool,
    /// Whether what a page shows within itself may lie one hop beyond the limit, and so may where that redirects.
    pub page_requisites: bool,
    /// Whether what a page shows within itself may lie anywhere, whatever hosts, parents and domains are
    /// left out; the links of a page that is on no start's host then lead nowhere, unless hosts are spanned.
    pub span_requisites: bool,
    /// How many addresses may be held, 1 to 1,000,000.
    pub max_urls: u32,
    /// How many requests may be out to one origin at a time, 1 to 16; its robots file counts.
    pub per_host: u32,
    pub ghost starts_at_page: { is_robots_file start ≡ false },
    pub ghost starts_at_pages: { list_any is_robots_file others ≡ false },
    pub ghost limit_in_range: { is_in_range limit ≡ true },
    pub ghost some_urls: { 1 ≤ max_urls },
    pub ghost starts_in_range: { length others < max_urls },
    pub ghost max_urls_in_range: { max_urls ≤ MAX_URLS },
    pub ghost some_per_host: { 1 ≤ per_host },
    pub ghost per_host_in_range: { per_host ≤ MAX_PER_HOST },
}

impl Plan {
    ghost use Rattle.follow_filters.specs.Plans.{IsUnfiltered};

    /// A plan of one start without filters: the start's host is followed, except its robots file, robots files
    /// aren't honoured, nothing lies beyond the limit, and two requests may be out to an origin. Takes no memory.
    pub fn unfiltered(alloc: Global, start: Address, limit: Limit, max_urls: u32) -> Plan
        requires page { is_robots_file start ≡ false }
        requires limit { is_in_range limit ≡ true }
        requires some_urls { 1 ≤ max_urls }
        requires max_urls { max_urls ≤ MAX_URLS }
        ensures start { result.start ≡ start }
        ensures limit { result.limit ≡ limit }
        ensures max_urls { result.max_urls ≡ max_urls }
        ensures filters { IsUnfiltered result }
    {
        Plan {
            start,
            others: Starts::none(alloc),
            limit,
            span_hosts: false,
            no_parent: false,
            domains: Elements::none(alloc),
            exclude_domains: Elements::none(alloc),
            include_dirs: Elements::none(alloc),
            exclude_dirs: Elements::none(alloc),
            accept: Elements::none(alloc),
            reject: Elements::none(alloc),
            accept_expressions: Elements::none(alloc),
            reject_expressions: Elements::none(alloc),
            ignore_case: false,
            robots: false,
            page_requisites: false,
            span_requisites: false,
            max_urls,
            per_host: 2,
        }
    }

    /// An equal plan.
    pub fn try_clone(&self) -> Result<Plan, AllocError>
        ensures { IfOk result (λ copy. copy ≡ self.now) }
    {
        Ok(Plan {
            start: self.start.try_clone()?,
            others: self.others.try_clone()?,
            limit: self.limit,
            span_hosts: self.span_hosts,
            no_parent: self.no_parent,
            domains: self.domains.clone()?,
            exclude_domains: self.exclude_domains.clone()?,
            include_dirs: self.include_dirs.clone()?,
            exclude_dirs: self.exclude_dirs.clone()?,
            accept: self.accept.clone()?,
            reject: self.reject.clone()?,
            accept_expressions: self.accept_expressions.clone()?,
            reject_expressions: self.reject_expressions.clone()?,
            ignore_case: self.ignore_case,
            robots: self.robots,
            page_requisites: self.page_requisites,
            span_requisites: self.span_requisites,
            max_urls: self.max_urls,
            per_host: self.per_host,
        })
    }

    /// Whether the plans are equal. Takes no memory.
    pub fn same(&self, other: &Plan) -> bool
        ensures { IsTrue result ↔ (self.now ≡ other.now) }
    {
        self == other
    }
}
