//! Which edges a plan lets be followed (GNU Wget manual, chapter Following Links).
ghost use Rattle.std.specs.Prelude.{◌≡◌, ◌||◌, not, ℕ, List};
ghost use Rattle.std.specs.List.{list_any};
ghost use Rattle.follow_filters.specs.Domains.{is_in_domain};
ghost use Rattle.follow_filters.specs.Directories.{is_in_directory};
ghost use Rattle.follow_filters.specs.Patterns.{is_file_match};
ghost use Rattle.follow_filters.specs.Exempt.{is_exempt_file};
ghost use Rattle.expressions.specs.Expressions.{is_found};

use crate::directory::Directory;
use crate::domain::Domain;
use crate::elements::Elements;
use crate::kept_name::KeptName;
use crate::pattern::Pattern;
use crate::plan::Plan;
use crate::rule::{FollowRule, RULES};
use crate::starts::{has_host_of, is_below};
use address::Address;
use expressions::Expression;
use fetcher::EdgeKind;

// Whether a file name meets the accept and reject lists in any case.
fn is_exempt(file: &str) -> bool
    ensures { result ≡ is_exempt_file file.now }
{
    let file = file.as_bytes();
    file.is_empty() || file.ends_with(b".htm") || file.ends_with(b".html")
}

// Whether a domain of the list has the host.
fn is_in_some_domain(domains: &Elements<Domain>, host: &str) -> bool
    ensures { result ≡ list_any (λ d. is_in_domain d host.now) domains.now }
{
    domains.as_slice().iter().any(|domain| domain.has(host))
}

// Whether the directory is one of the list or below one.
fn is_in_some_directory(directories: &Elements<Directory>, dir: &str, ignores_case: bool) -> bool
    ensures { result ≡ list_any (λ d. is_in_directory ignores_case d dir.now) directories.now }
{
    directories
        .as_slice()
        .iter()
        .any(|directory| directory.has(dir, ignores_case))
}

// Whether a pattern of the list matches the file name.
fn matches_some(patterns: &Elements<Pattern>, file: &str, ignores_case: bool) -> bool
    ensures { result ≡ list_any (λ p. is_file_match ignores_case p file.now) patterns.now }
{
    patterns
        .as_slice()
        .iter()
        .any(|pattern| pattern.matches(file, ignores_case))
}

// Whether an expression of the list is found in the address.
fn finds_some(expressions: &Elements<Expression>, address: &Address) -> bool
    ensures { result ≡ list_any (λ expression. is_found expression address.now) expressions.now }
{
    let text = address.as_str();
    expressions
        .as_slice()
        .iter()
        .any(|expression| expression.is_found_in(text))
}

ghost use Rattle.follow_filters.specs.Rules.{has_host_of, names_some};
ghost use Rattle.follow_filters.specs.KeptNames.{text_of_name};

// Whether a pattern of the list matches the name, with its query or without.
fn names_some(patterns: &Elements<Pattern>, name: KeptName<'_>, ignores_case: bool) -> bool
    ensures { result ≡ names_some ignores_case patterns.now name.entry.file.now (text_of_name name.entry) }
{
    patterns
        .as_slice()
        .iter()
        .any(|pattern| pattern.names(name, ignores_case))
}

impl Plan {
    ghost use Rattle.std.specs.Prelude.{◌↔◌, MatchResult, None, IsTrue, find, is_ok};
    ghost use Rattle.address.specs.Address.{host_of};
    ghost use Rattle.fetcher.specs.declared.edge.EdgeKind.{EdgeKind};
    ghost use Rattle.follow_filters.specs.Rules.{is_shown, leads_anywhere, stays_home, is_absent, is_in_some_domain, meets, first_unmet, verdict_of, passes_of, edge_verdict, follows_of, rules, has_start_host, is_below_start, Passes, IsFirstUnmet, Follows, IsFirstUnmetBy, keeps_name, keeps_of, KeepsPage};

    // Whether a start has the address's host.
    fn has_start_host(&self, address: &Address) -> bool
        ensures { result ≡ has_start_host self.now address.now }
    {
        has_host_of(address, &self.start) || self.others.has_host_of(address)
    }

    // Whether the address is below a start of its host.
    fn is_below_start(&self, address: &Address) -> bool
        ensures { result ≡ is_below_start self.now address.now }
    {
        is_below(address, &self.start) || self.others.has_above(address)
    }

    // Whether the page's edge of the kind shows its target, or redirects from a page on no start's host.
    fn is_shown(&self, page: &Address, kind: EdgeKind) -> bool
        ensures { result ≡ is_shown self.now page.now kind }
    {
        match kind {
            EdgeKind::Link => false,
            EdgeKind::Inline => true,
            EdgeKind::Redirect => !self.has_start_host(page),
        }
    }

    // Whether the rules on host, parent and domains don't hold for the page's edge of the kind.
    fn leads_anywhere(&self, page: &Address, kind: EdgeKind) -> bool
        ensures { result ≡ leads_anywhere self.now page.now kind }
    {
        self.is_shown(page, kind) && self.span_requisites
    }

    // Whether the address is on the page's host, and if requisites are spanned that is a start's.
    fn stays_home(&self, page: &Address, address: &Address) -> bool
        ensures { result ≡ stays_home self.now page.now address.now }
    {
        has_host_of(address, page) && (!self.span_requisites || self.has_start_host(page))
    }

    fn meets_host(&self, page: &Address, address: &Address) -> bool
        ensures { result ≡ (self.now.span_hosts || stays_home self.now page.now address.now) }
    {
        self.span_hosts || self.stays_home(page, address)
    }

    fn meets_parent(&self, address: &Address) -> bool
        ensures { result ≡ (not self.now.no_parent || not (has_start_host self.now address.now) || is_below_start self.now address.now) }
    {
        !self.no_parent || !self.has_start_host(address) || self.is_below_start(address)
    }

    fn meets_domains(&self, address: &Address) -> bool
        ensures { result ≡ (is_absent self.now.domains || is_in_some_domain self.now.domains (host_of address.now)) }
    {
        self.domains.is_empty() || is_in_some_domain(&self.domains, address.host())
    }

    #[tactic(auto, unfolding(crate::specs::Rules::meets))]
    fn meets_included(&self, address: &Address) -> bool
        ensures { (page : List ℕ) (kind : EdgeKind) → result ≡ meets FollowRule.NotIncluded self.now page kind address.now }
    {
        self.include_dirs.is_empty()
            || is_in_some_directory(&self.include_dirs, address.dir(), self.ignore_case)
    }

    #[tactic(auto, unfolding(crate::specs::Rules::meets))]
    fn meets_accept(&self, address: &Address) -> bool
        ensures { (page : List ℕ) (kind : EdgeKind) → result ≡ meets FollowRule.NotAccepted self.now page kind address.now }
    {
        let file = address.file();
        is_exempt(file)
            || self.accept.is_empty()
            || matches_some(&self.accept, file, self.ignore_case)
    }

    #[tactic(auto, unfolding(crate::specs::Rules::meets))]
    fn meets_reject(&self, address: &Address) -> bool
        ensures { (page : List ℕ) (kind : EdgeKind) → result ≡ meets FollowRule.Rejected self.now page kind address.now }
    {
        let file = address.file();
        is_exempt(file) || !matches_some(&self.reject, file, self.ignore_case)
    }

    #[tactic(auto, unfolding(crate::specs::Rules::meets))]
    fn meets_expression(&self, address: &Address) -> bool
        ensures { (page : List ℕ) (kind : EdgeKind) → result ≡ meets FollowRule.ExpressionMissing self.now page kind address.now }
    {
        self.accept_expressions.is_empty() || finds_some(&self.accept_expressions, address)
    }

    // Whether the address, to which an edge of the page leads, meets the rule.
    #[tactic(auto, unfolding(crate::specs::Rules::meets))]
    fn meets(&self, rule: FollowRule, page: &Address, kind: EdgeKind, address: &Address) -> bool
        ensures { result ≡ meets rule self.now page.now kind address.now }
    {
        match rule {
            FollowRule::RobotsFile => !address.is_robots_file(),
            FollowRule::Host => self.leads_anywhere(page, kind) || self.meets_host(page, address),
            FollowRule::Parent => self.leads_anywhere(page, kind) || self.meets_parent(address),
            FollowRule::Domain => self.leads_anywhere(page, kind) || self.meets_domains(address),
            FollowRule::ExcludedDomain => {
                self.leads_anywhere(page, kind)
                    || !is_in_some_domain(&self.exclude_domains, address.host())
            }
            FollowRule::NotIncluded => self.meets_included(address),
            FollowRule::Excluded => {
                !is_in_some_directory(&self.exclude_dirs, address.dir(), self.ignore_case)
            }
            FollowRule::NotAccepted => self.meets_accept(address),
            FollowRule::Rejected => self.meets_reject(address),
            FollowRule::ExpressionMissing => self.meets_expression(address),
            FollowRule::ExpressionFound => !finds_some(&self.reject_expressions, address),
        }
    }

    // The first rule of the list that the edge doesn't meet.
    fn first_unmet(
        &self,
        rules: &[FollowRule],
        page: &Address,
        kind: EdgeKind,
        address: &Address,
    ) -> Option<FollowRule>
        ensures { result ≡ find (λ r. not (meets r self.now page.now kind address.now)) rules.now }
    {
        for rule in rules {
            if !self.meets(*rule, page, kind, address) {
                return Some(*rule);
            }
        }
        None
    }

    /// Whether the page's edge of the kind that leads to the address is followed, or the first rule
    /// that it doesn't meet. Takes no memory.
    #[tactic(auto, unfolding(crate::specs::Rules::first_unmet))]
    pub fn follows(
        &self,
        page: &Address,
        kind: EdgeKind,
        address: &Address,
    ) -> Result<(), FollowRule>
        ensures value { result ≡ edge_verdict self.now page.now kind address.now }
        ensures follows { is_ok result ≡ follows_of self.now page.now kind address.now }
        ensures means { MatchResult result (λ _. Follows self.now page.now kind address.now)
            (IsFirstUnmetBy self.now page.now kind address.now) }
    {
        match self.first_unmet(&RULES, page, kind, address) {
            Some(rule) => Err(rule),
            None => Ok(()),
        }
    }

    /// Whether the address may be followed from a link of the start, or the first rule that it doesn't
    /// meet. Of a plan of one start that spans neither hosts nor requisites each edge of a page on its
    /// host is followed exactly if this answers so. Takes no memory.
    pub fn passes(&self, address: &Address) -> Result<(), FollowRule>
        ensures value { result ≡ verdict_of self.now address.now }
        ensures passes { is_ok result ≡ passes_of self.now address.now }
        ensures means { MatchResult result (λ _. Passes self.now address.now)
            (IsFirstUnmet self.now address.now) }
    {
        self.follows(&self.start, EdgeKind::Link, address)
    }

    /// Whether a page of this address is kept: its file name, or `index.html` if that is empty, meets
    /// the accept and the reject list. A pattern counts if it matches the name with the query after it or
    /// without. Takes no memory.
    pub fn keeps(&self, address: &Address) -> bool
        ensures value { result ≡ keeps_of self.now address.now }
        ensures means { IsTrue result ↔ KeepsPage self.now address.now }
    {
        self.keeps_name(KeptName::of(address))
    }

    // Whether the name meets the accept and the reject list.
    fn keeps_name(&self, name: KeptName<'_>) -> bool
        ensures { result ≡ keeps_name self.now name.entry.file.now (text_of_name name.entry) }
    {
        (self.accept.is_empty() || names_some(&self.accept, name, self.ignore_case))
            && !names_some(&self.reject, name, self.ignore_case)
    }
}
