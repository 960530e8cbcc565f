//! What a worker notes of its asks.
ghost use Rattle.std.specs.Prelude.{◌≡◌, []};

use address::{Address, Origin};
use fetcher::Outcome;
use harvest::Named;
use robots_rules::RuleSet;
use std::alloc::Global;

/// A page that was requested.
#[derive(Drop)]
pub struct PageNote<B> {
    /// Who requested it.
    pub worker: u32,
    pub address: Address,
    /// What was answered, if the frontier took it.
    pub outcome: Option<Outcome>,
    /// The body, if the page is kept.
    pub body: Option<B>,
}

/// Robots rules that were requested.
#[derive(Drop)]
pub struct RulesNote {
    /// Who requested them.
    pub worker: u32,
    pub origin: Origin,
    /// The rules, if the frontier took them.
    pub rules: Option<RuleSet>,
}

impl<B> Named for PageNote<B> {
    ghost text_of = { λ note. note.address };

    fn name(&self) -> &str {
        self.address.as_str()
    }
}

impl Named for RulesNote {
    ghost text_of = { λ note. note.origin };

    fn name(&self) -> &str {
        self.origin.as_str()
    }
}

/// The notes of a worker, or of several.
#[derive(Drop)]
pub struct Notes<B> {
    pub pages: Vec<PageNote<B>>,
    pub rules: Vec<RulesNote>,
}

impl<B> Notes<B> {
    /// No notes. Takes no memory.
    pub fn new(alloc: Global) -> Self
        ensures pages { result.pages.items ≡ [] }
        ensures rules { result.rules.items ≡ [] }
    {
        Notes {
            pages: Vec::new(alloc),
            rules: Vec::new(alloc),
        }
    }
}
