//! The names that pages get while a run goes on, which its workers share.
use early_names::{Claims, EarlyRules};
use std::alloc::{AllocError, Global};
use std::sync::{Arc, Mutex, Wait};

/// By which rules pages are named early, if they are, and which names they got. All workers of a run share it.
pub struct EarlyRun {
    alloc: Global,
    rules: Mutex<Option<Arc<EarlyRules>>>,
    claims: Mutex<Claims>,
}

// Written by hand: a user that drops one proves a call, and nothing about its fields.
impl Drop for EarlyRun {
    fn drop(self) {
        let EarlyRun {
            alloc: _alloc,
            rules: _rules,
            claims: _claims,
        } = self;
    }
}

// These take `&mut` to the locked data, so that no early return of theirs drops the guard.

// Pages are named by these rules from now on.
fn set(held: &mut Option<Arc<EarlyRules>>, rules: Arc<EarlyRules>) {
    *held = Some(rules);
}

// These rules. If there is no room to share them no page is named early.
fn shared(held: &mut Option<Arc<EarlyRules>>) -> Option<Arc<EarlyRules>> {
    match held {
        Some(rules) => Arc::try_clone(rules).ok(),
        None => None,
    }
}

// Whether the name is claimed from now on, and wasn't before.
fn claim(claims: &mut Claims, name: &str) -> bool {
    claims.claim(name).unwrap_or(false)
}

impl EarlyRun {
    /// No page is named early yet. Takes no memory.
    pub fn new(alloc: Global) -> EarlyRun {
        EarlyRun {
            alloc,
            rules: Mutex::new(None),
            claims: Mutex::new(Claims::new(alloc)),
        }
    }

    /// From now on pages are named early, by these rules.
    pub(crate) fn begin<R: Wait>(&self, rt: &R, rules: EarlyRules) -> Result<(), AllocError> {
        let rules = Arc::new(self.alloc, rules)?;
        set(&mut self.rules.lock(rt), rules);
        Ok(())
    }

    /// The rules, if pages are named early.
    pub(crate) fn rules<R: Wait>(&self, rt: &R) -> Option<Arc<EarlyRules>> {
        shared(&mut self.rules.lock(rt))
    }

    /// Claims a name for one page. Whether no claimed name was in its way.
    pub(crate) fn claim<R: Wait>(&self, rt: &R, name: &str) -> bool {
        claim(&mut self.claims.lock(rt), name)
    }
}
