//! What was received for an address, in a form that can be written down: a whole response, or why there is none.
ghost use Rattle.std.specs.Prelude.{◌≡◌, IfOk, Some, None};
ghost use Rattle.answer_notes.specs.Received.{received_outcome, received_body, received_target, received_rules};

use crate::given::Given;
use crate::robots_answer::rules_by_status;
use address::Address;
use fetcher::{Answer, Body, FaultKind, Outcome};
use html_links::LinkRules;
use response_answer::{digest, into_answer, redirect_target};
use robots_rules::RuleSet;
use std::alloc::{AllocError, Global};

/// What was received for an address.
#[derive(Drop)]
pub enum Received {
    /// A whole response.
    Whole(Given),
    /// No response, and why.
    Fault(FaultKind),
}

impl Received {
    ghost use Rattle.std.specs.Prelude.{◌≡◌, IfOk};

    /// What it answers for the address that was asked. Of the links of a page those are edges that `links` takes.
    /// Fails only if memory runs out.
    pub fn answer(
        &self,
        alloc: Global,
        at: &Address,
        links: LinkRules,
    ) -> Result<Answer<Body>, AllocError>
        ensures outcome { IfOk result (λ a. a.outcome ≡ received_outcome links at.now self.now) }
        ensures body { IfOk result (λ a. a.body ≡ received_body self.now) }
    {
        match self {
            Received::Whole(given) => digest(alloc, at, given.response(), links),
            Received::Fault(kind) => Ok(Answer {
                outcome: Outcome::Fault(*kind),
                body: Body::none(alloc),
            }),
        }
    }

    /// The same answer if this isn't needed any more: the body moves and isn't copied. Fails only if memory runs out.
    pub fn into_answer(
        self,
        alloc: Global,
        at: &Address,
        links: LinkRules,
    ) -> Result<Answer<Body>, AllocError>
        ensures outcome { IfOk result (λ a. a.outcome ≡ received_outcome links at.now self) }
        ensures body { IfOk result (λ a. a.body ≡ received_body self) }
    {
        match self {
            Received::Whole(given) => into_answer(alloc, at, given.into_response(), links),
            Received::Fault(kind) => Ok(Answer {
                outcome: Outcome::Fault(kind),
                body: Body::none(alloc),
            }),
        }
    }

    /// The target of its redirect from the address that was asked, if any. Fails only if memory runs out.
    pub fn target(&self, at: &Address) -> Result<Option<Address>, AllocError>
        ensures { IfOk result (λ target. target ≡ received_target at.now self.now) }
    {
        match self {
            Received::Whole(given) => redirect_target(at, given.response()),
            Received::Fault(_) => Ok(None),
        }
    }

    /// The rules of an origin whose robots file it is, if no redirect is followed any more (RFC 9309, section 2.3.1). Fails
    /// only if memory runs out.
    pub fn rules(&self, alloc: Global) -> Result<RuleSet, AllocError>
        ensures { IfOk result (λ rules. rules ≡ received_rules self.now) }
    {
        match self {
            Received::Whole(given) => {
                let response = given.response();
                rules_by_status(alloc, response.status, response.body.as_slice())
            }
            Received::Fault(_) => Ok(RuleSet::none()),
        }
    }
}
