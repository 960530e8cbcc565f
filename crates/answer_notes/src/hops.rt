//! What was received for an origin's robots file, redirects followed (RFC 9309, section 2.3.1.2).
ghost use Rattle.std.specs.Prelude.{◌≡◌, IfOk};
ghost use Rattle.answer_notes.specs.HopChains.{IsAdmitted, rules_of_hops};

use crate::received::Received;
use address::{Address, Origin};
use robots_rules::RuleSet;
use std::alloc::{AllocError, Global};
use std::marker::Model;

/// The answers of an origin's robots file and of the redirects after it, one to six. Contracts see the origin and the hops.
#[derive(Drop)]
pub struct Hops {
    of: Origin,
    hops: Vec<(Address, Received)>,
}

impl Model for Hops {
    ghost use Rattle.answer_notes.specs.HopChains.{ChainValue, IsAdmitted};

    ghost Value = { ChainValue };

    ghost view = { λ h. record { of = h.of; hops = h.hops.items } };

    ghost invariant = { λ h. IsAdmitted h.of h.hops.items };
}

impl Hops {
    /// The hops of an origin, each the target of the redirect before it. Takes no memory.
    pub fn new(of: Origin, hops: Vec<(Address, Received)>) -> Hops
        requires { IsAdmitted of hops.items }
        ensures of { result.of ≡ of }
        ensures hops { result.hops ≡ hops.items }
    {
        Hops { of, hops }
    }

    /// The origin.
    pub fn of(&self) -> &Origin
        ensures { result.now ≡ self.now.of }
    {
        &self.of
    }

    /// The hops in order.
    pub fn hops(&self) -> &[(Address, Received)]
        ensures value { result.now ≡ self.now.hops }
        ensures admitted { IsAdmitted self.now.of self.now.hops }
    {
        self.hops.as_slice()
    }

    /// The rules at the end. Fails only if memory runs out.
    pub fn rules(&self, alloc: Global) -> Result<RuleSet, AllocError>
        ensures { IfOk result (λ rules. rules ≡ rules_of_hops self.now.hops) }
    {
        match self.hops.as_slice() {
            [.., (_, received)] => received.rules(alloc),
            [] => Ok(RuleSet::none()),
        }
    }
}
