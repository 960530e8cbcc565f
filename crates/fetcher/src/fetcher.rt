//! Fetchers: what a site may answer, and what was asked of it.
ghost use Rattle.std.specs.Prelude.{◌≡◌, ℕ, List, [], ◌∷◌, ◌++◌, IfOk, OnOk, OnErr};
ghost use Rattle.fetcher.specs.declared.outcome.Outcome.{Outcome};
ghost use Rattle.fetcher.specs.declared.fetcher.Ask.{Ask};
ghost use Rattle.fetcher.specs.Logs.{GainedAtMost};
ghost use Rattle.robots_rules.specs.Access.{RuleSetValue};

use crate::answer::Answer;
use address::{Address, Origin};
use robots_rules::RuleSet;
use std::alloc::AllocError;

/// What a fetcher was asked.
#[derive(Drop, Debug)]
pub enum Ask {
    /// The page of this address.
    Page(Address),
    /// The robots rules of this origin (RFC 9309, section 2.3).
    Rules(Origin),
}

impl Ask {
    ghost use Rattle.std.specs.Prelude.{◌≡◌, IfOk};

    /// An equal ask, or an error if memory ran out.
    pub fn try_clone(&self) -> Result<Ask, AllocError>
        ensures { IfOk result (λ copy. copy ≡ self.now) }
    {
        match self {
            Ask::Page(address) => Ok(Ask::Page(address.try_clone()?)),
            Ask::Rules(origin) => Ok(Ask::Rules(origin.try_clone()?)),
        }
    }
}

impl Clone for Ask {
    ghost use Rattle.std.specs.Prelude.{◌≡◌};

    ghost is_clone = { λ ask copy. copy ≡ ask };

    fn clone(&self) -> Result<Ask, AllocError> {
        self.try_clone()
    }
}

/// Fetches pages and robots rules of one site. Each ask is logged before anything is asked of the
/// site.
pub trait Fetcher: Drop {
    /// A body as this fetcher hands it out: its bytes, or what represents them elsewhere.
    type Body: Drop;

    /// What the site is, as far as its answers go.
    ghost Site: { Type 0 };

    /// The site that this fetcher asks.
    ghost site: { Self → Site };

    /// Which outcomes the site may give for an address, each with which bodies.
    ghost says: { Site → List ℕ → Outcome → Self.Body → Type 0 };

    /// Which rule sets an origin may have.
    ghost rules: { Site → List ℕ → RuleSetValue → Type 0 };

    /// What was asked, in order.
    ghost log: { Self → List Ask };

    /// Requests the page of an address. The answer is one that the site may give; the request is logged, and the site
    /// stays what it is. Fails only if memory runs out: then the log is unchanged or has gained this request.
    fn ask(&mut self, at: &Address) -> Result<Answer<Self::Body>, AllocError>
        ensures site { site self.new ≡ site self.old }
        ensures told { IfOk result (λ a. says (site self.old) at.now a.outcome a.body) }
        ensures asked { OnOk result (log self.new ≡ log self.old ++ Ask.Page at.now ∷ []) }
        ensures refused { OnErr result (GainedAtMost (log self.old) (log self.new) (Ask.Page at.now)) };

    /// Requests the robots rules of an origin. The rule set is one that the origin may have; the request is logged,
    /// and the site stays what it is. Fails only if memory runs out: then the log is unchanged or has gained this
    /// request.
    fn ask_robots(&mut self, of: &Origin) -> Result<RuleSet, AllocError>
        ensures site { site self.new ≡ site self.old }
        ensures told { IfOk result (λ r. rules (site self.old) of.now r) }
        ensures asked { OnOk result (log self.new ≡ log self.old ++ Ask.Rules of.now ∷ []) }
        ensures refused { OnErr result (GainedAtMost (log self.old) (log self.new) (Ask.Rules of.now)) };

    /// What was asked, in order.
    fn asks(&self) -> &[Ask]
        ensures { result.now ≡ log self.now };
}

/// Fetches of a steady site: each address has exactly one outcome, which is no fault, and each
/// origin exactly one rule set.
pub trait SteadyFetcher: Fetcher {
    ghost use Rattle.fetcher.specs.Sites.{IsSteady};

    /// The site's answers are these and no others.
    ghost steady: { (fetcher : Self) → IsSteady Self.says Self.rules (Self.site fetcher) };
}
