//! Rule sets that a map or a record keeps (RFC 9309, section 2.2).
ghost use Rattle.std.specs.Prelude.{◌≡◌, IfOk};

use robots_rules::RuleSet;
use std::alloc::{AllocError, Global};
use std::marker::Model;

/// A rule set, and the memory that copies of it are made in. Contracts see the rule set.
#[derive(Drop)]
pub struct KeptRules {
    alloc: Global,
    set: RuleSet,
}

impl Model for KeptRules {
    ghost use Rattle.robots_rules.specs.Access.{RuleSetValue};

    ghost Value = { RuleSetValue };

    ghost view = { λ kept. kept.set };
}

impl KeptRules {
    /// Keeps a rule set. Takes no memory.
    pub fn new(alloc: Global, set: RuleSet) -> Self
        ensures { result ≡ set }
    {
        KeptRules { alloc, set }
    }

    /// An equal rule set, or an error if memory ran out.
    pub fn rule_set(&self) -> Result<RuleSet, AllocError>
        ensures { IfOk result (λ copy. copy ≡ self.now) }
    {
        self.set.try_clone(self.alloc)
    }
}

impl Clone for KeptRules {
    ghost use Rattle.std.specs.Prelude.{◌≡◌};

    ghost is_clone = { λ kept copy. copy ≡ kept };

    fn clone(&self) -> Result<KeptRules, AllocError> {
        Ok(KeptRules::new(self.alloc, self.rule_set()?))
    }
}
