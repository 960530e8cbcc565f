//! Kinds of robots rules (RFC 9309, section 2.2).
ghost use Rattle.std.specs.Prelude.{◌≡◌};

/// What a robots rule does with the paths that its pattern matches.
#[derive(Clone, Copy, PartialEq, Eq)]
pub(crate) enum RuleKind {
    /// It allows them.
    Allow,
    /// It refuses them.
    Disallow,
}

impl RuleKind {
    ghost use Rattle.site_maps.specs.RuleLines.{rule_word};

    // The word that begins the rule's line.
    pub(crate) fn word(self) -> &'static str
        ensures { result.now ≡ rule_word self }
    {
        match self {
            RuleKind::Allow => "allow",
            RuleKind::Disallow => "disallow",
        }
    }
}
