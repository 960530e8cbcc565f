//! The rule lines of a map as the robots file that they represent (RFC 9309, section 2.2).
ghost use Rattle.std.specs.Prelude.{◌≡◌, ◌++◌, IfOk, OnOk, string_bytes};
ghost use Rattle.robots_rules.specs.Groups.{rules_in};
ghost use Rattle.site_maps.specs.RuleLines.{file_head, file_line};

use crate::rule_kind::RuleKind;
use address::Origin;
use robots_rules::{RuleSet, parse};
use std::alloc::{AllocError, Global};

/// An origin whose rule lines may still follow, and the robots file of those read so far.
#[derive(Drop)]
pub(crate) struct OpenRobots {
    pub(crate) origin: Origin,
    pub(crate) file: String,
}

impl OpenRobots {
    // An origin before its first rule line: its file names every agent.
    pub(crate) fn new(alloc: Global, origin: Origin) -> Result<OpenRobots, AllocError>
        ensures origin { IfOk result (λ robots. robots.origin ≡ origin) }
        ensures file { IfOk result (λ robots. string_bytes robots.file ≡ file_head) }
    {
        let file = String::from_str(alloc, "user-agent: *\n")?;
        Ok(OpenRobots { origin, file })
    }

    // Adds a rule line, of which `rest` follows its word.
    pub(crate) fn add(&mut self, kind: RuleKind, rest: &str) -> Result<(), AllocError>
        ensures origin { self.new.origin ≡ self.old.origin }
        ensures file { OnOk result (string_bytes self.new.file ≡ string_bytes self.old.file ++ file_line kind rest.now) }
    {
        self.file.push_str(kind.word())?;
        self.file.push_str(":")?;
        self.file.push_str(rest)?;
        self.file.push_str("\n")
    }

    // What the file says to this agent.
    pub(crate) fn rules(&self, alloc: Global) -> Result<RuleSet, AllocError>
        ensures { IfOk result (λ rules. rules ≡ rules_in (string_bytes self.now.file)) }
    {
        parse(alloc, self.file.as_bytes())
    }
}
