//! Fetchers that hand out what they receive, for a caller who keeps it.
ghost use Rattle.std.specs.Prelude.{◌≡◌, ◌∷◌, ◌++◌, [], IfOk, OnOk, OnErr};
ghost use Rattle.html_links.specs.declared.rules.LinkRules.{LinkRules};
ghost use Rattle.fetcher.specs.declared.fetcher.Ask.TheVariants as ask;
ghost use Rattle.fetcher.specs.Logs.{GainedAtMost};
ghost use Rattle.answer_notes.specs.Received.{received_outcome, received_body};
ghost use Rattle.answer_notes.specs.HopChains.{rules_of_hops};

use crate::hops::Hops;
use crate::received::Received;
use address::{Address, Origin};
use fetcher::{Body, Fetcher};
use html_links::LinkRules;
use std::alloc::AllocError;

/// Asks as any fetcher does, and hands out what was received instead of its answer. The caller makes the answer of it, and may
/// keep it.
pub trait Receiving: Fetcher<Body = Body> {
    /// Which links of pages are taken.
    ghost links: { Self → LinkRules };

    /// Which links of pages are taken. They stay the same.
    fn link_rules(&self) -> LinkRules
        ensures { result ≡ links self.now };

    /// Requests the page of an address. What is received answers as the site may; all else is as of [`Fetcher::ask`].
    fn ask_received(&mut self, at: &Address) -> Result<Received, AllocError>
        ensures site { Self.site self.new ≡ Self.site self.old }
        ensures links { links self.new ≡ links self.old }
        ensures told { IfOk result (λ t. Self.says (Self.site self.old) at.now (received_outcome (links self.old) at.now t) (received_body t)) }
        ensures asked { OnOk result (Self.log self.new ≡ Self.log self.old ++ ask.Page at.now ∷ []) }
        ensures refused { OnErr result (GainedAtMost (Self.log self.old) (Self.log self.new) (ask.Page at.now)) };

    /// Requests an origin's robots file, redirects followed. The rules at the end are rules that the origin may have; all else
    /// is as of [`Fetcher::ask_robots`].
    fn ask_hops(&mut self, of: &Origin) -> Result<Hops, AllocError>
        ensures site { Self.site self.new ≡ Self.site self.old }
        ensures links { links self.new ≡ links self.old }
        ensures of { IfOk result (λ found. found.of ≡ of.now) }
        ensures told { IfOk result (λ found. Self.rules (Self.site self.old) of.now (rules_of_hops found.hops)) }
        ensures asked { OnOk result (Self.log self.new ≡ Self.log self.old ++ ask.Rules of.now ∷ []) }
        ensures refused { OnErr result (GainedAtMost (Self.log self.old) (Self.log self.new) (ask.Rules of.now)) };
}
