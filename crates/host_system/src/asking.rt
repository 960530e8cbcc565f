//! What asks the site for one worker.
use address::{Address, Origin};
use answer_notes::{Noted, Recording};
use fetcher::{Answer, Ask, Body, Fetcher};
use program_io::SharedFailures;
use record_journal::{Journaled, Pen};
use robots_rules::RuleSet;
use run_failures::LossKind;
use std::alloc::AllocError;
use std::fs::Files;
use std::net::Net;
use std::sync::Wait;
use std::time::Clock;
use tcp_fetcher::OverTcp;

/// Asks over TCP, hands what is received to the journal of the run, and keeps why a connection was lost.
// It has a type of its own, like what it asks, since a call at a type that names all these parts costs its proof more than
// the checker allows.
pub struct Asking<'a, R: Net + Wait + Files + Clock + Eprint> {
    pub(crate) inner: Journaled<OverTcp<'a, R>, Pen<'a, R>>,
    pub(crate) rt: &'a R,
    pub(crate) failures: &'a SharedFailures,
}

// Written by hand: a user that drops one proves a call, and nothing about its fields.
impl<'a, R: Net + Wait + Files + Clock + Eprint> Drop for Asking<'a, R> {
    fn drop(self) {
        let Asking {
            inner: _inner,
            rt: _rt,
            failures: _failures,
        } = self;
    }
}

impl<'a, R: Net + Wait + Files + Clock + Eprint> Asking<'a, R> {
    // Why the last connection was lost, if it was.
    fn loss(&self) -> Option<LossKind> {
        self.inner.inner().loss()
    }

    // Keeps that the last connection was lost, which was to request this address.
    fn note_page(&self, at: &Address) {
        if let Some(kind) = self.loss() {
            self.failures.lose(self.rt, kind, at.try_clone());
        }
    }

    // Keeps that the last connection was lost, which was to request this origin's robots file.
    fn note_robots(&self, of: &Origin) {
        if let Some(kind) = self.loss() {
            self.failures.lose(self.rt, kind, of.robots_file());
        }
    }
}

impl<'a, R: Net + Wait + Files + Clock + Eprint> Fetcher for Asking<'a, R> {
    ghost use Rattle.html_links.specs.declared.rules.LinkRules.{LinkRules};
    ghost use Rattle.http_fetcher.specs.Meanings.{MayAnswer, MayRule};

    type Body = Body;

    ghost Site = { LinkRules };

    ghost site = { λ f. f.inner.inner.links };

    ghost says = { MayAnswer };

    ghost rules = { MayRule };

    ghost log = { λ f. f.inner.inner.asks };

    fn ask(&mut self, at: &Address) -> Result<Answer<Body>, AllocError> {
        let answer = self.inner.ask(at)?;
        self.note_page(at);
        Ok(answer)
    }

    fn ask_robots(&mut self, of: &Origin) -> Result<RuleSet, AllocError> {
        let rules = self.inner.ask_robots(of)?;
        self.note_robots(of);
        Ok(rules)
    }

    fn asks(&self) -> &[Ask] {
        self.inner.asks()
    }
}

// What was received and isn't in the journal.
impl<'a, R: Net + Wait + Files + Clock + Eprint> Recording for Asking<'a, R> {
    ghost noted = { λ f. f.inner.kept };

    fn notes(&self) -> &[Noted] {
        self.inner.notes()
    }
}
