//! A fetcher whose answers a journal has.
ghost use Rattle.std.specs.Prelude.{◌≡◌, ◌∷◌, ◌++◌, [], true, false, IfOk, OnOk, OnErr, MatchBool};
ghost use Rattle.std.specs.Io.KnownBytes.{Appends};
ghost use Rattle.fetcher.specs.declared.fetcher.Ask.TheVariants as ask;
ghost use Rattle.fetcher.specs.Logs.{GainedAtMost};
ghost use Rattle.site_records.specs.WrittenEntries.{written_note};
ghost use Rattle.streams.specs.Streams.{AppendsFront};
ghost use Rattle.record_journal.specs.Handed.{HandsPage, HandsChain, IsHanded, IsHalfHandedPage, IsHalfHandedChain, IsStill};

use crate::journal::Journal;
use address::{Address, Origin};
use answer_notes::{Noted, Receiving, Recording};
use fetcher::{Answer, Ask, Body, Fetcher};
use robots_rules::RuleSet;
use site_records::push_note;
use std::alloc::{AllocError, Global};
use std::marker::Model;
use streams::Pieces;

/// Asks a fetcher, and hands what this receives to a journal before it answers. What the journal doesn't take is kept, so that
/// it can be saved when all is done.
#[derive(Drop)]
pub struct Journaled<F: Receiving, J: Journal> {
    alloc: Global,
    inner: F,
    journal: J,
    is_recording: bool,
    kept: Vec<Noted>,
}

impl<F: Receiving, J: Journal> Model for Journaled<F, J> {
    ghost use Rattle.record_journal.specs.Handed.{Journaling};

    ghost Value = { Journaling F J };

    ghost view = { λ f. record { inner = f.inner; journal = f.journal; is_recording = f.is_recording; kept = f.kept.items } };
}

// The text of a note's entry. Fails only if memory runs out.
fn entry_of(alloc: Global, note: &Noted) -> Result<Vec<u8>, AllocError>
    ensures { IfOk result (λ entry. entry.items ≡ written_note note.now) }
{
    let mut pieces = Pieces::new(alloc);
    push_note(alloc, &mut pieces, note)?;
    pieces.joined(alloc)
}

// Adds a note's entry to the journal, and returns whether it is there whole. It isn't if there is no memory for it.
fn is_taken<J: Journal>(alloc: Global, journal: &mut J, note: &Noted) -> bool
    ensures taken { result ≡ true → Appends (J.contents journal.old) (J.contents journal.new) (written_note note.now) }
    ensures refused { result ≡ false → AppendsFront (J.contents journal.old) (J.contents journal.new) (written_note note.now) }
{
    match entry_of(alloc, note) {
        Ok(entry) => journal.append(entry.as_slice()),
        Err(_) => false,
    }
}

impl<F: Receiving, J: Journal> Journaled<F, J> {
    /// Asks `inner`. If answers are saved, each goes to the journal. Takes no memory; later growth comes from `alloc`.
    pub fn new(alloc: Global, inner: F, journal: J, is_recording: bool) -> Journaled<F, J>
        ensures inner { result.inner ≡ inner }
        ensures journal { result.journal ≡ journal }
        ensures is_recording { result.is_recording ≡ is_recording }
        ensures kept { result.kept ≡ [] }
    {
        Journaled {
            alloc,
            inner,
            journal,
            is_recording,
            kept: Vec::new(alloc),
        }
    }

    /// The fetcher that is asked.
    pub fn inner(&self) -> &F
        ensures { result.now ≡ self.now.inner }
    {
        &self.inner
    }

    /// The journal.
    pub fn journal(&self) -> &J
        ensures { result.now ≡ self.now.journal }
    {
        &self.journal
    }

    // Hands a note over. The error is that the journal didn't take it, and there is no memory to keep it.
    fn hand(&mut self, note: Noted) -> Result<(), AllocError>
        ensures inner { self.new.inner ≡ self.old.inner }
        ensures is_recording { self.new.is_recording ≡ self.old.is_recording }
        ensures ok { OnOk result (IsHanded J.contents note self.old self.new) }
        ensures err { OnErr result (self.new.kept ≡ self.old.kept) }
        ensures half { OnErr result (AppendsFront (J.contents self.old.journal) (J.contents self.new.journal) (written_note note)) }
    {
        if is_taken(self.alloc, &mut self.journal, &note) {
            drop(note);
            return Ok(());
        }
        self.kept.push(note)?;
        Ok(())
    }

    // Requests a page, and hands over what was received. Fails only if memory runs out.
    fn ask_and_hand(&mut self, at: &Address) -> Result<Answer<Body>, AllocError>
        ensures site { F.site self.new.inner ≡ F.site self.old.inner }
        ensures links { F.links self.new.inner ≡ F.links self.old.inner }
        ensures is_recording { self.new.is_recording ≡ self.old.is_recording }
        ensures told { IfOk result (λ a. F.says (F.site self.old.inner) at.now a.outcome a.body) }
        ensures asked { OnOk result (F.log self.new.inner ≡ F.log self.old.inner ++ ask.Page at.now ∷ []) }
        ensures refused { OnErr result (GainedAtMost (F.log self.old.inner) (F.log self.new.inner) (ask.Page at.now)) }
        ensures handed { IfOk result (λ a. HandsPage J.contents (F.links self.old.inner) at.now a self.old self.new) }
        ensures unkept { OnErr result (self.new.kept ≡ self.old.kept) }
        ensures half { OnErr result (IsHalfHandedPage J.contents at.now self.old self.new) }
    {
        let name = at.try_clone()?;
        let received = self.inner.ask_received(at)?;
        let answer = received.answer(self.alloc, at, self.inner.link_rules())?;
        self.hand(Noted::Page(name, received))?;
        Ok(answer)
    }

    // Requests an origin's rules, and hands over what was received. Fails only if memory runs out.
    fn ask_robots_and_hand(&mut self, of: &Origin) -> Result<RuleSet, AllocError>
        ensures site { F.site self.new.inner ≡ F.site self.old.inner }
        ensures links { F.links self.new.inner ≡ F.links self.old.inner }
        ensures is_recording { self.new.is_recording ≡ self.old.is_recording }
        ensures told { IfOk result (λ r. F.rules (F.site self.old.inner) of.now r) }
        ensures asked { OnOk result (F.log self.new.inner ≡ F.log self.old.inner ++ ask.Rules of.now ∷ []) }
        ensures refused { OnErr result (GainedAtMost (F.log self.old.inner) (F.log self.new.inner) (ask.Rules of.now)) }
        ensures handed { IfOk result (λ r. HandsChain J.contents of.now r self.old self.new) }
        ensures unkept { OnErr result (self.new.kept ≡ self.old.kept) }
        ensures half { OnErr result (IsHalfHandedChain J.contents of.now self.old self.new) }
    {
        let hops = self.inner.ask_hops(of)?;
        let rules = hops.rules(self.alloc)?;
        self.hand(Noted::Chain(hops))?;
        Ok(rules)
    }
}

impl<F: Receiving, J: Journal> Fetcher for Journaled<F, J> {
    type Body = Body;

    ghost Site = { F.Site };

    ghost site = { λ f. F.site f.inner };

    ghost says = { F.says };

    ghost rules = { F.rules };

    ghost log = { λ f. F.log f.inner };

    fn ask(&mut self, at: &Address) -> Result<Answer<Body>, AllocError>
        ensures site { F.site self.new.inner ≡ F.site self.old.inner }
        ensures told { IfOk result (λ a. F.says (F.site self.old.inner) at.now a.outcome a.body) }
        ensures asked { OnOk result (F.log self.new.inner ≡ F.log self.old.inner ++ ask.Page at.now ∷ []) }
        ensures refused { OnErr result (GainedAtMost (F.log self.old.inner) (F.log self.new.inner) (ask.Page at.now)) }
        // If answers are saved, what was received is handed over before it is answered.
        ensures is_recording { self.new.is_recording ≡ self.old.is_recording }
        ensures handed { IfOk result (λ a. MatchBool self.old.is_recording (HandsPage J.contents (F.links self.old.inner) at.now a self.old self.new) (IsStill self.old self.new)) }
        ensures unkept { OnErr result (self.new.kept ≡ self.old.kept) }
        ensures half { OnErr result (IsHalfHandedPage J.contents at.now self.old self.new) }
    {
        if self.is_recording {
            return self.ask_and_hand(at);
        }
        self.inner.ask(at)
    }

    fn ask_robots(&mut self, of: &Origin) -> Result<RuleSet, AllocError>
        ensures site { F.site self.new.inner ≡ F.site self.old.inner }
        ensures told { IfOk result (λ r. F.rules (F.site self.old.inner) of.now r) }
        ensures asked { OnOk result (F.log self.new.inner ≡ F.log self.old.inner ++ ask.Rules of.now ∷ []) }
        ensures refused { OnErr result (GainedAtMost (F.log self.old.inner) (F.log self.new.inner) (ask.Rules of.now)) }
        // If answers are saved, what was received is handed over before it is answered.
        ensures is_recording { self.new.is_recording ≡ self.old.is_recording }
        ensures handed { IfOk result (λ r. MatchBool self.old.is_recording (HandsChain J.contents of.now r self.old self.new) (IsStill self.old self.new)) }
        ensures unkept { OnErr result (self.new.kept ≡ self.old.kept) }
        ensures half { OnErr result (IsHalfHandedChain J.contents of.now self.old self.new) }
    {
        if self.is_recording {
            return self.ask_robots_and_hand(of);
        }
        self.inner.ask_robots(of)
    }

    fn asks(&self) -> &[Ask] {
        self.inner.asks()
    }
}

// What was received and isn't in the journal.
impl<F: Receiving, J: Journal> Recording for Journaled<F, J> {
    ghost noted = { λ f. f.kept };

    fn notes(&self) -> &[Noted] {
        self.kept.as_slice()
    }
}
