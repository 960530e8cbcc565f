//! A record in mid-read: the answers and the rule sets that the entries so far state.
ghost use Rattle.std.specs.Prelude.{◌≡◌, ◌≤◌, ◌+◌, ◌++◌, ◌∷◌, [], MatchResult, None, OnOk, if◌then◌else◌, length, not};
ghost use Rattle.std.specs.List.{filter};
ghost use Rattle.std.specs.Map.{lookup};
ghost use Rattle.std.specs.Str.{bytes_eq};
ghost use Rattle.answer_notes.specs.declared.noted.Noted.TheVariants.{Chain, Page};
ghost use Rattle.site_records.specs.EntryLines.{page, fault, file, free, closed, chain, IsHopCount};
ghost use Rattle.site_records.specs.Records.{answers_of};
ghost use Rattle.site_records.specs.WrittenEntries.{note_entry};
ghost use Rattle.site_records.specs.inner.Said.{said};
ghost use Rattle.site_records.specs.inner.Readings.{TakesEntry, IsCounted, NamesUnstated, NamesUnruled, KeepsNote, Reads, IsBad, is_among, lines_to, with_lost};
ghost use Rattle.site_records.specs.inner.RecordNotes.{is_failure};
ghost use Rattle.site_records.specs.Received.{has_lost, is_lost};
ghost use Rattle.fetcher.specs.Outcomes.{is_fault};

use crate::entry_fault::EntryFault;
use crate::entry_line::EntryLine;
use crate::first_line::{counted, first_text_line};
use crate::first_version::{bare_chain, file_chain};
use crate::hop_row::{read_chain, read_received};
use crate::recorded_site::RecordContents;
use crate::taken::Taken;
use crate::version::Version;
use address::{Address, Origin};
use answer_notes::{Hops, Noted, Received};
use fetcher::{Answer, Body, FaultKind};
use html_links::LinkRules;
use indexmap::{IndexMap, IndexSet};
use site_inputs::{InputLineFault, KeptRules, read_recorded, read_recorded_origin};
use std::alloc::{AllocError, Global};

/// What the entries read so far state, and of which origins they say that no response was received.
pub(crate) struct RecordReading {
    pub(crate) alloc: Global,
    pub(crate) links: LinkRules,
    pub(crate) version: Version,
    pub(crate) keeps_notes: bool,
    pub(crate) notes: Vec<Noted>,
    pub(crate) answers: IndexMap<Address, Answer<Body>>,
    pub(crate) rules: IndexMap<Origin, KeptRules>,
    pub(crate) lost: IndexSet<Origin>,
}

// Written by hand: a user that drops one proves a call, and nothing about its fields.
impl Drop for RecordReading {
    fn drop(self) {
        let RecordReading {
            alloc: _alloc,
            links: _links,
            version: _version,
            keeps_notes: _keeps_notes,
            notes: _notes,
            answers: _answers,
            rules: _rules,
            lost: _lost,
        } = self;
    }
}

// Whether no response was received.
fn is_lost(received: &Received) -> bool
    ensures { result ≡ is_lost received.now }
{
    matches!(received, Received::Fault(_))
}

// Whether none was received for one of these hops.
fn has_lost(hops: &Hops) -> bool
    ensures { result ≡ has_lost hops.now.hops }
{
    hops.hops().iter().any(|hop| is_lost(&hop.1))
}

// Whether the note is of no response.
fn is_failure(note: &Noted) -> bool
    ensures { result ≡ is_failure note.now }
{
    match note {
        Noted::Page(_, received) => is_lost(received),
        Noted::Chain(hops) => has_lost(hops),
    }
}

// Leaves the answers that are responses.
fn leave_faults(answers: &mut IndexMap<Address, Answer<Body>>)
    ensures { answers.new.entries ≡ filter (λ a. not (is_fault a.1.outcome)) answers.old.entries }
{
    answers.retain(
        |_at: &Address, answer: &mut Answer<Body>| -> bool
            ensures { (result ≡ not (is_fault answer.old.outcome)) × (answer.new ≡ answer.old) }
        { !answer.outcome.is_fault() },
    );
}

// Leaves the rules of other origins than these.
fn leave_lost(rules: &mut IndexMap<Origin, KeptRules>, lost: &IndexSet<Origin>)
    ensures { rules.new.entries ≡ filter (λ r. not (is_among lost.now.keys r.0)) rules.old.entries }
{
    rules.retain(
        |of: &Origin, rules: &mut KeptRules| -> bool
            ensures { (result ≡ not (is_among lost.entry.now.keys of.now)) × (rules.new ≡ rules.old) }
        { !lost.contains(of) },
    );
}

// Leaves the notes of responses.
fn leave_failures(notes: &mut Vec<Noted>)
    ensures { notes.new.items ≡ filter (λ n. not (is_failure n)) notes.old.items }
{
    notes.retain(|note| !is_failure(note));
}

impl RecordReading {
    // Before the first entry.
    pub(crate) fn new(alloc: Global, links: LinkRules, version: Version, keeps_notes: bool) -> Self
        ensures links { result.links ≡ links }
        ensures version { result.version ≡ version }
        ensures keeps_notes { result.keeps_notes ≡ keeps_notes }
        ensures notes { result.notes.items ≡ [] }
        ensures answers { result.answers.entries ≡ [] }
        ensures rules { result.rules.entries ≡ [] }
        ensures lost { result.lost.keys ≡ [] }
    {
        RecordReading {
            alloc,
            links,
            version,
            keeps_notes,
            notes: Vec::new(alloc),
            answers: IndexMap::new(alloc),
            rules: IndexMap::new(alloc),
            lost: IndexSet::new(alloc),
        }
    }

    // The address that a text names, for which no answer is kept.
    fn unstated(&self, text: &str) -> Result<Address, InputLineFault>
        ensures { NamesUnstated self.now.answers.entries text.now result }
    {
        let at = read_recorded(self.alloc, text)?;
        if self.answers.contains_key(&at) {
            return Err(InputLineFault::Line);
        }
        Ok(at)
    }

    // The origin whose `/` a text names, for which no rules are kept.
    fn unruled(&self, text: &str) -> Result<Origin, InputLineFault>
        ensures { NamesUnruled self.now.rules.entries text.now result }
    {
        let origin = read_recorded_origin(self.alloc, text)?;
        if self.rules.contains_key(&origin) {
            return Err(InputLineFault::Line);
        }
        Ok(origin)
    }

    // Keeps a note after the others, if notes are kept. Fails only if memory runs out.
    fn note(&mut self, note: Noted) -> Result<(), AllocError>
        ensures kept { self.new ≡ record self.old { notes = self.new.notes } }
        ensures notes { OnOk result (self.new.notes.items ≡ (if self.old.keeps_notes then self.old.notes.items ++ note ∷ [] else self.old.notes.items)) }
    {
        if !self.keeps_notes {
            drop(note);
            return Ok(());
        }
        self.notes.push(note)?;
        Ok(())
    }

    // Keeps the answer that was received for an address that has none yet. Fails only if memory runs out.
    fn answer(&mut self, at: &Address, received: &Received) -> Result<(), AllocError>
        requires { lookup (bytes_eq at.now) self.old.answers.entries ≡ None }
        ensures kept { self.new ≡ record self.old { answers = self.new.answers } }
        ensures answers { OnOk result (self.new.answers.entries ≡ self.old.answers.entries ++ answers_of (note_entry self.old.links (Page at.now received.now) ∷ [])) }
    {
        let answer = received.answer(self.alloc, at, self.links)?;
        self.answers.insert(at.try_clone()?, answer)?;
        Ok(())
    }

    // The same, with a note of it.
    fn keep(&mut self, at: Address, received: Received) -> Result<(), AllocError>
        requires { lookup (bytes_eq at) self.old.answers.entries ≡ None }
        ensures { OnOk result (KeepsNote self.old (Page at received) self.new) }
    {
        self.answer(&at, &received)?;
        self.note(Noted::Page(at, received))
    }

    // Keeps the origin of a chain with the others of which no response was received, if it is one. Fails only if memory runs out.
    fn lose(&mut self, hops: &Hops) -> Result<(), AllocError>
        ensures kept { self.new ≡ record self.old { lost = self.new.lost } }
        ensures lost { OnOk result (self.new.lost.keys ≡ with_lost self.old.lost.keys (has_lost hops.now.hops) hops.now.of) }
    {
        if has_lost(hops) {
            self.lost.insert(hops.of().try_clone()?)?;
        }
        Ok(())
    }

    // Keeps the rules at the end of the chain of an origin without any, and a note of it. Fails only if memory runs out.
    fn keep_chain(&mut self, origin: Origin, hops: Hops) -> Result<(), AllocError>
        requires vacant { lookup (bytes_eq origin) self.old.rules.entries ≡ None }
        requires of { hops.of ≡ origin }
        ensures { OnOk result (KeepsNote self.old (Chain hops) self.new) }
    {
        let rules = hops.rules(self.alloc)?;
        self.lose(&hops)?;
        self.rules
            .insert(origin, KeptRules::new(self.alloc, rules))?;
        self.note(Noted::Chain(hops))
    }

    // Takes a line with an address's response, which has so many bytes.
    fn add_page<'a>(
        &mut self,
        text: &str,
        count: usize,
        behind: &'a [u8],
    ) -> Result<Taken<'a>, EntryFault>
        ensures { TakesEntry self.old (page text.now count) behind.now result self.new }
    {
        let at = self.unstated(text)?;
        let Some((bytes, after)) = counted(behind, count) else {
            return Err(EntryFault::Own(InputLineFault::Line));
        };
        let received = read_received(self.alloc, bytes)?;
        self.keep(at, received)?;
        Ok(Taken { lines: 1, after })
    }

    // Takes a line with the fault of an address.
    fn add_fault<'a>(
        &mut self,
        kind: FaultKind,
        text: &str,
        behind: &'a [u8],
    ) -> Result<Taken<'a>, EntryFault>
        ensures { TakesEntry self.old (fault kind text.now) behind.now result self.new }
    {
        let at = self.unstated(text)?;
        self.keep(at, Received::Fault(kind))?;
        Ok(Taken {
            lines: 1,
            after: behind,
        })
    }

    // Takes a line with an origin's robots file, which has so many bytes.
    fn add_robots<'a>(
        &mut self,
        text: &str,
        count: usize,
        behind: &'a [u8],
    ) -> Result<Taken<'a>, EntryFault>
        ensures { TakesEntry self.old (file text.now count) behind.now result self.new }
    {
        let origin = self.unruled(text)?;
        let Some((bytes, after)) = counted(behind, count) else {
            return Err(EntryFault::Own(InputLineFault::Line));
        };
        let hops = file_chain(self.alloc, &origin, bytes)?;
        self.keep_chain(origin, hops)?;
        Ok(Taken { lines: 1, after })
    }

    // Takes a line that says that everything is allowed at an origin, or that nothing is.
    fn add_rules<'a>(
        &mut self,
        allowed: bool,
        text: &str,
        behind: &'a [u8],
    ) -> Result<Taken<'a>, EntryFault>
        ensures { TakesEntry self.old (if allowed then free text.now else closed text.now) behind.now result self.new }
    {
        let origin = self.unruled(text)?;
        let hops = bare_chain(self.alloc, &origin, allowed)?;
        self.keep_chain(origin, hops)?;
        Ok(Taken {
            lines: 1,
            after: behind,
        })
    }

    // Takes the line of an origin's chain, which has so many hops.
    fn add_chain<'a>(
        &mut self,
        text: &str,
        count: usize,
        behind: &'a [u8],
    ) -> Result<Taken<'a>, EntryFault>
        requires { IsHopCount count }
        ensures { TakesEntry self.old (chain text.now count) behind.now result self.new }
    {
        let origin = self.unruled(text)?;
        let (hops, after) = read_chain(self.alloc, &origin, count, behind)?;
        self.keep_chain(origin, hops)?;
        let lines = count + 1;
        Ok(Taken { lines, after })
    }

    // Takes what a line says, with what follows it.
    fn add<'a>(&mut self, line: EntryLine<'_>, behind: &'a [u8]) -> Result<Taken<'a>, EntryFault>
        requires { IsCounted (said line) }
        ensures { TakesEntry self.old (said line.entry) behind.now result self.new }
    {
        match line {
            EntryLine::Page(text, count) => self.add_page(text, count, behind),
            EntryLine::Fault(kind, text) => self.add_fault(kind, text, behind),
            EntryLine::Robots(text, count) => self.add_robots(text, count, behind),
            EntryLine::Free(text) => self.add_rules(true, text, behind),
            EntryLine::Closed(text) => self.add_rules(false, text, behind),
            EntryLine::Chain(text, count) => self.add_chain(text, count, behind),
        }
    }

    /// Takes the entry that the text begins with, and gives what follows it. An error says what is
    /// wrong with it; then nothing more may be read.
    pub(crate) fn read_entry<'a>(&mut self, text: &'a [u8]) -> Result<Taken<'a>, EntryFault>
        ensures read { MatchResult result (λ taken. Reads self.old text.now taken.lines taken.after.now self.new) (λ f. IsBad self.old text.now f) }
        ensures shorter { MatchResult result (λ taken. length taken.after.now + taken.lines ≤ length text.now) (λ f. lines_to f ≤ length text.now) }
    {
        let Some((line, behind)) = first_text_line(text) else {
            return Err(EntryFault::Own(InputLineFault::Line));
        };
        let Some(line) = EntryLine::of(line) else {
            return Err(EntryFault::Own(InputLineFault::Line));
        };
        if !line.is_of(self.version) {
            return Err(EntryFault::Own(InputLineFault::Line));
        }
        self.add(line, behind)
    }

    /// Leaves out what failed, unless that is taken too. Takes no memory.
    pub(crate) fn leave(&mut self, takes_failed: bool)
        ensures answers { self.new.answers.entries ≡ (if takes_failed then self.old.answers.entries else filter (λ a. not (is_fault a.1.outcome)) self.old.answers.entries) }
        ensures rules { self.new.rules.entries ≡ (if takes_failed then self.old.rules.entries else filter (λ r. not (is_among self.old.lost.keys r.0)) self.old.rules.entries) }
        ensures notes { self.new.notes.items ≡ (if takes_failed then self.old.notes.items else filter (λ n. not (is_failure n)) self.old.notes.items) }
    {
        if takes_failed {
            return;
        }
        leave_faults(&mut self.answers);
        leave_lost(&mut self.rules, &self.lost);
        leave_failures(&mut self.notes);
    }

    /// What the entries read so far state, alone.
    pub(crate) fn stated(self) -> RecordContents
        ensures answers { result.answers.entries ≡ self.answers.entries }
        ensures rules { result.rules.entries ≡ self.rules.entries }
        ensures notes { result.notes.items ≡ self.notes.items }
    {
        let RecordReading {
            answers,
            rules,
            notes,
            lost: _,
            alloc: _,
            links: _,
            version: _,
            keeps_notes: _,
        } = self;
        RecordContents {
            answers,
            rules,
            notes,
        }
    }
}
