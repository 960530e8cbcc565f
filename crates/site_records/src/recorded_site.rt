//! Sites that are read from a record of responses.
use crate::reading::RecordReading;
use crate::replayed::copy_of;
use crate::version::version_of;
use address::{Address, Origin};
use answer_notes::Noted;
use fetcher::{Answer, Ask, Body, Fetcher, NOT_FOUND, Outcome};
use html_links::LinkRules;
use indexmap::IndexMap;
use robots_rules::RuleSet;
use site_inputs::{InputFault, KeptRules};
use std::alloc::{AllocError, Global};
use std::marker::Model;
use std::sync::Arc;

/// What a record states.
#[derive(Drop)]
pub(crate) struct RecordContents {
    pub(crate) answers: IndexMap<Address, Answer<Body>>,
    pub(crate) rules: IndexMap<Origin, KeptRules>,
    pub(crate) notes: Vec<Noted>,
}

/// Which parts of a record are read.
#[derive(Clone, Copy)]
pub struct RecordParts {
    /// Whether a note of each entry is kept.
    pub notes: bool,
    /// Whether entries that say that no response was received are taken too: faults of addresses, and of origins whose robots
    /// file, or the last of the redirects after it, wasn't received.
    pub failed: bool,
}

/// A site in memory, read from a record. It gives each address one answer, and each origin one rule
/// set. Copies share what the record states. Contracts see the answers and the rule sets that the
/// record states, the notes that are kept of it, and what was asked.
pub struct RecordedSite {
    alloc: Global,
    stated: Arc<RecordContents>,
    asks: Vec<Ask>,
}

// Written by hand: a user that drops one proves a call, and nothing about its fields.
impl Drop for RecordedSite {
    fn drop(self) {
        let RecordedSite {
            alloc: _alloc,
            stated: _stated,
            asks: _asks,
        } = self;
    }
}

impl Model for RecordedSite {
    ghost use Rattle.std.specs.Arc.{arc_value};
    ghost use Rattle.site_records.specs.RecordSites.{RecordValue};

    ghost Value = { RecordValue };

    ghost view = { λ m. record { answers = (arc_value m.stated).answers.entries; rules = (arc_value m.stated).rules.entries; notes = (arc_value m.stated).notes.items; asks = m.asks.items } };
}

impl RecordedSite {
    ghost use Rattle.std.specs.Prelude.{◌≡◌, ◌+◌, [], List, IfOk, IfErr, length};
    ghost use Rattle.std.specs.Map.{lookup};
    ghost use Rattle.std.specs.Str.{bytes_eq};
    ghost use Rattle.site_inputs.specs.Tables.{rules_at};
    ghost use Rattle.site_records.specs.Entries.{Entry};
    ghost use Rattle.site_records.specs.Records.{IsRecord, answers_of, rules_of, answer_in, IsFault};
    ghost use Rattle.site_records.specs.Received.{taken_of};
    ghost use Rattle.site_records.specs.RecordNotes.{SayJust, HasNotes};

    /// Reads a record. Each `page` entry states the answer of an address by its response, each
    /// `fault` entry that there was none, and each `robots`, `rules` and `chain` entry the rules of an
    /// origin. Of the links of a page those are edges that `links` takes. The
    /// error names the first bad line, or says that memory ran out.
    pub fn read(alloc: Global, bytes: &[u8], links: LinkRules) -> Result<RecordedSite, InputFault>
        ensures record { IfOk result (λ m. (said : List Entry) × IsRecord links bytes.now said × (m ≡ record { answers = answers_of said; rules = rules_of said; notes = []; asks = [] })) }
        ensures fault { IfErr result (λ f. IsFault links bytes.now f) }
    {
        let parts = RecordParts {
            notes: false,
            failed: true,
        };
        RecordedSite::read_parts(alloc, bytes, links, parts)
    }

    /// The same, with a note of each entry in their order, so that the record can be written again with
    /// what is noted later. Bodies of pages are held twice, by the answers and by the notes.
    pub fn read_noted(
        alloc: Global,
        bytes: &[u8],
        links: LinkRules,
    ) -> Result<RecordedSite, InputFault>
        ensures record { IfOk result (λ m. (said : List Entry) × IsRecord links bytes.now said
            × (m ≡ record { answers = answers_of said; rules = rules_of said; notes = m.notes; asks = [] }) × SayJust links m.notes said) }
        ensures fault { IfErr result (λ f. IsFault links bytes.now f) }
    {
        let parts = RecordParts {
            notes: true,
            failed: true,
        };
        RecordedSite::read_parts(alloc, bytes, links, parts)
    }

    /// Reads these parts of a record: its entries with notes of them or without, and all or those that haven't failed, whose
    /// addresses and origins it doesn't name then. Errors are those of the whole record.
    pub fn read_parts(
        alloc: Global,
        bytes: &[u8],
        links: LinkRules,
        parts: RecordParts,
    ) -> Result<RecordedSite, InputFault>
        ensures record { IfOk result (λ m. (said : List Entry) × IsRecord links bytes.now said
            × (m ≡ record { answers = answers_of (taken_of parts.failed said); rules = rules_of (taken_of parts.failed said); notes = m.notes; asks = [] })
            × HasNotes parts.notes links m.notes (taken_of parts.failed said)) }
        ensures fault { IfErr result (λ f. IsFault links bytes.now f) }
    {
        let Some((version, mut rest)) = version_of(bytes) else {
            return Err(InputFault::Line(1));
        };
        let mut reading = RecordReading::new(alloc, links, version, parts.notes);
        let mut number = 1;
        'entries: while !rest.is_empty() {
            match reading.read_entry(rest) {
                Ok(taken) => {
                    number += taken.lines;
                    rest = taken.after;
                }
                Err(fault) => {
                    let line = number + 1;
                    return Err(fault.at(line));
                }
            }
        }
        reading.leave(parts.failed);
        Ok(RecordedSite::of(reading)?)
    }

    // The site of the answers and the rule sets that were read.
    pub(crate) fn of(reading: RecordReading) -> Result<RecordedSite, AllocError>
        ensures { IfOk result (λ m. m ≡ record { answers = reading.answers.entries; rules = reading.rules.entries; notes = reading.notes.items; asks = [] }) }
    {
        let alloc = reading.alloc;
        Ok(RecordedSite {
            alloc,
            stated: Arc::new(alloc, reading.stated())?,
            asks: Vec::new(alloc),
        })
    }

    /// An equal site, with the same asks, which shares what the record states, or an error if
    /// memory ran out.
    pub fn try_clone(&self) -> Result<RecordedSite, AllocError>
        ensures { IfOk result (λ copy. copy ≡ self.now) }
    {
        Ok(RecordedSite {
            alloc: self.alloc,
            stated: self.stated.clone()?,
            asks: self.asks.clone()?,
        })
    }

    /// How many entries the record has: each states an answer or rules.
    pub fn entry_count(&self) -> usize
        ensures { result ≡ length self.now.answers + length self.now.rules }
    {
        self.stated.answers.len() + self.stated.rules.len()
    }

    /// What the entries of the record say, in their order, if it was read to keep them; else none. What version
    /// 1 says of an origin's rules is a chain of one hop: a robots file is status 200 with its first
    /// 512,001 bytes, `rules all` status 404, `rules none` the fault Device.
    pub fn notes(&self) -> &[Noted]
        ensures { result.now ≡ self.now.notes }
    {
        self.stated.notes.as_slice()
    }

    /// What the record states of an address, with a copy of its body; none if it states nothing. Fails only if memory runs out.
    pub fn stated_answer(&self, at: &Address) -> Result<Option<Answer<Body>>, AllocError>
        ensures { IfOk result (λ a. a ≡ lookup (bytes_eq at.now) self.now.answers) }
    {
        match self.stated.answers.get(at) {
            Some(answer) => Ok(Some(copy_of(self.alloc, answer)?)),
            None => Ok(None),
        }
    }

    /// What the record states of an origin; none if it states nothing. Fails only if memory runs out.
    pub fn stated_rules(&self, of: &Origin) -> Result<Option<RuleSet>, AllocError>
        ensures { IfOk result (λ r. r ≡ lookup (bytes_eq of.now) self.now.rules) }
    {
        match self.stated.rules.get(of) {
            Some(kept) => Ok(Some(kept.rule_set()?)),
            None => Ok(None),
        }
    }

    // What the record says of an address.
    fn answer(&self, at: &Address) -> Result<Answer<Body>, AllocError>
        ensures { IfOk result (λ a. a ≡ answer_in self.now.answers at.now) }
    {
        match self.stated_answer(at)? {
            Some(answer) => Ok(answer),
            None => Ok(Answer {
                outcome: Outcome::Leaf(NOT_FOUND),
                body: Body::none(self.alloc),
            }),
        }
    }

    // What the record says of an origin.
    fn rule_set(&self, of: &Origin) -> Result<RuleSet, AllocError>
        ensures { IfOk result (λ r. r ≡ rules_at self.now.rules of.now) }
    {
        match self.stated_rules(of)? {
            Some(rules) => Ok(rules),
            None => Ok(RuleSet::all()),
        }
    }
}

impl Fetcher for RecordedSite {
    ghost use Rattle.std.specs.Prelude.{◌≡◌, ℕ, List, [], ◌∷◌, ◌++◌, IfOk, OnOk, OnErr};
    ghost use Rattle.fetcher.specs.declared.outcome.Outcome.{Outcome};
    ghost use Rattle.fetcher.specs.declared.fetcher.Ask.TheVariants.{Page, Rules};
    ghost use Rattle.fetcher.specs.Logs.{GainedAtMost};
    ghost use Rattle.site_records.specs.Records.{RecordedAnswers, GivesAnswer, RecordGivesRules, says_of};

    type Body = Body;

    ghost Site = { RecordedAnswers };

    ghost site = { λ m. says_of m.answers m.rules };

    ghost says = { GivesAnswer };

    ghost rules = { RecordGivesRules };

    ghost log = { λ m. m.asks };

    /// Requests the page of an address. The answer is what the record says of it, with a copy of its
    /// body; the ask is logged first, and the record stays what it is.
    fn ask(&mut self, at: &Address) -> Result<Answer<Body>, AllocError> {
        self.asks.push(Ask::Page(at.try_clone()?))?;
        self.answer(at)
    }

    /// Requests the robots rules of an origin. They are those that the record states, and allow
    /// everything if it states none; the ask is logged first, and the record stays what it is.
    fn ask_robots(&mut self, of: &Origin) -> Result<RuleSet, AllocError> {
        self.asks.push(Ask::Rules(of.try_clone()?))?;
        self.rule_set(of)
    }

    /// What was asked, in order.
    fn asks(&self) -> &[Ask] {
        self.asks.as_slice()
    }
}
