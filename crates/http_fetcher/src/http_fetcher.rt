//! A fetcher that asks over connections, a new one for each question or one that served before (RFC 9112, sections 9.3 and 9.6).
ghost use Rattle.std.specs.Prelude.{◌≡◌, ◌⊎◌, ◌≤◌, ◌+◌, [], ◌∷◌, ◌++◌, true, false, length, None, Some, IfOk, OnOk, OnErr, MatchBool, codes};
ghost use Rattle.html_links.specs.declared.rules.LinkRules.{LinkRules};
ghost use Rattle.response_reader.specs.Wire.{counted};
ghost use Rattle.response_reader.specs.Limits.{standard};
ghost use Rattle.fetcher.specs.declared.fetcher.Ask.TheVariants as ask;
ghost use Rattle.fetcher.specs.Logs.{GainedAtMost};
ghost use Rattle.answer_notes.specs.RobotsAnswers.{max_redirects};
ghost use Rattle.answer_notes.specs.Received.{received_outcome, received_body};
ghost use Rattle.answer_notes.specs.HopChains.{rules_of_hops};
ghost use Rattle.http_fetcher.specs.Chains.{CountsHops, IsChain};
ghost use Rattle.http_fetcher.specs.Fetching.{AnsweredWithRetry, IsGiven, StandsBehind, StandsBy, received_answer, with_condition};
ghost use Rattle.http_fetcher.specs.Notes.{NotesPage, NotesChain};
ghost use Rattle.http_fetcher.specs.Meanings.{MayAnswer, MayRule};

use address::{Address, Origin};
use answer_notes::{Hops, Noted, Received, Receiving, Recording};
use connect::Connect;
use fetcher::{Answer, Ask, Body, Fetcher};
use html_links::LinkRules;
use requests::{Condition, Sending};
use response_reader::Room;
use robots_rules::RuleSet;
use std::alloc::{AllocError, Global};
use std::marker::Model;

mod exchange;
mod pages;
mod robots;

/// Asks a site over connections: a new one for each page and for each hop of a robots file, or one that served before and was
/// kept. What such a site sends is unknown, so an answer is what some bytes say, or that none came, and rules are at the end
/// of a chain of such answers.
pub struct HttpFetcher<C: Connect> {
    alloc: Global,
    connect: C,
    links: LinkRules,
    keeps: bool,
    // What is sent in place of the usual fields.
    sends: Option<Sending>,
    asks: Vec<Ask>,
    is_recording: bool,
    notes: Vec<Noted>,
    // Responses are read by way of it, one after another.
    room: Room,
}

// Written by hand: a user that drops one proves a call, and nothing about its fields.
impl<C: Connect> Drop for HttpFetcher<C> {
    fn drop(self) {
        let HttpFetcher {
            alloc: _alloc,
            connect: _connect,
            links: _links,
            keeps: _keeps,
            sends: _sends,
            asks: _asks,
            is_recording: _is_recording,
            notes: _notes,
            room: _room,
        } = self;
    }
}

impl<C: Connect> Model for HttpFetcher<C> {
    ghost use Rattle.http_fetcher.specs.Fetching.{Fetching};

    ghost Value = { Fetching C };

    ghost view = { λ f. record { connect = f.connect; links = f.links; keeps = f.keeps; sends = f.sends; asks = f.asks.items; is_recording = f.is_recording; notes = f.notes.items } };
}

impl<C: Connect> HttpFetcher<C> {
    /// Asks over these connections. Of the links of pages those are edges that `links` takes. Takes no memory; later growth comes from
    /// `alloc`.
    pub fn new(alloc: Global, connect: C, links: LinkRules) -> HttpFetcher<C>
        ensures connect { result.connect ≡ connect }
        ensures links { result.links ≡ links }
        ensures keeps { result.keeps ≡ false }
        ensures sends { result.sends ≡ None }
        ensures asks { result.asks ≡ [] }
        ensures is_recording { result.is_recording ≡ false }
        ensures notes { result.notes ≡ [] }
    {
        HttpFetcher {
            alloc,
            connect,
            links,
            keeps: false,
            sends: None,
            asks: Vec::new(alloc),
            is_recording: false,
            notes: Vec::new(alloc),
            room: Room::new(),
        }
    }

    /// The same, with a note of each ask that succeeds.
    pub fn recording(alloc: Global, connect: C, links: LinkRules) -> HttpFetcher<C>
        ensures connect { result.connect ≡ connect }
        ensures links { result.links ≡ links }
        ensures keeps { result.keeps ≡ false }
        ensures sends { result.sends ≡ None }
        ensures asks { result.asks ≡ [] }
        ensures is_recording { result.is_recording ≡ true }
        ensures notes { result.notes ≡ [] }
    {
        HttpFetcher {
            alloc,
            connect,
            links,
            keeps: false,
            sends: None,
            asks: Vec::new(alloc),
            is_recording: true,
            notes: Vec::new(alloc),
            room: Room::new(),
        }
    }

    /// The same fetcher, which keeps connections that serve again, and takes them again. If one of these died before a byte
    /// came over it (RFC 9112, section 9.3.1), or its answer is the status 408, with which a server gives up waiting for a request
    /// (RFC 9110, section 15.5.9), the question is asked once more over a new one, so a server may see it twice.
    pub fn keeping(self) -> HttpFetcher<C>
        ensures connect { result.connect ≡ self.connect }
        ensures links { result.links ≡ self.links }
        ensures keeps { result.keeps ≡ true }
        ensures sends { result.sends ≡ self.sends }
        ensures asks { result.asks ≡ self.asks }
        ensures is_recording { result.is_recording ≡ self.is_recording }
        ensures notes { result.notes ≡ self.notes }
    {
        let HttpFetcher {
            alloc,
            connect,
            links,
            sends,
            asks,
            is_recording,
            notes,
            room,
            keeps: _keeps,
        } = self;
        HttpFetcher {
            alloc,
            connect,
            links,
            keeps: true,
            sends,
            asks,
            is_recording,
            notes,
            room,
        }
    }

    /// The same fetcher, which sends this in place of the usual fields.
    pub fn sending(self, sends: Sending) -> HttpFetcher<C>
        ensures connect { result.connect ≡ self.connect }
        ensures links { result.links ≡ self.links }
        ensures keeps { result.keeps ≡ self.keeps }
        ensures sends { result.sends ≡ Some sends }
        ensures asks { result.asks ≡ self.asks }
        ensures is_recording { result.is_recording ≡ self.is_recording }
        ensures notes { result.notes ≡ self.notes }
    {
        let HttpFetcher {
            alloc,
            connect,
            links,
            keeps,
            asks,
            is_recording,
            notes,
            room,
            sends: _sends,
        } = self;
        HttpFetcher {
            alloc,
            connect,
            links,
            keeps,
            sends: Some(sends),
            asks,
            is_recording,
            notes,
            room,
        }
    }

    /// From here on the request for the page of this condition has it (RFC 9110, section 13.1), and no other request has one. A fetcher
    /// that sends the usual fields sends none. Takes no memory.
    pub fn set_condition(&mut self, condition: Option<Condition>)
        ensures { self.new ≡ record self.old { sends = with_condition condition self.old.sends } }
    {
        if let Some(sends) = &mut self.sends {
            sends.set_condition(condition);
        }
    }

    /// What was noted, in order. Takes no memory.
    pub fn notes(&self) -> &[Noted]
        ensures { result.now ≡ self.now.notes }
    {
        self.notes.as_slice()
    }

    /// What makes the connections.
    pub fn connect(&self) -> &C
        ensures { result.now ≡ self.now.connect }
    {
        &self.connect
    }
}

impl<C: Connect> Fetcher for HttpFetcher<C> {
    ghost use Rattle.html_links.specs.declared.rules.LinkRules.{LinkRules};

    type Body = Body;

    // Of the site only this is known: how its answers come from what it says, by which links of pages are taken.
    ghost Site = { LinkRules };

    ghost site = { λ f. f.links };

    ghost says = { MayAnswer };

    ghost rules = { MayRule };

    ghost log = { λ f. f.asks };

    fn ask(&mut self, at: &Address) -> Result<Answer<Body>, AllocError>
        ensures asked { OnOk result (self.new.asks ≡ self.old.asks ++ ask.Page at.now ∷ []) }
        ensures refused { OnErr result (GainedAtMost self.old.asks self.new.asks (ask.Page at.now)) }
        // No connection is made before the request is logged.
        ensures first { OnErr result ((C.made self.new.connect ≡ C.made self.old.connect) ⊎ (self.new.asks ≡ self.old.asks ++ ask.Page at.now ∷ [])) }
        ensures links { self.new.links ≡ self.old.links }
        ensures keeps { self.new.keeps ≡ self.old.keeps }
        ensures sends { self.new.sends ≡ self.old.sends }
        // The answer is what came over one connection after its own request. If none are kept, one is made.
        ensures one { self.old.keeps ≡ false → OnOk result (C.made self.new.connect ≡ counted (C.made self.old.connect) 1) }
        ensures most { C.made self.new.connect ≤ C.made self.old.connect + 1 }
        ensures told { IfOk result (AnsweredWithRetry C.Connect C.Wire.Wire standard self.old self.new at.now) }
        ensures stands { StandsBy C.Connect C.Wire.Wire standard self.old self.new at.now }
        ensures may { IfOk result (λ a. MayAnswer self.old.links at.now a.outcome a.body) }
        // A recording fetcher adds one note, which says the answer given.
        ensures is_recording { self.new.is_recording ≡ self.old.is_recording }
        ensures noted { IfOk result (λ a. MatchBool self.old.is_recording (NotesPage self.old.links at.now a self.old.notes self.new.notes) (self.new.notes ≡ self.old.notes)) }
        ensures unnoted { OnErr result (self.new.notes ≡ self.old.notes) }
    {
        self.asks.push(Ask::Page(at.try_clone()?))?;
        if self.is_recording {
            return self.ask_and_note(at);
        }
        self.ask_page(at)
    }

    fn ask_robots(&mut self, of: &Origin) -> Result<RuleSet, AllocError>
        ensures asked { OnOk result (self.new.asks ≡ self.old.asks ++ ask.Rules of.now ∷ []) }
        ensures refused { OnErr result (GainedAtMost self.old.asks self.new.asks (ask.Rules of.now)) }
        // No connection is made before the request is logged.
        ensures first { OnErr result ((C.made self.new.connect ≡ C.made self.old.connect) ⊎ (self.new.asks ≡ self.old.asks ++ ask.Rules of.now ∷ [])) }
        ensures links { self.new.links ≡ self.old.links }
        ensures keeps { self.new.keeps ≡ self.old.keeps }
        ensures sends { self.new.sends ≡ self.old.sends }
        // The rules are those at the end of the chain of redirects that begins at the origin's file, with a connection for each
        // of its answers.
        ensures few { C.made self.new.connect ≤ C.made self.old.connect + (max_redirects + 1) }
        ensures stands { StandsBehind C.Connect C.Wire.Wire standard self.old self.new }
        ensures count { self.old.keeps ≡ false → IfOk result (CountsHops (C.made self.old.connect) (C.made self.new.connect) of.now) }
        ensures chain { IfOk result (IsChain (IsGiven C.Connect C.Wire.Wire standard self.old) max_redirects (of.now ++ codes "/robots.txt")) }
        ensures may { IfOk result (MayRule self.old.links of.now) }
        // A recording fetcher adds one note, which says the rules given.
        ensures is_recording { self.new.is_recording ≡ self.old.is_recording }
        ensures noted { IfOk result (λ r. MatchBool self.old.is_recording (NotesChain of.now r self.old.notes self.new.notes) (self.new.notes ≡ self.old.notes)) }
        ensures unnoted { OnErr result (self.new.notes ≡ self.old.notes) }
    {
        self.asks.push(Ask::Rules(of.try_clone()?))?;
        self.rules_of(of)
    }

    fn asks(&self) -> &[Ask] {
        self.asks.as_slice()
    }
}

impl<C: Connect> Receiving for HttpFetcher<C> {
    ghost links = { λ f. f.links };

    fn link_rules(&self) -> LinkRules {
        self.links
    }

    fn ask_received(&mut self, at: &Address) -> Result<Received, AllocError>
        ensures asked { OnOk result (self.new.asks ≡ self.old.asks ++ ask.Page at.now ∷ []) }
        ensures refused { OnErr result (GainedAtMost self.old.asks self.new.asks (ask.Page at.now)) }
        // No connection is made before the request is logged.
        ensures first { OnErr result ((C.made self.new.connect ≡ C.made self.old.connect) ⊎ (self.new.asks ≡ self.old.asks ++ ask.Page at.now ∷ [])) }
        ensures links { self.new.links ≡ self.old.links }
        ensures keeps { self.new.keeps ≡ self.old.keeps }
        ensures sends { self.new.sends ≡ self.old.sends }
        // The result is what came over one connection after its own request. If none are kept, one is requested. Nothing is noted.
        ensures one { self.old.keeps ≡ false → OnOk result (C.made self.new.connect ≡ counted (C.made self.old.connect) 1) }
        ensures most { C.made self.new.connect ≤ C.made self.old.connect + 1 }
        ensures told { IfOk result (λ t. AnsweredWithRetry C.Connect C.Wire.Wire standard self.old self.new at.now (received_answer self.old.links at.now t)) }
        ensures stands { StandsBy C.Connect C.Wire.Wire standard self.old self.new at.now }
        ensures may { IfOk result (λ t. MayAnswer self.old.links at.now (received_outcome self.old.links at.now t) (received_body t)) }
        ensures is_recording { self.new.is_recording ≡ self.old.is_recording }
        ensures notes { self.new.notes ≡ self.old.notes }
    {
        let page = Ask::Page(at.try_clone()?);
        self.asks.push(page)?;
        self.exchange(at)
    }

    fn ask_hops(&mut self, of: &Origin) -> Result<Hops, AllocError>
        ensures asked { OnOk result (self.new.asks ≡ self.old.asks ++ ask.Rules of.now ∷ []) }
        ensures refused { OnErr result (GainedAtMost self.old.asks self.new.asks (ask.Rules of.now)) }
        // No connection is made before the request is logged.
        ensures first { OnErr result ((C.made self.new.connect ≡ C.made self.old.connect) ⊎ (self.new.asks ≡ self.old.asks ++ ask.Rules of.now ∷ [])) }
        ensures links { self.new.links ≡ self.old.links }
        ensures keeps { self.new.keeps ≡ self.old.keeps }
        ensures sends { self.new.sends ≡ self.old.sends }
        // The rules are those at the end of the chain of redirects that begins at the origin's file. Nothing is noted.
        ensures of { IfOk result (λ found. found.of ≡ of.now) }
        ensures few { C.made self.new.connect ≤ C.made self.old.connect + (max_redirects + 1) }
        ensures stands { StandsBehind C.Connect C.Wire.Wire standard self.old self.new }
        ensures count { self.old.keeps ≡ false → IfOk result (λ found. C.made self.new.connect ≡ counted (C.made self.old.connect) (length found.hops)) }
        ensures chain { IfOk result (λ found. IsChain (IsGiven C.Connect C.Wire.Wire standard self.old) max_redirects (of.now ++ codes "/robots.txt") (rules_of_hops found.hops)) }
        ensures may { IfOk result (λ found. MayRule self.old.links of.now (rules_of_hops found.hops)) }
        ensures is_recording { self.new.is_recording ≡ self.old.is_recording }
        ensures notes { self.new.notes ≡ self.old.notes }
    {
        let rules = Ask::Rules(of.try_clone()?);
        self.asks.push(rules)?;
        let (hops, _) = self.follow(of)?;
        Ok(hops)
    }
}

impl<C: Connect> Recording for HttpFetcher<C> {
    ghost noted = { λ f. f.notes };

    fn notes(&self) -> &[Noted] {
        HttpFetcher::notes(self)
    }
}
