//! What asks over TCP for one worker, and has the bodies kept in files while they arrive.
ghost use Rattle.std.specs.Prelude.{◌≡◌, ◌⊎◌, ◌++◌, ◌∷◌, [], None, Some, IfOk, IfSome, MatchOption, OnErr, OnOk, option_map};
ghost use Rattle.std.specs.Arc.{arc_value};
ghost use Rattle.fetcher.specs.Logs.{GainedAtMost};
ghost use Rattle.fetcher.specs.declared.fetcher.Ask.TheVariants as ask;
ghost use Rattle.answer_notes.specs.HopChains.{rules_of_hops};
ghost use Rattle.html_links.specs.declared.rules.LinkRules.{LinkRules};
ghost use Rattle.http_fetcher.specs.Fetching.{with_condition};
ghost use Rattle.http_fetcher.specs.Meanings.{MayRule};
ghost use Rattle.tcp_fetcher.specs.Answering.{IsAnswered, IsConcluded, IsLeft, IsOfEarlier, IsReceived, IsReceivedIfChanged, IsRecorded, IsAnswerWith, is_unchanged, lasting};
ghost use Rattle.tcp_fetcher.specs.PartsFetching.{MayAnswerIn, MayRuleIn, PartsSite, parts_site};
ghost use Rattle.tcp_fetcher.specs.TcpFetching.{AreReceivedRules, chain_known, conditioned, last_loss, outcome_known};

use crate::over_tcp::OverTcp;
use crate::page_taker::PageTaker;
use address::{Address, Origin};
use answer_notes::{Hops, Receiving};
use body_digests::Digesting;
use earlier_pages::EarlierPage;
use earlier_runs::{Earlier, IndexNote};
use early_names::EarlyRules;
use fetcher::{Answer, Ask, Fetcher, Outcome};
use part_keeper::{KeptPart, PartKeeper, PartsDir};
use requests::Condition;
use robots_rules::RuleSet;
use run_failures::LossKind;
use std::alloc::{AllocError, Global};
use std::fs::Files;
use std::marker::Model;
use std::net::Net;
use std::sync::{Arc, Wait};
use std::time::Clock;
use streams::{Close, Lock};
use tcp_connect::KeptConnections;

/// Asks over TCP as [`OverTcp`] does, and has each page's body kept in a file of its own while it arrives.
pub struct PartsOverTcp<'a, R: Net + Wait + Clock + Eprint + Files>
where
    R::File: Close + Lock,
{
    inner: OverTcp<'a, R>,
    taker: PageTaker<'a, R>,
    // What is known of an earlier run's pages, if an index is kept.
    earlier: Option<Arc<Earlier>>,
    rt: &'a R,
}

// Written by hand: a user that drops one proves a call, and nothing about its fields.
impl<'a, R: Net + Wait + Clock + Eprint + Files> Drop for PartsOverTcp<'a, R>
where
    R::File: Close + Lock,
{
    fn drop(self) {
        let PartsOverTcp {
            inner: _inner,
            taker: _taker,
            earlier: _earlier,
            rt: _rt,
        } = self;
    }
}

impl<'a, R: Net + Wait + Clock + Eprint + Files> Model for PartsOverTcp<'a, R>
where
    R::File: Close + Lock,
{
    ghost use Rattle.std.specs.Prelude.{option_map};
    ghost use Rattle.std.specs.Arc.{arc_value};
    ghost use Rattle.tcp_fetcher.specs.TcpFetching.{TcpFetching};

    ghost Value = { TcpFetching };

    ghost view = { λ f. record f.inner { known = option_map arc_value f.earlier } };
}

impl<'a, R: Net + Wait + Clock + Eprint + Files> PartsOverTcp<'a, R>
where
    R::File: Close + Lock,
{
    /// Asks by this fetcher, and keeps the bodies below this directory, unless these rules don't keep their pages. If a file needs a
    /// descriptor, connections that wait are ended. If pages of an earlier run are known, those whose files are as they were are requested
    /// only if they changed, or not at all. Takes no memory.
    pub fn new(
        rt: &'a R,
        alloc: Global,
        inner: OverTcp<'a, R>,
        kept: &'a KeptConnections<R::Stream>,
        parts: &'a PartsDir<R::File>,
        rules: Option<Arc<EarlyRules>>,
        earlier: Option<Arc<Earlier>>,
    ) -> PartsOverTcp<'a, R>
        ensures { result ≡ record inner.entry { known = option_map arc_value earlier } }
    {
        let keeper = PartKeeper::new(rt, alloc, parts, inner.takes_times());
        let keeper = Digesting::new(keeper, earlier.is_some());
        PartsOverTcp {
            inner,
            taker: PageTaker::new(
                rt,
                alloc,
                kept,
                parts,
                keeper,
                rules,
                needs_digests(&earlier),
            ),
            earlier,
            rt,
        }
    }

    /// Says whether a page that is asked for from now on may stay in the file that an earlier run gave its name: it is to have that name.
    pub fn let_stay(&mut self, may_stay: bool)
        ensures { self.new ≡ self.old }
    {
        self.taker.may_stay = may_stay;
    }

    // Requests a page over the network that was noted, with this condition alone, if there is one.
    fn ask_noted(
        &mut self,
        at: &Address,
        condition: Option<Condition>,
    ) -> Result<Answer<KeptPart>, AllocError>
        ensures received { IfOk result (IsAnswerWith (lasting self.old) at.now (IsReceived (lasting self.old) at.now condition self.old.single self.new.single)) }
        ensures lasting { lasting self.new ≡ lasting self.old }
    {
        let answer = self.inner.ask_noted(&mut self.taker.sink, at, condition)?;
        Ok(self.taker.taken(answer))
    }

    // The page of an earlier run again, if a file that may be its still has the bytes that it had.
    fn replayed(
        &mut self,
        at: &Address,
        page: EarlierPage<'_, R::File>,
    ) -> Result<Option<Answer<KeptPart>>, AllocError>
        ensures recorded { IfOk result (λ found. IfSome found (IsRecorded (lasting self.old) at.now page.entry.entry)) }
        ensures fetcher { self.new ≡ self.old }
    {
        let links = self.inner.link_rules();
        let limits = self.inner.limits();
        self.taker.replayed(at, page, links, limits)
    }

    // What is answered after a request with a condition: if the server says that the page is as it was, it is read again, or requested
    // without a condition if no file has its bytes any more.
    fn concluded(
        &mut self,
        at: &Address,
        page: EarlierPage<'_, R::File>,
        received: Answer<KeptPart>,
    ) -> Result<Answer<KeptPart>, AllocError>
        requires { MayAnswerIn (parts_site self.old) at.now received.outcome received.body }
        ensures concluded { IfOk result (IsAnswerWith (lasting self.old) at.now (IsConcluded (lasting self.old) at.now page.entry.entry received self.old.single self.new.single)) }
        ensures lasting { lasting self.new ≡ lasting self.old }
    {
        if !is_unchanged(&received.outcome) {
            return Ok(received);
        }
        match self.replayed(at, page)? {
            Some(answer) => Ok(answer),
            None => self.ask_noted(at, None),
        }
    }

    // Requests a page of which an earlier run has the body, if it changed.
    fn ask_if_changed(
        &mut self,
        at: &Address,
        page: EarlierPage<'_, R::File>,
    ) -> Result<Answer<KeptPart>, AllocError>
        ensures answered { IfOk result (IsAnswerWith (lasting self.old) at.now (λ a. IsReceived (lasting self.old) at.now None self.old.single self.new.single a ⊎ IsReceivedIfChanged (lasting self.old) at.now page.entry.entry self.old.single self.new.single a)) }
        ensures lasting { lasting self.new ≡ lasting self.old }
    {
        let Some(condition) = page.condition()? else {
            return self.ask_noted(at, None);
        };
        let received = self.ask_noted(at, Some(condition))?;
        self.concluded(at, page, received)
    }

    // Requests a page of which an earlier run has the body, only if no file has its bytes any more.
    fn ask_if_missing(
        &mut self,
        at: &Address,
        page: EarlierPage<'_, R::File>,
    ) -> Result<Answer<KeptPart>, AllocError>
        ensures answered { IfOk result (IsAnswerWith (lasting self.old) at.now (λ a. IsReceived (lasting self.old) at.now None self.old.single self.new.single a ⊎ IsLeft (lasting self.old) at.now page.entry.entry self.old.single self.new.single a)) }
        ensures lasting { lasting self.new ≡ lasting self.old }
    {
        match self.replayed(at, page)? {
            Some(answer) => {
                self.taker.is_requested = false;
                Ok(answer)
            }
            None => self.ask_noted(at, None),
        }
    }

    // Requests a page that isn't kept over the network, without a condition.
    fn ask_passing(&mut self, at: &Address) -> Result<Answer<KeptPart>, AllocError>
        ensures received { IfOk result (IsAnswerWith (lasting self.old) at.now (IsReceived (lasting self.old) at.now None self.old.single self.new.single)) }
        ensures lasting { lasting self.new ≡ lasting self.old }
    {
        self.inner.ask_noted(&mut self.taker.passing, at, None)
    }

    // Answers for a page that is kept, by these pages of an earlier run.
    fn ask_known(&mut self, at: &Address, earlier: &Earlier) -> Result<Answer<KeptPart>, AllocError>
        ensures answered { IfOk result (IsAnswerWith (lasting self.old) at.now (λ a. IsReceived (lasting self.old) at.now None self.old.single self.new.single a ⊎ IsOfEarlier (lasting self.old) at.now earlier.now self.old.single self.new.single a)) }
        ensures lasting { lasting self.new ≡ lasting self.old }
    {
        let Some(page) = earlier.pages.page(self.rt, at) else {
            return self.ask_noted(at, None);
        };
        if earlier.is_asked {
            self.ask_if_changed(at, page)
        } else {
            self.ask_if_missing(at, page)
        }
    }

    // Answers for a page that is kept: by what an earlier run has of it, if that is still there and it didn't change.
    fn ask_kept(&mut self, at: &Address) -> Result<Answer<KeptPart>, AllocError>
        ensures answered { IfOk result (IsAnswerWith (lasting self.old) at.now (IsAnswered (lasting self.old) at.now self.old.single self.new.single)) }
        ensures lasting { lasting self.new ≡ lasting self.old }
    {
        match shared(&self.earlier) {
            Some(earlier) => self.ask_known(at, &earlier),
            None => self.ask_noted(at, None),
        }
    }

    // What an earlier run received of a page without a file, if this one goes on with it.
    fn repeated(&mut self, at: &Address) -> Result<Option<Answer<KeptPart>>, AllocError>
        ensures answered { IfOk result (λ found. IfSome found (IsAnswerWith (lasting self.old) at.now (IsAnswered (lasting self.old) at.now self.old.single self.new.single))) }
        ensures fetcher { self.new ≡ self.old }
    {
        let Some(outcome) = known_outcome(&self.earlier, at) else {
            return Ok(None);
        };
        let links = self.inner.link_rules();
        let limits = self.inner.limits();
        self.taker.repeated(at, outcome, links, limits)
    }

    // Answers for a page, unless an earlier run received it without a file.
    fn ask_anew(&mut self, at: &Address) -> Result<Answer<KeptPart>, AllocError>
        ensures answered { IfOk result (IsAnswerWith (lasting self.old) at.now (IsAnswered (lasting self.old) at.now self.old.single self.new.single)) }
        ensures lasting { lasting self.new ≡ lasting self.old }
    {
        if self.taker.keeps(at) {
            self.ask_kept(at)
        } else {
            self.ask_passing(at)
        }
    }

    // Answers for a page: by what an earlier run has of it, if this one goes on with that.
    fn ask_any(&mut self, at: &Address) -> Result<Answer<KeptPart>, AllocError>
        ensures answered { IfOk result (IsAnswerWith (lasting self.old) at.now (IsAnswered (lasting self.old) at.now self.old.single self.new.single)) }
        ensures lasting { lasting self.new ≡ lasting self.old }
    {
        match self.repeated(at)? {
            Some(answer) => {
                self.taker.is_requested = false;
                Ok(answer)
            }
            None => self.ask_anew(at),
        }
    }

    // The rules by what is received of an origin's robots file, which a journal may get.
    fn rules_received(&mut self, of: &Origin) -> Result<RuleSet, AllocError>
        ensures site { parts_site self.new ≡ parts_site self.old }
        ensures told { IfOk result (λ r. MayRuleIn (parts_site self.old) of.now r) }
        ensures asked { OnOk result (self.new.asks ≡ self.old.asks ++ ask.Rules of.now ∷ []) }
        ensures refused { OnErr result (GainedAtMost self.old.asks self.new.asks (ask.Rules of.now)) }
        ensures once { self.old.retries.most ≡ 0 → OnOk result (self.new.single.asks ≡ self.old.single.asks ++ ask.Rules of.now ∷ []) }
        ensures tries { IfOk result (AreReceivedRules self.old.retries of.now (conditioned None self.old.single) self.new.single) }
        ensures retries { self.new.retries ≡ self.old.retries }
        ensures limits { self.new.limits ≡ self.old.limits }
    {
        let hops = self.inner.ask_hops(of)?;
        self.taker.note_chain(&hops);
        hops.rules(self.taker.alloc)
    }

    /// What an index or a journal gets of a page and its answer, the last one, if the page can be answered by it: not if its body was coded,
    /// since its links weren't looked for.
    pub fn note(
        &self,
        at: &Address,
        answer: &Answer<KeptPart>,
    ) -> Result<Option<IndexNote>, AllocError> {
        self.taker.note(at, answer)
    }

    /// The text that a journal gets of a page's answer, the last one, if that has no file and was received just now: of a redirect, or of a
    /// status that isn't one of success. Of a status after which another is to be expected soon it gets none: 408, 429, or one of a server
    /// that failed.
    pub fn answer_text(
        &self,
        at: &Address,
        answer: &Answer<KeptPart>,
    ) -> Result<Option<Vec<u8>>, AllocError> {
        self.taker.answer_text(at, &answer.outcome)
    }

    /// The text that a journal gets of the robots file that was received last, redirects included, unless it was taken.
    pub fn take_chain(&mut self) -> Option<Vec<u8>>
        ensures { self.new ≡ self.old }
    {
        self.taker.take_chain()
    }

    /// Why the last connection was lost, if the last request was over one and that was lost.
    pub fn loss(&self) -> Option<LossKind>
        ensures { IfSome result (λ kind. last_loss self.now.single ≡ Some kind) }
    {
        if self.taker.is_requested {
            self.inner.loss()
        } else {
            None
        }
    }
}

// Whether pages that are read again need digests, whatever they are known by.
fn needs_digests(earlier: &Option<Arc<Earlier>>) -> bool {
    match earlier {
        Some(earlier) => earlier.needs_digests,
        None => false,
    }
}

// Whether the server said that a page is as it was (RFC 9110, section 15.4.5).
fn is_unchanged(outcome: &Outcome) -> bool
    ensures { result ≡ is_unchanged outcome.now }
{
    match outcome {
        Outcome::Leaf(status) => *status == 304,
        Outcome::Page(_, _) | Outcome::Moved(_, _) | Outcome::Fault(_) => false,
    }
}

// What an earlier run received of a page without a file, if this one goes on with it.
fn known_outcome<'a>(earlier: &'a Option<Arc<Earlier>>, at: &Address) -> Option<&'a Outcome>
    ensures { option_map (λ outcome. outcome.now) result ≡ outcome_known (option_map arc_value earlier.now) at.now }
{
    match earlier {
        Some(earlier) if !earlier.is_asked => earlier.answers.outcome(at),
        _ => None,
    }
}

// What an earlier run received of an origin's robots file, if this one goes on with it.
fn known_chain<'a>(earlier: &'a Option<Arc<Earlier>>, of: &Origin) -> Option<&'a Hops>
    ensures value { option_map (λ hops. hops.now) result ≡ chain_known (option_map arc_value earlier.now) of.now }
    ensures may { IfSome result (λ hops. (links : LinkRules) → MayRule links of.now (rules_of_hops hops.now.hops)) }
{
    match earlier {
        Some(earlier) if !earlier.is_asked => earlier.answers.chain(of),
        _ => None,
    }
}

// What is known of an earlier run's pages. If there is no room to share it nothing is.
fn shared(earlier: &Option<Arc<Earlier>>) -> Option<Arc<Earlier>>
    ensures { IfSome result (λ known. option_map arc_value earlier.now ≡ Some (arc_value known)) }
{
    match earlier {
        Some(earlier) => Arc::try_clone(earlier).ok(),
        None => None,
    }
}

impl<'a, R: Net + Wait + Clock + Eprint + Files> Fetcher for PartsOverTcp<'a, R>
where
    R::File: Close + Lock,
{
    type Body = KeptPart;

    ghost Site = { PartsSite };

    ghost site = { parts_site };

    ghost says = { MayAnswerIn };

    ghost rules = { MayRuleIn };

    ghost log = { λ f. f.asks };

    fn ask(&mut self, at: &Address) -> Result<Answer<KeptPart>, AllocError>
        ensures site { parts_site self.new ≡ parts_site self.old }
        ensures told { IfOk result (λ a. MayAnswerIn (parts_site self.old) at.now a.outcome a.body) }
        ensures asked { OnOk result (self.new.asks ≡ self.old.asks ++ ask.Page at.now ∷ []) }
        ensures refused { OnErr result (GainedAtMost self.old.asks self.new.asks (ask.Page at.now)) }
        // The network is asked once, or again if that is worth it; what is received last is the answer. What an earlier run kept is the answer
        // if the server says that it is as it was, to a request with the condition of the page's own entry, or if it isn't to be requested.
        // No other request has a condition.
        ensures tries { IfOk result (IsAnswered (lasting self.old) at.now self.old.single self.new.single) }
        ensures retries { self.new.retries ≡ self.old.retries }
        ensures takes_times { self.new.takes_times ≡ self.old.takes_times }
        // It sends what it sent, apart from a condition.
        ensures sends { with_condition None self.new.sends ≡ with_condition None self.old.sends }
        ensures known { self.new.known ≡ self.old.known }
    {
        self.taker.begin();
        self.inner.note_ask(at)?;
        let answer = self.ask_any(at);
        self.taker.write_late();
        answer
    }

    fn ask_robots(&mut self, of: &Origin) -> Result<RuleSet, AllocError>
        ensures site { parts_site self.new ≡ parts_site self.old }
        ensures told { IfOk result (λ r. MayRuleIn (parts_site self.old) of.now r) }
        ensures asked { OnOk result (self.new.asks ≡ self.old.asks ++ ask.Rules of.now ∷ []) }
        ensures refused { OnErr result (GainedAtMost self.old.asks self.new.asks (ask.Rules of.now)) }
        // The network is asked once, or again if that is worth it; the rules are by what is received last. No condition of a page is sent. If an
        // earlier run that is gone on with received the robots file, the rules are by that, and the network isn't asked.
        ensures once { self.old.retries.most ≡ 0 → chain_known self.old.known of.now ≡ None → OnOk result (self.new.single.asks ≡ self.old.single.asks ++ ask.Rules of.now ∷ []) }
        ensures tries { IfOk result (λ r. MatchOption (chain_known self.old.known of.now) (AreReceivedRules self.old.retries of.now (conditioned None self.old.single) self.new.single r) (λ found. (r ≡ rules_of_hops found.hops) × (self.new.single ≡ self.old.single))) }
        ensures retries { self.new.retries ≡ self.old.retries }
        ensures limits { self.new.limits ≡ self.old.limits }
    {
        self.taker.is_requested = true;
        match known_chain(&self.earlier, of) {
            Some(hops) => {
                self.taker.is_requested = false;
                self.inner.rules_again(of, hops)
            }
            None => self.rules_received(of),
        }
    }

    fn asks(&self) -> &[Ask] {
        self.inner.asks()
    }
}
