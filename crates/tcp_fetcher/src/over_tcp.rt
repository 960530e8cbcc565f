//! What asks over TCP for one worker, and again if that is worth it.
ghost use Rattle.std.specs.Prelude.{◌≡◌, ◌<◌, ◌++◌, ◌∷◌, [], IfOk, None, OnErr, OnOk};
ghost use Rattle.fetcher.specs.Logs.{GainedAtMost};
ghost use Rattle.fetcher.specs.declared.fetcher.Ask.TheVariants as ask;
ghost use Rattle.answer_notes.specs.HopChains.{rules_of_hops};
ghost use Rattle.answer_notes.specs.Received.{received_outcome, received_body};
ghost use Rattle.answer_notes.specs.declared.received.Received.{Received};
ghost use Rattle.http_fetcher.specs.Fetching.{with_condition};
ghost use Rattle.http_fetcher.specs.Meanings.{MayAnswer, MayRule};
ghost use Rattle.response_reader.specs.Limits.{limited};
ghost use Rattle.retries.specs.Keeping.{MayKeep, StandsForAnswer, asks_of, is_worth_answer};
ghost use Rattle.retries.specs.Tries.{IsLastOf};
ghost use Rattle.retries.specs.Worth.{is_worth, is_worth_hops};
ghost use Rattle.tcp_fetcher.specs.TcpFetching.{AreReceivedRules, conditioned, last_loss};

use crate::observed_tcp::ObservedTcp;
use address::{Address, Origin};
use answer_notes::{Hops, Received, Receiving};
use fetcher::{Answer, Ask, Body, Fetcher};
use html_links::LinkRules;
use http_fetcher::HttpFetcher;
use kept_bodies::Keeper;
use pacing::{Manner, Retries};
use progress::ProgressLine;
use requests::{Condition, Proxies, Sending};
use response_answer::PageSink;
use response_reader::Limits;
use retries::Calling;
use robots_rules::RuleSet;
use run_failures::LossKind;
use std::alloc::{AllocError, Global};
use std::marker::Model;
use std::net::Net;
use std::sync::Wait;
use std::time::Clock;
use tcp_connect::{Hosts, KeptConnections, TcpConnect};

/// Asks over TCP, again after answers and faults that are worth it, and shows on the terminal what results.
pub struct OverTcp<'a, R: Net + Wait + Clock + Eprint> {
    alloc: Global,
    // Asks once.
    inner: HttpFetcher<ObservedTcp<'a, R>>,
    retries: Retries,
    // How long an answer may be whose body goes to a keeper.
    limits: Limits,
    // Whether the file of such a body gets the time at which its page changed.
    takes_times: bool,
    // Whether robots files may lengthen the pauses between requests.
    crawl_delay: bool,
    asks: Vec<Ask>,
}

// Written by hand: a user that drops one proves a call, and nothing about its fields.
impl<'a, R: Net + Wait + Clock + Eprint> Drop for OverTcp<'a, R> {
    fn drop(self) {
        let OverTcp {
            alloc: _alloc,
            inner: _inner,
            retries: _retries,
            limits: _limits,
            takes_times: _takes_times,
            crawl_delay: _crawl_delay,
            asks: _asks,
        } = self;
    }
}

impl<'a, R: Net + Wait + Clock + Eprint> Model for OverTcp<'a, R> {
    ghost use Rattle.std.specs.Prelude.{None};
    ghost use Rattle.pacing.specs.Retries.{retries_by};
    ghost use Rattle.response_reader.specs.Limits.{limited};
    ghost use Rattle.tcp_fetcher.specs.TcpFetching.{TcpFetching};

    ghost Value = { TcpFetching };

    // It knows of no earlier run.
    ghost view = { λ f. record { links = f.inner.links; keeps = f.inner.keeps; most = f.inner.connect.most; sends = f.inner.sends; retries = retries_by f.retries; limits = limited f.limits; takes_times = f.takes_times; asks = f.asks.items; single = f.inner; known = None } };
}

// What makes the connections. They are kept if it is said how many to a server may be open at a time.
fn connect_by<'a, R: Net + Wait + Clock>(
    rt: &'a R,
    alloc: Global,
    hosts: &'a Hosts,
    kept: &'a KeptConnections<R::Stream>,
    most: Option<u32>,
    proxies: Proxies,
    manner: Manner,
) -> TcpConnect<'a, R>
    ensures { result ≡ record { made = 0; failed = 0; refused = 0; taken = 0; most = most; lost = None } }
{
    let connect = TcpConnect::new(rt, alloc, hosts)
        .through(proxies)
        .treating(manner);
    match most {
        Some(most) => connect.keeping(kept, most),
        None => connect,
    }
}

impl<'a, R: Net + Wait + Clock + Eprint> OverTcp<'a, R> {
    ghost use Rattle.std.specs.Prelude.{◌≡◌, Some, is_some, []};
    ghost use Rattle.pacing.specs.Retries.{retries_by};
    ghost use Rattle.response_reader.specs.Limits.{limits_of};

    /// By this handle, with what the run knows of hosts and keeps of connections, and the line that counts what comes. Of the
    /// links of pages those are edges that `links` takes. Connections are kept among those of the run
    /// if it is said how many to a server may be open at a time; else each question has one of its own. These
    /// proxies are asked in place of servers, and of https no server is. Each request says this. Servers are treated so, and requests made again so. Files get the
    /// times of their pages if that is said. Takes no memory.
    pub fn new(
        rt: &'a R,
        alloc: Global,
        hosts: &'a Hosts,
        kept: &'a KeptConnections<R::Stream>,
        progress: &'a ProgressLine<'a, R>,
        links: LinkRules,
        most: Option<u32>,
        proxies: Proxies,
        sends: Sending,
        manner: Manner,
        retries: Retries,
        takes_times: bool,
    ) -> OverTcp<'a, R>
        ensures links { result.links ≡ links }
        ensures keeps { result.keeps ≡ is_some most }
        ensures most { result.most ≡ most }
        ensures sends { result.sends ≡ Some sends }
        ensures retries { result.retries ≡ retries_by retries }
        ensures limits { result.limits ≡ limits_of manner.body_limit }
        ensures takes_times { result.takes_times ≡ takes_times }
        ensures asks { result.asks ≡ [] }
    {
        let limits = Limits::of_body(manner.body_limit);
        let crawl_delay = manner.crawl_delay;
        let connect = connect_by(rt, alloc, hosts, kept, most, proxies, manner);
        let connect = ObservedTcp::new(connect, progress);
        let fetcher = HttpFetcher::new(alloc, connect, links).sending(sends);
        OverTcp {
            alloc,
            inner: match most {
                Some(_) => fetcher.keeping(),
                None => fetcher,
            },
            retries,
            limits,
            takes_times,
            crawl_delay,
            asks: Vec::new(alloc),
        }
    }

    // No request has a condition from here on.
    fn forget_condition(&mut self)
        ensures { self.new ≡ record self.old { sends = with_condition None self.old.sends; single = conditioned None self.old.single } }
    {
        self.inner.set_condition(None);
    }

    // Whether the file of a page gets the time at which that changed.
    pub(crate) fn takes_times(&self) -> bool
        ensures { result ≡ self.now.takes_times }
    {
        self.takes_times
    }

    // How long an answer may be whose body goes to a keeper.
    pub(crate) fn limits(&self) -> Limits
        ensures { limited result ≡ self.now.limits }
    {
        self.limits
    }

    // Notes that a page is requested of it, whether that is then known without the network or not.
    pub(crate) fn note_ask(&mut self, at: &Address) -> Result<(), AllocError>
        ensures asked { OnOk result (self.new ≡ record self.old { asks = self.old.asks ++ ask.Page at.now ∷ [] }) }
        ensures refused { OnErr result (self.new ≡ self.old) }
    {
        self.asks.push(Ask::Page(at.try_clone()?))?;
        Ok(())
    }

    /// Why the last connection was lost, if it was.
    pub fn loss(&self) -> Option<LossKind>
        ensures { result ≡ last_loss self.now.single }
    {
        self.inner.loss()
    }

    // Has requests to the origin of a robots file begin as far apart as it says, if that is honoured. The error is that memory ran out.
    fn space_out(&self, hops: &Hops) -> Result<(), AllocError> {
        if self.crawl_delay {
            let delay = hops.crawl_delay(self.alloc)?;
            self.inner.connect().space_out(hops.of(), delay);
        }
        Ok(())
    }

    // What is received last of an origin's robots file, whose delay holds from then on if that is honoured.
    fn spaced_hops(&mut self, of: &Origin) -> Result<Hops, AllocError>
        requires { with_condition None self.old.sends ≡ self.old.sends }
        ensures site { self.new.links ≡ self.old.links }
        ensures of { IfOk result (λ found. found.of ≡ of.now) }
        ensures told { IfOk result (λ found. MayRule self.old.links of.now (rules_of_hops found.hops)) }
        ensures asks { self.new.asks ≡ self.old.asks }
        ensures tries { IfOk result (λ found. IsLastOf (λ f. f.asks) last_loss (λ f found. MayRule f.links of.now (rules_of_hops found.hops))
            (λ found. is_worth_hops self.old.retries found.hops) (ask.Rules of.now) self.old.retries.most self.old.single self.new.single found) }
        ensures retries { self.new.retries ≡ self.old.retries }
        ensures limits { self.new.limits ≡ self.old.limits }
    {
        let hops = retries::receive_hops(&mut self.inner, &self.retries, of)?;
        self.space_out(&hops)?;
        Ok(hops)
    }

    // The rules by what is received last of an origin's robots file, whose delay holds from then on.
    fn spaced_rules(&mut self, of: &Origin) -> Result<RuleSet, AllocError>
        requires { with_condition None self.old.sends ≡ self.old.sends }
        ensures site { self.new.links ≡ self.old.links }
        ensures told { IfOk result (λ r. MayRule self.old.links of.now r) }
        ensures asks { self.new.asks ≡ self.old.asks }
        ensures once { self.old.retries.most ≡ 0 → OnOk result (self.new.single.asks ≡ self.old.single.asks ++ ask.Rules of.now ∷ []) }
        ensures tries { IfOk result (AreReceivedRules self.old.retries of.now self.old.single self.new.single) }
        ensures retries { self.new.retries ≡ self.old.retries }
        ensures limits { self.new.limits ≡ self.old.limits }
    {
        let hops = self.spaced_hops(of)?;
        hops.rules(self.alloc)
    }

    // The rules by what is received last of an origin's robots file.
    fn rules_of(&mut self, of: &Origin) -> Result<RuleSet, AllocError>
        requires { with_condition None self.old.sends ≡ self.old.sends }
        ensures site { self.new.links ≡ self.old.links }
        ensures told { IfOk result (λ r. MayRule self.old.links of.now r) }
        ensures asks { self.new.asks ≡ self.old.asks }
        ensures once { self.old.retries.most ≡ 0 → OnOk result (self.new.single.asks ≡ self.old.single.asks ++ ask.Rules of.now ∷ []) }
        ensures tries { 0 < self.old.retries.most → IfOk result (AreReceivedRules self.old.retries of.now self.old.single self.new.single) }
        ensures retries { self.new.retries ≡ self.old.retries }
        ensures limits { self.new.limits ≡ self.old.limits }
    {
        if self.crawl_delay {
            return self.spaced_rules(of);
        }
        retries::ask_robots(self.alloc, &mut self.inner, &self.retries, of)
    }

    // The rules by what an earlier run received of an origin's robots file, which isn't requested. Its delay holds from then on, if that is
    // honoured.
    pub(crate) fn rules_again(&mut self, of: &Origin, hops: &Hops) -> Result<RuleSet, AllocError>
        ensures rules { IfOk result (λ r. r ≡ rules_of_hops hops.now.hops) }
        ensures asked { OnOk result (self.new ≡ record self.old { asks = self.old.asks ++ ask.Rules of.now ∷ [] }) }
        ensures refused { OnErr result (GainedAtMost self.old.asks self.new.asks (ask.Rules of.now)) }
        ensures same { self.new ≡ record self.old { asks = self.new.asks } }
    {
        self.asks.push(Ask::Rules(of.try_clone()?))?;
        self.space_out(hops)?;
        hops.rules(self.alloc)
    }

    // Requests a page over the network that was noted, each try with this condition alone (RFC 9110, section 13.1), if there is one. Its body
    // goes to the sink's keeper while it arrives.
    pub(crate) fn ask_noted<K: Keeper>(
        &mut self,
        sink: &mut PageSink<K>,
        at: &Address,
        condition: Option<Condition>,
    ) -> Result<Answer<K::Kept>, AllocError>
        ensures site { self.new.links ≡ self.old.links }
        ensures told { IfOk result (StandsForAnswer K.holds self.old.limits self.old.links at.now) }
        ensures asks { self.new.asks ≡ self.old.asks }
        ensures tries { IfOk result (IsLastOf asks_of last_loss (MayKeep K.holds self.old.limits at.now) (is_worth_answer self.old.retries) (ask.Page at.now) self.old.retries.most (conditioned condition self.old.single) self.new.single) }
        ensures sent { self.new.single.sends ≡ with_condition condition self.old.single.sends }
        ensures retries { self.new.retries ≡ self.old.retries }
        ensures limits { self.new.limits ≡ self.old.limits }
        ensures takes_times { self.new.takes_times ≡ self.old.takes_times }
        ensures sends { self.new.sends ≡ with_condition condition self.old.sends }
        ensures known { self.new.known ≡ self.old.known }
    {
        self.inner.set_condition(condition);
        retries::ask_into(&mut self.inner, sink, &self.retries, at, self.limits)
    }
}

impl<'a, R: Net + Wait + Clock + Eprint> Fetcher for OverTcp<'a, R> {
    ghost use Rattle.html_links.specs.declared.rules.LinkRules.{LinkRules};

    type Body = Body;

    ghost Site = { LinkRules };

    ghost site = { λ f. f.links };

    ghost says = { MayAnswer };

    ghost rules = { MayRule };

    ghost log = { λ f. f.asks };

    fn ask(&mut self, at: &Address) -> Result<Answer<Body>, AllocError>
        ensures site { self.new.links ≡ self.old.links }
        ensures told { IfOk result (λ a. MayAnswer self.old.links at.now a.outcome a.body) }
        ensures asked { OnOk result (self.new.asks ≡ self.old.asks ++ ask.Page at.now ∷ []) }
        ensures refused { OnErr result (GainedAtMost self.old.asks self.new.asks (ask.Page at.now)) }
        // The network is asked once, or again if that is worth it; what is received last is the answer.
        ensures once { self.old.retries.most ≡ 0 → OnOk result (self.new.single.asks ≡ self.old.single.asks ++ ask.Page at.now ∷ []) }
        ensures tries { 0 < self.old.retries.most → IfOk result (λ a. (t : Received) × (a.outcome ≡ received_outcome self.old.links at.now t) × (a.body ≡ received_body t)
            × IsLastOf (λ f. f.asks) last_loss (λ f t. MayAnswer f.links at.now (received_outcome f.links at.now t) (received_body t)) (is_worth self.old.retries) (ask.Page at.now) self.old.retries.most self.old.single self.new.single t) }
        ensures retries { self.new.retries ≡ self.old.retries }
        ensures limits { self.new.limits ≡ self.old.limits }
    {
        self.asks.push(Ask::Page(at.try_clone()?))?;
        retries::ask(self.alloc, &mut self.inner, &self.retries, at)
    }

    fn ask_robots(&mut self, of: &Origin) -> Result<RuleSet, AllocError>
        ensures site { self.new.links ≡ self.old.links }
        ensures told { IfOk result (λ r. MayRule self.old.links of.now r) }
        ensures asked { OnOk result (self.new.asks ≡ self.old.asks ++ ask.Rules of.now ∷ []) }
        ensures refused { OnErr result (GainedAtMost self.old.asks self.new.asks (ask.Rules of.now)) }
        ensures once { self.old.retries.most ≡ 0 → OnOk result (self.new.single.asks ≡ self.old.single.asks ++ ask.Rules of.now ∷ []) }
        // No condition of a page is sent for it.
        ensures tries { 0 < self.old.retries.most → IfOk result (AreReceivedRules self.old.retries of.now (conditioned None self.old.single) self.new.single) }
        ensures retries { self.new.retries ≡ self.old.retries }
        ensures limits { self.new.limits ≡ self.old.limits }
    {
        self.asks.push(Ask::Rules(of.try_clone()?))?;
        self.forget_condition();
        self.rules_of(of)
    }

    fn asks(&self) -> &[Ask] {
        self.asks.as_slice()
    }
}

impl<'a, R: Net + Wait + Clock + Eprint> Receiving for OverTcp<'a, R> {
    ghost links = { λ f. f.links };

    fn link_rules(&self) -> LinkRules {
        self.inner.link_rules()
    }

    fn ask_received(&mut self, at: &Address) -> Result<Received, AllocError>
        ensures site { self.new.links ≡ self.old.links }
        ensures links { self.new.links ≡ self.old.links }
        ensures told { IfOk result (λ t. MayAnswer self.old.links at.now (received_outcome self.old.links at.now t) (received_body t)) }
        ensures asked { OnOk result (self.new.asks ≡ self.old.asks ++ ask.Page at.now ∷ []) }
        ensures refused { OnErr result (GainedAtMost self.old.asks self.new.asks (ask.Page at.now)) }
        ensures tries { IfOk result (λ t. IsLastOf (λ f. f.asks) last_loss (λ f t. MayAnswer f.links at.now (received_outcome f.links at.now t) (received_body t))
            (is_worth self.old.retries) (ask.Page at.now) self.old.retries.most self.old.single self.new.single t) }
        ensures retries { self.new.retries ≡ self.old.retries }
        ensures limits { self.new.limits ≡ self.old.limits }
    {
        self.asks.push(Ask::Page(at.try_clone()?))?;
        retries::receive(&mut self.inner, &self.retries, at)
    }

    fn ask_hops(&mut self, of: &Origin) -> Result<Hops, AllocError>
        ensures site { self.new.links ≡ self.old.links }
        ensures links { self.new.links ≡ self.old.links }
        ensures of { IfOk result (λ found. found.of ≡ of.now) }
        ensures told { IfOk result (λ found. MayRule self.old.links of.now (rules_of_hops found.hops)) }
        ensures asked { OnOk result (self.new.asks ≡ self.old.asks ++ ask.Rules of.now ∷ []) }
        ensures refused { OnErr result (GainedAtMost self.old.asks self.new.asks (ask.Rules of.now)) }
        ensures tries { IfOk result (λ found. IsLastOf (λ f. f.asks) last_loss (λ f found. MayRule f.links of.now (rules_of_hops found.hops))
            (λ found. is_worth_hops self.old.retries found.hops) (ask.Rules of.now) self.old.retries.most (conditioned None self.old.single) self.new.single found) }
        ensures retries { self.new.retries ≡ self.old.retries }
        ensures limits { self.new.limits ≡ self.old.limits }
    {
        self.asks.push(Ask::Rules(of.try_clone()?))?;
        self.forget_condition();
        self.spaced_hops(of)
    }
}
