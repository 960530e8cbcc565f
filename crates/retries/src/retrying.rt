//! Requests that are made again.
ghost use Rattle.std.specs.Prelude.{◌≡◌, ◌<◌, ◌++◌, ◌∷◌, [], IfOk, OnOk};
ghost use Rattle.fetcher.specs.declared.fetcher.Ask.TheVariants as ask;
ghost use Rattle.answer_notes.specs.Received.{received_outcome, received_body};
ghost use Rattle.answer_notes.specs.HopChains.{ChainValue, rules_of_hops};
ghost use Rattle.answer_notes.specs.declared.received.Received.{Received};
ghost use Rattle.http_fetcher.specs.Meanings.{MayAnswer, MayRule};
ghost use Rattle.pacing.specs.Retries.{retries_by};
ghost use Rattle.retries.specs.Keeping.{asks_of, lost_of};
ghost use Rattle.retries.specs.Tries.{IsLastOf};
ghost use Rattle.retries.specs.Worth.{is_worth, is_worth_hops};

use crate::calling::{Calling, CallingConnect};
use crate::delay::{pause_before, pause_before_hops};
use crate::worth::{is_worth, is_worth_hops};
use address::{Address, Origin};
use answer_notes::{Hops, Received, Receiving};
use fetcher::{Answer, Body, Fetcher};
use http_fetcher::HttpFetcher;
use pacing::Retries;
use robots_rules::RuleSet;
use std::alloc::{AllocError, Global};
use std::time::Duration;

// Has an origin left alone whose robots file was requested, and that at which its redirects end. Fails only if memory runs out.
fn leave_hops_alone<C: CallingConnect>(
    inner: &HttpFetcher<C>,
    of: &Origin,
    hops: &Hops,
    pause: Duration,
) -> Result<(), AllocError> {
    inner.leave_alone(of, pause);
    if let [.., (at, _)] = hops.hops() {
        let last = Origin::of(at)?;
        inner.leave_alone(&last, pause);
    }
    Ok(())
}

/// What a fetcher last receives for a page, as by [`ask`]. Fails only if memory runs out.
pub fn receive<C: CallingConnect>(
    inner: &mut HttpFetcher<C>,
    retries: &Retries,
    at: &Address,
) -> Result<Received, AllocError>
    ensures site { inner.new.links ≡ inner.old.links }
    ensures links { inner.new.links ≡ inner.old.links }
    ensures told { IfOk result (λ t. MayAnswer inner.old.links at.now (received_outcome inner.old.links at.now t) (received_body t)) }
    ensures tries { IfOk result (λ t. IsLastOf asks_of (lost_of C.lost) (λ f t. MayAnswer f.links at.now (received_outcome f.links at.now t) (received_body t))
        (is_worth (retries_by retries.now)) (ask.Page at.now) retries.now.most inner.old inner.new t) }
{
    let mut received = inner.ask_received(at)?;
    for made in 0..retries.most {
        if !is_worth(retries, &received, inner.loss()) {
            return Ok(received);
        }
        let of = Origin::of(at)?;
        inner.leave_alone(&of, pause_before(retries, made, inner.now(), &received));
        received = inner.ask_received(at)?;
    }
    Ok(received)
}

/// What a fetcher last receives for an origin's robots file, as by [`ask`]. Fails only if memory runs out.
pub fn receive_hops<C: CallingConnect>(
    inner: &mut HttpFetcher<C>,
    retries: &Retries,
    of: &Origin,
) -> Result<Hops, AllocError>
    ensures site { inner.new.links ≡ inner.old.links }
    ensures links { inner.new.links ≡ inner.old.links }
    ensures of { IfOk result (λ found. found.of ≡ of.now) }
    ensures told { IfOk result (λ found. MayRule inner.old.links of.now (rules_of_hops found.hops)) }
    ensures tries { IfOk result (λ found. IsLastOf asks_of (lost_of C.lost) (λ f found. MayRule f.links of.now (rules_of_hops found.hops))
        (λ found. is_worth_hops (retries_by retries.now) found.hops) (ask.Rules of.now) retries.now.most inner.old inner.new found) }
{
    let mut hops = inner.ask_hops(of)?;
    for made in 0..retries.most {
        if !is_worth_hops(retries, &hops, inner.loss()) {
            return Ok(hops);
        }
        let pause = pause_before_hops(retries, made, inner.now(), &hops);
        leave_hops_alone(inner, of, &hops, pause)?;
        hops = inner.ask_hops(of)?;
    }
    Ok(hops)
}

// What a fetcher answers last for a page. The error is that memory ran out.
fn answer<C: CallingConnect>(
    alloc: Global,
    inner: &mut HttpFetcher<C>,
    retries: &Retries,
    at: &Address,
) -> Result<Answer<Body>, AllocError>
    ensures site { inner.new.links ≡ inner.old.links }
    ensures told { IfOk result (λ a. MayAnswer inner.old.links at.now a.outcome a.body) }
    ensures tries { IfOk result (λ a. (t : Received) × (a.outcome ≡ received_outcome inner.old.links at.now t) × (a.body ≡ received_body t)
        × IsLastOf asks_of (lost_of C.lost) (λ f t. MayAnswer f.links at.now (received_outcome f.links at.now t) (received_body t)) (is_worth (retries_by retries.now)) (ask.Page at.now) retries.now.most inner.old inner.new t) }
{
    let received = receive(inner, retries, at)?;
    received.into_answer(alloc, at, inner.link_rules())
}

// The rules by what a fetcher last receives for an origin's robots file. Fails only if memory runs out.
fn rules_of<C: CallingConnect>(
    alloc: Global,
    inner: &mut HttpFetcher<C>,
    retries: &Retries,
    of: &Origin,
) -> Result<RuleSet, AllocError>
    ensures site { inner.new.links ≡ inner.old.links }
    ensures told { IfOk result (λ r. MayRule inner.old.links of.now r) }
    ensures tries { IfOk result (λ r. (found : ChainValue) × (r ≡ rules_of_hops found.hops)
        × IsLastOf asks_of (lost_of C.lost) (λ f found. MayRule f.links of.now (rules_of_hops found.hops)) (λ found. is_worth_hops (retries_by retries.now) found.hops) (ask.Rules of.now) retries.now.most inner.old inner.new found) }
{
    let hops = receive_hops(inner, retries, of)?;
    hops.rules(alloc)
}

/// Requests a page of a fetcher, and again after answers and faults that are worth it. Before that the origin is left alone for as long as
/// a `Retry-After` says, or else for a second, and for a second more each time, up to the longest pause. What is received last is what is
/// answered. The error is that memory ran out.
pub fn ask<C: CallingConnect>(
    alloc: Global,
    inner: &mut HttpFetcher<C>,
    retries: &Retries,
    at: &Address,
) -> Result<Answer<Body>, AllocError>
    ensures site { inner.new.links ≡ inner.old.links }
    ensures told { IfOk result (λ a. MayAnswer inner.old.links at.now a.outcome a.body) }
    ensures once { retries.now.most ≡ 0 → OnOk result (inner.new.asks ≡ inner.old.asks ++ ask.Page at.now ∷ []) }
    ensures tries { 0 < retries.now.most → IfOk result (λ a. (t : Received) × (a.outcome ≡ received_outcome inner.old.links at.now t) × (a.body ≡ received_body t)
        × IsLastOf asks_of (lost_of C.lost) (λ f t. MayAnswer f.links at.now (received_outcome f.links at.now t) (received_body t)) (is_worth (retries_by retries.now)) (ask.Page at.now) retries.now.most inner.old inner.new t) }
{
    if retries.most == 0 {
        return inner.ask(at);
    }
    answer(alloc, inner, retries, at)
}

/// The same for an origin's robots file.
pub fn ask_robots<C: CallingConnect>(
    alloc: Global,
    inner: &mut HttpFetcher<C>,
    retries: &Retries,
    of: &Origin,
) -> Result<RuleSet, AllocError>
    ensures site { inner.new.links ≡ inner.old.links }
    ensures told { IfOk result (λ r. MayRule inner.old.links of.now r) }
    ensures once { retries.now.most ≡ 0 → OnOk result (inner.new.asks ≡ inner.old.asks ++ ask.Rules of.now ∷ []) }
    ensures tries { 0 < retries.now.most → IfOk result (λ r. (found : ChainValue) × (r ≡ rules_of_hops found.hops)
        × IsLastOf asks_of (lost_of C.lost) (λ f found. MayRule f.links of.now (rules_of_hops found.hops)) (λ found. is_worth_hops (retries_by retries.now) found.hops) (ask.Rules of.now) retries.now.most inner.old inner.new found) }
{
    if retries.most == 0 {
        return inner.ask_robots(of);
    }
    rules_of(alloc, inner, retries, of)
}
