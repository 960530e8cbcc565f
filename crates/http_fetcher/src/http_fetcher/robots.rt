//! An origin's robots file, with the redirects after it (RFC 9309, section 2.3.1).
ghost use Rattle.std.specs.Prelude.{◌≡◌, ◌≤◌, ◌+◌, ◌++◌, false, length, IfOk, OnErr, MatchBool, codes};
ghost use Rattle.response_reader.specs.Wire.{counted};
ghost use Rattle.response_reader.specs.Limits.{standard};
ghost use Rattle.answer_notes.specs.RobotsAnswers.{max_redirects};
ghost use Rattle.answer_notes.specs.HopChains.{rules_of_hops};
ghost use Rattle.http_fetcher.specs.Chains.{CountsHops, IsChain};
ghost use Rattle.http_fetcher.specs.Fetching.{IsGiven, StandsBehind};
ghost use Rattle.http_fetcher.specs.Notes.{NotesChain};

use super::HttpFetcher;
use crate::chain::{Hop, read_hop};
use address::Origin;
use answer_notes::{Hops, MAX_REDIRECTS, Noted};
use connect::Connect;
use robots_rules::RuleSet;
use std::alloc::AllocError;

impl<C: Connect> HttpFetcher<C> {
    // What was received for an origin's robots file and for the redirects after it, and the rules at the end. Fails only if memory
    // runs out.
    pub(super) fn follow(&mut self, of: &Origin) -> Result<(Hops, RuleSet), AllocError>
        ensures asks { self.new.asks ≡ self.old.asks }
        ensures links { self.new.links ≡ self.old.links }
        ensures keeps { self.new.keeps ≡ self.old.keeps }
        ensures sends { self.new.sends ≡ self.old.sends }
        ensures is_recording { self.new.is_recording ≡ self.old.is_recording }
        ensures notes { self.new.notes ≡ self.old.notes }
        ensures few { C.made self.new.connect ≤ C.made self.old.connect + (max_redirects + 1) }
        ensures stands { StandsBehind C.Connect C.Wire.Wire standard self.old self.new }
        ensures count { self.old.keeps ≡ false → IfOk result (λ found. CountsHops (C.made self.old.connect) (C.made self.new.connect) of.now found.1) }
        ensures hops { self.old.keeps ≡ false → IfOk result (λ found. C.made self.new.connect ≡ counted (C.made self.old.connect) (length found.0.hops)) }
        ensures of { IfOk result (λ found. found.0.of ≡ of.now) }
        ensures rules { IfOk result (λ found. found.1 ≡ rules_of_hops found.0.hops) }
        ensures chain { IfOk result (λ found. IsChain (IsGiven C.Connect C.Wire.Wire standard self.old) max_redirects (of.now ++ codes "/robots.txt") found.1) }
    {
        let alloc = self.alloc;
        let origin = of.try_clone()?;
        let mut hops = Vec::new(alloc);
        let mut at = of.robots_file()?;
        let mut left = MAX_REDIRECTS;
        'hops: loop {
            let received = self.exchange(&at)?;
            match read_hop(alloc, &at, &received, left)? {
                Hop::Last(rules) => {
                    hops.push((at, received))?;
                    return Ok((Hops::new(origin, hops), rules));
                }
                Hop::Next(next) => {
                    hops.push((at, received))?;
                    at = next;
                    left -= 1;
                }
            }
        }
    }

    // Requests an origin's rules, and notes what was received. Fails only if memory runs out; then nothing is noted.
    pub(super) fn rules_of(&mut self, of: &Origin) -> Result<RuleSet, AllocError>
        ensures asks { self.new.asks ≡ self.old.asks }
        ensures links { self.new.links ≡ self.old.links }
        ensures keeps { self.new.keeps ≡ self.old.keeps }
        ensures sends { self.new.sends ≡ self.old.sends }
        ensures is_recording { self.new.is_recording ≡ self.old.is_recording }
        ensures few { C.made self.new.connect ≤ C.made self.old.connect + (max_redirects + 1) }
        ensures stands { StandsBehind C.Connect C.Wire.Wire standard self.old self.new }
        ensures count { self.old.keeps ≡ false → IfOk result (CountsHops (C.made self.old.connect) (C.made self.new.connect) of.now) }
        ensures chain { IfOk result (IsChain (IsGiven C.Connect C.Wire.Wire standard self.old) max_redirects (of.now ++ codes "/robots.txt")) }
        ensures noted { IfOk result (λ r. MatchBool self.old.is_recording (NotesChain of.now r self.old.notes self.new.notes) (self.new.notes ≡ self.old.notes)) }
        ensures unnoted { OnErr result (self.new.notes ≡ self.old.notes) }
    {
        let (hops, rules) = self.follow(of)?;
        if self.is_recording {
            self.notes.push(Noted::Chain(hops))?;
        }
        Ok(rules)
    }
}
