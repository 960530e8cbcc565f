//! The answers of an earlier run that have no file.
ghost use Rattle.std.specs.Prelude.{◌≡◌, OnOk, OnErr};
ghost use Rattle.earlier_answers.specs.Sayings.{answered, chained, with_saying};
ghost use Rattle.earlier_answers.specs.Texts.{has_no_file};

use crate::answer::read_answer;
use crate::kept_chain::KeptChain;
use address::{Address, Origin};
use answer_notes::Hops;
use fetcher::Outcome;
use indexmap::IndexMap;
use std::alloc::{AllocError, Global};
use std::marker::Model;

/// What an earlier run received that has no file: of an address a redirect or a response that leads nowhere, of an origin what was
/// received for its robots file. Contracts see the answers and the chains.
pub struct EarlierAnswers {
    alloc: Global,
    answers: IndexMap<Address, Outcome>,
    chains: IndexMap<Origin, KeptChain>,
}

// Written by hand: a user that drops one proves a call, and nothing about its fields.
impl Drop for EarlierAnswers {
    fn drop(self) {
        let EarlierAnswers {
            alloc: _alloc,
            answers: _answers,
            chains: _chains,
        } = self;
    }
}

impl Model for EarlierAnswers {
    ghost use Rattle.earlier_answers.specs.Sayings.{EarlierValue};
    ghost use Rattle.earlier_answers.specs.inner.Kept.{AreKept};

    ghost Value = { EarlierValue };

    ghost view = { λ e. record { answers = e.answers.entries; chains = e.chains.entries } };

    ghost invariant = { λ e. AreKept e.answers.entries e.chains.entries };
}

impl EarlierAnswers {
    ghost use Rattle.std.specs.Prelude.{◌≡◌, ◌+◌, true, false, [], IfOk, IfSome, OnOk, OnErr, Ok, Some, bytes_eq, length, option_map};
    ghost use Rattle.std.specs.Map.{lookup};
    ghost use Rattle.address.specs.Address.{AddressText};
    ghost use Rattle.answer_notes.specs.HopChains.{rules_of_hops};
    ghost use Rattle.answer_notes.specs.declared.noted.Noted.TheVariants.{Chain};
    ghost use Rattle.fetcher.specs.declared.outcome.Outcome.{Outcome};
    ghost use Rattle.html_links.specs.declared.rules.LinkRules.{LinkRules};
    ghost use Rattle.http_fetcher.specs.Meanings.{MayRule};
    ghost use Rattle.earlier_answers.specs.Texts.{AreWhole, has_no_file};
    ghost use Rattle.earlier_answers.specs.Sayings.{IsTaken, Saying, Says, answered, with_saying};

    /// None yet. Takes no memory; later growth comes from `alloc`.
    pub fn new(alloc: Global) -> EarlierAnswers
        ensures { result ≡ record { answers = []; chains = [] } }
    {
        EarlierAnswers {
            alloc,
            answers: IndexMap::new(alloc),
            chains: IndexMap::new(alloc),
        }
    }

    // Keeps the answer of an address. Fails only if memory runs out; then nothing changes.
    fn keep_answer(&mut self, at: Address, outcome: Outcome) -> Result<(), AllocError>
        requires { has_no_file outcome ≡ true }
        ensures ok { OnOk result (self.new ≡ with_saying self.old (answered at outcome)) }
        ensures err { OnErr result (self.new ≡ self.old) }
    {
        self.answers.insert(at, outcome)?;
        Ok(())
    }

    // Keeps the chain of its origin. Fails only if memory runs out; then nothing changes.
    fn keep_chain(&mut self, chain: KeptChain) -> Result<(), AllocError>
        ensures ok { OnOk result (self.new ≡ with_saying self.old (chained chain)) }
        ensures err { OnErr result (self.new ≡ self.old) }
    {
        let of = chain.hops().of().try_clone()?;
        self.chains.insert(of, chain)?;
        Ok(())
    }

    /// Takes what a text says; of several of one address or origin the last counts. False if no answer has this text: then, and if
    /// memory runs out, nothing changes.
    pub fn add(&mut self, text: &[u8]) -> Result<bool, AllocError>
        ensures taken { IfOk result (λ taken. taken ≡ true → IsTaken self.old text.now self.new) }

        // A text says one thing, and that of an address's answer is taken.
        ensures only { (s : Saying) → Says text.now s → result ≡ Ok true → self.new ≡ with_saying self.old s }
        ensures answers { (at : AddressText) (outcome : Outcome) → Says text.now (answered at outcome) → IfOk result (λ taken. taken ≡ true) }
        ensures left { IfOk result (λ taken. taken ≡ false → self.new ≡ self.old) }
        ensures err { OnErr result (self.new ≡ self.old) }
    {
        if let Some((at, outcome)) = read_answer(self.alloc, text)? {
            self.keep_answer(at, outcome)?;
            return Ok(true);
        }
        let Some(chain) = KeptChain::read(self.alloc, text)? else {
            return Ok(false);
        };
        self.keep_chain(chain)?;
        Ok(true)
    }

    /// How many answers and chains there are.
    pub fn len(&self) -> usize
        ensures { result ≡ length self.now.answers + length self.now.chains }
    {
        self.answers.len() + self.chains.len()
    }

    /// The answer of an address, if one is kept: a redirect, or a response that leads nowhere and isn't successful.
    pub fn outcome(&self, at: &Address) -> Option<&Outcome>
        ensures value { option_map (λ outcome. outcome.now) result ≡ lookup (bytes_eq at.now) self.now.answers }
        ensures no_file { IfSome result (λ outcome. has_no_file outcome.now ≡ true) }
    {
        self.answers.get(at)
    }

    /// What was received for an origin's robots file, if it is kept: a response for each hop.
    pub fn chain(&self, of: &Origin) -> Option<&Hops>
        ensures value { option_map (λ hops. hops.now) result ≡ lookup (bytes_eq of.now) self.now.chains }
        ensures of { IfSome result (λ hops. hops.now.of ≡ of.now) }
        ensures whole { IfSome result (λ hops. AreWhole hops.now.hops) }

        // The rules at its end are rules that the origin may have.
        ensures may { IfSome result (λ hops. (links : LinkRules) → MayRule links of.now (rules_of_hops hops.now.hops)) }
    {
        match self.chains.get(of) {
            Some(chain) => Some(chain.hops()),
            None => None,
        }
    }
}
