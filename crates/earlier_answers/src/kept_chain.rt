//! Chains that were read from their texts.
ghost use Rattle.std.specs.Prelude.{◌≡◌, ◌∷◌, [], IfOk, IfSome, Some, true};
ghost use Rattle.answer_notes.specs.declared.noted.Noted.TheVariants.{Chain};
ghost use Rattle.site_records.specs.WrittenEntries.{IsNote};
ghost use Rattle.earlier_answers.specs.Texts.{AreWhole, chain_text};
ghost use Rattle.earlier_answers.specs.Sayings.{Says, chained};
ghost use Rattle.earlier_answers.specs.inner.Kept.{IsOneChain, first_chain};

use crate::chain::chain_text;
use answer_notes::{Hops, Noted};
use html_links::LinkRules;
use site_inputs::InputFault;
use site_records::{RecordParts, RecordedSite, SECOND_VERSION_LINE};
use std::alloc::{AllocError, Global};
use std::marker::Model;

/// What was received for an origin's robots file, as it was read from its text. It is kept in the site that was read, which lends it.
/// Contracts see the chain.
pub(crate) struct KeptChain {
    site: RecordedSite,
}

// Written by hand: a user that drops one proves a call, and nothing about its fields.
impl Drop for KeptChain {
    fn drop(self) {
        let KeptChain { site: _site } = self;
    }
}

impl Model for KeptChain {
    ghost use Rattle.answer_notes.specs.HopChains.{ChainValue};
    ghost use Rattle.earlier_answers.specs.inner.Kept.{IsOneChain, first_chain};

    ghost Value = { ChainValue };

    ghost view = { λ k. first_chain k.site.notes };

    ghost invariant = { λ k. IsOneChain k.site.notes };
}

// The site of a record with this text as its one entry, if it is a record.
fn site_in(alloc: Global, text: &[u8]) -> Result<Option<RecordedSite>, AllocError> {
    let mut record = Vec::from_slice(alloc, SECOND_VERSION_LINE)?;
    record.extend_from_slice(text)?;
    let parts = RecordParts {
        notes: true,
        failed: false,
    };
    // No page is read, so that any links may be taken.
    let links = LinkRules::all(false);
    match RecordedSite::read_parts(alloc, record.as_slice(), links, parts) {
        Ok(site) => Ok(Some(site)),
        Err(InputFault::Memory) => Err(AllocError),
        Err(_) => Ok(None),
    }
}

// The chain of the one note that there is.
fn only_chain(notes: &[Noted]) -> Option<&Hops>
    ensures { IfSome result (λ hops. notes.now ≡ Chain hops.now ∷ []) }
{
    match notes {
        [Noted::Chain(hops)] => Some(hops),
        _ => None,
    }
}

// Whether there is one note, and the text is that of its chain.
fn is_text_of(alloc: Global, text: &[u8], notes: &[Noted]) -> Result<bool, AllocError>
    ensures { IfOk result (λ is. is ≡ true → IsOneChain notes.now × (chain_text (first_chain notes.now) ≡ Some text.now)) }
{
    let Some(hops) = only_chain(notes) else {
        return Ok(false);
    };
    match chain_text(alloc, hops)? {
        Some(own) => Ok(text == own.as_slice()),
        None => Ok(false),
    }
}

impl KeptChain {
    /// The chain whose text this is, if it is one's. Fails only if memory runs out.
    pub(crate) fn read(alloc: Global, text: &[u8]) -> Result<Option<KeptChain>, AllocError>
        ensures { IfOk result (λ read. IfSome read (λ c. Says text.now (chained c))) }
    {
        let Some(site) = site_in(alloc, text)? else {
            return Ok(None);
        };
        if is_text_of(alloc, text, site.notes())? {
            return Ok(Some(KeptChain { site }));
        }
        Ok(None)
    }

    /// The chain.
    pub(crate) fn hops(&self) -> &Hops
        ensures value { result.now ≡ self.now }
        ensures note { IsNote (Chain self.now) }
        ensures whole { AreWhole self.now.hops }
    {
        match self.site.notes() {
            [Noted::Chain(hops)] => hops,
            _ => unreachable!(),
        }
    }
}
