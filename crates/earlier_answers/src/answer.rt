//! The text of an answer that has no file: a word, the status, the address, and the target of a redirect, each after a space.
ghost use Rattle.std.specs.Prelude.{◌≡◌, ◌∷◌, ◌≢◌, ◌^◌, ◌<◌, ◌↔◌, ℕ, codes, decimal, IfOk, IfSome, IsTrue, MatchOption, Option, Some, None, option_map, vec_items};
ghost use Rattle.address.specs.Address.{AddressText, IsAddress};
ghost use Rattle.fetcher.specs.declared.outcome.Outcome.{Outcome};
ghost use Rattle.fetcher.specs.declared.outcome.Outcome.TheVariants.{Leaf, Moved};
ghost use Rattle.site_inputs.specs.Fields.{fields};
ghost use Rattle.earlier_answers.specs.Texts.{IsOutcome, Text, answer_text};
ghost use Rattle.earlier_answers.specs.Sayings.{IsSaying, Says, answered};
ghost use Rattle.earlier_answers.specs.inner.Fields.{AnswerFields, fields_in, last_field};

use address::{Address, AddressFault};
use fetcher::{Outcome, is_successful};
use site_inputs::first_field;
use std::alloc::{AllocError, Global};
use std::str;

/// The text of an answer that has no file: of a redirect, or of a response that leads nowhere and isn't successful. None of all
/// others. Fails only if memory runs out.
pub fn answer_text(
    alloc: Global,
    at: &Address,
    outcome: &Outcome,
) -> Result<Option<Vec<u8>>, AllocError>
    ensures text { IfOk result (λ text. option_map vec_items text ≡ answer_text at.now outcome.now) }
    ensures parts { IfOk result (λ text. IfSome text (λ t. IsSaying (answered at.now outcome.now))) }
{
    let at = at.as_str();
    match outcome {
        Outcome::Moved(status, target) => {
            let (status, target) = (*status, target.as_str());
            let text = format!(in alloc; "moved {status} {at} {target}")?;
            Ok(Some(text.into_bytes()))
        }
        Outcome::Leaf(status) => {
            if is_successful(*status) {
                return Ok(None);
            }
            let text = format!(in alloc; "leaf {status} {at}")?;
            Ok(Some(text.into_bytes()))
        }
        Outcome::Page(_, _) | Outcome::Fault(_) => Ok(None),
    }
}

// The three fields of a text, and the fourth if there is one.
fn answer_fields(text: &str) -> Option<(&str, &str, &str, Option<&str>)>
    ensures { MatchOption result ((f : AnswerFields) → fields text.now ≢ fields_in f)
        (λ f. fields text.now ≡ f.0.now ∷ f.1.now ∷ f.2.now ∷ last_field (option_map (λ t. t.now) f.3)) }
{
    let (word, Some(rest)) = first_field(text) else {
        return None;
    };
    let (status, Some(rest)) = first_field(rest) else {
        return None;
    };
    match first_field(rest) {
        (at, None) => Some((word, status, at, None)),
        (at, Some(rest)) => match first_field(rest) {
            (target, None) => Some((word, status, at, Some(target))),
            (_, Some(_)) => None,
        },
    }
}

// The status that a field says, if it says one.
fn status_in(field: &str) -> Option<u16>
    ensures { (n : ℕ) → n < 2 ^ 16 → field.now ≡ decimal n → result ≡ Some n }
{
    field.parse::<u16>().ok()
}

// The address that a field says, if it says one.
fn address_in(alloc: Global, field: &str) -> Result<Option<Address>, AllocError>
    ensures { IfOk result (λ address. IsAddress field.now → address ≡ Some field.now) }
{
    match Address::read_either(alloc, field) {
        Ok(address) => Ok(Some(address)),
        Err(AddressFault::Memory) => Err(AllocError),
        Err(_) => Ok(None),
    }
}

// The answer with a status that a word says, and the target of a redirect.
fn outcome_in(
    alloc: Global,
    word: &str,
    status: u16,
    target: Option<&str>,
) -> Result<Option<Outcome>, AllocError>
    ensures leaf { word.now ≡ codes "leaf" → option_map (λ t. t.now) target.entry ≡ None → IfOk result (λ outcome. outcome ≡ Some (Leaf status)) }
    ensures moved { (to : AddressText) → IsAddress to → word.now ≡ codes "moved" → option_map (λ t. t.now) target.entry ≡ Some to
        → IfOk result (λ outcome. outcome ≡ Some (Moved status to)) }
{
    match (word, target) {
        ("leaf", None) => Ok(Some(Outcome::Leaf(status))),
        ("moved", Some(target)) => match address_in(alloc, target)? {
            Some(target) => Ok(Some(Outcome::Moved(status, target))),
            None => Ok(None),
        },
        _ => Ok(None),
    }
}

// The answer that a text says, if it is one's text; else any.
fn said_answer(alloc: Global, text: &[u8]) -> Result<Option<(Address, Outcome)>, AllocError>
    ensures { IfOk result (λ said. (at : AddressText) (outcome : Outcome) → IsAddress at → IsOutcome outcome → answer_text at outcome ≡ Some text.now → said ≡ Some (at, outcome)) }
{
    let Ok(text) = str::from_utf8(text) else {
        return Ok(None);
    };
    let Some((word, status, at, target)) = answer_fields(text) else {
        return Ok(None);
    };
    let Some(status) = status_in(status) else {
        return Ok(None);
    };
    let Some(at) = address_in(alloc, at)? else {
        return Ok(None);
    };
    match outcome_in(alloc, word, status, target)? {
        Some(outcome) => Ok(Some((at, outcome))),
        None => Ok(None),
    }
}

// Whether a text is that of an answer.
fn is_text_of(
    alloc: Global,
    text: &[u8],
    at: &Address,
    outcome: &Outcome,
) -> Result<bool, AllocError>
    ensures { IfOk result (λ is. IsTrue is ↔ Says text.now (answered at.now outcome.now)) }
{
    match answer_text(alloc, at, outcome)? {
        Some(own) => Ok(text == own.as_slice()),
        None => Ok(false),
    }
}

/// The answer whose text this is, with its address, if it is one's. Fails only if memory runs out.
pub(crate) fn read_answer(
    alloc: Global,
    text: &[u8],
) -> Result<Option<(Address, Outcome)>, AllocError>
    ensures is { IfOk result (λ read. IfSome read (λ a. Says text.now (answered a.0 a.1))) }
    ensures back { IfOk result (λ read. (at : AddressText) (outcome : Outcome) → IsAddress at → IsOutcome outcome → answer_text at outcome ≡ Some text.now → read ≡ Some (at, outcome)) }
{
    let Some((at, outcome)) = said_answer(alloc, text)? else {
        return Ok(None);
    };
    if is_text_of(alloc, text, &at, &outcome)? {
        return Ok(Some((at, outcome)));
    }
    Ok(None)
}
