//! Lines of a record: what each says by itself.
ghost use Rattle.std.specs.Prelude.{◌≡◌, ◌≢◌, ℕ, List, [], ◌∷◌, MatchOption, Some};
ghost use Rattle.std.specs.Char.{is_ascii_digit};
ghost use Rattle.std.specs.List.{list_all};
ghost use Rattle.site_inputs.specs.Fields.{fields};
ghost use Rattle.site_records.specs.EntryLines.{Statement, is_length, length_of, is_of, IsForm, IsHopCount};
ghost use Rattle.site_records.specs.inner.Said.{said};

use crate::version::Version;
use answer_notes::MAX_REDIRECTS;
use fetcher::FaultKind;
use site_inputs::first_field;

/// How many hops a chain may have: one, and one for each redirect that may be followed.
pub(crate) const MAX_HOPS: usize = MAX_REDIRECTS as usize + 1;

/// What a line of a record says. Addresses are texts of the line, not read yet.
#[derive(Drop)]
pub(crate) enum EntryLine<'a> {
    /// The response of this address has this many bytes.
    Page(&'a str, usize),
    /// The address has no response, for this reason.
    Fault(FaultKind, &'a str),
    /// The robots file of the address's origin has this many bytes.
    Robots(&'a str, usize),
    /// Everything is allowed at the address's origin.
    Free(&'a str),
    /// Nothing is allowed there.
    Closed(&'a str),
    /// The robots file of the address's origin was requested, and this many hops follow.
    Chain(&'a str, usize),
}

impl<'a> EntryLine<'a> {
    /// What a line says, or none if it has no form.
    pub(crate) fn of(line: &'a str) -> Option<EntryLine<'a>>
        ensures { MatchOption result ((s : Statement) → ¬ IsForm (fields line.now) s) (λ s. IsForm (fields line.now) (said s)) }
    {
        let (word, second, third) = three_fields(line)?;
        EntryLine::of_three(word, second, third)
    }

    /// Whether records of a version have such entries.
    pub(crate) fn is_of(&self, version: Version) -> bool
        ensures { result ≡ is_of version (said self.now) }
    {
        match self {
            EntryLine::Page(_, _) | EntryLine::Fault(_, _) => true,
            EntryLine::Robots(_, _) | EntryLine::Free(_) | EntryLine::Closed(_) => {
                version == Version::First
            }
            EntryLine::Chain(_, _) => version == Version::Second,
        }
    }

    // What three fields say.
    fn of_three(word: &str, second: &'a str, third: &'a str) -> Option<EntryLine<'a>>
        ensures { let fs = word.now ∷ second.now ∷ third.now ∷ [] in MatchOption result ((s : Statement) → ¬ IsForm fs s) (λ s. IsForm fs (said s)) }
    {
        match word {
            "page" => match length_of(third) {
                Some(count) => Some(EntryLine::Page(second, count)),
                None => None,
            },
            "robots" => match length_of(third) {
                Some(count) => Some(EntryLine::Robots(second, count)),
                None => None,
            },
            "fault" => match FaultKind::of_word(second) {
                Some(kind) => Some(EntryLine::Fault(kind, third)),
                None => None,
            },
            "rules" => match second {
                "all" => Some(EntryLine::Free(third)),
                "none" => Some(EntryLine::Closed(third)),
                _ => None,
            },
            "chain" => match hop_count(third) {
                Some(count) => Some(EntryLine::Chain(second, count)),
                None => None,
            },
            _ => None,
        }
    }
}

// The fields of a line that has three.
pub(crate) fn three_fields(line: &str) -> Option<(&str, &str, &str)>
    ensures { MatchOption result ((a b c : List ℕ) → fields line.now ≢ a ∷ b ∷ c ∷ []) (λ f. fields line.now ≡ f.0.now ∷ f.1.now ∷ f.2.now ∷ []) }
{
    let (word, Some(rest)) = first_field(line) else {
        return None;
    };
    let (second, Some(rest)) = first_field(rest) else {
        return None;
    };
    match first_field(rest) {
        (third, None) => Some((word, second, third)),
        (_, Some(_)) => None,
    }
}

// The number of hops that a text writes.
fn hop_count(text: &str) -> Option<usize>
    ensures { MatchOption result ((n : ℕ) → length_of text.now ≡ Some n → ¬ IsHopCount n) (λ n. (length_of text.now ≡ Some n) × IsHopCount n) }
{
    let count = length_of(text)?;
    if count < 1 || MAX_HOPS < count {
        return None;
    }
    Some(count)
}

// Whether each byte is a decimal digit.
fn all_digits(bytes: &[u8]) -> bool
    ensures { result ≡ list_all is_ascii_digit bytes.now }
{
    bytes.iter().all(|b| b.is_ascii_digit())
}

// Whether a text is one or more decimal digits without leading zeros.
fn is_length(text: &str) -> bool
    ensures { result ≡ is_length text.now }
{
    let digits = text.as_bytes();
    !digits.is_empty() && all_digits(digits) && (digits[0] != b'0' || digits.len() == 1)
}

// The number that decimal digits without leading zeros write, or the greatest number if it is
// greater.
pub(crate) fn length_of(text: &str) -> Option<usize>
    ensures { result ≡ length_of text.now }
{
    if !is_length(text) {
        return None;
    }
    match text.parse::<usize>() {
        Ok(count) => Some(count),
        Err(_) => Some(usize::MAX),
    }
}
