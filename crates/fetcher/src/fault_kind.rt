//! Faults of a fetch: which step failed (RFC 9112, sections 2 to 8), and the table of their words and classes.
ghost use Rattle.std.specs.Prelude.{◌≡◌, ◌≢◌, ℕ, All, MatchOption, Some, map, slice_get};

use std::fmt;

/// Whose fault it is (GNU Wget manual, Exit Status).
#[derive(Clone, Copy, Debug, PartialEq, Eq)]
pub enum FaultClass {
    /// Of the network: nobody took the connection, or it was lost.
    Network,
    /// Of the protocol: what came is no response.
    Protocol,
}

/// Why an address has no response. Each kind has its row in the table below, in the same order.
#[derive(Clone, Copy, Debug, PartialEq, Eq)]
pub enum FaultKind {
    /// No connection was made.
    Connect,
    /// The connection failed while a request or a response was under way.
    Device,
    /// The connection ended before the response did.
    Ended,
    /// The head is ill-formed.
    Head,
    /// The heads are too long, or a head has too many fields.
    HeadLong,
    /// The lengths that the head gives are wrong or differ.
    Length,
    /// The transfer coding isn't known.
    Coding,
    /// A chunk or a trailer is ill-formed.
    Chunk,
    /// The body is too long.
    BodyLong,
}

// What is reported of a fault. The type of its text is a parameter, since definitions can cite a constant of such a type, and
// none with a reference of its own.
#[derive(Clone, Copy)]
struct KindRow<T> {
    kind: FaultKind,
    word: T,
    class: FaultClass,
}

// The faults, each in the place that its kind has among the kinds.
const TABLE: [KindRow<&str>; 9] = [
    KindRow {
        kind: FaultKind::Connect,
        word: "connect",
        class: FaultClass::Network,
    },
    KindRow {
        kind: FaultKind::Device,
        word: "device",
        class: FaultClass::Network,
    },
    KindRow {
        kind: FaultKind::Ended,
        word: "ended",
        class: FaultClass::Network,
    },
    KindRow {
        kind: FaultKind::Head,
        word: "head",
        class: FaultClass::Protocol,
    },
    KindRow {
        kind: FaultKind::HeadLong,
        word: "head-long",
        class: FaultClass::Protocol,
    },
    KindRow {
        kind: FaultKind::Length,
        word: "length",
        class: FaultClass::Protocol,
    },
    KindRow {
        kind: FaultKind::Coding,
        word: "coding",
        class: FaultClass::Protocol,
    },
    KindRow {
        kind: FaultKind::Chunk,
        word: "chunk",
        class: FaultClass::Protocol,
    },
    KindRow {
        kind: FaultKind::BodyLong,
        word: "body-long",
        class: FaultClass::Protocol,
    },
];

impl FaultKind {
    ghost use Rattle.std.specs.Prelude.{◌≡◌, ◌≢◌, MatchOption};
    ghost use Rattle.fetcher.specs.declared.fault_kind.FaultKind.{FaultKind};
    ghost use Rattle.fetcher.specs.FaultWords.{word_of, class_of};

    /// The fault's word, as maps and reports write it.
    pub fn word(self) -> &'static str
        ensures { result.now ≡ word_of self }
    {
        let table = &TABLE;
        table[self as usize].word
    }

    /// Whose fault it is.
    pub fn class(self) -> FaultClass
        ensures { result ≡ class_of self }
    {
        let table = &TABLE;
        table[self as usize].class
    }

    /// The fault of this word; other texts have none.
    pub fn of_word(word: &str) -> Option<FaultKind>
        ensures { MatchOption result ((kind : FaultKind) → word.now ≢ word_of kind) (λ kind. word.now ≡ word_of kind) }
    {
        kind_among(&TABLE, word)
    }
}

// The fault of a row that has this word, if one of these rows has.
fn kind_among(rows: &[KindRow<&str>], word: &str) -> Option<FaultKind>
    ensures { MatchOption result (All (λ text. word.now ≢ text) (map (λ row. row.word.now) rows.now)) (λ kind. (k : ℕ) × (slice_get (map (λ row. row.word.now) rows.now) k ≡ Some word.now) × (slice_get (map (λ row. row.kind) rows.now) k ≡ Some kind)) }
{
    for row in rows {
        if row.word == word {
            return Some(row.kind);
        }
    }
    None
}

impl fmt::Display for FaultKind {
    ghost use Rattle.fetcher.specs.FaultWords.{word_of};

    ghost output = { λ kind. Some (word_of kind) };

    fn fmt<W: fmt::Write>(&self, f: &mut fmt::Formatter<W>) -> fmt::Result {
        f.write_str(self.word())
    }
}
