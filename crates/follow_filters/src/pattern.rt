//! Patterns of file names (GNU Wget manual, section Types of Files).
ghost use Rattle.std.specs.Prelude.{◌≡◌};

use crate::class::Class;
use crate::elements::ElementFault;
use crate::kept_name::KeptName;
use crate::parts::Parts;
use std::alloc::{AllocError, Global};
use std::marker::Model;

/// A part of a pattern.
#[derive(Drop)]
pub enum PatternPart {
    /// `*`: any run of bytes.
    Run,
    /// `?`: any byte.
    Any,
    /// This byte.
    Byte(u8),
    /// A byte that the class takes.
    Class(Class),
}

impl part_match::Part for PatternPart {
    ghost use Rattle.follow_filters.specs.Patterns.{is_run, takes};

    ghost is_run = { is_run };

    ghost takes = { takes };

    fn is_run(&self) -> bool {
        matches!(self, PatternPart::Run)
    }

    #[tactic(auto, unfolding(crate::specs::Patterns::takes))]
    fn takes(&self, byte: u8) -> bool {
        match self {
            PatternPart::Run => false,
            PatternPart::Any => true,
            PatternPart::Byte(wanted) => byte == *wanted,
            PatternPart::Class(class) => class.takes(byte),
        }
    }
}

/// A pattern of file names.
#[derive(Drop)]
pub struct Pattern {
    text: String,
    parts: Parts,
}

// Contracts see a pattern as its text; its parts are what the text spells.
impl Model for Pattern {
    ghost use Rattle.std.specs.Prelude.{◌≡◌, List, ℕ, Some};
    ghost use Rattle.std.specs.String.{string_bytes};
    ghost use Rattle.follow_filters.specs.Patterns.{read_pattern};

    ghost Value = { List ℕ };

    ghost view = { λ p. string_bytes p.text };

    ghost invariant = { λ p. read_pattern (string_bytes p.text) ≡ Some p.parts };
}

impl Pattern {
    ghost use Rattle.std.specs.Prelude.{◌≡◌, ◌||◌, IfOk};
    ghost use Rattle.follow_filters.specs.Elements.{ReadsElement};
    ghost use Rattle.follow_filters.specs.KeptNames.{text_of_name};
    ghost use Rattle.follow_filters.specs.Patterns.{is_file_match, read_element};

    /// Reads a pattern of whole file names, or a suffix of them if the text has none of `*`, `?`,
    /// `[` and `]`. A class that is empty, unclosed, or has a range with its greater byte first is
    /// `Bad`.
    pub fn read(alloc: Global, text: &str) -> Result<Pattern, ElementFault>
        ensures { ReadsElement result (read_element text.now) }
    {
        let parts = Parts::read(alloc, text.as_bytes())?;
        Ok(Pattern {
            text: String::from_str(alloc, text)?,
            parts,
        })
    }

    /// Whether the pattern matches the file name; if `ignores_case`, letters of ASCII match in either
    /// case. Takes no memory.
    pub fn matches(&self, file: &str, ignores_case: bool) -> bool
        ensures { result ≡ is_file_match ignores_case self.now file.now }
    {
        self.parts.matches(file.as_bytes(), ignores_case)
    }

    // Whether the pattern matches the name, with its query or without.
    pub(crate) fn names(&self, name: KeptName<'_>, ignores_case: bool) -> bool
        ensures { result ≡ (is_file_match ignores_case self.now name.entry.file.now || is_file_match ignores_case self.now (text_of_name name.entry)) }
    {
        self.matches_file(name, ignores_case) || self.matches_full(name, ignores_case)
    }

    fn matches_file(&self, name: KeptName<'_>, ignores_case: bool) -> bool
        ensures { result ≡ is_file_match ignores_case self.now name.entry.file.now }
    {
        self.parts.matches(name.file(), ignores_case)
    }

    fn matches_full(&self, name: KeptName<'_>, ignores_case: bool) -> bool
        ensures { result ≡ is_file_match ignores_case self.now (text_of_name name.entry) }
    {
        self.parts.matches(name, ignores_case)
    }

    /// The pattern as it was read. Takes no memory.
    pub fn as_str(&self) -> &str
        ensures { result.now ≡ self.now }
    {
        self.text.as_str()
    }

    // An equal pattern.
    pub(crate) fn try_clone(&self) -> Result<Pattern, AllocError>
        ensures { IfOk result (λ copy. copy ≡ self.now) }
    {
        match Pattern::read(*self.text.allocator(), self.as_str()) {
            Ok(copy) => Ok(copy),
            Err(_) => Err(AllocError),
        }
    }
}

impl PatternPart {
    ghost use Rattle.std.specs.Prelude.{◌≡◌};
    ghost use Rattle.follow_filters.specs.Patterns.{unit_of};

    // A byte that is outside of a class.
    pub(crate) fn of(byte: u8) -> PatternPart
        ensures { result ≡ unit_of byte }
    {
        match byte {
            b'*' => PatternPart::Run,
            b'?' => PatternPart::Any,
            _ => PatternPart::Byte(byte),
        }
    }
}
