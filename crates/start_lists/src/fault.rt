//! Why a file of starts gives none: the line that is written in place of a report, and the status.
ghost use Rattle.std.specs.Prelude.{◌≡◌, ◌++◌, IfOk, codes, string_bytes};
ghost use Rattle.start_lists.specs.Faults.{list_words};

use options::LineFault;
use std::alloc::{AllocError, Global};
use streams::ReadInputFault;

/// Why a file of starts gives none. Lines are counted from 1; the first bad line is named.
#[derive(Clone, Copy, Debug, PartialEq, Eq)]
pub enum ListFault {
    /// What it is relative to is no address.
    Base,
    /// Standard input is to be both the list and the site.
    Input,
    /// It can't be read.
    Read,
    /// It has more lines, or more bytes, than a list may have.
    Long,
    /// This line is no address, or a robots file's.
    Line(usize),
    /// Memory ran out.
    Memory,
}

impl ListFault {
    ghost use Rattle.std.specs.Prelude.{◌≡◌};
    ghost use Rattle.start_lists.specs.Faults.{list_status};

    /// The status with which the run ends: 3 if the file can't be read, 1 if memory ran out, and else 2.
    pub fn status(&self) -> u8
        ensures { result ≡ list_status self.now }
    {
        match self {
            ListFault::Base | ListFault::Input | ListFault::Long | ListFault::Line(_) => 2,
            ListFault::Read => 3,
            ListFault::Memory => 1,
        }
    }
}

/// The line of a fault.
pub fn list_text(alloc: Global, fault: ListFault) -> Result<String, AllocError>
    ensures { IfOk result (λ text. string_bytes text ≡ list_words fault ++ codes "\n") }
{
    match fault {
        ListFault::Base => String::from_str(alloc, "list base\n"),
        ListFault::Input => String::from_str(alloc, "list input\n"),
        ListFault::Read => String::from_str(alloc, "list read\n"),
        ListFault::Long => String::from_str(alloc, "list long\n"),
        ListFault::Line(number) => format!(in alloc; "list line {number}\n"),
        ListFault::Memory => String::from_str(alloc, "stopped memory\n"),
    }
}

/// Why there are no starts.
#[derive(Clone, Copy, Debug, PartialEq, Eq)]
pub enum NoStarts {
    /// The words are refused, or request something else.
    Words(LineFault),
    /// The file that they name gives none.
    List(ListFault),
}

impl From<LineFault> for NoStarts {
    ghost use Rattle.std.specs.Prelude.{◌≡◌};
    ghost use Rattle.start_lists.specs.declared.fault.NoStarts.TheVariants.{Words};

    ghost from_gives = { λ wrong why. why ≡ Words wrong };

    fn from(wrong: LineFault) -> NoStarts {
        NoStarts::Words(wrong)
    }
}

impl From<ListFault> for NoStarts {
    ghost use Rattle.std.specs.Prelude.{◌≡◌};
    ghost use Rattle.start_lists.specs.declared.fault.NoStarts.TheVariants.{List};

    ghost from_gives = { λ wrong why. why ≡ List wrong };

    fn from(wrong: ListFault) -> NoStarts {
        NoStarts::List(wrong)
    }
}

impl From<AllocError> for NoStarts {
    ghost use Rattle.std.specs.Prelude.{◌≡◌};
    ghost use Rattle.start_lists.specs.declared.fault.NoStarts.TheVariants.{List};
    ghost use Rattle.start_lists.specs.declared.fault.ListFault.TheVariants.{Memory};

    ghost from_gives = { λ _ why. why ≡ List Memory };

    fn from(_: AllocError) -> NoStarts {
        NoStarts::List(ListFault::Memory)
    }
}

impl From<AllocError> for ListFault {
    ghost use Rattle.std.specs.Prelude.{◌≡◌};
    ghost use Rattle.start_lists.specs.declared.fault.ListFault.TheVariants.{Memory};

    ghost from_gives = { λ _ fault. fault ≡ Memory };

    fn from(_: AllocError) -> ListFault {
        ListFault::Memory
    }
}

impl From<ReadInputFault> for ListFault {
    ghost use Rattle.std.specs.Prelude.{◌≡◌};
    ghost use Rattle.start_lists.specs.Faults.{unread};

    ghost from_gives = { λ wrong fault. fault ≡ unread wrong };

    fn from(wrong: ReadInputFault) -> ListFault {
        match wrong {
            ReadInputFault::Long => ListFault::Long,
            ReadInputFault::Failed => ListFault::Read,
            ReadInputFault::Memory => ListFault::Memory,
        }
    }
}
