//! Why a record can't be resumed, or none may be saved: the line that is written in place of a report, and the status.
ghost use Rattle.std.specs.Prelude.{◌≡◌, ◌++◌, IfOk, codes, string_bytes};
ghost use Rattle.retriever.specs.Resuming.{resume_status, resume_words};
ghost use Rattle.retriever.specs.declared.resume_fault.ResumeFault.TheVariants.{Input, Read};

use crate::fault::with_newline;
use site_inputs::InputFault;
use std::alloc::{AllocError, Global};
use streams::ReadInputFault;

/// Why a run doesn't go on from a record.
#[derive(Clone, Copy)]
pub(crate) enum ResumeFault {
    /// The file can't be read, or memory ran out.
    Read(ReadInputFault),
    /// What it holds is no record, or memory ran out.
    Input(InputFault),
    /// Nothing may be saved at the place where the run is to save.
    Refused,
    /// The run is to go on from what is in its folder, and can't.
    Discontinued,
}

/// The status with which the run ends: 3 if the file can't be read or none may be saved, 2 if it holds no record that can be resumed, or
/// what is in the folder can't be gone on with, 1 if memory ran out.
pub(crate) fn resume_status(fault: ResumeFault) -> u8
    ensures { result ≡ resume_status fault }
{
    match fault {
        ResumeFault::Read(ReadInputFault::Failed) => 3,
        ResumeFault::Read(ReadInputFault::Long) => 2,
        ResumeFault::Read(ReadInputFault::Memory) => 1,
        ResumeFault::Input(InputFault::Line(_) | InputFault::Address(_)) => 2,
        ResumeFault::Input(InputFault::Memory) => 1,
        ResumeFault::Refused => 3,
        ResumeFault::Discontinued => 2,
    }
}

// The words for a file that can't be had.
fn reading_words(wrong: ReadInputFault) -> &'static str
    ensures { result.now ≡ resume_words (Read wrong) }
{
    match wrong {
        ReadInputFault::Failed => "resume read",
        ReadInputFault::Long => "resume long",
        ReadInputFault::Memory => "stopped memory",
    }
}

// The line of what is wrong with a record.
fn record_text(alloc: Global, wrong: InputFault) -> Result<String, AllocError>
    ensures { IfOk result (λ text. string_bytes text ≡ resume_words (Input wrong) ++ codes "\n") }
{
    match wrong {
        InputFault::Line(number) => format!(in alloc; "resume line {number}\n"),
        InputFault::Address(number) => format!(in alloc; "resume address {number}\n"),
        InputFault::Memory => with_newline(alloc, "stopped memory"),
    }
}

/// The line of a fault.
pub(crate) fn resume_text(alloc: Global, fault: ResumeFault) -> Result<String, AllocError>
    ensures { IfOk result (λ text. string_bytes text ≡ resume_words fault ++ codes "\n") }
{
    let words = match fault {
        ResumeFault::Read(wrong) => reading_words(wrong),
        ResumeFault::Input(wrong) => return record_text(alloc, wrong),
        ResumeFault::Refused => "record not written",
        ResumeFault::Discontinued => "not continued",
    };
    with_newline(alloc, words)
}

impl From<ReadInputFault> for ResumeFault {
    ghost use Rattle.std.specs.Prelude.{◌≡◌};
    ghost use Rattle.retriever.specs.declared.resume_fault.ResumeFault.TheVariants.{Read};

    ghost from_gives = { λ wrong fault. fault ≡ Read wrong };

    fn from(wrong: ReadInputFault) -> ResumeFault {
        ResumeFault::Read(wrong)
    }
}

impl From<InputFault> for ResumeFault {
    ghost use Rattle.std.specs.Prelude.{◌≡◌};
    ghost use Rattle.retriever.specs.declared.resume_fault.ResumeFault.TheVariants.{Input};

    ghost from_gives = { λ wrong fault. fault ≡ Input wrong };

    fn from(wrong: InputFault) -> ResumeFault {
        ResumeFault::Input(wrong)
    }
}

impl From<AllocError> for ResumeFault {
    ghost use Rattle.std.specs.Prelude.{◌≡◌};
    ghost use Rattle.retriever.specs.declared.resume_fault.ResumeFault.TheVariants.{Read};
    ghost use Rattle.streams.specs.declared.input.ReadInputFault.TheVariants.{Memory};

    ghost from_gives = { λ _ fault. fault ≡ Read Memory };

    fn from(_: AllocError) -> ResumeFault {
        ResumeFault::Read(ReadInputFault::Memory)
    }
}
