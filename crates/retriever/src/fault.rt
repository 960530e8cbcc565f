//! Faults of a run: the line that is written in place of a report, and the status.
ghost use Rattle.std.specs.Prelude.{◌≡◌, ◌++◌, IfOk, codes, string_bytes, if◌then◌else◌};
ghost use Rattle.retriever.specs.declared.fault.Fault.TheVariants.{Line};
ghost use Rattle.options.specs.Asked.{asks};
ghost use Rattle.retriever.specs.Run.{start_words, line_words, reading_words, input_words, fault_text, wrong_status};

use address::AddressFault;
use options::{LineFault, advice_text};
use site_inputs::InputFault;
use std::alloc::{AllocError, Global};
use streams::ReadInputFault;

/// Why a run has no report.
#[derive(Clone, Copy)]
pub(crate) enum Fault {
    /// The words are no order, or request the help or the version.
    Line(LineFault),
    /// A word of the command line isn't UTF-8.
    NotText,
    /// The words order a site on the network.
    NoSite,
    /// The input can't be had.
    Read(ReadInputFault),
    /// The input is no map, or no record.
    Input(InputFault),
    /// Memory ran out.
    Memory,
}

impl Fault {
    ghost use Rattle.std.specs.Prelude.{◌≡◌};
    ghost use Rattle.retriever.specs.Run.{fault_status};

    /// The status with which a run ends: 0 if the words request the help or the version, 2 for what else they or the input say, and
    /// else 1.
    pub(crate) fn status(&self) -> u8
        ensures { result ≡ fault_status self.now }
    {
        match self {
            Fault::Line(wrong) => line_status(*wrong),
            Fault::NotText | Fault::NoSite | Fault::Read(ReadInputFault::Long) => 2,
            Fault::Read(ReadInputFault::Failed | ReadInputFault::Memory) => 1,
            Fault::Input(InputFault::Memory) => 1,
            Fault::Input(InputFault::Line(_) | InputFault::Address(_)) => 2,
            Fault::Memory => 1,
        }
    }
}

// The status of words that are no order.
fn line_status(wrong: LineFault) -> u8
    ensures { result ≡ if asks wrong then 0 else wrong_status wrong }
{
    if wrong.asks() {
        return 0;
    }
    match wrong {
        LineFault::Memory | LineFault::Start(AddressFault::Memory) => 1,
        _ => 2,
    }
}

// The words for a start that is no address.
fn start_words(refused: AddressFault) -> &'static str
    ensures { result.now ≡ start_words refused }
{
    match refused {
        AddressFault::TooLong => "line start too-long",
        AddressFault::NotUrl => "line start not-url",
        AddressFault::NotHttp => "line start not-http",
        AddressFault::UserInfo => "line start user-info",
        AddressFault::Memory => "stopped memory",
    }
}

// The words for what is wrong with a command line.
fn line_words(wrong: LineFault) -> &'static str
    ensures { result.now ≡ line_words wrong }
{
    match wrong {
        LineFault::Words(_) | LineFault::NoProxy | LineFault::ProxyUser | LineFault::FarProxy =>
            "line words",
        LineFault::Login
        | LineFault::Agent
        | LineFault::Referer
        | LineFault::Header
        | LineFault::Fields => "line words",
        LineFault::Depth => "line depth",
        LineFault::Pattern | LineFault::Expression(_) | LineFault::LargeExpression => {
            "line pattern"
        }
        LineFault::Directory => "line directory",
        LineFault::Domain => "line domain",
        LineFault::Tags => "line tags",
        LineFault::Start(refused) => start_words(refused),
        LineFault::StartIsRobots => "line start-robots",
        LineFault::Memory => "stopped memory",
    }
}

// The words for an input that can't be had.
fn reading_words(wrong: ReadInputFault) -> &'static str
    ensures { result.now ≡ reading_words wrong }
{
    match wrong {
        ReadInputFault::Long => "input long",
        ReadInputFault::Failed => "input read",
        ReadInputFault::Memory => "stopped memory",
    }
}

// The line of what is wrong with an input.
fn input_text(alloc: Global, wrong: InputFault) -> Result<String, AllocError>
    ensures { IfOk result (λ text. string_bytes text ≡ input_words wrong ++ codes "\n") }
{
    match wrong {
        InputFault::Line(number) => format!(in alloc; "input line {number}\n"),
        InputFault::Address(number) => format!(in alloc; "input address {number}\n"),
        InputFault::Memory => with_newline(alloc, "stopped memory"),
    }
}

// What the words request, or the line of what is wrong with them.
fn line_text(alloc: Global, wrong: LineFault) -> Result<String, AllocError>
    ensures { IfOk result (λ text. string_bytes text ≡ fault_text (Line wrong)) }
{
    if wrong.asks() {
        return advice_text(alloc, wrong, &[]);
    }
    with_newline(alloc, line_words(wrong))
}

/// The line of a fault, or the help, or name and version, if the words request it.
pub(crate) fn fault_text(alloc: Global, fault: Fault) -> Result<String, AllocError>
    ensures { IfOk result (λ text. string_bytes text ≡ fault_text fault) }
{
    let words = match fault {
        Fault::Line(wrong) => return line_text(alloc, wrong),
        Fault::NotText => "line words",
        Fault::NoSite => "line no-site",
        Fault::Read(wrong) => reading_words(wrong),
        Fault::Input(wrong) => return input_text(alloc, wrong),
        Fault::Memory => "stopped memory",
    };
    with_newline(alloc, words)
}

/// One line of words.
pub(crate) fn with_newline(alloc: Global, words: &str) -> Result<String, AllocError>
    ensures { IfOk result (λ text. string_bytes text ≡ words.now ++ codes "\n") }
{
    format!(in alloc; "{words}\n")
}

impl From<LineFault> for Fault {
    ghost use Rattle.std.specs.Prelude.{◌≡◌};
    ghost use Rattle.retriever.specs.declared.fault.Fault.TheVariants.{Line};

    ghost from_gives = { λ wrong fault. fault ≡ Line wrong };

    fn from(wrong: LineFault) -> Fault {
        Fault::Line(wrong)
    }
}

impl From<ReadInputFault> for Fault {
    ghost use Rattle.std.specs.Prelude.{◌≡◌};
    ghost use Rattle.retriever.specs.declared.fault.Fault.TheVariants.{Read};

    ghost from_gives = { λ wrong fault. fault ≡ Read wrong };

    fn from(wrong: ReadInputFault) -> Fault {
        Fault::Read(wrong)
    }
}

impl From<InputFault> for Fault {
    ghost use Rattle.std.specs.Prelude.{◌≡◌};
    ghost use Rattle.retriever.specs.declared.fault.Fault.TheVariants.{Input};

    ghost from_gives = { λ wrong fault. fault ≡ Input wrong };

    fn from(wrong: InputFault) -> Fault {
        Fault::Input(wrong)
    }
}

impl From<AllocError> for Fault {
    ghost use Rattle.std.specs.Prelude.{◌≡◌};
    ghost use Rattle.retriever.specs.declared.fault.Fault.TheVariants.{Memory};

    ghost from_gives = { λ _ fault. fault ≡ Memory };

    fn from(_: AllocError) -> Fault {
        Fault::Memory
    }
}
