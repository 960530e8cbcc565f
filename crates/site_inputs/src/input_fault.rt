//! Faults of an input that describes a site: the first bad line.
use address::AddressFault;
use std::alloc::{AllocError, AllocFailed};
use std::fmt;

/// Why a text describes no site. Lines are counted from 1; the first bad line is named.
#[derive(Clone, Copy, Debug, PartialEq, Eq)]
pub enum InputFault {
    /// This line isn't UTF-8, has no form, is out of place, or states something once more.
    Line(usize),
    /// An address of this line is refused.
    Address(usize),
    /// Memory ran out: over a line that has its form and its place, below good lines, or after
    /// the last line.
    Memory,
}

/// Writes `line N`, `address N` or `memory`.
impl fmt::Display for InputFault {
    ghost use Rattle.std.specs.Prelude.{Some};
    ghost use Rattle.site_inputs.specs.Faults.{fault_text};

    ghost output = { λ fault. Some (fault_text fault) };

    fn fmt<W: fmt::Write>(&self, f: &mut fmt::Formatter<W>) -> fmt::Result {
        match self {
            InputFault::Line(number) => write!(f, "line {number}"),
            InputFault::Address(number) => write!(f, "address {number}"),
            InputFault::Memory => write!(f, "memory"),
        }
    }
}

impl std::error::Error for InputFault {}

impl From<AllocError> for InputFault {
    ghost use Rattle.std.specs.Prelude.{◌≡◌};
    ghost use Rattle.site_inputs.specs.declared.input_fault.InputFault.TheVariants.{Memory};

    ghost from_gives = { λ _ fault. fault ≡ Memory };

    fn from(_error: AllocError) -> InputFault {
        InputFault::Memory
    }
}

/// What is wrong with a line.
#[derive(Clone, Copy, Debug, PartialEq, Eq)]
pub enum InputLineFault {
    /// It isn't UTF-8, has no form, is out of place, or states something once more.
    Line,
    /// One of its addresses is refused.
    Address,
    /// Memory ran out.
    Memory,
}

impl InputLineFault {
    ghost use Rattle.std.specs.Prelude.{◌≡◌};
    ghost use Rattle.site_inputs.specs.Faults.{numbered};

    /// The fault of the line of this number.
    pub fn at(self, number: usize) -> InputFault
        ensures { result ≡ numbered self number }
    {
        match self {
            InputLineFault::Line => InputFault::Line(number),
            InputLineFault::Address => InputFault::Address(number),
            InputLineFault::Memory => InputFault::Memory,
        }
    }
}

impl From<AddressFault> for InputLineFault {
    ghost use Rattle.std.specs.Prelude.{◌≡◌};
    ghost use Rattle.site_inputs.specs.Faults.{wrong_of};

    ghost from_gives = { λ refusal fault. fault ≡ wrong_of refusal };

    fn from(refusal: AddressFault) -> InputLineFault {
        match refusal {
            AddressFault::Memory => InputLineFault::Memory,
            _ => InputLineFault::Address,
        }
    }
}

impl<T: Drop> From<AllocFailed<T>> for InputLineFault {
    ghost use Rattle.std.specs.Prelude.{◌≡◌};
    ghost use Rattle.site_inputs.specs.declared.input_fault.InputLineFault.TheVariants.{Memory};

    ghost from_gives = { λ _ fault. fault ≡ Memory };

    fn from(_error: AllocFailed<T>) -> InputLineFault {
        InputLineFault::Memory
    }
}

impl From<AllocError> for InputLineFault {
    ghost use Rattle.std.specs.Prelude.{◌≡◌};
    ghost use Rattle.site_inputs.specs.declared.input_fault.InputLineFault.TheVariants.{Memory};

    ghost from_gives = { λ _ fault. fault ≡ Memory };

    fn from(_error: AllocError) -> InputLineFault {
        InputLineFault::Memory
    }
}
