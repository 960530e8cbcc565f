//! What is wrong with an entry of a record, and in which of its lines.
use site_inputs::{InputFault, InputLineFault};
use std::alloc::{AllocError, AllocFailed};

/// What is wrong with an entry.
#[derive(Clone, Copy)]
pub(crate) enum EntryFault {
    /// This, in its own line.
    Own(InputLineFault),
    /// This, in the line of the hop that has this many others of its chain before it.
    Hop(usize, InputLineFault),
}

impl EntryFault {
    ghost use Rattle.std.specs.Prelude.{◌≡◌, ◌<◌, ◌+◌, ◌^◌};
    ghost use Rattle.site_records.specs.inner.Readings.{fault_at, lines_to};

    /// The fault of the entry whose own line has this number.
    pub(crate) fn at(self, number: usize) -> InputFault
        requires { number + lines_to self < 2 ^ 64 }
        ensures { result ≡ fault_at self number }
    {
        match self {
            EntryFault::Own(fault) => fault.at(number),
            EntryFault::Hop(place, fault) => fault.at(number + place + 1),
        }
    }
}

impl From<InputLineFault> for EntryFault {
    ghost use Rattle.std.specs.Prelude.{◌≡◌};
    ghost use Rattle.site_records.specs.declared.entry_fault.EntryFault.TheVariants.{Own};

    ghost from_gives = { λ wrong fault. fault ≡ Own wrong };

    fn from(wrong: InputLineFault) -> EntryFault {
        EntryFault::Own(wrong)
    }
}

impl<T: Drop> From<AllocFailed<T>> for EntryFault {
    ghost use Rattle.std.specs.Prelude.{◌≡◌};
    ghost use Rattle.site_inputs.specs.declared.input_fault.InputLineFault.TheVariants.{Memory};
    ghost use Rattle.site_records.specs.declared.entry_fault.EntryFault.TheVariants.{Own};

    ghost from_gives = { λ _ fault. fault ≡ Own Memory };

    fn from(_error: AllocFailed<T>) -> EntryFault {
        EntryFault::Own(InputLineFault::Memory)
    }
}

impl From<AllocError> for EntryFault {
    ghost use Rattle.std.specs.Prelude.{◌≡◌};
    ghost use Rattle.site_inputs.specs.declared.input_fault.InputLineFault.TheVariants.{Memory};
    ghost use Rattle.site_records.specs.declared.entry_fault.EntryFault.TheVariants.{Own};

    ghost from_gives = { λ _ fault. fault ≡ Own Memory };

    fn from(_error: AllocError) -> EntryFault {
        EntryFault::Own(InputLineFault::Memory)
    }
}
