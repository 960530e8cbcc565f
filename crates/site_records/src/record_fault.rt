//! Why a record wasn't written whole.
ghost use Rattle.std.specs.Prelude.{◌≡◌};
ghost use Rattle.site_records.specs.declared.record_fault.RecordFault.TheVariants.{Device, Memory};

use std::alloc::AllocError;
use streams::WriteFailed;
use thiserror::Error;

/// Why a record wasn't written whole.
#[derive(Clone, Copy, Debug, PartialEq, Eq, Error)]
pub enum RecordFault {
    /// The writer failed. A front of the record may be written.
    #[error("the record can't be written")]
    Device,
    /// Memory ran out before anything was written.
    #[error("out of memory")]
    Memory,
}

impl From<WriteFailed> for RecordFault {
    ghost from_gives = { λ _ fault. fault ≡ Device };

    fn from(_: WriteFailed) -> RecordFault {
        RecordFault::Device
    }
}

impl From<AllocError> for RecordFault {
    ghost from_gives = { λ _ fault. fault ≡ Memory };

    fn from(_: AllocError) -> RecordFault {
        RecordFault::Memory
    }
}
