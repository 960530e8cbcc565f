//! What writes no body, and counts its bytes.
ghost use Rattle.std.specs.Prelude.{◌≡◌, ◌+◌, ℕ, List, length, OnOk, IfOk};

use crate::part::{KeptPart, Standing};
use kept_bodies::{BodyKind, Keeper};
use std::alloc::AllocError;

/// Takes bodies of which nothing is to be written: they get no name, or their part is there already.
#[derive(Drop)]
pub struct PartCounter {
    worker: u32,
    number: u32,
    // What is there of a body.
    standing: Standing,
    len: u64,
}

impl PartCounter {
    /// Bodies that get no name: nothing is there of them. None was begun. Takes no memory.
    pub fn new() -> PartCounter {
        PartCounter {
            worker: u32::MAX,
            number: u32::MAX,
            standing: Standing::Lost,
            len: 0,
        }
    }

    // The body of a worker's part that is there already, in this way.
    pub(crate) fn of_part(worker: u32, number: u32, standing: Standing) -> PartCounter
        ensures { result.standing ≡ standing }
    {
        PartCounter {
            worker,
            number,
            standing,
            len: 0,
        }
    }
}

impl Keeper for PartCounter {
    type Kept = KeptPart;

    ghost use Rattle.part_keeper.specs.Parts.{holds_received};

    ghost holds = { holds_received };

    ghost begun = { λ keeper bytes. length bytes ≡ keeper.len };

    fn begin(&mut self) {
        self.len = 0;
    }

    fn note_changed(&mut self, _last_modified: Option<&[u8]>) {}

    fn add(&mut self, piece: &[u8]) -> Result<(), AllocError> {
        let Some(len) = self.len.checked_add(piece.len() as u64) else {
            return Err(AllocError);
        };
        self.len = len;
        Ok(())
    }

    fn finish(&mut self, kind: BodyKind) -> Result<KeptPart, AllocError> {
        Ok(KeptPart {
            worker: self.worker,
            number: self.number,
            kind,
            len: self.len,
            is_received: true,
            standing: self.standing,
        })
    }

    fn empty(&mut self) -> Result<KeptPart, AllocError> {
        Ok(KeptPart {
            worker: self.worker,
            number: self.number,
            kind: BodyKind::Other,
            len: 0,
            is_received: true,
            standing: Standing::Absent,
        })
    }
}
