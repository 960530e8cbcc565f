//! The input: all bytes of a reader, up to a limit.
ghost use Rattle.std.specs.Prelude.{◌≡◌, ◌<◌, ◌≤◌, ℕ, List, length, IfOk, IfSome};
ghost use Rattle.streams.specs.Streams.{IsInput};

use crate::interruption::count_interrupted;
use std::alloc::{AllocError, Global};
use std::io::Read;

/// Why there is no input.
#[derive(Clone, Copy, Debug, PartialEq, Eq)]
pub enum ReadInputFault {
    /// There are more bytes than the limit.
    Long,
    /// The reader failed, or was interrupted too often.
    Failed,
    /// Memory ran out.
    Memory,
}

impl From<AllocError> for ReadInputFault {
    ghost use Rattle.std.specs.Prelude.{◌≡◌};
    ghost use Rattle.streams.specs.declared.input.ReadInputFault.TheVariants.{Memory};

    ghost from_gives = { λ _ fault. fault ≡ Memory };

    fn from(_: AllocError) -> ReadInputFault {
        ReadInputFault::Memory
    }
}

/// How many bytes are asked of a reader at once.
const PIECE: usize = 65_536;

/// Reads all there is. What was read of a reader that failed, or has too much, is dropped.
pub fn read_input<R: Read>(
    alloc: Global,
    reader: &mut R,
    limit: usize,
) -> Result<Vec<u8>, ReadInputFault>
    ensures whole { IfOk result (λ input. IsInput (R.remaining reader.old) input.items) }
    ensures within { IfOk result (λ input. length input.items ≤ limit) }
    ensures long { result ≡ Err ReadInputFault.Long → (input : List ℕ) × IsInput (R.remaining reader.old) input × (limit < length input) }
{
    let mut input = Vec::new(alloc);
    let mut piece = [0u8; PIECE];
    let mut interrupted = 0;
    'pieces: loop {
        match reader.read(&mut piece) {
            Ok(0) => return Ok(input),
            Ok(n) => {
                if n > limit - input.len() {
                    return Err(ReadInputFault::Long);
                }
                input.extend_from_slice(&piece[..n])?;
            }
            Err(error) => match count_interrupted(&error, interrupted) {
                Some(count) => interrupted = count,
                None => return Err(ReadInputFault::Failed),
            },
        }
    }
}
