//! The output: a text that is written whole, or in part if the writer fails.
ghost use Rattle.std.specs.Prelude.{◌<◌, ◌≤◌, IfOk, OnOk, OnErr};
ghost use Rattle.std.specs.Io.KnownBytes.{Appends, Keeps};
ghost use Rattle.streams.specs.Streams.{AppendsFront};

use crate::interruption::{MAX_INTERRUPTED, count_interrupted};
use std::io::Write;

/// The writer failed, took nothing, or was interrupted too often.
#[derive(Clone, Copy, Debug, PartialEq, Eq)]
pub struct WriteFailed;

// Writes a part of a text, before which calls were interrupted so often, and gives their number with those of this part. If
// the writer fails, a front of the part may be written.
pub(crate) fn write_part<W: Write>(
    writer: &mut W,
    part: &[u8],
    interrupted: u32,
) -> Result<u32, WriteFailed>
    requires { interrupted < MAX_INTERRUPTED }
    ensures few { IfOk result (λ count. count < MAX_INTERRUPTED) }
    ensures counted { IfOk result (λ count. interrupted ≤ count) }
    ensures ok { OnOk result (Appends (W.contents writer.old) (W.contents writer.new) part.now) }
    ensures err { OnErr result (AppendsFront (W.contents writer.old) (W.contents writer.new) part.now) }
{
    let mut rest = part;
    let mut interrupted = interrupted;
    'pieces: while !rest.is_empty() {
        match writer.write(rest) {
            Ok(0) => return Err(WriteFailed),
            Ok(n) => rest = &rest[n..],
            Err(error) => match count_interrupted(&error, interrupted) {
                Some(count) => interrupted = count,
                None => return Err(WriteFailed),
            },
        }
    }
    Ok(interrupted)
}

// Flushes what was written.
pub(crate) fn flush<W: Write>(writer: &mut W) -> Result<(), WriteFailed>
    ensures { Keeps (W.contents writer.old) (W.contents writer.new) }
{
    match writer.flush() {
        Ok(()) => Ok(()),
        Err(_) => Err(WriteFailed),
    }
}

/// Writes the text and flushes it. If the writer fails, a front of the text may be written.
pub fn write_text<W: Write>(writer: &mut W, text: &[u8]) -> Result<(), WriteFailed>
    ensures ok { OnOk result (Appends (W.contents writer.old) (W.contents writer.new) text.now) }
    ensures err { OnErr result (AppendsFront (W.contents writer.old) (W.contents writer.new) text.now) }
{
    write_part(writer, text, 0)?;
    flush(writer)
}
