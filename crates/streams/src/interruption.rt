//! Interrupted reads and writes, which are made again up to a limit.
ghost use Rattle.std.specs.Prelude.{◌≡◌, ◌+◌, ◌<◌, ◌≤◌, IfSome, IfNone};
ghost use Rattle.std.specs.IoError.{error_kind};

use std::io::{Error, ErrorKind};

/// The number of interrupted calls at which a stream counts as failed.
pub const MAX_INTERRUPTED: u32 = 1_000;

/// The number of interrupted calls with this one, if it was interrupted and may be made again.
pub(crate) fn count_interrupted(error: &Error, interrupted: u32) -> Option<u32>
    requires { interrupted < MAX_INTERRUPTED }
    ensures again { IfSome result (λ count. (error_kind error.now ≡ ErrorKind.Interrupted)
        × (count ≡ interrupted + 1) × (count < MAX_INTERRUPTED)) }
    ensures fails { IfNone result (error_kind error.now ≡ ErrorKind.Interrupted → MAX_INTERRUPTED ≤ interrupted + 1) }
{
    let count = interrupted + 1;
    if error.kind() == ErrorKind::Interrupted && count < MAX_INTERRUPTED {
        Some(count)
    } else {
        None
    }
}
