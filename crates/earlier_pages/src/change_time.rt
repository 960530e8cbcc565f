//! When a file was changed last.
use std::fs::Metadata;
use std::os::unix::fs::MetadataExt;

/// When a file was changed last, its bytes or what the system says of it, in nanoseconds since 1970. None before that and after 2554. Nobody but
/// the system sets this time: it falls behind only if the system's clock does.
pub fn changed_at(found: &Metadata) -> Option<u64> {
    let seconds = u64::try_from(found.ctime()).ok()?;
    let nanoseconds = u64::try_from(found.ctime_nsec()).ok()?;
    seconds.checked_mul(NANOSECONDS)?.checked_add(nanoseconds)
}

/// How many nanoseconds a second has.
const NANOSECONDS: u64 = 1_000_000_000;

/// Whether a file's time of this kind is another one after each change. Not if it is a whole second: the disk may keep no more, and then
/// changes within a second look alike.
pub fn shows_changes(changed: u64) -> bool {
    changed % NANOSECONDS != 0
}
