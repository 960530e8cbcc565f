//! When a page changed, for its file (RFC 9110, section 8.8.2).
ghost use Rattle.std.specs.Prelude.{◌≡◌, option_map};
ghost use Rattle.part_keeper.specs.FileTimes.{time_of, time_said};

use httpdate::HttpDate;
use std::fs::{FileTimes, OpenFile};
use std::time::{Duration, SystemTime, UNIX_EPOCH};

/// The first second since 1970 that no file gets as its time, in 2106: disks and archives that count them in 32 bits take it for another.
pub(crate) const END_OF_TIMES: u64 = 4_294_967_296;

/// The time that the value of a `Last-Modified` says, in seconds since 1970, if it is a date that a file gets.
pub fn time_of(last_modified: &[u8]) -> Option<u64>
    ensures { result ≡ time_of last_modified.now }
{
    let Ok(date) = HttpDate::parse_ascii(last_modified) else {
        return None;
    };
    let seconds = date.unix_secs();
    if seconds < END_OF_TIMES {
        Some(seconds)
    } else {
        None
    }
}

// The seconds since 1970 that the file of a page gets as its time whose response says this, if it gets one.
fn time_said(takes_times: bool, last_modified: Option<&[u8]>) -> Option<u64>
    ensures { result ≡ time_said takes_times (option_map (λ value. value.now) last_modified.entry) }
{
    if takes_times {
        time_of(last_modified?)
    } else {
        None
    }
}

/// The time that the file of a page gets whose response has this `Last-Modified`, if it gets one.
pub(crate) fn file_time(takes_times: bool, last_modified: Option<&[u8]>) -> Option<SystemTime> {
    let seconds = time_said(takes_times, last_modified)?;
    UNIX_EPOCH.checked_add(Duration::from_secs(seconds))
}

/// Has a file say that it was changed at this time, if one is given. What the system refuses is left: a disk without times keeps the body
/// all the same.
pub(crate) fn set_time<F: OpenFile>(file: &F, time: Option<SystemTime>) {
    if let Some(time) = time {
        let _ = file.set_times(FileTimes::new().set_modified(time));
    }
}
