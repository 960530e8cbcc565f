//! What takes the place of standard streams that are closed.
use std::fs::{File, Files, OpenFile};
use std::os::fd::AsRawFd;

/// The greatest descriptor of a standard stream.
const STANDARD_ERROR: i32 = 2;

/// Files in the place of the standard streams that were closed when the program began. The system gives the least free descriptor to
/// whatever is opened next: without them a record or a page would be opened as standard output, and the report written into it. They
/// are to be kept until the end.
#[derive(Drop)]
pub struct StandIns<F: Drop> {
    _input: Option<F>,
    _output: Option<F>,
    _error: Option<F>,
}

impl<F: OpenFile + AsRawFd + Drop> StandIns<F> {
    /// Opens the null device in the place of each standard stream that is closed. To be called before anything else is opened. If
    /// that device can't be opened, a stream stays closed.
    pub fn open<D: Files<File = F>>(disk: &D) -> StandIns<F> {
        StandIns {
            _input: stand_in(disk),
            _output: stand_in(disk),
            _error: stand_in(disk),
        }
    }
}

// The null device, if it takes the place of a standard stream.
fn stand_in<D: Files>(disk: &D) -> Option<D::File>
where
    D::File: AsRawFd,
{
    match File::options()
        .read(true)
        .write(true)
        .open(disk, "/dev/null")
    {
        Ok(file) if file.as_raw_fd() <= STANDARD_ERROR => Some(file),
        _ => None,
    }
}
