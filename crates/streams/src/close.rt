//! Closing a file, and what the system says of it. If a quota or a distant disk is full, that may be said only when
//! the file is closed; a file that is dropped says nothing of it.
use std::fs::File;
use std::io;
use std::io::{Error, ErrorKind};
use std::os::fd::IntoRawFd;

/// A file that can be closed with an answer. An implementation closes it whatever it answers.
pub trait Close {
    /// Closes the file. The error is that what was written may be lost.
    fn close(self) -> io::Result<()>;
}

impl Close for File {
    // An interrupted call has closed the file too, and nothing is known of what was written.
    fn close(self) -> io::Result<()> {
        match libc::close(self.into_raw_fd()) {
            0 => Ok(()),
            _ => Err(Error::from(ErrorKind::Other)),
        }
    }
}
