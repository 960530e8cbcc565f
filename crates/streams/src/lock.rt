//! Files that one run at a time holds.
use std::fs::{File, TryLockError};
use std::io;

/// A file that can be held, so that no other run holds it too.
pub trait Lock {
    /// Whether it is held from now on, until it is closed: it isn't if another run holds it. The error is that the system has no
    /// such locks there.
    fn hold(&self) -> io::Result<bool>;
}

impl Lock for File {
    fn hold(&self) -> io::Result<bool> {
        match self.try_lock() {
            Ok(()) => Ok(true),
            Err(TryLockError::WouldBlock) => Ok(false),
            Err(TryLockError::Error(e)) => Err(e),
        }
    }
}
