//! Files that one program at a time may lock.

use std::fs::{File, TryLockError};
use std::io;

/// A file that one program at a time may lock.
pub trait Locks {
    /// Locks the file for this program until it is closed, and returns whether that succeeded.
    fn lock_out(&self) -> io::Result<bool>;
}

impl Locks for File {
    fn lock_out(&self) -> io::Result<bool> {
        match self.try_lock() {
            Ok(()) => Ok(true),
            Err(TryLockError::WouldBlock) => Ok(false),
            Err(TryLockError::Error(error)) => Err(error),
        }
    }
}
