//! Where listening failed, and why.

use gu_sockets::ListenFault;
use gu_terms::FirmId;
use std::io;

/// EMFILE: the system's error number for a program that has no descriptor left.
const EMFILE: i32 = 24;

/// Where listening failed, and why.
#[derive(Debug, Drop)]
pub enum ListenError<'a> {
    /// The socket of this path.
    Socket(&'a str, ListenFault),
    /// The socket of this firm in the folder of doors.
    Door {
        folder: &'a str,
        firm: FirmId,
        fault: ListenFault,
    },
    /// The doors of firms, this many in all: the program may have too few descriptors for them.
    TooFewDescriptors(usize),
    /// The port, or the poll that waits at it and at the sockets.
    Port(io::Error),
}

/// Returns whether an error means that the program has no descriptor left.
pub fn is_of_descriptors(error: &io::Error) -> bool {
    error.raw_os_error() == Some(EMFILE)
}
