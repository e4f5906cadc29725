//! Listening at a path, for the user alone that the desk runs as.

use crate::listen_fault::ListenFault;
use mio::net::UnixStream;
use std::fs::{Files, Permissions};
use std::io::ErrorKind;
use std::net::Net;
use std::os::unix::fs::{FileTypeExt, PermissionsExt};
use std::os::unix::net::UnixListener;
use std::{fs, io};

/// The mode of a socket: its owner alone may connect.
const OWNER_ONLY: u32 = 0o600;

/// Listens at a path. A socket there that nobody answers any more is replaced.
pub fn listen_at<R: Files + Net>(rt: &R, path: &str) -> Result<UnixListener, ListenFault> {
    clear(rt, path)?;
    let listener = bind(rt, path)?;
    if let Err(error) = fs::set_permissions(rt, path, Permissions::from_mode(OWNER_ONLY)) {
        let _ = fs::remove_file(rt, path);
        return Err(ListenFault::Io(error));
    }
    Ok(listener)
}

/// Clears a path: removes a socket there that nobody answers any more.
fn clear<R: Files + Net>(rt: &R, path: &str) -> Result<(), ListenFault> {
    match fs::symlink_metadata(rt, path) {
        Ok(found) if found.file_type().is_socket() => remove_dead(rt, path),
        Ok(_) => Err(ListenFault::NotASocket),
        Err(error) => Ok(unless_absent(error)?),
    }
}

/// Removes a socket that nobody answers any more.
fn remove_dead<R: Files + Net>(rt: &R, path: &str) -> Result<(), ListenFault> {
    // A desk that has no room for one more connection lives, too: this connect doesn't wait for it.
    let Err(error) = UnixStream::connect(rt, path) else {
        return Err(ListenFault::InUse);
    };
    match error.kind() {
        ErrorKind::WouldBlock => Err(ListenFault::InUse),
        ErrorKind::ConnectionRefused => remove(rt, path),
        _ => Ok(unless_absent(error)?),
    }
}

/// Removes a socket, if it is still there.
fn remove<R: Files>(rt: &R, path: &str) -> Result<(), ListenFault> {
    match fs::remove_file(rt, path) {
        Ok(()) => Ok(()),
        Err(error) => Ok(unless_absent(error)?),
    }
}

/// Returns the error, unless it says that nothing is at the path.
fn unless_absent(error: io::Error) -> io::Result<()> {
    if error.kind() == ErrorKind::NotFound {
        return Ok(());
    }
    Err(error)
}

/// Makes a listening socket at a path at which there is nothing.
fn bind<R: Files + Net>(rt: &R, path: &str) -> Result<UnixListener, ListenFault> {
    match UnixListener::bind(rt, path) {
        Ok(listener) => Ok(listener),
        // Another desk was quicker.
        Err(error) if error.kind() == ErrorKind::AddrInUse => Err(ListenFault::InUse),
        Err(error) => Err(ListenFault::Io(error)),
    }
}
