//! The doors of firms: sockets in one folder, each of which has the name of the firm that alone comes in by it.

ghost use Rattle.std.specs.Prelude.{◌≡◌, ◌++◌, ◌∷◌, [], IfOk};
ghost use Rattle.std.specs.String.{string_bytes};

use crate::listen_error::{ListenError, is_of_descriptors};
use gu_sockets::{ListenFault, listen_at};
use gu_terms::FirmId;
use std::alloc::Global;
use std::io::ErrorKind;
use std::net::Net;
use std::os::unix::net::UnixListener;
use std::rt::Files;
use std::{fs, io, str};

/// The doors of firms.
#[derive(Clone, Copy, Debug)]
pub struct FirmDoors<'a, 'f> {
    /// The folder of their sockets.
    pub folder: &'a str,
    /// The firms, in the order of the reference: the server takes the number of a door for the place of its firm there.
    pub firms: &'f [FirmId],
}

/// Returns the path of a firm's socket: the folder, a slash, and the firm's name.
fn path_of(alloc: Global, folder: &str, firm: &FirmId) -> io::Result<String>
    ensures { IfOk result (λ path. string_bytes path ≡ folder.now ++ (47 ∷ firm.now.name)) }
{
    let Ok(name) = str::from_utf8(firm.get()) else {
        return Err(io::Error::from(ErrorKind::InvalidData));
    };
    let mut path = String::from_str(alloc, folder)?;
    path.push('/')?;
    path.push_str(name)?;
    Ok(path)
}

/// The sockets that were made, and their paths.
#[derive(Drop)]
pub struct MadeDoors {
    pub listeners: Vec<UnixListener>,
    pub paths: Vec<String>,
}

impl MadeDoors {
    /// Creates an empty list of doors.
    pub fn new(alloc: Global) -> Self {
        MadeDoors {
            listeners: Vec::new(alloc),
            paths: Vec::new(alloc),
        }
    }

    /// Makes the socket of one more door.
    fn make<R: Files + Net>(&mut self, rt: &R, path: String) -> Result<(), ListenFault> {
        self.paths.reserve(1).map_err(io::Error::from)?;
        self.listeners.reserve(1).map_err(io::Error::from)?;
        let listener = listen_at(rt, path.as_str())?;
        self.paths.push_reserved(path);
        self.listeners.push_reserved(listener);
        Ok(())
    }
}

/// Removes the sockets at these paths. One that can't be removed is dead from now on, and the next desk replaces it.
pub fn remove_all<R: Files>(rt: &R, paths: &[String]) {
    for path in paths {
        let _ = fs::remove_file(rt, path.as_str());
    }
}

impl<'a, 'f> FirmDoors<'a, 'f> {
    /// Makes the socket of a firm.
    fn make_one<R: Files + Net>(
        self,
        rt: &R,
        alloc: Global,
        made: &mut MadeDoors,
        firm: &FirmId,
    ) -> Result<(), ListenFault> {
        let path = path_of(alloc, self.folder, firm)?;
        made.make(rt, path)
    }

    /// Returns the error for a fault at a firm's socket.
    fn error_of(self, firm: FirmId, fault: ListenFault) -> ListenError<'a> {
        match fault {
            ListenFault::Io(error) if is_of_descriptors(&error) => {
                ListenError::TooFewDescriptors(self.firms.len())
            }
            fault => ListenError::Door {
                folder: self.folder,
                firm,
                fault,
            },
        }
    }

    /// Makes the sockets, in the order of the firms. If one can't be made, those already made are removed.
    pub fn make<R: Files + Net>(self, rt: &R, alloc: Global) -> Result<MadeDoors, ListenError<'a>> {
        let mut made = MadeDoors::new(alloc);
        for firm in self.firms {
            if let Err(fault) = self.make_one(rt, alloc, &mut made, firm) {
                remove_all(rt, &made.paths);
                drop(made);
                return Err(self.error_of(*firm, fault));
            }
        }
        Ok(made)
    }
}
