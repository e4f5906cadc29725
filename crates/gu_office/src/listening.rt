//! The ways in for firms and operators: the port, the doors of firms, and the sockets of operators.

use crate::firm_doors::{FirmDoors, MadeDoors, remove_all};
use crate::listen_error::{ListenError, is_of_descriptors};
use gu_server::Front;
use gu_sockets::{Doorway, Listeners, listen_at};
use std::alloc::Global;
use std::net::{Net, TcpListener, TcpStream};
use std::os::unix::net::UnixListener;
use std::rt::Files;
use std::{fs, io};

/// The ways in for firms and operators.
#[derive(Clone, Copy, Debug)]
pub struct Addresses<'a, 'f> {
    /// The port of this machine for firms, if one is to be open.
    pub port: Option<u16>,
    /// The doors of firms, if there are any.
    pub doors: Option<FirmDoors<'a, 'f>>,
    /// The path of the socket of operators, if there is one.
    pub console: Option<&'a str>,
    /// The path of the socket for those who may only look, if there is one.
    pub watch: Option<&'a str>,
}

/// The sockets of operators.
#[derive(Drop)]
pub struct OperatorSockets {
    /// The console, if there is one.
    pub console: Option<UnixListener>,
    /// The socket for those who may only look, if there is one.
    pub watch: Option<UnixListener>,
}

/// Returns a socket at a path, if one is named.
fn socket_at<'a, R: Files + Net>(
    rt: &R,
    path: Option<&'a str>,
) -> Result<Option<UnixListener>, ListenError<'a>> {
    let Some(path) = path else {
        return Ok(None);
    };
    match listen_at(rt, path) {
        Ok(listener) => Ok(Some(listener)),
        Err(fault) => Err(ListenError::Socket(path, fault)),
    }
}

/// Removes the socket at a path, if one is named. One that can't be removed is dead from now on, and the next desk replaces it.
fn remove<R: Files>(rt: &R, path: Option<&str>) {
    if let Some(path) = path {
        let _ = fs::remove_file(rt, path);
    }
}

/// Returns the sockets of the doors of firms, if there are any.
fn doors_of<'a, 'f, R: Files + Net>(
    rt: &R,
    alloc: Global,
    doors: Option<FirmDoors<'a, 'f>>,
) -> Result<MadeDoors, ListenError<'a>> {
    match doors {
        Some(doors) => doors.make(rt, alloc),
        None => Ok(MadeDoors::new(alloc)),
    }
}

impl<'a, 'f> Addresses<'a, 'f> {
    /// Listens at the port, if one is to be open, beside these sockets.
    fn front_of<R: Net<Listener = TcpListener, Stream = TcpStream>>(
        &self,
        rt: &R,
        alloc: Global,
        operators: OperatorSockets,
        doors: Vec<UnixListener>,
    ) -> io::Result<Front<Doorway>> {
        let OperatorSockets { console, watch } = operators;
        let port = match self.port {
            Some(port) => Some(TcpListener::bind(rt, ("127.0.0.1", port))?),
            None => None,
        };
        let listeners = Listeners {
            port,
            doors,
            console,
            watch,
        };
        let (door, bell) = Doorway::new(rt, alloc, listeners)?;
        Ok(Front { door, bell })
    }

    /// Returns the error to report for a failure after the sockets were made.
    fn error_of(&self, error: io::Error) -> ListenError<'a> {
        match self.doors {
            Some(doors) if is_of_descriptors(&error) => {
                ListenError::TooFewDescriptors(doors.firms.len())
            }
            _ => ListenError::Port(error),
        }
    }

    /// Listens at the doors of firms and then at the port, beside the sockets of operators.
    fn listen_for_firms<R: Files + Net<Listener = TcpListener, Stream = TcpStream>>(
        &self,
        rt: &R,
        alloc: Global,
        operators: OperatorSockets,
    ) -> Result<Front<Doorway>, ListenError<'a>> {
        let MadeDoors { listeners, paths } = match doors_of(rt, alloc, self.doors) {
            Ok(made) => made,
            Err(error) => return Err(error),
        };
        match self.front_of(rt, alloc, operators, listeners) {
            Ok(front) => Ok(front),
            Err(error) => {
                remove_all(rt, &paths);
                Err(self.error_of(error))
            }
        }
    }

    /// Listens at the console, and then at the socket for those who may only look. If one of them can't be opened, none stays.
    pub fn listen_for_operators<R: Files + Net>(
        &self,
        rt: &R,
    ) -> Result<OperatorSockets, ListenError<'a>> {
        let console = match socket_at(rt, self.console) {
            Ok(console) => console,
            Err(error) => return Err(error),
        };
        match socket_at(rt, self.watch) {
            Ok(watch) => Ok(OperatorSockets { console, watch }),
            Err(error) => {
                drop(console);
                remove(rt, self.console);
                Err(error)
            }
        }
    }

    /// Listens at the doors of firms and then at the port, beside these sockets of operators. If one of them can't be opened, the sockets
    /// already made are removed, those of operators too. Otherwise they stay, even after the day: a dead one is replaced by the next desk.
    pub fn listen_beside<R: Files + Net<Listener = TcpListener, Stream = TcpStream>>(
        &self,
        rt: &R,
        alloc: Global,
        operators: OperatorSockets,
    ) -> Result<Front<Doorway>, ListenError<'a>> {
        let front = self.listen_for_firms(rt, alloc, operators);
        if front.is_err() {
            remove(rt, self.watch);
            remove(rt, self.console);
        }
        front
    }

    /// Listens at the console, then at the socket for those who may only look, then at the doors of firms, and then at the port. If one of
    /// them can't be opened, the sockets already made are removed. Otherwise they stay, even after the day: a dead one is replaced
    /// by the next desk.
    pub fn listen<R: Files + Net<Listener = TcpListener, Stream = TcpStream>>(
        &self,
        rt: &R,
        alloc: Global,
    ) -> Result<Front<Doorway>, ListenError<'a>> {
        let operators = match self.listen_for_operators(rt) {
            Ok(operators) => operators,
            Err(error) => return Err(error),
        };
        self.listen_beside(rt, alloc, operators)
    }
}
