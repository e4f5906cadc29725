//! The sockets of operators at a desk that follows.

use crate::connection::Connection;
use crate::played::Played;
use gu_standby::{Attendance, Follower, LeadAnswer, Wish};
use std::alloc::Global;
use std::os::unix::net::{UnixListener, UnixStream};
use std::rt::Clock;
use std::time::Duration;
use std::{io, thread};

/// How many milliseconds come between two rounds over the connections.
const ROUND_MS: u64 = 20;

/// How many connections there may be at once. More are closed silently.
const MOST_CONNECTIONS: usize = 16;

/// The sockets at which operators connect.
#[derive(Drop)]
struct OperatorListeners {
    /// The console, if there is one.
    console: Option<UnixListener>,
    /// The socket for those who may only look, if there is one.
    watch: Option<UnixListener>,
}

impl OperatorListeners {
    /// Makes accepting not wait.
    fn set_nonblocking(&self) -> io::Result<()> {
        if let Some(console) = &self.console {
            console.set_nonblocking(true)?;
        }
        if let Some(watch) = &self.watch {
            watch.set_nonblocking(true)?;
        }
        Ok(())
    }

    /// Accepts a connection, if one is waiting, and returns whether it may only look.
    fn accept(&self) -> Option<(UnixStream, bool)> {
        if let Some(console) = &self.console
            && let Ok((stream, _)) = console.accept()
        {
            return Some((stream, false));
        }
        let (stream, _) = self.watch.as_ref()?.accept().ok()?;
        Some((stream, true))
    }
}

/// The sockets of operators at a desk that follows, with their connections.
#[derive(Drop)]
pub struct Lookout<'a, R> {
    rt: &'a R,
    alloc: Global,
    listeners: OperatorListeners,
    connections: Vec<Connection>,
}

impl<'a, R: Clock> Lookout<'a, R> {
    /// Creates the lookout of a console and of a socket for those who may only look, if there are such. They don't wait from now on.
    pub fn new(
        rt: &'a R,
        alloc: Global,
        console: Option<UnixListener>,
        watch: Option<UnixListener>,
    ) -> io::Result<Self> {
        let listeners = OperatorListeners { console, watch };
        listeners.set_nonblocking()?;
        Ok(Lookout {
            rt,
            alloc,
            listeners,
            connections: Vec::with_capacity(alloc, MOST_CONNECTIONS)?,
        })
    }

    /// Accepts the connections that are waiting. One that can't be kept is closed.
    fn accept_all(&mut self) {
        for _call in 0..MOST_CONNECTIONS {
            let Some((stream, is_watch)) = self.listeners.accept() else {
                break;
            };
            if self.connections.len() >= MOST_CONNECTIONS {
                drop(stream);
                continue;
            }
            if let Ok(connection) = Connection::new(self.rt, self.alloc, stream, is_watch) {
                let _ = self.connections.push(connection);
            }
        }
    }

    /// Accepts and answers what goes now without waiting, up to the first line that wishes something of the desk.
    fn round(&mut self, follower: &Follower) -> Option<Wish> {
        self.accept_all();
        let played = Played {
            book: follower.book(),
            batches: follower.count(),
        };
        let mut wish = None;
        for connection in &mut self.connections {
            if wish.is_none() {
                wish = connection.turn(self.rt, self.alloc, played);
            }
        }
        self.connections.retain(|connection| !connection.is_over());
        wish
    }

    /// Sends the last answers, closes the connections, and returns the console and the socket for those who may only look. Who connects there
    /// from now on waits.
    pub fn end(self) -> (Option<UnixListener>, Option<UnixListener>) {
        let Lookout {
            rt: _,
            alloc: _,
            listeners,
            connections,
        } = self;
        for connection in connections {
            connection.finish();
        }
        let OperatorListeners { console, watch } = listeners;
        (console, watch)
    }
}

impl<R: Clock> Attendance for Lookout<'_, R> {
    fn attend(&mut self, follower: &Follower, milliseconds: u64) -> Option<Wish> {
        let mut wish = self.round(follower);
        for _round in 0..milliseconds / ROUND_MS {
            if wish.is_some() {
                break;
            }
            thread::sleep(self.rt, Duration::from_millis(ROUND_MS));
            wish = self.round(follower);
        }
        wish
    }

    fn answer_lead(&mut self, answer: LeadAnswer) {
        for connection in &mut self.connections {
            connection.answer_lead(answer);
        }
    }
}
