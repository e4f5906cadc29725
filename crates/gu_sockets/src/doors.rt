//! The doors of a doorway.

ghost use Rattle.std.specs.Prelude.{◌≡◌, true, false, None, Ok, OnErr, IfOk, IfSome};
ghost use Rattle.gu_sockets.specs.Callers.{HasDoor};
ghost use Rattle.gu_sockets.specs.Doorways.{KeepsWays, door_count, is_any_due, is_door_due, is_open, is_there};

use crate::caller::Caller;
use crate::door::{Door, Listens};
use crate::firm_ways::FirmWays;
use mio::net::TcpListener;
use mio::{Events, Token, net};
use std::io;
use std::os::unix::net::UnixListener;

/// The token of the port.
pub const PORT: Token = Token(0);

/// The token of the console.
pub const CONSOLE: Token = Token(1);

/// The token of the socket for those who may only look.
pub const WATCH: Token = Token(2);

/// The number of the token of a firm's first door. Those of the others are one more each.
const FIRST_DOOR: usize = 3;

/// Returns the token of the firm's door of a number, from 0 on.
pub fn token_of_door(number: usize) -> Token {
    Token(number.saturating_add(FIRST_DOOR))
}

/// The doors of a doorway, as far as they are there.
#[derive(Drop)]
pub struct Doors {
    pub firms: FirmWays<TcpListener, net::UnixListener>,
    pub console: Option<Door<UnixListener>>,
    pub watch: Option<Door<UnixListener>>,
}

/// Returns whether a connection may be waiting at a door, if it is there.
fn is_door_due<L>(door: &Option<Door<L>>) -> bool
    ensures { result ≡ is_door_due door.now }
{
    match door {
        Some(door) => door.is_due(),
        None => false,
    }
}

/// Notes that a connection may be waiting at a door, if it is there.
fn note<L>(door: &mut Option<Door<L>>)
    ensures { is_door_due door.new ≡ is_there door.old }
{
    if let Some(door) = door {
        door.note();
    }
}

/// Accepts a connection of an operator at a door, if it is there and one is waiting.
pub fn accept_at<L: Listens>(door: &mut Option<Door<L>>) -> io::Result<Option<L::Accepted>>
    ensures { OnErr result (is_door_due door.new ≡ true) }
{
    match door {
        Some(door) => door.accept(),
        None => Ok(None),
    }
}

impl Doors {
    /// Notes that connections may be waiting at the doors that events name.
    pub fn note_all(&mut self, events: &Events)
        ensures ways { KeepsWays self.old self.new }
        ensures due { is_any_due self.old ≡ true → is_any_due self.new ≡ true }
    {
        for event in events {
            self.note(event.token());
        }
    }

    /// Notes that a connection may be waiting at the door of this token, if there is one.
    fn note(&mut self, token: Token)
        ensures ways { KeepsWays self.old self.new }
        ensures due { is_any_due self.old ≡ true → is_any_due self.new ≡ true }
    {
        if token == PORT {
            self.firms.note_port();
        } else if token == CONSOLE {
            note(&mut self.console);
        } else if token == WATCH {
            note(&mut self.watch);
        } else if token.0 >= FIRST_DOOR {
            self.firms.note_door(token.0 - FIRST_DOOR);
        }
    }

    /// Returns whether a connection may be waiting at any.
    pub fn is_due(&self) -> bool
        ensures { result ≡ is_any_due self.now }
    {
        self.firms.is_due() || is_door_due(&self.console) || is_door_due(&self.watch)
    }

    /// Accepts a connection of a firm, if one is waiting.
    pub fn accept(&mut self) -> io::Result<Option<Caller>>
        ensures ways { KeepsWays self.old self.new }
        ensures door { IfOk result (λ who. IfSome who (λ caller. HasDoor (door_count self.old) caller.stream caller.door)) }
        ensures closed { is_open self.old.firms ≡ false → result ≡ Ok None }
        ensures failed { OnErr result (is_any_due self.new ≡ true) }
    {
        match self.firms.accept()? {
            Some(arrival) => Ok(Some(Caller::of(arrival))),
            None => Ok(None),
        }
    }
}
