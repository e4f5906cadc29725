//! The ways in for connections: the port, and the sockets of operators.

ghost use Rattle.std.specs.Prelude.{◌≡◌, true, false, is_some, None, Ok, IfOk, IfSome, OnErr, All, length};
ghost use Rattle.gu_sockets.specs.Callers.{HasDoor};
ghost use Rattle.gu_sockets.specs.Doorways.{KeepsWays, door_count, has_port, is_any_due, is_door_due, is_open, is_there};

use crate::caller::Caller;
use crate::door::Door;
use crate::doors::{CONSOLE, Doors, PORT, WATCH, accept_at, token_of_door};
use crate::firm_ways::FirmWays;
use crate::poll_bell::PollBell;
use mio::net::TcpListener;
use mio::unix::SourceFd;
use mio::{Events, Interest, Poll, Registry, Token};
use std::alloc::Global;
use std::net::Net;
use std::os::fd::AsRawFd;
use std::os::unix::net::{UnixListener, UnixStream};
use std::time::Duration;
use std::{io, net};

/// How many events are taken from the system at once.
const MOST_EVENTS: usize = 64;

/// The listeners of a doorway.
#[derive(Drop)]
pub struct Listeners {
    /// The port, if one is open.
    pub port: Option<net::TcpListener>,
    /// The sockets of firms. Each has its place here for its number.
    pub doors: Vec<UnixListener>,
    /// The socket of operators, if there is one.
    pub console: Option<UnixListener>,
    /// The socket for those who may only look, if there is one.
    pub watch: Option<UnixListener>,
}

/// Which socket an operator comes in by.
#[derive(Clone, Copy, Debug, PartialEq, Eq)]
pub enum OperatorDoor {
    /// The console.
    Console,
    /// The socket for those who may only look.
    Watch,
}

/// The ways in for connections, and what the accepting thread waits on.
#[derive(Drop)]
pub struct Doorway {
    poll: Poll,
    events: Events,
    pub(crate) doors: Doors,
}

/// Returns the door of a port, if one is open, which is watched from now on.
fn port_door(
    registry: &Registry,
    listener: Option<net::TcpListener>,
) -> io::Result<Option<Door<TcpListener>>>
    ensures there { IfOk result (λ door. is_there door ≡ is_some listener) }
    ensures due { IfOk result (λ door. is_door_due door ≡ is_some listener) }
{
    let Some(listener) = listener else {
        return Ok(None);
    };
    listener.set_nonblocking(true)?;
    let mut listener = TcpListener::from_std(listener);
    registry.register(&mut listener, PORT, Interest::READABLE)?;
    Ok(Some(Door::new(listener)))
}

/// Returns the door of a firm's socket, which is watched from now on.
fn firm_door(
    registry: &Registry,
    listener: UnixListener,
    number: usize,
) -> io::Result<Door<mio::net::UnixListener>>
    ensures { IfOk result (λ door. door.is_due ≡ true) }
{
    listener.set_nonblocking(true)?;
    let mut listener = mio::net::UnixListener::from_std(listener);
    registry.register(&mut listener, token_of_door(number), Interest::READABLE)?;
    Ok(Door::new(listener))
}

/// Returns the doors of firms' sockets, in their order, which are watched from now on.
fn firm_doors(
    alloc: Global,
    registry: &Registry,
    listeners: Vec<UnixListener>,
) -> io::Result<Vec<Door<mio::net::UnixListener>>>
    ensures all { IfOk result (λ doors. length doors.items ≡ length listeners.items) }
    ensures due { IfOk result (λ doors. All (λ door. door.is_due ≡ true) doors.items) }
{
    let mut doors = Vec::with_capacity(alloc, listeners.len())?;
    for listener in listeners {
        let number = doors.len();
        doors.push(firm_door(registry, listener, number)?)?;
    }
    Ok(doors)
}

/// Returns the door of a socket of operators, if there is one, which is watched from now on.
fn operator_door(
    registry: &Registry,
    listener: Option<UnixListener>,
    token: Token,
) -> io::Result<Option<Door<UnixListener>>> {
    let Some(listener) = listener else {
        return Ok(None);
    };
    listener.set_nonblocking(true)?;
    registry.register(
        &mut SourceFd(&listener.as_raw_fd()),
        token,
        Interest::READABLE,
    )?;
    Ok(Some(Door::new(listener)))
}

impl Doorway {
    /// Creates the doorway of these listeners, and the bell that wakes who waits on it. The listeners don't wait from now on.
    pub fn new<R: Net>(net: &R, alloc: Global, listeners: Listeners) -> io::Result<(Self, PollBell)>
        ensures port { IfOk result (λ made. has_port made.0.doors ≡ is_some listeners.port) }
        ensures doors { IfOk result (λ made. door_count made.0.doors ≡ length listeners.doors.items) }
        ensures due { IfOk result (λ made. is_open made.0.doors.firms ≡ true → is_any_due made.0.doors ≡ true) }
    {
        let Listeners {
            port,
            doors,
            console,
            watch,
        } = listeners;
        let poll = Poll::new(net)?;
        let registry = poll.registry();
        let bell = PollBell::new(registry)?;
        let port = port_door(registry, port)?;
        let doors = firm_doors(alloc, registry, doors)?;
        let console = operator_door(registry, console, CONSOLE)?;
        let watch = operator_door(registry, watch, WATCH)?;
        let events = Events::with_capacity(alloc, MOST_EVENTS)?;
        let doors = Doors {
            firms: FirmWays::new(port, doors),
            console,
            watch,
        };
        Ok((
            Doorway {
                poll,
                events,
                doors,
            },
            bell,
        ))
    }

    /// Waits until a connection comes, the bell is rung or this time has passed. With no time it waits as long as it takes.
    pub fn wait(&mut self, most: Option<Duration>) -> io::Result<()>
        ensures ways { KeepsWays self.old.doors self.new.doors }
        ensures due { is_any_due self.old.doors ≡ true → is_any_due self.new.doors ≡ true }
    {
        self.poll.poll(&mut self.events, most)?;
        self.doors.note_all(&self.events);
        Ok(())
    }

    /// Returns whether a connection may be waiting. After an accept that failed the system doesn't say so again, so whoever accepts tries
    /// again after a while, as long as this is so.
    pub fn is_due(&self) -> bool
        ensures { result ≡ is_any_due self.now.doors }
    {
        self.doors.is_due()
    }

    /// Accepts a connection of a firm, if one is waiting. The port and the doors of firms take turns, so that one at which many are waiting
    /// doesn't hold up the others.
    pub fn accept(&mut self) -> io::Result<Option<Caller>>
        ensures ways { KeepsWays self.old.doors self.new.doors }
        ensures door { IfOk result (λ who. IfSome who (λ caller. HasDoor (door_count self.old.doors) caller.stream caller.door)) }
        ensures closed { is_open self.old.doors.firms ≡ false → result ≡ Ok None }
        ensures failed { OnErr result (is_any_due self.new.doors ≡ true) }
    {
        self.doors.accept()
    }

    /// Accepts a connection of an operator, if one is waiting. Its reads and writes wait.
    pub fn accept_operator(&mut self, which: OperatorDoor) -> io::Result<Option<UnixStream>>
        ensures ways { KeepsWays self.old.doors self.new.doors }
        ensures failed { OnErr result (is_any_due self.new.doors ≡ true) }
    {
        match which {
            OperatorDoor::Console => accept_at(&mut self.doors.console),
            OperatorDoor::Watch => accept_at(&mut self.doors.watch),
        }
    }

    /// Closes the port and the doors of firms, which refuse from now on.
    pub fn close_firms(&mut self)
        ensures { is_open self.new.doors.firms ≡ false }
    {
        self.doors.firms.close();
    }
}
