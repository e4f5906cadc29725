//! The poller of a worker whose connections are sockets.

ghost use Rattle.std.specs.Prelude.{◌≡◌, ◌++◌, OnOk, filter_map};
ghost use Rattle.mio.specs.Events.{items};
ghost use Rattle.gu_sockets.specs.Readiness.{readiness_of};

use crate::poll_bell::{BELL, PollBell};
use crate::socket_halves::{SocketReader, SocketWriter, halves};
use crate::socket_stream::SocketStream;
use gu_talks::{Poller, Ready};
use mio::event::Event;
use mio::{Events, Interest, Poll, Token};
use std::alloc::{AllocError, Global};
use std::io;
use std::net::Net;
use std::time::Duration;

/// How many events are taken from the system at once.
const MOST_EVENTS: usize = 256;

/// The poller of a worker whose connections are sockets.
#[derive(Drop)]
pub struct SocketPoller {
    alloc: Global,
    poll: Poll,
    events: Events,
}

impl SocketPoller {
    /// Creates a poller that watches nothing yet, and the bell that wakes it.
    pub fn new<R: Net>(net: &R, alloc: Global) -> io::Result<(Self, PollBell)> {
        let poll = Poll::new(net)?;
        let bell = PollBell::new(poll.registry())?;
        let events = Events::with_capacity(alloc, MOST_EVENTS)?;
        Ok((
            SocketPoller {
                alloc,
                poll,
                events,
            },
            bell,
        ))
    }
}

/// Returns what an event says of a connection, unless it is the bell's.
fn readiness(event: &Event) -> Option<Ready>
    ensures { result ≡ readiness_of event.now }
{
    let token = event.token();
    if token == BELL {
        return None;
    }
    Some(Ready {
        place: token.0,
        is_readable: event.is_readable(),
        is_writable: event.is_writable(),
        is_ending: event.is_read_closed() || event.is_error(),
    })
}

/// Appends what events say of connections, in their order.
fn note_events(events: &Events, ready: &mut Vec<Ready>) -> Result<(), AllocError>
    ensures { OnOk result (ready.new.items ≡ ready.old.items ++ filter_map readiness_of (items events.now)) }
{
    for event in events {
        if let Some(one) = readiness(event) {
            ready.push(one)?;
        }
    }
    Ok(())
}

impl Poller for SocketPoller {
    type Call = SocketStream;

    type Incoming = SocketReader;

    type Outgoing = SocketWriter;

    fn watch(
        &mut self,
        mut call: SocketStream,
        place: usize,
    ) -> io::Result<(SocketReader, SocketWriter)> {
        call.set_nodelay()?;
        call.register(
            self.poll.registry(),
            Token(place),
            Interest::READABLE | Interest::WRITABLE,
        )?;
        Ok(halves(self.alloc, call)?)
    }

    fn wait(&mut self, most: Option<Duration>, ready: &mut Vec<Ready>) -> io::Result<()>
        ensures { OnOk result (ready.new.items ≡ ready.old.items ++ filter_map readiness_of (items self.new.events)) }
    {
        self.poll.poll(&mut self.events, most)?;
        note_events(&self.events, ready)?;
        Ok(())
    }
}
