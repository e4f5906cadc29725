//! Accepts connections, and gives each to the worker that has the fewest.

ghost use Rattle.std.specs.Prelude.{◌≡◌, None, Some, IfSome, IsSomeAnd, slice_get};
ghost use Rattle.std.specs.Option.{option_map};

use crate::cause::Cause;
use crate::floor::Floor;
use crate::working::{Calls, SocketCall};
use crossbeam_channel::Sender;
use gu_desk::{EntryLedger, LotLedger};
use gu_log::{Event, Refusal, Way};
use gu_posts::{Call, Failure};
use gu_sockets::{Caller, Doorway, OperatorDoor};
use gu_streams::StreamError;
use gu_terms::FirmId;
use std::io;
use std::os::unix::net::UnixStream;
use std::rt::Clock;
use std::sync::Wait;
use std::time::Duration;

/// How many connections are accepted in one go.
const MOST_AT_ONCE: u32 = 64;

/// After how many milliseconds accepting is tried again if it failed.
const RETRY_MS: u64 = 100;

/// Returns the fault of a day if one of its workers failed.
fn error_of(failure: Failure) -> StreamError {
    match failure {
        Failure::Memory => StreamError::Memory,
        Failure::Clock | Failure::Poller => StreamError::Read,
    }
}

/// Reports why no connection is accepted for now: in the log, if there is one, and otherwise on standard error.
fn tell_pause<E: EntryLedger, S: LotLedger, R: Wait + Clock + Eprint>(
    floor: &Floor<'_, E, S, R>,
    cause: &Cause,
) {
    if !floor.log.is_silent() {
        let reason = cause.fault();
        floor.note(Event::AcceptingPaused { reason });
    } else if floor.service.is_until_closed {
        cause.tell_retry(floor.rt);
    } else {
        cause.tell_pause(floor.rt);
    }
}

/// Where connections come in.
pub trait LetsIn {
    /// Waits until a connection comes, the bell is rung or this time has passed. Without a time it waits as long as it takes.
    fn wait(&mut self, most: Option<Duration>) -> io::Result<()>;

    /// Returns whether a connection may be waiting.
    fn is_due(&self) -> bool;

    /// Accepts a firm's connection, if one is waiting. If it came by a door, the door's number is the firm's place among the firms of the
    /// book's reference.
    fn accept(&mut self) -> io::Result<Option<Caller>>;

    /// Accepts an operator's connection, if one is waiting.
    fn accept_operator(&mut self, which: OperatorDoor) -> io::Result<Option<UnixStream>>;

    /// Closes the port and the firms' doors: connections are refused from now on.
    fn close_firms(&mut self);
}

impl LetsIn for Doorway {
    fn wait(&mut self, most: Option<Duration>) -> io::Result<()> {
        Doorway::wait(self, most)
    }

    fn is_due(&self) -> bool {
        Doorway::is_due(self)
    }

    fn accept(&mut self) -> io::Result<Option<Caller>> {
        Doorway::accept(self)
    }

    fn accept_operator(&mut self, which: OperatorDoor) -> io::Result<Option<UnixStream>> {
        Doorway::accept_operator(self, which)
    }

    fn close_firms(&mut self) {
        Doorway::close_firms(self);
    }
}

/// Returns the call of a connection that was accepted. One that came by a door belongs to the firm at the door's number in the list; if
/// there is no such firm, there is no call.
fn call_of(firms: &[FirmId], caller: Caller, number: u64) -> Option<Call<SocketCall>>
    ensures port { caller.door ≡ None → IsSomeAnd result (λ call. call.door ≡ None) }
    ensures door { IfSome caller.door (λ place. option_map (λ call. call.door) result ≡ option_map Some (slice_get firms.now place)) }
    ensures same { IfSome result (λ call. (call.stream ≡ caller.stream) × (call.number ≡ number) × (call.port ≡ caller.port)) }
{
    let Caller { stream, port, door } = caller;
    let door = match door {
        Some(place) => {
            let firm = firms.get(place)?;
            Some(*firm)
        }
        None => None,
    };
    Some(Call {
        stream,
        number,
        port: u64::from(port),
        door,
    })
}

/// Returns whether a call came by the port or by a door.
fn way_of(call: &Call<SocketCall>) -> Way {
    match call.door {
        Some(firm) => Way::Door(firm),
        None => Way::Port(u16::try_from(call.port).unwrap_or(0)),
    }
}

/// The queues of operators that were accepted.
#[derive(Drop)]
pub struct OperatorWays {
    pub console: Sender<UnixStream>,
    pub watch: Sender<UnixStream>,
}

impl OperatorWays {
    /// Sends an operator to the threads that answer at its socket. If too many wait already, the connection is closed.
    fn send<R: Wait>(&self, rt: &R, which: OperatorDoor, stream: UnixStream) {
        let to = match which {
            OperatorDoor::Console => &self.console,
            OperatorDoor::Watch => &self.watch,
        };
        if let Err(refused) = to.try_send(rt, stream) {
            drop(refused);
        }
    }
}

/// Where connections come in, and where they go.
#[derive(Drop)]
pub struct Entrance<'a, D> {
    door: D,
    /// The workers' queues, as long as connections are accepted.
    calls: Vec<Calls<'a>>,
    operators: OperatorWays,
    /// Whether connections are accepted.
    is_open: bool,
    /// How many connections were accepted.
    accepted: u64,
    /// How many were under way when accepting failed, if none was accepted since.
    paused: Option<u64>,
    /// Whether more may wait to be accepted at once.
    has_more: bool,
}

impl<'a, D: LetsIn + Drop> Entrance<'a, D> {
    /// Creates an entrance that has accepted no connection yet.
    pub fn new(door: D, calls: Vec<Calls<'a>>, operators: OperatorWays) -> Self {
        Entrance {
            door,
            calls,
            operators,
            is_open: true,
            accepted: 0,
            paused: None,
            has_more: true,
        }
    }

    /// Closes the port and the firms' doors. The workers get no more connections.
    fn close(&mut self) {
        self.door.close_firms();
        self.calls.clear();
        self.is_open = false;
    }

    /// Returns whether no more connections are to be accepted.
    fn has_all<E: EntryLedger, S: LotLedger, R>(&self, floor: &Floor<'_, E, S, R>) -> bool {
        let service = floor.service;
        !service.is_until_closed && self.accepted >= service.connections as u64
    }

    /// Returns whether to try to accept. After a failure, if each connection has a worker of its own, one has to end first.
    fn may_try<E: EntryLedger, S: LotLedger, R>(&self, floor: &Floor<'_, E, S, R>) -> bool {
        match self.paused {
            Some(busy) => floor.service.is_until_closed || floor.posts.connections() < busy,
            None => true,
        }
    }

    /// Gives a connection to the worker that has the fewest. If all places are taken, it is closed silently.
    fn give<E: EntryLedger, S: LotLedger, R: Wait + Clock>(
        &mut self,
        floor: &Floor<'_, E, S, R>,
        caller: Caller,
    ) {
        let has_place = floor.posts.connections() < floor.service.connections as u64;
        let worker = floor.posts.least_busy(self.calls.len());
        self.accepted = self.accepted.saturating_add(1);
        let Some(call) = call_of(floor.firms, caller, self.accepted) else {
            return;
        };
        let number = call.number;
        let way = way_of(&call);
        floor.note(Event::Accepted { number, way });
        match self.calls.get(worker) {
            Some(calls) if has_place => calls.send(floor.rt, call),
            _ => {
                drop(call);
                let reason = Refusal::Full;
                floor.note(Event::Refused { number, reason });
            }
        }
    }

    /// Accepts a connection, and returns whether one was waiting. If each connection has a worker of its own, none is accepted while every
    /// worker serves one.
    fn accept_one<E: EntryLedger, S: LotLedger, R: Wait + Clock>(
        &mut self,
        floor: &Floor<'_, E, S, R>,
    ) -> Result<bool, Cause> {
        let workers = self.calls.len() as u64;
        if workers == 0
            || (!floor.service.is_until_closed && floor.posts.connections() >= workers)
        {
            return Err(Cause::NoThread);
        }
        match self.door.accept() {
            Ok(Some(caller)) => {
                if self.paused.is_some() {
                    self.paused = None;
                    floor.note(Event::AcceptingResumed);
                }
                self.give(floor, caller);
                Ok(true)
            }
            Ok(None) => Ok(false),
            Err(error) => Err(Cause::Accept(error)),
        }
    }

    /// Accepts connections that wait, up to a bound, as long as more are to be accepted.
    fn accept_some<E: EntryLedger, S: LotLedger, R: Wait + Clock>(
        &mut self,
        floor: &Floor<'_, E, S, R>,
    ) -> Result<(), Cause> {
        self.has_more = false;
        for _call in 0..MOST_AT_ONCE {
            if self.has_all(floor) || !self.accept_one(floor)? {
                return Ok(());
            }
        }
        self.has_more = true;
        Ok(())
    }

    /// Notes and reports that accepting failed. If no connection is under way whose end could help, the day ends, unless it goes on until
    /// it is closed.
    fn pause<E: EntryLedger, S: LotLedger, R: Wait + Clock + Eprint>(
        &mut self,
        floor: &Floor<'_, E, S, R>,
        cause: Cause,
    ) -> Result<(), StreamError> {
        let busy = floor.posts.connections();
        let goes_on = floor.service.is_until_closed;
        if !goes_on && busy == 0 {
            return Err(StreamError::from(cause));
        }
        if !goes_on || self.paused.is_none() {
            tell_pause(floor, &cause);
        }
        self.paused = Some(busy);
        drop(cause);
        Ok(())
    }

    /// Accepts the operators that wait. One that can't be accepted is left for a later try.
    fn accept_operators<E: EntryLedger, S: LotLedger, R: Wait>(
        &mut self,
        floor: &Floor<'_, E, S, R>,
    ) {
        for which in [OperatorDoor::Console, OperatorDoor::Watch] {
            for _call in 0..MOST_AT_ONCE {
                match self.door.accept_operator(which) {
                    Ok(Some(stream)) => self.operators.send(floor.rt, which, stream),
                    _ => break,
                }
            }
        }
    }

    /// Returns how long to wait: not at all if more connections may be waiting, and a short time if accepting failed.
    fn longest_wait(&self) -> Option<Duration> {
        if self.is_open && self.has_more {
            return Some(Duration::from_millis(0));
        }
        if self.door.is_due() {
            return Some(Duration::from_millis(RETRY_MS));
        }
        None
    }

    /// Waits once, and accepts the connections that have come.
    fn round<E: EntryLedger, S: LotLedger, R: Wait + Clock + Eprint>(
        &mut self,
        floor: &Floor<'_, E, S, R>,
    ) -> Result<(), StreamError> {
        let most = self.longest_wait();
        if self.door.wait(most).is_err() {
            return Err(StreamError::Read);
        }
        self.accept_operators(floor);
        if let Some(failure) = floor.posts.failure() {
            return Err(error_of(failure));
        }
        if floor.posts.is_closing() || floor.posts.is_stopped() || self.has_all(floor) {
            self.close();
        }
        if !self.is_open || !self.may_try(floor) {
            return Ok(());
        }
        match self.accept_some(floor) {
            Ok(()) => Ok(()),
            Err(cause) => self.pause(floor, cause),
        }
    }

    /// Accepts connections until no more are to be accepted and the last has ended.
    fn accept_all<E: EntryLedger, S: LotLedger, R: Wait + Clock + Eprint>(
        &mut self,
        floor: &Floor<'_, E, S, R>,
    ) -> Result<(), StreamError> {
        for _round in floor.rt.forever() {
            self.round(floor)?;
            if self.has_all(floor) {
                self.close();
            }
            if !self.is_open && floor.posts.connections() == 0 {
                break;
            }
        }
        Ok(())
    }

    /// Accepts connections until no more are to be accepted and the last has ended. A fault closes the day. After that the workers get no
    /// more connections, and the operators' threads no more operators.
    pub fn run<E: EntryLedger, S: LotLedger, R: Wait + Clock + Eprint>(
        mut self,
        floor: &Floor<'_, E, S, R>,
    ) -> Result<(), StreamError> {
        let accepted = self.accept_all(floor);
        if accepted.is_err() {
            floor.close();
        }
        accepted
    }
}
