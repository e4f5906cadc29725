//! The threads that answer operators.

use crate::crew::Crew;
use crate::floor::Floor;
use crate::informer::OperatorInformer;
use crate::talking::talk;
use crossbeam_channel::{Receiver, Sender};
use gu_console::{Console, Operator, Said};
use gu_desk::{EntryLedger, LotLedger};
use gu_houses::SeatReceipts;
use gu_streams::StreamError;
use std::alloc::{AllocError, Global};
use std::os::unix::net::UnixStream;
use std::rt::Clock;
use std::sync::Wait;
use std::thread::{Scope, Threads};

/// How many operators wait for a thread at most.
const MOST_WAITING: usize = 16;

/// The two ends of the queue of one socket's operators.
#[derive(Drop)]
pub struct OperatorEnds {
    pub to: Sender<UnixStream>,
    from: Receiver<UnixStream>,
    /// Whether they may only look.
    is_watch: bool,
}

impl OperatorEnds {
    /// Creates the ends for one socket.
    pub fn new(alloc: Global, is_watch: bool) -> Result<Self, AllocError> {
        let (to, from) = crossbeam_channel::bounded(alloc, MOST_WAITING)?;
        Ok(OperatorEnds { to, from, is_watch })
    }

    /// Returns the end to which operators are sent.
    pub fn into_sender(self) -> Sender<UnixStream> {
        let OperatorEnds {
            to,
            from,
            is_watch: _,
        } = self;
        drop(from);
        to
    }
}

/// Returns what all operators of one socket share.
fn console_of<'s, E: EntryLedger, S: LotLedger, R: Wait + Clock>(
    floor: &'s Floor<'s, E, S, R>,
    is_watch: bool,
) -> Console<'s, E, S, R, Floor<'s, E, S, R>, OperatorInformer<'s, R>> {
    Console {
        alloc: floor.alloc,
        tools: floor.tools(floor.operator_informer),
        office: floor,
        is_watch,
    }
}

/// Waits for a seat, and answers one operator after another from it until no more come. The connection of an operator that closed the day
/// is kept, since it waits for the day's last lines.
fn attend_all<'s, E: EntryLedger, S: LotLedger, R: Wait + Clock>(
    floor: &'s Floor<'s, E, S, R>,
    is_watch: bool,
    seats: Receiver<SeatReceipts<E, S>>,
    calls: Receiver<UnixStream>,
) -> Option<SeatReceipts<E, S>> {
    let seat = seats.recv(floor.rt).ok()?;
    drop(seats);
    let mut operator = Operator::new(console_of(floor, is_watch), seat);
    for stream in calls.iter(floor.rt) {
        operator.begin();
        match talk(floor, &mut operator, &stream) {
            Said::Closes => floor.keep_closer(stream),
            Said::GoesOn => drop(stream),
        }
    }
    Some(operator.into_seat())
}

/// Starts a thread that answers the operators of a socket, and gives it a seat.
fn start_attendant<
    's,
    X,
    E: EntryLedger + Send + Sync + 's,
    S: LotLedger + Send + Sync + 's,
    R: Threads + Wait + Clock + Sync,
>(
    scope: &Scope<'s, X>,
    floor: &'s Floor<'s, E, S, R>,
    crew: &mut Crew<E, S>,
    ends: &OperatorEnds,
) -> Result<(), StreamError> {
    crew.reserve()?;
    let is_watch = ends.is_watch;
    let calls = ends.from.clone()?;
    let (to, seats) = crossbeam_channel::bounded(floor.alloc, 1)?;
    match scope.spawn(move || attend_all(floor, is_watch, seats, calls)) {
        Ok(attendant) => crew.add(attendant),
        Err(_) => return Err(StreamError::Memory),
    }
    crew.give_seat(floor.rt, &to)?;
    Ok(())
}

/// Starts this many threads that answer the operators of a socket.
pub fn start_attendants<
    's,
    X,
    E: EntryLedger + Send + Sync + 's,
    S: LotLedger + Send + Sync + 's,
    R: Threads + Wait + Clock + Sync,
>(
    scope: &Scope<'s, X>,
    floor: &'s Floor<'s, E, S, R>,
    crew: &mut Crew<E, S>,
    ends: &OperatorEnds,
    threads: usize,
) -> Result<(), StreamError> {
    for _attendant in 0..threads {
        start_attendant(scope, floor, crew, ends)?;
    }
    Ok(())
}
