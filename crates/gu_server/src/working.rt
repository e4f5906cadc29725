//! The threads of workers.

use crate::crew::Crew;
use crate::desk_house::DeskHouse;
use crate::floor::Floor;
use crate::informer::Informer;
use crossbeam_channel::{Receiver, Sender};
use gu_desk::{EntryLedger, LotLedger, SweepOrder};
use gu_houses::{AtDesk, Orders, SeatReceipts, WithinShares};
use gu_posts::{Call, CallSender, Failure, calls};
use gu_sockets::{PollBell, SocketPoller};
use gu_talks::Poller;
use gu_workers::{MachineTimer, Worker, WorkerSettings, WorkerTools};
use std::alloc::AllocError;
use std::rt::Clock;
use std::sync::Wait;
use std::thread::{Scope, Threads};

/// A connection that was accepted.
pub type SocketCall = <SocketPoller as Poller>::Call;

/// A worker's queue of connections.
pub type Calls<'a> = CallSender<'a, SocketCall, PollBell>;

/// What a worker's thread begins with: its number, the channels of its seat and its connections, its poller, and the queue of the sweepers'
/// orders.
#[derive(Drop)]
struct WorkerEnds<E: EntryLedger, S: LotLedger> {
    number: usize,
    seats: Receiver<SeatReceipts<E, S>>,
    calls: Receiver<Call<SocketCall>>,
    poller: SocketPoller,
    orders: Sender<SweepOrder>,
}

/// A worker's queue of connections, its poller and its settings.
struct Bench {
    calls: Receiver<Call<SocketCall>>,
    poller: SocketPoller,
    settings: WorkerSettings,
}

/// Returns how the worker with this number serves its connections.
fn settings_of<E: EntryLedger, S: LotLedger, R>(
    floor: &Floor<'_, E, S, R>,
    number: usize,
) -> WorkerSettings {
    WorkerSettings {
        worker: number,
        places: floor.service.places(),
        write_wait_ms: floor.write_wait_ms,
        keeps_count: !floor.service.is_until_closed,
    }
}

/// Serves connections from a house until no more come and the last has ended, and returns the house. If the worker can't go on, the thread
/// that accepts connections is informed.
fn turn_all<'a, 'o, E: EntryLedger, S: LotLedger, R: Wait + Clock>(
    floor: &Floor<'a, E, S, R>,
    house: DeskHouse<'a, 'o, E, S, R, Informer<'a, R>>,
    bench: Bench,
) -> DeskHouse<'a, 'o, E, S, R, Informer<'a, R>> {
    let Bench {
        calls,
        poller,
        settings,
    } = bench;
    let Ok(timer) = MachineTimer::new(floor.rt) else {
        drop(calls);
        drop(poller);
        floor.posts.fail(Failure::Clock);
        return house;
    };
    let tools = WorkerTools {
        poller,
        timer,
        house,
        calls,
    };
    match Worker::new(floor.alloc, floor.shared(), settings, tools) {
        Ok(mut worker) => {
            // One that can't go on has said so.
            let _ = worker.run(floor.rt);
            worker.into_house()
        }
        Err(house) => {
            floor.posts.fail(Failure::Memory);
            house
        }
    }
}

/// Waits for a seat, and serves connections from it.
fn work<E: EntryLedger, S: LotLedger, R: Wait + Clock>(
    floor: &Floor<'_, E, S, R>,
    ends: WorkerEnds<E, S>,
) -> Option<SeatReceipts<E, S>> {
    let WorkerEnds {
        number,
        seats,
        calls,
        poller,
        orders,
    } = ends;
    let seat = seats.recv(floor.rt).ok()?;
    drop(seats);
    let bench = Bench {
        calls,
        poller,
        settings: settings_of(floor, number),
    };
    let due = Orders::new(&orders, floor.open_orders, floor.every);
    let desk = AtDesk::new(floor.tools(floor.informer), seat, due);
    let shared = WithinShares::new(desk, floor.shares);
    let house = DeskHouse::new(shared, floor.rt, floor.log);
    Some(turn_all(floor, house, bench).into_seat())
}

/// Starts a worker's thread and gives it a seat. Returns the queue of its connections, or `None` if the thread can't be started.
fn start_worker<
    's,
    X,
    E: EntryLedger + Send + Sync + 's,
    S: LotLedger + Send + Sync + 's,
    R: Threads + Wait + Clock + Sync,
>(
    scope: &Scope<'s, X>,
    floor: &'s Floor<'s, E, S, R>,
    crew: &mut Crew<E, S>,
    poller: SocketPoller,
    number: usize,
    orders: &Sender<SweepOrder>,
) -> Result<Option<Calls<'s>>, AllocError> {
    crew.reserve()?;
    let (to, seats) = crossbeam_channel::bounded(floor.alloc, 1)?;
    let (sender, calls) = calls(floor.alloc, floor.posts, number, floor.service.places())?;
    let ends = WorkerEnds {
        number,
        seats,
        calls,
        poller,
        orders: orders.clone()?,
    };
    match scope.spawn(move || work(floor, ends)) {
        Ok(worker) => crew.add(worker),
        Err(_) => return Ok(None),
    }
    crew.give_seat(floor.rt, &to)?;
    Ok(Some(sender))
}

/// Starts a worker for each poller, as long as threads can be started, and returns the queues of their connections.
pub fn start_workers<
    's,
    X,
    E: EntryLedger + Send + Sync + 's,
    S: LotLedger + Send + Sync + 's,
    R: Threads + Wait + Clock + Sync,
>(
    scope: &Scope<'s, X>,
    floor: &'s Floor<'s, E, S, R>,
    crew: &mut Crew<E, S>,
    pollers: Vec<SocketPoller>,
    orders: &Sender<SweepOrder>,
) -> Result<Vec<Calls<'s>>, AllocError> {
    let mut started = Vec::with_capacity(floor.alloc, pollers.len())?;
    for (number, poller) in pollers.into_iter().enumerate() {
        let Some(calls) = start_worker(scope, floor, crew, poller, number, orders)? else {
            break;
        };
        started.push(calls)?;
    }
    Ok(started)
}
