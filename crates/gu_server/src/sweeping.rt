//! The threads of sweepers.

use crate::counting_gate::CountingGate;
use crate::crew::Crew;
use crate::floor::Floor;
use crate::service::SWEEPERS;
use crossbeam_channel::{Receiver, Sender};
use gu_desk::{EntryLedger, LotLedger, Origin, SweepError, SweepOrder};
use gu_engine::{Clock as MomentClock, SystemClock};
use gu_houses::{Informs, SeatReceipts};
use gu_log::{CommittedSweep, Event, SweepFault};
use gu_streams::StreamError;
use std::rt::Clock;
use std::sync::Wait;
use std::thread::{Scope, Threads};

/// The sweepers' channels: both ends of the one that hands out seats, and the receiving end of the orders.
#[derive(Drop)]
pub struct SweeperEnds<E: EntryLedger, S: LotLedger> {
    pub to: Sender<SeatReceipts<E, S>>,
    pub from: Receiver<SeatReceipts<E, S>>,
    pub orders: Receiver<SweepOrder>,
}

/// Returns why a sweep was left out.
fn fault_of(error: &SweepError) -> SweepFault {
    match error {
        SweepError::Memory => SweepFault::Memory,
        SweepError::UnknownGroup => SweepFault::UnknownGroup,
        SweepError::Full => SweepFault::Full,
        SweepError::Stale { .. } => SweepFault::Stale,
    }
}

/// Sweeps the group of an order, and informs the firms concerned. The order no longer waits, so a give-up entered after the look gets an
/// order of its own. A refused sweep isn't repeated: a later order may sweep what was left. Orders are dropped once the day is closing or
/// its journal is lost, and while the clock fails.
fn sweep<E: EntryLedger, S: LotLedger, R: Wait + Clock>(
    floor: &Floor<'_, E, S, R>,
    seat: &mut SeatReceipts<E, S>,
    order: &SweepOrder,
) {
    let group = order.group();
    floor.open_orders.close(&group);
    if floor.posts.is_closing() || floor.posts.is_stopped() {
        return;
    }
    let Ok(moment) = SystemClock::new(floor.rt).now() else {
        let reason = SweepFault::Clock;
        floor.note(Event::SweepLeft { group, reason });
        return;
    };
    let gate = CountingGate::new();
    let tools = floor.tools(floor.informer);
    match seat.sweep(&tools.access, group, &gate) {
        Ok(swept) => {
            let origin = Origin {
                moment,
                message: None,
            };
            tools.tally.add_sweep(swept.lots);
            tools.informs.inform(swept.number, swept.informs, origin);
            floor.note(Event::Swept(CommittedSweep {
                group,
                entry: swept.number,
                lots: swept.lots,
                tries: gate.tries(),
            }));
        }
        Err(error) => {
            let reason = fault_of(&error);
            floor.note(Event::SweepLeft { group, reason });
        }
    }
}

/// Sweeps the group of each order until no worker is left that could send one.
fn sweep_all<E: EntryLedger, S: LotLedger, R: Wait + Clock>(
    floor: &Floor<'_, E, S, R>,
    mut seat: SeatReceipts<E, S>,
    orders: &Receiver<SweepOrder>,
) -> SeatReceipts<E, S> {
    for order in orders.iter(floor.rt) {
        sweep(floor, &mut seat, &order);
    }
    seat
}

/// Waits for a seat, and sweeps from it.
fn take_orders<E: EntryLedger, S: LotLedger, R: Wait + Clock>(
    floor: &Floor<'_, E, S, R>,
    seats: Receiver<SeatReceipts<E, S>>,
    orders: Receiver<SweepOrder>,
) -> Option<SeatReceipts<E, S>> {
    let seat = seats.recv(floor.rt).ok()?;
    drop(seats);
    Some(sweep_all(floor, seat, &orders))
}

/// Starts the thread of a sweeper.
fn start_sweeper<
    's,
    X,
    E: EntryLedger + Send + Sync + 's,
    S: LotLedger + Send + Sync + 's,
    R: Threads + Wait + Clock + Sync,
>(
    scope: &Scope<'s, X>,
    floor: &'s Floor<'s, E, S, R>,
    ends: &SweeperEnds<E, S>,
    crew: &mut Crew<E, S>,
) -> Result<(), StreamError> {
    crew.reserve()?;
    let seats = ends.from.clone()?;
    let orders = ends.orders.clone()?;
    match scope.spawn(move || take_orders(floor, seats, orders)) {
        Ok(sweeper) => {
            crew.add(sweeper);
            Ok(())
        }
        Err(_) => Err(StreamError::Memory),
    }
}

/// Starts the sweepers. A seat is handed out only once its thread has started.
pub fn start_sweepers<
    's,
    X,
    E: EntryLedger + Send + Sync + 's,
    S: LotLedger + Send + Sync + 's,
    R: Threads + Wait + Clock + Sync,
>(
    scope: &Scope<'s, X>,
    floor: &'s Floor<'s, E, S, R>,
    orders: Receiver<SweepOrder>,
    crew: &mut Crew<E, S>,
) -> Result<(), StreamError> {
    let (to, from) = crossbeam_channel::bounded(floor.alloc, 1)?;
    let ends = SweeperEnds { to, from, orders };
    for _sweeper in 0..SWEEPERS {
        start_sweeper(scope, floor, &ends, crew)?;
        crew.give_seat(floor.rt, &ends.to)?;
    }
    Ok(())
}
