//! What threads do at a desk, each from its seat.

ghost use denote.Param.Send.{IsSend, IsSync};

use crate::sample::command_of;
use crossbeam_channel::{Receiver, Sender};
use gu_desk::{Answer, Desk, Direct, EntryLedger, LotLedger, Seat, SweepError, SweepOrder};
use gu_terms::{FirmId, Group, Query, Receipt};
use std::alloc::{AllocError, Global};
use std::sync::Wait;
use std::thread;
use std::thread::{JoinHandle, Scope, Threads};

/// The commands of each firm.
pub const TURNS: u64 = 47;

/// What a thread does: it enters a line in each turn, with the turn's number in the place of `#`, and sends an order for each accepted
/// give-up; or it sweeps once for each order that it gets; or it asks in each turn how far the entries go.
pub enum Work {
    Enters(&'static str, Sender<SweepOrder>),
    Sweeps(Receiver<SweepOrder>),
    Asks,
}

// By hand, so that each exit of a caller drops a work by one call.
impl Drop for Work {
    fn drop(self) {
        match self {
            Work::Enters(_, to) => drop(to),
            Work::Sweeps(from) => drop(from),
            Work::Asks => {}
        }
    }
}

/// A thread's seat, its receipts, the number after the last entry that it received, and whether all that it did was answered as it should
/// be.
pub struct Shift<E: EntryLedger, S: LotLedger> {
    seat: Seat<E, S>,
    receipts: Vec<Receipt>,
    next: u64,
    is_well: bool,
}

// By hand, so that each exit of a caller drops a shift by one call.
impl<E: EntryLedger, S: LotLedger> Drop for Shift<E, S> {
    fn drop(self) {
        let Shift {
            seat,
            receipts,
            next: _,
            is_well: _,
        } = self;
        drop(seat);
        drop(receipts);
    }
}

impl<E: EntryLedger, S: LotLedger> Shift<E, S> {
    /// Returns a shift that begins.
    pub fn new(alloc: Global, seat: Seat<E, S>) -> Self {
        Shift {
            seat,
            receipts: Vec::new(alloc),
            next: 0,
            is_well: true,
        }
    }

    /// Returns its seat, its receipts, and whether all went well.
    pub fn into_parts(self) -> (Seat<E, S>, Vec<Receipt>, bool) {
        let Shift {
            seat,
            receipts,
            next: _,
            is_well,
        } = self;
        (seat, receipts, is_well)
    }

    /// Keeps a receipt.
    fn keep(&mut self, receipt: Receipt) {
        if self.receipts.push(receipt).is_err() {
            self.is_well = false;
        }
    }

    /// Submits the command of a line, and says what is to be swept after it.
    pub fn submit<R: Wait>(
        &mut self,
        rt: &R,
        alloc: Global,
        desk: &Desk<E, S>,
        line: &str,
    ) -> Option<SweepOrder> {
        let submitted = match command_of(alloc, line) {
            Some(command) => desk.submit(rt, &mut self.seat, command).ok(),
            None => None,
        };
        let Some(receipt) = submitted else {
            self.is_well = false;
            return None;
        };
        let order = SweepOrder::of(&receipt).ok();
        self.keep(receipt);
        order?
    }

    /// Submits a line with a number in the place of `#`, and sends the order of an accepted give-up.
    fn enter<R: Wait>(
        &mut self,
        rt: &R,
        alloc: Global,
        desk: &Desk<E, S>,
        line: &str,
        number: u64,
        to: &Sender<SweepOrder>,
    ) {
        let (before, after) = line.split_once("#").unwrap_or((line, ""));
        match format!(in alloc; "{before}{number}{after}") {
            Ok(line) => {
                if let Some(order) = self.submit(rt, alloc, desk, &line) {
                    let _ = to.send(rt, order);
                }
            }
            Err(AllocError) => self.is_well = false,
        }
    }

    /// Asks for the number after the last entry. It isn't well if that is less than what was answered before.
    fn ask<R: Wait>(&mut self, rt: &R, desk: &Desk<E, S>) {
        let Some(firm) = FirmId::new(b"C1") else {
            self.is_well = false;
            return;
        };
        let from = u64::MAX;
        match desk.ask(rt, &mut self.seat, Query::Notices { firm, from }) {
            Ok(Answer::Notices(notices)) if self.next <= notices.next => self.next = notices.next,
            _ => self.is_well = false,
        }
    }

    /// Sweeps a group, up to this many times while it is stale. No other refusal is well.
    pub fn sweep<R: Wait>(&mut self, rt: &R, desk: &Desk<E, S>, group: Group, tries: u32) {
        match desk.sweep_until(rt, &mut self.seat, group, tries.clamp(1, 1000), &Direct) {
            Ok(receipt) => self.keep(receipt),
            Err(SweepError::Stale { .. }) => {}
            Err(_) => self.is_well = false,
        }
    }

    /// Sweeps once for each order.
    fn sweep_each<R: Wait>(&mut self, rt: &R, desk: &Desk<E, S>, from: &Receiver<SweepOrder>) {
        for order in from.iter(rt) {
            self.sweep(rt, desk, order.group(), 3);
        }
    }

    /// Asks again and again.
    fn ask_often<R: Wait>(&mut self, rt: &R, desk: &Desk<E, S>) {
        for _ in 0..1_000 {
            self.ask(rt, desk);
        }
    }
}

/// Returns what a thread does from a seat.
fn worked<E: EntryLedger, S: LotLedger, R: Wait>(
    rt: &R,
    alloc: Global,
    desk: &Desk<E, S>,
    seat: Seat<E, S>,
    work: Work,
) -> Shift<E, S> {
    let mut shift = Shift::new(alloc, seat);
    match &work {
        Work::Enters(line, to) => {
            for turn in 0..TURNS {
                shift.enter(rt, alloc, desk, line, turn.saturating_add(1), to);
            }
        }
        Work::Sweeps(from) => shift.sweep_each(rt, desk, from),
        Work::Asks => shift.ask_often(rt, desk),
    }
    shift
}

/// Starts a thread from a seat. None if it can't be started.
fn started<
    's,
    X,
    E: EntryLedger + Send + Sync + 's,
    S: LotLedger + Send + Sync + 's,
    R: Threads + Wait + Sync,
>(
    scope: &Scope<'s, X>,
    rt: &'s R,
    alloc: Global,
    desk: &'s Desk<E, S>,
    seat: Seat<E, S>,
    work: Work,
) -> Option<JoinHandle<Shift<E, S>>> {
    scope
        .spawn(move || worked(rt, alloc, desk, seat, work))
        .ok()
}

/// Starts a thread for each work, from a seat each, and adds what each hands back once all have ended.
fn run_all<
    's,
    X,
    E: EntryLedger + Send + Sync + 's,
    S: LotLedger + Send + Sync + 's,
    R: Threads + Wait + Sync,
>(
    scope: &Scope<'s, X>,
    rt: &'s R,
    alloc: Global,
    desk: &'s Desk<E, S>,
    seats: &mut Vec<Seat<E, S>>,
    works: Vec<Work>,
    shifts: &mut Vec<Shift<E, S>>,
) -> Result<(), AllocError> {
    let mut threads = Vec::new(alloc);
    for work in works {
        if let Some(seat) = seats.pop() {
            if let Some(thread) = started(scope, rt, alloc, desk, seat, work) {
                threads.push(thread)?;
            }
        }
    }
    for thread in threads {
        shifts.push(thread.join(rt))?;
    }
    Ok(())
}

/// Returns what threads hand back that do this work at the same time, each from its own seat.
pub fn shifts_of<
    E: EntryLedger + Send + Sync,
    S: LotLedger + Send + Sync,
    R: Threads + Wait + Sync,
>(
    rt: &R,
    alloc: Global,
    desk: &Desk<E, S>,
    seats: &mut Vec<Seat<E, S>>,
    works: Vec<Work>,
) -> Result<Vec<Shift<E, S>>, AllocError> {
    let mut shifts = Vec::new(alloc);
    thread::scope(
        thread::scope_env(),
        rt,
        |scope| -> Result<(), AllocError>
            requires { IsSync R.row × IsSend E.row × IsSync E.row × IsSend S.row × IsSync S.row }
        { run_all(scope, rt, alloc, desk, seats, works, &mut shifts) },
    )?;
    Ok(shifts)
}
