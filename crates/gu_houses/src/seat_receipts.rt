//! A seat that keeps its receipts.

ghost use Rattle.std.specs.Prelude.{◌≡◌, ◌↔◌, ◌<◌, length, IfErr, IfOk, IfSome, IsErrOf, OnErr, OnOk};
ghost use Rattle.gu_terms.specs.Histories.{swept_by};
ghost use Rattle.gu_terms.specs.declared.entry.Entry.{Entry as EntryOf};
ghost use Rattle.gu_view.specs.Boards.{Shows};
ghost use Rattle.gu_rules.specs.Notices.{IsStretch};
ghost use Rattle.gu_book.specs.Informing.{HoldsInformed};
ghost use Rattle.gu_book.specs.Questions.{IsAnswer, IsUnknown};
ghost use Rattle.gu_desk.specs.Audits.{IsReceiptOf};
ghost use Rattle.gu_desk.specs.KeptReceipts.{receipts_in};
ghost use Rattle.gu_desk.specs.Holds.{book_seen, Enters, IsRefused, IsStretchAsked, Sees};
ghost use Rattle.gu_desk.specs.Seats.{IsNew};
ghost use Rattle.gu_desk.specs.Sweeps.{IsSweepRefused, IsViewBefore, Sweeps};
ghost use Rattle.gu_houses.specs.Receipts.{HasReceipts};

use gu_book::{Answer, AskError, EnterError};
use gu_desk::{
    Committed, Desk, Entered, EntryLedger, FirmFilter, Gate, KeptReceipts, LockedBook, LotLedger,
    Question, Seat, SweepError, SweepPlan,
};
use gu_terms::{Command, Entry, FirmId, Group, Query, Receipt, Reply, Stretch};
use gu_view::ViewToken;
use std::alloc::{AllocError, Global};
use std::marker::Model;
use std::sync::{MutexGuard, Wait};

/// The most tries of a sweep.
const TRIES: u32 = 3;

/// Access to a desk, for a thread that may wait for its lock.
#[derive(Drop)]
pub struct DeskAccess<'a, E: EntryLedger, S: LotLedger, R> {
    pub rt: &'a R,
    pub desk: &'a Desk<E, S>,
}

impl<E: EntryLedger, S: LotLedger, R: Wait> DeskAccess<'_, E, S, R> {
    /// Takes the desk's lock, as `Desk::hold` does.
    fn hold(&self) -> MutexGuard<'_, LockedBook<E, S>> {
        self.desk.hold(self.rt)
    }
}

/// A seat that keeps a receipt for each entry made from it. To a contract it is the seat.
#[derive(Drop)]
pub struct SeatReceipts<E: EntryLedger, S: LotLedger> {
    seat: Seat<E, S>,
    receipts: KeptReceipts,
}

impl<E: EntryLedger, S: LotLedger> Model for SeatReceipts<E, S> {
    ghost use Rattle.std.specs.Prelude.{length};
    ghost use Rattle.gu_desk.specs.KeptReceipts.{receipts_in};
    ghost use Rattle.gu_desk.specs.Seats.{SeatState};
    ghost use Rattle.gu_houses.specs.Receipts.{HasReceipts};

    ghost Value = { SeatState };

    ghost view = { λ s. s.seat };

    ghost invariant = { λ s. HasReceipts (length E.opening) s.seat (receipts_in s.receipts) };
}

/// A sweep entered from a seat: its number, its lots, a set that holds every firm notified of it, and its group's view just before it,
/// which is on the desk's board.
#[derive(Drop)]
pub struct SeatSweep {
    pub number: u64,
    pub lots: u64,
    pub informs: FirmFilter,
    pub view: ViewToken,
}

/// Returns the lots of a sweep.
fn lots_of(receipt: &Receipt) -> u64
    ensures { result ≡ swept_by receipt.now.entry }
{
    match &receipt.entry {
        Entry::Swept(sweep) => sweep.lots,
        Entry::Asked { .. } => 0,
    }
}

/// Returns the receipt for an entered command.
fn receipt_of(number: u64, command: Command, reply: &Reply) -> Receipt
    ensures { result ≡ record { number = number; entry = Entry.Asked command reply.now } }
{
    Receipt {
        number,
        entry: Entry::Asked {
            command,
            reply: *reply,
        },
    }
}

impl<E: EntryLedger, S: LotLedger> SeatReceipts<E, S> {
    /// Returns a seat from which nothing was entered yet.
    pub fn new(alloc: Global, seat: Seat<E, S>) -> Self
        requires { IsNew E.opening seat }
        ensures { result ≡ seat }
    {
        SeatReceipts {
            seat,
            receipts: KeptReceipts::new(alloc),
        }
    }

    /// Returns the seat, and the receipts.
    pub fn into_parts(self) -> (Seat<E, S>, KeptReceipts)
        ensures seat { result.0 ≡ self }
        ensures receipts { HasReceipts (length E.opening) self (receipts_in result.1) }
    {
        let SeatReceipts { seat, receipts } = self;
        (seat, receipts)
    }

    /// Returns the number of entries that the seat has seen.
    pub fn seen(&self) -> u64
        ensures { result ≡ length self.now.front }
    {
        self.seat.seen()
    }

    /// Enters a command, if there is room for its receipt, and keeps the receipt. Returns the desk's answer, with a batch of a firm's
    /// notices of the entries from a number on, including this one, if that was asked for.
    pub fn enter<R: Wait>(
        &mut self,
        access: &DeskAccess<'_, E, S, R>,
        command: Command,
        tell: Option<(FirmId, u64)>,
    ) -> Result<Entered, EnterError>
        ensures entered { IfOk result (λ e. Enters E.reference self.old
            (record { number = e.number; entry = Entry.Asked command e.reply }) self.new) }
        ensures told { IfOk result (λ e. IfSome e.stretch (IsStretchAsked (book_seen E.reference self.new) tell)) }
        ensures informs { IfOk result (λ e. HoldsInformed (book_seen E.reference self.new) e.number e.informs) }
        ensures refused { IfErr result (λ why. IsRefused E.reference self.old why self.new) }
    {
        // First makes room for the receipt: after the command is entered, keeping its receipt allocates nothing.
        if self.receipts.reserve().is_err() {
            return Err(EnterError::Memory);
        }
        let entered = access.hold().enter(&mut self.seat, &command, tell)?;
        self.receipts
            .push_reserved(receipt_of(entered.number, command, &entered.reply));
        Ok(entered)
    }

    /// Sweeps a group with a gate's proposals, if there is room for the receipt, and keeps the receipt.
    pub fn sweep<R: Wait, G: Gate>(
        &mut self,
        access: &DeskAccess<'_, E, S, R>,
        group: Group,
        gate: &G,
    ) -> Result<SeatSweep, SweepError>
        ensures swept { IfOk result (λ s. (entry : EntryOf) × Sweeps group entry × (swept_by entry ≡ s.lots)
            × Enters E.reference self.old (record { number = s.number; entry = entry }) self.new) }
        ensures informs { IfOk result (λ s. HoldsInformed (book_seen E.reference self.new) s.number s.informs) }

        // The view is on the desk's board, and is the group's by the history before the sweep.
        ensures here { IfOk result (λ s. Shows access.now.desk.now.board s.view) }
        ensures before { IfOk result (λ s. IsViewBefore E.reference self.new.front s.view.value) }
        ensures group { IfOk result (λ s. s.view.value.group ≡ group) }
        ensures refused { IfErr result (λ why. IsSweepRefused E.reference self.old group why self.new) }
    {
        self.receipts.reserve()?;
        let plan = SweepPlan {
            group,
            tries: TRIES,
            gate,
        };
        let committed = access.desk.sweep(access.rt, &mut self.seat, &plan)?;
        let number = committed.receipt.number;
        let lots = lots_of(&committed.receipt);
        let Committed {
            receipt,
            informs,
            view,
        } = committed;
        self.receipts.push_reserved(receipt);
        Ok(SeatSweep {
            number,
            lots,
            informs,
            view,
        })
    }

    /// Answers a query, as the seat then sees the book.
    pub fn ask<R: Wait>(
        &mut self,
        access: &DeskAccess<'_, E, S, R>,
        query: Query,
    ) -> Result<Answer, AskError>
        ensures answered { IfOk result (IsAnswer (book_seen E.reference self.new) query) }
        ensures sees { OnOk result (Sees E.reference self.old self.new) }
        ensures unknown { IsErrOf result AskError.UnknownGroup ↔ IsUnknown E.reference query }
        ensures refused { OnErr result (self.new ≡ self.old) }
    {
        access.hold().ask(&mut self.seat, query)
    }

    /// Puts a question to the book, as the seat sees it then. The desk's lock is held meanwhile.
    pub fn put<R: Wait, Q: Question>(
        &mut self,
        access: &DeskAccess<'_, E, S, R>,
        question: &mut Q,
    ) -> Result<(), AllocError>
        ensures tells { OnOk result (Q.tells question.old (book_seen E.reference self.new) question.new) }
        ensures sees { OnOk result (Sees E.reference self.old self.new) }
        ensures refused { OnErr result (self.new ≡ self.old) }
    {
        access.hold().put(&mut self.seat, question)
    }

    /// Returns a batch of a firm's notices of the entries from a number on, as the seat then sees them.
    pub fn stretch<R: Wait>(
        &mut self,
        access: &DeskAccess<'_, E, S, R>,
        firm: FirmId,
        from: u64,
    ) -> Result<Stretch, AllocError>
        ensures told { IfOk result (IsStretch (book_seen E.reference self.new) firm from) }
        ensures sees { OnOk result (Sees E.reference self.old self.new) }
        ensures refused { OnErr result (self.new ≡ self.old) }
    {
        access.hold().stretch(&mut self.seat, firm, from)
    }

    /// Returns the receipt for the last entry, unless something was refused since. To a contract it is one of those kept: a seat's value
    /// doesn't include the receipts, so it can't say which one it is, or when there is none.
    pub fn last(&self) -> Option<&Receipt>
        ensures { IfSome result (λ last. (0 < self.now.entries) × IsReceiptOf self.now.front last.now) }
    {
        self.receipts.last()
    }

    /// Returns the receipt for the entry with a number, if that was the last entry and nothing was refused since.
    pub fn last_of(&self, number: u64) -> Option<&Receipt>
        ensures { IfSome result (λ last. (last.now.number ≡ number) × IsReceiptOf self.now.front last.now) }
    {
        let last = self.last()?;
        if last.number != number {
            return None;
        }
        Some(last)
    }
}
