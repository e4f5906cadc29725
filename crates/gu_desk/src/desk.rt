//! The desk.

ghost use Rattle.std.specs.Prelude.{◌≡◌, ◌↔◌, ◌+◌, ◌<◌, ◌≤◌, false, true, All, length, sum_by, vec_len, IfErr, IfOk, IsErr, IsErrOf, OnErr, OnOk};
ghost use mathlib.Core.List.{IsPrefix};
ghost use Rattle.gu_terms.specs.Histories.{lots_swept};
ghost use Rattle.gu_ref.specs.Reference.{is_group};
ghost use Rattle.gu_view.specs.Boards.{Shows};
ghost use Rattle.gu_view.specs.View.{IsNested};
ghost use Rattle.gu_rules.specs.Views.{group_view};
ghost use Rattle.gu_book.specs.Commits.{sweep_of};
ghost use Rattle.gu_book.specs.Informing.{HoldsInformed};
ghost use Rattle.gu_book.specs.Questions.{IsAnswer, IsUnknown};
ghost use Rattle.gu_desk.specs.Holds.{Asks, Enters, IsRefused, Looks, Sees, book_seen};
ghost use Rattle.gu_desk.specs.Refusals.{refusal_of_second_hold};
ghost use Rattle.gu_desk.specs.Seats.{IsNew};
ghost use Rattle.gu_desk.specs.Sweeps.{IsSweepRefused, IsViewBefore, Sweeps};

use crate::annals::BlankAnnals;
use crate::error::{CloseFault, SweepError};
use crate::gate::{Gate, SweepPlan};
use crate::ledger::{DeskLedger, EntryLedger, LotLedger};
use crate::locked_book::{Entered, LockedBook};
use crate::seat::Seat;
use gu_book::{
    Answer, AskError, Book, EnterError, FirmFilter, SeenError, kept_sweep, swept_receipt,
};
use gu_flow::Proposal;
use gu_terms::{Command, Entry, Group, Query, Receipt};
use gu_view::{Board, View, ViewToken};
use std::alloc::{AllocError, Global};
use std::hint::spin_loop;
use std::marker::Model;
use std::sync::ledger::Blank;
use std::sync::{Mutex, MutexGuard, Wait};

/// The number of times that a thread tries the lock before it sleeps. A command's hold is usually over within these tries, and waking a
/// thread takes longer than such a hold.
const TRIES: usize = 200;

/// A committed sweep: its receipt, a set that holds every firm notified of it, and its group's view just before it.
#[derive(Drop)]
pub struct Committed {
    pub receipt: Receipt,
    pub informs: FirmFilter,
    pub view: ViewToken,
}

/// Returns the receipt of a committed sweep.
fn receipt_of(committed: Committed) -> Receipt
    ensures { result ≡ committed.receipt }
{
    let Committed {
        receipt,
        informs: _,
        view,
    } = committed;
    drop(view);
    receipt
}

/// A book behind a lock, for threads that each have a seat, with a board of published views beside the lock. To a contract it is the number
/// of seats and the board. The board keeps each view as long as the desk lives: one for each `look`, and one for each try of a sweep whose
/// group is known.
pub struct Desk<E: EntryLedger, S: LotLedger> {
    locked: Mutex<LockedBook<E, S>>,
    board: Board,
    seats: usize,
    alloc: Global,
}

// By hand, so that each exit of a caller drops a desk with one call.
impl<E: EntryLedger, S: LotLedger> Drop for Desk<E, S> {
    fn drop(self) {
        let Desk {
            locked,
            board,
            seats: _,
            alloc: _,
        } = self;
        drop(locked);
        drop(board);
    }
}

impl<E: EntryLedger, S: LotLedger> Model for Desk<E, S> {
    ghost use Rattle.std.specs.Prelude.{◌≡◌, ◌+◌};
    ghost use Rattle.gu_desk.specs.Seating.{Seating};

    ghost Value = { Seating };

    ghost view = { λ d. record { seats = d.seats; board = d.board } };

    ghost invariant = { λ d. (d.seats + 1 ≡ E.parts) × (d.seats + 1 ≡ S.parts) };
}

impl<E: EntryLedger, S: LotLedger> Desk<E, S> {
    /// Returns a desk opened over a book, with its seats. The history and the blanks are those that the desk's type names; each blank has
    /// one part more than there are seats. Each entry is read once, to record the firms notified of it.
    pub fn new(
        alloc: Global,
        book: Book,
        annals: BlankAnnals,
        seats: usize,
        entries: Blank,
        swept: Blank,
    ) -> Result<(Desk<E, S>, Vec<Seat<E, S>>), (AllocError, Book)>
        requires seats { (1 ≤ seats) × (seats ≤ 64) }
        requires reference { book.reference ≡ E.reference }
        requires opening { (book.history ≡ E.opening) × (lots_swept book.history ≡ S.opening) }
        requires history { (annals.name ≡ E.history) × (annals.entries ≡ E.opening) }
        requires entries { (entries.name ≡ E.name) × (entries.parts ≡ E.parts) × (entries.parts ≡ seats + 1) }
        requires swept { (swept.name ≡ S.name) × (swept.parts ≡ S.parts) × (swept.parts ≡ seats + 1) }
        ensures seats { IfOk result (λ r. (r.0.seats ≡ seats) × (vec_len r.1 ≡ seats)) }
        ensures new { IfOk result (λ r. All (IsNew E.opening) r.1.items) }
        ensures handed_back { IfErr result (λ e. e.1 ≡ book) }
    {
        let Ok(board) = Board::new(alloc) else {
            return Err((AllocError, book));
        };
        let Ok(mut places) = Vec::with_capacity(alloc, seats) else {
            return Err((AllocError, book));
        };
        let mut annals = annals.opened::<E>();
        let count = book.history().len();
        let (entries, mut own) = entries.open::<E>();
        let (swept, mut own_swept) = swept.open::<S>();
        for _seat in 0..seats {
            let seat = Seat::new(
                own.split_off(1, 0),
                own_swept.split_off(1, 0),
                annals.front(count),
            );
            places.push_reserved(seat);
        }
        let entries = DeskLedger { book: entries, own };
        let swept = DeskLedger {
            book: swept,
            own: own_swept,
        };
        let book = LockedBook::opened(book, annals, entries, swept);
        let desk = Desk {
            locked: Mutex::new(book),
            board,
            seats,
            alloc,
        };
        Ok((desk, places))
    }

    /// Takes the lock, which is held until the returned guard is dropped. It may wait for the lock. The holder must not wait for another
    /// thread meanwhile, nor take the lock again.
    pub fn hold<R: Wait>(&self, rt: &R) -> MutexGuard<'_, LockedBook<E, S>> {
        for _ in 0..TRIES {
            if let Some(held) = self.locked.try_lock() {
                return held;
            }
            spin_loop();
        }
        self.locked.lock(rt)
    }

    /// Enters a command from a seat. It may wait for the lock, which it holds once; the receipt is made afterwards.
    pub fn submit<R: Wait>(
        &self,
        rt: &R,
        seat: &mut Seat<E, S>,
        command: Command,
    ) -> Result<Receipt, EnterError>
        ensures asks { IfOk result (λ r. Asks command r.entry) }
        ensures entered { IfOk result (λ r. Enters E.reference seat.old r seat.new) }
        ensures later { IfOk result (λ r. length E.opening + seat.old.entries < r.number) }
        ensures refused { IfErr result (λ why. IsRefused E.reference seat.old why seat.new) }
    {
        let Entered {
            number,
            reply,
            informs: _,
            stretch: _,
        } = self.hold(rt).enter(seat, &command, None)?;
        Ok(Receipt {
            number,
            entry: Entry::Asked { command, reply },
        })
    }

    /// Answers a query. It may wait for the lock, which it holds once.
    pub fn ask<R: Wait>(
        &self,
        rt: &R,
        seat: &mut Seat<E, S>,
        query: Query,
    ) -> Result<Answer, AskError>
        ensures sees { OnOk result (Sees E.reference seat.old seat.new) }
        ensures answer { IfOk result (IsAnswer (book_seen E.reference seat.new) query) }
        ensures unknown { IsErrOf result AskError.UnknownGroup ↔ IsUnknown E.reference query }
        ensures refused { OnErr result (seat.new ≡ seat.old) }
    {
        self.hold(rt).ask(seat, query)
    }

    /// Returns the view of a group, in one hold of the lock, for which it may wait.
    fn view<R: Wait>(&self, rt: &R, seat: &mut Seat<E, S>, group: &Group) -> Result<View, AskError>
        ensures sees { OnOk result (Sees E.reference seat.old seat.new) }
        ensures view { IfOk result (λ view. view ≡ group_view E.reference seat.new.front group.now) }
        ensures nested { IfOk result (λ view. IsNested view) }
        ensures known { OnOk result (is_group E.reference group.now ≡ true) }
        ensures unknown { IsErrOf result AskError.UnknownGroup ↔ (is_group E.reference group.now ≡ false) }
        ensures refused { OnErr result (seat.new ≡ seat.old) }
    {
        self.hold(rt).view(seat, group)
    }

    /// Looks at a group: takes its view in one hold of the lock, and then publishes it on the desk's board. It may wait for the lock and to
    /// publish.
    pub fn look<R: Wait>(
        &self,
        rt: &R,
        seat: &mut Seat<E, S>,
        group: Group,
    ) -> Result<ViewToken, AskError>
        ensures here { IfOk result (λ token. Shows self.now.board token) }
        ensures sees { OnOk result (Sees E.reference seat.old seat.new) }
        ensures view { IfOk result (λ token. token.value ≡ group_view E.reference seat.new.front group) }
        ensures nested { IfOk result (λ token. IsNested token.value) }
        ensures known { OnOk result (is_group E.reference group ≡ true) }
        ensures unknown { IsErrOf result AskError.UnknownGroup ↔ (is_group E.reference group ≡ false) }
        ensures refused { OnErr result (Looks E.reference seat.old seat.new) }
    {
        let view = self.view(rt, seat, &group)?;
        match self.board.publish(rt, view) {
            Ok(token) => Ok(token),
            Err(_) => Err(AskError::Memory),
        }
    }

    /// Returns the published view. It takes no lock, allocates nothing and doesn't wait.
    pub fn read(&self, token: &ViewToken) -> &View
        requires { Shows self.now.board token.now }
        ensures { result.now ≡ token.now.value }
    {
        self.board.read(token)
    }

    /// Commits a proposal in one hold of the lock, for which it may wait. Returns the number of the entry, and a set that holds every firm
    /// notified of it.
    fn commit<R: Wait>(
        &self,
        rt: &R,
        seat: &mut Seat<E, S>,
        proposal: &Proposal,
    ) -> Result<(u64, FirmFilter), SeenError>
        requires known { is_group E.reference proposal.now.view.group ≡ true }
        requires seen { proposal.now.view ≡ group_view E.reference seat.old.front proposal.now.view.group }
        ensures entered { IfOk result (λ r. Enters E.reference seat.old
            (record { number = r.0; entry = Entry.Swept (sweep_of proposal.now) }) seat.new) }
        ensures later { IfOk result (λ r. length E.opening + seat.old.entries < r.0) }
        ensures informs { IfOk result (λ r. HoldsInformed (book_seen E.reference seat.new) r.0 r.1) }
        ensures before { OnOk result (IsViewBefore E.reference seat.new.front proposal.now.view) }
        ensures refused { IfErr result (λ why.
            IsSweepRefused E.reference seat.old proposal.now.view.group (refusal_of_second_hold why) seat.new) }
    {
        let kept = kept_sweep(self.alloc, proposal)?;
        let mut held = self.hold(rt);
        let number = held.commit(seat, proposal, kept)?;
        Ok((number, held.informs(number)))
    }

    /// Publishes a view, for which it may wait, and has a gate propose from a copy of it.
    fn propose<R: Wait, G: Gate>(
        &self,
        rt: &R,
        view: View,
        gate: &G,
    ) -> Result<(ViewToken, Proposal), AllocError>
        requires { IsNested view }
        ensures here { IfOk result (λ r. Shows self.now.board r.0) }
        ensures view { IfOk result (λ r. (r.0.value ≡ view) × (r.1.view ≡ view)) }
    {
        let Ok(token) = self.board.publish(rt, view) else {
            return Err(AllocError);
        };
        let view = self.board.read(&token).copy()?;
        let Ok(proposal) = gate.propose(self.alloc, view) else {
            return Err(AllocError);
        };
        Ok((token, proposal))
    }

    /// Tries a sweep once, as `sweep_once` does, and returns the committed sweep.
    fn try_sweep<R: Wait, G: Gate>(
        &self,
        rt: &R,
        seat: &mut Seat<E, S>,
        plan: &SweepPlan<'_, G>,
    ) -> Result<Committed, SweepError>
        ensures sweeps { IfOk result (λ c. Sweeps plan.now.group c.receipt.entry) }
        ensures entered { IfOk result (λ c. Enters E.reference seat.old c.receipt seat.new) }
        ensures later { IfOk result (λ c. length E.opening + seat.old.entries < c.receipt.number) }
        ensures informs { IfOk result (λ c. HoldsInformed (book_seen E.reference seat.new) c.receipt.number c.informs) }
        ensures here { IfOk result (λ c. Shows self.now.board c.view) }
        ensures before { IfOk result (λ c. IsViewBefore E.reference seat.new.front c.view.value) }
        ensures group { IfOk result (λ c. c.view.value.group ≡ plan.now.group) }
        ensures unknown { IsErrOf result SweepError.UnknownGroup ↔ (is_group E.reference plan.now.group ≡ false) }
        ensures refused { IfErr result (λ why. IsSweepRefused E.reference seat.old plan.now.group why seat.new) }
    {
        let view = self.view(rt, seat, &plan.group)?;
        let (token, proposal) = self.propose(rt, view, plan.gate)?;
        let (number, informs) = self.commit(rt, seat, &proposal)?;
        Ok(Committed {
            receipt: swept_receipt(number, proposal),
            informs,
            view: token,
        })
    }

    /// Sweeps a group: takes its view in one hold of the lock and publishes it, has the gate propose from a copy while no lock is held, and
    /// commits the proposal in a second hold. It may wait for the lock, before each hold, and to publish. A published view stays on the
    /// board even if the sweep is refused.
    pub fn sweep_once<R: Wait, G: Gate>(
        &self,
        rt: &R,
        seat: &mut Seat<E, S>,
        group: Group,
        gate: &G,
    ) -> Result<Receipt, SweepError>
        ensures sweeps { IfOk result (λ r. Sweeps group r.entry) }
        ensures entered { IfOk result (λ r. Enters E.reference seat.old r seat.new) }
        ensures later { IfOk result (λ r. length E.opening + seat.old.entries < r.number) }
        ensures unknown { IsErrOf result SweepError.UnknownGroup ↔ (is_group E.reference group ≡ false) }
        ensures refused { IfErr result (λ why. IsSweepRefused E.reference seat.old group why seat.new) }
    {
        let plan = SweepPlan {
            group,
            tries: 1,
            gate,
        };
        Ok(receipt_of(self.try_sweep(rt, seat, &plan)?))
    }

    /// Sweeps a group, trying again as long as the answer is Stale, and returns the committed sweep. It may wait as `sweep_once` does.
    pub fn sweep<R: Wait, G: Gate>(
        &self,
        rt: &R,
        seat: &mut Seat<E, S>,
        plan: &SweepPlan<'_, G>,
    ) -> Result<Committed, SweepError>
        requires { (1 ≤ plan.now.tries) × (plan.now.tries ≤ 1000) }
        ensures sweeps { IfOk result (λ c. Sweeps plan.now.group c.receipt.entry) }
        ensures entered { IfOk result (λ c. Enters E.reference seat.old c.receipt seat.new) }
        ensures later { IfOk result (λ c. length E.opening + seat.old.entries < c.receipt.number) }
        ensures informs { IfOk result (λ c. HoldsInformed (book_seen E.reference seat.new) c.receipt.number c.informs) }

        // The view is on this desk's board, and is the group's by the history before the sweep.
        ensures here { IfOk result (λ c. Shows self.now.board c.view) }
        ensures before { IfOk result (λ c. IsViewBefore E.reference seat.new.front c.view.value) }
        ensures group { IfOk result (λ c. c.view.value.group ≡ plan.now.group) }
        ensures unknown { IsErrOf result SweepError.UnknownGroup ↔ (is_group E.reference plan.now.group ≡ false) }
        ensures refused { IfErr result (λ why. IsSweepRefused E.reference seat.old plan.now.group why seat.new) }
    {
        for _again in 1..plan.tries {
            match self.try_sweep(rt, seat, plan) {
                Err(SweepError::Stale { .. }) => {}
                answer => return answer,
            }
        }
        self.try_sweep(rt, seat, plan)
    }

    /// Sweeps a group, trying again as long as the answer is Stale, at most `tries` times in all. It may wait as `sweep_once` does.
    pub fn sweep_until<R: Wait, G: Gate>(
        &self,
        rt: &R,
        seat: &mut Seat<E, S>,
        group: Group,
        tries: u32,
        gate: &G,
    ) -> Result<Receipt, SweepError>
        requires { (1 ≤ tries) × (tries ≤ 1000) }
        ensures sweeps { IfOk result (λ r. Sweeps group r.entry) }
        ensures entered { IfOk result (λ r. Enters E.reference seat.old r seat.new) }
        ensures later { IfOk result (λ r. length E.opening + seat.old.entries < r.number) }
        ensures unknown { IsErrOf result SweepError.UnknownGroup ↔ (is_group E.reference group ≡ false) }
        ensures refused { IfErr result (λ why. IsSweepRefused E.reference seat.old group why seat.new) }
    {
        let plan = SweepPlan { group, tries, gate };
        Ok(receipt_of(self.sweep(rt, seat, &plan)?))
    }

    /// Closes the desk and returns its book, once all seats are back.
    pub fn close(
        self,
        seats: Vec<Seat<E, S>>,
    ) -> Result<Book, (CloseFault, Desk<E, S>, Vec<Seat<E, S>>)>
        ensures entries { IfOk result (λ book. length book.history ≡ length E.opening + sum_by (λ s. s.entries) seats.items) }
        ensures swept { IfOk result (λ book. lots_swept book.history ≡ S.opening + sum_by (λ s. s.swept) seats.items) }
        ensures reference { IfOk result (λ book. book.reference ≡ E.reference) }

        // The book's history begins with the desk's opening and with what each seat has seen.
        ensures opening { IfOk result (λ book. IsPrefix E.opening book.history) }
        ensures seen { IfOk result (λ book. All (λ s. IsPrefix s.front book.history) seats.items) }
        ensures missing { IsErr result ↔ (vec_len seats < self.seats) }
        ensures handed_back { IfErr result (λ e. (e.1 ≡ self) × (e.2.items ≡ seats.items)) }
    {
        if seats.len() < self.seats {
            return Err((CloseFault::SeatMissing, self, seats));
        }
        let Desk {
            locked,
            board,
            seats: _,
            alloc: _,
        } = self;
        drop(board);
        Ok(locked.into_inner().close(seats))
    }
}
