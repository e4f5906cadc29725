//! The contents of a desk's lock: the book, the keeper of its history, and the ledgers of what its seats entered and swept.

ghost use Rattle.std.specs.Prelude.{◌≡◌, ◌↔◌, ◌+◌, ◌<◌, ◌≤◌, ◌++◌, ◌∷◌, [], List, length, sum_by, take, vec_len, false, true, All, IfErr, IfOk, IfSome, IsErrOf, OnErr, OnOk};
ghost use mathlib.Core.List.{IsPrefix};
ghost use Rattle.gu_terms.specs.Histories.{lots_swept};
ghost use Rattle.gu_terms.specs.declared.entry.Entry.{Entry as EntryOf};
ghost use Rattle.gu_ref.specs.Reference.{is_group};
ghost use Rattle.gu_view.specs.View.{IsNested};
ghost use Rattle.gu_rules.specs.Notices.{IsStretch};
ghost use Rattle.gu_rules.specs.Views.{group_view};
ghost use Rattle.gu_book.specs.Commits.{Refuses, sweep_of};
ghost use Rattle.gu_book.specs.Informing.{HoldsInformed};
ghost use Rattle.gu_book.specs.Questions.{IsAnswer, IsUnknown};
ghost use Rattle.gu_book.specs.Refusals.{commit_error_of};
ghost use Rattle.gu_desk.specs.Holds.{Enters, IsRefused, IsStretchAsked, Sees, book_seen};
ghost use Rattle.gu_desk.specs.Refusals.{refusal_of_second_hold};
ghost use Rattle.gu_desk.specs.Sweeps.{IsSweepRefused};

use crate::annals::{Annals, Front};
use crate::copying::copy_entries;
use crate::ledger::{DeskLedger, EntryLedger, LotLedger};
use crate::question::Question;
use crate::seat::{Seat, gather};
use gu_book::{Answer, AskError, Book, EnterError, FirmFilter, SeenError};
use gu_flow::Proposal;
use gu_terms::{Command, Entry, FirmId, Group, KeptSweep, Query, Reply, Stretch};
use gu_view::View;
use std::alloc::AllocError;
use std::marker::Model;

/// The number of an entry and its reply, a set that holds every firm notified of it, and a batch of notices, if one was asked for.
#[derive(Drop)]
pub struct Entered {
    pub number: u64,
    pub reply: Reply,
    pub informs: FirmFilter,
    pub stretch: Option<Stretch>,
}

/// The contents of a desk's lock, for the holder of the lock. To a contract it is the desk's one history so far.
///
/// Its ledgers total the entries made and the lots swept since the desk was opened.
pub struct LockedBook<E: EntryLedger, S: LotLedger> {
    book: Book,
    annals: Annals<E>,
    /// The history that the desk was opened with.
    opening: Front<E>,
    entries: DeskLedger<E>,
    swept: DeskLedger<S>,
}

// By hand, so that each exit of a caller drops it with one call.
impl<E: EntryLedger, S: LotLedger> Drop for LockedBook<E, S> {
    fn drop(self) {
        let LockedBook {
            book,
            annals,
            opening,
            entries,
            swept,
        } = self;
        drop(book);
        drop(annals);
        drop(opening);
        drop(entries);
        drop(swept);
    }
}

impl<E: EntryLedger, S: LotLedger> Model for LockedBook<E, S> {
    ghost use Rattle.std.specs.Prelude.{◌≡◌, ◌+◌, List, length};
    ghost use Rattle.gu_terms.specs.Histories.{lots_swept};
    ghost use Rattle.gu_terms.specs.declared.entry.Entry.{Entry};

    ghost Value = { List Entry };

    ghost view = { λ b. b.book.history };

    // The book is for the desk's reference; its history is the one that the keeper knows; it has as many entries, and as many swept lots,
    // as the desk was opened with plus those that the ledgers count.
    ghost invariant = { λ b. (b.book.reference ≡ E.reference) × (b.annals ≡ b.book.history) × (b.opening ≡ E.opening)
        × (length b.book.history ≡ length E.opening + b.entries.book.total)
        × (lots_swept b.book.history ≡ S.opening + b.swept.book.total)
        × (b.entries.own.parts ≡ 1) × (b.entries.own.amount ≡ 0) × (b.swept.own.parts ≡ 1) × (b.swept.own.amount ≡ 0) };
}

impl<E: EntryLedger, S: LotLedger> LockedBook<E, S> {
    /// Returns what a desk's lock guards over a book, with ledgers in which nothing is counted yet.
    pub(crate) fn opened(
        mut book: Book,
        mut annals: Annals<E>,
        entries: DeskLedger<E>,
        swept: DeskLedger<S>,
    ) -> Self
        requires told { annals ≡ book.history }
        requires reference { book.reference ≡ E.reference }
        requires opening { (book.history ≡ E.opening) × (lots_swept book.history ≡ S.opening) }
        requires entries { (entries.book.total ≡ 0) × (entries.own.amount ≡ 0) × (entries.own.parts ≡ 1) }
        requires swept { (swept.book.total ≡ 0) × (swept.own.amount ≡ 0) × (swept.own.parts ≡ 1) }
    {
        // Records the recipients of the opening's entries before there is a lock to hold.
        let _ = book.note_recipients();
        let opening = annals.front(book.history().len());
        LockedBook {
            book,
            annals,
            opening,
            entries,
            swept,
        }
    }

    /// Shows a seat the whole history.
    fn show(&mut self, seat: &mut Seat<E, S>)
        ensures sees { Sees E.reference seat.old seat.new }
        ensures front { seat.new.front ≡ self.old }
        ensures same { self.new ≡ self.old }
    {
        self.entries.book.audit(&mut seat.entries);
        let seen = self.book.history().len();
        self.annals.complete(&mut seat.front, seen);
    }

    /// Enters a command from a seat, which then has seen the whole history. Returns the number of the entry and the reply.
    fn append(
        &mut self,
        seat: &mut Seat<E, S>,
        command: &Command,
    ) -> Result<(u64, Reply), EnterError>
        ensures entered { IfOk result (λ e. Enters E.reference seat.old
            (record { number = e.0; entry = Entry.Asked command.now e.1 }) seat.new) }
        ensures later { IfOk result (λ e. length E.opening + seat.old.entries < e.0) }
        ensures history { IfOk result (λ e. self.new ≡ self.old ++ Entry.Asked command.now e.1 ∷ []) }
        ensures front { OnOk result (seat.new.front ≡ self.new) }
        ensures full { IsErrOf result EnterError.Full ↔ (1000000 ≤ length self.old) }
        ensures refused { IfErr result (λ why. IsRefused E.reference seat.old why seat.new) }
        ensures same { OnErr result (self.new ≡ self.old) }
    {
        self.entries.book.audit(&mut seat.entries);
        let reply = match self.book.reply_to(command) {
            Ok(reply) => reply,
            Err(EnterError::Memory) => return Err(EnterError::Memory),
            Err(EnterError::Full) => {
                self.show(seat);
                return Err(EnterError::Full);
            }
        };
        let number = self.book.history().len();
        let front = &mut seat.front;
        self.annals.compare(front);
        *front = self.annals.asked(command, &reply, number);
        self.entries.book.add(&mut seat.entries, 1);
        Ok((number as u64, reply))
    }

    /// Returns a batch of a firm's notices of the entries from a number on.
    fn tell(&mut self, firm: FirmId, from: u64) -> Result<Stretch, AllocError>
        ensures told { IfOk result (IsStretch (record { reference = E.reference; history = self.old }) firm from) }
        ensures same { self.new ≡ self.old }
    {
        // Records the recipients of the entries since the last batch. If this fails, more of them are read.
        let _ = self.book.note_recipients();
        self.book.stretch(firm, from)
    }

    /// Returns the batch that was asked for, if any was, or None if an allocation for it fails.
    fn tell_asked(&mut self, asked: Option<(FirmId, u64)>) -> Option<Stretch>
        ensures told { IfSome result (IsStretchAsked (record { reference = E.reference; history = self.old }) asked) }
        ensures same { self.new ≡ self.old }
    {
        let (firm, from) = asked?;
        self.tell(firm, from).ok()
    }

    /// Enters a command from a seat. If a firm and a number are given, a batch of that firm's notices of the entries from that number on,
    /// including this one, comes with the reply. The batch may be missing, as it is if an allocation for it fails. It covers at most 1,024
    /// entries, and recipients are recorded of the entries since any seat's last batch.
    pub fn enter(
        &mut self,
        seat: &mut Seat<E, S>,
        command: &Command,
        tell: Option<(FirmId, u64)>,
    ) -> Result<Entered, EnterError>
        ensures entered { IfOk result (λ e. Enters E.reference seat.old
            (record { number = e.number; entry = Entry.Asked command.now e.reply }) seat.new) }
        ensures later { IfOk result (λ e. length E.opening + seat.old.entries < e.number) }
        ensures told { IfOk result (λ e. IfSome e.stretch (IsStretchAsked (book_seen E.reference seat.new) tell)) }
        ensures informs { IfOk result (λ e. HoldsInformed (book_seen E.reference seat.new) e.number e.informs) }
        ensures history { IfOk result (λ e. self.new ≡ self.old ++ Entry.Asked command.now e.reply ∷ []) }
        ensures front { OnOk result (seat.new.front ≡ self.new) }

        // Nothing is entered if the book is full, which the seat then sees, or if an allocation fails.
        ensures full { IsErrOf result EnterError.Full ↔ (1000000 ≤ length self.old) }
        ensures refused { IfErr result (λ why. IsRefused E.reference seat.old why seat.new) }
        ensures same { OnErr result (self.new ≡ self.old) }
    {
        let (number, reply) = self.append(seat, command)?;
        let stretch = self.tell_asked(tell);
        let informs = self.informs(number);
        Ok(Entered {
            number,
            reply,
            informs,
            stretch,
        })
    }

    /// Returns a set that may hold every firm notified of the entry with a number. It allocates nothing.
    pub fn informs(&self, number: u64) -> FirmFilter
        ensures { HoldsInformed (record { reference = E.reference; history = self.now }) number result }
    {
        self.book.informs(number)
    }

    /// Puts a question to the book, as the seat sees it then.
    pub fn put<Q: Question>(
        &mut self,
        seat: &mut Seat<E, S>,
        question: &mut Q,
    ) -> Result<(), AllocError>
        ensures sees { OnOk result (Sees E.reference seat.old seat.new) }
        ensures tells { OnOk result (Q.tells question.old (book_seen E.reference seat.new) question.new) }
        ensures front { OnOk result (seat.new.front ≡ self.old) }
        ensures same { self.new ≡ self.old }
        ensures refused { OnErr result (seat.new ≡ seat.old) }
    {
        question.ask(&self.book)?;
        self.show(seat);
        Ok(())
    }

    /// Answers a query.
    pub fn ask(&mut self, seat: &mut Seat<E, S>, query: Query) -> Result<Answer, AskError>
        ensures sees { OnOk result (Sees E.reference seat.old seat.new) }
        ensures answer { IfOk result (IsAnswer (book_seen E.reference seat.new) query) }
        ensures front { OnOk result (seat.new.front ≡ self.old) }
        ensures same { self.new ≡ self.old }
        ensures unknown { IsErrOf result AskError.UnknownGroup ↔ IsUnknown E.reference query }
        ensures refused { OnErr result (seat.new ≡ seat.old) }
    {
        let answer = self.book.answer(query)?;
        self.show(seat);
        Ok(answer)
    }

    /// Returns a batch of a firm's notices of the entries from a number on. It covers at most 1,024 entries, and records the recipients of
    /// the entries since any seat's last batch.
    pub fn stretch(
        &mut self,
        seat: &mut Seat<E, S>,
        firm: FirmId,
        from: u64,
    ) -> Result<Stretch, AllocError>
        ensures sees { OnOk result (Sees E.reference seat.old seat.new) }
        ensures told { IfOk result (IsStretch (book_seen E.reference seat.new) firm from) }
        ensures front { OnOk result (seat.new.front ≡ self.old) }
        ensures same { self.new ≡ self.old }
        ensures refused { OnErr result (seat.new ≡ seat.old) }
    {
        let stretch = self.tell(firm, from)?;
        self.show(seat);
        Ok(stretch)
    }

    /// Returns the view of a group.
    pub fn view(&mut self, seat: &mut Seat<E, S>, group: &Group) -> Result<View, AskError>
        ensures sees { OnOk result (Sees E.reference seat.old seat.new) }
        ensures view { IfOk result (λ view. view ≡ group_view E.reference seat.new.front group.now) }
        ensures nested { IfOk result (λ view. IsNested view) }
        ensures known { OnOk result (is_group E.reference group.now ≡ true) }
        ensures front { OnOk result (seat.new.front ≡ self.old) }
        ensures same { self.new ≡ self.old }
        ensures unknown { IsErrOf result AskError.UnknownGroup ↔ (is_group E.reference group.now ≡ false) }
        ensures refused { OnErr result (seat.new ≡ seat.old) }
    {
        let view = self.book.view(group)?;
        self.show(seat);
        Ok(view)
    }

    /// Commits a proposal for a view as the seat sees it, and returns the number of the entry. The sweep's stored form was made before. The
    /// view isn't compared with the book: it is stale if and only if its version isn't its group's version now.
    pub fn commit(
        &mut self,
        seat: &mut Seat<E, S>,
        proposal: &Proposal,
        kept: KeptSweep,
    ) -> Result<u64, SeenError>
        requires kept { kept ≡ sweep_of proposal.now }
        requires known { is_group E.reference proposal.now.view.group ≡ true }
        requires seen { proposal.now.view ≡ group_view E.reference seat.old.front proposal.now.view.group }
        ensures entered { IfOk result (λ number. Enters E.reference seat.old
            (record { number = number; entry = Entry.Swept (sweep_of proposal.now) }) seat.new) }
        ensures later { IfOk result (λ number. length E.opening + seat.old.entries < number) }
        ensures current { OnOk result (proposal.now.view ≡ group_view E.reference self.old proposal.now.view.group) }
        ensures history { OnOk result (self.new ≡ self.old ++ Entry.Swept (sweep_of proposal.now) ∷ []) }
        ensures front { OnOk result (seat.new.front ≡ self.new) }

        // What each refusal means, and what the seat sees then.
        ensures why { IfErr result (λ why.
            Refuses (record { reference = E.reference; history = self.old }) proposal.now.view (commit_error_of why)) }
        ensures refused { IfErr result (λ why.
            IsSweepRefused E.reference seat.old proposal.now.view.group (refusal_of_second_hold why) seat.new) }
        ensures same { OnErr result (self.new ≡ self.old) }
    {
        self.entries.book.audit(&mut seat.entries);
        self.annals.compare(&mut seat.front);
        // Shows the prover: the history is legal.
        let _ = self.book.history();
        let number = match self.book.enter_seen(proposal, kept) {
            Ok(number) => number,
            Err(why) => {
                self.show(seat);
                return Err(why);
            }
        };
        seat.front = self.annals.swept(proposal, number as usize);
        self.entries.book.add(&mut seat.entries, 1);
        self.swept.book.add(&mut seat.swept, proposal.lots());
        // Shows the prover: the history is legal.
        let _ = self.book.history();
        Ok(number)
    }

    /// Returns a copy of a seat's front.
    pub fn front(&mut self, seat: &mut Seat<E, S>) -> Front<E>
        ensures front { result ≡ seat.old.front }
        ensures seat { seat.new ≡ seat.old }
        ensures same { self.new ≡ self.old }
    {
        self.annals.copy(&mut seat.front)
    }

    /// Shows a seat the whole history, and so all that a front has.
    pub fn catch_up(&mut self, seat: &mut Seat<E, S>, front: &mut Front<E>)
        ensures sees { Sees E.reference seat.old seat.new }
        ensures begins { IsPrefix front.old seat.new.front }
        ensures whole { seat.new.front ≡ self.old }
        ensures front { front.new ≡ front.old }
        ensures same { self.new ≡ self.old }
    {
        self.annals.compare(front);
        self.show(seat);
    }

    /// Appends copies of the entries after a front to a list, at most `most`, and extends the front by those copied, even if an allocation
    /// fails.
    pub fn entries_from(
        &mut self,
        front: &mut Front<E>,
        most: usize,
        entries: &mut Vec<Entry>,
    ) -> Result<(), AllocError>
        ensures grown { (more : List EntryOf) × (front.new ≡ front.old ++ more) × (entries.new.items ≡ entries.old.items ++ more) }
        ensures all { OnOk result (front.new ≡ take (length front.old + most) self.new) }
        ensures whole { OnOk result (length front.new < length front.old + most → front.new ≡ self.new) }
        ensures within { length front.new ≤ 1000000 }
        ensures same { self.new ≡ self.old }
    {
        let place = front.count();
        self.annals.compare(front);
        let history = self.book.history();
        let end = place + most.min(history.len() - place);
        let mut next = place;
        let copied = copy_entries(history, &mut next, end, entries);
        *front = self.annals.cut(next);
        copied
    }

    /// Returns the book, once all seats are back.
    pub(crate) fn close(self, seats: Vec<Seat<E, S>>) -> Book
        requires { (0 < E.parts) × (E.parts ≡ S.parts) × (E.parts ≤ vec_len seats + 1) }
        ensures entries { length result.history ≡ length E.opening + sum_by (λ s. s.entries) seats.items }
        ensures swept { lots_swept result.history ≡ S.opening + sum_by (λ s. s.swept) seats.items }
        ensures reference { result.reference ≡ E.reference }
        ensures opening { IsPrefix E.opening result.history }
        ensures seen { All (λ s. IsPrefix s.front result.history) seats.items }
    {
        let LockedBook {
            book,
            mut annals,
            mut opening,
            mut entries,
            mut swept,
        } = self;
        gather(&mut annals, &mut entries.own, &mut swept.own, seats);
        entries.book.audit(&mut entries.own);
        swept.book.audit(&mut swept.own);
        annals.compare(&mut opening);
        book
    }
}
