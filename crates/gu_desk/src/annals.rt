//! The one history of a desk, which exists only in the proofs, and prefixes of it.

ghost use Rattle.std.specs.Prelude.{◌≡◌, ◌≤◌, ◌+◌, ◌∷◌, ◌++◌, [], length, take, IfOk};
ghost use mathlib.Core.List.{IsPrefix};
ghost use Rattle.gu_book.specs.Commits.{sweep_of};

use crate::ledger::EntryLedger;
use atomic_table::{Join, Play, Seat, Split, Table, TableRule};
use gu_book::Book;
use gu_flow::Proposal;
use gu_terms::{Command, Entry, History, Reply};
use std::alloc::{AllocError, Global};
use std::marker::{Brand, Model, PhantomData};

/// One party's knowledge of the history: the keeper knows all of it (`log`), and a front a prefix (`front`). No value of this type is made.
pub struct Known {
    pub keeps: bool,
    pub log: History,
    pub front: History,
}

/// The rule of the history: one party keeps it, and every front is a prefix of it.
pub struct OneHistory;

impl TableRule<(), Known, Book> for OneHistory {
    ghost use Rattle.gu_desk.specs.Annals.{Kept, keeper};

    ghost holds = { λ book. Kept };

    ghost first = { λ book. keeper book.history };
}

/// The entries of a step. A step of the table takes no ghost argument, so they come as a type parameter, whose member each call picks in
/// its `Invariants.antt`.
pub trait Spoken {
    ghost use Rattle.std.specs.Prelude.{List};
    ghost use Rattle.gu_terms.specs.declared.entry.Entry.{Entry};

    ghost entries: { List Entry };
}

impl Spoken for Brand {
    ghost use Rattle.std.specs.Prelude.{[]};

    ghost entries = { [] };
}

/// The keeper's step that adds entries.
pub struct Adding<N: Spoken> {
    of: PhantomData<N>,
}

impl<N: Spoken> Play<(), Known> for Adding<N> {
    ghost use Rattle.gu_desk.specs.Annals.{Added};

    ghost then = { λ step. Added N.entries };
}

/// The keeper's step that compares a prefix with the history.
pub struct Comparing;

impl Play<(), Known> for Comparing {
    ghost use Rattle.gu_desk.specs.Annals.{Compared};

    ghost then = { λ step. Compared };
}

/// The keeper's step that makes a front of all that it knows, or takes one in.
pub struct Telling;

impl Split<Known> for Telling {
    ghost use Rattle.gu_desk.specs.Annals.{beginning};

    ghost left = { λ v. v };

    ghost right = { λ v. beginning v.log };
}

impl Join<Known> for Telling {
    ghost use Rattle.std.specs.Prelude.{[]};
    ghost use Rattle.gu_desk.specs.Annals.{beginning, beside};

    ghost both = { beside };

    ghost spent = { beginning [] };
}

/// A front's step that makes another front of what it knows.
pub struct Copying;

impl Split<Known> for Copying {
    ghost use Rattle.gu_desk.specs.Annals.{beginning};

    ghost left = { λ v. v };

    ghost right = { λ v. beginning v.front };
}

/// The keeper's step that makes a front of the first entries.
pub struct Cutting<N: Spoken> {
    of: PhantomData<N>,
}

impl<N: Spoken> Split<Known> for Cutting<N> {
    ghost use Rattle.gu_desk.specs.Annals.{beginning};

    ghost left = { λ v. v };

    ghost right = { λ v. beginning N.entries };
}

/// A prefix of the one history of a desk. To a contract it is the list of its entries; at run time it is their number.
#[derive(Drop)]
pub struct Front<E: EntryLedger> {
    seat: Seat<(), Known>,
    count: usize,
    of: PhantomData<E>,
}

impl<E: EntryLedger> Model for Front<E> {
    ghost use Rattle.std.specs.Prelude.{◌≡◌, List, [], length};
    ghost use Rattle.gu_terms.specs.declared.entry.Entry.{Entry};

    ghost Value = { List Entry };

    ghost view = { λ f. f.seat.me.0.front };

    ghost invariant = { λ f. (f.seat.table_id ≡ E.history) × (f.seat.me.1 ≡ []) × (f.count ≡ length f.seat.me.0.front) };
}

impl<E: EntryLedger> Front<E> {
    /// Returns the number of its entries.
    pub fn count(&self) -> usize
        ensures { result ≡ length self.now }
    {
        self.count
    }
}

/// The keeper of the history, which knows all of it. To a contract it is the list of its entries. At run time it is one word, which is read
/// and never written.
pub struct Annals<E: EntryLedger> {
    table: Table<(), Known, Book, OneHistory, Global>,
    keeper: Seat<(), Known>,
    of: PhantomData<E>,
}

impl<E: EntryLedger> Drop for Annals<E> {
    fn drop(self) {
        let Annals {
            table,
            keeper,
            of: _,
        } = self;
        drop(table);
        drop(keeper);
    }
}

impl<E: EntryLedger> Model for Annals<E> {
    ghost use Rattle.std.specs.Prelude.{◌≡◌, List, [], true};
    ghost use Rattle.gu_terms.specs.declared.entry.Entry.{Entry};

    ghost Value = { List Entry };

    ghost view = { λ a. a.keeper.me.0.log };

    ghost invariant = { λ a. (a.table.shared.table_id ≡ E.history) × (a.table.shared.table_id.words ≡ 1) × (a.keeper.table_id ≡ E.history)
        × (a.keeper.me.1 ≡ []) × (a.keeper.me.0.keeps ≡ true) };
}

/// A history not yet opened by a desk. To a contract it is its name and its entries.
pub struct BlankAnnals {
    table: Table<(), Known, Book, OneHistory, Global>,
    keeper: Seat<(), Known>,
}

impl Drop for BlankAnnals {
    fn drop(self) {
        let BlankAnnals { table, keeper } = self;
        drop(table);
        drop(keeper);
    }
}

impl Model for BlankAnnals {
    ghost use Rattle.std.specs.Prelude.{◌≡◌, [], true};
    ghost use Rattle.gu_desk.specs.Annals.{Unopened};

    ghost Value = { Unopened };

    ghost view = { λ a. record { name = a.table.shared.table_id; entries = a.keeper.me.0.log } };

    ghost invariant = { λ a. (a.table.shared.table_id.words ≡ 1) × (a.keeper.table_id ≡ a.table.shared.table_id) × (a.keeper.me.1 ≡ [])
        × (a.keeper.me.0.keeps ≡ true) };
}

impl BlankAnnals {
    /// Returns the history of a book, for a desk that is to be opened over it.
    pub fn of(alloc: Global, book: &Book) -> Result<BlankAnnals, AllocError>
        ensures { IfOk result (λ annals. annals.entries ≡ book.now.history) }
    {
        let (table, keeper) = Table::of_words(alloc, &[0], book)?;
        Ok(BlankAnnals { table, keeper })
    }

    /// Returns the history of a desk, whose ledger names it.
    pub(crate) fn opened<E: EntryLedger>(self) -> Annals<E>
        requires { self.name ≡ E.history }
        ensures { result ≡ self.entries }
    {
        let BlankAnnals { table, keeper } = self;
        Annals {
            table,
            keeper,
            of: PhantomData,
        }
    }
}

impl<E: EntryLedger> Annals<E> {
    /// Adds the entry of a command, which is the entry of the step.
    fn add_asked<N: Spoken>(&mut self, command: &Command, reply: &Reply)
        requires { N.entries ≡ Entry.Asked command.now reply.now ∷ [] }
        ensures { self.new ≡ self.old ++ Entry.Asked command.now reply.now ∷ [] }
    {
        let _ = command;
        let _ = reply;
        let table = &self.table;
        let shared = &table.shared;
        shared.load::<Adding<N>>(&mut self.keeper, 0);
    }

    /// Adds the entry of a sweep, which is the entry of the step.
    fn add_sweep<N: Spoken>(&mut self, proposal: &Proposal)
        requires { N.entries ≡ Entry.Swept (sweep_of proposal.now) ∷ [] }
        ensures { self.new ≡ self.old ++ Entry.Swept (sweep_of proposal.now) ∷ [] }
    {
        let _ = proposal;
        let table = &self.table;
        let shared = &table.shared;
        shared.load::<Adding<N>>(&mut self.keeper, 0);
    }

    /// Returns the first entries as a front; they are the entries of the cut.
    fn cut_as<N: Spoken>(&mut self, count: usize) -> Front<E>
        requires entries { N.entries ≡ take count self.old }
        requires within { count ≤ length self.old }
        ensures front { result ≡ take count self.old }
        ensures same { self.new ≡ self.old }
    {
        let table = &self.table;
        let shared = &table.shared;
        let seat = shared.split_seat::<Cutting<N>>(&mut self.keeper);
        Front {
            seat,
            count,
            of: PhantomData,
        }
    }

    /// Returns the first `count` entries as a front.
    pub(crate) fn cut(&mut self, count: usize) -> Front<E>
        requires { count ≤ length self.old }
        ensures front { result ≡ take count self.old }
        ensures same { self.new ≡ self.old }
    {
        self.cut_as::<Brand>(count)
    }

    /// Returns the whole history so far, with this number of entries, as a front.
    pub(crate) fn front(&mut self, count: usize) -> Front<E>
        requires { count ≡ length self.old }
        ensures front { result ≡ self.old }
        ensures same { self.new ≡ self.old }
    {
        let table = &self.table;
        let shared = &table.shared;
        let seat = shared.split_seat::<Telling>(&mut self.keeper);
        Front {
            seat,
            count,
            of: PhantomData,
        }
    }

    /// Takes a front in, and shows that it is a prefix of the history.
    fn take_in(&mut self, front: Front<E>)
        ensures begins { IsPrefix front self.old }
        ensures same { self.new ≡ self.old }
    {
        let Front {
            seat,
            count: _,
            of: _,
        } = front;
        let table = &self.table;
        let shared = &table.shared;
        shared.join_seat::<Telling>(&mut self.keeper, seat);
        shared.load::<Comparing>(&mut self.keeper, 0);
    }

    /// Returns a copy of a front.
    pub(crate) fn copy(&self, front: &mut Front<E>) -> Front<E>
        ensures copy { result ≡ front.old }
        ensures same { front.new ≡ front.old }
    {
        let table = &self.table;
        let shared = &table.shared;
        let seat = shared.split_seat::<Copying>(&mut front.seat);
        Front {
            seat,
            count: front.count,
            of: PhantomData,
        }
    }

    /// Shows that a front is a prefix of the history.
    pub(crate) fn compare(&mut self, front: &mut Front<E>)
        ensures begins { IsPrefix front.old self.old }
        ensures front { front.new ≡ front.old }
        ensures same { self.new ≡ self.old }
    {
        let copy = self.copy(front);
        self.take_in(copy);
    }

    /// Extends a front to the whole history, with this number of entries.
    pub(crate) fn complete(&mut self, front: &mut Front<E>, count: usize)
        requires { count ≡ length self.old }
        ensures begins { IsPrefix front.old self.old }
        ensures front { front.new ≡ self.old }
        ensures same { self.new ≡ self.old }
    {
        self.compare(front);
        *front = self.front(count);
    }

    /// Adds the entry of a command, and returns the whole history, which then has this number of entries, as a front.
    pub(crate) fn asked(&mut self, command: &Command, reply: &Reply, count: usize) -> Front<E>
        requires { count ≡ length self.old + 1 }
        ensures front { result ≡ self.new }
        ensures added { self.new ≡ self.old ++ Entry.Asked command.now reply.now ∷ [] }
    {
        self.add_asked::<Brand>(command, reply);
        self.front(count)
    }

    /// Adds the entry of a proposal's sweep, and returns the whole history, which then has this number of entries, as a front.
    pub(crate) fn swept(&mut self, proposal: &Proposal, count: usize) -> Front<E>
        requires { count ≡ length self.old + 1 }
        ensures front { result ≡ self.new }
        ensures added { self.new ≡ self.old ++ Entry.Swept (sweep_of proposal.now) ∷ [] }
    {
        self.add_sweep::<Brand>(proposal);
        self.front(count)
    }
}
