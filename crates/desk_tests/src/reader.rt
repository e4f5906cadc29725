//! A reader of a desk's one history.

use gu_book::Book;
use gu_desk::{EntryLedger, Front, LockedBook, LotLedger, Seat};
use gu_terms::Entry;
use std::alloc::{AllocError, Global};
use std::process::Abort;

/// What was read of a desk's history from a front on, and the front after it.
pub struct Reader<E: EntryLedger> {
    front: Front<E>,
    entries: Vec<Entry>,
}

// By hand, so that each exit of a caller drops a reader by one call.
impl<E: EntryLedger> Drop for Reader<E> {
    fn drop(self) {
        let Reader { front, entries } = self;
        drop(front);
        drop(entries);
    }
}

impl<E: EntryLedger> Reader<E> {
    /// Creates a reader that goes on after the last entry that a seat has seen.
    pub fn new<S: LotLedger>(
        alloc: Global,
        held: &mut LockedBook<E, S>,
        seat: &mut Seat<E, S>,
    ) -> Self {
        Reader {
            front: held.front(seat),
            entries: Vec::new(alloc),
        }
    }

    /// Reads at most this many entries.
    pub fn read<S: LotLedger>(
        &mut self,
        held: &mut LockedBook<E, S>,
        most: usize,
    ) -> Result<(), AllocError> {
        held.entries_from(&mut self.front, most, &mut self.entries)
    }

    /// Has a seat see what was read, and all that came since.
    pub fn show_to<S: LotLedger>(&mut self, held: &mut LockedBook<E, S>, seat: &mut Seat<E, S>) {
        held.catch_up(seat, &mut self.front);
    }

    /// Returns the number of the last entry that was read.
    pub fn number(&self) -> usize {
        self.front.count()
    }

    /// Returns how many entries are kept.
    pub fn len(&self) -> usize {
        self.entries.len()
    }

    /// Forgets the entries that were read, not how far.
    pub fn forget(&mut self) {
        self.entries.clear();
    }

    /// Compares the entries that were read with the last ones of a book.
    pub fn compare(&self, rt: &impl Abort, book: &Book) {
        let history = book.history();
        assert_eq!(rt; self.number(), history.len());
        let mut number = (self.number() as u64)
            .checked_sub(self.entries.len() as u64)
            .expect(rt, "as many entries");
        for entry in &self.entries {
            number = number.checked_add(1).expect(rt, "a number");
            assert_eq!(rt; history.is_entry(number, entry), Some(true), "{number}");
        }
    }
}
