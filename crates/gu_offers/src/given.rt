//! An offer as stored.

ghost use Rattle.std.specs.Prelude.{◌≡◌, ◌+◌, ◌-◌, ◌≤◌, if◌then◌else◌, ◌==◌, List, ℕ};
ghost use Rattle.gu_offers.specs.Changes.{taken, reversed};
ghost use Rattle.gu_offers.specs.Given.{given_in, row_of, IsWithin};

use gu_terms::{AccountId, FirmId, Group, Lots};

/// An offer as stored, without the id of its report, which is stored with those of all offers. Fields go from small to large, to save room.
#[derive(Clone, Copy)]
pub(crate) struct Given {
    pub(crate) firm: FirmId,
    pub(crate) group: Group,
    pub(crate) account: AccountId,
    /// The length of the id in bytes.
    pub(crate) len: u8,
    pub(crate) is_shut: bool,
    pub(crate) lots: Lots,
    /// The position of the id's first byte.
    pub(crate) at: usize,
    pub(crate) moved: u64,
    /// The number of the day on which lots of it were last moved.
    pub(crate) moved_on: u64,
    /// The lots moved on that day.
    pub(crate) today: u64,
}

/// The values that the lines of a give-up share.
#[derive(Clone, Copy)]
pub(crate) struct Shared {
    pub(crate) firm: FirmId,
    pub(crate) group: Group,
    pub(crate) at: usize,
    pub(crate) len: u8,
}

impl Given {
    /// Returns the lots left of it.
    pub(crate) fn left(&self) -> u64
        ensures { result ≡ (if self.now.is_shut then 0 else self.now.lots - self.now.moved) }
    {
        if self.is_shut {
            return 0;
        }
        self.lots.get().saturating_sub(self.moved)
    }

    /// Returns the lots of it that were moved on the day with this number.
    pub(crate) fn moved_on(&self, day: u64) -> u64
        ensures { result ≡ (if self.now.moved_on == day then self.now.today else 0) }
    {
        if self.moved_on == day { self.today } else { 0 }
    }

    /// Moves lots of it.
    pub(crate) fn take(&mut self, lots: u64, day: u64)
        requires fits { self.old.moved + lots ≤ self.old.lots }
        requires today { (if self.old.moved_on == day then self.old.today else 0) ≤ self.old.moved }
        ensures row { (ids : List ℕ) → row_of day (given_in ids self.new) ≡ taken lots (row_of day (given_in ids self.old)) }
        ensures on { self.new.moved_on ≡ day }
        ensures within { (ids : List ℕ) → IsWithin ids self.old → IsWithin ids self.new }
    {
        let today = self.moved_on(day);
        // Shows the prover: lots are within their range.
        let _lots = self.lots.get();
        self.moved += lots;
        self.today = today + lots;
        self.moved_on = day;
    }

    /// Takes back the lots moved on this day, and closes it.
    pub(crate) fn reverse(&mut self, day: u64)
        requires { (if self.old.moved_on == day then self.old.today else 0) ≤ self.old.moved }
        ensures row { (ids : List ℕ) → row_of day (given_in ids self.new) ≡ reversed (row_of day (given_in ids self.old)) }
        ensures on { self.new.moved_on ≡ self.old.moved_on }
        ensures within { (ids : List ℕ) → IsWithin ids self.old → IsWithin ids self.new }
    {
        self.moved -= self.moved_on(day);
        self.today = 0;
        self.is_shut = true;
    }
}
