//! The offers of the house, by number.

ghost use Rattle.std.specs.Prelude.{◌≡◌, ℕ, ◌+◌, ◌<◌, ◌≤◌, ◌++◌, [], length, map, slice_get, All, Some, vec_len, vec_capacity, OnOk, OnErr, IfOk};
ghost use Rattle.std.specs.Option.{option_map};
ghost use Rattle.gu_offers.specs.Changes.{changed, closed, next_day, reversed, taken, with_lines};
ghost use Rattle.gu_terms.specs.Numbers.{IsLots};
ghost use Rattle.gu_offers.specs.Given.{row_of};
ghost use Rattle.gu_offers.specs.Rows.{IsSound, left_in, open_count, open_numbers, open_offer_at, open_offers, row_at, today_in};

use crate::groups::Groups;
use crate::kept_rows::{KeptRows, close_of, reverse_of, take_of};
use crate::open_offer::OpenOffer;
use gu_terms::{AccountId, FirmId, Group, Id, Line, Lines, Offer, OfferNo};
use std::alloc::{AllocError, Global};
use std::marker::Model;

/// The offers of the house, numbered from 1. To a contract it is their list, with offer n at index n - 1.
pub struct Offers {
    rows: KeptRows,
    groups: Groups,
    /// The number of the day, by which lots moved since it was opened are known.
    day: u64,
}

impl Drop for Offers {
    fn drop(self) {
        let Offers {
            rows,
            groups,
            day: _,
        } = self;
        drop(rows);
        drop(groups);
    }
}

impl Model for Offers {
    ghost use Rattle.std.specs.Prelude.{List};
    ghost use Rattle.gu_offers.specs.Rows.{Row};

    ghost Value = { List Row };

    ghost use Rattle.gu_offers.specs.Kept.{rows_of, IsKept};

    ghost view = { rows_of };

    ghost invariant = { IsKept };
}

/// Returns the index of a number.
fn place_of(number: OfferNo) -> usize
    ensures { result + 1 ≡ number }
{
    number.get() as usize - 1
}

/// Shows the prover: the lots of each line are in their range.
fn are_lots(lines: &[Line])
    ensures { All (λ line. IsLots line.lots) lines.now }
{
    for line in lines {
        // Shows the prover: lots are within their range.
        let _lots = line.lots.get();
    }
}

/// Returns the offer with this number and the lots left of it.
fn open_offer(rows: &KeptRows, number: u64) -> OpenOffer
    requires some { 1 ≤ number }
    requires inside { number ≤ length rows.now }
    requires few { length rows.now ≤ 16000000 }
    ensures { (day : ℕ) → open_offer_at (map (row_of day) rows.now) number ≡ Some result }
{
    let place = number as usize - 1;
    OpenOffer {
        number: OfferNo::known(number),
        offer: rows.offer(place),
        left: rows.left(place),
    }
}

impl Offers {
    /// Returns an empty table.
    pub fn new(alloc: Global) -> Self
        ensures { result ≡ [] }
    {
        Offers {
            rows: KeptRows::new(alloc),
            groups: Groups::new(alloc),
            day: 0,
        }
    }

    /// Shows the prover the rules of all offers.
    pub fn rules(&self)
        ensures sound { All IsSound self.now }
        ensures few { length self.now ≤ 16000000 }
    {
        // Reading a field shows the prover the invariant of its type.
        let _ = &self.rows;
    }

    /// Returns the number of offers.
    pub fn count(&self) -> usize
        ensures { result ≡ length self.now }
    {
        self.rows.len()
    }

    /// Returns the offer with this number.
    pub fn get(&self, number: OfferNo) -> Option<Offer>
        ensures { result ≡ option_map (λ r. r.offer) (row_at self.now number) }
    {
        let place = place_of(number);
        if place >= self.rows.len() {
            return None;
        }
        Some(self.rows.offer(place))
    }

    /// Returns the firm that gave up the offer with this number, and the account to which it did.
    pub fn parties(&self, number: OfferNo) -> Option<(FirmId, AccountId)>
        ensures { result ≡ option_map (λ r. (r.offer.firm, r.offer.account)) (row_at self.now number) }
    {
        let place = place_of(number);
        if place >= self.rows.len() {
            return None;
        }
        Some(self.rows.parties(place))
    }

    /// Returns the lots left of an offer; 0 if there is none with this number.
    pub fn left(&self, number: OfferNo) -> u64
        ensures { result ≡ left_in self.now number }
    {
        let place = place_of(number);
        if place >= self.rows.len() {
            return 0;
        }
        self.rows.left(place)
    }

    /// Returns the lots of an offer that were moved since the day was opened; 0 if there is none with this number.
    pub fn moved_today(&self, number: OfferNo) -> u64
        ensures { result ≡ today_in self.now number }
    {
        let place = place_of(number);
        if place >= self.rows.len() {
            return 0;
        }
        self.rows.moved_on(place, self.day)
    }

    /// Returns the number of open offers in a product group.
    pub fn open_count(&self, group: Group) -> usize
        ensures { result ≡ open_count self.now group }
    {
        self.groups.of(&group).len()
    }

    /// Returns the numbers of a product group's open offers, ascending. It allocates nothing.
    pub fn open_numbers(&self, group: Group) -> &[u64]
        ensures { result.now ≡ open_numbers self.now group }
    {
        self.groups.of(&group)
    }

    /// Moves lots of an offer, at most those that are left.
    pub fn take(&mut self, number: OfferNo, lots: u64)
        requires { lots ≤ left_in self.old number }
        ensures { self.new ≡ changed self.old number (taken lots) }
    {
        let place = place_of(number);
        if place >= self.rows.len() {
            return;
        }
        let day = self.day;
        let (group, left) = take_of(&mut self.rows, place, lots, day);
        if left == 0 {
            self.groups.take_out(&group, number.get());
        }
    }

    /// Closes an offer: nothing is left of it. Lots already moved stay moved.
    pub fn close(&mut self, number: OfferNo)
        ensures { self.new ≡ changed self.old number closed }
    {
        let place = place_of(number);
        if place >= self.rows.len() {
            return;
        }
        let group = close_of(&mut self.rows, place);
        self.groups.take_out(&group, number.get());
    }

    /// Takes back what was moved of a closed offer since the day was opened. The offer stays closed for good.
    pub fn reverse(&mut self, number: OfferNo)
        requires closed { left_in self.old number ≡ 0 }
        requires moved { 0 < today_in self.old number }
        ensures { self.new ≡ changed self.old number reversed }
    {
        let place = place_of(number);
        if place >= self.rows.len() {
            return;
        }
        let day = self.day;
        reverse_of(&mut self.rows, place, day);
    }

    /// Makes an offer for each line of a give-up, or none, and returns the number of the first.
    pub fn give_up(
        &mut self,
        firm: FirmId,
        report: Id,
        group: Group,
        lines: &Lines,
    ) -> Result<OfferNo, AllocError>
        requires { length self.old + length lines.now ≤ 16000000 }
        ensures offered { OnOk result (self.new ≡ with_lines self.old firm report group lines.now) }
        ensures first { IfOk result (λ number. number ≡ length self.old + 1) }
        ensures refused { OnErr result (self.new ≡ self.old) }
    {
        let lines = lines.as_slice();
        are_lots(lines);
        let count = self.rows.len();
        let first = OfferNo::known(count as u64 + 1);
        self.rows.push(&firm, &report, &group, lines)?;
        if let Err(refused) = self.groups.append(&group, first.get(), lines.len()) {
            self.rows.truncate(count);
            return Err(refused);
        }
        Ok(first)
    }

    /// Opens a day: nothing has been moved since.
    pub fn new_day(&mut self)
        ensures { self.new ≡ map next_day self.old }
    {
        match self.day.checked_add(1) {
            Some(day) => self.day = day,
            None => self.rows.forget(),
        }
    }

    /// Returns a product group's open offers, in the order of their numbers.
    pub fn of_group(&self, group: Group) -> Result<Vec<OpenOffer>, AllocError>
        ensures { IfOk result (λ offers. offers.items ≡ open_offers self.now group) }
    {
        let mut offers = Vec::new(self.groups.alloc);
        for number in self.groups.of(&group) {
            offers.push(open_offer(&self.rows, *number))?;
        }
        Ok(offers)
    }
}
