//! Offers as stored.

ghost use Rattle.std.specs.Prelude.{◌≡◌, ℕ, ◌+◌, ◌++◌, ◌<◌, ◌≤◌, [], length, map, slice_get, take, vec_capacity, vec_len, OnErr, OnOk, Some};
ghost use Rattle.std.specs.Option.{option_map};
ghost use Rattle.gu_offers.specs.Changes.{closed, reversed, taken};
ghost use Rattle.gu_offers.specs.Given.{forgotten, given_for, kept_for, row_of, without_today, GivenUp as GivenOf};
ghost use Rattle.gu_offers.specs.Kept.{IsSoundAt, IsWritten};
ghost use Rattle.gu_offers.specs.Rows.{left_of};

use crate::given::{Given, Shared};
use gu_terms::{AccountId, FirmId, Group, Id, Line, Offer};
use std::alloc::{AllocError, Global};
use std::marker::Model;

/// A list of offers in the order of their numbers. To a contract it is their list.
#[derive(Drop)]
pub(crate) struct KeptRows {
    list: Vec<Given>,
    /// The ids of their reports, one for each give-up, joined in order.
    ids: Vec<u8>,
}

impl Model for KeptRows {
    ghost use Rattle.std.specs.Prelude.{All, List, map};
    ghost use Rattle.gu_offers.specs.Given.{given_in, GivenUp, IsWithin};

    ghost Value = { List GivenUp };

    ghost view = { λ r. map (given_in r.ids.items) r.list.items };

    ghost invariant = { λ r. All (IsWithin r.ids.items) r.list.items };
}

/// Appends the stored form of each line. There is room.
fn push_lines(list: &mut Vec<Given>, shared: &Shared, lines: &[Line])
    requires { vec_len list.old + length lines.now ≤ vec_capacity list.old }
    ensures { list.new.items ≡ list.old.items ++ map (kept_for shared.now) lines.now }
{
    for line in lines {
        list.push_reserved(Given {
            firm: shared.firm,
            group: shared.group,
            account: line.account,
            len: shared.len,
            is_shut: false,
            lots: line.lots,
            at: shared.at,
            moved: 0,
            moved_on: 0,
            today: 0,
        });
    }
}

/// Resets what was moved today to 0.
fn forget(list: &mut Vec<Given>)
    ensures { list.new.items ≡ map without_today list.old.items }
{
    for given in list.iter_mut() {
        given.today = 0;
    }
}

impl KeptRows {
    /// Returns an empty list.
    pub(crate) fn new(alloc: Global) -> Self
        ensures { result ≡ [] }
    {
        KeptRows {
            list: Vec::new(alloc),
            ids: Vec::new(alloc),
        }
    }

    /// Returns the number of offers.
    pub(crate) fn len(&self) -> usize
        ensures { result ≡ length self.now }
    {
        self.list.len()
    }

    /// Returns the offer at an index.
    pub(crate) fn offer(&self, place: usize) -> Offer
        requires { place < length self.now }
        ensures { option_map (λ (g : GivenOf). g.offer) (slice_get self.now place) ≡ Some result }
    {
        let given = &self.list[place];
        Offer {
            firm: given.firm,
            report: Id::known(&self.ids[given.at..given.at + usize::from(given.len)]),
            group: given.group,
            account: given.account,
            lots: given.lots,
        }
    }

    /// Returns the firm and the account of the offer at an index.
    pub(crate) fn parties(&self, place: usize) -> (FirmId, AccountId)
        requires { place < length self.now }
        ensures { option_map (λ (g : GivenOf). (g.offer.firm, g.offer.account)) (slice_get self.now place) ≡ Some result }
    {
        let given = &self.list[place];
        (given.firm, given.account)
    }

    /// Returns the lots left of the offer at an index.
    pub(crate) fn left(&self, place: usize) -> u64
        requires { place < length self.now }
        ensures { (day : ℕ) → option_map (λ (g : GivenOf). left_of (row_of day g)) (slice_get self.now place) ≡ Some result }
    {
        self.list[place].left()
    }

    /// Returns the lots of the offer at an index that were moved on the day with this number.
    pub(crate) fn moved_on(&self, place: usize, day: u64) -> u64
        requires { place < length self.now }
        ensures { option_map (λ (g : GivenOf). (row_of day g).today) (slice_get self.now place) ≡ Some result }
    {
        self.list[place].moved_on(day)
    }

    /// Appends an offer for each line of a give-up, or none.
    pub(crate) fn push(
        &mut self,
        firm: &FirmId,
        report: &Id,
        group: &Group,
        lines: &[Line],
    ) -> Result<(), AllocError>
        ensures pushed { OnOk result (self.new ≡ self.old ++ map (given_for firm.now report.now group.now) lines.now) }
        ensures refused { OnErr result (self.new ≡ self.old) }
    {
        let id = report.get();
        let shared = Shared {
            firm: *firm,
            group: *group,
            at: self.ids.len(),
            len: id.len() as u8,
        };
        self.list.reserve(lines.len())?;
        self.ids.extend_from_slice(id)?;
        push_lines(&mut self.list, &shared, lines);
        Ok(())
    }

    /// Keeps the first `count` offers.
    pub(crate) fn truncate(&mut self, count: usize)
        ensures { self.new ≡ take count self.old }
    {
        self.list.truncate(count);
    }

    /// Resets what was moved today to 0.
    pub(crate) fn forget(&mut self)
        ensures { self.new ≡ map forgotten self.old }
    {
        forget(&mut self.list);
    }
}

/// Moves lots of an offer. Returns its product group and the lots left of it.
pub(crate) fn take_of(rows: &mut KeptRows, place: usize, lots: u64, day: u64) -> (Group, u64)
    requires inside { place < length rows.old }
    requires sound { IsSoundAt rows.old place day }
    requires left { (g : GivenOf) → slice_get rows.old place ≡ Some g → lots ≤ left_of (row_of day g) }
    ensures written { IsWritten rows.old rows.new place day (taken lots) }
    ensures group { (g : GivenOf) → slice_get rows.old place ≡ Some g → result.0 ≡ g.offer.group }
    ensures left { (g : GivenOf) → slice_get rows.old place ≡ Some g → result.1 ≡ left_of (taken lots (row_of day g)) }
{
    let given = &mut rows.list[place];
    let group = given.group;
    given.take(lots, day);
    (group, given.left())
}

/// Closes an offer. Returns its product group.
pub(crate) fn close_of(rows: &mut KeptRows, place: usize) -> Group
    requires { place < length rows.old }
    ensures written { (day : ℕ) → IsWritten rows.old rows.new place day closed }
    ensures group { (g : GivenOf) → slice_get rows.old place ≡ Some g → result ≡ g.offer.group }
{
    let given = &mut rows.list[place];
    given.is_shut = true;
    given.group
}

/// Takes back what was moved of an offer on this day, and closes it.
pub(crate) fn reverse_of(rows: &mut KeptRows, place: usize, day: u64)
    requires inside { place < length rows.old }
    requires sound { IsSoundAt rows.old place day }
    ensures { IsWritten rows.old rows.new place day reversed }
{
    rows.list[place].reverse(day);
}
