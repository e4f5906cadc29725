//! A hash index: finds positions in a list by the stored hashes of its elements.

ghost use Rattle.std.specs.Int.{IsPowerOfTwo};
ghost use Rattle.std.specs.Prelude.{◌≡◌, ◌+◌, ◌<◌, ◌≤◌, ◌++◌, ◌∷◌, ◌%◌, [], length, replicate, slice_index, OnOk, ◌-◌};
ghost use Rattle.gu_trades.specs.Numbered.{has_number, last_before, number_of};
ghost use Rattle.gu_trades.specs.HashIndex.{numbers_of, EndsRows, IsLinked};

use gu_terms::Seed;
use std::alloc::{AllocError, Global};
use std::hash::{BuildHasher, Hash};
use std::marker::Model;

/// The least and the greatest number of rows.
const FEWEST_ROWS: usize = 16;

const MOST_ROWS: usize = 1 << 31;

/// The hash at a position, and the previous position in its row, counted from 1; 0 if it is the first.
#[derive(Clone, Copy, Debug)]
struct Link {
    number: u32,
    before: u32,
}

/// An index of a list by the stored hashes of its elements. To a contract it is the list of hashes, and how many more fit without an
/// allocation.
#[derive(Drop)]
pub(crate) struct HashIndex {
    links: Vec<Link>,
    /// The last position in each row, counted from 1; 0 if the row is empty. A hash belongs to the row of its remainder.
    last: Vec<u32>,
}

impl Model for HashIndex {
    ghost use Rattle.gu_trades.specs.Numbered.{Numbered};

    ghost Value = { Numbered };

    ghost use Rattle.gu_trades.specs.HashIndex.{numbered, IsHashIndex};

    ghost view = { numbered };

    ghost invariant = { IsHashIndex };
}

/// Returns the stored hash of a key.
pub(crate) fn number_of<K: Hash + Drop>(seed: &Seed, key: K) -> u32
    ensures { result ≡ number_of seed.now (K.hash_input key) }
{
    (seed.hash_one(key) >> 32) as u32
}

/// Returns the row of a hash. The number of rows is a power of two, so the remainder needs no division.
#[inline(always)]
fn row_of(number: u32, rows: usize) -> usize
    requires { IsPowerOfTwo rows }
    ensures { result ≡ number % rows }
{
    number as usize & (rows - 1)
}

/// Returns the last position with this hash, following its row back from `from`. Positions are counted from 1.
fn along(links: &[Link], rows: usize, from: u32, number: u32) -> u32
    requires linked { IsLinked links.now rows }
    requires within { from ≤ length links.now }
    requires row { 0 < from → slice_index (numbers_of links.now) (from - 1) % rows ≡ number % rows }
    ensures { result ≡ last_before (has_number (numbers_of links.now) number) from }
{
    let mut at = from;
    while at > 0 {
        let link = links[at as usize - 1];
        if link.number == number {
            return at;
        }
        at = link.before;
    }
    0
}

/// Links all positions into these rows, which are empty. Earlier links are overwritten.
fn link_all(links: &mut [Link], last: &mut [u32])
    requires empty { last.old ≡ replicate (length last.old) 0 }
    requires few { length last.old ≤ MOST_ROWS }
    requires power { IsPowerOfTwo (length last.old) }
    requires room { length links.old < length last.old }
    ensures numbers { numbers_of links.new ≡ numbers_of links.old }
    ensures rows { length last.new ≡ length last.old }
    ensures linked { IsLinked links.new (length last.new) }
    ensures ends { EndsRows links.new last.new }
{
    for place in 0..links.len() {
        let number = links[place].number;
        let row = row_of(number, last.len());
        let before = last[row];
        links[place] = Link { number, before };
        last[row] = place as u32 + 1;
    }
}

impl HashIndex {
    /// Returns an empty index.
    pub(crate) fn new(alloc: Global) -> Self
        ensures { result.numbers ≡ [] }
    {
        HashIndex {
            links: Vec::new(alloc),
            last: Vec::new(alloc),
        }
    }

    /// Returns the last position with a hash, counted from 1; 0 if there is none.
    pub(crate) fn last(&self, number: u32) -> u32
        ensures { result ≡ last_before (has_number self.now.numbers number) (length self.now.numbers) }
    {
        if self.last.is_empty() {
            return 0;
        }
        let rows = self.last.len();
        let from = self.last[row_of(number, rows)];
        along(&self.links, rows, from, number)
    }

    /// Returns the hash at a position.
    pub(crate) fn number(&self, place: usize) -> u32
        requires { place < length self.now.numbers }
        ensures { result ≡ slice_index self.now.numbers place }
    {
        self.links[place].number
    }

    /// Returns the previous position with the same hash, counted from 1; 0 if there is none.
    pub(crate) fn before(&self, place: usize) -> u32
        requires { place < length self.now.numbers }
        ensures { result ≡ last_before (has_number self.now.numbers (slice_index self.now.numbers place)) place }
    {
        let link = self.links[place];
        along(&self.links, self.last.len(), link.before, link.number)
    }

    /// Makes room for one more hash.
    #[inline(always)]
    pub(crate) fn reserve(&mut self) -> Result<(), AllocError>
        ensures numbers { self.new.numbers ≡ self.old.numbers }
        ensures room { OnOk result (0 < self.new.spare) }
    {
        if self.links.len() < self.last.len() {
            return Ok(());
        }
        self.grow()
    }

    /// Doubles the number of rows, and links all positions into them.
    #[cold]
    fn grow(&mut self) -> Result<(), AllocError>
        ensures numbers { self.new.numbers ≡ self.old.numbers }
        ensures room { OnOk result (0 < self.new.spare) }
    {
        let rows = (2 * self.last.len()).max(FEWEST_ROWS);
        if rows > MOST_ROWS {
            return Err(AllocError);
        }
        self.links.reserve(rows - self.links.len())?;
        self.last.reserve(rows - self.last.len())?;
        self.last.clear();
        // There is room, so this can't fail.
        self.last.resize(rows, 0)?;
        link_all(&mut self.links, &mut self.last);
        Ok(())
    }

    /// Adds a hash, for which there is room.
    pub(crate) fn push(&mut self, number: u32)
        requires { 0 < self.old.spare }
        ensures numbers { self.new.numbers ≡ self.old.numbers ++ number ∷ [] }
        ensures spare { self.old.spare ≤ self.new.spare + 1 }
    {
        let row = row_of(number, self.last.len());
        let before = self.last[row];
        self.links.push_reserved(Link { number, before });
        self.last[row] = self.links.len() as u32;
    }
}
