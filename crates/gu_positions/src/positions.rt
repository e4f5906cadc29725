//! The positions of all accounts, in the order in which their rows were made.

ghost use Rattle.std.specs.Prelude.{◌≡◌, ℕ, ◌+◌, ◌-◌, ◌<◌, ◌≤◌, ◌^◌, ◌||◌, [], true, Some, is_some, unwrap_or, IfOk, IfSome, OnOk, OnErr};
ghost use Rattle.std.specs.List.{IsDistinct};
ghost use Rattle.std.specs.Map.{set_value};
ghost use Rattle.indexmap.specs.IndexMap.{get, insert_entry, Updates};
ghost use Rattle.gu_terms.specs.declared.account.AccountId.{AccountId as Account};
ghost use Rattle.gu_terms.specs.declared.side.Side.{Side as SideOf};
ghost use Rattle.gu_terms.specs.declared.side.Side.TheVariants.{Buy, Sell};
ghost use Rattle.gu_terms.specs.declared.symbol.Symbol.{Symbol as Instrument};
ghost use Rattle.gu_terms.specs.Standing.{StandsAt};
ghost use Rattle.gu_positions.specs.Changes.{KeepsLots, KeepsNumbers, KeepsRows, lots_at, lots_at_side, same_place, with_less, with_more, with_row};
ghost use Rattle.gu_positions.specs.Holdings.{nothing_at};
ghost use Rattle.gu_positions.specs.Kept.{KeepsPlaces};
ghost use Rattle.gu_positions.specs.declared.positions.Place.{Place as PlaceOf};
ghost use Rattle.gu_positions.specs.Numbers.{IsMade, IsRowOf, account_at, symbol_at};
ghost use Rattle.gu_positions.specs.Rows.{has_row, lots_in, lots_on, open_interest_in, same_row};

use crate::holding::Holding;
use crate::row_no::RowNo;
use gu_terms::{AccountId, Side, Symbol};
use indexmap::IndexMap;
use std::alloc::{AllocError, Global};
use std::marker::Model;

/// An account and an instrument, for which lots are held. No two rows have the same.
#[derive(Clone, Copy, PartialEq, Eq, Hash)]
struct Place {
    account: AccountId,
    symbol: Symbol,
}

/// The lots that accounts hold in instruments, by side. To a contract it is the list of rows, in the order in which they were made.
pub struct Positions {
    rows: IndexMap<Place, Holding>,
    /// The open interest of each instrument that has rows. None is removed, so a row can keep the index of its instrument's.
    interests: IndexMap<Symbol, u64>,
}

impl Drop for Positions {
    fn drop(self) {
        let Positions { rows, interests } = self;
        drop(rows);
        drop(interests);
    }
}

impl Model for Positions {
    ghost use Rattle.std.specs.Prelude.{List};
    ghost use Rattle.gu_positions.specs.Rows.{Row};

    ghost Value = { List Row };

    ghost use Rattle.gu_positions.specs.Kept.{rows_of, IsKept};

    ghost view = { rows_of };

    ghost invariant = { IsKept };
}

/// Returns the number of rows made before the one for a place, if it was made.
fn number_of(rows: &IndexMap<Place, Holding>, place: &Place) -> Option<usize>
    ensures there { is_some result ≡ is_some (get ⟦<Place as PartialEq>⟧.eq rows.now place.now) }
    ensures at { IfSome result (StandsAt rows.now.entries place.now) }
{
    let (number, _, _) = rows.get_full(place)?;
    Some(number)
}

/// Returns the lots held in a row.
fn held_at(rows: &IndexMap<Place, Holding>, row: &RowNo) -> Holding
    requires { (place : PlaceOf) × StandsAt rows.now.entries place row.now.number }
    ensures { (place : PlaceOf) → StandsAt rows.now.entries place row.now.number → get ⟦<Place as PartialEq>⟧.eq rows.now place ≡ Some result }
{
    // Shows the prover: the places in the map are distinct.
    let _ = rows.len();
    rows[row.number]
}

/// Writes the lots held in a row.
fn write(rows: &mut IndexMap<Place, Holding>, row: &RowNo, holding: Holding)
    requires { (place : PlaceOf) × StandsAt rows.old.entries place row.now.number }
    ensures entries { (place : PlaceOf) → StandsAt rows.old.entries place row.now.number
        → rows.new.entries ≡ set_value (⟦<Place as PartialEq>⟧.eq place) rows.old.entries holding }
    ensures updates { (place : PlaceOf) → StandsAt rows.old.entries place row.now.number
        → Updates ⟦<Place as PartialEq>⟧.eq rows.old rows.new place (Some holding) }
{
    // Shows the prover: the places in the map are distinct.
    let _ = rows.len();
    rows[row.number] = holding;
}

/// Updates the open interest at an index after one account's excess in the instrument changed from `before` to `after`.
fn settle(interests: &mut IndexMap<Symbol, u64>, place: usize, before: u64, after: u64)
    requires { (symbol : Instrument) × StandsAt interests.old.entries symbol place
        × (before ≤ unwrap_or (get ⟦<Symbol as PartialEq>⟧.eq interests.old symbol) 0)
        × (unwrap_or (get ⟦<Symbol as PartialEq>⟧.eq interests.old symbol) 0 - before + after < 2 ^ 64) }
    ensures updates { (symbol : Instrument) → StandsAt interests.old.entries symbol place → Updates ⟦<Symbol as PartialEq>⟧.eq interests.old interests.new symbol
        (Some (unwrap_or (get ⟦<Symbol as PartialEq>⟧.eq interests.old symbol) 0 - before + after)) }
    ensures stay { KeepsPlaces interests.old.entries interests.new.entries }
{
    // Shows the prover: the instruments in the map are distinct.
    let _ = interests.len();
    let interest = &mut interests[place];
    *interest = *interest - before + after;
}

/// Returns the index of an instrument's open interest, adding it as 0 if the instrument is new.
fn know(interests: &mut IndexMap<Symbol, u64>, symbol: &Symbol) -> Result<usize, AllocError>
    ensures at { IfOk result (StandsAt interests.new.entries symbol.now) }
    ensures stay { KeepsPlaces interests.old.entries interests.new.entries }
    ensures same { (other : Instrument)
        → unwrap_or (get ⟦<Symbol as PartialEq>⟧.eq interests.new other) 0 ≡ unwrap_or (get ⟦<Symbol as PartialEq>⟧.eq interests.old other) 0 }
    ensures refused { OnErr result (interests.new.entries ≡ interests.old.entries) }
{
    if let Some((place, _, _)) = interests.get_full(symbol) {
        return Ok(place);
    }
    let place = interests.len();
    interests.insert(*symbol, 0)?;
    Ok(place)
}

/// Adds an empty row last. All allocations come first, so a failed one leaves both tables unchanged. A row is made once and found often, so
/// this isn't inlined into the look-up.
#[inline(never)]
fn make(
    rows: &mut IndexMap<Place, Holding>,
    interests: &mut IndexMap<Symbol, u64>,
    place: &Place,
) -> Result<(), AllocError>
    ensures made { OnOk result ((at : ℕ) × StandsAt interests.new.entries place.now.symbol at
        × (rows.new.entries ≡ insert_entry ⟦<Place as PartialEq>⟧.eq rows.old.entries place.now (nothing_at at))
        × Updates ⟦<Place as PartialEq>⟧.eq rows.old rows.new place.now (Some (nothing_at at))) }
    ensures stay { KeepsPlaces interests.old.entries interests.new.entries }
    ensures same { (other : Instrument)
        → unwrap_or (get ⟦<Symbol as PartialEq>⟧.eq interests.new other) 0 ≡ unwrap_or (get ⟦<Symbol as PartialEq>⟧.eq interests.old other) 0 }
    ensures refused { OnErr result ((rows.new.entries ≡ rows.old.entries) × (interests.new.entries ≡ interests.old.entries)) }
{
    rows.reserve(1)?;
    let interest = know(interests, &place.symbol)?;
    let empty = Holding {
        long: 0,
        short: 0,
        interest,
    };
    let _ = rows.insert(*place, empty);
    Ok(())
}

impl Positions {
    /// Returns an empty table.
    pub fn new(alloc: Global) -> Self
        ensures { result ≡ [] }
    {
        Positions {
            rows: IndexMap::new(alloc),
            interests: IndexMap::new(alloc),
        }
    }

    /// Shows the prover: an account has at most one row for an instrument, and a side of an instrument has fewer than 2^64 lots in all.
    pub fn rules(&self)
        ensures once { IsDistinct same_row self.now }
        ensures few { (side : SideOf) (symbol : Instrument) → lots_on self.now side symbol < 2 ^ 64 }
    {
        // Reading a field shows the prover the invariant of its type.
        let _ = &self.rows;
    }

    /// Returns whether an account has a row for an instrument.
    pub fn has_row(&self, account: AccountId, symbol: Symbol) -> bool
        ensures { result ≡ has_row self.now account symbol }
    {
        self.rows.contains_key(&Place { account, symbol })
    }

    /// Returns the lots that an account holds in an instrument, long and short.
    pub fn of(&self, account: AccountId, symbol: Symbol) -> (u64, u64)
        ensures { result ≡ (lots_in self.now Buy account symbol, lots_in self.now Sell account symbol) }
    {
        match self.rows.get(&Place { account, symbol }) {
            Some(holding) => (holding.long, holding.short),
            None => (0, 0),
        }
    }

    /// Returns the open interest of an instrument: the sum, over all accounts, of the excess of long lots over short ones.
    pub fn open_interest(&self, symbol: Symbol) -> u64
        ensures { result ≡ open_interest_in self.now symbol }
    {
        self.interests.get(&symbol).copied().unwrap_or(0)
    }

    /// Makes an empty row for an account and an instrument, if there is none. It changes no answer.
    pub fn row(&mut self, account: AccountId, symbol: Symbol) -> Result<(), AllocError>
        ensures made { OnOk result (self.new ≡ with_row self.old account symbol) }
        ensures there { OnOk result ((other : Account) (another : Instrument)
            → has_row self.new other another ≡ (has_row self.old other another || same_place other another account symbol)) }
        ensures same_lots { KeepsLots self.old self.new }
        ensures refused { OnErr result (self.new ≡ self.old) }
    {
        self.make_row(&account, &symbol)?;
        Ok(())
    }

    /// Makes such a row if there is none, and returns which row it is.
    pub fn make_row(&mut self, account: &AccountId, symbol: &Symbol) -> Result<RowNo, AllocError>
        ensures made { OnOk result (self.new ≡ with_row self.old account.now symbol.now) }
        ensures there { OnOk result ((other : Account) (another : Instrument)
            → has_row self.new other another ≡ (has_row self.old other another || same_place other another account.now symbol.now)) }
        ensures same_lots { KeepsLots self.old self.new }
        ensures refused { OnErr result (self.new ≡ self.old) }
        ensures row { IfOk result (IsRowOf self.new account.now symbol.now) }
        ensures stay { KeepsNumbers self.old self.new }
    {
        let place = Place {
            account: *account,
            symbol: *symbol,
        };
        if let Some(number) = number_of(&self.rows, &place) {
            return Ok(RowNo { number });
        }
        let number = self.rows.len();
        make(&mut self.rows, &mut self.interests, &place)?;
        Ok(RowNo { number })
    }

    /// Returns the row for an account and an instrument, if it was made.
    #[inline(always)]
    fn find(&self, account: &AccountId, symbol: &Symbol) -> Option<RowNo>
        ensures there { is_some result ≡ has_row self.now account.now symbol.now }
        ensures row { IfSome result (IsRowOf self.now account.now symbol.now) }
    {
        let place = Place {
            account: *account,
            symbol: *symbol,
        };
        let number = number_of(&self.rows, &place)?;
        Some(RowNo { number })
    }

    /// Adds lots to an account, on one side of an instrument.
    pub fn add(&mut self, account: AccountId, symbol: Symbol, side: Side, lots: u64)
        requires made { has_row self.old account symbol ≡ true }
        requires fits { lots_on self.old side symbol + lots < 2 ^ 64 }
        ensures rows { self.new ≡ with_more self.old side account symbol lots }
        ensures same_rows { KeepsRows self.old self.new }
        ensures lots { (on : SideOf) (other : Account) (another : Instrument)
            → lots_in self.new on other another ≡ lots_in self.old on other another + lots_at side account symbol lots on other another }
        ensures sums { (on : SideOf) (another : Instrument) → lots_on self.new on another ≡ lots_on self.old on another + lots_at_side side symbol lots on another }
    {
        if let Some(row) = self.find(&account, &symbol) {
            self.add_to(&row, side, lots);
        }
    }

    /// Adds lots to a row, on one side.
    pub fn add_to(&mut self, row: &RowNo, side: Side, lots: u64)
        requires made { IsMade self.old row.now }
        requires fits { lots_on self.old side (symbol_at self.old row.now) + lots < 2 ^ 64 }
        ensures rows { self.new ≡ with_more self.old side (account_at self.old row.now) (symbol_at self.old row.now) lots }
        ensures same_rows { KeepsRows self.old self.new }
        ensures lots { (on : SideOf) (other : Account) (another : Instrument)
            → lots_in self.new on other another
            ≡ lots_in self.old on other another + lots_at side (account_at self.old row.now) (symbol_at self.old row.now) lots on other another }
        ensures sums { (on : SideOf) (another : Instrument)
            → lots_on self.new on another ≡ lots_on self.old on another + lots_at_side side (symbol_at self.old row.now) lots on another }
        ensures stay { KeepsNumbers self.old self.new }
    {
        let before = held_at(&self.rows, row);
        let after = before.with_more(side, lots);
        write(&mut self.rows, row, after);
        settle(
            &mut self.interests,
            before.interest,
            before.excess(),
            after.excess(),
        );
    }

    /// Takes lots from a row, on one side.
    fn take_from(&mut self, row: &RowNo, side: Side, lots: u64)
        requires made { IsMade self.old row.now }
        requires there { lots ≤ lots_in self.old side (account_at self.old row.now) (symbol_at self.old row.now) }
        ensures rows { self.new ≡ with_less self.old side (account_at self.old row.now) (symbol_at self.old row.now) lots }
        ensures same_rows { KeepsRows self.old self.new }
        ensures lots { (on : SideOf) (other : Account) (another : Instrument)
            → lots_in self.new on other another
            ≡ lots_in self.old on other another - lots_at side (account_at self.old row.now) (symbol_at self.old row.now) lots on other another }
        ensures sums { (on : SideOf) (another : Instrument)
            → lots_on self.new on another + lots_at_side side (symbol_at self.old row.now) lots on another ≡ lots_on self.old on another }
        ensures stay { KeepsNumbers self.old self.new }
    {
        let before = held_at(&self.rows, row);
        let after = before.with_less(side, lots);
        write(&mut self.rows, row, after);
        settle(
            &mut self.interests,
            before.interest,
            before.excess(),
            after.excess(),
        );
    }

    /// Moves lots from one account to another, on one side of an instrument.
    pub fn shift(&mut self, from: AccountId, to: AccountId, symbol: Symbol, side: Side, lots: u64)
        requires from_made { has_row self.old from symbol ≡ true }
        requires to_made { has_row self.old to symbol ≡ true }
        requires there { lots ≤ lots_in self.old side from symbol }
        ensures rows { self.new ≡ with_more (with_less self.old side from symbol lots) side to symbol lots }
        ensures same_rows { KeepsRows self.old self.new }
        ensures lots { (on : SideOf) (other : Account) (another : Instrument)
            → lots_in self.new on other another ≡ lots_in self.old on other another - lots_at side from symbol lots on other another + lots_at side to symbol lots on other another }
        ensures sums { (on : SideOf) (another : Instrument) → lots_on self.new on another ≡ lots_on self.old on another }
        ensures still { from ≡ to → self.new ≡ self.old }
    {
        if let (Some(from), Some(to)) = (self.find(&from, &symbol), self.find(&to, &symbol)) {
            self.shift_between(&from, &to, side, lots);
        }
    }

    /// Moves lots from one row to another of the same instrument, on one side.
    pub fn shift_between(&mut self, from: &RowNo, to: &RowNo, side: Side, lots: u64)
        requires from_made { IsMade self.old from.now }
        requires to_made { IsMade self.old to.now }
        requires one { symbol_at self.old to.now ≡ symbol_at self.old from.now }
        requires there { lots ≤ lots_in self.old side (account_at self.old from.now) (symbol_at self.old from.now) }
        ensures rows { self.new ≡ with_more (with_less self.old side (account_at self.old from.now) (symbol_at self.old from.now) lots)
            side (account_at self.old to.now) (symbol_at self.old from.now) lots }
        ensures same_rows { KeepsRows self.old self.new }
        ensures lots { (on : SideOf) (other : Account) (another : Instrument) → lots_in self.new on other another
            ≡ lots_in self.old on other another - lots_at side (account_at self.old from.now) (symbol_at self.old from.now) lots on other another
            + lots_at side (account_at self.old to.now) (symbol_at self.old from.now) lots on other another }
        ensures sums { (on : SideOf) (another : Instrument) → lots_on self.new on another ≡ lots_on self.old on another }
        ensures stay { KeepsNumbers self.old self.new }
        ensures still { account_at self.old from.now ≡ account_at self.old to.now → self.new ≡ self.old }
    {
        // Shows the prover: the rules of the positions.
        self.rules();
        self.take_from(from, side, lots);
        self.add_to(to, side, lots);
    }
}
