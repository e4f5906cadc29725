//! Queries, which enter nothing.

use crate::account::AccountId;
use crate::day::Day;
use crate::firm::FirmId;
use crate::group::Group;
use crate::symbol::Symbol;

/// A query that leaves the book unchanged.
#[derive(Clone, Copy, Debug, PartialEq, Eq)]
pub enum Query {
    /// An account's position in an instrument.
    Position { account: AccountId, symbol: Symbol },
    /// The open interest of an instrument.
    Interest { symbol: Symbol },
    /// All positions of a firm's account (FIX: Request For Positions).
    Positions { firm: FirmId, account: AccountId },
    /// A group's open offers and rooms.
    Look { group: Group },
    /// A firm's notices of the entries from a number on.
    Notices { firm: FirmId, from: u64 },
}

/// A position of an account in an instrument, in lots.
#[derive(Clone, Copy, Debug, PartialEq, Eq)]
pub struct PositionRow {
    pub symbol: Symbol,
    pub long: u64,
    pub short: u64,
}

/// All positions of an account.
#[derive(Drop)]
pub struct PositionRows {
    /// The open day.
    pub day: Option<Day>,
    /// The instruments in which it holds lots, in the order of the reference.
    pub rows: Vec<PositionRow>,
}
