//! Accepted reports.

use crate::account::AccountId;
use crate::day::Day;
use crate::firm::FirmId;
use crate::id::Id;
use crate::lots::Lots;
use crate::price::Price;
use crate::side::Side;
use crate::symbol::Symbol;

/// A side of a trade, as its firm reported it and the house accepted it.
#[derive(Clone, Copy, Debug, PartialEq, Eq)]
pub struct Report {
    pub firm: FirmId,
    pub id: Id,
    /// The match id that the two sides of one trade share (FIX: TrdMatchID, tag 880).
    pub match_id: Id,
    pub symbol: Symbol,
    pub lots: Lots,
    pub price: Price,
    /// The day that was open when it was accepted.
    pub day: Day,
    pub side: Side,
    pub account: AccountId,
}
