//! Notices that the house sends firms unsolicited.

use crate::account::AccountId;
use crate::alloc_reject::AllocReject;
use crate::day::Day;
use crate::lots::Lots;
use crate::offer_no::OfferNo;
use crate::price::Price;
use crate::report::Report;
use crate::side::Side;
use crate::symbol::Symbol;

/// What happened to an offer.
#[derive(Clone, Copy, Debug, PartialEq, Eq)]
pub enum OfferEvent {
    /// It was made.
    Offered,
    /// Lots of it were claimed or swept.
    Claimed,
    /// What was left of it was refused.
    Refused(AllocReject),
    /// What was moved for it on this day was moved back.
    Reversed,
}

/// A notice of an event of an offer.
#[derive(Clone, Copy, Debug, PartialEq, Eq)]
pub struct OfferNotice {
    pub offer: OfferNo,
    pub event: OfferEvent,
    /// The lots that were offered, claimed, refused or moved back.
    pub lots: Lots,
    /// The account to which the lots are offered.
    pub account: AccountId,
    /// The instrument of the trade given up, the side given up, the trade's price and its day.
    pub symbol: Symbol,
    pub side: Side,
    pub price: Price,
    pub day: Day,
}

/// A notice to a firm.
#[derive(Clone, Copy, Debug, PartialEq, Eq)]
pub enum Notice {
    /// A report of the firm's became a side of a trade with this entry (FIX: Trade Capture Report).
    Matched { entry: u64, report: Report },
    /// An offer that the firm gives up or is to take up (FIX: Allocation Report).
    Offer(OfferNotice),
}

/// The notices to a firm.
#[derive(Drop)]
pub struct Notices {
    /// The number after the last entry covered, from which to ask next.
    pub next: u64,
    /// The notices, in the order of their entries.
    pub list: Vec<Notice>,
}

/// A batch of a firm's notices.
#[derive(Drop)]
pub struct Stretch {
    pub notices: Notices,
    /// Whether it covers the last entry.
    pub is_last: bool,
}
