//! The terms of a trade, as a report gives them.

ghost use Rattle.std.specs.Prelude.{◌≡◌};
ghost use Rattle.gu_trades.specs.Matching.{have_other_sides};
ghost use Rattle.gu_trades.specs.Reports.{made_on};
ghost use Rattle.gu_trades.specs.Terms.{terms_of};

use gu_terms::{AccountId, Day, Lots, Price, Report, ReportSide, Side, Symbol};

/// A report without its firm and its ids. Fields go from small to large, to save room.
#[derive(Clone, Copy, Debug, PartialEq, Eq)]
pub struct Terms {
    pub symbol: Symbol,
    pub account: AccountId,
    pub side: Side,
    /// The day that was open when it was accepted.
    pub day: Day,
    pub lots: Lots,
    pub price: Price,
}

impl Terms {
    /// Returns the terms of a report.
    pub(crate) fn of(report: &Report) -> Self
        ensures { result ≡ terms_of report.now }
    {
        Terms {
            symbol: report.symbol,
            account: report.account,
            side: report.side,
            day: report.day,
            lots: report.lots,
            price: report.price,
        }
    }

    /// Returns the terms of a report made on this day.
    pub fn on(today: Day, report: &ReportSide) -> Self
        ensures { result ≡ terms_of (made_on today report.now) }
    {
        Terms {
            symbol: report.symbol,
            account: report.account,
            side: report.side,
            day: today,
            lots: report.lots,
            price: report.price,
        }
    }

    /// Returns whether these terms and the others are for the two sides of one trade.
    pub(crate) fn have_other_sides(&self, other: &Terms) -> bool
        ensures { result ≡ have_other_sides self.now other.now }
    {
        self.symbol == other.symbol
            && self.lots == other.lots
            && self.price == other.price
            && self.day == other.day
            && self.side != other.side
    }
}
