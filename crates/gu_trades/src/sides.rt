//! The reports with one match id.

ghost use Rattle.std.specs.Prelude.{◌≡◌};
ghost use Rattle.gu_trades.specs.Sides.{reports_in};
ghost use Rattle.gu_trades.specs.Matching.{conflicts};

use crate::terms::Terms;
use gu_terms::Report;

/// The reports with one match id, in the order of arrival.
#[derive(Clone, Copy, Debug, PartialEq, Eq)]
pub enum Sides {
    /// No report has this match id.
    Neither,
    /// The first report, which waits for its other side.
    One(Report),
    /// A trade.
    Both(Report, Report),
}

impl Sides {
    /// Returns whether a new report with this match id conflicts: there are two already, or one that isn't its other side.
    pub fn conflicts_with(&self, report: &Report) -> bool
        ensures { result ≡ conflicts (reports_in self.now) report.now }
    {
        match self {
            Sides::Neither => false,
            Sides::One(first) => !Terms::of(first).have_other_sides(&Terms::of(report)),
            Sides::Both(..) => true,
        }
    }
}
