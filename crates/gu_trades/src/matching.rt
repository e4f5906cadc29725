//! Matching of an accepted report.

ghost use Rattle.std.specs.Prelude.{◌≡◌, ◌==◌, if◌then◌else◌};
ghost use Rattle.gu_trades.specs.declared.matching.Matching.TheVariants.{Opened as IsOpened, Matched as IsMatched};

/// The effect of a report when it was accepted.
#[derive(Clone, Copy, Debug, PartialEq, Eq)]
pub enum Matching {
    /// It is the first report with its match id.
    Opened,
    /// It is the second, and the two make a trade.
    Matched,
}

impl Matching {
    /// Returns the effect of one more report with a match id whose last report is at this position, counted from 1; 0 if there is none.
    pub(crate) fn behind(last: u32) -> Self
        ensures { result ≡ (if last == 0 then IsOpened else IsMatched) }
    {
        if last == 0 {
            Matching::Opened
        } else {
            Matching::Matched
        }
    }
}
