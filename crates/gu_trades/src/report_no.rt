//! Numbers of accepted reports.

ghost use Rattle.std.specs.Prelude.{◌≡◌, ◌<◌, ◌^◌};

use std::marker::Model;

/// The number of an accepted report: how many were accepted before it. No report is removed, so it stays valid. To a contract it is the
/// number.
#[derive(Clone, Copy, Debug, PartialEq, Eq)]
pub struct ReportNo {
    number: u32,
}

impl Model for ReportNo {
    ghost use Rattle.std.specs.Prelude.{ℕ};

    ghost Value = { ℕ };

    ghost view = { λ r. r.number };

    ghost inverse = { λ n. record { number = n } };
}

impl ReportNo {
    /// Returns the number with this value.
    pub(crate) fn known(number: u32) -> Self
        ensures { result ≡ number }
    {
        ReportNo { number }
    }

    /// Returns the number.
    pub fn get(self) -> usize
        ensures { result ≡ self }
    {
        self.number as usize
    }
}
