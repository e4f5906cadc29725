//! An account's lots in an instrument.

ghost use Rattle.std.specs.Prelude.{◌≡◌, ◌+◌, ◌-◌, ◌<◌, ◌≤◌, ◌^◌};
ghost use Rattle.gu_positions.specs.Holdings.{held, less, more};

use gu_terms::Side;

/// The lots that an account holds in an instrument, by side.
#[derive(Clone, Copy)]
pub(crate) struct Holding {
    pub(crate) long: u64,
    pub(crate) short: u64,
    /// The index of its instrument's open interest.
    pub(crate) interest: usize,
}

impl Holding {
    /// Returns the excess of long lots over short ones; 0 if there is none.
    pub(crate) fn excess(&self) -> u64
        ensures { result ≡ self.now.long - self.now.short }
    {
        self.long.saturating_sub(self.short)
    }

    /// Returns this holding with more lots on a side.
    pub(crate) fn with_more(&self, side: Side, lots: u64) -> Self
        requires { held side self.now + lots < 2 ^ 64 }
        ensures { result ≡ more side lots self.now }
    {
        match side {
            Side::Buy => Holding {
                long: self.long + lots,
                ..*self
            },
            Side::Sell => Holding {
                short: self.short + lots,
                ..*self
            },
        }
    }

    /// Returns this holding with fewer lots on a side.
    pub(crate) fn with_less(&self, side: Side, lots: u64) -> Self
        requires { lots ≤ held side self.now }
        ensures { result ≡ less side lots self.now }
    {
        match side {
            Side::Buy => Holding {
                long: self.long - lots,
                ..*self
            },
            Side::Sell => Holding {
                short: self.short - lots,
                ..*self
            },
        }
    }
}
