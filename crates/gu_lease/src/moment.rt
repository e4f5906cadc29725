//! A moment by the two clocks of a machine.

ghost use Rattle.std.specs.Prelude.{◌≡◌, ◌↔◌, IsTrue};
ghost use Rattle.gu_lease.specs.Moments.{IsNoEarlier, elapsed};

/// A moment by the two clocks of a machine, in milliseconds. The monotonic clock may stand still while the machine sleeps, and
/// anyone may set the system's.
#[derive(Clone, Copy, Debug, PartialEq, Eq)]
pub struct Moment {
    pub monotonic_ms: u64,
    pub system_ms: u64,
}

impl Moment {
    /// Returns whether neither clock went back since an earlier moment.
    pub(crate) fn is_no_earlier_than(&self, from: &Moment) -> bool
        ensures { IsTrue result ↔ IsNoEarlier from.now self.now }
    {
        from.monotonic_ms <= self.monotonic_ms && from.system_ms <= self.system_ms
    }

    /// Returns the time since an earlier moment, by the clock that says more.
    pub(crate) fn since(&self, from: &Moment) -> u64
        ensures { result ≡ elapsed from.now self.now }
    {
        let monotonic = self.monotonic_ms.saturating_sub(from.monotonic_ms);
        let system = self.system_ms.saturating_sub(from.system_ms);
        monotonic.max(system)
    }
}
