//! The lease for the leadership, by the desk's own clocks.

ghost use Rattle.std.specs.Prelude.{◌≡◌, ◌↔◌, IsTrue, IsSome, IfSome};
ghost use Rattle.gu_lease.specs.Lease.{Leads};

use crate::moment::Moment;

/// A lease that was granted.
#[derive(Clone, Copy, Debug, PartialEq, Eq)]
pub struct Lease {
    /// When it was asked for, which is before it began.
    pub asked: Moment,
    /// The last moment at which the desk led by it.
    pub seen: Moment,
    /// How long it lasts.
    pub length_ms: u64,
    /// How much earlier the desk takes it as ended.
    pub margin_ms: u64,
}

impl Lease {
    /// Creates a lease that was asked for at a moment.
    pub fn new(asked: Moment, length_ms: u64, margin_ms: u64) -> Self
        ensures asked { result.asked ≡ asked }
        ensures seen { result.seen ≡ asked }
        ensures length { result.length_ms ≡ length_ms }
        ensures margin { result.margin_ms ≡ margin_ms }
    {
        Lease {
            asked,
            seen: asked,
            length_ms,
            margin_ms,
        }
    }

    /// Returns whether the desk leads by the lease at a moment.
    pub fn leads(&self, now: Moment) -> bool
        ensures { IsTrue result ↔ Leads self.now now }
    {
        let is_later = now.is_no_earlier_than(&self.asked) && now.is_no_earlier_than(&self.seen);
        is_later && now.since(&self.asked) < self.length_ms.saturating_sub(self.margin_ms)
    }

    /// Returns the lease as it goes on from a moment, if the desk leads by it then. A lease that has ended is gone for good, even if
    /// a clock goes back later.
    pub fn at(self, now: Moment) -> Option<Self>
        ensures goes_on { IsSome result ↔ Leads self now }
        ensures seen { IfSome result (λ lease. lease ≡ record self { seen = now }) }
        ensures led { IfSome result (λ lease. Leads lease lease.seen) }
    {
        if self.leads(now) {
            Some(Lease { seen: now, ..self })
        } else {
            None
        }
    }

    /// Returns the lease that comes after this one by a renewal, as it goes on from a moment: the desk has to lead by both then.
    pub fn renewed(self, newer: Lease, now: Moment) -> Option<Self>
        ensures goes_on { IsSome result ↔ (Leads self now × Leads newer now) }
        ensures seen { IfSome result (λ lease. lease ≡ record newer { seen = now }) }
    {
        if self.leads(now) { newer.at(now) } else { None }
    }
}
