//! The lead over a log, as the desk knows it.

ghost use Rattle.std.specs.Prelude.{◌≡◌, Ok};
ghost use Rattle.gu_lease.specs.Lease.{Leads};
ghost use Rattle.gu_lead.specs.Leads.{IsRenewed, lease_from};
ghost use Rattle.gu_lead.specs.declared.lead.Renewal.TheVariants.{Ended};

use crate::Candidate;
use gu_etcd::{Exchange, NodeError};
use gu_lease::{Lease, Moment};
use std::alloc::Global;

/// How many seconds a lease is asked for.
pub const LEASE_SECONDS: u64 = 3;

/// How many milliseconds earlier the desk takes its lease as ended.
pub const MARGIN_MS: u64 = 500;

/// The lead over a log: the number of the lease by which the desk has it, and the lease by the desk's own clocks.
#[derive(Clone, Copy, Debug, PartialEq, Eq)]
pub struct Lead {
    pub number: u64,
    pub lease: Lease,
}

/// What became of a lead that was to be renewed.
#[derive(Clone, Copy, Debug, PartialEq, Eq)]
pub enum Renewal {
    /// It goes on.
    GoesOn,
    /// Its lease has ended, or another desk has claimed the lead.
    Ended,
}

/// Returns a lease that was asked for at a moment and lasts some seconds.
pub(crate) fn lease_from(asked: Moment, seconds: u64) -> Lease
    ensures { result ≡ lease_from asked seconds }
{
    Lease::new(asked, seconds.saturating_mul(1_000), MARGIN_MS)
}

impl Lead {
    /// Renews the lead at a moment: asks etcd whether the desk leads, since another one may have claimed the lead, and that its lease goes on,
    /// which counts from this moment on. A lead that has ended by the desk's clocks is ended for good, and nothing is asked. If no answer
    /// comes, its lease is as long as it was.
    pub fn renew<X: Exchange>(
        &mut self,
        alloc: Global,
        candidate: &mut Candidate<X>,
        now: Moment,
    ) -> Result<Renewal, NodeError>
        ensures number { self.new.number ≡ self.old.number }
        ensures renewed { IsRenewed now self.old.lease self.new.lease result }
        ensures ended { (¬ Leads self.old.lease now) → (result ≡ Ok Ended) × (self.new ≡ self.old) }
    {
        let Some(lease) = self.lease.at(now) else {
            return Ok(Renewal::Ended);
        };
        self.lease = lease;
        if !candidate.leads(alloc)? {
            return Ok(Renewal::Ended);
        }
        match candidate.keep_alive(alloc, self.number)? {
            Some(seconds) => {
                self.lease = lease_from(now, seconds);
                Ok(Renewal::GoesOn)
            }
            None => Ok(Renewal::Ended),
        }
    }
}
