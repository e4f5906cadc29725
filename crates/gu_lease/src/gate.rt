//! The gate of a desk: its threads ask it before anything leaves.

ghost use Rattle.std.specs.Prelude.{◌≡◌, IfSome};
ghost use Rattle.gu_lease.specs.Permits.{GoesOn, IsRenewed, MayLeave};

use crate::clocks::BothClocks;
use crate::lease::Lease;
use crate::moment::Moment;
use crate::permit::Permit;
use std::sync::{Mutex, Wait};

/// The lease of a desk, which its threads share.
#[derive(Drop)]
struct SharedLease<C> {
    clocks: C,
    /// None once the lease has ended: it never comes back.
    lease: Mutex<Option<Lease>>,
}

/// The gate of a desk: while the desk leads by its lease, or if it needs none, it gives permits to let answers leave.
#[derive(Drop)]
pub struct Gate<C> {
    /// None if the desk needs no lease.
    shared: Option<SharedLease<C>>,
}

/// Returns what is left of a lease at a moment: nothing if the desk doesn't lead by it then, or if no clock says the moment.
fn left_at(lease: Option<Lease>, now: Option<Moment>) -> Option<Lease>
    ensures goes_on { GoesOn lease now result }
    ensures led { MayLeave result }
{
    match (lease, now) {
        (Some(lease), Some(now)) => lease.at(now),
        _ => None,
    }
}

/// Returns what is left of a lease that is renewed, at a moment.
fn renewed_at(lease: Option<Lease>, newer: Lease, now: Option<Moment>) -> Option<Lease>
    ensures { IsRenewed lease newer now result }
{
    match (lease, now) {
        (Some(lease), Some(now)) => lease.renewed(newer, now),
        _ => None,
    }
}

impl<C: BothClocks> SharedLease<C> {
    /// Returns what is left of the lease now. The clocks are read under the lock, so that no thread sees an earlier moment after a later
    /// one.
    fn look<R: Wait>(&self, rt: &R) -> Option<Lease>
        ensures { MayLeave result }
    {
        let mut held = self.lease.lock(rt);
        let left = left_at(*held, self.clocks.now());
        *held = left;
        left
    }
}

impl<C: BothClocks> Gate<C> {
    /// Creates the gate of a desk that needs no lease: it is always open.
    pub fn open() -> Self {
        Gate { shared: None }
    }

    /// Creates the gate of a desk that leads by a lease, which was asked for by these clocks.
    pub fn of_lease(clocks: C, lease: Lease) -> Self {
        Gate {
            shared: Some(SharedLease {
                clocks,
                lease: Mutex::new(Some(lease)),
            }),
        }
    }

    /// Returns the clocks by which the lease counts, if the desk needs one.
    pub fn clocks(&self) -> Option<&C> {
        match &self.shared {
            Some(shared) => Some(&shared.clocks),
            None => None,
        }
    }

    /// Returns the moment by the clocks by which the lease counts, if the desk needs one and neither fails.
    pub fn now(&self) -> Option<Moment> {
        self.clocks()?.now()
    }

    /// Returns whether the desk needs a lease.
    pub fn needs_lease(&self) -> bool {
        self.shared.is_some()
    }

    /// Returns a permit to let leave what shows this many entries at most, if the desk leads now or needs no lease.
    pub fn ask<R: Wait>(&self, rt: &R, kept: u64) -> Option<Permit>
        ensures { IfSome result (λ permit. permit.kept ≡ kept) }
    {
        match &self.shared {
            Some(shared) => {
                let lease = shared.look(rt)?;
                Some(Permit::new(Some(lease), kept))
            }
            None => Some(Permit::new(None, kept)),
        }
    }

    /// Returns whether the desk leads now, or needs no lease.
    pub fn leads<R: Wait>(&self, rt: &R) -> bool {
        match &self.shared {
            Some(shared) => shared.look(rt).is_some(),
            None => true,
        }
    }

    /// Publishes a lease that was renewed, and returns whether the desk leads by it. A lease that has ended stays ended.
    pub fn renew<R: Wait>(&self, rt: &R, newer: Lease) -> bool {
        let Some(shared) = &self.shared else {
            return true;
        };
        let mut held = shared.lease.lock(rt);
        let left = renewed_at(*held, newer, shared.clocks.now());
        *held = left;
        left.is_some()
    }

    /// Ends the lease for good, if the desk needs one.
    pub fn end<R: Wait>(&self, rt: &R) {
        if let Some(shared) = &self.shared {
            *shared.lease.lock(rt) = None;
        }
    }
}
