//! A permit to let answers leave.

ghost use Rattle.std.specs.Prelude.{◌≡◌, IfSome};
ghost use Rattle.std.proofs.Props.{props};
ghost use Rattle.gu_lease.specs.Lease.{Leads};
ghost use Rattle.gu_lease.specs.Permits.{MayLeave};

use crate::lease::Lease;

/// A permit to let answers leave, once: the gate of the desk gives it, and nothing else makes one. The desk led when it was given, or
/// needs no lease.
#[derive(Debug, Drop)]
pub struct Permit {
    /// How many entries are kept: only what shows no more may leave.
    kept: u64,
    /// The lease by which the desk led, last seen at the moment of the permit; none if the desk needs none.
    lease: Option<Lease>,
    ghost led: { IfSome lease (λ it. Leads it it.seen) } by { Prim.hlevel props },
}

impl Permit {
    /// Creates the permit of a desk with this lease, which it was seen to lead by.
    pub(crate) fn new(lease: Option<Lease>, kept: u64) -> Self
        requires { MayLeave lease }
        ensures lease { result.lease ≡ lease }
        ensures kept { result.kept ≡ kept }
    {
        Permit { kept, lease }
    }

    /// Returns how many entries are kept: what shows no more may leave.
    pub fn kept(&self) -> u64
        ensures kept { result ≡ self.now.kept }
        ensures led { MayLeave self.now.lease }
    {
        self.kept
    }
}
