//! Seats.

ghost use Rattle.std.specs.Prelude.{◌≡◌, ◌+◌, ◌≤◌, All, length, sum_by, vec_len};
ghost use mathlib.Core.List.{IsPrefix};
ghost use Rattle.gu_desk.specs.Seats.{IsNew};

use crate::annals::{Annals, Front};
use crate::ledger::{EntryLedger, LotLedger};
use std::marker::Model;
use std::sync::ledger::Share;

/// A place at a desk, for one thread at a time. To a contract it is the number of entries made from it, the number of lots swept from it,
/// and its front: the prefix of the desk's one history that it has seen. At run time it is the number of entries in that prefix.
#[derive(Drop)]
pub struct Seat<E: EntryLedger, S: LotLedger> {
    pub(crate) entries: Share<E>,
    pub(crate) swept: Share<S>,
    pub(crate) front: Front<E>,
}

impl<E: EntryLedger, S: LotLedger> Model for Seat<E, S> {
    ghost use Rattle.std.specs.Prelude.{◌≡◌, ◌+◌, ◌≤◌, length};
    ghost use Rattle.gu_desk.specs.Seats.{SeatState};

    ghost Value = { SeatState };

    ghost view = { λ s. record { entries = s.entries.amount; swept = s.swept.amount; front = s.front } };

    ghost invariant = { λ s. (s.entries.parts ≡ 1) × (s.swept.parts ≡ 1) × (length E.opening + s.entries.amount ≤ length s.front) };
}

impl<E: EntryLedger, S: LotLedger> Seat<E, S> {
    /// Returns a seat from which nothing was entered yet, and which has seen what the desk was opened with.
    pub(crate) fn new(entries: Share<E>, swept: Share<S>, front: Front<E>) -> Self
        requires entries { (entries.parts ≡ 1) × (entries.amount ≡ 0) }
        requires swept { (swept.parts ≡ 1) × (swept.amount ≡ 0) }
        requires front { front ≡ E.opening }
        ensures { IsNew E.opening result }
    {
        Seat {
            entries,
            swept,
            front,
        }
    }

    /// Shows the prover the invariant of a seat: it has seen at least as many entries as the desk was opened with plus those made from it.
    /// Does nothing at run time.
    pub fn rules(&self)
        ensures { length E.opening + self.now.entries ≤ length self.now.front }
    {
        let _ = &self.front;
    }

    /// Returns the number of entries that it has seen.
    pub fn seen(&self) -> u64
        ensures { result ≡ length self.now.front }
    {
        self.front.count() as u64
    }
}

/// Adds the shares of seats to two shares, and shows that what each seat has seen is a prefix of the history.
pub(crate) fn gather<E: EntryLedger, S: LotLedger>(
    annals: &mut Annals<E>,
    own: &mut Share<E>,
    own_swept: &mut Share<S>,
    seats: Vec<Seat<E, S>>,
)
    requires { (own.old.parts ≤ E.parts) × (own_swept.old.parts ≤ S.parts) }
    ensures parts { (own.new.parts ≡ own.old.parts + vec_len seats) × (own.new.parts ≤ E.parts) }
    ensures amount { own.new.amount ≡ own.old.amount + sum_by (λ s. s.entries) seats.items }
    ensures swept_parts { (own_swept.new.parts ≡ own_swept.old.parts + vec_len seats) × (own_swept.new.parts ≤ S.parts) }
    ensures swept_amount { own_swept.new.amount ≡ own_swept.old.amount + sum_by (λ s. s.swept) seats.items }
    ensures seen { All (λ s. IsPrefix s.front annals.old) seats.items }
    ensures same { annals.new ≡ annals.old }
{
    for seat in seats {
        let Seat {
            entries,
            swept,
            mut front,
        } = seat;
        own.merge(entries);
        own_swept.merge(swept);
        annals.compare(&mut front);
    }
}
