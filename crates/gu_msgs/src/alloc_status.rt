//! The status of an allocation.

ghost use Rattle.std.specs.Prelude.{◌≡◌, ◌≢◌, MatchOption};
ghost use Rattle.gu_msgs.specs.AllocStatuses.{status_number, status_of};
ghost use Rattle.gu_msgs.specs.declared.alloc_status.AllocStatus.{AllocStatus as StatusOf};

use gu_terms::{AllocReject, OfferEvent};

/// The status of an allocation (FIX: AllocStatus, tag 87).
#[derive(Clone, Copy, Debug)]
pub enum AllocStatus {
    /// The carrying firm claims it.
    Accepted,
    /// It is refused: BlockLevelReject, AccountLevelReject or RejectedByIntermediary.
    Rejected(AllocReject),
    /// It waits for the carrying firm.
    AllocationPending,
    /// The lots claimed on this day are moved back.
    Reversed,
}

impl AllocStatus {
    /// Returns the status with this number.
    pub fn of_number(number: u64) -> Option<AllocStatus>
        ensures { MatchOption result ((status : StatusOf) → number ≢ status_number status)
            (λ status. number ≡ status_number status) }
    {
        match number {
            0 => Some(AllocStatus::Accepted),
            6 => Some(AllocStatus::AllocationPending),
            7 => Some(AllocStatus::Reversed),
            _ => match AllocReject::of(number) {
                Some(reject) => Some(AllocStatus::Rejected(reject)),
                None => None,
            },
        }
    }

    /// Returns the status of an offer after an event.
    pub fn of_event(event: OfferEvent) -> AllocStatus
        ensures { result ≡ status_of event }
    {
        match event {
            OfferEvent::Offered => AllocStatus::AllocationPending,
            OfferEvent::Claimed => AllocStatus::Accepted,
            OfferEvent::Refused(reject) => AllocStatus::Rejected(reject),
            OfferEvent::Reversed => AllocStatus::Reversed,
        }
    }

    /// Returns its value on the wire.
    pub fn number(self) -> u64
        ensures { result ≡ status_number self }
    {
        match self {
            AllocStatus::Accepted => 0,
            AllocStatus::Rejected(reject) => reject.number(),
            AllocStatus::AllocationPending => 6,
            AllocStatus::Reversed => 7,
        }
    }
}
