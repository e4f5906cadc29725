//! Refusals of a desk.

ghost use Rattle.std.specs.Prelude.{◌≡◌};

use gu_book::{AskError, SeenError};
use std::alloc::AllocError;
use thiserror::Error;

/// The reason that a sweep was not entered. The seat has seen what it says about the book.
#[derive(Debug, Drop, Clone, Copy, PartialEq, Eq, Error)]
pub enum SweepError {
    /// An allocation failed.
    #[error("Memory")]
    Memory,
    /// The reference has no such group.
    #[error("UnknownGroup")]
    UnknownGroup,
    /// The book has 1,000,000 entries.
    #[error("Full")]
    Full,
    /// Entries touched the group after it was seen: its version then, and its version at the commit.
    #[error("Stale {seen} {now}")]
    Stale { seen: u64, now: u64 },
}

impl From<AllocError> for SweepError {
    ghost use Rattle.gu_desk.specs.declared.error.SweepError.{SweepError};

    ghost from_gives = { λ _ error. error ≡ SweepError.Memory };

    fn from(_: AllocError) -> Self {
        SweepError::Memory
    }
}

impl From<AskError> for SweepError {
    ghost use Rattle.gu_desk.specs.Refusals.{refusal_of_first_hold};

    ghost from_gives = { λ refusal error. error ≡ refusal_of_first_hold refusal };

    fn from(refusal: AskError) -> Self {
        match refusal {
            AskError::Memory => SweepError::Memory,
            AskError::UnknownGroup => SweepError::UnknownGroup,
        }
    }
}

impl From<SeenError> for SweepError {
    ghost use Rattle.gu_desk.specs.Refusals.{refusal_of_second_hold};

    ghost from_gives = { λ refusal error. error ≡ refusal_of_second_hold refusal };

    fn from(refusal: SeenError) -> Self {
        match refusal {
            SeenError::Memory => SweepError::Memory,
            SeenError::Full => SweepError::Full,
            SeenError::Stale { seen, now } => SweepError::Stale { seen, now },
        }
    }
}

/// The reason that a desk was not closed. The desk and the seats are returned.
#[derive(Debug, Drop, Clone, Copy, PartialEq, Eq, Error)]
pub enum CloseFault {
    /// A seat of the desk isn't among those handed in.
    #[error("SeatMissing")]
    SeatMissing,
}

/// The first fault of receipts.
#[derive(Debug, Drop, Clone, Copy, PartialEq, Eq, Error)]
pub enum AuditFault {
    /// An allocation failed.
    #[error("Memory")]
    Memory,
    /// The book has no entry with this number.
    #[error("Missing {0}")]
    Missing(u64),
    /// The entry with this number is a different one.
    #[error("Differs {0}")]
    Differs(u64),
    /// An earlier receipt has this number.
    #[error("Twice {0}")]
    Twice(u64),
    /// No receipt has this number, which is the lowest of an entry without one.
    #[error("Unclaimed {0}")]
    Unclaimed(u64),
}

impl From<AllocError> for AuditFault {
    ghost use Rattle.gu_desk.specs.declared.error.AuditFault.{AuditFault};

    ghost from_gives = { λ _ error. error ≡ AuditFault.Memory };

    fn from(_: AllocError) -> Self {
        AuditFault::Memory
    }
}
