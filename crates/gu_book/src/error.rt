//! Why nothing was entered.

ghost use Rattle.std.specs.Prelude.{◌≡◌};

use std::alloc::AllocError;
use thiserror::Error;

/// The reason that a command was not entered. The book is unchanged.
#[derive(Debug, Drop, Clone, Copy, PartialEq, Eq, Error)]
pub enum EnterError {
    /// An allocation failed.
    #[error("Memory")]
    Memory,
    /// The book has 1,000,000 entries.
    #[error("Full")]
    Full,
}

impl From<AllocError> for EnterError {
    ghost use Rattle.gu_book.specs.declared.error.EnterError.{EnterError};

    ghost from_gives = { λ _ error. error ≡ EnterError.Memory };

    fn from(_: AllocError) -> Self {
        EnterError::Memory
    }
}

/// The reason that a query has no answer.
#[derive(Debug, Drop, Clone, Copy, PartialEq, Eq, Error)]
pub enum AskError {
    /// An allocation failed.
    #[error("Memory")]
    Memory,
    /// The reference has no such group.
    #[error("UnknownGroup")]
    UnknownGroup,
}

impl From<AllocError> for AskError {
    ghost use Rattle.gu_book.specs.declared.error.AskError.{AskError};

    ghost from_gives = { λ _ error. error ≡ AskError.Memory };

    fn from(_: AllocError) -> Self {
        AskError::Memory
    }
}

/// The reason that the sweep of a seen view was not entered. The book is unchanged.
#[derive(Debug, Drop, Clone, Copy, PartialEq, Eq, Error)]
pub enum SeenError {
    /// An allocation failed.
    #[error("Memory")]
    Memory,
    /// The book has 1,000,000 entries.
    #[error("Full")]
    Full,
    /// Entries have touched the group since it was seen: its version then, and its version now.
    #[error("Stale {seen} {now}")]
    Stale { seen: u64, now: u64 },
}

impl From<AllocError> for SeenError {
    ghost use Rattle.gu_book.specs.declared.error.SeenError.{SeenError};

    ghost from_gives = { λ _ error. error ≡ SeenError.Memory };

    fn from(_: AllocError) -> Self {
        SeenError::Memory
    }
}

/// The reason that a sweep was not committed. The book is unchanged.
#[derive(Debug, Drop, Clone, Copy, PartialEq, Eq, Error)]
pub enum CommitError {
    /// An allocation failed.
    #[error("Memory")]
    Memory,
    /// The book has 1,000,000 entries.
    #[error("Full")]
    Full,
    /// Entries have touched the group since it was seen: its version then, and its version now.
    #[error("Stale {seen} {now}")]
    Stale { seen: u64, now: u64 },
    /// The versions are equal, but the view isn't the book's.
    #[error("Foreign")]
    Foreign,
}

impl From<SeenError> for CommitError {
    ghost use Rattle.gu_book.specs.Refusals.{commit_error_of};

    ghost from_gives = { λ refusal error. error ≡ commit_error_of refusal };

    fn from(refusal: SeenError) -> Self {
        match refusal {
            SeenError::Memory => CommitError::Memory,
            SeenError::Full => CommitError::Full,
            SeenError::Stale { seen, now } => CommitError::Stale { seen, now },
        }
    }
}
