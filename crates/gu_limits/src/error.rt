//! Why a limit is not set.

ghost use Rattle.std.specs.Prelude.{◌≡◌};

use std::alloc::AllocError;
use thiserror::Error;

/// The reason that a limit is not set. The limits are unchanged.
#[derive(Debug, Drop, Clone, Copy, PartialEq, Eq, Error)]
pub enum SetError {
    /// An allocation failed.
    #[error("Memory")]
    Memory,
    /// The limit is above 1,000,000,000 lots.
    #[error("TooHigh")]
    TooHigh,
}

impl From<AllocError> for SetError {
    ghost use Rattle.gu_limits.specs.declared.error.SetError.{SetError};

    ghost from_gives = { λ _ error. error ≡ SetError.Memory };

    fn from(_: AllocError) -> Self {
        SetError::Memory
    }
}
