//! Why a file of secrets is not accepted.

use std::alloc::AllocError;
use thiserror::Error;

/// Why a file of secrets is not accepted.
#[derive(Clone, Copy, Debug, PartialEq, Eq, Error)]
pub enum SecretsFault {
    /// An allocation failed.
    #[error("Memory")]
    Memory,
    /// The line with this number, from 1, is neither empty nor a row of one of the firms.
    #[error("BadRow {0}")]
    BadRow(u64),
}

impl From<AllocError> for SecretsFault {
    ghost use Rattle.std.specs.Prelude.{◌≡◌};
    ghost use Rattle.gu_secrets.specs.declared.error.SecretsFault.TheVariants.{Memory};

    ghost from_gives = { λ _ fault. fault ≡ Memory };

    fn from(_: AllocError) -> Self {
        SecretsFault::Memory
    }
}
