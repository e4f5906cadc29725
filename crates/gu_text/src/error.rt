//! Why a text is refused.

use std::alloc::AllocError;
use thiserror::Error;

/// The reason that a text is refused.
#[derive(Clone, Copy, Debug, Drop, PartialEq, Eq, Error)]
pub enum TextError {
    /// An allocation failed.
    #[error("Memory")]
    Memory,
    /// This line, counted from 1, is not allowed; if a sheet's end is missing, it is the number after the last line.
    #[error("BadLine {0}")]
    BadLine(u64),
}

impl From<AllocError> for TextError {
    ghost use Rattle.std.specs.Prelude.{◌≡◌};
    ghost use Rattle.gu_text.specs.declared.error.TextError.TheVariants.{Memory};

    ghost from_gives = { λ _ e. e ≡ Memory };

    fn from(_: AllocError) -> Self {
        TextError::Memory
    }
}
