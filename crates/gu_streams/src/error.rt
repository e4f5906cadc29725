//! Why an engine over a reader and a writer stopped.

use std::alloc::AllocError;
use thiserror::Error;

/// The reason that an engine over a reader and a writer stopped. Text already written stays written.
#[derive(Debug, Drop, Clone, Copy, PartialEq, Eq, Error)]
pub enum StreamError {
    /// An allocation failed.
    #[error("out of memory")]
    Memory,
    /// The reader failed, its reads are used up, or the clock failed.
    #[error("read fault")]
    Read,
    /// The writer failed, or accepted nothing.
    #[error("write fault")]
    Write,
}

impl From<AllocError> for StreamError {
    ghost use Rattle.std.specs.Prelude.{◌≡◌};
    ghost use Rattle.gu_streams.specs.declared.error.StreamError.TheVariants.{Memory};

    ghost from_gives = { λ _ error. error ≡ Memory };

    fn from(_: AllocError) -> Self {
        StreamError::Memory
    }
}
