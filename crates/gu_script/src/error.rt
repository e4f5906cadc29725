//! Why a script stopped.

use gu_streams::StreamError;
use gu_text::TextError;
use std::alloc::AllocError;
use thiserror::Error;

/// The reason that an engine that reads lines stopped. Text already written stays written.
#[derive(Debug, Drop, Clone, Copy, PartialEq, Eq, Error)]
pub enum ScriptError {
    /// An allocation failed.
    #[error("out of memory")]
    Memory,
    /// The reader failed, or its reads are used up.
    #[error("read fault")]
    Read,
    /// The writer failed, or accepted nothing.
    #[error("write fault")]
    Write,
    /// This line of the text, counted from 1, is bad.
    #[error("bad line {0}")]
    BadLine(u64),
}

impl From<AllocError> for ScriptError {
    ghost use Rattle.std.specs.Prelude.{◌≡◌};
    ghost use Rattle.gu_script.specs.declared.error.ScriptError.TheVariants.{Memory};

    ghost from_gives = { λ _ error. error ≡ Memory };

    fn from(_: AllocError) -> Self {
        ScriptError::Memory
    }
}

impl From<TextError> for ScriptError {
    ghost use Rattle.std.specs.Prelude.{◌≡◌};
    ghost use Rattle.gu_script.specs.Faults.{error_of};

    ghost from_gives = { λ text error. error ≡ error_of text };

    fn from(error: TextError) -> Self {
        match error {
            TextError::Memory => ScriptError::Memory,
            TextError::BadLine(number) => ScriptError::BadLine(number),
        }
    }
}

impl From<StreamError> for ScriptError {
    ghost use Rattle.std.specs.Prelude.{◌≡◌};
    ghost use Rattle.gu_script.specs.Faults.{error_of_stream};

    ghost from_gives = { λ stream error. error ≡ error_of_stream stream };

    fn from(error: StreamError) -> Self {
        match error {
            StreamError::Memory => ScriptError::Memory,
            StreamError::Read => ScriptError::Read,
            StreamError::Write => ScriptError::Write,
        }
    }
}
