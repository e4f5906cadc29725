//! Why a reference file is refused.

ghost use Rattle.std.specs.Prelude.{◌≡◌};
ghost use Rattle.gu_ref.specs.Faults.{number_of, name_of};

use std::alloc::AllocError;
use thiserror::Error;

/// The reason that a reference file is refused. A line is the number of a record in the file, from 1.
#[derive(Debug, Drop, Clone, Copy, PartialEq, Eq, Error)]
pub enum RefFault {
    /// An allocation failed.
    #[error("Memory")]
    Memory,
    /// The record isn't a valid row, or is an agreement for the executing firm's own account, or makes a firm its own guarantor.
    #[error("BadRow {0}")]
    BadRow(u64),
    /// The row names something that no earlier row declared.
    #[error("Unknown {0}")]
    Unknown(u64),
    /// The row repeats an earlier declaration.
    #[error("Twice {0}")]
    Twice(u64),
    /// The row exceeds the limit for its kind.
    #[error("TooMany")]
    TooMany,
    /// The reader failed, or needed too many reads.
    #[error("ReadFault")]
    ReadFault,
}

impl From<AllocError> for RefFault {
    ghost use Rattle.gu_ref.specs.declared.error.RefFault.{RefFault};

    ghost from_gives = { λ _ fault. fault ≡ RefFault.Memory };

    fn from(_: AllocError) -> Self {
        RefFault::Memory
    }
}

impl RefFault {
    /// Returns its number; 0 for `Memory`, which is not a fault of the file.
    pub fn number(self) -> u64
        ensures { result ≡ number_of self }
    {
        match self {
            RefFault::Memory => 0,
            RefFault::BadRow(_) => 1,
            RefFault::Unknown(_) => 2,
            RefFault::Twice(_) => 3,
            RefFault::TooMany => 4,
            RefFault::ReadFault => 5,
        }
    }

    /// Returns its name, without the line.
    pub fn name(self) -> &'static str
        ensures { result.now ≡ name_of self }
    {
        match self {
            RefFault::Memory => "Memory",
            RefFault::BadRow(_) => "BadRow",
            RefFault::Unknown(_) => "Unknown",
            RefFault::Twice(_) => "Twice",
            RefFault::TooMany => "TooMany",
            RefFault::ReadFault => "ReadFault",
        }
    }
}
