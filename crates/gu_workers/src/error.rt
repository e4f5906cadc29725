//! Why a worker can't go on.

use gu_engine::ClockFault;
use gu_posts::Failure;
use std::alloc::AllocError;
use std::io;
use thiserror::Error;

/// Why a worker can't go on.
#[derive(Debug, Drop, Error)]
pub enum WorkerError {
    /// An allocation failed.
    #[error("out of memory")]
    Memory,
    /// The clock failed.
    #[error("clock fault")]
    Clock,
    /// The poller failed.
    #[error("{0}")]
    Poller(io::Error),
}

impl WorkerError {
    /// Returns its kind, for others to see.
    pub fn kind(&self) -> Failure {
        match self {
            WorkerError::Memory => Failure::Memory,
            WorkerError::Clock => Failure::Clock,
            WorkerError::Poller(_) => Failure::Poller,
        }
    }
}

impl From<AllocError> for WorkerError {
    ghost use Rattle.std.specs.Prelude.{◌≡◌};
    ghost use Rattle.gu_workers.specs.declared.error.WorkerError.TheVariants.{Memory};

    ghost from_gives = { λ _ error. error ≡ Memory };

    fn from(_: AllocError) -> Self {
        WorkerError::Memory
    }
}

impl From<ClockFault> for WorkerError {
    ghost use Rattle.std.specs.Prelude.{◌≡◌};
    ghost use Rattle.gu_workers.specs.declared.error.WorkerError.TheVariants.{Clock};

    ghost from_gives = { λ _ error. error ≡ Clock };

    fn from(_: ClockFault) -> Self {
        WorkerError::Clock
    }
}
