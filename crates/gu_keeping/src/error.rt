//! Why a day's text isn't kept, or doesn't match a history.

use gu_journal::{SinkError, Stopped};
use std::alloc::{AllocError, AllocFailed};
use thiserror::Error;

/// The reason that nothing more is kept. The keeper or sink is returned, except after a failure of its place.
#[derive(Drop)]
pub enum Unkept<T, P> {
    /// An allocation failed before anything was written.
    Memory(T),
    /// The desk has none of the entries that were to be kept.
    Missing(T),
    /// The lines of one entry, or a heading, are longer than a batch.
    TooLong(T),
    /// The sink stopped: what was to be kept, or a prefix of it, may be found after a crash.
    Failed(Stopped<P, SinkError>),
}

/// The reason that the digests of a text don't match a history.
#[derive(Clone, Copy, Debug, PartialEq, Eq, Error)]
pub enum DigestFault {
    /// An allocation failed.
    #[error("out of memory")]
    Memory,
    /// The first entries of the history, this many, have another digest, or it has fewer entries.
    #[error("Differs {0}")]
    Differs(u64),
}

impl From<AllocError> for DigestFault {
    ghost use Rattle.std.specs.Prelude.{◌≡◌};
    ghost use Rattle.gu_keeping.specs.declared.error.DigestFault.TheVariants.{Memory};

    ghost from_gives = { λ _ e. e ≡ Memory };

    fn from(_: AllocError) -> Self {
        DigestFault::Memory
    }
}
