//! The destination of a day's text.
ghost use Rattle.std.specs.Prelude.{◌≡◌, ◌++◌, ◌≤◌, List, ℕ, Option, Some, length, IfOk, IfErr};
ghost use Rattle.gu_journal.specs.declared.sink.SinkError.TheVariants.{Failed, Full, Memory};
ghost use Rattle.gu_journal.specs.Crashes.{LeavesOnly};
ghost use Rattle.gu_journal.specs.Sink.{HasBegun, HasReason, error_of};
ghost use Rattle.gu_journal.specs.Text.{IsBatch};

use crate::{DeviceError, Stopped};
use thiserror::Error;

/// The most bytes in a batch.
pub const MAX_BATCH: usize = 1 << 19;

/// The reason that a sink stopped.
#[derive(Clone, Copy, Debug, PartialEq, Eq, Error)]
pub enum SinkError {
    /// An allocation failed.
    #[error("out of memory")]
    Memory,
    /// Its place failed.
    #[error("write fault")]
    Failed,
    /// Its place has no room, or its text is too long.
    #[error("no room")]
    Full,
    /// Another writer has the place. A file is never fenced.
    #[error("another writer leads")]
    Fenced,
}

impl From<DeviceError> for SinkError {
    ghost from_gives = { λ d e. e ≡ error_of d };

    fn from(error: DeviceError) -> Self {
        match error {
            DeviceError::Memory => SinkError::Memory,
            DeviceError::Failed => SinkError::Failed,
            DeviceError::Full => SinkError::Full,
        }
    }
}

/// A sink for the text of a day, in batches of whole lines. The text that it kept is found after a crash at any later moment. The clauses
/// hold if its place is honest, as for a `Device`.
pub trait Sink: Sized {
    /// The place that it writes to, of which a crash leaves something.
    type Place: Drop;

    /// So far the place has kept what it said it keeps.
    ghost is_honest: { Self.Place → Type 0 };

    /// The moment, as a number that never decreases.
    ghost moment: { Self.Place → ℕ };

    /// The text that might have been found after a crash at some moment since that one. `None`: nothing could be found.
    ghost left_since: { Self.Place → ℕ → Option (List ℕ) → Type 0 };

    /// The number of the place's calls that failed.
    ghost failures: { Self.Place → ℕ };

    /// The number of the place's calls that were refused because another writer has the place.
    ghost refusals: { Self.Place → ℕ };

    /// The number of the place's calls that found no room.
    ghost shortages: { Self.Place → ℕ };

    /// The place that it writes to.
    ghost place: { Self → Self.Place };

    /// The text that it kept.
    ghost kept: { Self → List ℕ };

    /// Appends a batch, and returns once it is kept. After an error nothing more can be appended, since the sink is consumed: a crash then
    /// leaves what was kept, and whole lines from the start of the batch.
    fn append(self, batch: &[u8]) -> Result<Self, Stopped<Self::Place, SinkError>>
        requires { IsBatch batch.now }

        ensures before { IfOk result (λ sink. is_honest (place sink) → is_honest (place self)) }
        ensures before_stopped { IfErr result (λ stopped. is_honest stopped.place → is_honest (place self)) }
        ensures kept { IfOk result (λ sink. is_honest (place sink) → kept sink ≡ kept self ++ batch.now) }

        // A crash at any moment of the call leaves what was kept, and a prefix of the batch.
        ensures any_moment { IfOk result (λ sink. is_honest (place sink)
            → LeavesOnly moment left_since (place self) (place sink) (HasBegun (kept self) batch.now)) }
        ensures any_moment_stopped { IfErr result (λ stopped. is_honest stopped.place
            → LeavesOnly moment left_since (place self) stopped.place (HasBegun (kept self) batch.now)) }

        // It reports `Failed`, `Full` or `Fenced` only with cause.
        ensures reason { IfErr result (λ stopped. is_honest stopped.place
            → HasReason failures refusals shortages (kept self) (place self) stopped) };

    /// What it kept is found after a crash at this moment.
    ghost finds_kept: { (sink : Self) (outcome : Option (List ℕ)) → is_honest (place sink)
        → left_since (place sink) (moment (place sink)) outcome → outcome ≡ Some (kept sink) };
}
