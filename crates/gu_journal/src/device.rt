//! A file as a log sees it: what a read returns, and what a crash may leave.
ghost use Rattle.std.specs.Prelude.{◌≡◌, ◌+◌, ◌≤◌, ◌++◌, List, ℕ, length, replicate, take, IfOk, OnOk};
ghost use Rattle.gu_journal.specs.declared.device.DeviceError.TheVariants.{Memory};
ghost use Rattle.gu_journal.specs.Crashes.{Elapses, Only};
ghost use Rattle.gu_journal.specs.Device.{Cuts, Follows, HasCause, Lengthens, Mixes, written};

use std::alloc::{AllocError, AllocFailed, Global};
use thiserror::Error;

/// The reason that a device call failed.
#[derive(Clone, Copy, Debug, PartialEq, Eq, Error)]
pub enum DeviceError {
    /// An allocation failed.
    #[error("out of memory")]
    Memory,
    /// The device failed. How much of what was written since the last sync is on the disk is unknown.
    #[error("device fault")]
    Failed,
    /// The device has no room.
    #[error("no room")]
    Full,
}

impl From<AllocError> for DeviceError {
    ghost from_gives = { λ _ e. e ≡ Memory };

    fn from(_: AllocError) -> Self {
        DeviceError::Memory
    }
}

impl<T: Drop> From<AllocFailed<T>> for DeviceError {
    ghost from_gives = { λ _ e. e ≡ Memory };

    fn from(_: AllocFailed<T>) -> Self {
        DeviceError::Memory
    }
}

/// A file that is read whole, written within its length, lengthened with zeros, cut and synced. The contract of a call holds if the device
/// is honest after it. No contract can say that a system file is.
pub trait Device: Drop {
    /// So far the device has answered each call as a disk does.
    ghost is_honest: { Self → Type 0 };

    /// The bytes that a read returns.
    ghost seen: { Self → List ℕ };

    /// What a crash at this moment may leave.
    ghost may_leave: { Self → List ℕ → Type 0 };

    /// The moment, as a number that never decreases.
    ghost moment: { Self → ℕ };

    /// What a crash at some moment since that one might have left, during a call or between two.
    ghost left_since: { Self → ℕ → List ℕ → Type 0 };

    /// The number of calls that failed.
    ghost failures: { Self → ℕ };

    /// The number of calls that found no room.
    ghost shortages: { Self → ℕ };

    /// Returns all the bytes.
    fn read(&mut self, alloc: Global) -> Result<Vec<u8>, DeviceError>
        ensures before { is_honest self.new → is_honest self.old }
        ensures bytes { IfOk result (λ bytes. is_honest self.new → bytes.items ≡ seen self.old) }
        ensures seen { is_honest self.new → seen self.new ≡ seen self.old }
        ensures crash { is_honest self.new → (c : List ℕ) → may_leave self.new c → may_leave self.old c }
        ensures time { is_honest self.new → Elapses moment left_since self.old self.new (may_leave self.new) }
        ensures cause { is_honest self.new → HasCause failures shortages self.old self.new result };

    /// Overwrites existing bytes. Until a sync, a crash may leave each byte as it was or as written, even after an error.
    fn write_at(&mut self, at: usize, bytes: &[u8]) -> Result<(), DeviceError>
        requires within { is_honest self.old → at + length bytes.now ≤ length (seen self.old) }
        requires within_left { is_honest self.old → (c : List ℕ) → may_leave self.old c → at + length bytes.now ≤ length c }
        ensures before { is_honest self.new → is_honest self.old }
        ensures written { OnOk result (is_honest self.new → seen self.new ≡ written at bytes.now (seen self.old)) }
        ensures crash { is_honest self.new → Follows (Mixes at bytes.now) (may_leave self.old) (may_leave self.new) }
        ensures time { is_honest self.new → Elapses moment left_since self.old self.new (may_leave self.new) }
        ensures cause { is_honest self.new → HasCause failures shortages self.old self.new result };

    /// Adds this number of zeros at the end. Until a sync, a crash may leave only some of them.
    fn lengthen(&mut self, more: usize) -> Result<(), DeviceError>
        ensures before { is_honest self.new → is_honest self.old }
        ensures lengthened { OnOk result (is_honest self.new → seen self.new ≡ seen self.old ++ replicate more 0) }
        ensures crash { is_honest self.new → Follows (Lengthens more) (may_leave self.old) (may_leave self.new) }
        ensures time { is_honest self.new → Elapses moment left_since self.old self.new (may_leave self.new) }
        ensures cause { is_honest self.new → HasCause failures shortages self.old self.new result };

    /// Cuts the file to a length. Until a sync, a crash may leave it longer.
    fn cut(&mut self, len: usize) -> Result<(), DeviceError>
        requires { is_honest self.old → len ≤ length (seen self.old) }
        ensures before { is_honest self.new → is_honest self.old }
        ensures cut { OnOk result (is_honest self.new → seen self.new ≡ take len (seen self.old)) }
        ensures crash { is_honest self.new → Follows (Cuts len) (may_leave self.old) (may_leave self.new) }
        ensures time { is_honest self.new → Elapses moment left_since self.old self.new (may_leave self.new) }
        ensures cause { is_honest self.new → HasCause failures shortages self.old self.new result };

    /// Waits until everything written is on the disk. After `Ok`, a crash leaves what a read returns. An error promises nothing.
    fn sync(&mut self) -> Result<(), DeviceError>
        ensures before { is_honest self.new → is_honest self.old }
        ensures durable { OnOk result (is_honest self.new → Only (seen self.old) (may_leave self.new)) }
        ensures seen { OnOk result (is_honest self.new → seen self.new ≡ seen self.old) }
        ensures crash { is_honest self.new → (c : List ℕ) → may_leave self.new c → may_leave self.old c }
        ensures time { is_honest self.new → Elapses moment left_since self.old self.new (may_leave self.new) }
        ensures cause { is_honest self.new → HasCause failures shortages self.old self.new result };

    /// This moment is one of those since an earlier one.
    ghost counts_now: { (file : Self) (t : ℕ) (c : List ℕ) → t ≤ moment file → may_leave file c → left_since file t c };

    /// There is no other moment since this one.
    ghost only_now: { (file : Self) (c : List ℕ) → left_since file (moment file) c → may_leave file c };
}
