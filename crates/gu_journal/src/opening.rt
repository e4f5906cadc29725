//! Making a log on an empty device, or finding one that a crash left.
ghost use Rattle.std.specs.Prelude.{◌≡◌, ◌⊎◌, ◌+◌, ◌≤◌, [], List, None, ℕ, length, replicate, option_map, vec_len, IfOk, IfSome, IfErr, IsErrOf, OnOk};
ghost use Rattle.gu_journal.specs.declared.device.DeviceError.{DeviceError};
ghost use Rattle.gu_journal.specs.declared.opening.OpenError.TheVariants.{Damaged, Device};
ghost use Rattle.gu_journal.specs.Crashes.{LeavesOnly, Only};
ghost use Rattle.gu_journal.specs.Device.{HasCause, HasFailed, Mixes, written};
ghost use Rattle.gu_journal.specs.Log.{Finds, IsSettled, LeavesText};
ghost use Rattle.gu_journal.specs.Text.{found, text_of, torn_length};

use crate::calls::{lengthen_through, write_through};
use crate::scanning::{text_end, used_len};
use crate::zeros::zeros;
use crate::{Device, DeviceError, MAX_BATCH};
use std::alloc::Global;
use thiserror::Error;

/// The reason that a device can't be opened as a log.
#[derive(Clone, Copy, Debug, PartialEq, Eq, Error)]
pub enum OpenError {
    /// A device call failed.
    #[error("{0}")]
    Device(DeviceError),
    /// There is more after the text than one batch can leave.
    #[error("damaged")]
    Damaged,
}

impl From<DeviceError> for OpenError {
    ghost from_gives = { λ d e. e ≡ Device d };

    fn from(error: DeviceError) -> Self {
        OpenError::Device(error)
    }
}

/// A log found on a device.
#[derive(Drop)]
pub struct Found {
    /// The text.
    pub text: Vec<u8>,
    /// The number of bytes of a torn batch after it.
    pub torn: usize,
    /// The length of the device.
    pub len: usize,
}

/// Returns the log found in these bytes, or None if they are damaged.
fn found_in(mut bytes: Vec<u8>) -> Option<Found>
    ensures text { option_map (λ it. it.text.items) result ≡ found bytes.items }
    ensures torn { IfSome result (λ it. it.torn ≡ torn_length bytes.items) }
    ensures len { IfSome result (λ it. it.len ≡ vec_len bytes) }
    ensures within { IfSome result (λ it. vec_len it.text + it.torn ≤ it.len) }
{
    let len = bytes.len();
    let end = text_end(&bytes);
    let torn = used_len(&bytes).saturating_sub(end);
    if torn > MAX_BATCH {
        return None;
    }
    bytes.truncate(end);
    Some(Found {
        text: bytes,
        torn,
        len,
    })
}

/// Waits until everything that a read returns is on the disk, and returns it.
fn settled_bytes<D: Device>(alloc: Global, device: &mut D) -> Result<Vec<u8>, DeviceError>
    ensures before { D.is_honest device.new → D.is_honest device.old }
    ensures bytes { IfOk result (λ bytes. D.is_honest device.new → bytes.items ≡ D.seen device.old) }
    ensures seen { OnOk result (D.is_honest device.new → D.seen device.new ≡ D.seen device.old) }
    ensures durable { OnOk result (D.is_honest device.new → Only (D.seen device.old) (D.may_leave device.new)) }
    ensures any_moment { D.is_honest device.new → LeavesOnly D.moment D.left_since device.old device.new (D.may_leave device.old) }
    ensures cause { D.is_honest device.new → HasCause D.failures D.shortages device.old device.new result }
{
    device.sync()?;
    device.read(alloc)
}

/// Writes zeros over the bytes from a position on, and waits until they are on the disk.
fn blank<D: Device>(
    alloc: Global,
    device: &mut D,
    at: usize,
    count: usize,
) -> Result<(), DeviceError>
    requires within { D.is_honest device.old → at + count ≤ length (D.seen device.old) }
    requires synced { D.is_honest device.old → Only (D.seen device.old) (D.may_leave device.old) }
    ensures before { D.is_honest device.new → D.is_honest device.old }
    ensures written { OnOk result (D.is_honest device.new → D.seen device.new ≡ written at (replicate count 0) (D.seen device.old)) }
    ensures durable { OnOk result (D.is_honest device.new → Only (D.seen device.new) (D.may_leave device.new)) }
    ensures any_moment { D.is_honest device.new
        → LeavesOnly D.moment D.left_since device.old device.new (Mixes at (replicate count 0) (D.seen device.old)) }
    ensures cause { D.is_honest device.new → HasCause D.failures D.shortages device.old device.new result }
{
    let blanks = zeros(alloc, count)?;
    write_through(device, at, &blanks)
}

/// Adds the first zeros to an empty device, and waits until they are on the disk.
pub fn prepare<D: Device>(device: &mut D, count: usize) -> Result<(), DeviceError>
    requires { D.is_honest device.old → D.seen device.old ≡ [] }
    ensures before { D.is_honest device.new → D.is_honest device.old }
    ensures seen { OnOk result (D.is_honest device.new → D.seen device.new ≡ replicate count 0) }
    ensures durable { OnOk result (D.is_honest device.new → Only (D.seen device.new) (D.may_leave device.new)) }
    ensures any_moment { D.is_honest device.new
        → LeavesOnly D.moment D.left_since device.old device.new (λ c. D.may_leave device.old c ⊎ Finds [] c) }
    ensures cause { D.is_honest device.new → HasCause D.failures D.shortages device.old device.new result }
{
    device.sync()?;
    lengthen_through(device, count)
}

/// Finds the text on a device, and blanks what is after it. A damaged device is unchanged.
pub fn recover<D: Device>(alloc: Global, device: &mut D) -> Result<Found, OpenError>
    ensures before { D.is_honest device.new → D.is_honest device.old }
    ensures text { IfOk result (λ it. D.is_honest device.new → Finds it.text.items (D.seen device.old)) }
    ensures torn { IfOk result (λ it. D.is_honest device.new → it.torn ≡ torn_length (D.seen device.old)) }
    ensures within { IfOk result (λ it. vec_len it.text ≤ it.len) }
    ensures kept { IfOk result (λ it. D.is_honest device.new → text_of (D.seen device.new) ≡ it.text.items) }
    ensures settled { IfOk result (λ it. D.is_honest device.new
        → IsSettled (D.seen device.new) (D.may_leave device.new) (vec_len it.text) it.len) }

    // A crash at any moment leaves what it might have left before, or the same text.
    ensures any_moment { D.is_honest device.new
        → LeavesOnly D.moment D.left_since device.old device.new (LeavesText (D.seen device.old) (D.may_leave device.old)) }

    ensures damaged { IsErrOf result Damaged → D.is_honest device.new → found (D.seen device.old) ≡ None }
    ensures untouched { IsErrOf result Damaged → D.is_honest device.new
        → LeavesOnly D.moment D.left_since device.old device.new (D.may_leave device.old) }
    ensures cause { (error : DeviceError) → IsErrOf result (Device error) → D.is_honest device.new
        → HasFailed D.failures D.shortages device.old device.new error }
{
    let bytes = settled_bytes(alloc, device)?;
    let Some(found) = found_in(bytes) else {
        return Err(OpenError::Damaged);
    };
    blank(alloc, device, found.text.len(), found.torn)?;
    Ok(found)
}
