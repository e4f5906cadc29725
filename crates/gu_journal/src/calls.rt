//! Device calls, each followed by a sync.
ghost use Rattle.std.specs.Prelude.{◌≡◌, ◌+◌, ◌≤◌, ◌++◌, length, replicate, take, OnOk};
ghost use Rattle.gu_journal.specs.Crashes.{LeavesOnly, Only};
ghost use Rattle.gu_journal.specs.Device.{Cuts, HasCause, Lengthens, Mixes, written};

use crate::{Device, DeviceError};

/// Overwrites bytes, and waits until they are on the disk.
pub fn write_through<D: Device>(device: &mut D, at: usize, bytes: &[u8]) -> Result<(), DeviceError>
    requires within { D.is_honest device.old → at + length bytes.now ≤ length (D.seen device.old) }
    requires synced { D.is_honest device.old → Only (D.seen device.old) (D.may_leave device.old) }
    ensures before { D.is_honest device.new → D.is_honest device.old }
    ensures written { OnOk result (D.is_honest device.new → D.seen device.new ≡ written at bytes.now (D.seen device.old)) }
    ensures durable { OnOk result (D.is_honest device.new → Only (D.seen device.new) (D.may_leave device.new)) }
    ensures any_moment { D.is_honest device.new
        → LeavesOnly D.moment D.left_since device.old device.new (Mixes at bytes.now (D.seen device.old)) }
    ensures cause { D.is_honest device.new → HasCause D.failures D.shortages device.old device.new result }
{
    device.write_at(at, bytes)?;
    device.sync()
}

/// Adds zeros at the end, and waits until they are on the disk.
pub fn lengthen_through<D: Device>(device: &mut D, more: usize) -> Result<(), DeviceError>
    ensures before { D.is_honest device.new → D.is_honest device.old }
    ensures lengthened { OnOk result (D.is_honest device.new → D.seen device.new ≡ D.seen device.old ++ replicate more 0) }
    ensures durable { OnOk result (D.is_honest device.new → Only (D.seen device.new) (D.may_leave device.new)) }
    ensures any_moment { D.is_honest device.new → Only (D.seen device.old) (D.may_leave device.old)
        → LeavesOnly D.moment D.left_since device.old device.new (Lengthens more (D.seen device.old)) }
    ensures cause { D.is_honest device.new → HasCause D.failures D.shortages device.old device.new result }
{
    device.lengthen(more)?;
    device.sync()
}

/// Cuts the file to a length, and waits until that is on the disk.
pub fn cut_through<D: Device>(device: &mut D, len: usize) -> Result<(), DeviceError>
    requires { D.is_honest device.old → len ≤ length (D.seen device.old) }
    ensures before { D.is_honest device.new → D.is_honest device.old }
    ensures cut { OnOk result (D.is_honest device.new → D.seen device.new ≡ take len (D.seen device.old)) }
    ensures durable { OnOk result (D.is_honest device.new → Only (D.seen device.new) (D.may_leave device.new)) }
    ensures any_moment { D.is_honest device.new → Only (D.seen device.old) (D.may_leave device.old)
        → LeavesOnly D.moment D.left_since device.old device.new (Cuts len (D.seen device.old)) }
    ensures cause { D.is_honest device.new → HasCause D.failures D.shortages device.old device.new result }
{
    device.cut(len)?;
    device.sync()
}
