//! A device that fails.

ghost use Rattle.std.specs.Prelude.{[]};

use gu_journal::{Device, DeviceError};
use std::alloc::{AllocError, Global};

/// A device in memory that answers this many calls, and then fails. It is never honest, so no clause speaks of it.
#[derive(Drop)]
pub struct FrailDevice {
    pub bytes: Vec<u8>,
    pub calls_left: u32,
}

impl FrailDevice {
    /// Counts a call.
    fn count(&mut self) -> Result<(), DeviceError> {
        match self.calls_left.checked_sub(1) {
            Some(left) => {
                self.calls_left = left;
                Ok(())
            }
            None => Err(DeviceError::Failed),
        }
    }

    /// Adds zeros at the end.
    fn add_zeros(&mut self, more: usize) -> Result<(), AllocError> {
        for _zero in 0..more {
            self.bytes.push(0)?;
        }
        Ok(())
    }
}

impl Device for FrailDevice {
    ghost is_honest = { λ _. ⊥ };

    ghost seen = { λ _. [] };

    ghost may_leave = { λ _ _. ⊥ };

    ghost moment = { λ _. 0 };

    ghost left_since = { λ _ _ _. ⊥ };

    ghost failures = { λ _. 0 };

    ghost shortages = { λ _. 0 };

    ghost counts_now = { λ _ _ _ _ left. left };

    ghost only_now = { λ _ _ left. left };

    fn read(&mut self, alloc: Global) -> Result<Vec<u8>, DeviceError> {
        self.count()?;
        match self.bytes.to_vec(alloc) {
            Ok(bytes) => Ok(bytes),
            Err(_) => Err(DeviceError::Memory),
        }
    }

    fn write_at(&mut self, at: usize, bytes: &[u8]) -> Result<(), DeviceError> {
        self.count()?;
        for (place, byte) in bytes.iter().enumerate() {
            if let Some(old) = self.bytes.get_mut(at.saturating_add(place)) {
                *old = *byte;
            }
        }
        Ok(())
    }

    fn lengthen(&mut self, more: usize) -> Result<(), DeviceError> {
        self.count()?;
        match self.add_zeros(more) {
            Ok(()) => Ok(()),
            Err(_) => Err(DeviceError::Memory),
        }
    }

    fn cut(&mut self, len: usize) -> Result<(), DeviceError> {
        self.count()?;
        self.bytes.truncate(len);
        Ok(())
    }

    fn sync(&mut self) -> Result<(), DeviceError> {
        self.count()
    }
}
