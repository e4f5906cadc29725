//! Devices that fail at one of their calls: nothing is written after it.
ghost use Rattle.std.specs.Prelude.{[]};

use crate::days::{BATCHES, STEP, joined};
use gu_journal::{Device, DeviceError, Log, Sink, SinkError, is_batch};
use std::alloc::{AllocError, Global};

/// A device that fails at one call, and counts the calls after it. Nothing is promised of it, as of a file of the system.
#[derive(Drop)]
struct Failing {
    bytes: Vec<u8>,
    /// How many calls succeed.
    left: usize,
    error: DeviceError,
    has_failed: bool,
    after: usize,
}

impl Failing {
    /// Counts a call, and returns the error if it is the one that fails.
    fn turn(&mut self) -> Result<(), DeviceError> {
        if self.has_failed {
            self.after = self.after.saturating_add(1);
            return Ok(());
        }
        if self.left == 0 {
            self.has_failed = true;
            return Err(self.error);
        }
        self.left -= 1;
        Ok(())
    }
}

impl Device for Failing {
    ghost is_honest = { λ _. ⊥ };

    ghost seen = { λ _. [] };

    ghost may_leave = { λ _ _. ⊥ };

    ghost moment = { λ _. 0 };

    ghost left_since = { λ _ _ _. ⊥ };

    ghost failures = { λ _. 0 };

    ghost shortages = { λ _. 0 };

    ghost counts_now = { λ _ _ _ _ left. left };

    ghost only_now = { λ _ _ left. left };

    fn read(&mut self, alloc: Global) -> Result<Vec<u8>, DeviceError> {
        self.turn()?;
        Ok(Vec::from_slice(alloc, &self.bytes)?)
    }

    fn write_at(&mut self, at: usize, bytes: &[u8]) -> Result<(), DeviceError> {
        self.turn()?;
        for (place, byte) in bytes.iter().enumerate() {
            if let Some(old) = self.bytes.get_mut(at.saturating_add(place)) {
                *old = *byte;
            }
        }
        Ok(())
    }

    fn lengthen(&mut self, more: usize) -> Result<(), DeviceError> {
        self.turn()?;
        for _ in 0..more {
            self.bytes.push(0)?;
        }
        Ok(())
    }

    fn cut(&mut self, len: usize) -> Result<(), DeviceError> {
        self.turn()?;
        self.bytes.truncate(len);
        Ok(())
    }

    fn sync(&mut self) -> Result<(), DeviceError> {
        self.turn()
    }
}

/// How a day ended.
#[derive(Drop)]
struct Ended {
    /// Why it stopped, if it did.
    error: Option<SinkError>,
    /// How many batches were kept.
    kept: usize,
    /// How many calls came after the one that failed.
    after: usize,
    bytes: Vec<u8>,
}

/// Returns how a day ended at a device.
fn ended_at(
    alloc: Global,
    place: &Failing,
    error: Option<SinkError>,
    kept: usize,
) -> Result<Ended, AllocError> {
    Ok(Ended {
        error,
        kept,
        after: place.after,
        bytes: Vec::from_slice(alloc, &place.bytes)?,
    })
}

/// Runs a day on a device of which this number of calls succeed.
fn day_that_fails(alloc: Global, left: usize, error: DeviceError) -> Result<Ended, AllocError> {
    let device = Failing {
        bytes: Vec::new(alloc),
        left,
        error,
        has_failed: false,
        after: 0,
    };
    let mut log = match Log::create(device, STEP) {
        Ok(log) => log,
        Err(stopped) => {
            let error = SinkError::from(stopped.error());
            return ended_at(alloc, stopped.place(), Some(error), 0);
        }
    };
    let mut kept: usize = 0;
    for batch in BATCHES {
        if !is_batch(batch.as_bytes()) {
            return Err(AllocError);
        }
        log = match log.append(batch.as_bytes()) {
            Ok(next) => next,
            Err(stopped) => {
                return ended_at(alloc, stopped.place(), Some(stopped.error()), kept);
            }
        };
        kept = kept.saturating_add(1);
    }
    match log.finish() {
        Ok(device) => ended_at(alloc, &device, None, kept),
        Err(stopped) => {
            let error = SinkError::from(stopped.error());
            ended_at(alloc, stopped.place(), Some(error), kept)
        }
    }
}

/// Returns whether a device has the batches that were kept.
fn has_kept(alloc: Global, day: &Ended) -> bool {
    match BATCHES.get(..day.kept) {
        Some(batches) => match joined(alloc, batches) {
            Ok(text) => day.bytes.starts_with(text.as_slice()),
            Err(_) => false,
        },
        None => false,
    }
}

#[test]
fn nothing_is_written_after_a_call_that_failed(rt: HostRuntime) {
    let alloc = rt.alloc();
    let mut failed: usize = 0;
    for left in 0..200 {
        for error in [DeviceError::Failed, DeviceError::Full] {
            let day = day_that_fails(alloc, left, error);
            assert!(rt; day.is_ok());
            if let Ok(day) = day {
                assert_eq!(rt; day.after, 0, "{left}");
                if day.error.is_some() {
                    assert_eq!(rt; day.error, Some(SinkError::from(error)), "{left}");
                    failed = failed.saturating_add(1);
                }
                assert!(rt; has_kept(alloc, &day), "{left}");
            }
        }
    }
    // The day makes 65 calls, and each fails in two ways.
    assert_eq!(rt; failed, 130);
}
