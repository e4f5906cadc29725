//! A log on a device: text followed by zeros, which are on the disk before text is written over them.
ghost use Rattle.std.specs.Prelude.{◌≡◌, ◌⊎◌, ◌+◌, ◌≤◌, ◌++◌, [], None, length, IfOk, IfErr};
ghost use Rattle.gu_journal.specs.declared.device.DeviceError.{DeviceError};
ghost use Rattle.gu_journal.specs.declared.opening.OpenError.TheVariants.{Damaged, Device};
ghost use Rattle.gu_journal.specs.declared.log.TheConstants.{STEP};
ghost use Rattle.gu_journal.specs.Crashes.{LeavesOnly, Only};
ghost use Rattle.gu_journal.specs.Device.{HasFailed};
ghost use Rattle.gu_journal.specs.Log.{Finds, IsSettled, LeavesText, found_since};
ghost use Rattle.gu_journal.specs.Sink.{HasBegun, HasReason, no_refusals};
ghost use Rattle.gu_journal.specs.Text.{IsBatch, found, torn_length};

use crate::calls::{cut_through, lengthen_through, write_through};
use crate::opening::{Found, OpenError, prepare, recover};
use crate::{Device, DeviceError, MAX_BATCH, Sink, SinkError, Stopped};
use std::alloc::Global;

/// The most zeros added at a time, and the step recommended for a long text.
pub const STEP: usize = 4 << 20;

/// A sink that writes its text to a device. Its text is on the disk, and so are the zeros after it.
#[derive(Drop)]
pub struct Log<D: Device> {
    device: D,
    /// The end of the text.
    at: usize,
    /// The end of the zeros.
    len: usize,
    /// The number of zeros added at a time.
    step: usize,
    ghost within: { at ≤ len },
    ghost short: { step ≤ STEP },
    ghost settled: { D.is_honest device → IsSettled (D.seen device) (D.may_leave device) at len },
}

/// A log that was found on a device.
#[derive(Drop)]
pub struct Opened<D: Device> {
    pub log: Log<D>,
    /// The text found, which the log keeps.
    pub text: Vec<u8>,
    /// The number of bytes of a torn batch after it.
    pub torn: usize,
}

impl<D: Device> Log<D> {
    ghost use Rattle.gu_journal.specs.Kept.{device_of, kept_by};

    /// Makes a log on an empty device, to which zeros are added in steps of this length.
    pub fn create(mut device: D, step: usize) -> Result<Self, Stopped<D, DeviceError>>
        requires empty { D.is_honest device → D.seen device ≡ [] }
        requires short { step ≤ STEP }
        ensures before { IfOk result (λ log. D.is_honest (device_of log) → D.is_honest device) }
        ensures before_stopped { IfErr result (λ stopped. D.is_honest stopped.place → D.is_honest device) }
        ensures kept { IfOk result (λ log. D.is_honest (device_of log) → kept_by log ≡ []) }

        // A crash at any moment leaves what it might have left before, or an empty text.
        ensures any_moment { IfOk result (λ log. D.is_honest (device_of log)
            → LeavesOnly D.moment D.left_since device (device_of log) (λ c. D.may_leave device c ⊎ Finds [] c)) }
        ensures any_moment_stopped { IfErr result (λ stopped. D.is_honest stopped.place
            → LeavesOnly D.moment D.left_since device stopped.place (λ c. D.may_leave device c ⊎ Finds [] c)) }

        ensures reason { IfErr result (λ stopped. D.is_honest stopped.place
            → HasFailed D.failures D.shortages device stopped.place stopped.error) }
    {
        match prepare(&mut device, step) {
            Ok(()) => Ok(Log {
                device,
                at: 0,
                len: step,
                step,
            }),
            Err(error) => Err(Stopped::new(device, error)),
        }
    }

    /// Opens a device in any state that a crash left: its text is the whole lines before its first zero, and what a torn batch left after
    /// them is blanked. A damaged device is unchanged.
    pub fn open(
        alloc: Global,
        mut device: D,
        step: usize,
    ) -> Result<Opened<D>, Stopped<D, OpenError>>
        requires { step ≤ STEP }
        ensures before { IfOk result (λ opened. D.is_honest (device_of opened.log) → D.is_honest device) }
        ensures before_stopped { IfErr result (λ stopped. D.is_honest stopped.place → D.is_honest device) }
        ensures text { IfOk result (λ opened. D.is_honest (device_of opened.log) → Finds opened.text.items (D.seen device)) }
        ensures kept { IfOk result (λ opened. D.is_honest (device_of opened.log) → kept_by opened.log ≡ opened.text.items) }
        ensures torn { IfOk result (λ opened. D.is_honest (device_of opened.log) → opened.torn ≡ torn_length (D.seen device)) }

        // A crash at any moment leaves what it might have left before, or the same text.
        ensures any_moment { IfOk result (λ opened. D.is_honest (device_of opened.log)
            → LeavesOnly D.moment D.left_since device (device_of opened.log) (LeavesText (D.seen device) (D.may_leave device))) }
        ensures any_moment_stopped { IfErr result (λ stopped. D.is_honest stopped.place
            → LeavesOnly D.moment D.left_since device stopped.place (LeavesText (D.seen device) (D.may_leave device))) }

        // A damaged device is refused, and nothing is written to it.
        ensures damaged { IfErr result (λ stopped. D.is_honest stopped.place → stopped.error ≡ Damaged → found (D.seen device) ≡ None) }
        ensures untouched { IfErr result (λ stopped. D.is_honest stopped.place → stopped.error ≡ Damaged
            → LeavesOnly D.moment D.left_since device stopped.place (D.may_leave device)) }

        ensures reason { IfErr result (λ stopped. D.is_honest stopped.place → (error : DeviceError) → stopped.error ≡ Device error
            → HasFailed D.failures D.shortages device stopped.place error) }
    {
        match recover(alloc, &mut device) {
            Ok(Found { text, torn, len }) => {
                let log = Log {
                    device,
                    at: text.len(),
                    len,
                    step,
                };
                Ok(Opened { log, text, torn })
            }
            Err(error) => Err(Stopped::new(device, error)),
        }
    }

    /// Returns the number of bytes of text kept.
    pub fn text_len(&self) -> usize
        ensures { D.is_honest (device_of self.now) → result ≡ length (kept_by self.now) }
    {
        self.at
    }

    /// Cuts the zeros off, and returns the device, whose bytes are then the text.
    pub fn finish(self) -> Result<D, Stopped<D, DeviceError>>
        ensures before { IfOk result (λ device. D.is_honest device → D.is_honest (device_of self)) }
        ensures before_stopped { IfErr result (λ stopped. D.is_honest stopped.place → D.is_honest (device_of self)) }
        ensures text { IfOk result (λ device. D.is_honest device → D.seen device ≡ kept_by self) }
        ensures durable { IfOk result (λ device. D.is_honest device → Only (kept_by self) (D.may_leave device)) }

        // A crash at any moment leaves the text.
        ensures any_moment { IfOk result (λ device. D.is_honest device
            → LeavesOnly D.moment D.left_since (device_of self) device (Finds (kept_by self))) }
        ensures any_moment_stopped { IfErr result (λ stopped. D.is_honest stopped.place
            → LeavesOnly D.moment D.left_since (device_of self) stopped.place (Finds (kept_by self))) }

        ensures reason { IfErr result (λ stopped. D.is_honest stopped.place → HasFailed D.failures D.shortages (device_of self) stopped.place stopped.error) }
    {
        let Log { mut device, at, .. } = self;
        match cut_through(&mut device, at) {
            Ok(()) => Ok(device),
            Err(error) => Err(Stopped::new(device, error)),
        }
    }

    /// Adds zeros, if there is no room for this number of bytes.
    fn with_room(self, more: usize) -> Result<Self, Stopped<D, SinkError>>
        requires { more ≤ MAX_BATCH }
        ensures before { IfOk result (λ log. D.is_honest log.device → D.is_honest self.device) }
        ensures before_stopped { IfErr result (λ stopped. D.is_honest stopped.place → D.is_honest self.device) }
        ensures room { IfOk result (λ log. log.at + more ≤ log.len) }
        ensures kept { IfOk result (λ log. D.is_honest log.device → kept_by log ≡ kept_by self) }
        ensures any_moment { IfOk result (λ log. D.is_honest log.device
            → LeavesOnly D.moment D.left_since self.device log.device (Finds (kept_by self))) }
        ensures any_moment_stopped { IfErr result (λ stopped. D.is_honest stopped.place
            → LeavesOnly D.moment D.left_since self.device stopped.place (Finds (kept_by self))) }
        ensures reason { IfErr result (λ stopped. D.is_honest stopped.place → HasReason D.failures no_refusals D.shortages (kept_by self) self.device stopped) }
        ensures counts { IfOk result (λ log. D.is_honest log.device → (D.failures self.device ≤ D.failures log.device) × (D.shortages self.device ≤ D.shortages log.device)) }
    {
        if self.len - self.at >= more {
            return Ok(self);
        }
        let Log {
            mut device,
            at,
            len,
            step,
        } = self;
        let added = step.max(more);
        let Some(longer) = len.checked_add(added) else {
            return Err(Stopped::new(device, SinkError::Full));
        };
        match lengthen_through(&mut device, added) {
            Ok(()) => Ok(Log {
                device,
                at,
                len: longer,
                step,
            }),
            Err(error) => Err(Stopped::new(device, SinkError::from(error))),
        }
    }

    /// Writes a batch over the zeros after the text.
    fn put(self, batch: &[u8]) -> Result<Self, Stopped<D, SinkError>>
        requires batch { IsBatch batch.now }
        requires room { self.at + length batch.now ≤ self.len }
        ensures before { IfOk result (λ log. D.is_honest log.device → D.is_honest self.device) }
        ensures before_stopped { IfErr result (λ stopped. D.is_honest stopped.place → D.is_honest self.device) }
        ensures kept { IfOk result (λ log. D.is_honest log.device → kept_by log ≡ kept_by self ++ batch.now) }
        ensures any_moment { IfOk result (λ log. D.is_honest log.device
            → LeavesOnly D.moment D.left_since self.device log.device (λ c. HasBegun (kept_by self) batch.now (found c))) }
        ensures any_moment_stopped { IfErr result (λ stopped. D.is_honest stopped.place
            → LeavesOnly D.moment D.left_since self.device stopped.place (λ c. HasBegun (kept_by self) batch.now (found c))) }
        ensures reason { IfErr result (λ stopped. D.is_honest stopped.place → HasReason D.failures no_refusals D.shortages (kept_by self) self.device stopped) }
    {
        let Log {
            mut device,
            at,
            len,
            step,
        } = self;
        match write_through(&mut device, at, batch) {
            Ok(()) => Ok(Log {
                device,
                at: at + batch.len(),
                len,
                step,
            }),
            Err(error) => Err(Stopped::new(device, SinkError::from(error))),
        }
    }
}

impl<D: Device> Sink for Log<D> {
    ghost use Rattle.gu_journal.specs.Kept.{device_of, kept_by, kept_is_found};

    type Place = D;

    ghost is_honest = { D.is_honest };

    ghost moment = { D.moment };

    ghost left_since = { found_since D.left_since };

    ghost failures = { D.failures };

    ghost refusals = { no_refusals };

    ghost shortages = { D.shortages };

    ghost place = { λ log. device_of log };

    ghost kept = { λ log. kept_by log };

    ghost finds_kept = { λ log outcome honest left. kept_is_found D.only_now log outcome honest left };

    fn append(self, batch: &[u8]) -> Result<Self, Stopped<D, SinkError>> {
        match self.with_room(batch.len()) {
            Ok(log) => log.put(batch),
            Err(stopped) => Err(stopped),
        }
    }
}
