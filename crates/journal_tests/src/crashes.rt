//! A crash at each moment of a day, and of its recovery.
use crate::days::{BATCHES, STEP, append_all, joined, recorded};
use crate::tears::{done, tears, torn};
use gu_journal::{Call, Log, Memory, Opened, SinkError};
use std::alloc::Global;

/// What a crash may leave: what was acknowledged, and the batch that was under way.
#[derive(Clone, Copy)]
struct Moment<'a> {
    kept: &'a [u8],
    batch: &'a [u8],
}

/// Opens what a crash left.
fn opened(alloc: Global, image: Vec<u8>) -> Result<Opened<Memory>, SinkError> {
    let Ok(device) = Memory::new(alloc, image) else {
        return Err(SinkError::Memory);
    };
    match Log::open(alloc, device, STEP) {
        Ok(opened) => Ok(opened),
        Err(_) => Err(SinkError::Failed),
    }
}

impl Moment<'_> {
    /// Returns whether a text is what was acknowledged, and whole lines from the beginning of the batch.
    fn allows(&self, text: &[u8]) -> bool {
        match text.strip_prefix(self.kept) {
            Some(begun) => {
                self.batch.starts_with(begun) && (begun.is_empty() || begun.ends_with(b"\n"))
            }
            None => false,
        }
    }
}

/// Returns the calls of a day up to the moment at which its last batch was acknowledged.
fn acknowledged(day: &Memory) -> usize {
    // The last two calls are the cut and the sync of the end.
    day.calls().len().saturating_sub(2)
}

/// Returns the text that is found on what a crash left.
fn found_text(alloc: Global, image: Vec<u8>) -> Result<Vec<u8>, SinkError> {
    let Opened { log, text, torn: _ } = opened(alloc, image)?;
    drop(log);
    Ok(text)
}

/// Returns the device of a recovery, with its calls.
fn recovered(alloc: Global, image: &[u8]) -> Result<Memory, SinkError> {
    let Opened { log, text, torn: _ } = opened(alloc, copied(alloc, image)?)?;
    drop(text);
    log.finish().map_err(|_| SinkError::Failed)
}

/// Returns what one of a call's tears leaves.
fn torn_image(alloc: Global, olds: &[u8], call: &Call, tear: usize) -> Result<Vec<u8>, SinkError> {
    torn(alloc, olds, call, tear).map_err(|_| SinkError::Memory)
}

/// Returns how many tears a call has, if the same text is found after each.
fn tears_found(
    alloc: Global,
    olds: &[u8],
    call: &Call,
    text: &[u8],
) -> Result<Option<usize>, SinkError> {
    let count = tears(call, olds.len());
    for tear in 0..count {
        let found = found_text(alloc, torn_image(alloc, olds, call, tear)?)?;
        if found.as_slice() != text {
            return Ok(None);
        }
    }
    Ok(Some(count))
}

/// Opens what a crash left of a recovery by these calls, in each of its tears, and returns how many there are, or nothing if one is wrong.
fn recoveries(
    alloc: Global,
    calls: &[Call],
    image: &[u8],
    text: &[u8],
) -> Result<Option<usize>, SinkError> {
    let mut count: usize = 0;
    let mut olds = copied(alloc, image)?;
    for call in calls {
        let Some(more) = tears_found(alloc, &olds, call, text)? else {
            return Ok(None);
        };
        count = count.saturating_add(more);
        olds = done(alloc, &olds, call).map_err(|_| SinkError::Memory)?;
    }
    Ok(Some(count))
}

/// Returns a copy of bytes.
fn copied(alloc: Global, bytes: &[u8]) -> Result<Vec<u8>, SinkError> {
    match Vec::from_slice(alloc, bytes) {
        Ok(copy) => Ok(copy),
        Err(_) => Err(SinkError::Memory),
    }
}

/// Returns whether a crash left what may be left, and whether a batch can be appended to it.
fn goes_on(alloc: Global, moment: &Moment<'_>, image: Vec<u8>) -> Result<bool, SinkError> {
    let Opened { log, text, torn: _ } = opened(alloc, image)?;
    if !moment.allows(&text) || log.text_len() != text.len() {
        return Ok(false);
    }
    let device = match append_all(log, &["# on\n"])?.finish() {
        Ok(device) => device,
        Err(_) => return Err(SinkError::Failed),
    };
    Ok(device.bytes().strip_prefix(text.as_slice()) == Some(b"# on\n".as_slice()))
}

/// A day whose calls are walked through, and how many crashes were tried.
#[derive(Drop)]
struct Walk<'a> {
    alloc: Global,
    moment: Moment<'a>,
    /// Each crash of a recovery is tried too.
    is_deep: bool,
    tried: usize,
}

impl Walk<'_> {
    /// Tries each crash of the recovery of what a crash left, and returns whether the same is found after each.
    fn recovers(&mut self, image: &[u8]) -> Result<bool, SinkError> {
        let text = found_text(self.alloc, copied(self.alloc, image)?)?;
        let device = recovered(self.alloc, image)?;
        let more = recoveries(self.alloc, device.calls(), image, &text);
        drop(device);
        let more = more?;
        self.tried = self.tried.saturating_add(more.unwrap_or(0));
        Ok(more.is_some())
    }

    /// Tries each tear of a call, and returns whether all are as they may be.
    fn tries(&mut self, olds: &[u8], call: &Call) -> Result<bool, SinkError> {
        for tear in 0..tears(call, olds.len()) {
            let image = torn_image(self.alloc, olds, call, tear)?;
            if self.is_deep && !self.recovers(&image)? {
                return Ok(false);
            }
            if !goes_on(self.alloc, &self.moment, image)? {
                return Ok(false);
            }
            self.tried = self.tried.saturating_add(1);
        }
        Ok(true)
    }

    /// Tries a crash at each call of a day from one on, and before another.
    fn walks(&mut self, day: &Memory, from: usize, to: usize) -> Result<bool, SinkError> {
        let mut olds = copied(self.alloc, day.first())?;
        for (place, call) in day.calls().iter().enumerate() {
            if from <= place && place < to && !self.tries(&olds, call)? {
                return Ok(false);
            }
            olds = done(self.alloc, &olds, call).map_err(|_| SinkError::Memory)?;
        }
        Ok(true)
    }
}

/// Tries a crash at each call of a day from one on, and before another. Returns how many were tried, if what is found is right after each.
fn walked(
    alloc: Global,
    day: &Memory,
    moment: Moment<'_>,
    is_deep: bool,
    places: (usize, usize),
) -> Result<Option<usize>, SinkError> {
    let (from, to) = places;
    let mut walk = Walk {
        alloc,
        moment,
        is_deep,
        tried: 0,
    };
    let is_right = walk.walks(day, from, to)?;
    Ok(is_right.then_some(walk.tried))
}

/// Tries each crash of a day at its last batch, before which these were acknowledged, and at the end.
fn crashes_of(
    alloc: Global,
    day: &Memory,
    batches: (&[&str], &str),
    is_deep: bool,
) -> Result<Option<usize>, SinkError> {
    let (before, last) = batches;
    let from = acknowledged(&recorded(alloc, before)?);
    let (to, end) = (acknowledged(day), day.calls().len());
    let mut kept = joined(alloc, before)?;
    let begun = Moment {
        kept: &kept,
        batch: last.as_bytes(),
    };
    let Some(tried) = walked(alloc, day, begun, is_deep, (from, to))? else {
        return Ok(None);
    };
    if kept.extend_from_slice(last.as_bytes()).is_err() {
        return Err(SinkError::Memory);
    }
    let whole = Moment {
        kept: &kept,
        batch: &[],
    };
    let more = walked(alloc, day, whole, is_deep, (to, end))?;
    Ok(more.map(|more| more.saturating_add(tried)))
}

/// Tries each crash of a day that has this number of batches: at the last one, and at the end. Returns how many were tried, if what
/// is found is right after each.
fn crashes(alloc: Global, count: usize, is_deep: bool) -> Result<Option<usize>, SinkError> {
    let Some(batches) = BATCHES.get(..count) else {
        return Ok(None);
    };
    let Some((last, before)) = batches.split_last() else {
        return Ok(None);
    };
    let day = recorded(alloc, batches)?;
    let tried = crashes_of(alloc, &day, (before, last), is_deep);
    drop(day);
    tried
}

#[test]
fn at_each_crash_what_was_acknowledged_is_found_and_a_beginning_of_the_rest(rt: HostRuntime) {
    let mut tried: usize = 0;
    for count in 1..25 {
        let more = crashes(rt.alloc(), count, false);
        assert!(rt; matches!(more, Ok(Some(_))), "{count} batches");
        if let Ok(Some(more)) = more {
            tried = tried.saturating_add(more);
        }
    }
    assert_eq!(rt; tried, 5_114);
}

#[test]
fn at_each_crash_of_a_recovery_the_same_is_found(rt: HostRuntime) {
    let mut tried: usize = 0;
    for count in 1..3 {
        let more = crashes(rt.alloc(), count, true);
        assert!(rt; matches!(more, Ok(Some(_))), "{count} batches");
        if let Ok(Some(more)) = more {
            tried = tried.saturating_add(more);
        }
    }
    assert_eq!(rt; tried, 93_929);
}
