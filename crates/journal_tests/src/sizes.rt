//! The largest batch, and thousands of batches.
use crate::days::append_all;
use gu_journal::{Log, MAX_BATCH, Memory, STEP, Sink, SinkError, is_batch};
use std::alloc::{AllocError, Global};
use std::test::Fail;

/// Returns a line of this length.
fn line(alloc: Global, len: usize) -> Result<Vec<u8>, AllocError> {
    let mut bytes = Vec::new(alloc);
    for _ in 1..len {
        bytes.push(b'x')?;
    }
    bytes.push(b'\n')?;
    Ok(bytes)
}

#[test]
fn a_batch_has_a_mebibyte_at_most_whole_lines_and_no_zero(rt: HostRuntime) -> Result<(), Fail> {
    let alloc = rt.alloc();
    assert!(rt; is_batch(b""));
    assert!(rt; is_batch(b"\n"));
    assert!(rt; !is_batch(b"A"));
    assert!(rt; !is_batch(b"A\nB"));
    assert!(rt; !is_batch(b"A\0\n"));
    assert!(rt; is_batch(&line(alloc, MAX_BATCH)?));
    assert!(rt; !is_batch(&line(alloc, MAX_BATCH + 1)?));
    Ok(())
}

#[test]
fn the_largest_batch_is_kept_by_the_largest_and_the_smallest_step(
    rt: HostRuntime,
) -> Result<(), Fail> {
    let alloc = rt.alloc();
    let batch = line(alloc, MAX_BATCH)?;
    for step in [0, STEP] {
        let device = Memory::new(alloc, Vec::new(alloc))?;
        let log = Log::create(device, step).ok().expect(&rt, "a log");
        assert!(rt; is_batch(&batch));
        if is_batch(&batch) {
            let log = log.append(&batch).ok().expect(&rt, "kept");
            assert_eq!(rt; log.text_len(), MAX_BATCH);
            let device = log.finish().ok().expect(&rt, "finished");
            assert_eq!(rt; device.bytes(), batch.as_slice());
        }
    }
    Ok(())
}

/// Appends a line over and over, and returns how long the text is.
fn many(alloc: Global, count: usize) -> Result<usize, SinkError> {
    let Ok(device) = Memory::new(alloc, Vec::new(alloc)) else {
        return Err(SinkError::Memory);
    };
    let mut log = match Log::create(device, 4_096) {
        Ok(log) => log,
        Err(stopped) => return Err(SinkError::from(stopped.error())),
    };
    for _ in 0..count {
        log = append_all(log, &["REPORT E1 R1 M1 B XF6 10 101.5 H1\n"])?;
    }
    Ok(log.text_len())
}

#[test]
fn thousands_of_batches_are_kept(rt: HostRuntime) {
    assert_eq!(rt; many(rt.alloc(), 3_000), Ok(102_000));
}
