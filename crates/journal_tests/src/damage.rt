//! Logs that are opened, and logs that are refused as damaged.
use crate::days::STEP;
use gu_journal::{Call, Device, DeviceError, Log, Memory, OpenError};
use std::alloc::Global;
use std::test::Fail;

/// Bytes, the text that is found on them, and how many torn bytes are after it.
const FOUND: &[(&[u8], &[u8], usize)] = &[
    (b"", b"", 0),
    (b"\0\0\0", b"", 0),
    (b"DAY 2026-01-05\n", b"DAY 2026-01-05\n", 0),
    (b"A\nB\n\0\0", b"A\nB\n", 0),
    (b"A\nB", b"A\n", 1),
    (b"A\nBC\0\0", b"A\n", 2),
    (b"A\n\0\0C\n\0", b"A\n", 4),
    (b"torn\0\n", b"", 6),
    (b"A\n\0", b"A\n", 0),
    (b"\n\n\0x", b"\n\n", 2),
];

/// Opens a device that has these bytes.
fn opened(alloc: Global, bytes: &[u8]) -> Result<(Vec<u8>, usize, Memory), OpenError> {
    let Ok(image) = Vec::from_slice(alloc, bytes) else {
        return Err(OpenError::Device(DeviceError::Memory));
    };
    let Ok(device) = Memory::new(alloc, image) else {
        return Err(OpenError::Device(DeviceError::Memory));
    };
    match Log::open(alloc, device, STEP) {
        Ok(found) => match found.log.finish() {
            Ok(device) => Ok((found.text, found.torn, device)),
            Err(stopped) => Err(OpenError::Device(stopped.error())),
        },
        Err(stopped) => Err(stopped.error()),
    }
}

#[test]
fn the_whole_lines_before_the_first_zero_are_found(rt: HostRuntime) {
    for &(bytes, text, torn) in FOUND {
        match opened(rt.alloc(), bytes) {
            Ok((found, cut, device)) => {
                assert_eq!(rt; found.as_slice(), text);
                assert_eq!(rt; cut, torn);
                assert_eq!(rt; device.bytes(), text);
            }
            Err(error) => assert!(rt; false, "{error:?}"),
        }
    }
}

/// Returns a text, zeros, and a byte that isn't zero as the last of this number of bytes after the text.
fn stained(alloc: Global, after: usize) -> Result<Vec<u8>, DeviceError> {
    let mut bytes = Vec::from_slice(alloc, b"A\n")?;
    for _ in 1..after {
        bytes.push(0)?;
    }
    bytes.push(b'x')?;
    Ok(bytes)
}

#[test]
fn more_than_a_batch_can_leave_is_damaged_and_stays(rt: HostRuntime) -> Result<(), Fail> {
    let alloc = rt.alloc();
    let most = opened(alloc, &stained(alloc, 1 << 19)?);
    assert!(rt; matches!(most, Ok((_, 524_288, _))));
    let damaged = Memory::new(alloc, stained(alloc, (1 << 19) + 1)?)?;
    match Log::open(alloc, damaged, STEP) {
        Ok(_) => assert!(rt; false, "it was opened"),
        Err(stopped) => {
            assert!(rt; stopped.error() == OpenError::Damaged);
            let calls = stopped.place().calls();
            assert!(rt; matches!(calls, [Call::Sync]));
        }
    }
    Ok(())
}
