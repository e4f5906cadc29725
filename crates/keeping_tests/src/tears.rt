//! What a crash may leave of a call.
use gu_journal::Call;
use std::alloc::{AllocError, Global};

/// How many mixes of old and new bytes are tried of a long write.
const MIXES: usize = 64;

/// Returns a number from 0 to 1 that looks like chance.
fn is_odd(seed: usize, place: usize) -> bool {
    let mixed = (seed as u64)
        .wrapping_mul(0x9E37_79B9_7F4A_7C15)
        .wrapping_add(place as u64)
        .wrapping_mul(0xBF58_476D_1CE4_E5B9);
    (mixed >> 40) % 2 == 1
}

/// Returns whether a byte of a write is on the disk in one of its tears: for a short write in each mix, for a long one in each
/// beginning, each end, and mixes by bytes and by sectors.
fn is_written(len: usize, tear: usize, place: usize) -> bool {
    if len <= 8 {
        return (tear >> place.min(8)) % 2 == 1;
    }
    if tear <= len {
        return place < tear;
    }
    let later = tear - len;
    if later <= len {
        return place >= len - later;
    }
    if tear % 2 == 0 {
        is_odd(tear, place)
    } else {
        is_odd(tear, place / 512)
    }
}

/// Returns how many tears of a call on a device of this length are tried.
pub fn tears(call: &Call, len: usize) -> usize {
    match call {
        Call::Write { at: _, bytes } => {
            if bytes.len() <= 8 {
                256
            } else {
                bytes.len().saturating_mul(2).saturating_add(1 + MIXES)
            }
        }
        Call::Lengthen(more) => more.saturating_add(1),
        Call::Cut(kept) => len.saturating_sub(*kept).saturating_add(1),
        Call::Sync => 1,
    }
}

/// Writes what is on the disk of a write in one of its tears.
fn tear_write(left: &mut Vec<u8>, at: usize, bytes: &[u8], tear: usize) {
    for (place, byte) in bytes.iter().enumerate() {
        if is_written(bytes.len(), tear, place) {
            if let Some(old) = left.get_mut(at.saturating_add(place)) {
                *old = *byte;
            }
        }
    }
}

/// Returns the bytes that one of a call's tears leaves.
pub fn torn(alloc: Global, olds: &[u8], call: &Call, tear: usize) -> Result<Vec<u8>, AllocError> {
    let mut left = Vec::from_slice(alloc, olds)?;
    match call {
        Call::Write { at, bytes } => tear_write(&mut left, *at, bytes, tear),
        Call::Lengthen(_) => {
            for _ in 0..tear {
                left.push(0)?;
            }
        }
        Call::Cut(_) => left.truncate(olds.len().saturating_sub(tear)),
        Call::Sync => {}
    }
    Ok(left)
}

/// Does a call whole.
pub fn done(alloc: Global, olds: &[u8], call: &Call) -> Result<Vec<u8>, AllocError> {
    let mut left = Vec::from_slice(alloc, olds)?;
    match call {
        Call::Write { at, bytes } => {
            for (place, byte) in bytes.iter().enumerate() {
                if let Some(old) = left.get_mut(at.saturating_add(place)) {
                    *old = *byte;
                }
            }
        }
        Call::Lengthen(more) => {
            for _ in 0..*more {
                left.push(0)?;
            }
        }
        Call::Cut(kept) => left.truncate(*kept),
        Call::Sync => {}
    }
    Ok(left)
}
