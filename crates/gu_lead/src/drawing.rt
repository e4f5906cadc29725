//! Names for desks, drawn at random.

use gu_etcd::Name;
use std::alloc::{AllocError, Global};
use std::random::RandomSource;

/// How many random bytes a name has.
const DRAWN: usize = 16;

/// What a desk's name begins with.
const HEAD: &[u8] = b"desk-";

/// The digits in which random bytes are written.
const DIGITS: &[u8; 16] = b"0123456789abcdef";

/// Returns a name for a desk from the system's random bytes, so that no two desks have one name; none if there are no random bytes.
pub fn draw_name<R: RandomSource>(rt: &R, alloc: Global) -> Result<Option<Name>, AllocError> {
    let mut drawn = [0_u8; DRAWN];
    if rt.fill_bytes(&mut drawn).is_err() {
        return Ok(None);
    }
    let mut name = Vec::from_slice(alloc, HEAD)?;
    for byte in drawn {
        name.push(DIGITS[usize::from(byte >> 4)])?;
        name.push(DIGITS[usize::from(byte & 15)])?;
    }
    Ok(Name::new(name))
}
