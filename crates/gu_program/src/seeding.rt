//! Seeds from the system.

ghost use Rattle.std.specs.Prelude.{◌≡◌, fold};
ghost use Rattle.std.specs.Int.{from_le_bytes, w64};
ghost use Rattle.std.specs.Hash as fed;
ghost use Rattle.std.specs.Hash.FoldHasher as folding;

use gu_streams::StreamError;
use gu_terms::Seed;
use std::random::RandomSource;

/// Returns the seed of these bytes.
fn seed_of(bytes: [u8; 8]) -> Seed
    ensures { result.begun ≡ fold folding.write folding.initial (fed.u64 (from_le_bytes w64 bytes)) }
{
    Seed::new(u64::from_le_bytes(bytes))
}

/// Returns a seed from the system's random bytes, for tables of ids and names that others choose. If there are none, that is a read fault.
pub fn seed_from<R: RandomSource>(rt: &R) -> Result<Seed, StreamError> {
    let mut bytes = [0; 8];
    match rt.fill_bytes(&mut bytes) {
        Ok(()) => Ok(seed_of(bytes)),
        Err(_) => Err(StreamError::Read),
    }
}
