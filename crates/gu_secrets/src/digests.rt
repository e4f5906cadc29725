//! Digests of secrets.

ghost use Rattle.std.specs.Prelude.{◌≡◌, ◌++◌, ◌↔◌, IsTrue};
ghost use Rattle.sha2.specs.Sha256.{sha256};

use sha2::{Digest, Sha256};

/// The bytes of a digest.
pub(crate) const DIGEST_BYTES: usize = 32;

/// Returns SHA-256 of a salt with a secret after it.
pub(crate) fn digest_of(salt: &[u8], secret: &[u8]) -> [u8; DIGEST_BYTES]
    ensures { result ≡ sha256 (salt.now ++ secret.now) }
{
    let mut hasher = Sha256::new();
    hasher.update(salt);
    hasher.update(secret);
    hasher.finalize()
}

/// Returns whether two digests are the same. It compares all their bytes, whatever it finds in the first ones.
pub(crate) fn are_same(left: &[u8; DIGEST_BYTES], right: &[u8; DIGEST_BYTES]) -> bool
    ensures { IsTrue result ↔ (left.now ≡ right.now) }
{
    let mut differences: u8 = 0;
    for place in 0..DIGEST_BYTES {
        differences |= left[place] ^ right[place];
    }
    differences == 0
}
