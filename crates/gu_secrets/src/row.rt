//! A row of a file of secrets.

ghost use Rattle.std.specs.Prelude.{◌≡◌, ◌↔◌, IsTrue};
ghost use Rattle.gu_secrets.specs.Secrets.{Fits, firm_named, row_of};

use crate::digests::{DIGEST_BYTES, are_same, digest_of};
use crate::splitting::three_fields;
use gu_terms::FirmId;
use hex::FromHex;

/// The bytes of a salt.
pub(crate) const SALT_BYTES: usize = 16;

/// A row of a file of secrets: a firm, a salt, and SHA-256 of the salt with one of the firm's secrets after it.
#[derive(Clone, Copy)]
pub struct SecretRow {
    pub firm: FirmId,
    pub salt: [u8; SALT_BYTES],
    pub digest: [u8; DIGEST_BYTES],
}

/// Returns the firm with this name, if it is one of these firms.
pub fn firm_named(firms: &[FirmId], name: &[u8]) -> Option<FirmId>
    ensures { result ≡ firm_named firms.now name.now }
{
    firms.iter().copied().find(|firm| firm.get() == name)
}

/// Returns the row that a line says, if it says a row of one of these firms.
pub(crate) fn row_of(line: &[u8], firms: &[FirmId]) -> Option<SecretRow>
    ensures { result ≡ row_of firms.now line.now }
{
    let (name, salt, digest) = three_fields(line)?;
    Some(SecretRow {
        firm: firm_named(firms, name)?,
        salt: <[u8; SALT_BYTES]>::from_hex(salt).ok()?,
        digest: <[u8; DIGEST_BYTES]>::from_hex(digest).ok()?,
    })
}

impl SecretRow {
    /// Returns whether this is a row of the firm, and the secret fits it.
    pub(crate) fn admits(&self, firm: FirmId, secret: &[u8]) -> bool
        ensures { IsTrue result ↔ ((self.now.firm ≡ firm) × Fits self.now secret.now) }
    {
        self.firm == firm && are_same(&digest_of(&self.salt, secret), &self.digest)
    }
}
