//! Secrets that are issued to firms.

ghost use Rattle.std.specs.Prelude.{◌≡◌, ◌++◌, ◌∷◌, IfOk, OnOk};
ghost use Rattle.hex.specs.Hex.{encode_lower};
ghost use Rattle.gu_secrets.specs.Issued.{issued_line, issued_secret};

use crate::digests::{DIGEST_BYTES, digest_of};
use crate::row::SALT_BYTES;
use gu_terms::FirmId;
use std::alloc::{AllocError, Global};

/// The bytes that are drawn for a secret: the salt, and then the secret.
const DRAWN_BYTES: usize = 32;

/// A secret that is issued to a firm, and the row that it fits.
#[derive(Drop)]
pub struct Issued {
    /// The secret as text, which the firm sends in Password (554).
    pub secret: Vec<u8>,
    /// The row as a line of the file, without an LF.
    pub line: Vec<u8>,
}

/// Appends a comma, and bytes as hexadecimal digits.
fn append_field(alloc: Global, line: &mut Vec<u8>, bytes: &[u8]) -> Result<(), AllocError>
    ensures { OnOk result (line.new.items ≡ line.old.items ++ 44 ∷ encode_lower bytes.now) }
{
    let digits = hex::encode(alloc, bytes)?;
    line.push(b',')?;
    line.extend_from_slice(digits.as_bytes())?;
    Ok(())
}

/// Returns the line of a row.
fn line_of(
    alloc: Global,
    firm: FirmId,
    salt: &[u8],
    digest: &[u8; DIGEST_BYTES],
) -> Result<Vec<u8>, AllocError>
    ensures { IfOk result (λ line. line.items ≡ firm.name ++ 44 ∷ (encode_lower salt.now ++ 44 ∷ encode_lower digest.now)) }
{
    let mut line = Vec::from_slice(alloc, firm.get())?;
    append_field(alloc, &mut line, salt)?;
    append_field(alloc, &mut line, digest)?;
    Ok(line)
}

/// Returns a secret for a firm, with its row, made of bytes that were drawn at random. Whoever knows these bytes knows the secret.
pub fn issue(alloc: Global, firm: FirmId, drawn: [u8; DRAWN_BYTES]) -> Result<Issued, AllocError>
    ensures secret { IfOk result (λ issued. issued.secret.items ≡ issued_secret drawn) }
    ensures line { IfOk result (λ issued. issued.line.items ≡ issued_line firm drawn) }
{
    let (salt, secret) = drawn.split_at(SALT_BYTES);
    let secret = hex::encode(alloc, secret)?.into_bytes();
    let line = line_of(alloc, firm, salt, &digest_of(salt, &secret))?;
    Ok(Issued { secret, line })
}
