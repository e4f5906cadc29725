//! A secret that is issued to a firm.

use crate::error::RunError;
use crate::fault::{Fault, Place};
use gu_secrets::{Issued, issue};
use gu_streams::{StreamError, send};
use gu_terms::FirmId;
use gu_words::Status;
use std::alloc::Global;
use std::io;
use std::random::RandomSource;

/// Draws a secret for a firm, and the salt of its row. If the system has no random bytes, nothing is issued.
fn issued_to<R: RandomSource + Alloc<A = Global>>(
    rt: &R,
    firm: FirmId,
) -> Result<Issued, StreamError> {
    let mut drawn = [0; 32];
    match rt.fill_bytes(&mut drawn) {
        Ok(()) => Ok(issue(rt.alloc(), firm, drawn)?),
        Err(_) => Err(StreamError::Read),
    }
}

/// Prints the row of a secret on standard output, and then the secret on standard error. If the row can't be written, the secret isn't
/// shown.
fn show<R: Print + Eprint>(rt: &R, issued: Issued) -> Result<(), StreamError> {
    let Issued { secret, mut line } = issued;
    line.extend_from_slice(b"\n")?;
    send(&mut io::writer(rt), &line)?;
    match eprintln!(rt; "554={}", secret.escape_ascii()) {
        Ok(()) => Ok(()),
        Err(_) => Err(StreamError::Write),
    }
}

/// Issues a secret to a firm: its row, for the file of secrets, goes to standard output, and the secret to standard error.
pub fn run_secret<R: Print + Eprint + RandomSource + Alloc<A = Global>>(
    rt: &R,
    firm: FirmId,
) -> Result<Status, Fault<'static>> {
    let issued = issued_to(rt, firm)?;
    match show(rt, issued) {
        Ok(()) => Ok(Status::Done),
        Err(error) => Err(Fault::at(Place::Output, RunError::from(error))),
    }
}
