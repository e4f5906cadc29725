//! The files of a run: a reference, the secrets of its firms, and a script that is run first.

ghost use Rattle.std.specs.Prelude.{IfOk};
ghost use Rattle.std.specs.Io.KnownBytes.{Consumes, IsAtEnd};
ghost use Rattle.gu_streams.specs.Reads.{bytes_left};

use crate::digesting::Digesting;
use crate::error::{RunError, SecretsError};
use crate::fault::{Fault, Place};
use gu_ref::{RefFault, Reference};
use gu_script::{RefusedLines, play_opening};
use gu_secrets::Secrets;
use gu_streams::{CountedReads, LONGEST_READ, StreamError};
use gu_terms::{FirmId, Seed};
use gu_world::World;
use std::alloc::Global;
use std::fs::File;
use std::io::Read;
use std::rt::Files;

/// Returns the reference in a file, and the SHA-256 digest of the file.
pub fn digested_reference_at<'a, R: Files + Alloc<A = Global>>(
    rt: &R,
    path: &'a str,
) -> Result<(Reference, [u8; 32]), Fault<'a>> {
    let place = Place::File(path);
    let file = match File::open(rt, path) {
        Ok(file) => file,
        Err(cause) => {
            return Err(Fault::refused(place, cause, RunError::from(RefFault::ReadFault)));
        }
    };
    let mut reads = CountedReads::new(Digesting::new(file));
    let read = Reference::read(rt.alloc(), &mut reads);
    let digest = reads.into_reader().digest();
    match read {
        Ok(reference) => Ok((reference, digest)),
        Err(fault) => Err(Fault::at(place, RunError::from(fault))),
    }
}

/// Returns the reference in a file.
pub fn reference_at<'a, R: Files + Alloc<A = Global>>(
    rt: &R,
    path: &'a str,
) -> Result<Reference, Fault<'a>> {
    let (reference, _) = digested_reference_at(rt, path)?;
    Ok(reference)
}

/// Returns all that a reader has.
fn all_of<R: Read>(alloc: Global, reads: &mut CountedReads<R>) -> Result<Vec<u8>, StreamError>
    ensures all { IfOk result (λ all. Consumes (bytes_left R.remaining reads.old) (bytes_left R.remaining reads.new) all.items) }
    ensures end { IfOk result (λ _. IsAtEnd (bytes_left R.remaining reads.new)) }
{
    let mut all = Vec::new(alloc);
    let mut buffer = [0; LONGEST_READ];
    'reading: while !reads.is_spent() {
        match reads.read(&mut buffer) {
            Ok(0) => return Ok(all),
            Ok(count) => all.extend_from_slice(&buffer[..count])?,
            Err(_) => return Err(StreamError::Read),
        }
    }
    Err(StreamError::Read)
}

/// Returns the text of a file of secrets.
fn secrets_text<'a, R: Files + Alloc<A = Global>>(
    rt: &R,
    path: &'a str,
) -> Result<Vec<u8>, Fault<'a>> {
    let place = Place::File(path);
    let error = RunError::Secrets(SecretsError::ReadFault);
    match File::open(rt, path) {
        Ok(file) => match all_of(rt.alloc(), &mut CountedReads::new(file)) {
            Ok(text) => Ok(text),
            Err(StreamError::Memory) => Err(Fault::from(StreamError::Memory)),
            Err(_) => Err(Fault::at(place, error)),
        },
        Err(cause) => Err(Fault::refused(place, cause, error)),
    }
}

/// Returns the secrets in a file. Each row has to be for one of these firms.
pub fn secrets_at<'a, R: Files + Alloc<A = Global>>(
    rt: &R,
    path: &'a str,
    firms: &[FirmId],
) -> Result<Secrets, Fault<'a>> {
    let text = secrets_text(rt, path)?;
    match Secrets::read(rt.alloc(), &text, firms) {
        Ok(secrets) => Ok(secrets),
        Err(fault) => Err(Fault::at(Place::File(path), RunError::from(fault))),
    }
}

/// Returns the world that the script in a file leads to, and the script's refused lines; without a script, a world without entries.
pub fn world_after<'a, R: Files + Alloc<A = Global>>(
    rt: &R,
    reference: Reference,
    script: Option<&'a str>,
    seed: Seed,
) -> Result<(World, Option<RefusedLines>), Fault<'a>> {
    let Some(path) = script else {
        return Ok((World::seeded(rt.alloc(), reference, seed), None));
    };
    let place = Place::File(path);
    match File::open(rt, path) {
        Ok(file) => {
            match play_opening(rt.alloc(), reference, seed, &mut CountedReads::new(file)) {
                Ok((world, refused)) => Ok((world, Some(refused))),
                Err(error) => Err(Fault::at(place, RunError::from(error))),
            }
        }
        Err(cause) => {
            drop(reference);
            Err(Fault::refused(place, cause, RunError::from(StreamError::Read)))
        }
    }
}
