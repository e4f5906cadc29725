//! Scripts that are played on the sample. What a run reports is how it ended, `: `, and what it wrote. In a text `/` ends a line.

use gu_ref::Reference;
use gu_script::{ScriptError, play};
use gu_streams::CountedReads;
use gu_terms::Seed;
use gu_world::World;
use std::alloc::{AllocError, Global};
use std::io::{self, Read, Write};

/// The sample: seventeen rows.
const SAMPLE: &str = "\
FIRM,E1
FIRM,E2
FIRM,C1
FIRM,C2
GROUP,G1
GROUP,G2
INSTRUMENT,XF6,G1
INSTRUMENT,YF6,G2
ACCOUNT,H1,E1
ACCOUNT,H2,E2
ACCOUNT,A1,C1
ACCOUNT,A2,C1
ACCOUNT,A3,C2
AGREEMENT,P1,E1,A1
AGREEMENT,P2,E1,A2
AGREEMENT,P3,E2,A1
AGREEMENT,P4,E2,A3
";

/// Gives its bytes in pieces of at most this many.
#[derive(Drop)]
pub struct Pieces<'a> {
    pub bytes: &'a [u8],
    pub most: usize,
}

impl Read for Pieces<'_> {
    fn read(&mut self, buf: &mut [u8]) -> io::Result<usize> {
        let count = self.most.min(self.bytes.len()).min(buf.len());
        buf[..count].copy_from_slice(&self.bytes[..count]);
        self.bytes = &self.bytes[count..];
        Ok(count)
    }
}

/// Returns the sample, with further rows.
pub fn reference_with(alloc: Global, rows: &str) -> Result<Reference, ScriptError> {
    let mut file = String::from_str(alloc, SAMPLE)?;
    file.push_str(rows)?;
    match Reference::read(alloc, &mut CountedReads::new(file.as_bytes())) {
        Ok(reference) => Ok(reference),
        Err(_) => Err(ScriptError::Memory),
    }
}

/// Returns the world that a script on the sample, with these rows more, leads to.
pub fn played<W: Write>(
    alloc: Global,
    rows: &str,
    script: Pieces<'_>,
    writer: &mut W,
) -> Result<World, ScriptError> {
    let reference = reference_with(alloc, rows)?;
    play(
        alloc,
        reference,
        Seed::new(0),
        &mut CountedReads::new(script),
        writer,
    )
}

/// Returns how a run ends, in words.
fn end_text(alloc: Global, end: Result<World, ScriptError>) -> Result<String, AllocError> {
    match end {
        Ok(world) => {
            drop(world);
            String::from_str(alloc, "done")
        }
        Err(error) => format!(in alloc; "{error}"),
    }
}

/// Returns what a script reports that comes in pieces of at most this many bytes, on the sample with these rows more.
pub fn told(alloc: Global, rows: &str, script: &str, most: usize) -> Result<String, AllocError> {
    let script = script.replace(alloc, "/", "\n")?;
    let bytes = script.as_bytes();
    let mut written = Vec::new(alloc);
    let end = played(alloc, rows, Pieces { bytes, most }, &mut written);
    let end = end_text(alloc, end)?;
    let text = str::from_utf8(&written).unwrap_or("?");
    let text = text.replace(alloc, "\n", "/")?;
    format!(in alloc; "{end}: {text}")
}
