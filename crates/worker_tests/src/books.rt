//! Books that scripts lead to, on the sample.

use gu_book::Book;
use gu_ref::Reference;
use gu_script::{ScriptError, play};
use gu_streams::CountedReads;
use gu_terms::Seed;
use std::alloc::Global;
use std::io;
use trials::wire;

/// The rows of the sample.
const ROWS: &str =
    "FIRM,E1\nFIRM,E2\nFIRM,C1\nFIRM,C2\nGROUP,G1\nGROUP,G2\nINSTRUMENT,XF6,G1\nINSTRUMENT,YF6,G2\nACCOUNT,H1,E1\nACCOUNT,H2,E2\nACCOUNT,A1,C1\nACCOUNT,A2,C1\nACCOUNT,A3,C2\nAGREEMENT,P1,E1,A1\nAGREEMENT,P2,E1,A2\nAGREEMENT,P3,E2,A1\nAGREEMENT,P4,E2,A3\n";

/// Returns the reference of the sample.
pub fn sample(alloc: Global) -> Result<Reference, ScriptError> {
    match Reference::read(alloc, &mut CountedReads::new(ROWS.as_bytes())) {
        Ok(reference) => Ok(reference),
        Err(_) => Err(ScriptError::Memory),
    }
}

/// Returns the book of the sample after a script, in which `/` ends a line.
pub fn book_after(alloc: Global, script: &str) -> Result<Book, ScriptError> {
    let script = wire(alloc, script)?;
    let reference = sample(alloc)?;
    let mut reads = CountedReads::new(script.as_bytes());
    let world = play(alloc, reference, Seed::new(0), &mut reads, &mut io::sink())?;
    Ok(world.into_book())
}
