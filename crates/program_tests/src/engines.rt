//! Engines that run over streams. A run is reported as how it ended, `: `, and what it wrote; `|` is SOH, and `/` ends a line.

use gu_capture::capture;
use gu_program::{RunError, check, replay, sample_day, sample_reference};
use gu_streams::CountedReads;
use gu_terms::Seed;
use gu_words::Status;
use std::alloc::{AllocError, Global};
use trials::{Sink, Source, Terms, joined, shown};

/// What runs, but for connections (`engine_tests`).
#[derive(Clone, Copy)]
pub enum Engine {
    /// Trade capture on the sample.
    Capture,
    /// The check of a sheet.
    Check,
    /// A script, on the sample.
    Replay,
}

/// Returns how a run of an engine ends.
fn ended(
    alloc: Global,
    engine: Engine,
    reads: &mut CountedReads<Source<'_>>,
    sink: &mut Sink,
) -> Result<Status, RunError> {
    match engine {
        Engine::Capture => {
            capture(
                alloc,
                sample_reference(alloc)?,
                sample_day(),
                Seed::new(0),
                reads,
                sink,
            )?;
            Ok(Status::Done)
        }
        Engine::Check => Ok(check(alloc, Seed::new(0), reads, sink)?),
        Engine::Replay => {
            replay(alloc, sample_reference(alloc)?, Seed::new(0), reads, sink)?;
            Ok(Status::Done)
        }
    }
}

/// Returns how a run ends, in words.
pub fn end_text(alloc: Global, end: Result<Status, RunError>) -> Result<String, AllocError> {
    match end {
        Ok(Status::Done) => String::from_str(alloc, "done"),
        Ok(Status::Fault) => String::from_str(alloc, "a fault"),
        Ok(Status::Refused) => String::from_str(alloc, "refused"),
        Err(error) => format!(in alloc; "{error}"),
    }
}

/// Returns the report of a run that ended in this way and wrote this.
fn told_of(
    alloc: Global,
    end: Result<Status, RunError>,
    written: &[u8],
) -> Result<String, AllocError> {
    let end = end_text(alloc, end)?;
    let written = shown(alloc, written)?;
    joined(alloc, &[end.as_str(), ": ", written.as_str()])
}

/// Returns the report of a run on an input.
pub fn told(
    alloc: Global,
    engine: Engine,
    input: &[u8],
    terms: Terms,
) -> Result<String, AllocError> {
    let lengths = [Some(terms.first)];
    let mut reads = CountedReads::new(Source {
        bytes: input,
        lengths: &lengths,
        later: terms.piece,
        reads: terms.reads,
    });
    let mut sink = Sink::new(alloc, terms.most, terms.writes);
    let end = ended(alloc, engine, &mut reads, &mut sink);
    told_of(alloc, end, &sink.held)
}
