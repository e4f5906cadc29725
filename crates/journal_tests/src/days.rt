//! Logs of several batches.
ghost use Rattle.std.specs.Prelude.{◌≡◌, []};

use gu_journal::{Device, Log, Memory, Sink, SinkError, is_batch};
use std::alloc::Global;

/// How many zeros a log of a test adds at a time.
pub const STEP: usize = 96;

/// The batches of a day: comments, lines of several lengths, several lines at once.
pub const BATCHES: &[&str] = &[
    "# DAY 2026-01-05\n",
    "DAY 2026-01-05\n",
    "LIMIT G1 EXEC E1 100\nLIMIT G1 EXEC E2 10\n",
    "REPORT E1 R1 M1 B XF6 10 101.5 H1\n",
    "REPORT E2 R1 M1 S XF6 10 101.5 H1\n",
    "GIVEUP E1 L1 R1 A1 10\n",
    "\n",
    "CLAIM C1 1\n",
    "# 8 9f86d081884c7d659a2feaa0c55ad015a3bf4f1b2b0b822cd15d6c15b0f00a08\n",
    "REPORT E1 R2 M2 B XF6 7 99.25 H1\nREPORT E2 R2 M2 S XF6 7 99.25 H2\n",
    "GIVEUP E1 L2 R2 A1 3 A2 4\n",
    "SWEEP G1\n# TAKE 2 3\n# CUT AGR P1\n",
    "REFUSE C1 3 1\n",
    "L\n",
    "REPORT E1 R3 M3 B XF6 1 1 H1\n",
    "REPORT E2 R3 M3 S XF6 1 1 H1\n",
    "REVERSE E1 R3\n",
    "LIMIT G1 EXEC E1 10\n",
    "LIMIT G1 EXEC E1 100\n",
    "# 12 60303ae22b998861bce3b28f33eec1be758a213c86c93c076dbe9f558c11c752\n",
    "REPORT E1 R4 M4 B XF6 2 2 H1\n",
    "REPORT E2 R4 M4 S XF6 2 2 H1\n",
    "GIVEUP E1 L4 R4 A1 2\n",
    "# END\n",
];

/// Appends batches to a sink, and returns it if it kept them all.
pub fn append_all<S: Sink>(sink: S, batches: &[&str]) -> Result<S, SinkError>
where
    S: Drop,
{
    let mut sink = sink;
    for batch in batches {
        if !is_batch(batch.as_bytes()) {
            return Err(SinkError::Full);
        }
        sink = match sink.append(batch.as_bytes()) {
            Ok(kept) => kept,
            Err(stopped) => return Err(stopped.error()),
        };
    }
    Ok(sink)
}

/// Makes a log of a device, appends batches, and cuts the zeros off.
pub fn day<D: Device>(device: D, batches: &[&str]) -> Result<D, SinkError>
    requires { D.is_honest device → D.seen device ≡ [] }
{
    let log = match Log::create(device, STEP) {
        Ok(log) => log,
        Err(stopped) => return Err(SinkError::from(stopped.error())),
    };
    match append_all(log, batches)?.finish() {
        Ok(device) => Ok(device),
        Err(stopped) => Err(SinkError::from(stopped.error())),
    }
}

/// Returns the device of a day in memory, with its calls.
pub fn recorded(alloc: Global, batches: &[&str]) -> Result<Memory, SinkError> {
    match Memory::new(alloc, Vec::new(alloc)) {
        Ok(device) => day(device, batches),
        Err(_) => Err(SinkError::Memory),
    }
}

/// Returns batches one after another.
pub fn joined(alloc: Global, batches: &[&str]) -> Result<Vec<u8>, SinkError> {
    let mut text = Vec::new(alloc);
    for batch in batches {
        if text.extend_from_slice(batch.as_bytes()).is_err() {
            return Err(SinkError::Memory);
        }
    }
    Ok(text)
}
