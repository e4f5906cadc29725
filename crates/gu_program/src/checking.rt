//! The check of a sweep sheet.

ghost use Rattle.std.specs.Prelude.{◌≡◌, ◌^◌, ℕ, IfOk, IsErrOf, OnErr, OnOk};
ghost use Rattle.std.specs.Io.KnownBytes.{Keeps};
ghost use Rattle.gu_streams.specs.Reads.{bytes_left, HasStopped};
ghost use Rattle.gu_streams.specs.Streams.{streams_of};
ghost use Rattle.gu_terms.specs.Takes.{lots_of};
ghost use Rattle.gu_view.specs.Check.{verdict};
ghost use Rattle.gu_view.specs.Takes.{IsGreatest};
ghost use Rattle.gu_program.specs.Checking.{Checked, CheckedInPart, HasBadLine, ReadsBadLine, ReadsPart, ReadsSheet, status_after};

use gu_script::ScriptError;
use gu_streams::{CountedReads, LONGEST_READ, send};
use gu_terms::Seed;
use gu_text::{Sheet, SheetReading, verdict_text};
use gu_view::CutFault;
use gu_words::Status;
use std::alloc::Global;
use std::io::{Read, Write};

/// Reads the sheet that the reader has. The whole lines of a read are parsed before the next read.
fn read_sheet<R: Read>(
    alloc: Global,
    seed: Seed,
    reads: &mut CountedReads<R>,
) -> Result<Sheet, ScriptError>
    ensures sheet { IfOk result (λ sheet. ReadsSheet sheet (bytes_left R.remaining reads.old) (bytes_left R.remaining reads.new)) }
    ensures bad_line { (n : ℕ) → IsErrOf result (ScriptError.BadLine n)
        → ReadsBadLine n (bytes_left R.remaining reads.old) (bytes_left R.remaining reads.new) }
    ensures stopped { IsErrOf result ScriptError.Read → HasStopped reads.new }

    // After an error a part was read.
    ensures part { OnErr result (ReadsPart (bytes_left R.remaining reads.old) (bytes_left R.remaining reads.new)) }
{
    let mut reading = SheetReading::seeded(alloc, seed);
    let mut buffer = [0; LONGEST_READ];
    'reading: while !reads.is_spent() {
        match reads.read(&mut buffer) {
            Ok(0) => return Ok(reading.end()?),
            Ok(count) => reading.take(&buffer[..count])?,
            Err(_) => return Err(ScriptError::Read),
        }
    }
    Err(ScriptError::Read)
}

/// Returns the verdict on a sheet.
fn verdict_on(sheet: &Sheet) -> Result<u64, CutFault>
    ensures verdict { result ≡ verdict sheet.now.view sheet.now.takes sheet.now.cut }
    ensures greatest { OnOk result (IsGreatest sheet.now.view (lots_of sheet.now.takes)) }
{
    gu_view::check(&sheet.view, &sheet.takes, &sheet.cut)
}

/// Returns the status for a verdict.
fn status_after(verdict: &Result<u64, CutFault>) -> Status
    ensures { result ≡ status_after verdict.now }
{
    match verdict {
        Ok(_) => Status::Done,
        Err(_) => Status::Fault,
    }
}

/// Checks the sheet that the reader has, writes the verdict on it, and returns the status.
pub fn check<R: Read, W: Write>(
    alloc: Global,
    seed: Seed,
    reads: &mut CountedReads<R>,
    writer: &mut W,
) -> Result<Status, ScriptError>
    ensures done { IfOk result (λ status. Checked status (streams_of R.remaining W.contents reads.old reads.new writer.old writer.new)) }

    // What is no sheet is answered by its first bad line, as soon as it was read, and nothing is written; nor is anything where reading
    // stopped.
    ensures bad_line { (n : ℕ) → IsErrOf result (ScriptError.BadLine n)
        → HasBadLine n (streams_of R.remaining W.contents reads.old reads.new writer.old writer.new) }
    ensures stopped { IsErrOf result ScriptError.Read → HasStopped reads.new }
    ensures nothing { IsErrOf result ScriptError.Read → Keeps (W.contents writer.old) (W.contents writer.new) }

    // In any case, and so after each error: what was written is a prefix of the line of the verdict.
    ensures part { CheckedInPart (streams_of R.remaining W.contents reads.old reads.new writer.old writer.new) }
{
    let sheet = read_sheet(alloc, seed, reads)?;
    let verdict = verdict_on(&sheet);
    let line = verdict_text(alloc, &verdict)?;
    send(writer, &line)?;
    Ok(status_after(&verdict))
}
