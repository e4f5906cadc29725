//! Reading scripts, carrying them out and answering.

ghost use Rattle.std.specs.Prelude.{◌≡◌, ◌+◌, ◌^◌, ◌<◌, [], List, ℕ, IfOk, IsErrOf};
ghost use Rattle.gu_streams.specs.Reads.{HasStopped, bytes_left};
ghost use Rattle.gu_world.specs.Runs.{beginning};
ghost use Rattle.gu_script.specs.ScriptPieces.{Ended, Gives};
ghost use Rattle.gu_script.specs.ScriptRuns.{HasBadLine, Played, Replayed, ReplayedInPart, ReplayedSoFar, StopsAtBadLine};
ghost use Rattle.gu_streams.specs.Streams.{streams_of};

use crate::error::ScriptError;
use crate::line_watcher::{LineWatcher, Unwatched};
use crate::refused_lines::RefusedLines;
use crate::script::Script;
use gu_ref::Reference;
use gu_streams::{CountedReads, LONGEST_READ, send};
use gu_terms::Seed;
use gu_text::TextError;
use gu_world::World;
use std::alloc::Global;
use std::io;
use std::io::{Read, Write};

/// Writes the answers, and then reports a bad line if there is one. If an allocation failed, nothing is written.
fn give<W: Write>(
    answered: Result<(), TextError>,
    output: &[u8],
    writer: &mut W,
) -> Result<(), ScriptError>
    ensures { Gives answered result output.now (W.contents writer.old) (W.contents writer.new) }
{
    match answered {
        Ok(()) => {
            send(writer, output)?;
            Ok(())
        }
        Err(TextError::BadLine(number)) => {
            send(writer, output)?;
            Err(ScriptError::BadLine(number))
        }
        Err(TextError::Memory) => Err(ScriptError::Memory),
    }
}

/// Answers the bytes after the last LF, given that nothing more follows.
fn answer_end<W: Write, L: LineWatcher>(
    script: &mut Script,
    output: &mut Vec<u8>,
    writer: &mut W,
    watcher: &mut L,
) -> Result<(), ScriptError>
    requires { script.old.count + 1 < 2 ^ 64 }
    ensures { Ended result script.old script.new.course (W.contents writer.old) (W.contents writer.new) }
{
    output.clear();
    let answered = script.end(output, watcher);
    give(answered, output, writer)
}

/// Plays the lines of a script of which nothing was read, writes their text, and returns the world that they lead to. The whole lines of a
/// read are answered before the next read.
fn play_from<R: Read, W: Write, L: LineWatcher>(
    alloc: Global,
    script: Script,
    reads: &mut CountedReads<R>,
    writer: &mut W,
    watcher: &mut L,
) -> Result<World, ScriptError>
    requires unread { (script.count ≡ 0) × (script.rest ≡ []) }
    ensures done { IfOk result (λ world. Replayed script.course world
        (streams_of R.remaining W.contents reads.old reads.new writer.old writer.new)) }

    // A bad line ends the run, and exactly the text of the lines before it is written. It is bad whatever may follow what was read.
    ensures bad_line { (n : ℕ) → IsErrOf result (ScriptError.BadLine n)
        → StopsAtBadLine script.course n (streams_of R.remaining W.contents reads.old reads.new writer.old writer.new) }

    // If the reader failed or no reads are left, the ended lines are answered, and exactly their text is written.
    ensures answered { IsErrOf result ScriptError.Read
        → ReplayedSoFar script.course (streams_of R.remaining W.contents reads.old reads.new writer.old writer.new) }
    ensures stopped { IsErrOf result ScriptError.Read → HasStopped reads.new }

    // In every case, and so after each error: what was written is a prefix of the text of the first lines.
    ensures part { ReplayedInPart script.course (streams_of R.remaining W.contents reads.old reads.new writer.old writer.new) }
{
    let mut script = script;
    let mut output = Vec::new(alloc);
    let mut buffer = [0; LONGEST_READ];
    'reading: while !reads.is_spent() {
        let count = match reads.read(&mut buffer) {
            Ok(0) => {
                answer_end(&mut script, &mut output, writer, watcher)?;
                return Ok(script.into_world());
            }
            Ok(count) => count,
            Err(_) => return Err(ScriptError::Read),
        };
        output.clear();
        let answered = script.take(&buffer[..count], &mut output, watcher);
        give(answered, &output, writer)?;
    }
    Err(ScriptError::Read)
}

/// Plays a script from an empty book, writes the text of its lines, and returns the world that they lead to: its book, and the outcome of
/// each step. The whole lines of a read are answered before the next read.
pub fn play<R: Read, W: Write>(
    alloc: Global,
    reference: Reference,
    seed: Seed,
    reads: &mut CountedReads<R>,
    writer: &mut W,
) -> Result<World, ScriptError>
    ensures done { IfOk result (λ world. Replayed (beginning reference) world
        (streams_of R.remaining W.contents reads.old reads.new writer.old writer.new)) }

    // A bad line ends the run, and exactly the text of the lines before it is written. It is bad whatever may follow what was read.
    ensures bad_line { (n : ℕ) → IsErrOf result (ScriptError.BadLine n)
        → StopsAtBadLine (beginning reference) n (streams_of R.remaining W.contents reads.old reads.new writer.old writer.new) }

    // If the reader failed or no reads are left, the ended lines are answered, and exactly their text is written.
    ensures answered { IsErrOf result ScriptError.Read
        → ReplayedSoFar (beginning reference) (streams_of R.remaining W.contents reads.old reads.new writer.old writer.new) }
    ensures stopped { IsErrOf result ScriptError.Read → HasStopped reads.new }

    // In every case, and so after each error: what was written is a prefix of the text of the first lines.
    ensures part { ReplayedInPart (beginning reference) (streams_of R.remaining W.contents reads.old reads.new writer.old writer.new) }
{
    let script = Script::new(alloc, reference, seed);
    play_from(alloc, script, reads, writer, &mut Unwatched)
}

/// Plays a script from an empty book, and returns the world that it leads to and the lines that had no effect. Nothing is written.
pub fn play_opening<R: Read>(
    alloc: Global,
    reference: Reference,
    seed: Seed,
    reads: &mut CountedReads<R>,
) -> Result<(World, RefusedLines), ScriptError>
    ensures done { IfOk result (λ r. Played (beginning reference) r.0
        (bytes_left R.remaining reads.old) (bytes_left R.remaining reads.new)) }

    // A line is bad whatever may follow what was read.
    ensures bad_line { (n : ℕ) → IsErrOf result (ScriptError.BadLine n) → (text : List ℕ)
        × HasBadLine (beginning reference) text n (bytes_left R.remaining reads.old) (bytes_left R.remaining reads.new) }
    ensures stopped { IsErrOf result ScriptError.Read → HasStopped reads.new }
{
    let script = Script::new(alloc, reference, seed);
    let mut refused = RefusedLines::new(alloc);
    match play_from(alloc, script, reads, &mut io::sink(), &mut refused) {
        Ok(world) => Ok((world, refused)),
        Err(error) => {
            drop(refused);
            Err(error)
        }
    }
}
