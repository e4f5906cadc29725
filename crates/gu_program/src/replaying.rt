//! The engine of scripts.

ghost use Rattle.std.specs.Prelude.{ℕ, OnOk, IsErrOf};
ghost use Rattle.gu_streams.specs.Reads.{HasStopped};
ghost use Rattle.gu_world.specs.Runs.{Course, beginning};
ghost use Rattle.gu_script.specs.ScriptRuns.{Replayed, ReplayedInPart, ReplayedSoFar, StopsAtBadLine};
ghost use Rattle.gu_streams.specs.Streams.{streams_of};

use gu_ref::Reference;
use gu_script::{ScriptError, play};
use gu_streams::CountedReads;
use gu_terms::Seed;
use std::alloc::Global;
use std::io::{Read, Write};

/// Plays a script from a book without entries, whose tables of ids have this seed, and writes the text of its lines. The whole lines of
/// a read are answered before the next read.
pub fn replay<R: Read, W: Write>(
    alloc: Global,
    reference: Reference,
    seed: Seed,
    reads: &mut CountedReads<R>,
    writer: &mut W,
) -> Result<(), ScriptError>
    ensures done { OnOk result ((course : Course) × Replayed (beginning reference) course
        (streams_of R.remaining W.contents reads.old reads.new writer.old writer.new)) }

    // A bad line ends the run, and exactly the text of the lines before it is written. It is bad whatever may follow what was read.
    ensures bad_line { (n : ℕ) → IsErrOf result (ScriptError.BadLine n)
        → StopsAtBadLine (beginning reference) n (streams_of R.remaining W.contents reads.old reads.new writer.old writer.new) }

    // Where the reader failed, or no read was left, the lines that were ended are answered, and exactly that was written.
    ensures answered { IsErrOf result ScriptError.Read
        → ReplayedSoFar (beginning reference) (streams_of R.remaining W.contents reads.old reads.new writer.old writer.new) }
    ensures stopped { IsErrOf result ScriptError.Read → HasStopped reads.new }

    // In any case, and so after each error: what was written is a prefix of the text of the first lines.
    ensures part { ReplayedInPart (beginning reference) (streams_of R.remaining W.contents reads.old reads.new writer.old writer.new) }
{
    match play(alloc, reference, seed, reads, writer) {
        Ok(world) => {
            drop(world);
            Ok(())
        }
        Err(error) => Err(error),
    }
}
