//! The exchange of one session with its house.

ghost use Rattle.std.specs.Prelude.{◌≡◌, ◌⊎◌, IsErrOf, OnErr, OnOk, true};
ghost use Rattle.gu_streams.specs.Reads.{HasStopped};
ghost use Rattle.gu_streams.specs.Streams.{streams_of};
ghost use Rattle.gu_engine.specs.Exchange.{Exchanged, ExchangedInPart, ExchangedSoFar};

use crate::clock::Clock;
use crate::connection::Connection;
use crate::house::House;
use crate::running::run;
use gu_streams::{CountedReads, StreamError};
use std::alloc::Global;
use std::io::{Read, Write};

/// Runs the exchange of one session with its house, up to the end of the input or of the session, and returns the connection.
pub fn converse<R: Read, W: Write, H: House, C: Clock>(
    alloc: Global,
    connection: &mut Connection<H, C>,
    reads: &mut CountedReads<R>,
    writer: &mut W,
) -> Result<(), StreamError>
    ensures exchanged { OnOk result (Exchanged H.rules C.ahead C.has_failed connection.old connection.new
        (streams_of R.remaining W.contents reads.old reads.new writer.old writer.new)) }

    // If the reader or the clock failed, or no reads are left, everything read before is answered, and exactly that was written.
    ensures answered { IsErrOf result StreamError.Read → ExchangedSoFar H.rules C.ahead C.has_failed connection.old connection.new
        (streams_of R.remaining W.contents reads.old reads.new writer.old writer.new) }
    ensures stopped { IsErrOf result StreamError.Read → HasStopped reads.new ⊎ (C.has_failed connection.new.clock ≡ true) }

    // After any error, a prefix of the exchange was written.
    ensures part { OnErr result (ExchangedInPart H.rules C.ahead C.has_failed connection.old
        (streams_of R.remaining W.contents reads.old reads.new writer.old writer.new)) }
{
    run(alloc, reads, writer, connection)?;
    connection.end();
    Ok(())
}
