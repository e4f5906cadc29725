//! The engine of one session.

ghost use Rattle.std.specs.Prelude.{◌≡◌, ◌⊎◌, IsErrOf, OnErr, OnOk, true};
ghost use Rattle.gu_streams.specs.Reads.{HasStopped};
ghost use Rattle.gu_streams.specs.Streams.{streams_of};
ghost use Rattle.gu_engine.specs.Exchange.{Exchanged, ExchangedInPart, ExchangedSoFar};

use gu_engine::{Clock, Connection, House, converse};
use gu_streams::{CountedReads, StreamError};
use std::alloc::Global;
use std::io::{Read, Write};

/// The exchange of one session with its house, over a reader and a writer, up to the end of the input or the close of the session.
pub fn fix<R: Read, W: Write, H: House, C: Clock>(
    alloc: Global,
    connection: &mut Connection<H, C>,
    reads: &mut CountedReads<R>,
    writer: &mut W,
) -> Result<(), StreamError>
    ensures exchanged { OnOk result (Exchanged H.rules C.ahead C.has_failed connection.old connection.new
        (streams_of R.remaining W.contents reads.old reads.new writer.old writer.new)) }

    // Where the reader or the clock failed, or no read was left, all that was read before is exchanged, and exactly that was written.
    ensures answered { IsErrOf result StreamError.Read → ExchangedSoFar H.rules C.ahead C.has_failed connection.old connection.new
        (streams_of R.remaining W.contents reads.old reads.new writer.old writer.new) }
    ensures stopped { IsErrOf result StreamError.Read → HasStopped reads.new ⊎ (C.has_failed connection.new.clock ≡ true) }

    // After any error.
    ensures part { OnErr result (ExchangedInPart H.rules C.ahead C.has_failed connection.old
        (streams_of R.remaining W.contents reads.old reads.new writer.old writer.new)) }
{
    converse(alloc, connection, reads, writer)
}
