//! What says which connections are ready.

use std::io;
use std::io::{Read, Write};
use std::time::Duration;

/// What a connection is ready for.
#[derive(Clone, Copy, Debug, PartialEq, Eq)]
pub struct Ready {
    /// The place of the connection in its worker.
    pub place: usize,
    /// Bytes have come.
    pub is_readable: bool,
    /// It takes bytes again.
    pub is_writable: bool,
    /// Its peer sends no more, or it failed: it is to be read until that shows.
    pub is_ending: bool,
}

/// The half of a connection that is written to, which can be ended.
pub trait EndsWriting {
    /// Ends this half of the stream: the peer sees that nothing more comes.
    fn end_writing(&mut self);
}

/// Watches connections, and reports which are ready. It reports each readiness once, so the worker remembers it.
pub trait Poller {
    /// A connection that was accepted.
    type Call: Drop;
    /// The half of it that is read. It never waits: if nothing has come, its error is of the kind `WouldBlock`.
    type Incoming: Read + Drop;
    /// The half of it that is written to. It never waits either.
    type Outgoing: Write + EndsWriting + Drop;

    /// Watches a connection from now on, under the number of its place, and returns its two halves.
    fn watch(
        &mut self,
        call: Self::Call,
        place: usize,
    ) -> io::Result<(Self::Incoming, Self::Outgoing)>;

    /// Waits until a connection is ready, the worker's bell is rung or this time has passed, and appends what is ready. Without a time it
    /// waits as long as it takes.
    fn wait(&mut self, most: Option<Duration>, ready: &mut Vec<Ready>) -> io::Result<()>;
}
