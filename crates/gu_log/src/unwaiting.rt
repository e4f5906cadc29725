//! A writer that doesn't wait, over a descriptor that does.

ghost use Rattle.std.specs.Prelude.{◌≡◌};

use mio::unix::SourceFd;
use mio::{Events, Interest, Poll, Token};
use std::alloc::Global;
use std::io;
use std::io::{ErrorKind, Write};
use std::net::Net;
use std::os::fd::{AsRawFd, RawFd};
use std::time::Duration;

/// How many bytes are written at once at most: a pipe that is writable takes this many.
const LONGEST_WRITE: usize = 4_096;

/// The token of the descriptor, the only one that is watched.
const OUTPUT: Token = Token(0);

/// A watch that reports whether a descriptor is writable.
#[derive(Drop)]
struct Watch {
    poll: Poll,
    events: Events,
}

/// A writer that doesn't wait, over a descriptor that does: a pipe, a socket, a terminal. If a write would wait, it answers
/// `WouldBlock`. A file doesn't wait, and is written at once.
#[derive(Drop)]
pub struct Unwaiting<W> {
    writer: W,
    watch: Option<Watch>,
}

/// Returns a watch on a descriptor, unless it belongs to a file.
fn watch_of<N: Net>(rt: &N, alloc: Global, descriptor: RawFd) -> io::Result<Option<Watch>> {
    let poll = Poll::new(rt)?;
    let registered = poll
        .registry()
        .register(&mut SourceFd(&descriptor), OUTPUT, Interest::WRITABLE);
    match registered {
        Ok(()) => {
            let events = Events::with_capacity(alloc, 1)?;
            Ok(Some(Watch { poll, events }))
        }
        Err(error) if error.kind() == ErrorKind::PermissionDenied => Ok(None),
        Err(error) => Err(error),
    }
}

impl Watch {
    /// Returns whether a write doesn't wait. The system reports only once that a descriptor is writable, so this asks again.
    fn is_ready(&mut self, descriptor: RawFd) -> io::Result<bool> {
        self.poll
            .registry()
            .reregister(&mut SourceFd(&descriptor), OUTPUT, Interest::WRITABLE)?;
        self.poll.poll(&mut self.events, Some(Duration::ZERO))?;
        Ok(!self.events.is_empty())
    }
}

impl<W: AsRawFd> Unwaiting<W> {
    /// Creates one over a writer that keeps this descriptor until it is dropped.
    pub fn new<N: Net>(rt: &N, alloc: Global, writer: W) -> io::Result<Self>
    where
        W: Drop,
    {
        let watch = watch_of(rt, alloc, writer.as_raw_fd())?;
        Ok(Unwaiting { writer, watch })
    }

    /// Returns whether a write doesn't wait.
    fn is_ready(&mut self) -> io::Result<bool>
        ensures { self.new.writer ≡ self.old.writer }
    {
        match &mut self.watch {
            Some(watch) => watch.is_ready(self.writer.as_raw_fd()),
            None => Ok(true),
        }
    }
}

impl<W: Write + AsRawFd> Write for Unwaiting<W> {
    ghost contents = { λ unwaiting. W.contents unwaiting.writer };

    fn write(&mut self, buf: &[u8]) -> io::Result<usize> {
        if !self.is_ready()? {
            return Err(io::Error::from(ErrorKind::WouldBlock));
        }
        let most = buf.len().min(LONGEST_WRITE);
        self.writer.write(&buf[..most])
    }

    fn flush(&mut self) -> io::Result<()> {
        self.writer.flush()
    }
}
