//! A connection that is listened to before there is a session.

ghost use Rattle.std.specs.Prelude.{◌≡◌, ◌<◌, [], length, IfOk};
ghost use Rattle.std.specs.Option.{option_map};
ghost use Rattle.gu_knocks.specs.Listening.{Hears, Listens};

use crate::guard::Guard;
use crate::heard::{Glance, Heard};
use crate::knock::Knock;
use std::alloc::{AllocError, Global};
use std::io;
use std::io::{ErrorKind, Read};

/// A connection that is listened to before there is a session: its stream, and what it has sent.
#[derive(Drop)]
pub struct Listening<T> {
    stream: T,
    knock: Knock,
    /// Whether bytes may have come.
    is_readable: bool,
    /// Whether its peer sends no more: it stays readable until its end is read.
    is_ending: bool,
}

/// What became of a connection after it was listened to once more.
#[derive(Drop)]
pub enum Listened<T> {
    /// Its first message isn't whole yet.
    Waits(Listening<T>),
    /// It is let in. `said` is all that was read, for its session to read.
    LetsIn {
        glance: Glance,
        said: Vec<u8>,
        stream: T,
    },
    /// It is turned away: nothing more is to be read from its stream.
    Refuses {
        glance: Glance,
        stream: T,
    },
    /// Its peer ended before its first message was whole.
    Ends,
    /// Its stream failed.
    Fails,
}

impl<T> Listening<T> {
    /// Creates it for a connection that was accepted.
    pub fn new(alloc: Global, stream: T) -> Self
        ensures said { result.knock ≡ [] }
        ensures stream { result.stream ≡ stream }
    {
        Listening {
            stream,
            knock: Knock::new(alloc),
            is_readable: true,
            is_ending: false,
        }
    }

    /// Notes that bytes may have come, and whether its peer sends no more.
    pub fn note(&mut self, is_ending: bool)
        ensures said { self.new.knock ≡ self.old.knock }
        ensures stream { self.new.stream ≡ self.old.stream }
    {
        self.is_readable = true;
        self.is_ending = self.is_ending || is_ending;
    }

    /// Returns whether a read may bring bytes.
    pub fn is_readable(&self) -> bool {
        self.is_readable
    }

    /// Returns how many bytes it has sent.
    pub fn len(&self) -> usize
        ensures { result ≡ length self.now.knock }
    {
        self.knock.len()
    }
}

/// Returns whether an error of a stream means that it has nothing for now.
fn is_wait(error: &io::Error) -> bool {
    matches!(
        error.kind(),
        ErrorKind::WouldBlock | ErrorKind::TimedOut | ErrorKind::Interrupted
    )
}

impl<T: Read + Drop> Listening<T> {
    /// Listens once: reads as much as the buffer takes, and tests whether the first message is whole with it. If an allocation fails, the
    /// connection is lost.
    pub fn listen(
        mut self,
        alloc: Global,
        guard: Guard<'_>,
        buffer: &mut [u8],
    ) -> Result<Listened<T>, AllocError>
        requires { 0 < length buffer.old }
        ensures { IfOk result (Listens T.remaining (option_map (λ secrets. secrets.now) guard.entry.secrets) guard.entry.firms.now self) }
    {
        let count = match self.stream.read(buffer) {
            Ok(0) => return Ok(Listened::Ends),
            Ok(count) => count,
            Err(error) if is_wait(&error) => {
                self.is_readable = error.kind() == ErrorKind::Interrupted;
                return Ok(Listened::Waits(self));
            }
            Err(_) => return Ok(Listened::Fails),
        };
        let is_readable = count == buffer.len() || self.is_ending;
        self.hear(alloc, guard, &buffer[..count], is_readable)
    }

    /// Takes what was read.
    fn hear(
        self,
        alloc: Global,
        guard: Guard<'_>,
        piece: &[u8],
        is_readable: bool,
    ) -> Result<Listened<T>, AllocError>
        ensures { IfOk result (Hears (option_map (λ secrets. secrets.now) guard.entry.secrets) guard.entry.firms.now self piece.now) }
    {
        let Listening {
            stream,
            knock,
            is_readable: _,
            is_ending,
        } = self;
        match knock.hear(alloc, guard, piece)? {
            Heard::Waits(knock) => Ok(Listened::Waits(Listening {
                stream,
                knock,
                is_readable,
                is_ending,
            })),
            Heard::LetsIn { glance, said } => Ok(Listened::LetsIn {
                glance,
                said,
                stream,
            }),
            Heard::Refuses(glance) => Ok(Listened::Refuses { glance, stream }),
        }
    }
}
