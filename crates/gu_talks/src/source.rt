//! What a connection's turns read: its stream, and what was read ahead of it.

ghost use Rattle.std.specs.Prelude.{◌≡◌, [], IfOk, Some, false};
ghost use Rattle.std.specs.Fmt.{option_append};
ghost use Rattle.std.specs.Io.Buffered.{reader_buffer};
ghost use Rattle.std.specs.Io.{ReadsAtMost};
ghost use Rattle.std.specs.Io.KnownBytes.{Keeps, ReadConsumes};
ghost use Rattle.gu_talks.specs.Sources.{left_ahead, left_of};

use crate::incoming::Incoming;
use std::alloc::{AllocError, Global};
use std::io;
use std::io::{BufReader, ErrorKind, Read};

/// How many bytes are read at once at most.
const MOST_AHEAD: usize = 16_384;

/// A stream that is read up to 16,384 bytes at once, and how many more reads its turns may make.
#[derive(Drop)]
pub struct Ahead<T> {
    pub(crate) reader: BufReader<Incoming<T>>,
    pub(crate) left: u64,
}

/// What a connection reads, as it is kept between visits: a stream with no byte read ahead keeps no buffer.
#[derive(Drop)]
pub enum Source<T> {
    /// No byte is ahead.
    Bare(Incoming<T>, u64),
    /// Some bytes may be ahead.
    Ahead(Ahead<T>),
}

/// Returns whether an error of a reader means that it has nothing for now.
fn is_wait(error: &io::Error) -> bool {
    matches!(error.kind(), ErrorKind::WouldBlock | ErrorKind::TimedOut)
}

impl<T: Read> Ahead<T> {
    /// Returns whether the next turn brings bytes that were read before.
    pub fn has_bytes(&self) -> bool
        ensures { result ≡ false → reader_buffer self.now.reader ≡ [] }
    {
        !self.reader.buffer().is_empty()
    }

    /// Returns it as it is kept between two visits.
    pub fn into_source(self) -> Source<T>
        ensures { Keeps (left_ahead T.remaining self) (left_of T.remaining result) }
    {
        if self.has_bytes() {
            return Source::Ahead(self);
        }
        let Ahead { reader, left } = self;
        Source::Bare(reader.into_inner(), left)
    }
}

impl<T: Read> Read for Ahead<T> {
    ghost remaining = { left_ahead T.remaining };

    fn read(&mut self, buf: &mut [u8]) -> io::Result<usize> {
        let Some(left) = self.left.checked_sub(1) else {
            return Err(io::Error::from(ErrorKind::QuotaExceeded));
        };
        let read = self.reader.read(buf);
        let waits = matches!(&read, Err(error) if is_wait(error));
        if !waits {
            self.left = left;
        }
        read
    }
}

impl<T: Read + Drop> Source<T> {
    /// Creates it for a stream. `said` was read from the stream before, and is read again first. Turns may make this many reads.
    pub fn new(said: Vec<u8>, stream: T, reads: u64) -> Self
        ensures { left_of T.remaining result ≡ option_append (Some said.items) (T.remaining stream) }
    {
        Source::Bare(Incoming::new(said, stream), reads)
    }

    /// Returns it as a reader.
    pub fn into_ahead(self, alloc: Global) -> Result<Ahead<T>, AllocError>
        ensures { IfOk result (λ ahead. left_ahead T.remaining ahead ≡ left_of T.remaining self) }
    {
        match self {
            Source::Ahead(ahead) => Ok(ahead),
            Source::Bare(stream, left) => {
                match BufReader::with_capacity(alloc, MOST_AHEAD, stream) {
                    Ok(reader) => Ok(Ahead { reader, left }),
                    Err(_) => Err(AllocError),
                }
            }
        }
    }

    /// Returns it with no byte read ahead; what was read ahead is lost.
    pub fn into_bare(self) -> Self {
        let (mut stream, left) = match self {
            Source::Ahead(ahead) => {
                let Ahead { reader, left } = ahead;
                (reader.into_inner(), left)
            }
            Source::Bare(stream, left) => (stream, left),
        };
        stream.start();
        Source::Bare(stream, left)
    }

    /// Returns whether some bytes are ahead.
    pub fn has_bytes(&self) -> bool {
        match self {
            Source::Ahead(ahead) => ahead.has_bytes(),
            Source::Bare(..) => false,
        }
    }

    /// Returns its stream.
    pub fn stream(&self) -> &Incoming<T> {
        match self {
            Source::Ahead(ahead) => ahead.reader.get_ref(),
            Source::Bare(stream, _) => stream,
        }
    }

    /// Notes that bytes may have come, and whether its peer sends no more.
    pub fn note(&mut self, is_ending: bool)
        ensures { left_of T.remaining self.new ≡ left_of T.remaining self.old }
    {
        match self {
            Source::Ahead(ahead) => ahead.reader.get_mut().note(is_ending),
            Source::Bare(stream, _) => stream.note(is_ending),
        }
    }

    /// Notes that nothing more is to be read of its stream, whatever comes.
    pub fn stop(&mut self)
        ensures { left_of T.remaining self.new ≡ left_of T.remaining self.old }
    {
        match self {
            Source::Ahead(ahead) => ahead.reader.get_mut().stop(),
            Source::Bare(stream, _) => stream.stop(),
        }
    }

    /// Reads and drops what comes, a few times at most, and returns whether its peer has ended or failed.
    pub fn drain(&mut self, buffer: &mut [u8]) -> bool {
        match self {
            Source::Ahead(ahead) => ahead.reader.get_mut().drain(buffer),
            Source::Bare(stream, _) => stream.drain(buffer),
        }
    }
}
