//! The half of a connection that is read, and what is known about it.

ghost use Rattle.std.specs.Prelude.{◌≡◌, Some};
ghost use Rattle.std.specs.Fmt.{option_append};
ghost use Rattle.std.specs.Io.{ReadsAtMost};
ghost use Rattle.std.specs.Io.KnownBytes.{ReadConsumes};
ghost use Rattle.gu_talks.specs.Sources.{left_incoming};

use std::io;
use std::io::{Chain, Cursor, ErrorKind, Read};

/// How often a read or a write that a signal interrupts is repeated.
pub const MOST_INTERRUPTS: u32 = 1_000;

/// How many reads are made in one go of a stream whose bytes are dropped.
const MOST_DRAINS: u32 = 16;

/// The half of a connection that is read. It isn't read while it is known that nothing has come.
pub struct Incoming<T> {
    /// What was read before and is to be read again, and then the stream.
    stream: Chain<Cursor<Vec<u8>>, T>,
    /// How many bytes are to be read again.
    again: usize,
    /// Whether bytes may have come.
    is_readable: bool,
    /// Whether its peer sends no more: it stays readable until its end is read.
    is_ending: bool,
    /// Whether nothing more is read, whatever comes.
    is_stopped: bool,
    /// How many bytes were read.
    bytes: u64,
}

impl<T: Drop> Drop for Incoming<T> {
    fn drop(self) {
        let Incoming {
            stream,
            again: _,
            is_readable: _,
            is_ending: _,
            is_stopped: _,
            bytes: _,
        } = self;
        drop(stream);
    }
}

/// Returns the error of a stream on which nothing has come.
fn nothing() -> io::Error {
    io::Error::from(ErrorKind::WouldBlock)
}

/// Reads from a stream, and repeats a read that a signal interrupts. After many signals the stream counts as having nothing for now.
fn read_past_signals<T: Read>(stream: &mut T, buf: &mut [u8]) -> io::Result<usize>
    ensures bound { ReadsAtMost result buf.new }
    ensures bytes { ReadConsumes (T.remaining stream.old) (T.remaining stream.new) result buf.new }
{
    for _signal in 0..MOST_INTERRUPTS {
        match stream.read(buf) {
            Err(error) if error.kind() == ErrorKind::Interrupted => {}
            read => return read,
        }
    }
    Err(nothing())
}

impl<T: Read> Incoming<T> {
    /// Creates it for a stream. `said` was read from the stream before, and is read again first.
    pub fn new(said: Vec<u8>, stream: T) -> Self
        ensures { left_incoming T.remaining result ≡ option_append (Some said.items) (T.remaining stream) }
    {
        Incoming {
            again: said.len(),
            stream: Cursor::new(said).chain(stream),
            is_readable: true,
            is_ending: false,
            is_stopped: false,
            bytes: 0,
        }
    }
}

impl<T> Incoming<T> {
    /// Notes that bytes may have come, and whether its peer sends no more.
    pub fn note(&mut self, is_ending: bool)
        ensures { self.new.stream ≡ self.old.stream }
    {
        self.is_readable = true;
        self.is_ending = self.is_ending || is_ending;
    }

    /// Notes that nothing more is to be read, whatever comes.
    pub fn stop(&mut self)
        ensures { self.new.stream ≡ self.old.stream }
    {
        self.is_stopped = true;
    }

    /// Notes that it may be read again, since bytes may have come.
    pub fn start(&mut self)
        ensures { self.new.stream ≡ self.old.stream }
    {
        self.is_stopped = false;
        self.is_readable = true;
    }

    /// Returns whether a read may bring bytes.
    pub fn is_readable(&self) -> bool {
        self.is_readable && !self.is_stopped
    }

    /// Returns how many bytes were read.
    pub fn bytes(&self) -> u64 {
        self.bytes
    }

    /// Notes what a read brought. After a short one nothing more has come, unless it was read again or its peer sends no more.
    fn note_read(&mut self, asked: usize, read: &io::Result<usize>)
        ensures { self.new.stream ≡ self.old.stream }
    {
        match read {
            Ok(count) => {
                self.is_readable = self.again > 0 || *count == asked || self.is_ending;
                self.again = self.again.saturating_sub(*count);
                self.bytes = self.bytes.saturating_add(*count as u64);
            }
            Err(_) => self.is_readable = false,
        }
    }
}

impl<T: Read> Incoming<T> {
    /// Reads and drops what comes, a few times at most, and returns whether its peer has ended or failed.
    pub fn drain(&mut self, buffer: &mut [u8]) -> bool {
        for _read in 0..MOST_DRAINS {
            match self.read(buffer) {
                Ok(0) => return true,
                Ok(_) => {}
                Err(error) => return error.kind() != ErrorKind::WouldBlock,
            }
        }
        false
    }
}

impl<T: Read> Read for Incoming<T> {
    ghost remaining = { left_incoming T.remaining };

    fn read(&mut self, buf: &mut [u8]) -> io::Result<usize> {
        if !self.is_readable() {
            return Err(nothing());
        }
        let read = read_past_signals(&mut self.stream, buf);
        self.note_read(buf.len(), &read);
        read
    }
}
