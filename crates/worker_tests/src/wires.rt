//! Connections over memory: what a firm sends and is sent, and what a poller is to say of it.

ghost use Rattle.std.specs.Io.{ReadsAtMost, WritesAtMost};

use gu_talks::{EndsWriting, Ready};
use std::alloc::{AllocError, Global};
use std::cell::{Cell, RefCell};
use std::io;
use std::io::{ErrorKind, Read, Write};

/// The room of a connection for which none is set.
const AMPLE_ROOM: usize = 1_000_000_000;

/// The firm's end of a connection.
#[derive(Drop)]
struct End {
    /// What the firm has sent.
    sent: Vec<u8>,
    /// How much of it was read.
    read: usize,
    /// Whether it sends no more.
    is_over: bool,
    /// Whether reads and writes fail.
    has_failed: bool,
    /// What the firm was sent.
    taken: Vec<u8>,
    /// How many bytes are taken from the worker still, before it has to wait.
    room: usize,
}

impl End {
    /// Gives some of what the firm has sent.
    fn give(&mut self, buf: &mut [u8]) -> io::Result<usize>
        ensures { ReadsAtMost result buf.new }
    {
        if self.has_failed {
            return Err(io::Error::from(ErrorKind::ConnectionReset));
        }
        let mut rest = self.sent.get(self.read..).unwrap_or(&[]);
        if rest.is_empty() && !self.is_over {
            return Err(io::Error::from(ErrorKind::WouldBlock));
        }
        let count = rest.read(buf)?;
        self.read = self.read.saturating_add(count);
        Ok(count)
    }

    /// Takes as much as there is room for.
    fn take(&mut self, buf: &[u8]) -> io::Result<usize>
        ensures { WritesAtMost result buf.now }
    {
        if self.has_failed {
            return Err(io::Error::from(ErrorKind::ConnectionReset));
        }
        let count = self.room.min(buf.len());
        if count == 0 && !buf.is_empty() {
            return Err(io::Error::from(ErrorKind::WouldBlock));
        }
        self.taken.extend_from_slice(&buf[..count])?;
        self.room -= count;
        Ok(count)
    }
}

/// What the poller hasn't said of a connection yet.
#[derive(Clone, Copy)]
struct News {
    is_readable: bool,
    is_writable: bool,
    is_ending: bool,
}

/// Nothing that it hasn't said.
const NO_NEWS: News = News {
    is_readable: false,
    is_writable: false,
    is_ending: false,
};

/// A connection over memory.
#[derive(Drop)]
pub struct Wire {
    end: RefCell<End>,
    news: Cell<News>,
    /// Its place in its worker, while it is watched.
    place: Cell<Option<usize>>,
    /// Whether the worker has said that it writes no more.
    is_said: Cell<bool>,
    /// How many halves the worker has, or the call for a worker.
    halves: Cell<u32>,
    /// How much of what the firm was sent a test has looked at.
    seen: Cell<usize>,
}

/// Returns the error of a connection that is used while it is used, which doesn't happen.
fn busy() -> io::Error {
    io::Error::from(ErrorKind::Deadlock)
}

impl Wire {
    /// Returns a connection that hasn't come.
    pub fn new(alloc: Global) -> Self {
        let end = End {
            sent: Vec::new(alloc),
            read: 0,
            is_over: false,
            has_failed: false,
            taken: Vec::new(alloc),
            room: AMPLE_ROOM,
        };
        Wire {
            end: RefCell::new(end),
            news: Cell::new(NO_NEWS),
            place: Cell::new(None),
            is_said: Cell::new(false),
            halves: Cell::new(0),
            seen: Cell::new(0),
        }
    }

    /// Makes room for what the firm is sent, so that taking it allocates nothing.
    pub fn reserve(&self, count: usize) -> Result<(), AllocError> {
        if let Ok(mut end) = self.end.try_borrow_mut() {
            end.taken.reserve(count)?;
        }
        Ok(())
    }

    /// Sends bytes from the firm.
    pub fn send(&self, bytes: &[u8]) -> Result<(), AllocError> {
        if let Ok(mut end) = self.end.try_borrow_mut() {
            end.sent.extend_from_slice(bytes)?;
        }
        self.news.set(News {
            is_readable: true,
            ..self.news.get()
        });
        Ok(())
    }

    /// Ends what the firm sends.
    pub fn finish(&self) {
        if let Ok(mut end) = self.end.try_borrow_mut() {
            end.is_over = true;
        }
        self.news.set(News {
            is_readable: true,
            is_ending: true,
            ..self.news.get()
        });
    }

    /// Makes the connection fail.
    pub fn fail(&self) {
        if let Ok(mut end) = self.end.try_borrow_mut() {
            end.has_failed = true;
        }
        self.finish();
    }

    /// Sets how many bytes the firm takes from now on.
    pub fn set_room(&self, room: usize) {
        if let Ok(mut end) = self.end.try_borrow_mut() {
            end.room = room;
        }
        self.news.set(News {
            is_writable: room > 0,
            ..self.news.get()
        });
    }

    /// Returns how many bytes of the firm's weren't read.
    pub fn unread(&self) -> usize {
        match self.end.try_borrow() {
            Ok(end) => end.sent.len().saturating_sub(end.read),
            Err(_) => 0,
        }
    }

    /// Returns how many bytes the firm was sent.
    pub fn taken(&self) -> usize {
        match self.end.try_borrow() {
            Ok(end) => end.taken.len(),
            Err(_) => 0,
        }
    }

    /// Returns what the firm was sent since a test looked last, but at most this many bytes. From now on the test has looked at it.
    pub fn look(&self, alloc: Global, most: usize) -> Result<Vec<u8>, AllocError> {
        let Ok(end) = self.end.try_borrow() else {
            return Err(AllocError);
        };
        let rest = end.taken.get(self.seen.get()..).unwrap_or(&[]);
        let part = rest.get(..most).unwrap_or(rest);
        let found = Vec::from_slice(alloc, part)?;
        self.seen.set(self.seen.get().saturating_add(found.len()));
        Ok(found)
    }

    /// Returns whether the worker, or the way to it, has it.
    pub fn is_open(&self) -> bool {
        self.halves.get() > 0
    }

    /// Returns whether the worker has said that it writes no more.
    pub fn is_said(&self) -> bool {
        self.is_said.get()
    }

    /// Returns its news, if it is watched and there is any.
    pub fn take_ready(&self) -> Option<Ready> {
        let place = self.place.get()?;
        let news = self.news.replace(NO_NEWS);
        let is_new = news.is_readable || news.is_writable || news.is_ending;
        if !is_new {
            return None;
        }
        Some(Ready {
            place,
            is_readable: news.is_readable,
            is_writable: news.is_writable,
            is_ending: news.is_ending,
        })
    }

    /// Counts one more half.
    fn add_half(&self) {
        self.halves.set(self.halves.get().saturating_add(1));
    }

    /// Counts one half less.
    fn drop_half(&self) {
        self.halves.set(self.halves.get().saturating_sub(1));
        if self.halves.get() == 0 {
            self.place.set(None);
        }
    }
}

/// A connection on its way to a worker.
pub struct Line<'a> {
    wire: &'a Wire,
}

impl Drop for Line<'_> {
    fn drop(self) {
        let Line { wire } = self;
        wire.drop_half();
    }
}

impl<'a> Line<'a> {
    /// Returns a connection that was accepted.
    pub fn new(wire: &'a Wire) -> Self {
        wire.add_half();
        Line { wire }
    }

    /// Returns its halves, which are watched under the number of a place.
    pub fn halves(self, place: usize) -> (Hearing<'a>, Saying<'a>) {
        let wire = self.wire;
        wire.add_half();
        wire.add_half();
        drop(self);
        wire.place.set(Some(place));
        (Hearing { wire }, Saying { wire })
    }
}

/// The half that is read.
pub struct Hearing<'a> {
    wire: &'a Wire,
}

impl Drop for Hearing<'_> {
    fn drop(self) {
        let Hearing { wire } = self;
        wire.drop_half();
    }
}

impl Read for Hearing<'_> {
    fn read(&mut self, buf: &mut [u8]) -> io::Result<usize> {
        match self.wire.end.try_borrow_mut() {
            Ok(mut end) => end.give(buf),
            Err(_) => Err(busy()),
        }
    }
}

/// The half that is written to.
pub struct Saying<'a> {
    wire: &'a Wire,
}

impl Drop for Saying<'_> {
    fn drop(self) {
        let Saying { wire } = self;
        wire.drop_half();
    }
}

impl Write for Saying<'_> {
    fn write(&mut self, buf: &[u8]) -> io::Result<usize> {
        match self.wire.end.try_borrow_mut() {
            Ok(mut end) => end.take(buf),
            Err(_) => Err(busy()),
        }
    }

    fn flush(&mut self) -> io::Result<()> {
        Ok(())
    }
}

impl EndsWriting for Saying<'_> {
    fn end_writing(&mut self) {
        self.wire.is_said.set(true);
    }
}
