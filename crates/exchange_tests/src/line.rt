//! A connection whose peer has a script.
use std::io;
use std::io::{ErrorKind, Read, Write};

/// What the next read of a connection gives.
#[derive(Clone, Copy)]
pub enum Piece {
    /// These bytes.
    Text(&'static str),
    /// These bytes, one at a time.
    Bytes(&'static str),
    /// A signal comes.
    Signal,
    /// The read fails.
    Fault,
    /// As many bytes as there is room for, this many times.
    Endless(u32),
}

/// A connection whose peer says its pieces, and then closes it.
#[derive(Drop)]
pub struct Line {
    pub pieces: &'static [Piece],
    /// How much of the first piece was read.
    pub read: usize,
    /// How many bytes were written.
    pub sent: Vec<u8>,
    /// After how many bytes a write fails.
    pub room: usize,
}

impl Line {
    /// Reads from a text, a number of bytes at most.
    fn read_text(&mut self, text: &'static str, most: usize, buf: &mut [u8]) -> usize {
        let bytes = text.as_bytes();
        let mut count = 0;
        for byte in buf.iter_mut() {
            if count >= most {
                break;
            }
            let Some(next) = bytes.get(self.read) else {
                break;
            };
            *byte = *next;
            count = count.saturating_add(1);
            self.read = self.read.saturating_add(1);
        }
        if self.read >= bytes.len() {
            self.go_on();
        }
        count
    }

    /// Goes on to the next piece.
    fn go_on(&mut self) {
        self.read = 0;
        self.pieces = match self.pieces {
            [_, rest @ ..] => rest,
            [] => &[],
        };
    }
}

impl Read for Line {
    fn read(&mut self, buf: &mut [u8]) -> io::Result<usize> {
        let room = buf.len();
        let Some(piece) = self.pieces.first().copied() else {
            return Ok(0);
        };
        let count = match piece {
            Piece::Text(text) => self.read_text(text, room, buf),
            Piece::Bytes(text) => self.read_text(text, 1, buf),
            Piece::Signal => {
                self.go_on();
                return Err(io::Error::from(ErrorKind::Interrupted));
            }
            Piece::Fault => {
                self.go_on();
                return Err(io::Error::from(ErrorKind::TimedOut));
            }
            Piece::Endless(times) => {
                self.read = self.read.saturating_add(1);
                if self.read >= times as usize {
                    self.go_on();
                }
                room
            }
        };
        Ok(count.min(room))
    }
}

impl Write for Line {
    fn write(&mut self, buf: &[u8]) -> io::Result<usize> {
        if self.sent.len() >= self.room {
            return Err(io::Error::from(ErrorKind::BrokenPipe));
        }
        let Some((first, _)) = buf.split_first() else {
            return Ok(0);
        };
        self.sent.push(*first)?;
        Ok(1)
    }

    fn flush(&mut self) -> io::Result<()> {
        Ok(())
    }
}
