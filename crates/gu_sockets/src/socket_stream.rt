//! A connection of a firm, by whichever way it came in.

ghost use Rattle.std.specs.Io.{ReadsAtMost, WritesAtMost};

use mio::net::{TcpStream, UnixStream};
use mio::{Interest, Registry, Token};
use std::io;
use std::io::{Read, Write};
use std::net::Shutdown;

/// A connection of a firm. Its reads and writes don't wait.
#[derive(Debug, Drop)]
pub enum SocketStream {
    /// One that came in by the port.
    Tcp(TcpStream),
    /// One that came in by a firm's door.
    Unix(UnixStream),
}

impl SocketStream {
    /// Makes the system send each write at once, which it always does at a door.
    pub(crate) fn set_nodelay(&self) -> io::Result<()> {
        match self {
            SocketStream::Tcp(stream) => stream.set_nodelay(true),
            SocketStream::Unix(_) => Ok(()),
        }
    }

    /// Registers it with a poll, which then reports under a token when it is ready for one of these.
    pub(crate) fn register(
        &mut self,
        registry: &Registry,
        token: Token,
        interests: Interest,
    ) -> io::Result<()> {
        match self {
            SocketStream::Tcp(stream) => registry.register(stream, token, interests),
            SocketStream::Unix(stream) => registry.register(stream, token, interests),
        }
    }

    /// Reads what has come, and returns how many bytes that is.
    pub(crate) fn receive(&self, buf: &mut [u8]) -> io::Result<usize>
        ensures { ReadsAtMost result buf.new }
    {
        match self {
            SocketStream::Tcp(stream) => {
                let mut stream: &TcpStream = stream;
                stream.read(buf)
            }
            SocketStream::Unix(stream) => {
                let mut stream: &UnixStream = stream;
                stream.read(buf)
            }
        }
    }

    /// Writes what the system takes, and returns how many bytes that is.
    pub(crate) fn send(&self, buf: &[u8]) -> io::Result<usize>
        ensures { WritesAtMost result buf.now }
    {
        match self {
            SocketStream::Tcp(stream) => {
                let mut stream: &TcpStream = stream;
                stream.write(buf)
            }
            SocketStream::Unix(stream) => {
                let mut stream: &UnixStream = stream;
                stream.write(buf)
            }
        }
    }

    /// Shows the peer that nothing more is written.
    pub(crate) fn end_writing(&self) {
        let _ = match self {
            SocketStream::Tcp(stream) => stream.shutdown(Shutdown::Write),
            SocketStream::Unix(stream) => stream.shutdown(Shutdown::Write),
        };
    }
}
