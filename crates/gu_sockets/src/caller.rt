//! A firm that has come in.

ghost use Rattle.std.specs.Prelude.{◌≡◌};
ghost use Rattle.gu_sockets.specs.Callers.{caller_of};

use crate::firm_ways::Arrival;
use crate::socket_stream::SocketStream;
use mio::net::{TcpStream, UnixStream};

/// A firm that has come in.
#[derive(Debug, Drop)]
pub struct Caller {
    /// Its connection.
    pub stream: SocketStream,
    /// The port of its peer, or 0 if it came in by a door.
    pub port: u16,
    /// The number of the door by which it came in, from 0 on, if it came in by one.
    pub door: Option<usize>,
}

impl Caller {
    /// Returns who has come in so.
    pub(crate) fn of(arrival: Arrival<(TcpStream, u16), UnixStream>) -> Self
        ensures { result ≡ caller_of arrival }
    {
        match arrival {
            Arrival::ByPort((stream, port)) => Caller {
                stream: SocketStream::Tcp(stream),
                port,
                door: None,
            },
            Arrival::ByDoor(number, stream) => Caller {
                stream: SocketStream::Unix(stream),
                port: 0,
                door: Some(number),
            },
        }
    }
}
