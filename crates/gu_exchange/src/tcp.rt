//! TCP connections to the nodes of an etcd.

use crate::{Address, Connector};
use std::alloc::Global;
use std::io;
use std::io::{ErrorKind, Read, Write};
use std::net::{Net, OpenStream, SocketAddr, ToSocketAddrs};
use std::rt::Clock;
use std::time::{Duration, Instant};

/// How long a connection is waited for, and an answer after the last byte of a request, in milliseconds.
const PATIENCE_MS: u64 = 2_000;

/// A stream whose answers come in time: no read begins later than that after the last write.
#[derive(Drop)]
pub struct TimedStream<'a, R: Net + Clock> {
    rt: &'a R,
    stream: R::Stream,
    written: Instant,
}

impl<R: Net + Clock> Read for TimedStream<'_, R> {
    fn read(&mut self, buf: &mut [u8]) -> io::Result<usize> {
        if self.written.elapsed(self.rt)? >= Duration::from_millis(PATIENCE_MS) {
            return Err(io::Error::from(ErrorKind::TimedOut));
        }
        self.stream.read(buf)
    }
}

impl<R: Net + Clock> Write for TimedStream<'_, R> {
    fn write(&mut self, buf: &[u8]) -> io::Result<usize> {
        self.written = Instant::now(self.rt)?;
        self.stream.write(buf)
    }

    fn flush(&mut self) -> io::Result<()> {
        self.stream.flush()
    }
}

/// Opens TCP connections to the endpoints of an address.
#[derive(Drop)]
pub struct TcpConnector<'a, R: Net + Clock> {
    rt: &'a R,
    address: &'a Address,
}

impl<'a, R: Net + Clock> TcpConnector<'a, R> {
    /// Creates a connector to the endpoints of an address.
    pub fn new(rt: &'a R, address: &'a Address) -> Self {
        TcpConnector { rt, address }
    }

    /// Opens a connection to an address of this machine.
    fn open(&self, address: SocketAddr) -> io::Result<TimedStream<'a, R>> {
        if !address.ip().is_loopback() {
            return Err(io::Error::from(ErrorKind::AddrNotAvailable));
        }
        let patience = Duration::from_millis(PATIENCE_MS);
        let stream = self.rt.connect_timeout(address, patience)?;
        stream.set_nodelay(true)?;
        stream.set_read_timeout(Some(patience))?;
        stream.set_write_timeout(Some(patience))?;
        Ok(TimedStream {
            rt: self.rt,
            stream,
            written: Instant::now(self.rt)?,
        })
    }
}

impl<'a, R: Net + Clock> Connector for TcpConnector<'a, R> {
    type Stream = TimedStream<'a, R>;

    fn connect(&mut self, _alloc: Global, endpoint: usize) -> io::Result<TimedStream<'a, R>> {
        let Some(text) = self.address.endpoints.get(endpoint) else {
            return Err(io::Error::from(ErrorKind::NotFound));
        };
        let Ok(text) = std::str::from_utf8(text) else {
            return Err(io::Error::from(ErrorKind::InvalidInput));
        };
        for address in text.to_socket_addrs(self.rt)? {
            if let Ok(stream) = self.open(address) {
                return Ok(stream);
            }
        }
        Err(io::Error::from(ErrorKind::ConnectionRefused))
    }
}
