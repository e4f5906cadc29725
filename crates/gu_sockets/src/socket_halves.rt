//! The two halves of a connection, which share its socket.

use crate::socket_stream::SocketStream;
use gu_talks::EndsWriting;
use std::alloc::{AllocError, Global};
use std::io;
use std::io::{Read, Write};
use std::sync::Arc;

/// The half of a connection that is read.
#[derive(Drop)]
pub struct SocketReader {
    stream: Arc<SocketStream>,
}

/// The half of a connection that is written to.
#[derive(Drop)]
pub struct SocketWriter {
    stream: Arc<SocketStream>,
}

/// Returns the halves of a connection. Its socket is closed once both are dropped.
pub fn halves(
    alloc: Global,
    stream: SocketStream,
) -> Result<(SocketReader, SocketWriter), AllocError> {
    let stream = Arc::new(alloc, stream)?;
    let reader = SocketReader {
        stream: stream.clone()?,
    };
    Ok((reader, SocketWriter { stream }))
}

impl Read for SocketReader {
    fn read(&mut self, buf: &mut [u8]) -> io::Result<usize> {
        self.stream.receive(buf)
    }
}

impl Write for SocketWriter {
    fn write(&mut self, buf: &[u8]) -> io::Result<usize> {
        self.stream.send(buf)
    }

    fn flush(&mut self) -> io::Result<()> {
        Ok(())
    }
}

impl EndsWriting for SocketWriter {
    fn end_writing(&mut self) {
        self.stream.end_writing();
    }
}
