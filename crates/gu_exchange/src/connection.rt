//! A connection to an endpoint, over which one request is asked after the other.

ghost use Rattle.std.specs.Prelude.{◌≡◌, ◌≤◌, IfOk, length, vec_len};
ghost use Rattle.gu_etcd.specs.declared.answers.TheConstants.{MAX_ANSWER};

use gu_etcd::{MAX_ANSWER, NodeError};
use http1::{BodySize, Client, Event, Header, Limits, WriteError};
use httparse::spans::EMPTY_HEADER_SPAN;
use std::alloc::Global;
use std::io::{ErrorKind, Read, Write};

/// How many bytes are read at a time.
const CHUNK: usize = 16 << 10;

/// How many header fields an answer may have.
const FIELDS: usize = 32;

/// How many pieces an answer may come in: a bound for a peer that sends it byte by byte.
const MAX_PIECES: u32 = 1 << 16;

/// The status of an answer to a request that was carried out.
const OK: u16 = 200;

/// A connection to an endpoint.
#[derive(Drop)]
pub struct Connection<S> {
    endpoint: usize,
    stream: S,
    client: Client,
    /// What was read, and isn't consumed yet.
    unread: Vec<u8>,
}

/// An answer, as far as it has come.
#[derive(Drop)]
struct Answer {
    status: u16,
    body: Vec<u8>,
    is_whole: bool,
    ghost short: { length body.items ≤ MAX_ANSWER },
}

/// Returns why no request goes out.
fn unsent(error: WriteError) -> NodeError {
    match error {
        WriteError::OutOfMemory => NodeError::Memory,
        _ => NodeError::Unanswered,
    }
}

impl Answer {
    /// Adds a piece of the body, if the body doesn't get too long.
    fn add(&mut self, piece: &[u8]) -> Result<(), NodeError> {
        if piece.len() > MAX_ANSWER - self.body.len() {
            return Err(NodeError::Unanswered);
        }
        self.body.extend_from_slice(piece)?;
        Ok(())
    }
}

impl<S: Read + Write + Drop> Connection<S> {
    /// Takes a stream to an endpoint, over which nothing has gone yet.
    pub fn new(alloc: Global, endpoint: usize, stream: S) -> Self
        ensures { result.endpoint ≡ endpoint }
    {
        Connection {
            endpoint,
            stream,
            client: Client::new(Limits::default()),
            unread: Vec::new(alloc),
        }
    }

    /// Returns the endpoint.
    pub fn endpoint(&self) -> usize
        ensures { result ≡ self.now.endpoint }
    {
        self.endpoint
    }

    /// Returns the stream, to look at.
    pub fn stream(&self) -> &S
        ensures { result.now ≡ self.now.stream }
    {
        &self.stream
    }

    /// Returns whether another request may be asked: the last answer is whole, and nothing came that wasn't asked for.
    pub fn is_idle(&self) -> bool {
        self.client.is_idle() && self.unread.is_empty()
    }

    /// Sends a request.
    fn send(&mut self, alloc: Global, path: &str, body: &str) -> Result<(), NodeError> {
        let mut request = Vec::new(alloc);
        let headers = [
            Header {
                name: b"host",
                value: b"localhost",
            },
            Header {
                name: b"content-type",
                value: b"application/json",
            },
        ];
        let size = BodySize::Known(body.len() as u64);
        self.client
            .write_request(&mut request, b"POST", path.as_bytes(), &headers, size)
            .map_err(unsent)?;
        self.client
            .write_data(&mut request, body.as_bytes())
            .map_err(unsent)?;
        self.client.write_end(&mut request, &[]).map_err(unsent)?;
        let is_sent = self.stream.write_all(&request).is_ok() && self.stream.flush().is_ok();
        if is_sent {
            Ok(())
        } else {
            Err(NodeError::Unanswered)
        }
    }

    /// Reads more of an answer.
    fn fill(&mut self) -> Result<(), NodeError> {
        let mut chunk = [0_u8; CHUNK];
        match self.stream.read(&mut chunk) {
            Ok(0) => Err(NodeError::Unanswered),
            Ok(count) => {
                self.unread.extend_from_slice(&chunk[..count])?;
                Ok(())
            }
            Err(error) if error.kind() == ErrorKind::Interrupted => Ok(()),
            Err(_) => Err(NodeError::Unanswered),
        }
    }

    /// Takes the next event of an answer.
    fn step(&mut self, answer: &mut Answer) -> Result<(), NodeError> {
        let mut fields = [EMPTY_HEADER_SPAN; FIELDS];
        let Ok(read) = self.client.read(&self.unread, &mut fields) else {
            return Err(NodeError::Unanswered);
        };
        match read.event {
            Event::Head(head) => answer.status = head.code,
            Event::Data(span) => answer.add(span.of(&self.unread))?,
            Event::End(_) => answer.is_whole = true,
            Event::NeedMore | Event::Informational(_) => {}
            Event::Paused | Event::Upgraded | Event::Closed => return Err(NodeError::Unanswered),
        }
        self.unread.drain(..read.consumed);
        if matches!(read.event, Event::NeedMore) {
            self.fill()?;
        }
        Ok(())
    }

    /// Receives the answer to the request that was sent.
    fn receive(&mut self, alloc: Global) -> Result<Answer, NodeError> {
        let mut answer = Answer {
            status: 0,
            body: Vec::new(alloc),
            is_whole: false,
        };
        for _ in 0..MAX_PIECES {
            self.step(&mut answer)?;
            if answer.is_whole {
                return Ok(answer);
            }
        }
        Err(NodeError::Unanswered)
    }

    /// Asks a request, and returns the body of the answer, if one comes with status 200. After an error the connection can't be used:
    /// an answer to this request may still come over it.
    pub fn ask(&mut self, alloc: Global, path: &str, body: &str) -> Result<Vec<u8>, NodeError>
        ensures { IfOk result (λ answer. vec_len answer ≤ MAX_ANSWER) }
    {
        self.send(alloc, path, body)?;
        let answer = self.receive(alloc)?;
        if answer.status == OK {
            Ok(answer.body)
        } else {
            Err(NodeError::Unanswered)
        }
    }
}
