//! A connection of an operator to a desk that follows.

use crate::lead_answer::append_lead_answer;
use crate::onlooker::Onlooker;
use crate::played::Played;
use gu_console::LineBuffer;
use gu_standby::{LeadAnswer, Wish};
use gu_text::split_at_line_feed;
use std::alloc::{AllocError, Global};
use std::io;
use std::io::{ErrorKind, Read, Write};
use std::os::unix::net::UnixStream;
use std::rt::Clock;
use std::time::{Duration, Instant};

/// How many seconds a connection may be silent.
const MOST_SILENT_S: u64 = 60;

/// How many bytes of answers are held before no more lines are answered.
const MOST_HELD: usize = 65_536;

/// How many bytes a read may bring.
const LONGEST_READ: usize = 4_096;

/// How a connection goes on.
#[derive(Clone, Copy, Debug, PartialEq, Eq)]
enum State {
    /// Its lines are answered.
    Open,
    /// It waits for the answer to LEAD.
    Waits,
    /// Nothing more comes, and it is closed once its answers have gone out.
    Ends,
    /// It is to be closed.
    Over,
}

/// A connection of an operator to a desk that follows. Its reads and writes don't wait.
#[derive(Drop)]
pub(crate) struct Connection {
    stream: UnixStream,
    onlooker: Onlooker,
    lines: LineBuffer,
    /// What has come and isn't answered yet.
    input: Vec<u8>,
    /// What hasn't gone out yet.
    output: Vec<u8>,
    state: State,
    /// When it last took or gave something.
    heard: Instant,
}

impl Connection {
    /// Creates a connection at which nothing has come yet.
    pub(crate) fn new<R: Clock>(
        rt: &R,
        alloc: Global,
        stream: UnixStream,
        is_watch: bool,
    ) -> io::Result<Self> {
        stream.set_nonblocking(true)?;
        Ok(Connection {
            stream,
            onlooker: Onlooker::new(is_watch),
            lines: LineBuffer::new(),
            input: Vec::new(alloc),
            output: Vec::new(alloc),
            state: State::Open,
            heard: Instant::now(rt)?,
        })
    }

    /// Returns whether it is to be closed.
    pub(crate) fn is_over(&self) -> bool {
        self.state == State::Over
    }

    /// Writes what the stream takes now of the answers, and returns whether it took any.
    fn send(&mut self) -> io::Result<bool> {
        let held = self.output.len();
        let mut to = &self.stream;
        for _write in 0..held {
            let left = self.output.len();
            if left == 0 {
                break;
            }
            match to.write(&self.output) {
                Ok(0) => return Err(io::Error::from(ErrorKind::WriteZero)),
                Ok(count) => {
                    self.output.drain(..count.min(left));
                }
                Err(error) if error.kind() == ErrorKind::WouldBlock => break,
                Err(error) if error.kind() == ErrorKind::Interrupted => {}
                Err(error) => return Err(error),
            }
        }
        Ok(self.output.len() < held)
    }

    /// Reads what has come, if all before it is answered, and returns whether anything had.
    fn receive(&mut self) -> io::Result<bool> {
        if self.state != State::Open || !self.input.is_empty() {
            return Ok(false);
        }
        let mut buffer = [0; LONGEST_READ];
        let mut from = &self.stream;
        match from.read(&mut buffer) {
            Ok(0) => {
                self.state = State::Ends;
                Ok(false)
            }
            Ok(count) => {
                self.input
                    .extend_from_slice(buffer.get(..count).unwrap_or(&[]))?;
                Ok(true)
            }
            Err(error) if matches!(error.kind(), ErrorKind::WouldBlock | ErrorKind::Interrupted) =>
                { Ok(false) }
            Err(error) => Err(error),
        }
    }

    /// Answers the next line, if all of it has come, and returns what it wishes of the desk. What has come of a line that isn't ended is kept.
    fn answer_line(
        &mut self,
        alloc: Global,
        played: Played<'_>,
    ) -> Result<Option<Wish>, AllocError> {
        let (rest, wish) = match split_at_line_feed(&self.input) {
            None => {
                self.lines.keep(&self.input);
                (0, None)
            }
            Some((part, after)) => {
                self.lines.keep(part);
                let line = self.lines.line();
                let wish = self.onlooker.answer(alloc, played, line, &mut self.output)?;
                self.lines.begin();
                (after.len(), wish)
            }
        };
        let done = self.input.len().saturating_sub(rest);
        self.input.drain(..done);
        if wish == Some(Wish::Lead) {
            self.state = State::Waits;
        }
        Ok(wish)
    }

    /// Answers the lines that have come, until one wishes something of the desk or enough answers are held.
    fn answer_lines(
        &mut self,
        alloc: Global,
        played: Played<'_>,
    ) -> Result<Option<Wish>, AllocError> {
        for _line in 0..LONGEST_READ {
            let is_held = self.state == State::Waits || self.output.len() > MOST_HELD;
            if is_held || self.input.is_empty() {
                break;
            }
            let wish = self.answer_line(alloc, played)?;
            if wish.is_some() {
                return Ok(wish);
            }
        }
        Ok(None)
    }

    /// Returns whether it has been silent for too long. If the clock fails, it has.
    fn is_silent<R: Clock>(&self, rt: &R) -> bool {
        match self.heard.elapsed(rt) {
            Ok(elapsed) => elapsed >= Duration::from_secs(MOST_SILENT_S),
            Err(_) => true,
        }
    }

    /// Sends, receives and answers what goes now, and returns what a line wishes of the desk.
    fn go_on<R: Clock>(
        &mut self,
        rt: &R,
        alloc: Global,
        played: Played<'_>,
    ) -> io::Result<Option<Wish>> {
        let mut is_heard = self.send()?;
        let mut wish = None;
        if self.output.is_empty() {
            is_heard = self.receive()? || is_heard;
            wish = self.answer_lines(alloc, played)?;
            is_heard = self.send()? || is_heard;
        }
        if is_heard {
            self.heard = Instant::now(rt)?;
        }
        let is_done = self.state == State::Ends && self.output.is_empty();
        if is_done || self.is_silent(rt) {
            self.state = State::Over;
        }
        Ok(wish)
    }

    /// Does what goes now without waiting, and returns what a line wishes of the desk. A connection that fails is to be closed.
    pub(crate) fn turn<R: Clock>(
        &mut self,
        rt: &R,
        alloc: Global,
        played: Played<'_>,
    ) -> Option<Wish> {
        match self.go_on(rt, alloc, played) {
            Ok(wish) => wish,
            Err(_) => {
                self.state = State::Over;
                None
            }
        }
    }

    /// Sends the answer to LEAD, if it waits for it.
    pub(crate) fn answer_lead(&mut self, answer: LeadAnswer) {
        if self.state != State::Waits {
            return;
        }
        self.state = match append_lead_answer(answer, &mut self.output) {
            Ok(()) => State::Open,
            Err(AllocError) => State::Over,
        };
    }

    /// Writes what the stream takes at once of the last answers, and closes it. What it doesn't take is lost.
    pub(crate) fn finish(mut self) {
        let _ = self.send();
    }
}
