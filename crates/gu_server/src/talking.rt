//! The exchange of an operator over a socket.

use crate::floor::Floor;
use gu_console::{LineBuffer, Office, Operator, Said, serve_lines};
use gu_desk::{EntryLedger, LotLedger};
use gu_houses::Informs;
use gu_lease::Permit;
use gu_text::split_at_line_feed;
use std::io;
use std::io::{ErrorKind, Read, Write};
use std::os::unix::net::UnixStream;
use std::rt::Clock;
use std::sync::Wait;
use std::time::{Duration, Instant};

/// How many milliseconds a read or a write may wait.
const WAIT_MS: u64 = 200;

/// How many seconds an operator may be silent.
const MOST_SILENT_S: u64 = 60;

/// How many seconds an answer may take to go out.
const MOST_SENDING_S: u64 = 10;

/// How many bytes of answers are held before they go out.
const MOST_HELD: usize = 65_536;

/// How many bytes a read may bring.
const LONGEST_READ: usize = 4_096;

/// Returns whether an error means that the stream has nothing, or takes nothing, for now.
fn is_pause(error: &io::Error) -> bool {
    matches!(
        error.kind(),
        ErrorKind::WouldBlock | ErrorKind::TimedOut | ErrorKind::Interrupted
    )
}

/// Returns whether this many seconds have passed since a moment. If the clock fails, they have.
fn have_passed<R: Clock>(rt: &R, since: Instant, seconds: u64) -> bool {
    match since.elapsed(rt) {
        Ok(elapsed) => elapsed >= Duration::from_secs(seconds),
        Err(_) => true,
    }
}

/// Writes as much of a text as a stream takes, once, by a permit of the desk's gate.
fn write(mut stream: &UnixStream, text: &[u8], _permit: Permit) -> io::Result<usize> {
    stream.write(text)
}

/// Writes a text that shows this many entries at most, within ten seconds, before the day is over and while the desk leads. Returns whether
/// all of it went out.
fn send<E: EntryLedger, S: LotLedger, R: Wait + Clock>(
    floor: &Floor<'_, E, S, R>,
    stream: &UnixStream,
    text: &[u8],
    seen: u64,
) -> bool {
    let Ok(since) = Instant::now(floor.rt) else {
        return false;
    };
    let mut rest = text;
    for _write in floor.rt.forever() {
        if rest.is_empty() {
            return true;
        }
        let Some(permit) = floor.gate.ask(floor.rt, seen) else {
            return false;
        };
        match write(stream, rest, permit) {
            Ok(0) => return false,
            Ok(count) => rest = rest.get(count..).unwrap_or(&[]),
            Err(error) if !is_pause(&error) => return false,
            Err(_) => {}
        }
        if floor.is_over() || have_passed(floor.rt, since, MOST_SENDING_S) {
            return rest.is_empty();
        }
    }
    false
}

/// Returns the first line of some bytes, with its LF, and what follows it; if no line ends, all of them.
fn first_line(bytes: &[u8]) -> (&[u8], &[u8]) {
    match split_at_line_feed(bytes) {
        Some((_, after)) => bytes.split_at(bytes.len().saturating_sub(after.len())),
        None => (bytes, &[]),
    }
}

/// What an operator has sent of its next line, and the answers that haven't gone out yet.
#[derive(Drop)]
struct Exchange<'s> {
    stream: &'s UnixStream,
    lines: LineBuffer,
    output: Vec<u8>,
}

impl Exchange<'_> {
    /// Sends the answers once this many entries, all that they show, are kept, and returns whether all went out.
    fn send<E: EntryLedger, S: LotLedger, R: Wait + Clock>(
        &mut self,
        floor: &Floor<'_, E, S, R>,
        seen: u64,
    ) -> bool {
        let is_sent = floor.await_kept(seen) && send(floor, self.stream, &self.output, seen);
        self.output.clear();
        is_sent
    }

    /// Answers what came, line by line, and sends the answers as it goes, so that few are held however much is asked. Returns `None` if the
    /// connection is to be closed.
    fn answer<'a, 'f, E: EntryLedger, S: LotLedger, R: Wait + Clock, O: Office, I: Informs>(
        &mut self,
        floor: &Floor<'f, E, S, R>,
        operator: &mut Operator<'a, E, S, R, O, I>,
        came: &[u8],
    ) -> Option<Said> {
        let mut left = came;
        for _line in 0..came.len() {
            let (line, rest) = first_line(left);
            left = rest;
            let said = serve_lines(operator, &mut self.lines, line, &mut self.output).ok()?;
            let is_last = left.is_empty() || said == Said::Closes;
            if (is_last || self.output.len() > MOST_HELD) && !self.send(floor, operator.seen()) {
                return None;
            }
            if is_last {
                return Some(said);
            }
        }
        Some(Said::GoesOn)
    }
}

/// Sets how long reads and writes of a stream wait.
fn set_waits(stream: &UnixStream) -> io::Result<()> {
    stream.set_read_timeout(Some(Duration::from_millis(WAIT_MS)))?;
    stream.set_write_timeout(Some(Duration::from_millis(WAIT_MS)))
}

/// Answers an operator until it closes the day, its connection ends, it has been silent for a minute, or the day is over. Returns whether
/// it closed the day and waits for the last lines.
pub fn talk<'a, 'f, E: EntryLedger, S: LotLedger, R: Wait + Clock, O: Office, I: Informs>(
    floor: &Floor<'f, E, S, R>,
    operator: &mut Operator<'a, E, S, R, O, I>,
    mut stream: &UnixStream,
) -> Said {
    let mut exchange = Exchange {
        stream,
        lines: LineBuffer::new(),
        output: Vec::new(floor.alloc),
    };
    let mut buffer = [0; LONGEST_READ];
    let Ok(mut heard) = Instant::now(floor.rt) else {
        return Said::GoesOn;
    };
    if set_waits(stream).is_err() {
        return Said::GoesOn;
    }
    for _read in floor.rt.forever() {
        if floor.is_over() || have_passed(floor.rt, heard, MOST_SILENT_S) {
            break;
        }
        match stream.read(&mut buffer) {
            Ok(0) => break,
            Ok(count) => {
                let came = buffer.get(..count).unwrap_or(&[]);
                match exchange.answer(floor, operator, came) {
                    Some(Said::GoesOn) => {}
                    Some(Said::Closes) => return Said::Closes,
                    None => break,
                }
                match Instant::now(floor.rt) {
                    Ok(now) => heard = now,
                    Err(_) => break,
                }
            }
            Err(error) if !is_pause(&error) => break,
            Err(_) => {}
        }
    }
    Said::GoesOn
}
