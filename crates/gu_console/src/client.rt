//! The client of a desk's operators.

use crate::error::TellError;
use crate::request::Request;
use crate::sent_answer::SentAnswer;
use gu_text::{split_at_line_feed, without_return};
use std::alloc::{AllocError, Global};
use std::io::{ErrorKind, Read, Write};

/// How many bytes of an answer are read at once at most.
const LONGEST_READ: usize = 4_096;

/// What came of a line that was sent.
#[derive(Clone, Copy, Debug, PartialEq, Eq)]
pub enum Told {
    /// It was answered.
    Answered,
    /// It was answered, and nothing was done: the line is bad, or it was refused.
    Refused,
    /// The stream ended before all of the answer had come.
    Ended,
}

/// Returns whether a text is one line that a desk's operator may send: a line of a script, but for the steps of a worker, or a word of the
/// console. An empty line and a comment are lines too.
pub fn is_line(alloc: Global, text: &[u8]) -> Result<bool, AllocError> {
    if split_at_line_feed(text).is_some() {
        return Ok(false);
    }
    let asked = Request::read(alloc, without_return(text), false)?;
    Ok(asked.is_some())
}

/// Sends a line.
fn send<C: Write>(line: &[u8], stream: &mut C) -> Result<(), TellError> {
    if stream.write_all(line).is_err() || stream.write_all(b"\n").is_err() {
        return Err(TellError::Send);
    }
    match stream.flush() {
        Ok(()) => Ok(()),
        Err(_) => Err(TellError::Send),
    }
}

/// Shows a part of an answer at once.
fn show<W: Write>(part: &[u8], output: &mut W) -> Result<(), TellError> {
    if output.write_all(part).is_err() {
        return Err(TellError::Show);
    }
    match output.flush() {
        Ok(()) => Ok(()),
        Err(_) => Err(TellError::Show),
    }
}

/// Shows an answer as it comes, without the empty line that ends it.
fn show_answer<C: Read, W: Write>(stream: &mut C, output: &mut W) -> Result<Told, TellError> {
    let mut answer = SentAnswer::new();
    let mut buffer = [0; LONGEST_READ];
    for _read in 0..u64::MAX {
        match stream.read(&mut buffer) {
            Ok(0) => return Ok(Told::Ended),
            Ok(count) => show(answer.take(&buffer[..count]), output)?,
            Err(error) if error.kind() == ErrorKind::Interrupted => {}
            Err(_) => return Err(TellError::Read),
        }
        if answer.is_whole() && answer.is_refusal() {
            return Ok(Told::Refused);
        }
        if answer.is_whole() {
            return Ok(Told::Answered);
        }
    }
    Ok(Told::Ended)
}

/// Sends a line to a desk, and shows its answer as it comes. The stream has answered what was sent before.
pub fn tell<C: Read + Write, W: Write>(
    line: &[u8],
    stream: &mut C,
    output: &mut W,
) -> Result<Told, TellError> {
    send(line, stream)?;
    show_answer(stream, output)
}
