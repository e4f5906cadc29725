//! Writing.

ghost use Rattle.std.specs.Prelude.{◌≡◌, ◌≤◌, length, take, IfErr, IfOk, OnOk, OnErr};
ghost use Rattle.std.specs.Io.KnownBytes.{Appends};
ghost use Rattle.gu_streams.specs.Written.{LetsGo, WrotePart};

use crate::error::StreamError;
use std::io::{ErrorKind, Write};

/// Writes a text. After an error some prefix of it was written.
pub fn send<W: Write>(writer: &mut W, text: &[u8]) -> Result<(), StreamError>
    ensures ok { OnOk result (Appends (W.contents writer.old) (W.contents writer.new) text.now) }
    ensures err { OnErr result (WrotePart text.now (W.contents writer.old) (W.contents writer.new)) }
    ensures fault { IfErr result (λ error. error ≡ StreamError.Write) }
{
    let mut at = 0;
    'parts: while at < text.len() {
        match writer.write(&text[at..]) {
            Ok(0) => return Err(StreamError::Write),
            Ok(count) => at += count,
            Err(_) => return Err(StreamError::Write),
        }
    }
    Ok(())
}

/// Writes as much of a text as the writer accepts without waiting, and returns the number of bytes. After an error some prefix was written.
fn write_some<W: Write>(writer: &mut W, text: &[u8]) -> Result<usize, StreamError>
    ensures within { IfOk result (λ count. count ≤ length text.now) }
    ensures ok { IfOk result (λ count. Appends (W.contents writer.old) (W.contents writer.new) (take count text.now)) }
    ensures err { OnErr result (WrotePart text.now (W.contents writer.old) (W.contents writer.new)) }
    ensures fault { IfErr result (λ error. error ≡ StreamError.Write) }
{
    let mut at = 0;
    'parts: while at < text.len() {
        match writer.write(&text[at..]) {
            Ok(0) => return Err(StreamError::Write),
            Ok(count) => at += count,
            Err(error) => {
                return match error.kind() {
                    ErrorKind::WouldBlock => Ok(at),
                    _ => Err(StreamError::Write),
                };
            }
        }
    }
    Ok(at)
}

/// Writes as much of what is held as the writer accepts without waiting. After an error some prefix was written.
pub fn send_some<W: Write>(writer: &mut W, held: &mut Vec<u8>) -> Result<(), StreamError>
    ensures ok { OnOk result (LetsGo held.old.items held.new.items (W.contents writer.old) (W.contents writer.new)) }
    ensures err { OnErr result (WrotePart held.old.items (W.contents writer.old) (W.contents writer.new)) }
    ensures kept { OnErr result (held.new.items ≡ held.old.items) }
    ensures fault { IfErr result (λ error. error ≡ StreamError.Write) }
{
    let count = write_some(writer, held)?;
    held.drain(..count);
    Ok(())
}
