//! An outlet that may hold answers back, or send only the first bytes.

ghost use Rattle.std.specs.Prelude.{◌≡◌, ◌+◌, ◌≤◌, drop, false, length, take, IfErr, IfOk, OnErr, OnOk};
ghost use Rattle.std.specs.Io.KnownBytes.{Appends};
ghost use Rattle.gu_streams.specs.Written.{LetsGo, WrotePart};

use gu_streams::{Outlet, StreamError};
use std::io::{ErrorKind, Write};

/// An outlet that sends at most a number of the bytes held, as far as the writer accepts them without waiting.
#[derive(Drop)]
pub struct Gate {
    most: usize,
}

impl Gate {
    /// Returns a gate that sends nothing.
    pub fn closed() -> Self
        ensures { result.most ≡ 0 }
    {
        Gate { most: 0 }
    }

    /// Returns a gate that sends everything.
    pub fn open() -> Self
        ensures { result.most ≡ usize.MAX }
    {
        Gate { most: usize::MAX }
    }

    /// Returns a gate that sends at most this many bytes each time.
    pub fn up_to(most: usize) -> Self
        ensures { result.most ≡ most }
    {
        Gate { most }
    }
}

/// Writes as much of a text as the writer accepts without waiting, and returns the number of bytes. After an error some prefix was written.
fn write_some<W: Write>(writer: &mut W, text: &[u8]) -> Result<usize, StreamError>
    ensures within { IfOk result (λ count. count ≤ length text.now) }
    ensures ok { IfOk result (λ count. Appends (W.contents writer.old) (W.contents writer.new) (take count text.now)) }
    ensures err { OnErr result (WrotePart text.now (W.contents writer.old) (W.contents writer.new)) }
    ensures fault { IfErr result (λ error. error ≡ StreamError.Write) }

    // If the text is empty, the writer isn't called.
    ensures unasked { length text.now ≡ 0 → writer.new ≡ writer.old }
{
    let mut at = 0;
    'parts: while at < text.len() {
        match writer.write(&text[at..]) {
            Ok(0) => return Err(StreamError::Write),
            Ok(count) => at += count,
            Err(error) => {
                return match error.kind() {
                    ErrorKind::WouldBlock => Ok(at),
                    _ => Err(StreamError::Write),
                };
            }
        }
    }
    Ok(at)
}

/// Drops the first `count` bytes, moving the others once. (`drain` passes over all of them three times.)
fn drop_first(bytes: &mut Vec<u8>, count: usize)
    requires { count ≤ length bytes.old.items }
    ensures { bytes.new.items ≡ drop count bytes.old.items }
{
    if count == 0 {
        return;
    }
    let left = bytes.len() - count;
    bytes.copy_within(count.., 0);
    bytes.truncate(left);
}

impl Outlet for Gate {
    ghost takes_all = { false };

    fn let_go<W: Write>(&mut self, writer: &mut W, held: &mut Vec<u8>) -> Result<(), StreamError>
        ensures ok { OnOk result (LetsGo held.old.items held.new.items (W.contents writer.old) (W.contents writer.new)) }
        ensures err { OnErr result (WrotePart held.old.items (W.contents writer.old) (W.contents writer.new)) }
        ensures kept { OnErr result (held.new.items ≡ held.old.items) }
        ensures fault { IfErr result (λ error. error ≡ StreamError.Write) }

        // At most this many bytes are sent, even before an error.
        ensures most { OnOk result (length held.old.items ≤ length held.new.items + self.old.most) }
        ensures first { OnErr result (WrotePart (take self.old.most held.old.items) (W.contents writer.old) (W.contents writer.new)) }
        ensures same { self.new ≡ self.old }

        // While it is closed, nothing happens.
        ensures unwritten { self.old.most ≡ 0 → writer.new ≡ writer.old }
        ensures held { self.old.most ≡ 0 → held.new.items ≡ held.old.items }
    {
        let most = self.most.min(held.len());
        let count = write_some(writer, &held[..most])?;
        drop_first(held, count);
        Ok(())
    }
}
