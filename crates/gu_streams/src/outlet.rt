//! Ways of sending.

ghost use Rattle.std.specs.Prelude.{◌≡◌, [], false, true, IfErr, OnErr, OnOk};
ghost use Rattle.gu_streams.specs.Written.{LetsGo, WrotePart};

use crate::error::StreamError;
use crate::sending::{send, send_some};
use std::io::Write;

/// An outlet sends held answers: it decides when, and how many at once.
pub trait Outlet {
    ghost use Rattle.std.specs.Prelude.{Bool};

    /// Whether it always sends everything held.
    ghost takes_all: { Bool };

    /// Sends the first of the held bytes to a writer. The rest is still held. After an error some prefix was written, and everything is
    /// still held.
    fn let_go<W: Write>(&mut self, writer: &mut W, held: &mut Vec<u8>) -> Result<(), StreamError>
        ensures ok { OnOk result (LetsGo held.old.items held.new.items (W.contents writer.old) (W.contents writer.new)) }
        ensures all { OnOk result (takes_all ≡ true → held.new.items ≡ []) }
        ensures err { OnErr result (WrotePart held.old.items (W.contents writer.old) (W.contents writer.new)) }
        ensures kept { OnErr result (held.new.items ≡ held.old.items) }
        ensures fault { IfErr result (λ error. error ≡ StreamError.Write) };
}

/// An outlet that writes everything held, and waits until it is written. A writer that would block has failed.
#[derive(Drop)]
pub struct Blocking;

impl Outlet for Blocking {
    ghost takes_all = { true };

    fn let_go<W: Write>(&mut self, writer: &mut W, held: &mut Vec<u8>) -> Result<(), StreamError> {
        send(writer, held)?;
        held.clear();
        Ok(())
    }
}

/// An outlet that writes as much as the writer accepts without waiting.
#[derive(Drop)]
pub struct NonBlocking;

impl Outlet for NonBlocking {
    ghost takes_all = { false };

    fn let_go<W: Write>(&mut self, writer: &mut W, held: &mut Vec<u8>) -> Result<(), StreamError> {
        send_some(writer, held)
    }
}
