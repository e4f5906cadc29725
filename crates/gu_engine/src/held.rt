//! Answers waiting to be sent.

ghost use Rattle.std.specs.Prelude.{◌≡◌, ◌≤◌, ◌<◌, ◌+◌, ◌↔◌, [], true, length, take, IfErr, IsTrue, OnErr, OnOk};
ghost use Rattle.gu_streams.specs.Written.{WrotePart};
ghost use Rattle.gu_engine.specs.Sends.{Gives};

use crate::gate::Gate;
use gu_streams::{Outlet, StreamError};
use std::alloc::Global;
use std::io::Write;

/// The most bytes that may be held when one more event is answered; with more, a turn is cut.
const MOST_HELD: usize = 65_536;

/// Answers waiting to be sent, and the outlet that sends them.
#[derive(Drop)]
pub struct Held<O> {
    pub(crate) bytes: Vec<u8>,
    outlet: O,
}

impl<O> Held<O> {
    /// Returns a buffer that holds nothing yet.
    pub(crate) fn new(alloc: Global, outlet: O) -> Self
        ensures { result.bytes.items ≡ [] }
    {
        Held {
            bytes: Vec::new(alloc),
            outlet,
        }
    }

    /// Returns whether more than 65,536 bytes are held.
    pub(crate) fn is_full(&self) -> bool
        ensures { IsTrue result ↔ 65536 < length self.now.bytes.items }
    {
        self.bytes.len() > MOST_HELD
    }

    /// Releases the memory for answers, if none are held.
    pub(crate) fn release(&mut self)
        ensures held { self.new.bytes.items ≡ self.old.bytes.items }
        ensures outlet { self.new.outlet ≡ self.old.outlet }
    {
        if self.bytes.is_empty() {
            self.bytes.shrink_to_fit();
        }
    }

    /// Sends at most this many of the first bytes held, whatever the outlet.
    pub(crate) fn let_go_first<W: Write>(
        &mut self,
        most: usize,
        writer: &mut W,
    ) -> Result<(), StreamError>
        ensures given { OnOk result (Gives [] self.old.bytes.items self.new.bytes.items (W.contents writer.old) (W.contents writer.new)) }
        ensures most { OnOk result (length self.old.bytes.items ≤ length self.new.bytes.items + most) }
        ensures part { OnErr result (WrotePart (take most self.old.bytes.items) (W.contents writer.old) (W.contents writer.new)) }
        ensures kept { OnErr result (self.new.bytes.items ≡ self.old.bytes.items) }
        ensures fault { IfErr result (λ error. error ≡ StreamError.Write) }
        ensures outlet { self.new.outlet ≡ self.old.outlet }
    {
        Gate::up_to(most).let_go(writer, &mut self.bytes)
    }
}

impl<O: Drop> Held<O> {
    /// Sends through another outlet from now on.
    pub(crate) fn set_outlet(&mut self, outlet: O)
        ensures held { self.new.bytes ≡ self.old.bytes }
        ensures outlet { self.new.outlet ≡ outlet }
    {
        self.outlet = outlet;
    }
}

impl<O: Outlet> Held<O> {
    /// Sends the first of the bytes held.
    pub(crate) fn let_go<W: Write>(&mut self, writer: &mut W) -> Result<(), StreamError>
        ensures given { OnOk result (Gives [] self.old.bytes.items self.new.bytes.items (W.contents writer.old) (W.contents writer.new)) }
        ensures all { OnOk result (O.takes_all ≡ true → self.new.bytes.items ≡ []) }
        ensures part { OnErr result (WrotePart self.old.bytes.items (W.contents writer.old) (W.contents writer.new)) }
        ensures fault { IfErr result (λ error. error ≡ StreamError.Write) }
    {
        self.outlet.let_go(writer, &mut self.bytes)
    }

    /// Sends the first of them, if many are held.
    pub(crate) fn send_if_much<W: Write>(&mut self, writer: &mut W) -> Result<(), StreamError>
        ensures given { OnOk result (Gives [] self.old.bytes.items self.new.bytes.items (W.contents writer.old) (W.contents writer.new)) }
        ensures few { OnOk result (O.takes_all ≡ true → length self.new.bytes.items ≤ 65536) }
        ensures part { OnErr result (WrotePart self.old.bytes.items (W.contents writer.old) (W.contents writer.new)) }
        ensures fault { IfErr result (λ error. error ≡ StreamError.Write) }
    {
        if self.bytes.len() > MOST_HELD {
            self.let_go(writer)?;
        }
        Ok(())
    }
}
