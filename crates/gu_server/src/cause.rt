//! Why no connection is accepted for now.

ghost use Rattle.std.specs.Prelude.{◌≡◌};

use gu_log::AcceptFault;
use gu_streams::StreamError;
use std::alloc::AllocError;
use std::{fmt, io};

/// Why no connection is accepted for now.
#[derive(Debug, Drop)]
pub enum Cause {
    /// An allocation failed.
    Memory,
    /// The system can't start a thread.
    NoThread,
    /// The system can't accept a connection.
    Accept(io::Error),
}

impl Cause {
    /// Returns the reason that the log gives.
    pub fn fault(&self) -> AcceptFault {
        match self {
            Cause::Memory => AcceptFault::Memory,
            Cause::NoThread => AcceptFault::Threads,
            Cause::Accept(error) => AcceptFault::of(error),
        }
    }

    /// Prints on standard error why no connection is accepted until one has ended. A line that can't be written is lost.
    pub fn tell_pause<R: Eprint>(&self, rt: &R) {
        let _ = eprintln!(rt; "giveup: no connection is accepted until one has ended: {self}");
    }

    /// Prints on standard error why no connection is accepted for now. A line that can't be written is lost.
    pub fn tell_retry<R: Eprint>(&self, rt: &R) {
        let _ = eprintln!(rt; "giveup: no connection is accepted for now: {self}");
    }
}

impl fmt::Display for Cause {
    fn fmt<W: fmt::Write>(&self, f: &mut fmt::Formatter<W>) -> fmt::Result {
        match self {
            Cause::Memory => f.write_str("out of memory"),
            Cause::NoThread => f.write_str("no thread can be started"),
            Cause::Accept(error) => fmt::Display::fmt(error, f),
        }
    }
}

impl From<AllocError> for Cause {
    ghost use Rattle.std.specs.Prelude.{◌≡◌};
    ghost use Rattle.gu_server.specs.declared.cause.Cause.TheVariants.{Memory};

    ghost from_gives = { λ _ cause. cause ≡ Memory };

    fn from(_: AllocError) -> Self {
        Cause::Memory
    }
}

impl From<Cause> for StreamError {
    ghost use Rattle.std.specs.Prelude.{⊤};

    ghost from_gives = { λ _ error. ⊤ };

    fn from(cause: Cause) -> Self {
        match cause {
            Cause::Memory | Cause::NoThread => StreamError::Memory,
            Cause::Accept(_) => StreamError::Read,
        }
    }
}
