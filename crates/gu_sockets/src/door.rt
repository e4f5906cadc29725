//! A listener, and whether a connection may be waiting at it.

ghost use Rattle.std.specs.Prelude.{◌≡◌, true, false, None, OnErr, IfOk, IfSome};

use mio::net;
use mio::net::{TcpListener, TcpStream};
use std::io;
use std::io::ErrorKind;
use std::os::unix::net::{UnixListener, UnixStream};

/// How often an accept is repeated at most after a signal, or if its peer has gone.
const MOST_REPEATS: u32 = 1_000;

/// A listener that doesn't wait.
pub trait Listens {
    /// A connection, with what is known of its peer.
    type Accepted: Drop;

    /// The listener may have accepted this. It says nothing about a socket, but who serves listeners of any type keeps to it: so a
    /// connection is never taken for one that another listener accepted.
    ghost accepts: { Self → Self.Accepted → Type 0 };

    /// Accepts a connection. If none is waiting, its error is of the kind `WouldBlock`.
    fn accept_once(&self) -> io::Result<Self::Accepted>
        ensures { IfOk result (accepts self.now) };
}

impl Listens for TcpListener {
    type Accepted = (TcpStream, u16);

    ghost use Rattle.std.specs.Prelude.{⊤};

    ghost accepts = { λ _ _. ⊤ };

    fn accept_once(&self) -> io::Result<(TcpStream, u16)> {
        let (stream, peer) = self.accept()?;
        Ok((stream, peer.port()))
    }
}

// Operators' connections wait.
impl Listens for UnixListener {
    type Accepted = UnixStream;

    ghost use Rattle.std.specs.Prelude.{⊤};

    ghost accepts = { λ _ _. ⊤ };

    fn accept_once(&self) -> io::Result<UnixStream> {
        let (stream, _) = self.accept()?;
        Ok(stream)
    }
}

// Firms' connections don't wait.
impl Listens for net::UnixListener {
    type Accepted = net::UnixStream;

    ghost use Rattle.std.specs.Prelude.{⊤};

    ghost accepts = { λ _ _. ⊤ };

    fn accept_once(&self) -> io::Result<net::UnixStream> {
        let (stream, _) = self.accept()?;
        Ok(stream)
    }
}

/// Accepts a connection; tries again after a signal, or if the peer has gone.
fn accept_past_signals<L: Listens>(listener: &L) -> io::Result<L::Accepted>
    ensures { IfOk result (L.accepts listener.now) }
{
    for _repeat in 0..MOST_REPEATS {
        match listener.accept_once() {
            Err(error)
                if matches!(
                    error.kind(),
                    ErrorKind::Interrupted | ErrorKind::ConnectionAborted
                ) => {}
            accepted => return accepted,
        }
    }
    Err(io::Error::from(ErrorKind::Interrupted))
}

/// A listener, and whether a connection may be waiting at it. The system says so once, and not again after an accept that failed: so one
/// may be waiting until an accept has said that none is.
#[derive(Drop)]
pub struct Door<L> {
    pub(crate) listener: L,
    pub(crate) is_due: bool,
}

impl<L> Door<L> {
    /// Creates the door of a listener, at which a connection may be waiting.
    pub fn new(listener: L) -> Self
        ensures due { result.is_due ≡ true }
        ensures listener { result.listener ≡ listener }
    {
        Door {
            listener,
            is_due: true,
        }
    }

    /// Returns whether a connection may be waiting.
    pub fn is_due(&self) -> bool
        ensures { result ≡ self.now.is_due }
    {
        self.is_due
    }

    /// Notes that a connection may be waiting.
    pub fn note(&mut self)
        ensures due { self.new.is_due ≡ true }
        ensures listener { self.new.listener ≡ self.old.listener }
    {
        self.is_due = true;
    }
}

impl<L: Listens> Door<L> {
    /// Accepts a connection, if one is waiting.
    pub fn accept(&mut self) -> io::Result<Option<L::Accepted>>
        ensures listener { self.new.listener ≡ self.old.listener }
        ensures accepted { IfOk result (λ one. IfSome one (L.accepts self.old.listener)) }
        ensures none { IfOk result (λ one. one ≡ None → self.new.is_due ≡ false) }
        ensures failed { OnErr result (self.new.is_due ≡ true) }
    {
        if !self.is_due {
            return Ok(None);
        }
        match accept_past_signals(&self.listener) {
            Ok(accepted) => Ok(Some(accepted)),
            Err(error) if error.kind() == ErrorKind::WouldBlock => {
                self.is_due = false;
                Ok(None)
            }
            Err(error) => Err(error),
        }
    }
}
