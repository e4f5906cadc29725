//! Why no socket listens at a path.

use std::io;
use thiserror::Error;

/// Why no socket listens at a path.
#[derive(Debug, Drop, Error)]
pub enum ListenFault {
    /// A living desk answers there.
    #[error("InUse")]
    InUse,
    /// A file that isn't a socket is there, and is left as it is.
    #[error("NotASocket")]
    NotASocket,
    /// The system refuses it.
    #[error("{0}")]
    Io(io::Error),
}

impl From<io::Error> for ListenFault {
    ghost use Rattle.std.specs.Prelude.{◌≡◌};
    ghost use Rattle.gu_sockets.specs.declared.listen_fault.ListenFault.TheVariants.{Io};

    ghost from_gives = { λ error fault. fault ≡ Io error };

    fn from(error: io::Error) -> Self {
        ListenFault::Io(error)
    }
}
