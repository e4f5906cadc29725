//! Words of `serve` that don't go together.

ghost use Rattle.std.specs.Prelude.{◌≡◌};
ghost use Rattle.gu_words.specs.Misfits.{kind_of_misfit};

use clap::error::ErrorKind;

/// Why words of `serve` don't go together.
#[derive(Clone, Copy, Debug, PartialEq, Eq)]
pub enum Misfit {
    /// The word given for its port isn't a port.
    NotAPort,
    /// A server that runs until it is closed has no console to close it.
    NoConsole,
    /// A server of a counted day has a number of workers.
    NotUntilClosed,
    /// A server of a counted day has more than 32 connections.
    ManyConnections,
    /// The console and the watch are one socket.
    OnePath,
    /// A day is to be resumed, or a desk is to stand by, but no journal is named.
    NoJournal,
    /// There is neither a port nor a door.
    NoDoors,
    /// There are both, but no secrets: a port that is open to all would make the doors worthless.
    NoSecrets,
}

impl Misfit {
    /// Returns its kind of refusal.
    pub fn kind(self) -> ErrorKind
        ensures { result ≡ kind_of_misfit self }
    {
        match self {
            Misfit::NotAPort => ErrorKind::ValueValidation,
            Misfit::NoConsole => ErrorKind::MissingRequiredArgument,
            Misfit::NotUntilClosed => ErrorKind::MissingRequiredArgument,
            Misfit::ManyConnections => ErrorKind::ValueValidation,
            Misfit::OnePath => ErrorKind::ArgumentConflict,
            Misfit::NoJournal => ErrorKind::MissingRequiredArgument,
            Misfit::NoDoors => ErrorKind::MissingRequiredArgument,
            Misfit::NoSecrets => ErrorKind::MissingRequiredArgument,
        }
    }

    /// Returns its text for the user.
    pub fn why(self) -> &'static str {
        match self {
            Misfit::NotAPort => "invalid value for '<PORT>': it is 1 to 65535, or - for none",
            Misfit::NoConsole => {
                "the following required arguments were not provided:\n  --console <PATH>"
            }
            Misfit::NotUntilClosed => {
                "the following required arguments were not provided:\n  --until-closed"
            }
            Misfit::ManyConnections => {
                "invalid value for '--connections <N>': without '--until-closed' it is 1 to 32"
            }
            Misfit::OnePath => {
                "the arguments '--console <PATH>' and '--watch <PATH>' cannot have the same path"
            }
            Misfit::NoJournal => {
                "the following required arguments were not provided:\n  --journal <FILE>"
            }
            Misfit::NoDoors => {
                "the following required arguments were not provided:\n  --doors <FOLDER>"
            }
            Misfit::NoSecrets => {
                "the following required arguments were not provided:\n  --secrets <FILE>"
            }
        }
    }
}
