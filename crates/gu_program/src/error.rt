//! Why the program ends with status 1.

use gu_ref::RefFault;
use gu_script::ScriptError;
use gu_secrets::SecretsFault;
use gu_streams::StreamError;
use thiserror::Error;

/// Why a day's journal can't be begun or resumed, or doesn't go on.
#[derive(Debug, Drop, Clone, Copy, PartialEq, Eq, Error)]
pub enum JournalFault {
    /// The file isn't empty.
    #[error("NotEmpty")]
    NotEmpty,
    /// The path leads to a folder, a pipe or a device.
    #[error("NotAFile")]
    NotAFile,
    /// Another desk has the file.
    #[error("InUse")]
    InUse,
    /// The file is the journal of a day with another reference, or names no reference.
    #[error("Reference")]
    Reference,
    /// The digest after this many entries isn't the digest of the entries that the lines make.
    #[error("Differs {0}")]
    Differs(u64),
    /// More follows the text than an interrupted batch can leave.
    #[error("Damaged")]
    Damaged,
    /// The line with this number isn't a valid line of a journal.
    #[error("bad line {0}")]
    BadLine(u64),
    /// Another desk leads the log.
    #[error("Fenced")]
    Fenced,
    /// No etcd answers at the address.
    #[error("Unreachable")]
    Unreachable,
    /// The log has a day whose opening isn't whole.
    #[error("Unopened")]
    Unopened,
}

/// Why the secrets of firms aren't accepted.
#[derive(Debug, Drop, Clone, Copy, PartialEq, Eq, Error)]
pub enum SecretsError {
    /// The file can't be opened or read.
    #[error("ReadFault")]
    ReadFault,
    /// The line with this number is neither empty nor a row for a firm of the reference.
    #[error("BadRow {0}")]
    BadRow(u64),
}

/// Why a console can't be opened, or doesn't answer.
#[derive(Debug, Drop, Clone, Copy, PartialEq, Eq, Error)]
pub enum ConsoleFault {
    /// A desk answers at its path.
    #[error("InUse")]
    InUse,
    /// What is at its path isn't a socket.
    #[error("NotASocket")]
    NotASocket,
    /// The socket can't be made.
    #[error("NotMade")]
    NotMade,
    /// No desk can be reached at its path.
    #[error("NotReached")]
    NotReached,
    /// The desk ended the connection before its answer was whole.
    #[error("Ended")]
    Ended,
}

/// Why the firms' doors can't be opened.
#[derive(Debug, Drop, Clone, Copy, PartialEq, Eq, Error)]
pub enum DoorsFault {
    /// A desk answers at one of them.
    #[error("InUse")]
    InUse,
    /// What is at the path of one of them isn't a socket.
    #[error("NotASocket")]
    NotASocket,
    /// One of them can't be made.
    #[error("NotMade")]
    NotMade,
    /// There are this many doors, and the process may not open enough files for them.
    #[error("TooFewFiles {0}")]
    TooFewFiles(usize),
}

/// Why the program ends with status 1.
#[derive(Debug, Drop, Clone, Copy, PartialEq, Eq, Error)]
pub enum RunError {
    /// The reference was not accepted.
    #[error("reference: {0}")]
    Reference(RefFault),
    /// A script or a sheet stopped.
    #[error("{0}")]
    Script(ScriptError),
    /// An engine of messages stopped, or a file couldn't be read.
    #[error("{0}")]
    Stream(StreamError),
    /// The secrets of firms were not accepted.
    #[error("secrets: {0}")]
    Secrets(SecretsError),
    /// The journal can't be begun.
    #[error("journal: {0}")]
    Journal(JournalFault),
    /// A console can't be opened, or doesn't answer.
    #[error("console: {0}")]
    Console(ConsoleFault),
    /// The firms' doors can't be opened.
    #[error("doors: {0}")]
    Doors(DoorsFault),
}

impl From<RefFault> for RunError {
    ghost use Rattle.std.specs.Prelude.{◌≡◌};
    ghost use Rattle.gu_program.specs.RunErrors.{error_after};

    ghost from_gives = { λ fault error. error ≡ error_after fault };

    fn from(fault: RefFault) -> Self {
        match fault {
            RefFault::Memory => RunError::Stream(StreamError::Memory),
            _ => RunError::Reference(fault),
        }
    }
}

impl From<SecretsFault> for RunError {
    ghost use Rattle.std.specs.Prelude.{◌≡◌};
    ghost use Rattle.gu_program.specs.RunErrors.{error_after_secrets};

    ghost from_gives = { λ fault error. error ≡ error_after_secrets fault };

    fn from(fault: SecretsFault) -> Self {
        match fault {
            SecretsFault::Memory => RunError::Stream(StreamError::Memory),
            SecretsFault::BadRow(line) => RunError::Secrets(SecretsError::BadRow(line)),
        }
    }
}

impl From<ScriptError> for RunError {
    ghost use Rattle.std.specs.Prelude.{◌≡◌};
    ghost use Rattle.gu_program.specs.declared.error.RunError.TheVariants.{Script};

    ghost from_gives = { λ script error. error ≡ Script script };

    fn from(error: ScriptError) -> Self {
        RunError::Script(error)
    }
}

impl From<StreamError> for RunError {
    ghost use Rattle.std.specs.Prelude.{◌≡◌};
    ghost use Rattle.gu_program.specs.declared.error.RunError.TheVariants.{Stream};

    ghost from_gives = { λ stream error. error ≡ Stream stream };

    fn from(error: StreamError) -> Self {
        RunError::Stream(error)
    }
}
