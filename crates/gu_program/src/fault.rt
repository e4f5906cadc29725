//! Faults of a run: the error, and what is at fault.

use crate::error::{ConsoleFault, DoorsFault, JournalFault, RunError, SecretsError};
use gu_ref::RefFault;
use gu_script::ScriptError;
use gu_streams::StreamError;
use std::{fmt, io};

/// What may be at fault.
#[derive(Clone, Copy, Debug)]
pub enum Place<'a> {
    /// The file of this path.
    File(&'a str),
    /// A firm's door in the folder at this path. The firm's name is padded with zeros.
    Door(&'a str, [u8; 12]),
    /// This port.
    Port(u16),
    /// Standard input.
    Input,
    /// Standard output.
    Output,
}

impl fmt::Display for Place<'_> {
    fn fmt<W: fmt::Write>(&self, f: &mut fmt::Formatter<W>) -> fmt::Result {
        match self {
            Place::File(path) => write!(f, "{path}"),
            Place::Door(folder, firm) => {
                let name = firm.split(|byte| *byte == 0).next().unwrap_or(&[]);
                write!(f, "{folder}/{}", name.escape_ascii())
            }
            Place::Port(number) => write!(f, "port {number}"),
            Place::Input => f.write_str("standard input"),
            Place::Output => f.write_str("standard output"),
        }
    }
}

/// An error as the second line words it.
#[derive(Drop)]
struct InWords(RunError);

/// Returns the words for a console that can't be opened, or that doesn't answer.
fn console_words(fault: ConsoleFault) -> &'static str {
    match fault {
        ConsoleFault::InUse => "a desk answers there",
        ConsoleFault::NotASocket => "it isn't a socket, and is left as it is",
        ConsoleFault::NotMade => "it can't be made",
        ConsoleFault::NotReached => "no desk can be reached there",
        ConsoleFault::Ended => "the desk ended the connection before its answer was whole",
    }
}

/// Writes why the firms' doors can't be opened.
fn say_doors<W: fmt::Write>(fault: DoorsFault, f: &mut fmt::Formatter<W>) -> fmt::Result {
    match fault {
        DoorsFault::InUse => f.write_str(console_words(ConsoleFault::InUse)),
        DoorsFault::NotASocket => f.write_str(console_words(ConsoleFault::NotASocket)),
        DoorsFault::NotMade => f.write_str(console_words(ConsoleFault::NotMade)),
        DoorsFault::TooFewFiles(doors) => {
            write!(
                f,
                "there are {doors} doors, and the process may open too few files for them"
            )
        }
    }
}

/// Returns the words for a journal that can't be begun or resumed, or doesn't go on.
fn journal_words(fault: JournalFault) -> &'static str {
    match fault {
        JournalFault::NotEmpty => "it isn't empty, and a day doesn't write over what it finds",
        JournalFault::NotAFile => "it isn't a file",
        JournalFault::InUse => "another desk has it",
        JournalFault::Reference => "it is the journal of a day of another reference",
        JournalFault::Differs(_) => "its lines don't lead to the answers that it has a digest of",
        JournalFault::Damaged =>
            "more is after its text than a torn batch, and it is left as it is",
        JournalFault::BadLine(_) => "the line isn't one that may be there",
        JournalFault::Fenced => "another desk leads it",
        JournalFault::Unreachable => "no etcd answers there",
        JournalFault::Unopened =>
            "the opening of its day isn't whole: begin the day under another name",
    }
}

impl fmt::Display for InWords {
    fn fmt<W: fmt::Write>(&self, f: &mut fmt::Formatter<W>) -> fmt::Result {
        match self.0 {
            RunError::Reference(RefFault::BadRow(line)) => {
                write!(f, "record {line} isn't a row that may be there")
            }
            RunError::Reference(RefFault::Unknown(line)) => {
                write!(f, "record {line} names what no earlier one declares")
            }
            RunError::Reference(RefFault::Twice(line)) => {
                write!(
                    f,
                    "record {line} declares again what an earlier one declares"
                )
            }
            RunError::Reference(RefFault::TooMany) => {
                f.write_str("it has more rows of one kind than it may have")
            }
            RunError::Script(ScriptError::BadLine(line)) => {
                write!(
                    f,
                    "line {line} is missing, or isn't a line that may be there"
                )
            }
            RunError::Script(ScriptError::Write) | RunError::Stream(StreamError::Write) => {
                f.write_str("it couldn't be written to its end")
            }
            RunError::Secrets(SecretsError::BadRow(line)) => {
                write!(f, "line {line} isn't a row of a firm of the reference")
            }
            RunError::Journal(fault) => f.write_str(journal_words(fault)),
            RunError::Console(fault) => f.write_str(console_words(fault)),
            RunError::Doors(fault) => say_doors(fault, f),
            RunError::Secrets(SecretsError::ReadFault)
            | RunError::Reference(_)
            | RunError::Script(_)
            | RunError::Stream(_) => { f.write_str("it couldn't be read to its end") }
        }
    }
}

/// A fault of a run: its error and, if known, what is at fault and the system's reason.
#[derive(Clone, Copy, Debug, Drop)]
pub struct Fault<'a> {
    error: RunError,
    place: Option<Place<'a>>,
    cause: Option<io::Error>,
    /// How many entries a journal has that couldn't go on.
    kept: Option<u64>,
}

impl<'a> From<RunError> for Fault<'a> {
    fn from(error: RunError) -> Self {
        Fault {
            error,
            place: None,
            cause: None,
            kept: None,
        }
    }
}

impl<'a> From<StreamError> for Fault<'a> {
    fn from(error: StreamError) -> Self {
        Fault::from(RunError::from(error))
    }
}

impl<'a> Fault<'a> {
    /// Creates the fault of something that the system refused. If memory ran out, that is the error.
    pub fn refused(place: Place<'a>, cause: io::Error, error: RunError) -> Self {
        if cause.kind() == io::ErrorKind::OutOfMemory {
            return Fault::from(StreamError::Memory);
        }
        Fault {
            error,
            place: Some(place),
            cause: Some(cause),
            kept: None,
        }
    }

    /// Creates the fault of a journal that couldn't go on, with the number of its entries.
    pub fn lost(path: &'a str, cause: Option<io::Error>, error: RunError, kept: u64) -> Self {
        Fault {
            error,
            place: Some(Place::File(path)),
            cause,
            kept: Some(kept),
        }
    }

    /// Creates the fault of an error at a place. If memory ran out, no place is named.
    pub fn at(place: Place<'a>, error: RunError) -> Self {
        match error {
            RunError::Script(ScriptError::Memory) | RunError::Stream(StreamError::Memory) => {
                Fault::from(error)
            }
            _ => Fault {
                error,
                place: Some(place),
                cause: None,
                kept: None,
            },
        }
    }

    /// Returns whether a second line says what is at fault: always at a terminal, and elsewhere for secrets, journals, consoles and doors.
    fn has_second_line(&self, is_at_terminal: bool) -> bool {
        is_at_terminal
            || self.kept.is_some()
            || matches!(
                self.error,
                RunError::Secrets(_)
                    | RunError::Journal(_)
                    | RunError::Console(_)
                    | RunError::Doors(_)
            )
    }

    /// Prints the error on standard error, and in a second line what is at fault and why. What can't be written is lost.
    pub fn tell<R: Eprint>(&self, rt: &R, is_at_terminal: bool) {
        let _ = eprintln!(rt; "giveup: {}", self.error);
        if !self.has_second_line(is_at_terminal) {
            return;
        }
        let Some(place) = self.place else {
            return;
        };
        match (self.cause, self.kept) {
            (Some(cause), Some(kept)) => {
                let _ = eprintln!(rt; "giveup: {place}: {cause}; entries that it has: {kept}");
            }
            (None, Some(kept)) => {
                let _ = eprintln!(rt; "giveup: {place}: entries that it has: {kept}");
            }
            (Some(cause), None) => {
                let _ = eprintln!(rt; "giveup: {place}: {cause}");
            }
            (None, None) => {
                let _ = eprintln!(rt; "giveup: {place}: {}", InWords(self.error));
            }
        }
    }
}

/// The faults of a run, in the order in which they are printed.
#[derive(Clone, Copy, Debug, Drop)]
pub struct Faults<'a> {
    first: Fault<'a>,
    others: [Option<Fault<'a>>; 2],
}

impl<'a> From<Fault<'a>> for Faults<'a> {
    fn from(fault: Fault<'a>) -> Self {
        Faults {
            first: fault,
            others: [None, None],
        }
    }
}

impl<'a> Faults<'a> {
    /// Returns those of three possible faults that occurred, if any did.
    pub fn among(three: [Option<Fault<'a>>; 3]) -> Option<Self> {
        match three {
            [Some(first), second, third] => Some(Faults {
                first,
                others: [second, third],
            }),
            [None, Some(first), third] => Some(Faults {
                first,
                others: [third, None],
            }),
            [None, None, Some(first)] => Some(Faults::from(first)),
            [None, None, None] => None,
        }
    }

    /// Prints each on standard error.
    pub fn tell<R: Eprint>(&self, rt: &R, is_at_terminal: bool) {
        self.first.tell(rt, is_at_terminal);
        for fault in self.others.iter().flatten() {
            fault.tell(rt, is_at_terminal);
        }
    }
}
