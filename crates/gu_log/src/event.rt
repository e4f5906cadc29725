//! The events of a day that the log reports.

use gu_terms::{Day, FirmId, Group};
use std::io;
use std::io::ErrorKind;

/// A way in for connections.
#[derive(Clone, Copy, Debug)]
pub enum Listener<'a> {
    /// The port of this number.
    Port(u16),
    /// The doors of firms in a folder, this many.
    Doors { folder: &'a str, doors: usize },
    /// The operators' socket at a path.
    Console(&'a str),
    /// The socket at a path, for those who may only look.
    Watch(&'a str),
}

/// The way by which a firm came in.
#[derive(Clone, Copy, Debug, PartialEq, Eq)]
pub enum Way {
    /// By the port, from this port of its own.
    Port(u16),
    /// By the door of this firm.
    Door(FirmId),
}

/// Why a connection wasn't let in.
#[derive(Clone, Copy, Debug, PartialEq, Eq)]
pub enum Refusal {
    /// All places are taken.
    Full,
    /// The day is being closed.
    Closing,
}

/// What was wrong with a connection's first message.
#[derive(Clone, Copy, Debug, PartialEq, Eq)]
pub enum LogonFault {
    /// MsgType (35): the first message is no Logon.
    NotALogon,
    /// SenderCompID (49).
    Sender,
    /// TargetCompID (56).
    Target,
    /// MsgSeqNum (34).
    Number,
    /// EncryptMethod (98).
    Encryption,
    /// HeartBtInt (108).
    Heartbeat,
    /// DefaultApplVerID (1137).
    Version,
    /// Another field, by its tag.
    Other(u32),
    /// Password (554).
    Secret,
    /// Its firm isn't the door's.
    Door,
    /// Its firm has all the places that it may have.
    Places,
    /// It is longer than what may be held of it.
    TooLong,
}

/// Why a connection ended.
#[derive(Clone, Copy, Debug, PartialEq, Eq)]
pub enum EndCause {
    /// The session was over, and its peer closed.
    Done,
    /// The session was over, and its peer didn't close.
    HungUp,
    /// An operator cut it.
    Cut,
    /// It hadn't ended within the time that the day's close gives.
    Closing,
    /// Its answers weren't read within their time.
    Silent,
    /// No Logon came within its time.
    NoLogon,
    /// A read or a write failed.
    Stream,
    /// An allocation failed.
    Memory,
    /// The worker or the journal can't go on.
    Stopped,
    /// It wasn't let in.
    Refused,
}

/// Why no connection is accepted for now.
#[derive(Clone, Copy, Debug, PartialEq, Eq)]
pub enum AcceptFault {
    /// An allocation failed.
    Memory,
    /// No thread could be started.
    Threads,
    /// The system refused, with this number of its own, if it gave one.
    System(Option<i32>),
}

impl AcceptFault {
    /// Returns what an error of an accept means.
    pub fn of(error: &io::Error) -> Self {
        if error.kind() == ErrorKind::OutOfMemory {
            AcceptFault::Memory
        } else {
            AcceptFault::System(error.raw_os_error())
        }
    }
}

/// Why a sweep was left out.
#[derive(Clone, Copy, Debug, PartialEq, Eq)]
pub enum SweepFault {
    /// Its group changed at each try.
    Stale,
    /// The book has all the entries that it may have.
    Full,
    /// The reference has no such group.
    UnknownGroup,
    /// An allocation failed.
    Memory,
    /// The clock failed.
    Clock,
}

/// A sweep that was committed.
#[derive(Clone, Copy, Debug)]
pub struct CommittedSweep {
    pub group: Group,
    /// The number of its entry.
    pub entry: u64,
    /// How many lots it took.
    pub lots: u64,
    /// How often it was proposed: more than once if its group changed meanwhile.
    pub tries: u64,
}

/// An event that is logged before the log's thread begins.
#[derive(Clone, Copy, Debug)]
pub enum Beginning<'a> {
    /// The day is open, with this many entries.
    DayOpened {
        reference: &'a str,
        day: Option<Day>,
        entries: u64,
        journal: Option<&'a str>,
    },
    /// Connections come in here from now on.
    Listening(Listener<'a>),
    /// There are neither doors nor secrets.
    AnyFirm,
}

/// An event that is logged while the day goes on.
#[derive(Clone, Copy, Debug)]
pub enum Event {
    /// A connection was let in.
    Accepted {
        number: u64,
        way: Way,
    },
    /// A connection was closed at once.
    Refused {
        number: u64,
        reason: Refusal,
    },
    /// A firm has logged on.
    LoggedOn {
        number: u64,
        firm: FirmId,
    },
    /// A firm couldn't log on.
    LogonRefused {
        number: u64,
        firm: Option<FirmId>,
        fault: LogonFault,
    },
    /// A connection has ended.
    Ended {
        number: u64,
        firm: Option<FirmId>,
        cause: EndCause,
    },
    /// No connection is accepted for now.
    AcceptingPaused {
        reason: AcceptFault,
    },
    /// Connections are accepted again.
    AcceptingResumed,
    /// A sweep was committed.
    Swept(CommittedSweep),
    /// A sweep was left out.
    SweepLeft {
        group: Group,
        reason: SweepFault,
    },
    /// The book has this many entries, so it will be full before long.
    BookFilling {
        entries: u64,
    },
    /// An operator entered the entry of this number.
    OperatorEntered {
        entry: u64,
    },
    /// An operator cut a connection.
    OperatorCut {
        number: u64,
    },
    /// The journal is this far behind the book.
    JournalBehind {
        ms: u64,
        entries: u64,
    },
    /// The journal failed, and keeps this many entries.
    JournalLost {
        kept: u64,
    },
    /// A firm has made its share of the entries, or of a group's open offers.
    ShareFull {
        number: u64,
        firm: FirmId,
        is_of_entries: bool,
    },
    /// Nothing was entered for a firm, since an allocation failed.
    MemoryRefused {
        number: u64,
        firm: FirmId,
    },
    /// The day is being closed.
    DayClosing,
    /// The day is closed, with this many entries and lots that were swept.
    DayClosed {
        entries: u64,
        lots: u64,
        is_audited: bool,
    },
}
