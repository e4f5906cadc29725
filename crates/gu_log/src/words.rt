//! The log's words for faults, ends and causes.

use crate::event::{EndCause, LogonFault, Refusal, SweepFault};

impl Refusal {
    /// Returns its word.
    pub(crate) fn word(self) -> &'static [u8] {
        match self {
            Refusal::Full => b"full",
            Refusal::Closing => b"closing",
        }
    }
}

impl LogonFault {
    /// Returns its word: the name of the wrong field, if that field has a name.
    pub(crate) fn word(self) -> &'static [u8] {
        match self {
            LogonFault::NotALogon => b"not-a-logon",
            LogonFault::Sender => b"SenderCompID",
            LogonFault::Target => b"TargetCompID",
            LogonFault::Number => b"MsgSeqNum",
            LogonFault::Encryption => b"EncryptMethod",
            LogonFault::Heartbeat => b"HeartBtInt",
            LogonFault::Version => b"DefaultApplVerID",
            LogonFault::Other(_) => b"field",
            LogonFault::Secret => b"Password",
            LogonFault::Door => b"door",
            LogonFault::Places => b"places",
            LogonFault::TooLong => b"too-long",
        }
    }

    /// Returns the tag of the wrong field, if it is known.
    pub(crate) fn tag(self) -> Option<u64> {
        match self {
            LogonFault::NotALogon => Some(35),
            LogonFault::Sender => Some(49),
            LogonFault::Target => Some(56),
            LogonFault::Number => Some(34),
            LogonFault::Encryption => Some(98),
            LogonFault::Heartbeat => Some(108),
            LogonFault::Version => Some(1137),
            LogonFault::Other(tag) => Some(u64::from(tag)),
            LogonFault::Secret => Some(554),
            LogonFault::Door | LogonFault::Places | LogonFault::TooLong => None,
        }
    }
}

impl EndCause {
    /// Returns its word.
    pub(crate) fn word(self) -> &'static [u8] {
        match self {
            EndCause::Done => b"done",
            EndCause::HungUp => b"hung-up",
            EndCause::Cut => b"cut",
            EndCause::Closing => b"closing",
            EndCause::Silent => b"not-reading",
            EndCause::NoLogon => b"no-logon",
            EndCause::Stream => b"stream",
            EndCause::Memory => b"memory",
            EndCause::Stopped => b"stopped",
            EndCause::Refused => b"refused",
        }
    }
}

impl SweepFault {
    /// Returns its word.
    pub(crate) fn word(self) -> &'static [u8] {
        match self {
            SweepFault::Stale => b"stale",
            SweepFault::Full => b"full",
            SweepFault::UnknownGroup => b"unknown-group",
            SweepFault::Memory => b"memory",
            SweepFault::Clock => b"clock",
        }
    }
}
