//! The origin of an entry: who made it, and when.
use gu_terms::{FirmId, Moment};

/// A message of a firm: its connection, and its MsgSeqNum (34).
#[derive(Clone, Copy, Debug, PartialEq, Eq)]
pub struct FirmMessage {
    pub firm: FirmId,
    pub connection: u64,
    pub number: u64,
}

/// The origin of an entry: a message of a firm, or else the desk's own people or sweepers; and when it was made.
#[derive(Clone, Copy, Debug, PartialEq, Eq)]
pub struct Origin {
    pub moment: Moment,
    pub message: Option<FirmMessage>,
}
