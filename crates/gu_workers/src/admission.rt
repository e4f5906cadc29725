//! What a worker asks and reports about the connections that it serves.

use gu_log::{EndCause, LogonFault, Refusal};
use gu_terms::FirmId;

/// Decides who may be connected, and is informed of connections, by their numbers.
pub trait Admission {
    /// A connection begins.
    fn begin(&self);

    /// A connection is closed silently, since there is no place for it.
    fn turn_away(&self, number: u64, reason: Refusal);

    /// The firm of a connection has logged on. Returns whether the firm may have one more place.
    fn admit(&self, number: u64, firm: &FirmId) -> bool;

    /// Nobody can log on by a connection: its first message names this firm, or none, and has this fault.
    fn refuse(&self, number: u64, firm: Option<FirmId>, fault: LogonFault);

    /// The session of a firm that was admitted is over, or its connection has ended.
    fn release(&self, firm: &FirmId);

    /// A connection ends. The firm is the one that was admitted, if one was.
    fn end(&self, number: u64, firm: Option<FirmId>, cause: EndCause);
}
