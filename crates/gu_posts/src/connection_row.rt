//! The status of a connection.

use std::sync::atomic::{AtomicBool, AtomicU64, Ordering};

/// The status of a connection. Its numbers are read one after another, while its worker may write them.
#[derive(Clone, Copy, Debug, PartialEq, Eq)]
pub struct ConnectionStatus {
    /// The number of the connection.
    pub number: u64,
    /// The place of its firm in the reference's list, from 1 on; 0 before its Logon.
    pub firm: u64,
    /// The port of its peer.
    pub port: u64,
    /// The moment at which it came.
    pub since: u64,
    /// The moment at which bytes came last.
    pub heard: u64,
    /// The MsgSeqNum (34) that the firm's next message is to have.
    pub expected: u64,
    /// The MsgSeqNum (34) of the next message to send.
    pub next: u64,
    /// How many bytes were read.
    pub bytes_in: u64,
    /// How many bytes were written.
    pub bytes_out: u64,
    /// How many bytes of answers are held.
    pub held: u64,
}

/// The status of the connection at a place, which only its worker writes.
#[derive(Drop)]
pub struct ConnectionRow {
    number: AtomicU64,
    firm: AtomicU64,
    port: AtomicU64,
    since: AtomicU64,
    heard: AtomicU64,
    expected: AtomicU64,
    next: AtomicU64,
    bytes_in: AtomicU64,
    bytes_out: AtomicU64,
    held: AtomicU64,
    /// Whether the connection is to be dropped.
    is_cut: AtomicBool,
}

impl ConnectionRow {
    /// Creates the row of a place that is free.
    pub fn new() -> Self {
        ConnectionRow {
            number: AtomicU64::new(0),
            firm: AtomicU64::new(0),
            port: AtomicU64::new(0),
            since: AtomicU64::new(0),
            heard: AtomicU64::new(0),
            expected: AtomicU64::new(0),
            next: AtomicU64::new(0),
            bytes_in: AtomicU64::new(0),
            bytes_out: AtomicU64::new(0),
            held: AtomicU64::new(0),
            is_cut: AtomicBool::new(false),
        }
    }

    /// Shows the connection as it is now.
    pub fn write(&self, status: &ConnectionStatus) {
        self.firm.store(status.firm, Ordering::SeqCst);
        self.port.store(status.port, Ordering::SeqCst);
        self.since.store(status.since, Ordering::SeqCst);
        self.heard.store(status.heard, Ordering::SeqCst);
        self.expected.store(status.expected, Ordering::SeqCst);
        self.next.store(status.next, Ordering::SeqCst);
        self.bytes_in.store(status.bytes_in, Ordering::SeqCst);
        self.bytes_out.store(status.bytes_out, Ordering::SeqCst);
        self.held.store(status.held, Ordering::SeqCst);
        self.number.store(status.number, Ordering::SeqCst);
    }

    /// Shows that the place is free.
    pub fn clear(&self) {
        self.number.store(0, Ordering::SeqCst);
        self.is_cut.store(false, Ordering::SeqCst);
    }

    /// Returns the status, unless the place is free.
    pub fn read(&self) -> Option<ConnectionStatus> {
        let number = self.number.load(Ordering::SeqCst);
        if number == 0 {
            return None;
        }
        Some(ConnectionStatus {
            number,
            firm: self.firm.load(Ordering::SeqCst),
            port: self.port.load(Ordering::SeqCst),
            since: self.since.load(Ordering::SeqCst),
            heard: self.heard.load(Ordering::SeqCst),
            expected: self.expected.load(Ordering::SeqCst),
            next: self.next.load(Ordering::SeqCst),
            bytes_in: self.bytes_in.load(Ordering::SeqCst),
            bytes_out: self.bytes_out.load(Ordering::SeqCst),
            held: self.held.load(Ordering::SeqCst),
        })
    }

    /// Marks the connection of this number, if it is here, and returns whether it is.
    pub fn cut(&self, number: u64) -> bool {
        let is_here = number != 0 && self.number.load(Ordering::SeqCst) == number;
        if is_here {
            self.is_cut.store(true, Ordering::SeqCst);
        }
        is_here
    }

    /// Returns whether the connection was marked.
    pub fn is_cut(&self) -> bool {
        self.is_cut.load(Ordering::SeqCst)
    }
}
