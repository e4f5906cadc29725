//! The sample house, and what its operators ask besides the book.

use gu_book::Book;
use gu_console::{Office, Places};
use gu_desk::{FirmFilter, Origin};
use gu_houses::Informs;
use gu_posts::ConnectionStatus;
use gu_ref::Reference;
use gu_streams::CountedReads;
use gu_terms::{FirmId, Moment};
use std::alloc::{AllocError, Global};
use std::sync::atomic::{AtomicBool, AtomicU64, Ordering};

/// The rows of the sample.
const ROWS: &str = "\
FIRM,E1
FIRM,E2
FIRM,C1
FIRM,C2
GROUP,G1
GROUP,G2
INSTRUMENT,XF6,G1
INSTRUMENT,YF6,G2
ACCOUNT,H1,E1
ACCOUNT,H2,E2
ACCOUNT,A1,C1
ACCOUNT,A2,C1
ACCOUNT,A3,C2
AGREEMENT,P1,E1,A1
AGREEMENT,P2,E1,A2
AGREEMENT,P3,E2,A1
AGREEMENT,P4,E2,A3
";

/// Returns a book of the sample without entries.
pub fn book_of(alloc: Global) -> Option<Book> {
    let read = Reference::read(alloc, &mut CountedReads::new(ROWS.as_bytes()));
    Some(Book::new(alloc, read.ok()?))
}

/// An office with two connections, 4 of E1 and 5 that has no Logon yet.
#[derive(Drop)]
pub struct TestOffice {
    firms: [FirmId; 1],
    is_closing: AtomicBool,
    /// Whether the day is in a log.
    is_in_log: AtomicBool,
}

/// The moment at which the connections are shown.
const NOW: u64 = 1_000_000;

/// The connections that are shown.
const CONNECTIONS: [ConnectionStatus; 2] = [
    ConnectionStatus {
        number: 4,
        firm: 1,
        port: 50_514,
        since: NOW - 61_034,
        heard: NOW - 120,
        expected: 17,
        next: 20,
        bytes_in: 1_234,
        bytes_out: 2_345,
        held: 0,
    },
    ConnectionStatus {
        number: 5,
        firm: 0,
        port: 50_515,
        since: NOW - 7,
        heard: NOW + 1,
        expected: 1,
        next: 1,
        bytes_in: 0,
        bytes_out: 0,
        held: 18,
    },
];

impl TestOffice {
    /// Creates the office of an open day, which is in no log.
    pub fn new() -> Option<Self> {
        Some(TestOffice {
            firms: [FirmId::new(b"E1")?],
            is_closing: AtomicBool::new(false),
            is_in_log: AtomicBool::new(false),
        })
    }

    /// Puts the day in a log, which the desk leads.
    pub fn put_in_log(&self) {
        self.is_in_log.store(true, Ordering::SeqCst);
    }
}

impl Office for TestOffice {
    fn connections(&self, alloc: Global) -> Result<Vec<ConnectionStatus>, AllocError> {
        Vec::from_slice(alloc, &CONNECTIONS)
    }

    fn places(&self) -> Places {
        Places {
            now: 2,
            most: 8,
            all: 5,
        }
    }

    fn firms(&self) -> &[FirmId] {
        &self.firms
    }

    fn now(&self) -> Option<Moment> {
        Moment::new(NOW)
    }

    fn cut(&self, number: u64) -> bool {
        number == 4 || number == 5
    }

    fn close(&self) -> bool {
        !self.is_closing.swap(true, Ordering::SeqCst)
    }

    fn is_closing(&self) -> bool {
        self.is_closing.load(Ordering::SeqCst)
    }

    fn leads_log(&self) -> bool {
        self.is_in_log.load(Ordering::SeqCst)
    }
}

/// Counts the entries that others receive, and those of them that an operator made at this office's moment, and keeps the number of the
/// last.
#[derive(Drop)]
pub struct Heard {
    entries: AtomicU64,
    own: AtomicU64,
    last: AtomicU64,
}

impl Heard {
    /// Creates one that has received nothing yet.
    pub fn new() -> Self {
        Heard {
            entries: AtomicU64::new(0),
            own: AtomicU64::new(0),
            last: AtomicU64::new(0),
        }
    }

    /// Returns how many entries were received, and the number of the last.
    pub fn counts(&self) -> (u64, u64) {
        (
            self.entries.load(Ordering::SeqCst),
            self.last.load(Ordering::SeqCst),
        )
    }

    /// Returns how many of them were an operator's, made at the office's moment.
    pub fn own(&self) -> u64 {
        self.own.load(Ordering::SeqCst)
    }
}

impl Informs for Heard {
    fn inform(&self, number: u64, _firms: FirmFilter, origin: Origin) {
        let _ = self.entries.fetch_add(1, Ordering::SeqCst);
        if origin.message.is_none() && origin.moment.get() == NOW {
            let _ = self.own.fetch_add(1, Ordering::SeqCst);
        }
        self.last.store(number, Ordering::SeqCst);
    }
}
