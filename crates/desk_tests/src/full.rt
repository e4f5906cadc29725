//! Desks over books that have room for one entry.

use crate::opening::{DeskDay, closed, open_and_spend};
use crate::sample::{book_of, command_of};
use crate::transcript::follow;
use gu_book::Book;
use gu_desk::{AuditFault, Desk, EntryLedger, LotLedger, Seat, audit};
use std::alloc::Global;
use std::process::Abort;
use std::sync::Wait;
use std::thread::Threads;

/// A command is the last entry. Then nothing is entered, and queries are answered as before.
const A_COMMAND_IS_LAST: &str = "\
DAY 20260105 = 1000000 NO 2 WrongDay
DAY 20260106 = Full
CLAIM C1 1 = Full
SWEEP G1 = Full
SWEEP G9 = UnknownGroup
VIEW G1 = VERSION 1
SEE 0 G1 = VERSION 1
NOTICES C1 1 = NOTICES 0 NEXT 1000001
STRETCH C1 1 = NOTICES 0 NEXT 1025 MORE
STRETCH C1 998976 = NOTICES 0 NEXT 1000000 MORE
STRETCH C1 998977 = NOTICES 0 NEXT 1000001 LAST
STRETCH C1 1000001 = NOTICES 0 NEXT 1000001 LAST
STRETCH C1 1000002 = NOTICES 0 NEXT 1000002 LAST
INTEREST XF6 = LOTS 0
";

/// A sweep is the last entry.
const A_SWEEP_IS_LAST: &str = "\
SWEEP G1 = 1000000 SWEPT 0
SWEEP G1 = Full
DAY 20260106 = Full
VIEW G1 = VERSION 2
";

/// The last entries.
#[derive(Clone, Copy)]
enum Last {
    Command,
    Sweep,
}

impl Last {
    /// Returns the lines that enter it, and what is answered then.
    fn lines(self) -> &'static str {
        match self {
            Last::Command => A_COMMAND_IS_LAST,
            Last::Sweep => A_SWEEP_IS_LAST,
        }
    }

    /// Returns the line that is refused to a seat which has seen one entry less, and sees then that the book is full.
    fn refused(self) -> &'static str {
        match self {
            Last::Command => "DAY 20260106 = Full",
            Last::Sweep => "SWEEP G1 = Full",
        }
    }
}

/// Returns a book with 999,999 entries: a day, and then the same day again and again.
fn almost_full(rt: &impl Abort, alloc: Global) -> Book {
    let mut book = book_of(alloc).expect(rt, "a book");
    let day = command_of(alloc, "DAY 20260105").expect(rt, "a command");
    for _ in 0..999_999 {
        let _ = book.reply_to(&day);
    }
    assert_eq!(rt; book.history().len(), 999_999);
    book
}

impl DeskDay for Last {
    fn spend<
        E: EntryLedger + Send + Sync,
        S: LotLedger + Send + Sync,
        R: Threads + Wait + Abort + Sync,
    >(self, rt: &R, alloc: Global, desk: Desk<E, S>, mut seats: Vec<Seat<E, S>>) {
        let mut seat = seats.pop().expect(rt, "a seat");
        let mut other = seats.pop().expect(rt, "another seat");
        follow(rt, alloc, &desk, &mut seat, self.lines());
        assert_eq!(rt; (seat.seen(), other.seen()), (1_000_000, 999_999));
        follow(rt, alloc, &desk, &mut other, self.refused());
        assert_eq!(rt; other.seen(), 1_000_000);
        assert!(rt; seats.push(other).is_ok());
        let book = closed(rt, desk, seats, seat);
        assert_eq!(rt; book.history().len(), 1_000_000);
        assert_eq!(rt; audit(alloc, &book, &[]), Err(AuditFault::Unclaimed(1)));
    }
}

#[test]
fn a_desk_over_a_full_book_enters_nothing(rt: HostRuntime) {
    for last in [Last::Command, Last::Sweep] {
        let book = almost_full(&rt, rt.alloc());
        open_and_spend(&rt, rt.alloc(), book, 2, last);
    }
}
