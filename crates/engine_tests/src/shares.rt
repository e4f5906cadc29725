//! A seat at a desk whose firms have shares: what goes past a firm's share isn't entered, and fails as at a full book.

use crate::books::book_after;
use crate::desks::{Asking, open_and_ask};
use gu_book::Book;
use gu_desk::{Desk, Direct, EntryLedger, FirmFilter, LotLedger, Origin};
use gu_engine::{Ask, House};
use gu_houses::{
    AtDesk, DeskAccess, DeskTools, Informs, OpenOrders, Orders, Part, Quota, SeatReceipts, Shares,
    Tally, WithinShares,
};
use gu_msgs::Request;
use gu_session::{Failure, Outcome};
use gu_terms::{AccountId, Done, FirmId, Group, Moment, Query, Reply};
use gu_text::Line;
use gu_world::Step;
use std::alloc::Global;
use std::process::Abort;
use std::sync::Wait;

/// Nobody receives entries.
#[derive(Drop)]
struct Nobody;

impl Informs for Nobody {
    fn inform(&self, _number: u64, _firms: FirmFilter, _origin: Origin) {}
}

/// A trade in each group, limits on the path of P1 in G1, and an offer that no session made.
const SCRIPT: &str =
    "DAY 20260105/LIMIT G1 EXEC E1 100/LIMIT G1 AGR P1 100/LIMIT G1 ACCT A1 100/LIMIT G1 CARRY C1 100/REPORT E1 R1 M1 B XF6 50 101.5 H1/REPORT E2 R2 M1 S XF6 50 101.5 H2/REPORT E1 R3 M3 B YF6 50 101.5 H1/REPORT E2 R4 M3 S YF6 50 101.5 H2/GIVEUP E1 L0 R1 A1 1/";

/// Each firm makes so much at most.
const QUOTA: Quota = Quota {
    entries: 13,
    offers: 2,
};

/// Who asks for what, and the outcome. `SWEEP` is done at another seat, and a line that is none asks for positions.
const MESSAGES: &[(&str, &str, &str)] = &[
    ("E1", "GIVEUP E1 L1 R1 A1 4", "offered"),
    // Two offers more would be three. What isn't entered isn't counted.
    ("E1", "GIVEUP E1 L2 R1 A1 4 A2 1", "full of offers"),
    ("E1", "GIVEUP E1 L3 R1 A1 4", "offered"),
    ("E1", "GIVEUP E1 L4 R1 A1 4", "full of offers"),
    ("E1", "GIVEUP E1 L4 R1 A1 4", "full"),
    // Each group has its own part, and so has each firm.
    ("E1", "GIVEUP E1 L4 R3 A1 4", "offered"),
    ("E2", "GIVEUP E2 L1 R2 A1 4", "offered"),
    // What the book denies is an entry.
    ("E1", "GIVEUP E1 L5 R9 A1 4", "denied"),
    // An offer of its own that is claimed, refused or swept makes room for another one.
    ("C1", "CLAIM C1 2", "done"),
    ("E1", "GIVEUP E1 L6 R1 A1 4", "offered"),
    ("E1", "GIVEUP E1 L7 R1 A1 4", "full of offers"),
    ("C1", "REFUSE C1 3 1", "done"),
    ("E1", "GIVEUP E1 L7 R1 A1 4", "offered"),
    ("E1", "GIVEUP E1 L8 R1 A1 4", "full of offers"),
    ("C1", "CLAIM C1 6", "done"),
    ("E1", "GIVEUP E1 L8 R1 A1 4", "offered"),
    ("E1", "GIVEUP E1 L9 R1 A1 4", "full of offers"),
    // Offers 7 and 8, and offer 1, which no session made.
    ("", "SWEEP G1", "9"),
    ("E1", "GIVEUP E1 L9 R1 A1 4 A2 4", "offered"),
    // Another firm's claims of what isn't its own make no room.
    ("E1", "GIVEUP E1 LA R1 A1 4", "full of offers"),
    ("C2", "CLAIM C2 9", "denied"),
    ("E1", "GIVEUP E1 LA R1 A1 4", "full"),
    // Questions aren't counted, and other commands are.
    ("C1", "?", "positions"),
    ("E1", "REPORT E1 R5 M5 B XF6 1 101.5 H1", "done"),
    ("E1", "REPORT E1 R5 M5 B XF6 1 101.5 H1", "denied"),
    ("E1", "CLAIM E1 9", "denied"),
    ("E1", "CLAIM E1 9", "denied"),
    ("E1", "CLAIM E1 9", "denied"),
    ("E1", "CLAIM E1 9", "full of entries"),
    ("E1", "REPORT E1 R6 M6 B XF6 1 101.5 H1", "full"),
    ("E1", "GIVEUP E1 LA R1 A1 4", "full"),
    ("E1", "?", "positions"),
    ("C1", "CLAIM C1 9", "done"),
    ("E1", "GIVEUP E1 LA R1 A1 4", "full"),
    ("E2", "CLAIM E2 9", "denied"),
];

/// Returns what a line asks for.
fn request_of(alloc: Global, line: &str) -> Option<Request> {
    match Line::read(alloc, line.as_bytes(), 1) {
        Ok(Some(Line::Step(Step::Enter(command)))) => Some(Request::Enter(command)),
        _ => Some(Request::Ask(Query::Positions {
            firm: FirmId::new(b"C1")?,
            account: AccountId::new(b"A1")?,
        })),
    }
}

/// Returns what became of it, as a word.
fn word_of(outcome: &Outcome, full: Option<Part>) -> &'static str {
    match (outcome, full) {
        (Outcome::Replied(Reply::Accepted(Done::Offered { .. })), None) => "offered",
        (Outcome::Replied(Reply::Accepted(_)), None) => "done",
        (Outcome::Replied(Reply::Denied(_)), None) => "denied",
        (Outcome::Positions(_), None) => "positions",
        (Outcome::Failed(Failure::Memory), None) => "memory",
        (Outcome::Failed(Failure::Full), None) => "full",
        (Outcome::Failed(Failure::Full), Some(Part::Offers)) => "full of offers",
        (Outcome::Failed(Failure::Full), Some(Part::Entries)) => "full of entries",
        _ => "something else",
    }
}

/// Asks a house for a line of a firm, and returns what became of it.
fn asked<E: EntryLedger, S: LotLedger, R: Wait + Abort>(
    rt: &R,
    alloc: Global,
    house: &mut WithinShares<'_, '_, E, S, R, Nobody>,
    firm: &str,
    line: &str,
) -> &'static str {
    let ask = Ask {
        firm: FirmId::new(firm.as_bytes()).expect(rt, "a firm"),
        number: 2,
        now: Moment::new(0).expect(rt, "a moment"),
        request: request_of(alloc, line).expect(rt, "a request"),
    };
    let answered = house.answer(ask, 1).ok().expect(rt, "an answer");
    word_of(&answered.outcome, house.take_full())
}

/// Sweeps G1 at a seat, and compares the lots.
fn sweep<E: EntryLedger, S: LotLedger, R: Wait + Abort>(
    rt: &R,
    desk: &Desk<E, S>,
    sweeper: &mut SeatReceipts<E, S>,
    want: &str,
) {
    let group = Group::new(b"G1").expect(rt, "a group");
    let swept = sweeper.sweep(&DeskAccess { rt, desk }, group, &Direct);
    let lots = swept.ok().expect(rt, "a sweep").lots;
    assert_eq!(rt; Some(lots), want.parse::<u64>().ok(), "a sweep");
}

/// Asks a house for each message, and sweeps at another seat.
fn ask_all<E: EntryLedger, S: LotLedger, R: Wait + Abort>(
    rt: &R,
    alloc: Global,
    desk: &Desk<E, S>,
    house: &mut WithinShares<'_, '_, E, S, R, Nobody>,
    sweeper: &mut SeatReceipts<E, S>,
) {
    for &(firm, line, want) in MESSAGES {
        if line.starts_with("SWEEP") {
            sweep(rt, desk, sweeper, want);
        } else {
            let word = asked(rt, alloc, house, firm, line);
            assert_eq!(rt; word, want, "{firm} {line}");
        }
    }
}

/// The messages, from a seat whose firms have these shares.
#[derive(Drop)]
struct EachWithin {
    shares: Shares,
}

impl Asking for EachWithin {
    fn ask<E: EntryLedger, S: LotLedger, R: Wait + Abort>(
        self,
        rt: &R,
        alloc: Global,
        desk: &Desk<E, S>,
        mut seats: Vec<SeatReceipts<E, S>>,
    ) {
        let (to, from) = crossbeam_channel::unbounded(alloc)
            .ok()
            .expect(rt, "memory");
        let open = OpenOrders::new(alloc, &[]).ok().expect(rt, "memory");
        let tally = Tally::new();
        let seat = seats.pop().expect(rt, "a seat");
        let mut sweeper = seats.pop().expect(rt, "a seat");
        let orders = Orders::new(&to, &open, 0);
        let nobody = Nobody;
        let tools = DeskTools {
            access: DeskAccess { rt, desk },
            tally: &tally,
            informs: &nobody,
        };
        let house = AtDesk::new(tools, seat, orders);
        let mut house = WithinShares::new(house, Some(&self.shares));
        ask_all(rt, alloc, desk, &mut house, &mut sweeper);
        drop(house);
        drop(from);
    }
}

/// Returns the book with which the desk begins.
fn begun(rt: &impl Abort, alloc: Global) -> Book {
    book_after(alloc, SCRIPT).ok().expect(rt, "a book")
}

#[test]
fn what_goes_past_a_firms_share_is_not_entered(rt: HostRuntime) {
    let book = begun(&rt, rt.alloc());
    let shares = Shares::new(rt.alloc(), book.reference().firms(), QUOTA);
    let shares = shares.ok().expect(&rt, "shares");
    open_and_ask(&rt, rt.alloc(), book, 2, EachWithin { shares });
}

/// Percentages, and what a firm makes at most of the entries for which a book of ten has room, and of a group's open offers.
const PARTS: &[(u16, u64, u64)] = &[
    (1, 9_999, 40),
    (33, 329_996, 1_351),
    (50, 499_995, 2_048),
    (99, 989_990, 4_055),
    (100, 999_990, 4_096),
];

#[test]
fn a_share_is_a_part_of_what_is_left(rt: HostRuntime) {
    let book = begun(&rt, rt.alloc());
    for &(percent, entries, offers) in PARTS {
        let quota = Quota::of(percent, &book);
        assert_eq!(rt;
            (quota.entries, quota.offers),
            (entries, offers),
            "{percent}"
        );
    }
}
