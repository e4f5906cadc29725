//! A seat at a desk as a house: others learn of each entry that a message asks for, and from which message it is.

use crate::books::sample;
use crate::desks::{Asking, open_and_ask};
use gu_book::Book;
use gu_desk::{Desk, EntryLedger, FirmFilter, FirmMessage, LotLedger, Origin};
use gu_engine::{Ask, House};
use gu_houses::{AtDesk, DeskAccess, DeskTools, Informs, OpenOrders, Orders, SeatReceipts, Tally};
use gu_msgs::Request;
use gu_terms::{AccountId, FirmId, Moment, Query};
use gu_text::Line;
use gu_world::Step;
use std::alloc::Global;
use std::process::Abort;
use std::sync::{Mutex, Wait};

/// The last entry that others received: its number, and who made it.
#[derive(Drop)]
struct Heard {
    last: Mutex<Option<(u64, Origin)>>,
}

impl Heard {
    /// Returns what was received since the last call, if anything was.
    fn take(&self) -> Option<(u64, Origin)> {
        let mut last = self.last.try_lock()?;
        let heard = *last;
        *last = None;
        heard
    }
}

impl Informs for Heard {
    fn inform(&self, number: u64, _firms: FirmFilter, origin: Origin) {
        if let Some(mut last) = self.last.try_lock() {
            *last = Some((number, origin));
        }
    }
}

/// A message of E1: its connection, its MsgSeqNum (34), its moment, and what it asks for. A line that is none asks for positions.
const MESSAGES: &[(u64, u64, u64, &str)] = &[
    (7, 2, 1_000, "DAY 20260105"),
    (7, 3, 1_000, "CLAIM C1 1"),
    (7, 4, 1_001, "?"),
    (9, 2, 1_002, "LIMIT G1 EXEC E1 10"),
    (9, 3, 1_002, "?"),
    (7, 5, 1_003, "DAY 20260105"),
];

/// Returns what a line asks for.
fn request_of(alloc: Global, line: &str) -> Option<Request> {
    match Line::read(alloc, line.as_bytes(), 1) {
        Ok(Some(Line::Step(Step::Enter(command)))) => Some(Request::Enter(command)),
        _ => Some(Request::Ask(Query::Positions {
            firm: FirmId::new(b"C1")?,
            account: AccountId::new(b"A1")?,
        })),
    }
}

/// Returns the firm that sends the messages.
fn sender(rt: &impl Abort) -> FirmId {
    FirmId::new(b"E1").expect(rt, "a firm")
}

/// Returns a moment of the day of this number.
fn moment_of(rt: &impl Abort, number: u64) -> Moment {
    Moment::new(number).expect(rt, "a moment")
}

/// Returns the origin of a message.
fn origin_of(rt: &impl Abort, connection: u64, number: u64, moment: u64) -> Origin {
    Origin {
        moment: moment_of(rt, moment),
        message: Some(FirmMessage {
            firm: sender(rt),
            connection,
            number,
        }),
    }
}

/// Asks a house for a message. Returns whether it enters something.
fn ask_for<E: EntryLedger, S: LotLedger, R: Wait + Abort>(
    rt: &R,
    alloc: Global,
    house: &mut AtDesk<'_, '_, E, S, R, Heard>,
    message: (u64, u64, u64, &str),
) -> bool {
    let (connection, number, moment, line) = message;
    let request = request_of(alloc, line).expect(rt, "a request");
    let enters = matches!(request, Request::Enter(_));
    house.resume(connection, 0);
    let ask = Ask {
        firm: sender(rt),
        number,
        now: moment_of(rt, moment),
        request,
    };
    assert!(rt; house.answer(ask, 1).is_ok(), "{line}");
    enters
}

/// Asks a house for each message, and compares what others learn with what was asked.
fn ask_all<E: EntryLedger, S: LotLedger, R: Wait + Abort>(
    rt: &R,
    alloc: Global,
    house: &mut AtDesk<'_, '_, E, S, R, Heard>,
    heard: &Heard,
) {
    let mut entries: u64 = 0;
    for &(connection, number, moment, line) in MESSAGES {
        let mut entered = None;
        if ask_for(rt, alloc, house, (connection, number, moment, line)) {
            entries = entries.saturating_add(1);
            entered = Some((entries, origin_of(rt, connection, number, moment)));
        }
        assert_eq!(rt; heard.take(), entered, "{connection} {number}");
        assert_eq!(rt; house.seen(), entries, "{line}");
    }
}

/// The messages, from the seat of a desk.
#[derive(Drop)]
struct EachMessage;

impl Asking for EachMessage {
    fn ask<E: EntryLedger, S: LotLedger, R: Wait + Abort>(
        self,
        rt: &R,
        alloc: Global,
        desk: &Desk<E, S>,
        mut seats: Vec<SeatReceipts<E, S>>,
    ) {
        let (to, from) = crossbeam_channel::unbounded(alloc)
            .ok()
            .expect(rt, "memory");
        let open = OpenOrders::new(alloc, &[]).ok().expect(rt, "memory");
        let tally = Tally::new();
        let heard = Heard {
            last: Mutex::new(None),
        };
        let seat = seats.pop().expect(rt, "a seat");
        let orders = Orders::new(&to, &open, 0);
        let tools = DeskTools {
            access: DeskAccess { rt, desk },
            tally: &tally,
            informs: &heard,
        };
        let mut house = AtDesk::new(tools, seat, orders);
        ask_all(rt, alloc, &mut house, &heard);
        assert_eq!(rt; house.into_seat().seen(), 4);
        drop(from);
    }
}

#[test]
fn others_hear_which_message_made_an_entry(rt: HostRuntime) {
    let book = Book::new(rt.alloc(), sample(rt.alloc()).expect(&rt, "the sample"));
    open_and_ask(&rt, rt.alloc(), book, 1, EachMessage);
}
