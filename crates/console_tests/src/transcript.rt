//! Transcripts of three operators at one desk. A line after `> ` is one of the first operator, after `+ ` one of the second, and after
//! `? ` one of a third that only watches. Below each are the lines of its answer, with `.` for the empty one. After `- ` is a line of the
//! second operator whose answer isn't compared, `! ` begins the next connection of the first, and `@ ` puts the day in a log.

ghost use Rattle.std.specs.Prelude.{◌≡◌};
ghost use Rattle.gu_terms.specs.Histories.{lots_swept};

use crate::house::{Heard, TestOffice, book_of};
use crate::opening::{annals_of, desk_of};
use gu_book::Book;
use gu_console::{Console, Operator, Said};
use gu_desk::{BlankAnnals, Desk, EntryLedger, LotLedger};
use gu_houses::{DeskAccess, DeskTools, SeatReceipts, Tally};
use std::alloc::Global;
use std::marker::Brand;
use std::process::Abort;
use std::sync::Wait;
use std::sync::ledger::Blank;
use trials::meant;

/// What operators at one desk share.
#[derive(Drop)]
pub struct Room<'a, E: EntryLedger, S: LotLedger, R> {
    pub alloc: Global,
    pub rt: &'a R,
    pub desk: &'a Desk<E, S>,
    pub office: &'a TestOffice,
    pub tally: &'a Tally,
    pub heard: &'a Heard,
}

/// Returns an operator from a seat.
pub fn operator_of<'a, E: EntryLedger, S: LotLedger, R: Wait>(
    room: &Room<'a, E, S, R>,
    seat: SeatReceipts<E, S>,
    is_watch: bool,
) -> Operator<'a, E, S, R, TestOffice, Heard> {
    let access = DeskAccess {
        rt: room.rt,
        desk: room.desk,
    };
    let tools = DeskTools {
        access,
        tally: room.tally,
        informs: room.heard,
    };
    let console = Console {
        alloc: room.alloc,
        tools,
        office: room.office,
        is_watch,
    };
    Operator::new(console, seat)
}

/// Returns whether a line of a transcript is one that is sent.
fn begins_told(line: &str) -> bool {
    matches!(
        line.as_bytes(),
        [b'>' | b'+' | b'?' | b'-' | b'!' | b'@', b' ', ..]
    )
}

/// Returns the answer of a transcript that these lines begin, up to the next line that is sent, and how many lines it has.
fn expected_of(alloc: Global, lines: &[&str]) -> Option<String> {
    let mut expected = String::new(alloc);
    for line in lines {
        if begins_told(line) {
            return Some(expected);
        }
        if *line != "." {
            expected.push_str(line).ok()?;
        }
        expected.push('\n').ok()?;
    }
    Some(expected)
}

/// Returns the lines of a text.
fn lines_of(alloc: Global, text: &str) -> Option<Vec<&str>> {
    let mut lines = Vec::new(alloc);
    for line in text.lines() {
        lines.push(line).ok()?;
    }
    Some(lines)
}

/// Answers a line, and compares the answer.
fn check_line<E: EntryLedger, S: LotLedger, R: Wait + Abort>(
    rt: &R,
    alloc: Global,
    operator: &mut Operator<'_, E, S, R, TestOffice, Heard>,
    line: &str,
    expected: &str,
) {
    let mut output = Vec::new(alloc);
    let said = operator.answer(line.as_bytes(), &mut output);
    assert!(rt; said.is_ok(), "no memory for {line}");
    let text = str::from_utf8(&output).unwrap_or("?");
    assert_eq!(rt; text, expected, "{line}");
    let closes = said == Ok(Said::Closes);
    assert_eq!(rt;
        closes,
        !expected.ends_with("\n\n") && expected != "\n",
        "{line}"
    );
    check_seen(rt, operator, expected);
}

/// Compares how many entries an operator's seat has seen with the number of the entry that an answer is of, if it is of one.
fn check_seen<E: EntryLedger, S: LotLedger, R: Wait + Abort>(
    rt: &R,
    operator: &Operator<'_, E, S, R, TestOffice, Heard>,
    answer: &str,
) {
    let first = answer.split(' ').next().unwrap_or("");
    if let Ok(number) = first.parse::<u64>() {
        assert_eq!(rt; operator.seen(), number, "{answer}");
    }
}

/// Three operators, of whom the third only watches.
struct Operators<'a, E: EntryLedger, S: LotLedger, R: Wait> {
    first: Operator<'a, E, S, R, TestOffice, Heard>,
    second: Operator<'a, E, S, R, TestOffice, Heard>,
    watch: Operator<'a, E, S, R, TestOffice, Heard>,
}

impl<'a, E: EntryLedger, S: LotLedger, R: Wait + Abort> Operators<'a, E, S, R> {
    /// Returns the operators from these seats.
    fn new(room: &Room<'a, E, S, R>, mut seats: Vec<SeatReceipts<E, S>>) -> Self {
        let rt = room.rt;
        Operators {
            first: operator_of(room, seats.pop().expect(rt, "a seat"), false),
            second: operator_of(room, seats.pop().expect(rt, "a seat"), false),
            watch: operator_of(room, seats.pop().expect(rt, "a seat"), true),
        }
    }

    /// Sends a line of the second operator whose answer isn't compared.
    fn send(&mut self, room: &Room<'a, E, S, R>, line: &str) {
        let rt = room.rt;
        let mut output = Vec::new(room.alloc);
        let said = self.second.answer(line.as_bytes(), &mut output);
        assert_eq!(rt; said, Ok(Said::GoesOn), "{line}");
    }

    /// Sends a line of a transcript, and compares its answer.
    fn say(&mut self, room: &Room<'a, E, S, R>, line: &str, expected: &str) {
        let (sign, line) = line.split_once(' ').unwrap_or((line, ""));
        match sign {
            ">" => check_line(room.rt, room.alloc, &mut self.first, line, expected),
            "+" => check_line(room.rt, room.alloc, &mut self.second, line, expected),
            "?" => check_line(room.rt, room.alloc, &mut self.watch, line, expected),
            "-" => self.send(room, line),
            "!" => self.first.begin(),
            "@" => room.office.put_in_log(),
            _ => {}
        }
    }

    /// Gives the seats back.
    fn leave(self) {
        let Operators {
            first,
            second,
            watch,
        } = self;
        drop(first.into_seat());
        drop(second.into_seat());
        drop(watch.into_seat());
    }
}

/// Sends the lines of a transcript, and compares their answers.
fn follow<'a, E: EntryLedger, S: LotLedger, R: Wait + Abort>(
    room: &Room<'a, E, S, R>,
    operators: &mut Operators<'a, E, S, R>,
    lines: &[&str],
) {
    for place in 0..lines.len() {
        let line = lines[place];
        if begins_told(line) {
            let expected = expected_of(room.alloc, &lines[place + 1..]).expect(room.rt, "memory");
            operators.say(room, line, &expected);
        }
    }
}

/// Plays a transcript at a desk over a book, and returns how many entries others received, and the number of the last.
fn play<E: EntryLedger, S: LotLedger, R: Wait + Abort>(
    rt: &R,
    alloc: Global,
    book: Book,
    annals: BlankAnnals,
    entries: Blank,
    swept: Blank,
    transcript: &String,
) -> (u64, u64)
    requires reference { book.reference ≡ E.reference }
    requires opening { (book.history ≡ E.opening) × (lots_swept book.history ≡ S.opening) }
    requires history { (annals.name ≡ E.history) × (annals.entries ≡ E.opening) }
    requires entries { (entries.name ≡ E.name) × (entries.parts ≡ E.parts) × (entries.parts ≡ 4) }
    requires swept { (swept.name ≡ S.name) × (swept.parts ≡ S.parts) × (swept.parts ≡ 4) }
{
    let (desk, seats) = desk_of::<E, S, R>(rt, alloc, book, annals, entries, swept);
    let office = TestOffice::new().expect(rt, "a firm");
    let tally = Tally::new();
    let heard = Heard::new();
    let room = Room {
        alloc,
        rt,
        desk: &desk,
        office: &office,
        tally: &tally,
        heard: &heard,
    };
    let mut operators = Operators::new(&room, seats);
    let lines = lines_of(alloc, transcript).expect(rt, "memory");
    follow(&room, &mut operators, &lines);
    operators.leave();
    assert_eq!(rt; tally.counts().entries, heard.counts().0);
    assert_eq!(rt; heard.own(), heard.counts().0);
    heard.counts()
}

/// Plays a transcript, whose signs are replaced, at a desk over a book of the sample, and returns the same.
pub fn heard_of<R: Wait + Abort>(rt: &R, alloc: Global, transcript: &str) -> (u64, u64) {
    let book = book_of(alloc).expect(rt, "a book");
    let annals = annals_of(rt, alloc, &book);
    let transcript = meant(alloc, transcript).expect(rt, "memory");
    play::<Brand, Brand, R>(
        rt,
        alloc,
        book,
        annals,
        Blank::new(4),
        Blank::new(4),
        &transcript,
    )
}
