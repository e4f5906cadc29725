//! Connections of firms to a book, as their lines say (`talks`).

use crate::books::book_after;
use crate::rows::check_told;
use gu_engine::{Answered, Ask, Connection, House, run};
use gu_houses::OverBook;
use gu_msgs::Request;
use gu_session::{Failure, Outcome};
use gu_streams::{CountedReads, StreamError};
use gu_terms::{Command, FirmId, Moment, Stretch};
use gu_text::{Line, TextError};
use gu_world::Step;
use std::alloc::{AllocError, Global};
use std::process::Abort;
use trials::{AMPLE, Moments, Sink, Source, Talk, Terms, columns, shown, wire};

/// The house of a connection, and what happens besides, once: `Memory` or `Full` leaves the first command out, and a command is
/// entered as soon as a firm was given its notices.
#[derive(Drop)]
pub struct Desk<'a> {
    pub alloc: Global,
    pub house: &'a mut OverBook,
    pub besides: &'a str,
}

/// Asks that a command be entered for a firm.
fn ask_for(firm: FirmId, command: Command) -> Option<Ask> {
    Some(Ask {
        firm,
        number: 1,
        now: Moment::new(0)?,
        request: Request::Enter(command),
    })
}

/// Enters the command of a line for a firm, if it has one.
fn enter(alloc: Global, house: &mut OverBook, firm: FirmId, line: &str) -> Result<(), TextError> {
    match Line::read(alloc, line.as_bytes(), 1)? {
        Some(Line::Step(Step::Enter(command))) => match ask_for(firm, command) {
            Some(ask) => drop(house.answer(ask, 1)),
            None => {}
        },
        other => drop(other),
    }
    Ok(())
}

/// Returns the failure of this name.
fn failure_named(name: &str) -> Option<Failure> {
    match name {
        "Memory" => Some(Failure::Memory),
        "Full" => Some(Failure::Full),
        _ => None,
    }
}

impl Desk<'_> {
    /// Enters the command that is entered besides, once.
    fn enter_besides(&mut self, firm: FirmId) {
        if failure_named(self.besides).is_none() {
            let _ = enter(self.alloc, self.house, firm, self.besides);
            self.besides = "";
        }
    }
}

impl House for Desk<'_> {
    ghost use Rattle.gu_engine.specs.Houses.{HouseRules};

    ghost rules = { record { answers = λ old request outcome new. Unit {0}; tells = λ old firm from stretch new. Unit {0} } };

    fn answer(&mut self, ask: Ask, from: u64) -> Result<Answered, AllocError> {
        let firm = ask.firm;
        if let Some(failure) = failure_named(self.besides) {
            self.besides = "";
            drop(ask);
            return Ok(Answered {
                outcome: Outcome::Failed(failure),
                stretch: None,
            });
        }
        let answered = self.house.answer(ask, from)?;
        if answered.stretch.is_some() {
            self.enter_besides(firm);
        }
        Ok(answered)
    }

    fn notices(&mut self, firm: &FirmId, from: u64) -> Result<Stretch, AllocError> {
        let stretch = self.house.notices(firm, from);
        self.enter_besides(*firm);
        stretch
    }
}

/// Appends how the exchange of a firm's connection ends.
fn exchanged(
    desk: Desk<'_>,
    firm: &str,
    source: Source<'_>,
    talk: &Talk,
    terms: Terms,
    sink: &mut Sink,
) -> Result<(), StreamError> {
    let alloc = desk.alloc;
    let firms = Vec::from_slice(alloc, FirmId::new(firm.as_bytes()).as_slice())?;
    let moments = talk.moments.get(..terms.clock).unwrap_or(&talk.moments);
    let mut connection = Connection::new(alloc, firms, desk, Moments::new(moments));
    let end = run(
        alloc,
        &mut CountedReads::patient(source),
        sink,
        &mut connection,
    );
    drop(connection);
    end
}

/// Returns how an exchange ended, `: `, and what it wrote, with `|` for SOH.
fn told_of(
    alloc: Global,
    end: Result<(), StreamError>,
    written: &[u8],
) -> Result<String, AllocError> {
    let written = shown(alloc, written)?;
    match end {
        Ok(()) => format!(in alloc; "done: {written}"),
        Err(error) => format!(in alloc; "{error}: {written}"),
    }
}

/// Returns what the exchange of a firm's connection reports that reads these bytes.
fn told_on(
    desk: Desk<'_>,
    firm: &str,
    input: &[u8],
    talk: &Talk,
    terms: Terms,
) -> Result<String, AllocError> {
    let alloc = desk.alloc;
    let source = Source {
        bytes: input,
        lengths: &talk.lengths,
        later: terms.piece,
        reads: terms.reads,
    };
    let mut sink = Sink::new(alloc, terms.most, terms.writes);
    let end = exchanged(desk, firm, source, talk, terms, &mut sink);
    told_of(alloc, end, &sink.held)
}

/// Returns what the exchange of a firm's connection reports.
pub fn told(desk: Desk<'_>, firm: &str, talk: &Talk, terms: Terms) -> Result<String, AllocError> {
    let input = wire(desk.alloc, &talk.input)?;
    told_on(desk, firm, input.as_bytes(), talk, terms)
}

/// Returns the longest text that a connection of a firm writes at once, and how much it writes in all.
pub fn longest_write(
    house: &mut OverBook,
    alloc: Global,
    firm: &str,
    talk: &Talk,
) -> Result<(usize, usize), AllocError> {
    let input = wire(alloc, &talk.input)?;
    let source = Source {
        bytes: input.as_bytes(),
        lengths: &talk.lengths,
        later: AMPLE.piece,
        reads: AMPLE.reads,
    };
    let mut sink = Sink::new(alloc, usize::MAX, AMPLE.writes);
    let desk = Desk {
        alloc,
        house,
        besides: "",
    };
    match exchanged(desk, firm, source, talk, AMPLE, &mut sink) {
        Ok(()) => Ok((sink.longest, sink.held.len())),
        Err(_) => Err(AllocError),
    }
}

/// Asserts that the exchange of a connection, whose firm comes before its lines, ends with the input, and writes what its lines say.
fn check_connection(rt: &impl Abort, desk: Desk<'_>, name: &str, text: &str) {
    let alloc = desk.alloc;
    let (firm, lines) = text.split_once('\n').unwrap_or((text, ""));
    let talk = Talk::of(alloc, firm, lines).expect(rt, "memory");
    let expected = format!(in alloc; "done: {}", talk.output).expect(rt, "memory");
    check_told(rt, name, told(desk, firm, &talk, AMPLE), &expected);
}

/// Asserts that connections one after another to one book, after a script, are as their lines say, and how many entries the book has then.
/// The first line is `name: script -> entries`.
fn check_case(rt: &impl Abort, alloc: Global, besides: &str, case: &str) {
    let (head, connections) = case.split_once("\nfirm ").unwrap_or((case, ""));
    let (name, rest) = head.split_once(": ").unwrap_or((head, ""));
    let (script, entries) = columns(rest);
    let mut house = OverBook::new(book_after(alloc, script).expect(rt, "a book"));
    for text in connections.split("\nfirm ") {
        let desk = Desk {
            alloc,
            house: &mut house,
            besides,
        };
        check_connection(rt, desk, name, text);
    }
    let found = house.book().history().len();
    drop(house);
    assert_eq!(rt; found, entries.parse().unwrap_or(0), "{name}");
}

/// Asserts that each case of a table is so. An empty line is between them.
pub fn check_cases(rt: &impl Abort, alloc: Global, besides: &str, table: &str) {
    for case in table.split("\n\n") {
        check_case(rt, alloc, besides, case);
    }
}

/// Returns what a connection of E1 to a book after a script reports that reads these bytes, after how many entries the book has then.
fn told_after_on(
    alloc: Global,
    script: &str,
    input: &[u8],
    talk: &Talk,
    terms: Terms,
) -> Result<String, AllocError> {
    let Ok(book) = book_after(alloc, script) else {
        return Err(AllocError);
    };
    let mut house = OverBook::new(book);
    let desk = Desk {
        alloc,
        house: &mut house,
        besides: "",
    };
    let told = told_on(desk, "E1", input, talk, terms);
    let entries = house.book().history().len();
    drop(house);
    let told = told?;
    format!(in alloc; "{entries} entries, {told}")
}

/// Returns what a connection of E1 to a book after a script reports, after how many entries the book has then.
pub fn told_after(
    alloc: Global,
    script: &str,
    talk: &Talk,
    terms: Terms,
) -> Result<String, AllocError> {
    let input = wire(alloc, &talk.input)?;
    told_after_on(alloc, script, input.as_bytes(), talk, terms)
}

/// Returns the same if the byte at a place of the input is one higher.
pub fn told_raised(
    alloc: Global,
    script: &str,
    talk: &Talk,
    place: usize,
) -> Result<String, AllocError> {
    let input = wire(alloc, &talk.input)?;
    let mut bytes = Vec::from_slice(alloc, input.as_bytes())?;
    if let Some(byte) = bytes.get_mut(place) {
        *byte = byte.wrapping_add(1);
    }
    told_after_on(alloc, script, &bytes, talk, AMPLE)
}
