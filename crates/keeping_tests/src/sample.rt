//! The sample reference, and the lines for its book.

ghost use Rattle.std.specs.Prelude.{◌≡◌, [], IfSome};

use gu_book::Book;
use gu_desk::{FirmMessage, Origin};
use gu_ref::Reference;
use gu_script::play_opening;
use gu_streams::CountedReads;
use gu_terms::{Command, Day, FirmId, Group, Moment, Seed};
use gu_text::Line;
use gu_world::Step;
use std::alloc::{AllocError, Global};

/// The rows of the sample.
const ROWS: &str = "\
FIRM,E1
FIRM,E2
FIRM,C1
FIRM,C2
GROUP,G1
GROUP,G2
INSTRUMENT,XF6,G1
INSTRUMENT,YF6,G2
ACCOUNT,H1,E1
ACCOUNT,H2,E2
ACCOUNT,A1,C1
ACCOUNT,A2,C1
ACCOUNT,A3,C2
AGREEMENT,P1,E1,A1
AGREEMENT,P2,E1,A2
AGREEMENT,P3,E2,A1
AGREEMENT,P4,E2,A3
";

/// Returns the reference of the sample.
pub fn reference(alloc: Global) -> Option<Reference> {
    Reference::read(alloc, &mut CountedReads::new(ROWS.as_bytes())).ok()
}

/// Returns a book of the sample without entries.
pub fn book_of(alloc: Global) -> Option<Book>
    ensures { IfSome result (λ book. book.history ≡ []) }
{
    Some(Book::new(alloc, reference(alloc)?))
}

/// Returns the book that a script leads to.
pub fn played(alloc: Global, script: &[u8]) -> Option<Book> {
    let played = play_opening(
        alloc,
        reference(alloc)?,
        Seed::new(0),
        &mut CountedReads::new(script),
    );
    let (world, refused) = played.ok()?;
    drop(refused);
    Some(world.into_book())
}

/// Returns what a line of a script says.
fn said(alloc: Global, line: &str) -> Option<Line> {
    Line::read(alloc, line.as_bytes(), 1).ok()?
}

/// Returns the day of a word of eight digits.
fn day_of(word: &str) -> Option<Day> {
    Day::read(word.as_bytes()).ok()
}

/// Returns a report with the day that it names.
fn dated(mut command: Command, named: Option<Day>) -> Command {
    if let Command::ReportSide(report) = &mut command {
        report.day = named;
    }
    command
}

/// Returns the command that a line of a script enters.
fn entering(alloc: Global, line: &str) -> Option<Command> {
    match said(alloc, line) {
        Some(Line::Step(Step::Enter(command))) => Some(command),
        _ => None,
    }
}

/// Returns the group that a line of a script sweeps.
pub fn swept_by(alloc: Global, line: &str) -> Option<Group> {
    let said = said(alloc, line)?;
    match &said {
        Line::Sweep(group) => Some(*group),
        _ => None,
    }
}

/// Returns the command of a line. A line that begins with `@` and a day is a report of that day.
pub fn command_of(alloc: Global, line: &str) -> Option<Command> {
    let (line, named) = match line.strip_prefix("@") {
        Some(rest) => {
            let (word, line) = rest.split_once(' ')?;
            (line, day_of(word))
        }
        None => (line, None),
    };
    let command = entering(alloc, line)?;
    Some(if named.is_some() {
        dated(command, named)
    } else {
        command
    })
}

/// Returns the origin of the entry with a number: two of three entries are messages of E1.
fn origin_of(number: u64) -> Option<Origin> {
    let moment = Moment::new(1_767_603_600_000_u64.saturating_add(number))?;
    let message = FirmMessage {
        firm: FirmId::new(b"E1")?,
        connection: 3,
        number,
    };
    Some(Origin {
        moment,
        message: if number % 3 == 0 { None } else { Some(message) },
    })
}

/// Returns the origins of entries from a number to another one.
pub fn origins(alloc: Global, first: u64, last: u64) -> Result<Vec<Origin>, AllocError> {
    Vec::from_iter(alloc, (first..=last).filter_map(origin_of))
}
