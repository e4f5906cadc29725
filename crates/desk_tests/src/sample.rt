//! The sample reference, and the lines for its book.

use gu_book::Book;
use gu_ref::Reference;
use gu_streams::CountedReads;
use gu_terms::{Command, Group};
use gu_text::Line;
use gu_world::Step;
use std::alloc::Global;

/// The rows of the sample.
const ROWS: &str = "\
FIRM,E1
FIRM,E2
FIRM,C1
FIRM,C2
GROUP,G1
GROUP,G2
INSTRUMENT,XF6,G1
INSTRUMENT,YF6,G2
ACCOUNT,H1,E1
ACCOUNT,H2,E2
ACCOUNT,A1,C1
ACCOUNT,A2,C1
ACCOUNT,A3,C2
AGREEMENT,P1,E1,A1
AGREEMENT,P2,E1,A2
AGREEMENT,P3,E2,A1
AGREEMENT,P4,E2,A3
";

/// A day with limits of 100 on the path of P1, and a trade of ten lots.
pub const A_TRADE: &str = "\
DAY 20260105
LIMIT G1 EXEC E1 100
LIMIT G1 AGR P1 100
LIMIT G1 ACCT A1 100
LIMIT G1 CARRY C1 100
REPORT E1 R1 M1 B XF6 10 101.5 H1
REPORT E2 R2 M1 S XF6 10 101.5 H2
";

/// The same, with seven of the lots given up.
pub const SEVEN_LOTS: &str = "\
DAY 20260105
LIMIT G1 EXEC E1 100
LIMIT G1 AGR P1 100
LIMIT G1 ACCT A1 100
LIMIT G1 CARRY C1 100
REPORT E1 R1 M1 B XF6 10 101.5 H1
REPORT E2 R2 M1 S XF6 10 101.5 H2
GIVEUP E1 L1 R1 A1 7
";

/// Returns a book of the sample without entries.
pub fn book_of(alloc: Global) -> Option<Book> {
    let read = Reference::read(alloc, &mut CountedReads::new(ROWS.as_bytes()));
    Some(Book::new(alloc, read.ok()?))
}

/// Returns the group of a name.
pub fn group_of(name: &str) -> Option<Group> {
    Group::new(name.as_bytes())
}

/// Returns the command that a line of a script says.
pub fn command_of(alloc: Global, line: &str) -> Option<Command> {
    match Line::read(alloc, line.as_bytes(), 1) {
        Ok(Some(Line::Step(Step::Enter(command)))) => Some(command),
        _ => None,
    }
}
