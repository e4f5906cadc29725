//! Boards: what was published is read, each by its token.

ghost use Rattle.gu_view.specs.Boards.{Shows};

use crate::sample::{A_TRADE, SEVEN_LOTS, book_of, command_of, group_of};
use crate::transcript::view_text;
use gu_book::Book;
use gu_view::{Board, ViewToken};
use std::alloc::Global;
use std::process::Abort;
use std::sync::Wait;

/// Limits for three agreements, and a trade of 22 lots whose give-ups wait.
const THREE_OFFERS: &str = "\
DAY 20260105
LIMIT G1 EXEC E1 10
LIMIT G1 EXEC E2 20
LIMIT G1 AGR P1 100
LIMIT G1 AGR P2 100
LIMIT G1 AGR P3 100
LIMIT G1 ACCT A1 10
LIMIT G1 ACCT A2 20
LIMIT G1 CARRY C1 100
REPORT E1 R1 M1 B XF6 22 101.5 H1
REPORT E2 R2 M1 S XF6 22 101.5 H2
GIVEUP E1 L1 R1 A1 10 A2 12
GIVEUP E2 L2 R2 A1 15
";

/// Enters the lines in a book.
fn enter_all(rt: &impl Abort, alloc: Global, book: &mut Book, lines: &str) {
    for line in lines.lines() {
        let command = command_of(alloc, line).expect(rt, "a command");
        assert!(rt; book.enter(command).is_ok(), "{line}");
    }
}

/// Publishes the view of G1 after these lines.
fn published<R: Wait + Abort>(rt: &R, alloc: Global, board: &Board, lines: &str) -> ViewToken
    ensures { Shows board.now result }
{
    let mut book = book_of(alloc).expect(rt, "a book");
    enter_all(rt, alloc, &mut book, lines);
    let group = group_of("G1").expect(rt, "a group");
    let view = book.view(&group).ok().expect(rt, "a view");
    let Ok(token) = board.publish(rt, view) else {
        panic!(rt; "no token");
    };
    token
}

/// Returns what a token reads.
fn read_text(rt: &impl Abort, alloc: Global, board: &Board, token: &ViewToken) -> String
    requires { Shows board.now token.now }
{
    view_text(alloc, board.read(token))
        .ok()
        .expect(rt, "memory")
}

#[test]
fn each_token_reads_its_own_view(rt: HostRuntime) {
    let alloc = rt.alloc();
    let board = Board::new(alloc).ok().expect(&rt, "a board");
    let one = published(&rt, alloc, &board, SEVEN_LOTS);
    let three = published(&rt, alloc, &board, THREE_OFFERS);
    for _ in 0..3_000 {
        let other = published(&rt, alloc, &board, A_TRADE);
        assert_eq!(rt; read_text(&rt, alloc, &board, &other).as_str(), "VERSION 5");
    }
    let text = read_text(&rt, alloc, &board, &three);
    assert_eq!(rt;
        text.as_str(),
        "VERSION 11, OFFER 1 10, OFFER 2 12, OFFER 3 15"
    );
    let text = read_text(&rt, alloc, &board, &one);
    assert_eq!(rt; text.as_str(), "VERSION 6, OFFER 1 7");
}
