//! Calls that are refused memory, one a test, with few allocations before them. Each of these tests passes whichever of its allocations
//! fails, and if all of them fail from one on (tools/each-growth): a call that is refused memory says so, leaves what it has as it
//! was, hands back what it was given, and does at the second try what it would have done, if there is memory then.

use crate::blame::steps;
use crate::files::push_rows;
use crate::questions::tell_view;
use crate::sample::reference_of;
use crate::steps::command_of;
use crate::transcript::shown;
use gu_book::{AskError, Book, CommitError, EnterError};
use gu_flow::{Proposal, propose};
use gu_ref::{RefFault, Reference};
use gu_streams::CountedReads;
use gu_terms::{Command, Entry, Group, Receipt};
use gu_text::reply_text;
use gu_view::View;
use gu_world::{Outcome, run};
use std::alloc::{AllocError, Global};
use std::process::Abort;
use std::str;

/// Returns whether there is memory.
fn has_memory(alloc: Global) -> bool {
    Vec::<u8>::with_capacity(alloc, 1).is_ok()
}

/// Files, and the verdict on each. An accepted one has these rows.
const FILES: [(&str, &str); 4] = [
    (
        "FIRM,E1\nFIRM,C1\nGROUP,G1\nINSTRUMENT,XF6,G1\nACCOUNT,A1,C1\nAGREEMENT,P1,E1,A1\nGUARANTOR,E1,C1\n",
        "OK",
    ),
    ("FIRM,E1\nFIRM,e3\n", "BadRow 2"),
    ("FIRM,E1\nACCOUNT,A1,C1\n", "Unknown 2"),
    ("FIRM,E1\nGROUP,G1\nFIRM,E1\n", "Twice 3"),
];

/// Returns the verdict on a file.
fn read(alloc: Global, file: &str) -> Result<Reference, RefFault> {
    Reference::read(alloc, &mut CountedReads::new(file.as_bytes()))
}

/// Returns whether a reference has the rows of a file, in its order.
fn has_rows(alloc: Global, reference: &Reference, file: &str) -> Result<bool, AllocError> {
    let mut rows = Vec::new(alloc);
    push_rows(&mut rows, reference)?;
    Ok(rows.as_slice() == file.as_bytes())
}

/// Returns whether a file is accepted with its rows, or refused for its fault.
fn is_answered(alloc: Global, file: &str, want: &str) -> Result<bool, AllocError> {
    match read(alloc, file) {
        Ok(reference) => Ok(want == "OK" && has_rows(alloc, &reference, file)?),
        Err(RefFault::Memory) => Err(AllocError),
        Err(fault) => {
            let told = format!(in alloc; "{fault}")?;
            Ok(told.as_str() == want)
        }
    }
}

#[test]
fn refused_to_a_file_leaves_it_to_be_read_again(rt: HostRuntime) {
    for (file, want) in FILES {
        let told = match is_answered(rt.alloc(), file, want) {
            Ok(told) => Ok(told),
            Err(_) => is_answered(rt.alloc(), file, want),
        };
        match told {
            Ok(is_right) => assert!(rt; is_right, "{file}"),
            Err(_) => assert!(rt; !has_memory(rt.alloc()), "no memory for {file}"),
        }
    }
}

/// Returns the command of a line, retrying once if memory is refused.
fn command_again(alloc: Global, line: &str) -> Option<Command> {
    match command_of(alloc, line) {
        Some(command) => Some(command),
        None => command_of(alloc, line),
    }
}

/// Enters the command of a line.
fn enter(alloc: Global, book: &mut Book, line: &str) -> Option<()> {
    let receipt = book.enter(command_of(alloc, line)?).ok()?;
    drop(receipt);
    Some(())
}

/// Enters the commands of lines.
fn enter_all(alloc: Global, book: &mut Book, lines: &str) -> Option<()> {
    for line in lines.lines() {
        enter(alloc, book, line)?;
    }
    Some(())
}

/// A day with limits on the path of P1, and a trade of ten lots, of which seven are given up.
const BEFORE: &str = "\
DAY 20260105
LIMIT G1 EXEC E1 100
LIMIT G1 AGR P1 100
LIMIT G1 ACCT A1 100
LIMIT G1 CARRY C1 100
REPORT E1 R1 M1 B XF6 10 101.5 H1
REPORT E2 R2 M1 S XF6 10 101.5 H2
GIVEUP E1 L1 R1 A1 7
";

/// A trade of another instrument: the positions have four rows then, so that they grow by the row of a sweep.
const ANOTHER_TRADE: &str = "\
REPORT E1 R3 M2 B YF6 1 101.5 H1
REPORT E2 R4 M2 S YF6 1 101.5 H2
";

/// Returns a book of the sample after them, and after further lines.
fn book_after(alloc: Global, lines: &str) -> Option<Book> {
    let mut book = Book::new(alloc, reference_of(alloc, "", "").ok()?);
    let entered = match enter_all(alloc, &mut book, BEFORE) {
        Some(()) => enter_all(alloc, &mut book, lines),
        None => None,
    };
    match entered {
        Some(()) => Some(book),
        None => {
            drop(book);
            None
        }
    }
}

/// Returns the same, retrying once if memory is refused. Returns nothing once there is no memory.
fn book_again(rt: &impl Abort, alloc: Global, lines: &str) -> Option<Book> {
    let book = match book_after(alloc, lines) {
        Some(book) => Some(book),
        None => book_after(alloc, lines),
    };
    assert!(rt;
        book.is_some() || !has_memory(alloc),
        "no memory for a book"
    );
    book
}

/// Commands after these, each with what answers it.
const COMMANDS: &str = "\
LIMIT G2 EXEC E1 5               = 9 OK
REPORT E1 R3 M2 B XF6 5 101.5 H1 = 10 OK OPEN
REPORT E2 R4 M2 S XF6 5 101.5 H2 = 11 OK MATCHED
REPORT E2 R4 M2 S XF6 5 101.5 H2 = 12 NO 6 DuplicateId
GIVEUP E1 L2 R3 A1 2 A2 3        = 13 OK OFFERS 2 3
CLAIM C1 1                       = 14 OK LOTS 7
REFUSE C1 2 1                    = 15 OK LOTS 2
REVERSE C1 1                     = 16 OK LOTS 7
CLAIM C1 9                       = 17 NO 13 UnknownOffer
DAY 20260106                     = 18 OK
";

/// Returns the receipt of a command, retrying once if memory is refused, which changes nothing.
fn entered(rt: &impl Abort, alloc: Global, book: &mut Book, line: &str) -> Option<Receipt> {
    let before = shown(alloc, book)?;
    let command = command_again(alloc, line)?;
    match book.enter(command) {
        Ok(receipt) => Some(receipt),
        Err(why) => {
            assert_eq!(rt; why, EnterError::Memory, "{line}");
            let after = shown(alloc, book)?;
            assert!(rt; after == before, "{line} is refused and changes something");
            book.enter(command_again(alloc, line)?).ok()
        }
    }
}

/// Returns the text of a receipt.
fn receipt_text(alloc: Global, receipt: &Receipt) -> Result<Vec<u8>, AllocError> {
    match &receipt.entry {
        Entry::Asked { reply, .. } => reply_text(alloc, receipt.number, reply),
        Entry::Swept(_) => Ok(Vec::new(alloc)),
    }
}

/// Returns the same, retrying once if memory is refused.
fn receipt_text_again(alloc: Global, receipt: &Receipt) -> Option<Vec<u8>> {
    match receipt_text(alloc, receipt) {
        Ok(text) => Some(text),
        Err(_) => receipt_text(alloc, receipt).ok(),
    }
}

/// Returns what answers the command of a line.
fn answer_to(rt: &impl Abort, alloc: Global, book: &mut Book, line: &str) -> Option<Vec<u8>> {
    let receipt = entered(rt, alloc, book, line)?;
    let text = receipt_text_again(alloc, &receipt);
    drop(receipt);
    text
}

#[test]
fn refused_to_a_command_leaves_it_to_be_entered_again(rt: HostRuntime) {
    let Some(mut book) = book_again(&rt, rt.alloc(), "") else {
        return;
    };
    for row in COMMANDS.lines() {
        let (line, want) = row.split_once("=").unwrap_or((row, ""));
        match answer_to(&rt, rt.alloc(), &mut book, line.trim()) {
            Some(text) => {
                let told = str::from_utf8(&text).unwrap_or("?");
                assert_eq!(rt; told.trim_end(), want.trim(), "{row}");
            }
            None => assert!(rt; !has_memory(rt.alloc()), "no memory for {row}"),
        }
    }
}

/// The view of G1 then.
const VIEW: &str = "\
6
OFFER 1 7 P1 E1 A1 C1
ROOM EXEC E1 100
ROOM AGR P1 100
ROOM ACCT A1 100
ROOM CARRY C1 100
";

/// Returns the view of G1, retrying once if memory is refused.
fn seen(rt: &impl Abort, book: &Book) -> Option<View> {
    let group = &Group::new(b"G1")?;
    match book.view(group) {
        Ok(view) => Some(view),
        Err(why) => {
            assert_eq!(rt; why, AskError::Memory, "a view");
            book.view(group).ok()
        }
    }
}

/// Returns the text of a view, retrying once if memory is refused.
fn view_text(alloc: Global, view: &View) -> Option<Vec<u8>> {
    let mut text = Vec::new(alloc);
    if tell_view(&mut text, view).is_err() {
        text.clear();
        tell_view(&mut text, view).ok()?;
    }
    Some(text)
}

/// Returns the text of the view of G1.
fn seen_text(rt: &impl Abort, alloc: Global, book: &Book) -> Option<Vec<u8>> {
    let view = seen(rt, book)?;
    let text = view_text(alloc, &view);
    drop(view);
    text
}

#[test]
fn refused_to_a_view_leaves_it_to_be_seen_again(rt: HostRuntime) {
    let Some(book) = book_again(&rt, rt.alloc(), "") else {
        return;
    };
    match seen_text(&rt, rt.alloc(), &book) {
        Some(text) => assert_eq!(rt; str::from_utf8(&text).unwrap_or("?"), VIEW),
        None => assert!(rt; !has_memory(rt.alloc()), "no memory for a view"),
    }
}

/// Returns the proposal for a view, retrying once if memory is refused.
fn proposal_for(alloc: Global, view: View) -> Option<Proposal> {
    if !view.nested() {
        return None;
    }
    match propose(alloc, view) {
        Ok(proposal) => Some(proposal),
        Err((_, given)) if given.nested() => propose(alloc, given).ok(),
        Err(_) => None,
    }
}

/// Returns the same for G1's.
fn proposed(rt: &impl Abort, alloc: Global, book: &Book) -> Option<Proposal> {
    proposal_for(alloc, seen(rt, book)?)
}

/// Returns a copy of a proposal, retrying once if memory is refused.
fn copy_of(proposal: &Proposal) -> Option<Proposal> {
    match proposal.copy() {
        Ok(copy) => Some(copy),
        Err(_) => proposal.copy().ok(),
    }
}

/// Returns whether a proposal is the same as another.
fn is_same(proposal: &Proposal, other: &Proposal) -> bool {
    proposal.view().is_same(other.view())
        && proposal.takes().is_same(other.takes())
        && proposal.cut().is_same(other.cut())
        && proposal.lots() == other.lots()
}

/// Commits a proposal, retrying once if memory is refused, which changes nothing and hands the proposal back.
fn committed(
    rt: &impl Abort,
    alloc: Global,
    book: &mut Book,
    proposal: Proposal,
    copy: &Proposal,
) -> Option<Receipt> {
    let before = shown(alloc, book)?;
    match book.commit(proposal) {
        Ok(receipt) => Some(receipt),
        Err((why, given)) => {
            assert_eq!(rt; why, CommitError::Memory, "a commit");
            assert!(rt; is_same(&given, copy), "another proposal");
            let after = shown(alloc, book)?;
            assert!(rt;
                after == before,
                "a commit is refused and changes something"
            );
            book.commit(given).ok()
        }
    }
}

/// Returns the receipt of a sweep of G1.
fn swept(rt: &impl Abort, alloc: Global, book: &mut Book) -> Option<Receipt> {
    let proposal = proposed(rt, alloc, book)?;
    let copy = copy_of(&proposal)?;
    let receipt = committed(rt, alloc, book, proposal, &copy);
    drop(copy);
    receipt
}

#[test]
fn refused_to_a_proposal_leaves_it_to_be_committed_again(rt: HostRuntime) {
    let Some(mut book) = book_again(&rt, rt.alloc(), ANOTHER_TRADE) else {
        return;
    };
    match swept(&rt, rt.alloc(), &mut book) {
        Some(receipt) => {
            let is_last = book.history().is_entry(11, &receipt.entry);
            let found = (receipt.number, is_last, book.lots_swept());
            assert_eq!(rt; found, (11, Some(true), 7), "a commit");
        }
        None => assert!(rt; !has_memory(rt.alloc()), "no memory for a commit"),
    }
}

/// A sweep, and one that it overtakes.
const SCRIPT: &str = "\
DAY 20260105
LIMIT G1 EXEC E1 10
LIMIT G1 EXEC E2 20
LIMIT G1 AGR P1 100
LIMIT G1 AGR P2 100
LIMIT G1 AGR P3 100
LIMIT G1 ACCT A1 10
LIMIT G1 ACCT A2 20
LIMIT G1 CARRY C1 100
REPORT E1 R1 M1 B XF6 22 101.5 H1
REPORT E2 R2 M1 S XF6 22 101.5 H2
GIVEUP E1 L1 R1 A1 10 A2 12
GIVEUP E2 L2 R2 A1 15
SEE 0 G1
SEE 1 G1
PROPOSE 0
PROPOSE 1
COMMIT 0
COMMIT 1
";

/// Returns how many outcomes and entries a run of a script has, and whether its last commit is stale. Returns nothing if memory is
/// refused.
fn run_told(alloc: Global, script: &str) -> Option<(usize, usize, bool)> {
    let steps = steps(alloc, script)?;
    let reference = reference_of(alloc, "", "").ok()?;
    let world = run(alloc, reference, &steps).ok()?;
    let is_stale = matches!(
        world.outcomes().last(),
        Ok(Some(Outcome::Stale { seen: 11, now: 12 }))
    );
    Some((
        world.outcomes().len(),
        world.book().history().len(),
        is_stale,
    ))
}

#[test]
fn refused_to_a_run_leaves_it_to_be_made_again(rt: HostRuntime) {
    match run_told(rt.alloc(), SCRIPT).or_else(|| run_told(rt.alloc(), SCRIPT)) {
        Some(told) => assert_eq!(rt; told, (19, 14, true)),
        None => assert!(rt; !has_memory(rt.alloc()), "no memory for a run"),
    }
}
