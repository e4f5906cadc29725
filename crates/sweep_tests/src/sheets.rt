//! Sheets: what is read, and what checks, sweeps and the writing of a sheet make of it.
use crate::fixture::sheet_text_of;
use crate::rows::{Subject, check, shown};
use crate::search::{most, oldest_takes};
use crate::sweep::{Telling, sweep_text};
use crate::texts::entered_text;
use gu_text::{Sheet, TextError, sheet_text, verdict_text};
use std::alloc::{AllocError, Global};

/// A question about a sheet.
#[derive(Clone, Copy)]
pub enum Question {
    /// Nothing more than whether it is one.
    IsRead,
    /// Whether its view is nested.
    IsNested,
    /// The line that a check of it answers.
    Verdict,
    /// How it is written.
    Written,
    /// Whether view, takes and cut are the same once it is written and read back.
    ReadBack,
    /// Whether view, takes and cut are those of the two offers of one agreement.
    IsShared,
    /// The proposal for its view.
    Sweep(Telling),
    /// The most lots that any admissible takes of its view have.
    Most,
    /// The takes of its view that are greatest and oldest first over the group.
    Oldest,
    /// How its sweep is reported, without its sheet and with it.
    Entered,
}

/// Returns a sheet as it is written.
fn written(alloc: Global, sheet: &Sheet) -> Result<Vec<u8>, AllocError> {
    sheet_text(alloc, &sheet.view, &sheet.takes, &sheet.cut)
}

/// Returns the line that a check of a sheet answers.
fn verdict(alloc: Global, sheet: &Sheet) -> Result<Vec<u8>, AllocError> {
    verdict_text(
        alloc,
        &gu_view::check(&sheet.view, &sheet.takes, &sheet.cut),
    )
}

/// Returns whether view, takes and cut of two sheets are the same.
fn same_text(alloc: Global, sheet: &Sheet, other: &Sheet) -> Result<String, AllocError> {
    let view = sheet.view.is_same(&other.view);
    let takes = sheet.takes.is_same(&other.takes);
    let cut = sheet.cut.is_same(&other.cut);
    format!(in alloc; "{view} {takes} {cut}")
}

/// Returns the same for a sheet and the one in a text.
fn same_in(alloc: Global, sheet: &Sheet, text: &[u8]) -> Result<String, AllocError> {
    match Sheet::read(alloc, text) {
        Ok(other) => {
            let told = same_text(alloc, sheet, &other);
            drop(other);
            told
        }
        Err(TextError::BadLine(number)) => format!(in alloc; "bad at {number}"),
        Err(TextError::Memory) => Err(AllocError),
    }
}

/// Returns the same for a sheet and what is read back of its text.
fn read_back(alloc: Global, sheet: &Sheet) -> Result<String, AllocError> {
    let text = written(alloc, sheet)?;
    same_in(alloc, sheet, &text)
}

/// Returns the same for a sheet and the one of two offers of one agreement.
fn shared_text(alloc: Global, sheet: &Sheet) -> Result<String, AllocError> {
    let text = sheet_text_of(alloc, "shared:")?;
    same_in(alloc, sheet, text.as_bytes())
}

/// Returns what a sheet answers to a question.
fn answer(alloc: Global, question: Question, sheet: &Sheet) -> Result<String, AllocError> {
    match question {
        Question::IsRead => String::from_str(alloc, "a sheet"),
        Question::IsNested => format!(in alloc; "{}", sheet.view.nested()),
        Question::Verdict => shown(alloc, verdict(alloc, sheet)),
        Question::Written => shown(alloc, written(alloc, sheet)),
        Question::ReadBack => read_back(alloc, sheet),
        Question::IsShared => shared_text(alloc, sheet),
        Question::Sweep(telling) => sweep_text(alloc, telling, &sheet.view),
        Question::Most => format!(in alloc; "{}", most(&sheet.view)),
        Question::Oldest => oldest_takes(alloc, &sheet.view),
        Question::Entered => entered_text(alloc, sheet),
    }
}

/// Returns what the sheet in a text answers to a question, or its first bad line.
fn told_in(alloc: Global, question: Question, text: &[u8]) -> Result<String, AllocError> {
    match Sheet::read(alloc, text) {
        Ok(sheet) => {
            let told = answer(alloc, question, &sheet);
            drop(sheet);
            told
        }
        Err(TextError::BadLine(number)) => format!(in alloc; "bad at {number}"),
        Err(TextError::Memory) => Err(AllocError),
    }
}

/// Returns the same for the text that a row speaks of.
pub fn told(alloc: Global, question: Question, asked: &str) -> Result<String, AllocError> {
    let text = sheet_text_of(alloc, asked)?;
    told_in(alloc, question, text.as_bytes())
}

/// Texts that are sheets.
const SHEETS: &str = "\
SHEET G1 0|END| -> a sheet
SHEET G1 0|END -> a sheet
SHEET G1 0\r|END\r| -> a sheet
SHEET   G1  0|END| -> a sheet
# a comment||SHEET G1 0|\r|#|END||# more| -> a sheet
SHEET G1 999999999999|END| -> a sheet
SHEET G1 000000000001|END| -> a sheet
SHEET G1 0|TAKE 64 1|TAKE 16000000 1|TAKE 63 1|TAKE 65 1|TAKE 1 1|TAKE 128 1|END| -> a sheet
SHEET G1 0|TAKE 64 1|CUT OFFER 64|CUT OFFER 16000000|CUT OFFER 63|CUT OFFER 65|CUT OFFER 1|CUT OFFER 128|END| -> a sheet
SHEET G1 0|CUT EXEC E1|CUT AGR E1|CUT ACCT E1|CUT CARRY E1|CUT GUAR E1|END| -> a sheet
SHEET G1 0|CUT AGR P|CUT AGR Q|CUT AGR P1|CUT AGR P2|CUT AGR P12|CUT AGR P21|CUT AGR P-|END| -> a sheet
SHEET G1 0|CUT AGR ABCDEFGHIJKL|CUT AGR ABCDEFGHIJKM|CUT AGR ABCDEFGHIJK|END| -> a sheet
";

/// Texts whose end is missing: bad is the number after the last line, with those that are skipped.
const UNENDED: &str = "\
SHEET G1 0| -> bad at 2
 -> bad at 1
SHEET G1 0|# a comment|| -> bad at 4
(#*1024) -> bad at 2
";

/// Parts that are out of their order, or there twice.
const OUT_OF_ORDER: &str = "\
END| -> bad at 1
SHEET G1 0|SHEET G1 0|END| -> bad at 2
SHEET G1 0|CUT EXEC E1|TAKE 1 0|END| -> bad at 3
SHEET G1 0|TAKE 1 0|ROOM EXEC E1 5|END| -> bad at 3
SHEET G1 0|END|END| -> bad at 3
SHEET G1 0|END||TAKE 1 0| -> bad at 4
SHEET G1 0|TAKE 1 2|TAKE 2 5|TAKE 1 2|END| -> bad at 4
SHEET G1 0|TAKE 64 1|TAKE 16000000 1|TAKE 63 1|TAKE 64 2|END| -> bad at 5
SHEET G1 0|TAKE 16000000 1|TAKE 15999999 1|TAKE 16000000 1|END| -> bad at 4
SHEET G1 0|CUT EXEC E1|CUT OFFER 1|CUT EXEC E1|END| -> bad at 4
SHEET G1 0|CUT OFFER 1|CUT OFFER 1|END| -> bad at 3
SHEET G1 0|CUT OFFER 64|CUT OFFER 16000000|CUT OFFER 63|CUT OFFER 64|END| -> bad at 5
SHEET G1 0|CUT OFFER 16000000|CUT OFFER 15999999|CUT OFFER 16000000|END| -> bad at 4
SHEET G1 0|CUT EXEC E1|CUT EXEC E2|CUT EXEC E1|END| -> bad at 4
SHEET G1 0|CUT AGR P1|CUT AGR P2|CUT EXEC P1|# a comment|CUT AGR P1|END| -> bad at 6
SHEET G1 0|CUT ACCT A1|CUT OFFER 1|CUT ACCT A2|CUT ACCT A1|END| -> bad at 5
SHEET G1 0|CUT CARRY C1|CUT EXEC C1|CUT CARRY C1|END| -> bad at 4
SHEET G1 0|CUT CARRY E1|CUT GUAR E1|CUT GUAR E2|CUT GUAR E1|END| -> bad at 5
SHEET G1 0|CUT AGR P|CUT AGR Q|CUT AGR P|END| -> bad at 4
";

/// Offers and rooms that make no view: that is bad at the end, ahead of what comes after it.
const WITHOUT_A_VIEW: &str = "\
SHEET G1 0|ROOM EXEC E1 5|END| -> bad at 3
SHEET G1 0|ROOM GUAR E2 5|END| -> bad at 3
SHEET G1 0|OFFER 1 5 P1 E1 A1 C1|END|END| -> bad at 3
SHEET G1 0|OFFER 1 5 P1 E1 A1 C1|ROOM EXEC E1 5|ROOM AGR P1 5|ROOM ACCT A1 5|ROOM CARRY C1 5|ROOM EXEC E1 5|END| -> bad at 8
";

/// Lines whose words or blanks aren't those of a form.
const OF_NO_FORM: &str = "\
(#*1025) -> bad at 1
 SHEET G1 0|END| -> bad at 1
SHEET G1 0 |END| -> bad at 1
SHEET\tG1 0|END| -> bad at 1
SHEET G1 0| |END| -> bad at 2
SHEET G1 0| # a comment|END| -> bad at 2
SHEET G1 0\r\r|END| -> bad at 1
SHEET G1 0|END\r -> bad at 2
SHEET G1 0|END END| -> bad at 2
SHEET G1|END| -> bad at 1
SHEET G1 0 0|END| -> bad at 1
SHEET G1 0|OFFER 1 5 P1 E1 A1|END| -> bad at 2
SHEET G1 0|OFFER 1 5 P1 E1 A1 C1 C2|END| -> bad at 3
SHEET G1 0|OFFER 1 5 P1 E1 A1 C1 C2 C2|END| -> bad at 2
SHEET G1 0|OFFER 1 5 P1 E1 A1 C1 c2|END| -> bad at 2
SHEET G1 0|ROOM GUARD E2 5|END| -> bad at 2
";

/// Lines with names and numbers that are none.
const OF_BAD_WORDS: &str = "\
SHEET g1 0|END| -> bad at 1
SHEET ABCDEFGHIJKLM 0|END| -> bad at 1
SHEET G1 1000000000000|END| -> bad at 1
SHEET G1 +1|END| -> bad at 1
SHEET G1 0|OFFER 0 5 P1 E1 A1 C1|END| -> bad at 2
SHEET G1 0|TAKE 0 1|END| -> bad at 2
SHEET G1 0|TAKE 16000001 1|END| -> bad at 2
SHEET G1 0|TAKE 1 1.0|END| -> bad at 2
SHEET G1 0|CUT OFFER 0|END| -> bad at 2
";

#[test]
fn are_read_or_named_by_their_first_bad_line(rt: HostRuntime) {
    let subject = Subject::Sheets(Question::IsRead);
    check(&rt, rt.alloc(), subject, SHEETS);
    check(&rt, rt.alloc(), subject, UNENDED);
    check(&rt, rt.alloc(), subject, OUT_OF_ORDER);
    check(&rt, rt.alloc(), subject, WITHOUT_A_VIEW);
    check(&rt, rt.alloc(), subject, OF_NO_FORM);
    check(&rt, rt.alloc(), subject, OF_BAD_WORDS);
}
