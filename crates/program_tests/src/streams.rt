//! Engines over streams that are cut, that fail, or that are long. A row of a table of terms is ` -> `, how the run ends, `: `, and how
//! many bytes of the answer are written then.

use crate::engines::{Engine, told};
use crate::rows::{check, check_cuts, check_numbered, check_terms, check_told, told_of_text};
use std::alloc::{AllocError, Global};
use std::process::Abort;
use trials::{AMPLE, Terms, front_told, wire};

/// Two reports of one trade, of 141 and 136 bytes.
const REPORTS: &str =
    "8=FIXT.1.1|9=117|35=AE|49=E1|56=GIVEUP|34=1|52=20260105-09:00:00|571=R1|880=M1|55=XF6|32=0010.0|31=101.50|75=20260105|552=1|54=1|1=H1|10=222|8=FIXT.1.1|9=112|35=AE|49=E2|56=GIVEUP|34=1|52=20260105-09:00:00|571=R2|880=M1|55=XF6|32=10|31=101.5|75=20260105|552=1|54=2|1=H2|10=239|";

/// Two acknowledgements of 95 bytes each, and the positions, of 42 bytes.
const POSITIONS: &str =
    "8=FIXT.1.1|9=72|35=AR|49=GIVEUP|56=E1|34=1|52=20260105-00:00:00.000|571=R1|880=M1|939=0|10=121|8=FIXT.1.1|9=72|35=AR|49=GIVEUP|56=E2|34=2|52=20260105-00:00:00.000|571=R2|880=M1|939=0|10=124|POSITION H1 XF6 10 0/POSITION H2 XF6 0 10/";

/// Cut in one piece, byte by byte and in pieces of 100 bytes; in pieces of 64 bytes, with the reports ending in the third and the fifth,
/// and the sixth read finds the end; with at most 50 bytes a write: two writes for each acknowledgement, and one for the positions; with
/// writes that take nothing.
const CAPTURES: &str = "\
first 277 -> done: 232
piece 1 -> done: 232
piece 100 -> done: 232
piece 64, reads 0 -> read fault: 0
piece 64, reads 1 -> read fault: 0
piece 64, reads 2 -> read fault: 0
piece 64, reads 3 -> read fault: 95
piece 64, reads 4 -> read fault: 95
piece 64, reads 5 -> read fault: 190
piece 64, reads 6 -> done: 232
piece 64, most 50, writes 0 -> write fault: 0
piece 64, most 50, writes 1 -> write fault: 50
piece 64, most 50, writes 2 -> write fault: 95
piece 64, most 50, writes 3 -> write fault: 145
piece 64, most 50, writes 4 -> write fault: 190
piece 64, most 50, writes 5 -> done: 232
most 0 -> write fault: 0
";

#[test]
fn two_reports_make_a_trade_however_they_are_cut_and_what_was_answered_stays(rt: HostRuntime) {
    let alloc = rt.alloc();
    check_terms(&rt, alloc, Engine::Capture, REPORTS, POSITIONS, CAPTURES);
    check_cuts(&rt, alloc, Engine::Capture, REPORTS, POSITIONS);
}

/// Returns the report of a run whose input comes byte by byte, with this many reads.
fn told_by_bytes(
    alloc: Global,
    engine: Engine,
    input: &str,
    reads: usize,
) -> Result<String, AllocError> {
    let terms = Terms {
        first: 1,
        piece: 1,
        reads,
        ..AMPLE
    };
    told_of_text(alloc, engine, input, terms)
}

/// How a capture of the reports ends that has fewer reads than this, and at least as many as the row before says: the first report has
/// 141 bytes, both have 277, and one read more finds the end.
const BYTE_BY_BYTE: [(usize, &str); 4] = [
    (141, "read fault: 0"),
    (277, "read fault: 95"),
    (278, "read fault: 190"),
    (279, "done: 232"),
];

#[test]
fn the_reports_that_came_are_answered_where_the_reader_fails(rt: HostRuntime) {
    let alloc = rt.alloc();
    let mut from: usize = 0;
    for (to, end) in BYTE_BY_BYTE {
        let expected = front_told(alloc, end, POSITIONS).expect(&rt, "memory");
        for reads in from..to {
            let told = told_by_bytes(alloc, Engine::Capture, REPORTS, reads);
            check_numbered(&rt, alloc, reads, told, &expected);
        }
        from = to;
    }
}

/// Returns the expected report if each of this many writes takes one byte, and later ones none.
fn front_of_bytes(alloc: Global, writes: usize) -> Result<String, AllocError> {
    let end = format!(in alloc; "write fault: {writes}")?;
    front_told(alloc, &end, POSITIONS)
}

#[test]
fn what_is_taken_byte_by_byte_is_a_prefix_of_the_answers(rt: HostRuntime) {
    let alloc = rt.alloc();
    for writes in 0..232 {
        let expected = front_of_bytes(alloc, writes).expect(&rt, "memory");
        let terms = Terms {
            most: 1,
            writes,
            ..AMPLE
        };
        let told = told_of_text(alloc, Engine::Capture, REPORTS, terms);
        check_numbered(&rt, alloc, writes, told, &expected);
    }
    let enough = "most 1, writes 232 -> done: 232";
    check_terms(&rt, alloc, Engine::Capture, REPORTS, POSITIONS, enough);
}

/// Bytes that begin no message, one a read: with 999,999 the last read finds the end; after 1,000,000 no read is left.
const MOST_READS: &str = "\
(x*999999) -> done: 
(x*1000000) -> read fault: 
(x*1000001) -> read fault: 
";

#[test]
fn a_million_reads_are_the_most(rt: HostRuntime) {
    check(&rt, rt.alloc(), Engine::Capture, "piece 1", MOST_READS);
}

/// Returns bytes that begin no message, one a read, and then the two reports.
fn told_after_thousands(alloc: Global) -> Result<String, AllocError> {
    let input = format!(in alloc; "(x*3000){REPORTS}")?;
    told_of_text(alloc, Engine::Capture, &input, Terms::of("piece 1"))
}

#[test]
fn reports_are_answered_after_thousands_of_reads(rt: HostRuntime) {
    let expected = front_told(rt.alloc(), "done: 232", POSITIONS).expect(&rt, "memory");
    check_told(
        &rt,
        "after 3,000 bytes",
        told_after_thousands(rt.alloc()),
        &expected,
    );
}

/// A sheet without offers.
const SHEET: &str = "SHEET G1 0/END/";

/// Cut in pieces; in two of eight bytes, and the read that finds the end; with at most four bytes a write.
const CHECKS: &str = "\
piece 1 -> done: 5
piece 2 -> done: 5
piece 7 -> done: 5
piece 15 -> done: 5
piece 8, reads 0 -> read fault: 0
piece 8, reads 1 -> read fault: 0
piece 8, reads 2 -> read fault: 0
piece 8, reads 3 -> done: 5
most 4, writes 0 -> write fault: 0
most 4, writes 1 -> write fault: 4
most 4, writes 2 -> done: 5
";

#[test]
fn a_sheet_may_come_in_pieces_and_a_failing_read_leaves_nothing_written(rt: HostRuntime) {
    let alloc = rt.alloc();
    check_terms(&rt, alloc, Engine::Check, SHEET, "OK 0/", CHECKS);
    check_cuts(&rt, alloc, Engine::Check, SHEET, "OK 0/");
}

/// Sheets of which one read gives all but their end, or one line is bad: then it is named, whatever the reader has after it.
const BAD_LINES: &str = "\
X/SHEET G1 0/END/(#/*5000) -> bad line 1: 
SHEET G1 0/X -> read fault: 
SHEET G1 0/X/END/ -> bad line 2: 
SHEET G1 0/END/END/ -> bad line 3: 
SHEET G1 0/END/X -> read fault: 
SHEET G1 0/END -> read fault: 
SHEET G1 6/OFFER 1 5 P1 E1 A1 C1/END/ -> bad line 3: 
SHEET G1 6/OFFER 1 5 P1 E1 A1 C1/END -> read fault: 
SHEET G1 0/ -> read fault: 
";

/// The same sheets, if a second read finds the end.
const BAD_AT_THE_END: &str = "\
SHEET G1 0/X -> bad line 2: 
SHEET G1 0/END/X -> bad line 3: 
SHEET G1 0/END -> done: OK 0/
SHEET G1 6/OFFER 1 5 P1 E1 A1 C1/END -> bad line 3: 
SHEET G1 0/ -> bad line 2: 
SHEET G1 0/#/ -> bad line 3: 
 -> bad line 1: 
";

/// And byte by byte.
const BAD_BY_BYTES: &str = "\
X -> bad line 1: 
SHEET G1 0/X/END/ -> bad line 2: 
SHEET G1 0//#\r/END/END/ -> bad line 5: 
SHEET G1 0/END\r/ -> done: OK 0/
SHEET G1 0/END\r -> bad line 2: 
SHEET G1 0/(#*1025)/END/ -> bad line 2: 
SHEET G1 0/(#*1024)\r/END/ -> done: OK 0/
";

#[test]
fn a_bad_line_of_a_sheet_is_named_whatever_comes_after_it(rt: HostRuntime) {
    let alloc = rt.alloc();
    check(&rt, alloc, Engine::Check, "reads 1", BAD_LINES);
    check(&rt, alloc, Engine::Check, "reads 2", BAD_AT_THE_END);
    check(&rt, alloc, Engine::Check, "piece 1", BAD_BY_BYTES);
}

/// Sheets that come in three pieces of 512 bytes, after which the reader fails: a line that may end well waits, and one that can't is bad.
const LONG_LINES: &str = "\
(x*10000) -> bad line 1: 
(#*1025) -> read fault: 
(#*1026) -> bad line 1: 
SHEET G1 0/(#*1025) -> read fault: 
SHEET G1 0/(#*1026) -> bad line 2: 
SHEET G1 0/END/(#*1026) -> bad line 3: 
";

#[test]
fn a_line_of_a_sheet_that_is_too_long_is_bad_before_it_ends(rt: HostRuntime) {
    let alloc = rt.alloc();
    check(&rt, alloc, Engine::Check, "piece 512, reads 3", LONG_LINES);
    check(
        &rt,
        alloc,
        Engine::Check,
        "piece 512, reads 2",
        "(x*10000) -> read fault: ",
    );
}

/// A script with comments, empty lines and a CR before an LF, and, on lines that begin with `< `, what answers it.
const SPACED: &str =
    "# A day is opened./DAY 20260105/< 1 OK/LIMIT G1 EXEC E1 100/< 2 OK/LIMIT G1 AGR P1 100/< 3 OK/LIMIT G1 ACCT A1 100/< 4 OK/LIMIT G1 CARRY C1 100/< 5 OK//REPORT E1 R1 M1 B XF6 10 101.5 H1/< 6 OK OPEN/REPORT E2 R2 M1 S XF6 10 101.5 H2/< 7 OK MATCHED/GIVEUP E1 L1 R1 A1 10/< 8 OK OFFERS 1 1/SWEEP G1/< 9 SWEPT G1 10/< SHEET G1 6/< OFFER 1 10 P1 E1 A1 C1/< ROOM EXEC E1 100/< ROOM AGR P1 100/< ROOM ACCT A1 100/< ROOM CARRY C1 100/< TAKE 1 10/< CUT OFFER 1/< END/POSITION A1 XF6\r/< POSITION A1 XF6 10 0/";

/// Returns the script of `SPACED`, and what answers it.
fn spaced(alloc: Global) -> Result<(String, String), AllocError> {
    let mut script = String::new(alloc);
    let mut answers = String::new(alloc);
    for line in SPACED.split_inclusive('/') {
        match line.strip_prefix("< ") {
            Some(text) => answers.push_str(text)?,
            None => script.push_str(line)?,
        }
    }
    Ok((script, answers))
}

/// Cut in pieces.
const REPLAYS: &str = "\
piece 1 -> done: all
piece 2 -> done: all
piece 7 -> done: all
piece 64 -> done: all
piece 4096 -> done: all
";

#[test]
fn a_script_is_answered_alike_however_it_is_cut(rt: HostRuntime) {
    let alloc = rt.alloc();
    let (script, answers) = spaced(alloc).expect(&rt, "memory");
    check_terms(&rt, alloc, Engine::Replay, &script, &answers, REPLAYS);
    check_cuts(&rt, alloc, Engine::Replay, &script, &answers);
}

/// Two days, of 13 bytes each.
const DAYS: &str = "DAY 20260105/DAY 20260106/";

/// A line a read: the first is answered by a write of its own, before the second is read.
const LINE_BY_LINE: &str = "\
piece 13, writes 0 -> write fault: 0
piece 13, writes 1 -> write fault: 5
piece 13, writes 2 -> done: 10
piece 13, reads 1 -> read fault: 5
";

#[test]
fn a_line_is_answered_before_the_next_is_read(rt: HostRuntime) {
    let alloc = rt.alloc();
    check_terms(&rt, alloc, Engine::Replay, DAYS, "1 OK/2 OK/", LINE_BY_LINE);
}

/// Asserts that a script that comes byte by byte, and fails at one of these reads, is answered so.
fn check_reads(
    rt: &impl Abort,
    alloc: Global,
    script: &str,
    from: usize,
    to: usize,
    answers: &str,
) {
    let expected = front_told(alloc, "read fault: all", answers).expect(rt, "memory");
    for reads in from..to {
        let told = told_by_bytes(alloc, Engine::Replay, script, reads);
        check_numbered(rt, alloc, reads, told, &expected);
    }
}

#[test]
fn the_lines_that_came_are_answered_where_the_reader_fails(rt: HostRuntime) {
    let alloc = rt.alloc();
    let (script, _) = spaced(alloc).expect(&rt, "memory");
    let mut came: usize = 0;
    let mut answers = String::new(alloc);
    for line in SPACED.split_inclusive('/') {
        if let Some(text) = line.strip_prefix("< ") {
            answers.push_str(text).expect(&rt, "memory");
        } else {
            let end = came.saturating_add(line.len());
            check_reads(&rt, alloc, &script, came, end, &answers);
            came = end;
        }
    }
    assert_eq!(rt; came, script.len());
}

/// Returns the report of a script whose answers are taken in this many writes of at most sixteen bytes.
fn told_in_writes(alloc: Global, script: &str, writes: usize) -> Result<String, AllocError> {
    let terms = Terms {
        most: 16,
        writes,
        ..AMPLE
    };
    told_of_text(alloc, Engine::Replay, script, terms)
}

/// Returns the expected report if this many writes are too few.
fn prefix_in_writes(alloc: Global, answers: &str, writes: usize) -> Result<String, AllocError> {
    let taken = format!(in alloc; "write fault: {}", writes.saturating_mul(16))?;
    front_told(alloc, &taken, answers)
}

/// Asserts that what too few writes take is a prefix of the text.
fn check_few(rt: &impl Abort, alloc: Global, script: &str, answers: &str, writes: usize) {
    let expected = prefix_in_writes(alloc, answers, writes).expect(rt, "memory");
    let told = told_in_writes(alloc, script, writes);
    check_numbered(rt, alloc, writes, told, &expected);
}

/// Asserts that this many writes are enough.
fn check_enough(rt: &impl Abort, alloc: Global, script: &str, answers: &str, writes: usize) {
    let expected = front_told(alloc, "done: all", answers).expect(rt, "memory");
    let told = told_in_writes(alloc, script, writes);
    check_told(rt, "enough writes", told, &expected);
}

#[test]
fn what_the_writer_took_is_a_prefix_of_the_text(rt: HostRuntime) {
    let alloc = rt.alloc();
    let (script, answers) = spaced(alloc).expect(&rt, "memory");
    // A text that is written at once.
    let enough = answers.len().div_ceil(16);
    for writes in 0..enough {
        check_few(&rt, alloc, &script, &answers, writes);
    }
    check_enough(&rt, alloc, &script, &answers, enough);
}

/// Scripts whose last line lacks its end, or has a CR. Only the CR before an LF is dropped, and only one.
const LAST_LINES: &str = "\
DAY 20260105 -> done: 1 OK/
 -> done: 
//#/DAY 20260105 -> done: 1 OK/
DAY 20260105\r/ -> done: 1 OK/
DAY 20260105/\r/ -> done: 1 OK/
DAY 20260105\r -> bad line 1: 
DAY 20260105\r\r/ -> bad line 1: 
DAY 20260105/\r -> bad line 2: 1 OK/
#//DAY -> bad line 3: 
#//\r/DAY/#/ -> bad line 4: 
";

#[test]
fn the_last_line_may_lack_its_end(rt: HostRuntime) {
    check(&rt, rt.alloc(), Engine::Replay, "", LAST_LINES);
}

/// A day, and after it a comment of 1,024 bytes or more.
const COMMENTS: &str = "\
DAY 20260105/(#*1024) -> done: 1 OK/
DAY 20260105/(#*1024)\r/ -> done: 1 OK/
DAY 20260105/(#*1025) -> bad line 2: 1 OK/
DAY 20260105/(#*1025)\r/ -> bad line 2: 1 OK/
";

/// The same if the reader fails after the comment: a line that may end well waits, and one that can't is refused.
const COMMENTS_WITHOUT_END: &str = "\
DAY 20260105/(#*1024) -> read fault: 1 OK/
DAY 20260105/(#*1025) -> read fault: 1 OK/
DAY 20260105/(#*1026) -> bad line 2: 1 OK/
";

/// And after a longer one.
const LONGER_COMMENT: &str = "DAY 20260105/(#*10000) -> bad line 2: 1 OK/";

#[test]
fn a_line_that_is_too_long_is_refused_before_it_ends(rt: HostRuntime) {
    let alloc = rt.alloc();
    let replay = Engine::Replay;
    check(&rt, alloc, replay, "", COMMENTS);
    // In pieces of 512 bytes: three, and twenty.
    check(
        &rt,
        alloc,
        replay,
        "piece 512, reads 3",
        COMMENTS_WITHOUT_END,
    );
    check(&rt, alloc, replay, "piece 512, reads 20", LONGER_COMMENT);
}
