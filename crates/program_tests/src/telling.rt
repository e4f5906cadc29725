//! Lines for a desk: what is sent, what is shown, and the status. A row is the lines, each ended by `/`; after ` < ` the answers, each
//! ended by `//`; and after ` -> ` how it ended, `; `, what was shown, and `; ` and what was sent. `/` is LF.

use crate::engines::end_text;
use crate::rows::check_told;
use gu_program::{Telling, are_lines};
use gu_streams::CountedReads;
use std::alloc::{AllocError, Global};
use std::io::{self, Read, Write};
use trials::{AMPLE, Sink, Source, columns, joined, meant, shown, wire};

/// A desk that answers each line by the next of its answers, in pieces of this many bytes. An answer without an end ends the connection.
#[derive(Drop)]
struct Answering<'a> {
    alloc: Global,
    answers: &'a [u8],
    piece: usize,
    sent: Vec<u8>,
}

impl Read for Answering<'_> {
    fn read(&mut self, buf: &mut [u8]) -> io::Result<usize> {
        let end = match self.answers {
            [b'\n', ..] => 1,
            answers => answers
                .windows(2)
                .position(|two| two == b"\n\n".as_slice())
                .map_or(answers.len(), |place| place.saturating_add(2)),
        };
        let count = end.min(self.piece).min(buf.len());
        buf[..count].copy_from_slice(&self.answers[..count]);
        self.answers = &self.answers[count..];
        Ok(count)
    }
}

impl Write for Answering<'_> {
    fn write(&mut self, buf: &[u8]) -> io::Result<usize> {
        self.sent.extend_from_slice(buf)?;
        Ok(buf.len())
    }

    fn flush(&mut self) -> io::Result<()> {
        Ok(())
    }
}

/// Returns what came of these lines, in words.
fn told(alloc: Global, input: &str, answers: &str, piece: usize) -> Result<String, AllocError> {
    let input = wire(alloc, input)?;
    let answers = wire(alloc, answers)?;
    let mut desk = Answering {
        alloc,
        answers: answers.as_bytes(),
        piece,
        sent: Vec::new(alloc),
    };
    let mut sink = Sink::new(alloc, AMPLE.most, AMPLE.writes);
    let mut reads = CountedReads::new(Source {
        bytes: input.as_bytes(),
        lengths: &[],
        later: AMPLE.piece,
        reads: AMPLE.reads,
    });
    let ended = Telling::new(&mut desk, &mut sink).tell_input(alloc, &mut reads);
    let end = end_text(alloc, ended)?;
    let out = shown(alloc, &sink.held)?;
    let sent = shown(alloc, &desk.sent)?;
    joined(alloc, &[&end, "; ", &out, "; ", &sent])
}

/// Lines and their answers.
const TOLD: &str = "\
STATUS/ < DESK OPEN DAY 20260105// -> done; DESK OPEN DAY 20260105/; STATUS/
STATUS < DESK OPEN DAY 20260105// -> done; DESK OPEN DAY 20260105/; STATUS/
LIMIT G1 ACCT A1 50/SWEEP G1/ < 10 OK//11 SWEPT G1 0/SHEET G1 6/END// -> done; 10 OK/11 SWEPT G1 0/SHEET G1 6/END/; LIMIT G1 ACCT A1 50/SWEEP G1/
# a comment//JOURNAL/ < /// -> done; ; # a comment//JOURNAL/
nonsense/STATUS/ < BAD LINE//DESK OPEN DAY -// -> a fault; BAD LINE/DESK OPEN DAY -/; nonsense/STATUS/
CLAIM C1 1/ < 9 NO 15 LimitReached ACCT A1// -> a fault; 9 NO 15 LimitReached ACCT A1/; CLAIM C1 1/
SWEEP G1/ < STALE 3 4// -> a fault; STALE 3 4/; SWEEP G1/
SWEEP G9/ < UNKNOWN GROUP// -> a fault; UNKNOWN GROUP/; SWEEP G9/
POSITION A9 XF6/ < UNKNOWN// -> a fault; UNKNOWN/; POSITION A9 XF6/
DAY 20260106/ < FULL// -> a fault; FULL/; DAY 20260106/
DAY 20260106/ < MEMORY// -> a fault; MEMORY/; DAY 20260106/
CLOSE/ < CLOSING/ENTRIES 9/SWEPT 10/AUDIT OK// -> done; CLOSING/ENTRIES 9/SWEPT 10/AUDIT OK/; CLOSE/
CLOSE/ < CLOSING/ -> console: Ended; CLOSING/; CLOSE/
STATUS/STATUS/ < DESK OPEN// -> console: Ended; DESK OPEN/; STATUS/STATUS/
STATUS/(x*1030) < DESK OPEN// -> bad line 2; DESK OPEN/; STATUS/
";

#[test]
fn each_line_is_sent_once_the_one_before_it_is_answered(rt: HostRuntime) {
    let alloc = rt.alloc();
    for row in TOLD.lines() {
        let (given, expected) = columns(row);
        let (lines, answers) = given.split_once(" < ").unwrap_or((given, ""));
        let lines = meant(alloc, lines).expect(&rt, "memory");
        for piece in [1, 3, 4096] {
            check_told(&rt, row, told(alloc, &lines, answers, piece), expected);
        }
    }
}

/// Words that are lines for a desk, and words of which one isn't. A blank is `_`.
const WORDS: &str = "\
STATUS -> true
LIMIT_G1_ACCT_A1_5 CUT_4 CLOSE -> true
JOURNAL POSITION_A1_XF6 INTEREST_XF6 LIMITS_G1 SWEEP_G1 -> true
nonsense -> false
STATUS CLOSE_now -> false
SEE_1_G1 -> false
CUT -> false
";

/// Returns whether the words of a row may be sent.
fn may_be_sent(alloc: Global, row: &str) -> Result<bool, AllocError> {
    let mut words = Vec::new(alloc);
    for word in row.split(' ') {
        words.push(word.replace(alloc, "_", " ")?)?;
    }
    let mut lines = Vec::new(alloc);
    for word in &words {
        lines.push(word.as_str())?;
    }
    are_lines(alloc, &lines)
}

#[test]
fn a_word_that_is_no_line_is_found_before_any_is_sent(rt: HostRuntime) {
    for row in WORDS.lines() {
        let (words, expected) = columns(row);
        let may = may_be_sent(rt.alloc(), words).expect(&rt, "memory");
        let told = if may { "true" } else { "false" };
        assert_eq!(rt; told, expected, "{row}");
    }
}
