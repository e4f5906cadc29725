//! The client of a desk's operators.

ghost use Rattle.std.specs.Prelude.{None};

use gu_console::{TellError, Told, is_line, tell};
use std::alloc::{AllocError, Global};
use std::io::{self, Read, Write};
use trials::{Sink, Source, columns, meant};

/// Texts that are lines, and texts that are none. `/` is LF, and `~` is CR.
const LINES: &str = "\
STATUS -> yes
STATUS~ -> yes
JOURNAL -> yes
CUT 4 -> yes
CLOSE -> yes
LEAD -> yes
DAY 20260105 -> yes
LIMIT G1 EXEC E1 10 -> yes
REPORT E1 R1 M1 B XF6 10 101.5 H1 -> yes
GIVEUP E1 L1 R1 A1 7 -> yes
CLAIM C1 1 -> yes
REFUSE C1 1 2 -> yes
REVERSE C1 1 -> yes
SWEEP G1 -> yes
POSITION H1 XF6 -> yes
INTEREST XF6 -> yes
LIMITS G1 -> yes
 -> yes
# a comment -> yes
SEE 0 G1 -> no
PROPOSE 0 -> no
COMMIT 0 -> no
CUT -> no
CUT x -> no
LEAD 1 -> no
status -> no
 STATUS -> no
STATUS/ -> no
STATUS/CLOSE -> no
# a comment/CLOSE -> no
#(x*1023) -> yes
#(x*1024) -> no";

#[test]
fn a_line_is_known_before_it_is_sent(rt: HostRuntime) {
    for row in LINES.lines() {
        let (line, expected) = columns(row);
        let line = bytes_of(rt.alloc(), line).expect(&rt, "memory");
        let is = is_line(rt.alloc(), line.as_bytes());
        assert_eq!(rt; is.ok(), Some(expected == "yes"), "{row}");
    }
}

/// Returns a text with LF and CR in the places of their signs.
fn bytes_of(alloc: Global, text: &str) -> Result<String, AllocError> {
    meant(alloc, text)?
        .replace(alloc, "/", "\n")?
        .replace(alloc, "~", "\r")
}

/// A stream that gives what a desk answers, and keeps what is sent to it.
#[derive(Drop)]
struct Line<'a> {
    answers: Source<'a>,
    sent: Sink,
}

impl Read for Line<'_> {
    ghost remaining = { λ line. None };

    fn read(&mut self, buf: &mut [u8]) -> io::Result<usize> {
        self.answers.read(buf)
    }
}

impl Write for Line<'_> {
    ghost contents = { λ line. None };

    fn write(&mut self, buf: &[u8]) -> io::Result<usize> {
        self.sent.write(buf)
    }

    fn flush(&mut self) -> io::Result<()> {
        Ok(())
    }
}

/// What a desk answers to a line, and what came of it and is shown.
const ANSWERS: &str = "\
1 OK// -> answered 1 OK/
/ -> answered 
14 SWEPT G1 0/SHEET G1 1/END// -> answered 14 SWEPT G1 0/SHEET G1 1/END/
POSITION H1 XF6 12 0// -> answered POSITION H1 XF6 12 0/
DAY 20260105/CLAIM C1 1// -> answered DAY 20260105/CLAIM C1 1/
CUT// -> answered CUT/
CLOSING// -> answered CLOSING/
CLOSING/ENTRIES 9/SWEPT 10/AUDIT OK// -> answered CLOSING/ENTRIES 9/SWEPT 10/AUDIT OK/
BAD LINE// -> refused BAD LINE/
1 NO 1 NoDay// -> refused 1 NO 1 NoDay/
1000000 NO 15 LimitReached EXEC E1// -> refused 1000000 NO 15 LimitReached EXEC E1/
UNKNOWN// -> refused UNKNOWN/
UNKNOWN GROUP// -> refused UNKNOWN GROUP/
STALE 5 6// -> refused STALE 5 6/
FULL// -> refused FULL/
MEMORY// -> refused MEMORY/
NOT LEADING// -> refused NOT LEADING/
STALE// -> refused STALE/
STALEST// -> answered STALEST/
LEADING// -> answered LEADING/
# NO/1 NO 1 NoDay// -> answered # NO/1 NO 1 NoDay/
NO 1// -> answered NO 1/
1 NOT// -> answered 1 NOT/
1 OK/ -> ended 1 OK/
1 O -> ended 1 O
 -> ended ";

/// Returns the name of what came of a line.
fn name_of(told: Result<Told, TellError>) -> &'static str {
    match told {
        Ok(Told::Answered) => "answered",
        Ok(Told::Refused) => "refused",
        Ok(Told::Ended) => "ended",
        Err(TellError::Send) => "send",
        Err(TellError::Read) => "read",
        Err(TellError::Show) => "show",
    }
}

/// Sends a line whose answers come in pieces of a length, with this many reads and writes, and shows what came of it.
fn told_of(
    alloc: Global,
    answers: &str,
    length: usize,
    counts: (usize, usize, usize),
) -> Result<String, AllocError> {
    let (reads, sends, shows) = counts;
    let answers = answers.replace(alloc, "/", "\n")?;
    let mut line = Line {
        answers: Source {
            bytes: answers.as_bytes(),
            lengths: &[],
            later: length,
            reads,
        },
        sent: Sink::new(alloc, 100, sends),
    };
    let mut shown = Sink::new(alloc, 100, shows);
    let name = name_of(tell(b"STATUS", &mut line, &mut shown));
    let shown = str::from_utf8(&shown.held)
        .unwrap_or("?")
        .replace(alloc, "\n", "/")?;
    let sent = str::from_utf8(&line.sent.held)
        .unwrap_or("?")
        .replace(alloc, "\n", "/")?;
    if name != "send" && sent.as_str() != "STATUS/" {
        return format!(in alloc; "sent {sent}");
    }
    format!(in alloc; "{name} {shown}")
}

#[test]
fn an_answer_is_shown_without_its_empty_line(rt: HostRuntime) {
    for row in ANSWERS.lines() {
        let (answers, expected) = columns(row);
        for length in [1, 2, 3, 7, 4_096] {
            let told = told_of(rt.alloc(), answers, length, (100, 10, 100));
            assert_eq!(rt; told.expect(&rt, "memory").as_str(), expected, "{row}");
        }
    }
}

/// How many reads, sends and shows there are until one fails, and what came of a line.
const FAULTS: [((usize, usize, usize), &str); 4] = [
    ((100, 0, 100), "send "),
    ((100, 1, 100), "send "),
    ((2, 10, 100), "read 1 "),
    ((100, 10, 2), "show 1 "),
];

#[test]
fn a_stream_that_fails_is_told_from_an_answer(rt: HostRuntime) {
    for (counts, expected) in FAULTS {
        let told = told_of(rt.alloc(), "1 OK//", 1, counts);
        assert_eq!(rt; told.expect(&rt, "memory").as_str(), expected);
    }
}
