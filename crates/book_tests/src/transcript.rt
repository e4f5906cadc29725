//! Transcripts: lines for a world, each with its answer after ` = `. `== name` begins one, in a world of its own,
//! whose reference is the sample. Below it `FILE name` may give another file, `ROWS row; row` for more rows, and `BEHIND name`
//! for the lines of a beginning. A line is one of a script (docs/rules/script.md), or one of these:
//!
//! - `20260105 REPORT ..`: a report that names its day
//! - `BOOK`: how many entries there are, and the open day
//! - `VIEW G1`: the view of a group; `LOOK 0`: what a worker saw last
//! - `EXTENT G1`: the first and the last open offer of a group, how many there are, and how many rooms
//! - `COUNT G1`: how many limits are set in a group, and the sums of them and of their rooms
//! - `HELD E1 H1`: the answer to a firm that asks what an account holds
//! - `PATH P1`: the keys over an agreement
//! - `NOTICES E1 7`: the notices that a firm receives for the entries from a number on
//! - `STRETCH E1 7`: for the stretch from a number on, whether it is the last one, the number from which to ask next, and how many
//!   notices it has
//! - `STRETCHES E1 7`: how many stretches there are from a number on, and how many notices they have: those of `NOTICES E1 7`
//! - `ROWS E1 H1`: how many instruments an account holds, and the lots of all, long and short
//! - `ENTRIES`: how many entries are found by their numbers
//! - `EACH 10 40 3: line; line`: these lines for each third number from 10 up to 40, which takes the place of `#`, and the next two of
//!   `#+1` and `#+2`; each answer contains what comes after ` = `
//!
//! An answer of several lines has `, ` between two of them.

use crate::beginnings::beginning;
use crate::questions::{tell_of_book, tell_view};
use crate::sample::{push_numbered, reference_of};
use crate::steps::{take_steps, tell_outcome};
use crate::words::{number, word};
use gu_book::Book;
use gu_ref::RefFault;
use gu_text::texts::append_last_word;
use gu_world::{Worker, World};
use std::alloc::{AllocError, Global};
use std::process::Abort;
use std::str;

/// How often memory may be refused to a line.
#[derive(Clone, Copy)]
pub enum Patience {
    Never,
    /// Memory is refused once to the steps, which then change nothing, and once to the answers.
    Once,
}

/// What a book of the sample shows.
const PICTURE: &str = "\
BOOK
POSITION H1 XF6
POSITION H2 XF6
POSITION A1 XF6
POSITION A2 XF6
POSITION A3 XF6
POSITION H1 YF6
POSITION H2 YF6
POSITION A1 YF6
POSITION A2 YF6
POSITION A3 YF6
INTEREST XF6
INTEREST YF6
LIMITS G1
LIMITS G2
VIEW G1
VIEW G2
NOTICES E1 1
NOTICES E2 1
NOTICES C1 1
NOTICES C2 1
";

/// Adds what a book of the sample shows.
fn show(text: &mut Vec<u8>, alloc: Global, book: &Book) -> Option<()> {
    for question in PICTURE.lines() {
        tell_of_book(text, alloc, book, question)?;
    }
    Some(())
}

/// Returns what a book of the sample shows, retrying once if memory is refused; nothing if it is refused again.
pub fn shown(alloc: Global, book: &Book) -> Option<Vec<u8>> {
    let mut text = Vec::new(alloc);
    if show(&mut text, alloc, book).is_none() {
        text.clear();
        show(&mut text, alloc, book)?;
    }
    Some(text)
}

/// Returns the same, with memory refused at most once.
pub fn picture(rt: &impl Abort, alloc: Global, book: &Book) -> Vec<u8> {
    shown(alloc, book).expect(rt, "memory")
}

/// Appends what a worker saw, from a line such as `LOOK 0`.
fn tell_look(text: &mut Vec<u8>, world: &World, line: &str) -> Option<()> {
    let worker = Worker::new(u8::try_from(number(line, 1)?).ok()?)?;
    match world.look(worker) {
        Some(view) => tell_view(text, view).ok(),
        None => append_last_word(text, b"NONE").ok(),
    }
}

/// Adds a world's answer to a question, or the outcome of its last step if there is none; nothing if memory is refused.
fn tell(text: &mut Vec<u8>, alloc: Global, world: &World, question: &str) -> Option<()> {
    match word(question, 0) {
        "" => match world.outcomes().last() {
            Ok(Some(outcome)) => tell_outcome(text, &outcome).ok(),
            _ => None,
        },
        "LOOK" => tell_look(text, world, question),
        _ => tell_of_book(text, alloc, world.book(), question),
    }
}

/// Returns a world's answer to a question, or the outcome of its last step.
fn told(
    rt: &impl Abort,
    alloc: Global,
    world: &World,
    question: &str,
    patience: Patience,
) -> Vec<u8> {
    let mut text = Vec::new(alloc);
    if tell(&mut text, alloc, world, question).is_none() {
        assert!(rt; matches!(patience, Patience::Once), "no memory: {question}");
        text.clear();
        assert!(rt;
            tell(&mut text, alloc, world, question).is_some(),
            "{question}"
        );
    }
    text
}

/// Takes the steps of a line, retrying once if memory is refused: then the book shows what it showed before.
fn take_again(rt: &impl Abort, alloc: Global, world: &mut World, line: &str) -> bool {
    let before = picture(rt, alloc, world.book());
    let count = world.outcomes().len();
    if let Some(is_step) = take_steps(alloc, world, line) {
        return is_step;
    }
    let after = picture(rt, alloc, world.book());
    assert!(rt;
        after == before,
        "refused memory, and changed something: {line}"
    );
    assert_eq!(rt; world.outcomes().len(), count, "{line}");
    take_steps(alloc, world, line).expect(rt, "memory at the second try")
}

/// Returns what answers a line, whose steps are taken before.
fn say(
    rt: &impl Abort,
    alloc: Global,
    world: &mut World,
    line: &str,
    patience: Patience,
) -> Vec<u8> {
    let is_step = match patience {
        Patience::Never => take_steps(alloc, world, line).expect(rt, "memory for each step"),
        Patience::Once => take_again(rt, alloc, world, line),
    };
    let question = if is_step { "" } else { line };
    told(rt, alloc, world, question, patience)
}

/// Writes a form with a number for each `#`.
fn fill(text: &mut String, form: &str, n: u64) -> Result<(), AllocError> {
    text.clear();
    push_numbered(text, form, n)
}

/// Returns a form with a number for each `#`, retrying once if memory is refused.
fn numbered(rt: &impl Abort, alloc: Global, form: &str, n: u64) -> String {
    let mut text = String::new(alloc);
    if fill(&mut text, form, n).is_err() {
        assert!(rt; fill(&mut text, form, n).is_ok());
    }
    text
}

/// Says a line with a number, and compares.
fn say_numbered(
    rt: &impl Abort,
    alloc: Global,
    world: &mut World,
    forms: (&str, &str),
    n: u64,
    patience: Patience,
) {
    let line = numbered(rt, alloc, forms.0, n);
    let want = numbered(rt, alloc, forms.1, n);
    let told = say(rt, alloc, world, &line, patience);
    let told = str::from_utf8(&told).unwrap_or("");
    assert!(rt;
        told.contains(want.as_str()),
        "{line} is told {told}, not {want}"
    );
}

/// Says lines for each number of some, as `EACH 10 40 3: line; line` asks for.
fn say_each(
    rt: &impl Abort,
    alloc: Global,
    world: &mut World,
    line: &str,
    want: &str,
    patience: Patience,
) {
    let (head, forms) = line.split_once(": ").expect(rt, "numbers and lines");
    let first = number(head, 1).expect(rt, "a first number");
    let end = number(head, 2).expect(rt, "an end");
    let step = number(head, 3).expect(rt, "a step");
    for n in first..end {
        if n.saturating_sub(first) % step.max(1) == 0 {
            for form in forms.split("; ") {
                say_numbered(rt, alloc, world, (form, want), n, patience);
            }
        }
    }
}

/// Returns whether an answer has these lines, with `, ` between two of them.
fn has_lines(told: &str, lines: &str) -> bool {
    let mut wanted = lines.split(", ");
    for line in told.split("\n") {
        match wanted.next() {
            Some(want) if want == line => {}
            _ => return false,
        }
    }
    wanted.next().is_none()
}

/// Says a line, and compares the answer.
fn say_one(
    rt: &impl Abort,
    alloc: Global,
    world: &mut World,
    name: &str,
    line: &str,
    patience: Patience,
) {
    let (asked, want) = line.split_once("=").expect(rt, "a line and what is told");
    let (asked, want) = (asked.trim(), want.trim());
    if word(asked, 0) == "EACH" {
        return say_each(rt, alloc, world, asked, want, patience);
    }
    let told = say(rt, alloc, world, asked, patience);
    let told = str::from_utf8(&told).unwrap_or("").trim_end();
    assert!(rt; has_lines(told, want), "{name}: {line}: told {told}");
}

/// Says lines, and compares the answer to each.
pub fn follow(
    rt: &impl Abort,
    alloc: Global,
    world: &mut World,
    name: &str,
    lines: &str,
    patience: Patience,
) {
    for line in lines.lines() {
        say_one(rt, alloc, world, name, line, patience);
    }
}

/// Returns the world of a file with more rows, or why there is none.
fn try_world(alloc: Global, file: &str, rows: &str) -> Result<World, RefFault> {
    match reference_of(alloc, file, rows) {
        Ok(reference) => Ok(World::new(alloc, reference)),
        Err(fault) => Err(fault),
    }
}

/// Returns a world of a file with more rows, read at the second try if memory is refused to the first.
pub fn world_of(
    rt: &impl Abort,
    alloc: Global,
    file: &str,
    rows: &str,
    patience: Patience,
) -> World {
    let fault = match try_world(alloc, file, rows) {
        Ok(world) => return world,
        Err(fault) => fault,
    };
    assert_eq!(rt; fault, RefFault::Memory);
    assert!(rt; matches!(patience, Patience::Once));
    match try_world(alloc, file, rows) {
        Ok(world) => world,
        Err(_) => panic!(rt; "no reference"),
    }
}

/// Returns what comes after a mark with which a text begins, up to the end of its line, and the lines below; without the mark nothing, and
/// all.
fn marked<'a>(text: &'a str, mark: &str) -> (&'a str, &'a str) {
    match text.strip_prefix(mark) {
        Some(rest) => rest.split_once("\n").unwrap_or((rest, "")),
        None => ("", text),
    }
}

/// Follows a transcript in a world of its own.
fn follow_one(rt: &impl Abort, alloc: Global, transcript: &str, patience: Patience) {
    let (name, rest) = transcript.split_once("\n").unwrap_or((transcript, ""));
    let (file, rest) = marked(rest, "FILE ");
    let (rows, rest) = marked(rest, "ROWS ");
    let (start, lines) = marked(rest, "BEHIND ");
    let mut world = world_of(rt, alloc, file, rows, patience);
    follow(rt, alloc, &mut world, name, beginning(start), patience);
    follow(rt, alloc, &mut world, name, lines, patience);
}

/// Follows transcripts.
pub fn follow_all(rt: &impl Abort, alloc: Global, transcripts: &str, patience: Patience) {
    for transcript in transcripts.split("== ") {
        if !transcript.is_empty() {
            follow_one(rt, alloc, transcript, patience);
        }
    }
}
