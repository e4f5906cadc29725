//! The outcome of words of the command line, for tests.

use crate::engines::end_text;
use crate::rows::check_told;
use clap::Error;
use gu_program::RunError;
use gu_words::{Counted, Journal, Serving, Span, Task, UntilClosed, answer, read};
use std::alloc::{AllocError, Global};
use std::cell::Cell;
use std::fmt::Display;
use std::io;
use std::process::Abort;
use trials::columns;

/// A standard output and a standard error that count what they are given, or take nothing.
#[derive(Drop)]
struct Streams {
    alloc: Global,
    is_closed: bool,
    out: Cell<usize>,
    err: Cell<usize>,
}

impl Streams {
    /// Counts the bytes of a value as text.
    fn count<D: Display + Drop>(&self, seen: &Cell<usize>, value: D) -> io::Result<()> {
        if self.is_closed {
            return Err(io::Error::from(io::ErrorKind::BrokenPipe));
        }
        let text = format!(in self.alloc; "{value}")?;
        seen.set(seen.get().saturating_add(text.len()));
        Ok(())
    }
}

impl Print for Streams {
    fn print<D: Display + Drop>(&self, value: D) -> io::Result<()> {
        self.count(&self.out, value)
    }

    fn println<D: Display + Drop>(&self, value: D) -> io::Result<()> {
        self.count(&self.out, value)
    }

    fn write_all(&self, bytes: &[u8]) -> io::Result<()> {
        if self.is_closed {
            return Err(io::Error::from(io::ErrorKind::BrokenPipe));
        }
        self.out.set(self.out.get().saturating_add(bytes.len()));
        Ok(())
    }
}

impl Eprint for Streams {
    fn eprint<D: Display + Drop>(&self, value: D) -> io::Result<()> {
        self.count(&self.err, value)
    }

    fn eprintln<D: Display + Drop>(&self, value: D) -> io::Result<()> {
        self.count(&self.err, value)
    }
}

/// The outcome of words that ask for no task.
#[derive(Clone, Copy)]
pub enum Telling {
    /// The kind of their error, and the status that it gives.
    Kind,
    /// Their message.
    Text,
    /// How they are answered, and how many bytes are shown on standard output and on standard error.
    Answer,
    /// The same if neither takes anything.
    AnswerToNobody,
}

/// Returns how an error is answered, and how many bytes are shown on standard output and on standard error.
fn answer_text(alloc: Global, error: &Error, is_closed: bool) -> Result<String, AllocError> {
    let streams = Streams {
        alloc,
        is_closed,
        out: Cell::new(0),
        err: Cell::new(0),
    };
    let end = end_text(alloc, answer(&streams, error).map_err(RunError::from))?;
    format!(in alloc; "{end} {} {}", streams.out.get(), streams.err.get())
}

/// Returns an error's outcome.
pub fn error_text(alloc: Global, telling: Telling, error: &Error) -> Result<String, AllocError> {
    match telling {
        Telling::Kind => format!(in alloc; "{:?} {}", error.kind(), error.exit_code()),
        Telling::Text => format!(in alloc; "{error}"),
        Telling::Answer => answer_text(alloc, error, false),
        Telling::AnswerToNobody => answer_text(alloc, error, true),
    }
}

/// Returns how long a server goes on, as words.
fn span_text(alloc: Global, span: Span<'_>) -> Result<String, AllocError> {
    match span {
        Span::Counted(
            Counted {
                connections,
                console,
            },
        ) => {
            let console = console.unwrap_or("no console");
            format!(in alloc; "{connections} in all, {console}")
        }
        Span::UntilClosed(
            UntilClosed {
                console,
                places,
                workers: Some(workers),
            },
        ) => format!(in alloc; "{places} at once, {console}, workers {workers}"),
        Span::UntilClosed(
            UntilClosed {
                console,
                places,
                workers: None,
            },
        ) => format!(in alloc; "{places} at once, {console}"),
    }
}

/// Returns the port of a server, as a word.
fn port_text(alloc: Global, port: Option<u16>) -> Result<String, AllocError> {
    match port {
        Some(port) => format!(in alloc; "{port}"),
        None => String::from_str(alloc, "no port"),
    }
}

/// Returns a path with what it is, if it is named.
fn named_text(alloc: Global, what: &str, path: Option<&str>) -> Result<String, AllocError> {
    match path {
        Some(path) => format!(in alloc; ", {what} {path}"),
        None => Ok(String::new(alloc)),
    }
}

/// Returns the share of a firm, if it isn't all.
fn share_text(alloc: Global, share: u16) -> Result<String, AllocError> {
    if share == 100 {
        Ok(String::new(alloc))
    } else {
        format!(in alloc; ", share {share}")
    }
}

/// Returns what a server is started with, as words.
fn serving_text(alloc: Global, serving: Serving<'_>) -> Result<String, AllocError> {
    let Serving {
        reference,
        port,
        script,
        journal,
        span,
        every,
        watch,
        doors,
        secrets,
        log,
        share,
    } = serving;
    let port = port_text(alloc, port)?;
    let script = script.unwrap_or("no script");
    let (journal, goes_on) = match journal {
        Some(journal) => (journal.path, going_on(journal)),
        None => ("no journal", ""),
    };
    let watch = watch.unwrap_or("no watch");
    let span = span_text(alloc, span)?;
    let doors = named_text(alloc, "doors", doors)?;
    let secrets = named_text(alloc, "secrets", secrets)?;
    let logged = if log { ", log" } else { "" };
    let shares = share_text(alloc, share)?;
    format!(in alloc;
        "serve {reference} {port}, {script}, {journal}{goes_on}, {span}, {watch}, {every}{doors}{secrets}{logged}{shares}"
    )
}

/// Returns how a day goes on that its journal has already.
fn going_on(journal: Journal<'_>) -> &'static str {
    if journal.stands_by {
        " followed"
    } else if journal.resumes {
        " resumed"
    } else {
        ""
    }
}

/// Returns the lines for a desk, as words.
fn telling_text(alloc: Global, path: &str, lines: &[&str]) -> Result<String, AllocError> {
    let mut text = format!(in alloc; "tell {path}")?;
    for line in lines {
        text.push_str(", ")?;
        text.push_str(line)?;
    }
    Ok(text)
}

/// Returns a task, with its words.
fn task_text(alloc: Global, task: Task<'_>) -> Result<String, AllocError> {
    match task {
        Task::Capture => String::from_str(alloc, "capture"),
        Task::Check => String::from_str(alloc, "check"),
        Task::Replay { reference } => format!(in alloc; "replay {reference}"),
        Task::Fix {
            firm,
            reference,
            script,
        } => {
            let script = script.unwrap_or("no script");
            format!(in alloc; "fix {firm} {reference}, {script}")
        }
        Task::Serve(serving) => serving_text(alloc, serving),
        Task::Tell { path, lines } => telling_text(alloc, path, &lines),
        Task::Secret { firm } => format!(in alloc; "secret {firm}"),
    }
}

/// Returns the task that these words ask for, or their outcome.
fn told_of(alloc: Global, telling: Telling, words: &[&str]) -> Result<String, AllocError> {
    match read(alloc, words) {
        Ok(task) => task_text(alloc, task),
        Err(error) => {
            let told = error_text(alloc, telling, &error);
            drop(error);
            told
        }
    }
}

/// Returns the same for the words of a row.
pub fn told(alloc: Global, telling: Telling, row: &str) -> Result<String, AllocError> {
    let mut words = Vec::new(alloc);
    for word in row.split(' ') {
        words.push(word)?;
    }
    told_of(alloc, telling, &words)
}

/// Asserts this outcome for the words of each row.
pub fn check(rt: &impl Abort, alloc: Global, telling: Telling, table: &str) {
    for row in table.lines() {
        let (words, expected) = columns(row);
        check_told(rt, row, told(alloc, telling, words), expected);
    }
}
