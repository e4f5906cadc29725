//! The end of a day: its journal, its last lines and its status.

ghost use Rattle.std.specs.Prelude.{◌≡◌, IfOk};
ghost use Rattle.gu_words.specs.Statuses.{status_of_audit};

use crate::fault::{Fault, Faults};
use crate::journal_ending::end_journal;
use crate::journal_place::JournalSink;
use gu_book::Book;
use gu_log::{Event, EventLog};
use gu_server::{DayEnd, Served};
use gu_streams::{StreamError, send};
use gu_words::Status;
use std::alloc::Global;
use std::io;
use std::rt::Clock;
use std::sync::Wait;

/// Returns the status for the end of a day, which its audit decides.
fn status_after(end: &DayEnd) -> Status
    ensures { IfOk end.now (λ made. result ≡ status_of_audit made.1) }
{
    match end {
        Ok((_, true)) => Status::Done,
        _ => Status::Fault,
    }
}

/// Logs that a day is closed, unless memory ran out at its end.
fn note_end<R: Wait + Clock>(rt: &R, log: &EventLog, book: &Book, end: &DayEnd) {
    if let Ok((_, is_audited)) = end {
        let event = Event::DayClosed {
            entries: book.history().len() as u64,
            lots: book.lots_swept(),
            is_audited: *is_audited,
        };
        log.note(rt, event);
    }
}

/// Prints the last lines of a day.
fn print_end<R: Print>(rt: &R, text: &str) -> Result<(), StreamError> {
    send(&mut io::writer(rt), text.as_bytes())
}

/// Returns the fault of a call that failed.
fn fault_after<'a>(done: Result<(), StreamError>) -> Option<Fault<'a>> {
    match done {
        Ok(()) => None,
        Err(error) => Some(Fault::from(error)),
    }
}

/// Ends a day: ends its journal and prints its last lines, even if some connections couldn't be accepted, but not if the journal lacks
/// entries. Operators that closed the day get the lines once the journal is whole. All faults are returned.
pub fn end_day<'a, R: Print + Wait + Clock + Alloc<A = Global>, K: JournalSink>(
    rt: &R,
    served: Served<K>,
    path: Option<&'a str>,
    log: &EventLog,
) -> Result<Status, Faults<'a>> {
    let Served {
        closed,
        closers,
        journal,
    } = served;
    let (end, book, fault) = closed.end(rt.alloc());
    note_end(rt, log, &book, &end);
    let entries = book.history().len();
    drop(book);
    let kept = match (path, journal) {
        (Some(path), Some(journal)) => end_journal(path, journal, entries),
        _ => Ok(()),
    };
    let printed = match (&end, &kept) {
        (Ok((text, _)), Ok(())) => print_end(rt, text),
        (Ok(_), Err(_)) => Ok(()),
        (Err(error), _) => Err(StreamError::from(*error)),
    };
    if let (Ok((text, _)), Ok(())) = (&end, &kept) {
        closers.tell(text);
    }
    drop(closers);
    let unprinted = fault_after(printed);
    let unaccepted = match fault {
        Some(fault) => Some(Fault::from(fault)),
        None => None,
    };
    match Faults::among([unprinted, kept.err(), unaccepted]) {
        Some(faults) => Err(faults),
        None => Ok(status_after(&end)),
    }
}

/// Ends a day if it was served.
pub fn end_served<'a, R: Print + Wait + Clock + Alloc<A = Global>, K: JournalSink>(
    rt: &R,
    served: Result<Served<K>, StreamError>,
    path: Option<&'a str>,
    log: &EventLog,
) -> Result<Status, Faults<'a>> {
    match served {
        Ok(served) => end_day(rt, served, path, log),
        Err(error) => Err(Faults::from(Fault::from(error))),
    }
}
