//! The end of a day's journal.

use crate::error::{JournalFault, RunError};
use crate::fault::Fault;
use crate::journal_place::{JournalSink, error_of};
use gu_server::{JournalEnd, LostBy, LostJournal};
use gu_streams::StreamError;

/// Returns the fault of a journal that couldn't go on, with the number of its entries.
fn lost<'a, K: JournalSink>(path: &'a str, journal: LostJournal<K::Place>) -> Fault<'a> {
    let LostJournal { kept, by } = journal;
    match by {
        LostBy::Memory => Fault::lost(path, None, RunError::from(StreamError::Memory), kept),
        LostBy::Length => Fault::lost(path, None, RunError::from(StreamError::Write), kept),
        LostBy::Lease => Fault::lost(path, None, RunError::Journal(JournalFault::Fenced), kept),
        LostBy::Place(stopped) => {
            let cause = K::cause(stopped.place());
            let fault = Fault::lost(path, cause, error_of(stopped.error()), kept);
            drop(stopped);
            fault
        }
    }
}

/// Ends the journal of a day. If the journal isn't whole, the fault says why.
pub fn end_journal<'a, K: JournalSink>(
    path: &'a str,
    end: JournalEnd<K>,
    entries: usize,
) -> Result<(), Fault<'a>> {
    match end {
        JournalEnd::Whole(sink) => match sink.end() {
            Ok(()) => Ok(()),
            Err(unended) => {
                let error = error_of(unended.error);
                Err(Fault::lost(path, unended.cause, error, entries as u64))
            }
        },
        JournalEnd::Lost(journal) => Err(lost::<K>(path, journal)),
    }
}
