//! The places of journals: a file, or a log in etcd.

use crate::error::{JournalFault, RunError};
use crate::fault::{Fault, Place};
use crate::journal_file::{FileLog, fault_at, refused};
use gu_journal::{FileDevice, Sink, SinkError, Stopped, is_batch};
use gu_keeping::Unkept;
use gu_streams::StreamError;
use std::fs::OpenFile;
use std::io;
use std::io::{Read, Seek, Write};

/// Why a journal couldn't be ended.
#[derive(Clone, Copy, Debug, Drop)]
pub struct Unended {
    pub error: SinkError,
    /// The system's reason, if there is one.
    pub cause: Option<io::Error>,
}

/// A sink for a journal that the program can end, and whose failures it can explain.
pub trait JournalSink: Sink + Drop {
    /// Returns the system's reason for which the place failed, if there is one.
    fn cause(place: &Self::Place) -> Option<io::Error>;

    /// Ends the journal of a day.
    fn end(self) -> Result<(), Unended>;
}

impl<F: Read + Write + Seek + OpenFile + Drop> JournalSink for FileLog<F> {
    fn cause(place: &FileDevice<F>) -> Option<io::Error> {
        place.fault().copied()
    }

    /// The file then has its text and nothing else.
    fn end(self) -> Result<(), Unended> {
        match self.finish() {
            Ok(device) => {
                drop(device);
                Ok(())
            }
            Err(stopped) => {
                let cause = stopped.place().fault().copied();
                drop(stopped);
                Err(Unended {
                    error: SinkError::Failed,
                    cause,
                })
            }
        }
    }
}

/// Returns the error of a run whose journal stopped for this reason.
pub fn error_of(error: SinkError) -> RunError {
    match error {
        SinkError::Memory => RunError::from(StreamError::Memory),
        SinkError::Failed | SinkError::Full => RunError::from(StreamError::Write),
        SinkError::Fenced => RunError::Journal(JournalFault::Fenced),
    }
}

/// Returns the fault of a journal's place that stopped.
pub fn stopped_fault<'a, K: JournalSink>(
    path: &'a str,
    stopped: Stopped<K::Place, SinkError>,
) -> Fault<'a> {
    let cause = K::cause(stopped.place());
    let error = error_of(stopped.error());
    drop(stopped);
    match cause {
        Some(cause) => refused(path, cause),
        None => Fault::at(Place::File(path), error),
    }
}

/// Returns the fault of an opening that couldn't be kept.
pub fn unkept_fault<'a, K: JournalSink>(path: &'a str, unkept: Unkept<K, K::Place>) -> Fault<'a> {
    match unkept {
        Unkept::Memory(sink) => {
            drop(sink);
            Fault::from(StreamError::Memory)
        }
        Unkept::Missing(sink) | Unkept::TooLong(sink) => {
            drop(sink);
            Fault::at(Place::File(path), RunError::from(StreamError::Write))
        }
        Unkept::Failed(stopped) => stopped_fault::<K>(path, stopped),
    }
}

/// Appends comments to a journal.
pub fn with_comments<'a, K: JournalSink>(
    path: &'a str,
    sink: K,
    comments: &[u8],
) -> Result<K, Fault<'a>> {
    if !is_batch(comments) {
        drop(sink);
        return Err(Fault::at(Place::File(path), RunError::from(StreamError::Write)));
    }
    match sink.append(comments) {
        Ok(sink) => Ok(sink),
        Err(stopped) => Err(stopped_fault::<K>(path, stopped)),
    }
}
