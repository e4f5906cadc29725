//! The file of a day's journal, before the day begins.

use crate::error::{JournalFault, RunError};
use crate::fault::{Fault, Place};
use crate::locking::Locks;
use gu_journal::{FileDevice, Log};
use gu_streams::StreamError;
use std::fs::{File, OpenFile};
use std::io::ErrorKind;
use std::rt::Files;
use std::{fs, io};

/// A file that can be a journal, locked by this program.
#[derive(Drop)]
pub struct FoundFile<'a, F> {
    pub path: &'a str,
    pub file: F,
}

/// The log of a day's text in a file.
pub type FileLog<F> = Log<FileDevice<F>>;

/// Returns the fault of a journal at a path.
pub fn fault_at(path: &str, fault: JournalFault) -> Fault<'_> {
    Fault::at(Place::File(path), RunError::Journal(fault))
}

/// Returns the fault of a file that the system refused, as a write fault.
pub fn refused(path: &str, cause: io::Error) -> Fault<'_> {
    Fault::refused(Place::File(path), cause, RunError::from(StreamError::Write))
}

/// Returns whether the path leads to something other than a file.
fn is_no_file<R: Files>(rt: &R, path: &str) -> io::Result<bool> {
    match fs::metadata(rt, path) {
        Ok(found) => Ok(!found.is_file()),
        Err(error) if error.kind() == ErrorKind::NotFound => Ok(false),
        Err(error) => Err(error),
    }
}

/// Opens a file for reading and writing, or creates it.
fn open_or_make<R: Files>(rt: &R, path: &str) -> io::Result<R::File> {
    File::options()
        .read(true)
        .write(true)
        .create(true)
        .open(rt, path)
}

/// Opens or creates the file at a path, and locks it. It is the journal's own file, or the new one that will replace it.
pub fn opened_at<'a, R: Files>(rt: &R, at: &str, journal: &'a str) -> Result<R::File, Fault<'a>>
where
    R::File: Locks,
{
    let file = match open_or_make(rt, at) {
        Ok(file) => file,
        Err(cause) => return Err(refused(journal, cause)),
    };
    match file.lock_out() {
        Ok(true) => Ok(file),
        Ok(false) => Err(fault_at(journal, JournalFault::InUse)),
        Err(cause) => Err(refused(journal, cause)),
    }
}

/// Returns whether there is a file at a path that isn't empty.
pub fn has_day_at<'a, R: Files>(rt: &R, path: &'a str) -> Result<bool, Fault<'a>> {
    match fs::metadata(rt, path) {
        Ok(found) => Ok(found.is_file() && found.len() > 0),
        Err(error) if error.kind() == ErrorKind::NotFound => Ok(false),
        Err(cause) => Err(refused(path, cause)),
    }
}

/// Opens or creates the file of a journal. Anything but a file is refused and left as it was, and so is a file that another program has
/// locked.
pub fn journal_at<'a, R: Files>(rt: &R, path: &'a str) -> Result<FoundFile<'a, R::File>, Fault<'a>>
where
    R::File: Locks,
{
    match is_no_file(rt, path) {
        Ok(false) => {}
        Ok(true) => return Err(fault_at(path, JournalFault::NotAFile)),
        Err(cause) => return Err(refused(path, cause)),
    }
    Ok(FoundFile {
        path,
        file: opened_at(rt, path, path)?,
    })
}

/// Opens or creates the file of a journal for a day that begins. A file that isn't empty is refused too, and left as it was.
pub fn empty_journal_at<'a, R: Files>(
    rt: &R,
    path: &'a str,
) -> Result<FoundFile<'a, R::File>, Fault<'a>>
where
    R::File: Locks,
{
    if has_day_at(rt, path)? {
        return Err(fault_at(path, JournalFault::NotEmpty));
    }
    let found = journal_at(rt, path)?;
    match found.file.metadata() {
        Ok(now) if now.len() == 0 => Ok(found),
        Ok(_) => Err(fault_at(path, JournalFault::NotEmpty)),
        Err(cause) => Err(refused(path, cause)),
    }
}
