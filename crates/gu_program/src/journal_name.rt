//! The name of a journal, which a new file gets once its day can begin.

use crate::fault::Fault;
use crate::journal_file::refused;
use std::fs::{File, OpenFile};
use std::rt::Files;
use std::{fs, io};

/// A new file, and the empty file whose name it will get.
#[derive(Drop)]
pub struct NewFile<F> {
    /// The path of the new file until it gets the name.
    pub path: String,
    /// The file that has the name now: while it is open, no other program takes it for an empty journal.
    pub old: F,
}

/// The name of a journal.
#[derive(Drop)]
pub struct JournalName<'a, F> {
    pub path: &'a str,
    /// The file that will get the name, if it doesn't have it yet.
    pub new: Option<NewFile<F>>,
}

/// Returns the folder of a path.
fn folder_of(path: &str) -> &str {
    match path.rsplit_once('/') {
        Some(("", _)) => "/",
        Some((folder, _)) => folder,
        None => ".",
    }
}

/// Syncs a folder, so that the names in it survive a power cut.
fn sync_folder<R: Files>(rt: &R, folder: &str) -> io::Result<()> {
    File::open(rt, folder)?.sync_all()
}

impl<'a, F> JournalName<'a, F> {
    /// Gives a new file the name, and syncs its folder.
    pub fn give<R: Files>(&self, rt: &R) -> Result<(), Fault<'a>> {
        let Some(new) = &self.new else {
            return Ok(());
        };
        let given = fs::rename(rt, new.path.as_str(), self.path).and_then(|()| sync_folder(
            rt,
            folder_of(self.path),
        ));
        match given {
            Ok(()) => Ok(()),
            Err(cause) => Err(refused(self.path, cause)),
        }
    }

    /// Removes a new file because its day doesn't begin.
    pub fn give_up<R: Files>(&self, rt: &R) {
        if let Some(new) = &self.new {
            // A file that stays is written over by the next day that begins.
            let _ = fs::remove_file(rt, new.path.as_str());
        }
    }
}
