//! Days that end by a fault.

use crate::disk::{Disk, Kind};
use crate::machine::{Machine, Setting, Text};
use crate::rows::check_told;
use gu_journal::{FileDevice, Log};
use gu_log::EventLog;
use gu_program::{FileLog, end_day, sample_reference};
use gu_server::{Closed, Closers, DayReceipts, JournalEnd, LostBy, LostJournal, Served};
use gu_streams::StreamError;
use gu_terms::Seed;
use gu_words::Status;
use gu_world::World;
use std::alloc::{AllocError, Global};
use std::fs::{File, OpenFile};
use std::io::{Read, Seek, Write};
use std::sync::{Mutex, Wait};
use trials::shown;

/// The fate of a day's journal.
#[derive(Clone, Copy)]
enum Fate {
    /// The day has none.
    None,
    /// It has each entry.
    Whole,
    /// Memory failed, and it has no entry.
    Lost,
}

/// Returns the day of a book without entries that a fault in reading ended.
fn faulty_day(alloc: Global) -> Option<Closed> {
    let reference = sample_reference(alloc).ok()?;
    let world = World::seeded(alloc, reference, Seed::new(0));
    let book = world.into_book();
    match DayReceipts::new(alloc, Vec::new(alloc), 0) {
        Ok(receipts) => Some(Closed {
            book,
            receipts,
            fault: Some(StreamError::Read),
        }),
        Err(_) => {
            drop(book);
            None
        }
    }
}

/// Returns a log without text in the file `log`.
fn empty_log<'a, R: Wait>(machine: &Machine<'a, R>) -> Option<FileLog<Text<'a, R>>> {
    let file = File::options()
        .read(true)
        .write(true)
        .create(true)
        .open(machine, "log")
        .ok()?;
    Log::create(FileDevice::new(machine.alloc, file), 1_000).ok()
}

/// Returns what became of a journal of this fate, in this log if it is whole.
fn journal_of<F: Read + Write + Seek + OpenFile + Drop>(
    fate: Fate,
    log: Option<FileLog<F>>,
) -> Option<JournalEnd<FileLog<F>>> {
    match (fate, log) {
        (Fate::Whole, Some(log)) => Some(JournalEnd::Whole(log)),
        (Fate::Lost, None) => Some(JournalEnd::Lost(LostJournal {
            kept: 0,
            by: LostBy::Memory,
        })),
        (_, log) => {
            drop(log);
            None
        }
    }
}

/// Ends such a day on a machine, whose journal has this fate, and returns the status.
fn end_on<R: Wait, F: Read + Write + Seek + OpenFile + Drop>(
    machine: &Machine<'_, R>,
    fate: Fate,
    log: Option<FileLog<F>>,
) -> Option<u32> {
    let Some(closed) = faulty_day(machine.alloc) else {
        drop(log);
        return None;
    };
    let path = match fate {
        Fate::None => None,
        Fate::Whole | Fate::Lost => Some("log"),
    };
    let served = Served {
        closed,
        closers: Closers::new(Vec::new(machine.alloc)),
        journal: journal_of(fate, log),
    };
    match end_day(machine, served, path, &EventLog::silent()) {
        Ok(Status::Done) => Some(0),
        Ok(_) => Some(2),
        Err(faults) => {
            faults.tell(machine, false);
            Some(1)
        }
    }
}

/// Returns the outcome of such a day, whose journal has this fate.
fn told<R: Wait>(host: &R, alloc: Global, fate: Fate) -> Result<String, AllocError> {
    let mut files = Disk::new(alloc);
    files.add("log", Kind::Sound, b"")?;
    let disk = Mutex::new(files);
    let opened = Mutex::new(Vec::new(alloc));
    let machine = Machine {
        host,
        alloc,
        words: &[],
        files: &[],
        input: b"",
        setting: Setting::Usual,
        port: Mutex::new(None),
        disk: &disk,
        out: Mutex::new(Vec::new(alloc)),
        err: Mutex::new(Vec::new(alloc)),
        opened: &opened,
    };
    let log = match fate {
        Fate::Whole => empty_log(&machine),
        Fate::None | Fate::Lost => None,
    };
    let status = end_on(&machine, fate, log).unwrap_or(9);
    let opened = shown(alloc, machine.opened.lock(host).as_slice())?;
    let out = shown(alloc, machine.out.lock(host).as_slice())?;
    let err = shown(alloc, machine.err.lock(host).as_slice())?;
    format!(in alloc; "{status} {opened}; {out}; {err}")
}

#[test]
fn a_day_that_a_fault_ends_has_its_lines_where_its_journal_is_whole(rt: HostRuntime) {
    let alloc = rt.alloc();
    let lines = "ENTRIES 0/SWEPT 0/AUDIT OK/";
    for (fate, end) in [
        (Fate::None, "1 ; L; giveup: read fault/"),
        (Fate::Whole, "1 +log !log !log ; L; giveup: read fault/"),
        (
            Fate::Lost,
            "1 ; ; giveup: out of memory/giveup: log: entries that it has: 0/giveup: read fault/",
        ),
    ] {
        let expected = end.replace(alloc, "L", lines).expect(&rt, "memory");
        check_told(&rt, end, told(&rt, alloc, fate), &expected);
    }
}
