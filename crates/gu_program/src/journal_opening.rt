//! The journal of a day that begins or is resumed.

ghost use Rattle.std.specs.Prelude.{◌≡◌, IfOk};
ghost use Rattle.gu_keeping.specs.Chains.{IsChainOf};

use crate::error::{JournalFault, RunError};
use crate::fault::{Fault, Place};
use crate::heading::Heading;
use crate::journal_file::{FileLog, FoundFile, fault_at, opened_at, refused};
use crate::journal_name::{JournalName, NewFile};
use crate::journal_place::{JournalSink, unkept_fault, with_comments};
use crate::locking::Locks;
use gu_days::{PlayedDay, play_day};
use gu_journal::{DeviceError, FileDevice, Log, OpenError, Opened, STEP, Sink};
use gu_keeping::{Chain, DigestFault, check_digests, keep_opening, resume_text};
use gu_ref::Reference;
use gu_script::ScriptError;
use gu_server::DayJournal;
use gu_streams::StreamError;
use gu_terms::{History, Seed};
use gu_world::World;
use std::alloc::Global;
use std::fs::OpenFile;
use std::io;
use std::io::{Read, Seek, Write};
use std::rt::Files;

/// A journal that has every entry that its day begins with.
#[derive(Drop)]
pub struct BegunJournal<'a, F, K: Sink> {
    pub name: JournalName<'a, F>,
    pub journal: DayJournal<K>,
}

/// A journal in a file, at the beginning of its day.
pub type BegunFile<'a, F> = BegunJournal<'a, F, FileLog<F>>;

/// Returns the fault of a file that failed.
fn file_fault<'a, F: Read + Write + Seek + OpenFile + Drop>(
    path: &'a str,
    device: &FileDevice<F>,
) -> Fault<'a> {
    match device.fault() {
        Some(cause) => refused(path, *cause),
        None => Fault::from(StreamError::Memory),
    }
}

/// Creates the new file of a journal, empty and locked.
fn new_file<'a, R: Files>(rt: &R, at: &str, path: &'a str) -> Result<R::File, Fault<'a>>
where
    R::File: Locks,
{
    let file = opened_at(rt, at, path)?;
    match file.set_len(0) {
        Ok(()) => Ok(file),
        Err(cause) => Err(refused(path, cause)),
    }
}

/// Begins the journal of a day with its head and the lines of the entries made before firms are let in. They are written to a new file
/// beside the journal's own, which gets the journal's name later.
pub fn begin_journal<'a, R: Files + Alloc<A = Global>>(
    rt: &R,
    found: FoundFile<'a, R::File>,
    heading: &Heading,
    history: &History,
) -> Result<BegunFile<'a, R::File>, Fault<'a>>
where
    R::File: Locks,
    ensures { IfOk result (λ begun. IsChainOf begun.journal.chain history.now) }
{
    let alloc = rt.alloc();
    let FoundFile { path, file: old } = found;
    let at = format!(in alloc; "{path}.new").map_err(StreamError::from)?;
    let text = heading.text(alloc).map_err(StreamError::from)?;
    let device = FileDevice::new(alloc, new_file(rt, at.as_str(), path)?);
    let log = match Log::create(device, STEP) {
        Ok(log) => log,
        Err(stopped) => return Err(file_fault(path, stopped.place())),
    };
    match keep_opening(alloc, log, text.as_bytes(), history) {
        Ok((log, chain)) => Ok(BegunJournal {
            name: JournalName {
                path,
                new: Some(NewFile { path: at, old }),
            },
            journal: DayJournal { sink: log, chain },
        }),
        Err(unkept) => Err(unkept_fault(path, unkept)),
    }
}

/// Opens the log in a file that isn't empty, and prints how much of a torn batch is cut off.
fn opened_log<'a, R: Eprint + Files + Alloc<A = Global>>(
    rt: &R,
    found: FoundFile<'a, R::File>,
) -> Result<Opened<FileDevice<R::File>>, Fault<'a>> {
    let FoundFile { path, file } = found;
    match Log::open(rt.alloc(), FileDevice::new(rt.alloc(), file), STEP) {
        Ok(opened) => {
            if opened.torn > 0 {
                // Where this can't be written, it is lost.
                let _ = eprintln!(rt;
                    "giveup: {path}: bytes cut after its last whole line: {}",
                    opened.torn
                );
            }
            Ok(opened)
        }
        Err(stopped) => match stopped.error() {
            OpenError::Damaged => Err(fault_at(path, JournalFault::Damaged)),
            OpenError::Device(DeviceError::Memory) => Err(Fault::from(StreamError::Memory)),
            OpenError::Device(_) => Err(file_fault(path, stopped.place())),
        },
    }
}

/// Returns the world that the text of a journal leads to.
fn world_of_text<'a>(
    alloc: Global,
    path: &'a str,
    reference: Reference,
    seed: Seed,
    text: &[u8],
) -> Result<World, Fault<'a>> {
    match play_day(alloc, reference, seed, text) {
        Ok(world) => Ok(world),
        Err(ScriptError::BadLine(line)) => Err(fault_at(path, JournalFault::BadLine(line))),
        Err(error) => Err(Fault::at(Place::File(path), RunError::from(error))),
    }
}

/// Returns the chain of digests of a world's entries, if the digests in a journal's text agree with it.
fn checked_chain<'a>(
    alloc: Global,
    path: &'a str,
    text: &[u8],
    history: &History,
) -> Result<Chain, Fault<'a>>
    ensures { IfOk result (λ chain. IsChainOf chain history.now) }
{
    match check_digests(alloc, text, history) {
        Ok(chain) => Ok(chain),
        Err(DigestFault::Memory) => Err(Fault::from(StreamError::Memory)),
        Err(DigestFault::Differs(number)) => Err(fault_at(path, JournalFault::Differs(number))),
    }
}

/// The text of a day that was found where its journal is kept, and the sink that goes on with it.
#[derive(Drop)]
pub struct FoundDay<K: Sink> {
    pub sink: K,
    pub text: Vec<u8>,
}

/// A day that goes on: the world that its journal led to, and the journal.
#[derive(Drop)]
pub struct ResumedDay<K: Sink> {
    pub world: World,
    pub journal: DayJournal<K>,
}

/// A day that goes on, whose journal has a name.
#[derive(Drop)]
pub struct Resumed<'a, F, K: Sink> {
    pub world: World,
    pub begun: BegunJournal<'a, F, K>,
}

/// Goes on with a day whose journal has this text: plays its lines, compares its digests, and appends comments with the time and the
/// digest.
pub fn resume_text_of<'a, K: JournalSink>(
    alloc: Global,
    path: &'a str,
    found: FoundDay<K>,
    reference: Reference,
    heading: &Heading,
    seed: Seed,
) -> Result<ResumedDay<K>, Fault<'a>>
    ensures { IfOk result (λ resumed. IsChainOf resumed.journal.chain resumed.world.state.book.history) }
{
    let FoundDay { sink, text } = found;
    let is_of_it = heading.is_of(alloc, &text).map_err(StreamError::from)?;
    if !is_of_it {
        drop(reference);
        return Err(fault_at(path, JournalFault::Reference));
    }
    let world = world_of_text(alloc, path, reference, seed, &text)?;
    resume_played(alloc, path, sink, PlayedDay { world, text }, heading)
}

/// Goes on with a day whose journal's text was played: compares the text's digests, and appends comments with the time and the digest.
pub fn resume_played<'a, K: JournalSink>(
    alloc: Global,
    path: &'a str,
    sink: K,
    day: PlayedDay,
    heading: &Heading,
) -> Result<ResumedDay<K>, Fault<'a>>
    ensures { IfOk result (λ resumed. IsChainOf resumed.journal.chain resumed.world.state.book.history) }
{
    let PlayedDay { world, text } = day;
    let chain = checked_chain(alloc, path, &text, world.book().history())?;
    drop(text);
    let comments = heading.resumed_text(alloc).map_err(StreamError::from)?;
    let comments = resume_text(alloc, comments.as_bytes(), &chain).map_err(StreamError::from)?;
    let sink = with_comments(path, sink, &comments)?;
    Ok(ResumedDay {
        world,
        journal: DayJournal { sink, chain },
    })
}

/// Resumes the day in a file.
pub fn resume_journal<'a, R: Eprint + Files + Alloc<A = Global>>(
    rt: &R,
    found: FoundFile<'a, R::File>,
    reference: Reference,
    heading: &Heading,
    seed: Seed,
) -> Result<Resumed<'a, R::File, FileLog<R::File>>, Fault<'a>>
    ensures { IfOk result (λ resumed. IsChainOf resumed.begun.journal.chain resumed.world.state.book.history) }
{
    let path = found.path;
    let Opened { log, text, torn: _ } = opened_log(rt, found)?;
    let found = FoundDay { sink: log, text };
    let resumed = resume_text_of(rt.alloc(), path, found, reference, heading, seed)?;
    let ResumedDay { world, journal } = resumed;
    Ok(Resumed {
        world,
        begun: BegunJournal {
            name: JournalName { path, new: None },
            journal,
        },
    })
}
