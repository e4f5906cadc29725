//! A day that is ready to be served: its files read, and its journal begun or gone on with.

ghost use Rattle.std.specs.Prelude.{◌≡◌, IfOk, IfSome};
ghost use Rattle.std.proofs.Props.{props};
ghost use Rattle.gu_keeping.specs.Chains.{IsChainOf};

use crate::error::JournalFault;
use crate::fault::Fault;
use crate::files::{digested_reference_at, secrets_at, world_after};
use crate::heading::Heading;
use crate::journal_file::{FileLog, empty_journal_at, fault_at, has_day_at, journal_at};
use crate::journal_log::{begin_in_log, is_opened};
use crate::journal_name::JournalName;
use crate::journal_opening::{
    BegunFile, BegunJournal, FoundDay, Resumed, ResumedDay, begin_journal, resume_journal,
    resume_text_of,
};
use crate::journal_place::JournalSink;
use crate::locking::Locks;
use crate::seeding::seed_from;
use crate::serving::Begun;
use gu_journal::Sink;
use gu_ref::Reference;
use gu_script::RefusedLines;
use gu_secrets::Secrets;
use gu_server::DayJournal;
use gu_streams::StreamError;
use gu_terms::{FirmId, History, Seed};
use gu_words::{Journal, Serving};
use gu_world::World;
use jiff::Timestamp;
use std::alloc::Global;
use std::random::RandomSource;
use std::rt::{Clock, Files};
use std::time::{SystemTime, UNIX_EPOCH};

/// A day that is ready to be served.
pub struct Ready<'a, F, K: Sink> {
    world: World,
    begun: Option<BegunJournal<'a, F, K>>,
    ghost journaled: { IfSome begun (λ b. IsChainOf b.journal.chain world.state.book.history) } by { Prim.hlevel props },
}

/// A ready day whose journal is in a file.
pub type ReadyFile<'a, F> = Ready<'a, F, FileLog<F>>;

impl<'a, F, K: Sink> Ready<'a, F, K> {
    /// Returns the name of the journal, if there is one, and what a server begins with if its firms have these secrets.
    pub fn into_parts(self, secrets: Option<Secrets>) -> (Option<JournalName<'a, F>>, Begun<K>) {
        let Ready { world, begun } = self;
        match begun {
            Some(BegunJournal { name, journal }) => {
                let journal = Some(journal);
                (
                    Some(name),
                    Begun {
                        world,
                        journal,
                        secrets,
                    },
                )
            }
            None => {
                let journal = None;
                (
                    None,
                    Begun {
                        world,
                        journal,
                        secrets,
                    },
                )
            }
        }
    }
}

/// Prints on standard error which lines of a script were refused, and how many there are. What can't be written is lost.
fn say_refused<R: Eprint>(rt: &R, refused: &RefusedLines) {
    for line in refused.first() {
        let _ = eprintln!(rt; "giveup: line {}: {}", line.number, line.why);
    }
    if refused.count() > 0 {
        let _ = eprintln!(rt; "giveup: refused lines: {}", refused.count());
    }
}

/// Returns the current time.
fn time<R: Clock>(rt: &R) -> Option<Timestamp> {
    let now = SystemTime::now(rt).ok()?;
    let since = now.duration_since(UNIX_EPOCH).ok()?;
    Timestamp::from_millisecond(i64::try_from(since.as_millis()).ok()?).ok()
}

/// Begins the journal of a day, if it has one, with the entries made before firms are let in.
fn begun_journal<'a, R: Files + Alloc<A = Global>>(
    rt: &R,
    serving: &Serving<'a>,
    heading: &Heading,
    history: &History,
) -> Result<Option<BegunFile<'a, R::File>>, Fault<'a>>
where
    R::File: Locks,
    ensures { IfOk result (λ begun. IfSome begun (λ b. IsChainOf b.journal.chain history.now)) }
{
    let Some(journal) = serving.journal else {
        return Ok(None);
    };
    let found = empty_journal_at(rt, journal.path)?;
    let begun = begin_journal(rt, found, heading, history)?;
    Ok(Some(begun))
}

/// Returns the world after a script. Refused lines of the script are printed on standard error.
fn begun_world<'a, R: Eprint + Files + Alloc<A = Global>>(
    rt: &R,
    serving: &Serving<'a>,
    reference: Reference,
    seed: Seed,
) -> Result<World, Fault<'a>> {
    let (world, refused) = world_after(rt, reference, serving.script, seed)?;
    if let Some(refused) = &refused {
        say_refused(rt, refused);
    }
    drop(refused);
    Ok(world)
}

/// Returns a day that begins after a script, and begins its journal, if it has one.
fn begun_day<'a, R: Eprint + Files + Alloc<A = Global>>(
    rt: &R,
    serving: &Serving<'a>,
    begins: Begins,
) -> Result<ReadyFile<'a, R::File>, Fault<'a>>
where
    R::File: Locks,
{
    let Begins {
        seed,
        reference,
        heading,
    } = begins;
    let world = begun_world(rt, serving, reference, seed)?;
    let begun = begun_journal(rt, serving, &heading, world.book().history())?;
    Ok(Ready { world, begun })
}

/// Returns the path of the journal to resume, if there is one.
fn journal_to_resume<'a, R: Files>(
    rt: &R,
    serving: &Serving<'a>,
) -> Result<Option<&'a str>, Fault<'a>> {
    match serving.journal {
        Some(
            Journal {
                path,
                resumes: true,
                ..
            },
        ) if has_day_at(rt, path)? => Ok(Some(path)),
        _ => Ok(None),
    }
}

/// Makes a day ready whose journal, if it has one, is in a file: it goes on if its journal is to be resumed and has lines, and otherwise
/// begins after the script.
pub fn made_ready<'a, R: Eprint + Files + Alloc<A = Global>>(
    rt: &R,
    serving: &Serving<'a>,
    begins: Begins,
) -> Result<ReadyFile<'a, R::File>, Fault<'a>>
where
    R::File: Locks,
{
    match journal_to_resume(rt, serving)? {
        Some(path) => {
            let found = journal_at(rt, path)?;
            let Begins {
                seed,
                reference,
                heading,
            } = begins;
            let Resumed { world, begun } = resume_journal(rt, found, reference, &heading, seed)?;
            Ok(Ready {
                world,
                begun: Some(begun),
            })
        }
        None => begun_day(rt, serving, begins),
    }
}

/// Returns a day whose journal has a name and goes on from here.
pub fn named<'a, F, K: Sink>(path: &'a str, world: World, journal: DayJournal<K>) -> Ready<'a, F, K>
    requires { IsChainOf journal.chain world.state.book.history }
{
    let name = JournalName { path, new: None };
    Ready {
        world,
        begun: Some(BegunJournal { name, journal }),
    }
}

/// Goes on with a day that was found in a log.
fn resumed_in_log<'a, F, K: JournalSink>(
    alloc: Global,
    path: &'a str,
    found: FoundDay<K>,
    begins: Begins,
) -> Result<Ready<'a, F, K>, Fault<'a>> {
    let Begins {
        seed,
        reference,
        heading,
    } = begins;
    let resumed = resume_text_of(alloc, path, found, reference, &heading, seed)?;
    let ResumedDay { world, journal } = resumed;
    Ok(named(path, world, journal))
}

/// Begins a day after the script, in an empty log.
fn begun_in_log<'a, F, R: Eprint + Files + Alloc<A = Global>, K: JournalSink>(
    rt: &R,
    serving: &Serving<'a>,
    path: &'a str,
    sink: K,
    begins: Begins,
) -> Result<Ready<'a, F, K>, Fault<'a>> {
    let Begins {
        seed,
        reference,
        heading,
    } = begins;
    let world = begun_world(rt, serving, reference, seed)?;
    let journal = begin_in_log(rt.alloc(), path, sink, &heading, world.book().history())?;
    Ok(named(path, world, journal))
}

/// Makes a day ready whose journal is in a log that this desk leads: it goes on if the log has a day and it is to be resumed, and begins
/// after the script if the log is empty.
pub fn made_ready_in_log<'a, F, R: Eprint + Files + Alloc<A = Global>, K: JournalSink>(
    rt: &R,
    serving: &Serving<'a>,
    journal: Journal<'a>,
    found: FoundDay<K>,
    begins: Begins,
) -> Result<Ready<'a, F, K>, Fault<'a>> {
    let path = journal.path;
    if found.text.is_empty() {
        let FoundDay { sink, text } = found;
        drop(text);
        return begun_in_log(rt, serving, path, sink, begins);
    }
    if !journal.resumes && !journal.stands_by {
        return Err(fault_at(path, JournalFault::NotEmpty));
    }
    if !is_opened(&found.text) {
        return Err(fault_at(path, JournalFault::Unopened));
    }
    resumed_in_log(rt.alloc(), path, found, begins)
}

/// Returns the secrets of firms, if there are any.
fn secrets_of<'a, R: Files + Alloc<A = Global>>(
    rt: &R,
    serving: &Serving<'a>,
    firms: &[FirmId],
) -> Result<Option<Secrets>, Fault<'a>> {
    match serving.secrets {
        Some(path) => Ok(Some(secrets_at(rt, path, firms)?)),
        None => Ok(None),
    }
}

/// What a day begins with.
#[derive(Drop)]
pub struct Begins {
    pub seed: Seed,
    pub reference: Reference,
    pub heading: Heading,
}

/// Reads the reference, then the secrets of its firms.
pub fn read_files<'a, R: Files + Clock + RandomSource + Alloc<A = Global>>(
    rt: &R,
    serving: &Serving<'a>,
) -> Result<(Begins, Option<Secrets>), Fault<'a>> {
    let seed = seed_from(rt)?;
    let (reference, digest) = digested_reference_at(rt, serving.reference)?;
    let secrets = secrets_of(rt, serving, reference.firms())?;
    let heading = Heading {
        reference: digest,
        opened: time(rt).ok_or(StreamError::Read)?,
    };
    let begins = Begins {
        seed,
        reference,
        heading,
    };
    Ok((begins, secrets))
}
