//! What became of the journal of a day.

use crate::keeping::Kept;
use gu_desk::EntryLedger;
use gu_journal::{Sink, SinkError, Stopped};

/// Why a journal couldn't go on.
#[derive(Drop)]
pub enum LostBy<P> {
    /// Memory ran out; nothing was written after what is kept.
    Memory,
    /// The lines of an entry were no valid batch; nothing was written after what is kept.
    Length,
    /// The lease by which the desk led has ended; nothing was written after what is kept.
    Lease,
    /// Its place failed, or is another writer's: the last batch may be found in it, or a beginning of that batch.
    Place(Stopped<P, SinkError>),
}

/// A journal that couldn't go on.
#[derive(Drop)]
pub struct LostJournal<P> {
    /// How many entries are kept.
    pub kept: u64,
    /// Why it has no more entries.
    pub by: LostBy<P>,
}

/// What became of the journal of a day.
#[derive(Drop)]
pub enum JournalEnd<K: Sink> {
    /// It has each entry of the day.
    Whole(K),
    /// It couldn't go on.
    Lost(LostJournal<K::Place>),
}

/// Returns what became of the journal of a day with this many entries, given what its thread handed back.
pub fn journal_end<E: EntryLedger, K: Sink + Drop>(
    kept: Option<Kept<E, K>>,
    entries: usize,
) -> Option<JournalEnd<K>> {
    match kept? {
        Ok(keeper) if keeper.count() == entries => {
            let (sink, front) = keeper.into_parts();
            drop(front);
            Some(JournalEnd::Whole(sink))
        }
        Ok(keeper) => {
            let kept = keeper.count() as u64;
            drop(keeper);
            Some(JournalEnd::Lost(LostJournal {
                kept,
                by: LostBy::Memory,
            }))
        }
        Err(lost) => Some(JournalEnd::Lost(lost)),
    }
}
