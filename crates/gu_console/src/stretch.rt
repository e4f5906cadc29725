//! Stretches of the journal: entries that are copied while the lock is held, and their lines, which are made after it.

ghost use Rattle.std.specs.Prelude.{◌≡◌, ◌↔◌, ◌+◌, ◌-◌, ◌<◌, ◌≤◌, ◌++◌, [], drop, length, min, take, IfOk, IsTrue, OnOk};
ghost use Rattle.gu_console.specs.Copies.{AreLinesOf};
ghost use Rattle.gu_console.specs.Shown.{HasShown, IsStretch};

use gu_book::Book;
use gu_desk::Question;
use gu_script::{append_entry, opened_day};
use gu_terms::{Day, Entry, History};
use std::alloc::{AllocError, Global};

/// How many entries a stretch has at most.
const MOST_ENTRIES: usize = 256;

/// How many bytes a stretch of more than one entry has at most.
const MOST_BYTES: usize = 65_536;

/// Entries from a place on, as they are copied from a book.
#[derive(Drop)]
pub(crate) struct EntryCopies {
    /// How many entries come before them.
    pub(crate) from: usize,
    /// How many entries there are up to the last of them.
    pub(crate) end: usize,
    pub(crate) entries: Vec<Entry>,
}

impl EntryCopies {
    /// Creates copies of no entries, after this number of others.
    pub(crate) fn after(alloc: Global, from: usize) -> Self
        ensures { (result.from ≡ from) × (result.end ≡ from) × (result.entries.items ≡ []) }
    {
        EntryCopies {
            from,
            end: from,
            entries: Vec::new(alloc),
        }
    }
}

/// Appends copies of the entries of a history from a place up to another.
fn copy_entries(
    history: &History,
    from: usize,
    end: usize,
    entries: &mut Vec<Entry>,
) -> Result<(), AllocError>
    requires { end ≤ length history.now }
    ensures { OnOk result (entries.new.items ≡ entries.old.items ++ take (end - from) (drop from history.now)) }
{
    for place in from..end {
        entries.push(history.at(place)?)?;
    }
    Ok(())
}

/// Returns where a stretch ends that begins after this number of entries, in a history of this many.
fn end_of(from: usize, len: usize) -> usize
    ensures { result ≡ min len (from + 256) }
{
    len.min(from.saturating_add(MOST_ENTRIES))
}

impl Question for EntryCopies {
    ghost use Rattle.gu_console.specs.Copies.{AreCopies};

    ghost tells = { λ old book new. AreCopies book.history old.from old.entries.items new.end new.entries.items };

    fn ask(&mut self, book: &Book) -> Result<(), AllocError> {
        let history = book.history();
        let end = end_of(self.from, history.len());
        copy_entries(history, self.from, end, &mut self.entries)?;
        self.end = end;
        Ok(())
    }
}

/// The lines of a stretch, how many entries they are of, and the day that is open after these.
#[derive(Drop)]
pub struct StretchLines {
    pub text: Vec<u8>,
    pub count: usize,
    pub today: Option<Day>,
}

/// Returns whether a stretch of this number of entries, with this text, ends before an entry with these lines.
fn ends_before(count: usize, text: &[u8], row: &[u8]) -> bool
    ensures { IsTrue result ↔ ((0 < count) × (65536 < length text.now + length row.now)) }
{
    count > 0 && text.len() + row.len() > MOST_BYTES
}

/// Returns the lines of entries, where this day is open before them: of all of them, or of the first ones, with as many bytes as a stretch
/// has at most.
pub(crate) fn stretch_of(
    alloc: Global,
    today: Option<Day>,
    entries: &[Entry],
) -> Result<StretchLines, AllocError>
    ensures { IfOk result (λ lines. AreLinesOf today entries.now lines.text.items lines.count lines.today) }
{
    let mut text = Vec::new(alloc);
    let mut row = Vec::new(alloc);
    let mut day = today;
    for place in 0..entries.len() {
        let entry = &entries[place];
        row.clear();
        append_entry(&mut row, day, entry)?;
        if ends_before(place, &text, &row) {
            return Ok(StretchLines {
                text,
                count: place,
                today: day,
            });
        }
        text.extend_from_slice(&row)?;
        day = opened_day(entry).or(day);
    }
    Ok(StretchLines {
        text,
        count: entries.len(),
        today: day,
    })
}

/// Returns the next stretch of the journal of a book of which this number of entries has been shown, after which this day is open.
pub fn next_stretch(
    alloc: Global,
    book: &Book,
    shown: usize,
    today: Option<Day>,
) -> Result<StretchLines, AllocError>
    ensures stretch { HasShown book.now.history shown today
        → IfOk result (λ lines. IsStretch book.now.history shown (shown + lines.count) lines.text.items) }
    ensures shown { HasShown book.now.history shown today → IfOk result (λ lines. HasShown book.now.history (shown + lines.count) lines.today) }
{
    let mut copies = EntryCopies::after(alloc, shown);
    copies.ask(book)?;
    stretch_of(alloc, today, &copies.entries)
}
