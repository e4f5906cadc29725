//! A crash at each moment of a day: what is found is whole lines that play a beginning of the day, with all that was kept.

ghost use Rattle.std.specs.Prelude.{◌≡◌, []};
ghost use Rattle.gu_terms.specs.Histories.{lots_swept};

use crate::days::{Kept, STEP, empty_log, keep_day, lines_of_day};
use crate::opening::{annals_of, keeper_of, opened};
use crate::sample::{book_of, played};
use crate::tears::{done, tears, torn};
use gu_book::Book;
use gu_desk::{BlankAnnals, EntryLedger, LotLedger};
use gu_journal::{Call, Log, Memory, Opened};
use gu_keeping::{Chain, check_digests};
use gu_terms::{Entry, History};
use gu_text::reply_text;
use std::alloc::Global;
use std::marker::Brand;
use std::process::Abort;
use std::sync::Wait;
use std::sync::ledger::Blank;

/// A day that was kept: its device, how many entries were kept after each batch, and its book.
#[derive(Drop)]
struct Day {
    device: Memory,
    counts: Vec<u64>,
    book: Book,
}

/// Returns what is answered to an entry of a history.
fn answer(alloc: Global, history: &History, place: usize) -> Option<Vec<u8>> {
    if place >= history.len() {
        return None;
    }
    let number = place as u64;
    let entry = history.at(place).ok()?;
    match &entry {
        Entry::Asked { command: _, reply } => reply_text(alloc, number, reply).ok(),
        Entry::Swept(sweep) => {
            let text = format!(in alloc; "{number} SWEPT {}", sweep.lots);
            Some(text.ok()?.into_bytes())
        }
    }
}

/// Returns whether the entries at a place of two histories are answered alike.
fn is_same(alloc: Global, first: &History, all: &History, place: usize) -> Option<bool> {
    let one = answer(alloc, first, place)?;
    let other = answer(alloc, all, place)?;
    Some(one.as_slice() == other.as_slice())
}

/// Returns whether a history's answers are the first of another's.
fn begins(alloc: Global, first: &History, all: &History) -> bool {
    for place in 0..first.len() {
        if is_same(alloc, first, all, place) != Some(true) {
            return false;
        }
    }
    true
}

/// What a crash may find: the whole text of the day, how many entries its first bytes play (for each length, once it is known), and the
/// book.
#[derive(Drop)]
struct Walk<'a> {
    alloc: Global,
    text: &'a [u8],
    plays: Vec<Option<usize>>,
    book: &'a Book,
    tried: usize,
}

impl Walk<'_> {
    /// Returns how many entries the first bytes of the day's text play, if these are the first of the day and the digests are theirs.
    fn entries(&self, len: usize) -> Option<usize> {
        let text = self.text.get(..len)?;
        let book = played(self.alloc, text)?;
        if !begins(self.alloc, book.history(), self.book.history()) {
            return None;
        }
        let chain = check_digests(self.alloc, text, book.history()).ok()?;
        (chain.count() == book.history().len()).then_some(chain.count())
    }

    /// Returns how many entries are found on a device, if these are the first of the day.
    fn found(&mut self, image: Vec<u8>) -> Option<usize> {
        let device = Memory::new(self.alloc, image).ok()?;
        let Opened { log: _, text, .. } = Log::open(self.alloc, device, STEP).ok()?;
        if !self.text.starts_with(&text) {
            return None;
        }
        let known = *self.plays.get(text.len())?;
        if known.is_some() {
            return known;
        }
        let entries = self.entries(text.len());
        if let Some(place) = self.plays.get_mut(text.len()) {
            *place = entries;
        }
        entries
    }

    /// Tries each tear of a call, after which at least this many entries and at most this many more are found.
    fn tries(&mut self, olds: &[u8], call: &Call, least: usize, most: usize) -> Option<()> {
        for tear in 0..tears(call, olds.len()) {
            let image = torn(self.alloc, olds, call, tear).ok()?;
            let entries = self.found(image)?;
            if entries < least || most < entries {
                return None;
            }
            self.tried = self.tried.checked_add(1)?;
        }
        Some(())
    }

    /// Tries a crash at each call of a day.
    fn walk(&mut self, day: &Day) -> Option<()> {
        let mut olds = Vec::from_slice(self.alloc, day.device.first()).ok()?;
        let mut written: usize = 0;
        let mut kept: usize = 0;
        for call in day.device.calls() {
            let before = entries_after(day, kept);
            self.tries(
                &olds,
                call,
                before,
                entries_after(day, written.checked_add(1)?),
            )?;
            match call {
                Call::Write { .. } => written = written.checked_add(1)?,
                Call::Sync => kept = written,
                _ => {}
            }
            olds = done(self.alloc, &olds, call).ok()?;
        }
        Some(())
    }
}

/// Returns how many entries are kept after a number of batches.
fn entries_after(day: &Day, batches: usize) -> usize {
    match batches.checked_sub(1) {
        Some(place) => day.counts.get(place).copied().unwrap_or(u64::MAX) as usize,
        None => 0,
    }
}

/// Keeps a day, and returns its device and its book.
fn kept_day<E: EntryLedger, S: LotLedger, R: Wait + Abort>(
    rt: &R,
    alloc: Global,
    book: Book,
    annals: BlankAnnals,
    entries: Blank,
    swept: Blank,
    most: u64,
) -> Day
    requires reference { book.reference ≡ E.reference }
    requires opening { (book.history ≡ E.opening) × (lots_swept book.history ≡ S.opening) }
    requires none { E.opening ≡ [] }
    requires history { (annals.name ≡ E.history) × (annals.entries ≡ E.opening) }
    requires entries { (entries.name ≡ E.name) × (entries.parts ≡ E.parts) × (entries.parts ≡ 2) }
    requires swept { (swept.name ≡ S.name) × (swept.parts ≡ S.parts) × (swept.parts ≡ 2) }
{
    let (desk, mut seat) = opened::<E, S, R>(rt, alloc, book, annals, entries, swept);
    let log = empty_log(alloc).expect(rt, "memory");
    let keeper = keeper_of(rt, alloc, &desk, &mut seat, log, Chain::new());
    let lines = lines_of_day(alloc).ok().expect(rt, "memory");
    let kept = keep_day(rt, alloc, &desk, &mut seat, keeper, (lines.as_str(), most));
    let Kept { keeper, counts } = kept.expect(rt, "a day");
    let (log, front) = keeper.into_parts();
    drop(front);
    let device = log.finish().ok().expect(rt, "memory");
    let mut seats = Vec::new(alloc);
    assert!(rt; seats.push(seat).is_ok());
    let book = desk.close(seats).ok().expect(rt, "all seats");
    Day {
        device,
        counts,
        book,
    }
}

/// Tries each crash of a day, and returns how many were tried, if what is found is right after each.
fn crashes(alloc: Global, day: &Day) -> Option<usize> {
    let mut plays = Vec::new(alloc);
    for _ in 0..=day.device.bytes().len() {
        plays.push(None).ok()?;
    }
    let mut walk = Walk {
        alloc,
        text: day.device.bytes(),
        plays,
        book: &day.book,
        tried: 0,
    };
    walk.walk(day)?;
    Some(walk.tried)
}

/// Asserts that what is found is right after each crash of a day, and that each byte of its text was torn twice at least.
fn check_crashes(rt: &impl Abort, alloc: Global, day: &Day) {
    let tried = crashes(alloc, day).expect(rt, "what each crash leaves is a beginning of the day");
    assert!(rt; tried / 2 >= day.device.bytes().len(), "{tried} crashes");
}

#[test]
fn at_each_crash_of_a_day_all_that_was_kept_is_found(rt: HostRuntime) {
    let alloc = rt.alloc();
    let book = book_of(alloc).expect(&rt, "a book");
    let annals = annals_of(&rt, alloc, &book);
    let day = kept_day::<Brand, Brand, HostRuntime>(
        &rt,
        alloc,
        book,
        annals,
        Blank::new(2),
        Blank::new(2),
        9,
    );
    assert_eq!(rt; day.book.history().len(), 178);
    check_crashes(&rt, alloc, &day);
}

#[test]
fn at_each_crash_of_a_day_in_batches_of_one_all_that_was_kept_is_found(rt: HostRuntime) {
    let alloc = rt.alloc();
    let book = book_of(alloc).expect(&rt, "a book");
    let annals = annals_of(&rt, alloc, &book);
    let day = kept_day::<Brand, Brand, HostRuntime>(
        &rt,
        alloc,
        book,
        annals,
        Blank::new(2),
        Blank::new(2),
        1,
    );
    assert_eq!(rt; day.counts.len(), 178);
    check_crashes(&rt, alloc, &day);
}
