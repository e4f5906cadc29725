//! A desk that reads a log as it grows, and plays each batch as it comes.

ghost use Rattle.std.specs.Prelude.{◌≡◌, ◌↔◌, ◌+◌, ◌<◌, ◌≤◌, ◌++◌, List, ℕ, IfOk, IsTrue, OnOk, codes, false, length, not};
ghost use Rattle.gu_ref.specs.Tables.{Tables};
ghost use Rattle.gu_days.specs.Arriving.{IsPlayedSoFar};
ghost use Rattle.gu_etcd.specs.Texts.{batch_of};
ghost use Rattle.gu_etcd.specs.declared.node.TheConstants.{LAST_NUMBER};

use crate::error::FollowError;
use gu_book::Book;
use gu_days::{PlayedDay, PlayedText};
use gu_etcd::{Exchange, Gateway, LAST_NUMBER, NodeError, Page, parts_of};
use gu_lead::{LogError, page_at};
use gu_ref::Reference;
use gu_terms::Seed;
use std::alloc::Global;

/// What a page of a log brought.
#[derive(Clone, Copy, Debug, PartialEq, Eq)]
pub enum Reading {
    /// No answer came.
    Unanswered,
    /// More pages follow.
    More,
    /// All that the log has.
    Whole,
}

/// The last batch of a day that is ended.
const CLOSED: &[u8] = b"# CLOSED\n";

/// A desk that reads a log as it grows, and plays each batch onto a book of its own as it comes.
#[derive(Drop)]
pub struct Follower {
    played: PlayedText,
    /// How many entries of the log it has played.
    count: u64,
    /// Whether the last of them ends the day.
    is_closed: bool,
    /// Whether the last page that it played was the log's last one, and its desk led before it was read: then nothing is missing.
    is_whole: bool,
    ghost within: { count ≤ LAST_NUMBER },
}

impl Follower {
    ghost use Rattle.gu_standby.specs.Following.{HasPlayed, book_of};

    /// Creates a follower that has read nothing, whose book has no entries and whose tables of ids have this seed.
    pub fn new(alloc: Global, reference: Reference, seed: Seed) -> Self
        ensures count { result.count ≡ 0 }
        ensures played { HasPlayed reference result }
    {
        Follower {
            played: PlayedText::new(alloc, reference, seed),
            count: 0,
            is_closed: false,
            is_whole: false,
        }
    }

    /// Returns how many entries of the log it has played.
    pub fn count(&self) -> u64
        ensures count { result ≡ self.now.count }
        ensures within { result ≤ LAST_NUMBER }
    {
        self.count
    }

    /// Returns whether the last entry that it has played ends the day.
    pub fn is_closed(&self) -> bool
        ensures { result ≡ self.now.is_closed }
    {
        self.is_closed
    }

    /// Returns the text that it has played.
    pub fn text(&self) -> &[u8]
        ensures { result.now ≡ self.now.played.text.items }
    {
        self.played.text()
    }

    /// Returns the book that its text so far led to.
    pub fn book(&self) -> &Book
        ensures { result.now ≡ book_of self.now }
    {
        self.played.world().book()
    }

    /// Plays the batch of the log's next entry. After an error it is unusable.
    fn play(&mut self, entry: &[u8]) -> Result<(), FollowError>
        requires { self.old.count < LAST_NUMBER }
        ensures counted { OnOk result (self.new.count ≡ self.old.count + 1) }
        ensures text { OnOk result (self.new.played.text.items ≡ self.old.played.text.items ++ batch_of entry.now) }
        ensures closed { OnOk result (IsTrue self.new.is_closed ↔ (batch_of entry.now ≡ codes "# CLOSED\n")) }
        ensures played { (reference : Tables) → HasPlayed reference self.old → OnOk result (HasPlayed reference self.new) }
    {
        let Some((_, batch)) = parts_of(entry) else {
            return Err(FollowError::Foreign);
        };
        match self.played.take(batch) {
            Ok(()) => {}
            Err(error) => return Err(FollowError::from(error)),
        }
        self.count += 1;
        self.is_closed = batch == CLOSED;
        Ok(())
    }

    /// Plays a page, which comes next in the log. After an error it is unusable.
    fn play_page(&mut self, page: &Page) -> Result<(), FollowError>
        ensures counted { OnOk result (self.new.count ≡ self.old.count + length page.now.entries.items) }
        ensures whole { OnOk result (self.new.is_whole ≡ not page.now.has_more) }
        ensures played { (reference : Tables) → HasPlayed reference self.old → OnOk result (HasPlayed reference self.new) }
    {
        for entry in &page.entries {
            if self.count == LAST_NUMBER {
                return Err(FollowError::Foreign);
            }
            self.play(entry)?;
        }
        self.is_whole = !page.has_more;
        Ok(())
    }

    /// Plays the next page of the log, as `read_page` does.
    fn next_page<X: Exchange>(
        &mut self,
        alloc: Global,
        gateway: &mut Gateway<X>,
    ) -> Result<Reading, FollowError>
        ensures played { (reference : Tables) → HasPlayed reference self.old → OnOk result (HasPlayed reference self.new) }
    {
        if self.count == LAST_NUMBER {
            return Ok(Reading::Whole);
        }
        let page = match gateway.page(alloc, self.count + 1) {
            Ok(page) => page,
            Err(NodeError::Unanswered) => return Ok(Reading::Unanswered),
            Err(NodeError::Memory) => return Err(FollowError::Memory),
        };
        self.play_page(&page)?;
        Ok(if page.has_more {
            Reading::More
        } else {
            Reading::Whole
        })
    }

    /// Plays the next page of the log, which is asked for once. After an error it is unusable.
    pub fn read_page<X: Exchange>(
        &mut self,
        alloc: Global,
        gateway: &mut Gateway<X>,
    ) -> Result<Reading, FollowError>
        ensures whole { OnOk result (self.new.is_whole ≡ false) }
        ensures played { (reference : Tables) → HasPlayed reference self.old → OnOk result (HasPlayed reference self.new) }
    {
        let reading = self.next_page(alloc, gateway)?;
        // The desk that leads may append at any time.
        self.is_whole = false;
        Ok(reading)
    }

    /// Plays pages to the end of the log, and returns whether it came there. After an error it is unusable.
    fn read_pages<X: Exchange>(
        &mut self,
        alloc: Global,
        gateway: &mut Gateway<X>,
    ) -> Result<bool, FollowError>
        ensures whole { IfOk result (λ is_all. is_all ≡ self.new.is_whole) }
        ensures played { (reference : Tables) → HasPlayed reference self.old → OnOk result (HasPlayed reference self.new) }
    {
        self.is_whole = false;
        while self.count < LAST_NUMBER {
            let page = match page_at(alloc, gateway, self.count + 1) {
                Ok(page) => page,
                Err(LogError::Unanswered) => return Ok(false),
                Err(error) => return Err(FollowError::from(error)),
            };
            self.play_page(&page)?;
            if !page.has_more {
                return Ok(true);
            }
        }
        // No number is left.
        self.is_whole = true;
        Ok(true)
    }

    /// Plays what the log has by now, and returns whether that was all of it: if no answer comes, it goes on from there the next time. After
    /// an error it is unusable.
    pub fn read<X: Exchange>(
        &mut self,
        alloc: Global,
        gateway: &mut Gateway<X>,
    ) -> Result<bool, FollowError>
        ensures whole { OnOk result (self.new.is_whole ≡ false) }
        ensures played { (reference : Tables) → HasPlayed reference self.old → OnOk result (HasPlayed reference self.new) }
    {
        let is_all = self.read_pages(alloc, gateway)?;
        // The desk that leads may append at any time.
        self.is_whole = false;
        Ok(is_all)
    }

    /// Does the same for a desk that has taken this lead: from then on no other desk appends, so what is read now is all that the log has.
    pub fn read_led<X: Exchange, L>(
        &mut self,
        alloc: Global,
        gateway: &mut Gateway<X>,
        _lead: &L,
    ) -> Result<bool, FollowError>
        ensures whole { IfOk result (λ is_all. is_all ≡ self.new.is_whole) }
        ensures played { (reference : Tables) → HasPlayed reference self.old → OnOk result (HasPlayed reference self.new) }
    {
        self.read_pages(alloc, gateway)
    }

    /// Returns the day that it has played.
    pub fn end(self) -> Result<PlayedDay, FollowError>
        ensures text { IfOk result (λ day. day.text.items ≡ self.played.text.items) }
    {
        match self.played.end() {
            Ok(day) => Ok(day),
            Err(error) => Err(FollowError::from(error)),
        }
    }
}
