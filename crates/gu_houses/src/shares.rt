//! Limits on how much of the available room the sessions of each firm use.

ghost use Rattle.std.specs.Prelude.{◌≡◌, ◌≤◌, ◌-◌, ◌*◌, ◌/◌, length};

use gu_book::Book;
use gu_desk::Question;
use gu_terms::{
    Done, EntryEvent, EntryRef, FirmId, Group, Id, MOST_ENTRIES, MOST_LINES, MOST_OPEN_OFFERS,
    OfferNo, Reply,
};
use indexmap::IndexMap;
use std::alloc::{AllocError, Global};
use std::sync::Mutex;

/// The most that the sessions of one firm may make.
#[derive(Clone, Copy, Debug)]
pub struct Quota {
    /// Entries.
    pub entries: u64,
    /// Open offers in a group.
    pub offers: u64,
}

/// The quota that a firm has used up.
#[derive(Clone, Copy, Debug, PartialEq, Eq)]
pub enum Part {
    /// Its part of the entries for which there is room when the day begins.
    Entries,
    /// Its part of the open offers of a group.
    Offers,
}

/// The offers in a group that a firm's sessions made, as far as they may still be open.
#[derive(Drop)]
struct GroupOffers {
    group: Group,
    /// Their numbers, ascending.
    numbers: Vec<OfferNo>,
    /// The number of first entries known to have closed none of them.
    seen: usize,
}

/// The use made by the sessions of one firm.
#[derive(Drop)]
pub(crate) struct FirmShare {
    alloc: Global,
    quota: Quota,
    entries: u64,
    groups: Vec<GroupOffers>,
    /// The quota last reported as used up.
    told: Option<Part>,
    ghost within: { entries ≤ quota.entries },
}

/// The shares of a day's firms.
pub struct Shares {
    firms: IndexMap<FirmId, Mutex<FirmShare>>,
}

impl Drop for Shares {
    fn drop(self) {
        let Shares { firms } = self;
        drop(firms);
    }
}

impl Quota {
    /// Returns this percentage of the entries for which a book has room, and of the open offers of a group, each rounded down.
    pub fn of(percent: u16, book: &Book) -> Self
        ensures entries { result.entries ≡ (percent * (1000000 - length book.now.history)) / 100 }
        ensures offers { result.offers ≡ (percent * 4096) / 100 }
    {
        let percent = u64::from(percent);
        let room = MOST_ENTRIES.saturating_sub(book.history().len()) as u64;
        Quota {
            entries: percent * room / 100,
            offers: percent * MOST_OPEN_OFFERS as u64 / 100,
        }
    }
}

impl Shares {
    /// Returns the shares of these firms, each with this quota.
    pub fn new(alloc: Global, firms: &[FirmId], quota: Quota) -> Result<Self, AllocError> {
        let mut shares = IndexMap::with_capacity(alloc, firms.len())?;
        for firm in firms {
            let share = FirmShare::new(alloc, quota);
            shares.insert(*firm, Mutex::new(share))?;
        }
        Ok(Shares { firms: shares })
    }

    /// Returns the share of a firm.
    pub(crate) fn of(&self, firm: &FirmId) -> Option<&Mutex<FirmShare>> {
        self.firms.get(firm)
    }
}

impl GroupOffers {
    /// Returns the offers in a group in which the firm has made none.
    fn new(alloc: Global, group: Group) -> Self {
        GroupOffers {
            group,
            numbers: Vec::new(alloc),
            seen: 0,
        }
    }

    /// Returns whether there may be this many more.
    fn has_room(&self, lines: usize, most: u64) -> bool {
        self.numbers.len().saturating_add(lines) as u64 <= most
    }

    /// Removes an offer, if it is closed.
    fn forget_if_closed(&mut self, book: &Book, number: OfferNo) {
        if book.left(number) > 0 {
            return;
        }
        if let Ok(at) = self.numbers.binary_search(&number) {
            self.numbers.remove(at);
        }
    }

    /// Removes the offers that an entry closed.
    fn forget_closed_by(&mut self, book: &Book, entry: EntryRef<'_>) {
        match entry.event() {
            EntryEvent::Claimed { offer, .. } | EntryEvent::Refused { offer, .. } => {
                self.forget_if_closed(book, offer);
            }
            EntryEvent::Swept => {
                for take in entry.takes() {
                    self.forget_if_closed(book, take.offer);
                }
            }
            _ => {}
        }
    }

    /// Removes the closed offers: by the entries not yet seen or, if these are many, one by one.
    fn forget_closed(&mut self, book: &Book) {
        let history = book.history();
        if history.len().saturating_sub(self.seen) > self.numbers.len() {
            self.numbers.retain(|number| book.left(*number) > 0);
        } else {
            for place in self.seen..history.len() {
                self.forget_closed_by(book, history.show(place));
            }
        }
        self.seen = history.len();
    }
}

impl FirmShare {
    /// Returns the share of a firm whose sessions have made nothing.
    fn new(alloc: Global, quota: Quota) -> Self {
        FirmShare {
            alloc,
            quota,
            entries: 0,
            groups: Vec::new(alloc),
            told: None,
        }
    }

    /// Returns whether one more entry may be made.
    pub(crate) fn has_entry(&self) -> bool {
        self.entries < self.quota.entries
    }

    /// Returns the offers of a group.
    fn offers_in(&mut self, group: Group) -> Result<&mut GroupOffers, AllocError> {
        let at = match self.groups.iter().position(|row| row.group == group) {
            Some(at) => at,
            None => {
                self.groups.push(GroupOffers::new(self.alloc, group))?;
                self.groups.len() - 1
            }
        };
        Ok(&mut self.groups[at])
    }

    /// Returns whether this many more offers in a group may be made, and makes room for their numbers.
    fn has_offers(&mut self, book: &Book, group: Group, lines: usize) -> Result<bool, AllocError> {
        let most = self.quota.offers;
        let offers = self.offers_in(group)?;
        offers.numbers.reserve(MOST_LINES)?;
        if !offers.has_room(lines, most) {
            offers.forget_closed(book);
        }
        Ok(offers.has_room(lines, most))
    }

    /// Counts an entry and its offers.
    pub(crate) fn count(&mut self, reply: Reply) {
        if self.entries < self.quota.entries {
            self.entries += 1;
        }
        if let Reply::Accepted(
            Done::Offered {
                group,
                first,
                count,
            },
        ) = reply
        {
            self.count_offers(group, first, count);
        }
    }

    /// Counts these offers, for which there is room.
    fn count_offers(&mut self, group: Group, first: OfferNo, count: u8) {
        let Some(offers) = self.groups.iter_mut().find(|row| row.group == group) else {
            return;
        };
        for more in 0..count {
            if let Some(number) = OfferNo::new(first.get().saturating_add(u64::from(more))) {
                let _ = offers.numbers.push(number);
            }
        }
        self.told = None;
    }

    /// Records that it was refused this. Returns whether the last refusal was for something else, or there was none.
    pub(crate) fn refuse(&mut self, part: Part) -> bool {
        let was_told = self.told == Some(part);
        self.told = Some(part);
        !was_told
    }
}

/// A question for a give-up: whether its firm may make its offers.
#[derive(Drop)]
pub(crate) struct OffersAsked<'s> {
    pub(crate) share: &'s mut FirmShare,
    pub(crate) firm: FirmId,
    pub(crate) report: Id,
    pub(crate) lines: usize,
    /// The answer. If the report doesn't exist, it is for the book to refuse its lines.
    pub(crate) has_offers: bool,
}

impl Question for OffersAsked<'_> {
    ghost use Rattle.std.specs.Prelude.{⊤};

    ghost tells = { λ old book new. ⊤ };

    fn ask(&mut self, book: &Book) -> Result<(), AllocError> {
        self.has_offers = match book.group_of_report(&self.firm, &self.report) {
            Some(group) => self.share.has_offers(book, group, self.lines)?,
            None => true,
        };
        Ok(())
    }
}
