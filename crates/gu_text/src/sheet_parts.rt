//! The parts of a sheet, from the lines so far.

ghost use Rattle.std.specs.Prelude.{◌≡◌, not, IfOk, IfErr, OnOk, IsSome, IsTrue};
ghost use Rattle.gu_text.specs.Sheets.{comes_after, is_repeated, fits_after};
ghost use Rattle.gu_text.specs.Reading.{no_parts, with_kept, is_ended, IsMadeOf, MakesNone, MakesNoView};
ghost use Rattle.gu_view.specs.Making.{MakesView, view_of};

use crate::error::TextError;
use crate::listed_cut::ListedCut;
use crate::listed_takes::ListedTakes;
use crate::sheet::Sheet;
use crate::sheet_line::{Header, Part, SheetLine};
use crate::takes_in_order::takes_in_order;
use gu_terms::{MOST_OPEN_OFFERS, Seed};
use gu_view::{Room, View, ViewError, ViewOffer};
use std::alloc::{AllocError, Global};
use std::marker::Model;

/// The most offers stored: one more than a view may have, so that the view is refused.
const MOST_KEPT_OFFERS: usize = MOST_OPEN_OFFERS + 1;

/// The most rooms stored, likewise: an offer has at most five keys, and each key one room.
const MOST_KEPT_ROOMS: usize = 5 * MOST_OPEN_OFFERS + 1;

/// The content of the lines so far, with the offers and rooms that are stored. To a contract it is that content.
pub(crate) struct Parts {
    last: Option<Part>,
    header: Option<Header>,
    offers: Vec<ViewOffer>,
    rooms: Vec<Room>,
    takes: ListedTakes,
    cut: ListedCut,
}

impl Model for Parts {
    ghost use Rattle.std.specs.Prelude.{IsSome};
    ghost use Rattle.gu_text.specs.SheetParts.{SheetParts};

    ghost Value = { SheetParts };

    ghost view = { λ p. record {
      last = p.last;
      header = p.header;
      offers = p.offers.items;
      rooms = p.rooms.items;
      takes = p.takes;
      cut = p.cut;
    } };

    ghost invariant = { λ p. IsSome p.last → IsSome p.header };
}

// By hand, so that their owner drops them with one call.
impl Drop for Parts {
    fn drop(self) {
        let Parts {
            last: _,
            header: _,
            offers,
            rooms,
            takes,
            cut,
        } = self;
        drop(offers);
        drop(rooms);
        drop(takes);
        drop(cut);
    }
}

/// Returns whether a line of a part may follow one of the last part.
fn comes_after(last: Option<Part>, next: Part) -> bool
    ensures { result ≡ comes_after last next }
{
    match last {
        None => next.rank() == 0,
        Some(last) => next.rank() > 0 && last.rank() < 5 && last.rank() <= next.rank(),
    }
}

impl Parts {
    /// Returns the parts of no lines. The seed is for the hashes of what they name.
    pub(crate) fn new(alloc: Global, seed: Seed) -> Self
        ensures { result ≡ no_parts }
    {
        Parts {
            last: None,
            header: None,
            offers: Vec::new(alloc),
            rooms: Vec::new(alloc),
            takes: ListedTakes::new(alloc),
            cut: ListedCut::new(alloc, seed),
        }
    }

    /// Adds the content of a line, and returns whether it is new.
    fn put(&mut self, line: SheetLine) -> Result<bool, AllocError>
        ensures new { IfOk result (λ new. new ≡ not (is_repeated self.old line)) }
        ensures put { IfOk result (λ new. IsTrue new → self.new ≡ record (with_kept self.old line) { last = self.old.last }) }
    {
        match line {
            SheetLine::Sheet(header) => {
                self.header = Some(header);
                Ok(true)
            }
            SheetLine::Offer(offer) => {
                if self.offers.len() < MOST_KEPT_OFFERS {
                    self.offers.push(offer)?;
                }
                Ok(true)
            }
            SheetLine::Room(room) => {
                if self.rooms.len() < MOST_KEPT_ROOMS {
                    self.rooms.push(room)?;
                }
                Ok(true)
            }
            SheetLine::Take(take) => self.takes.add(take),
            SheetLine::CutKey(key) => self.cut.add_key(key),
            SheetLine::CutOffer(number) => self.cut.add_offer(number),
            SheetLine::End => Ok(true),
        }
    }

    /// Adds the content of a line, and returns whether the line is allowed here.
    pub(crate) fn add(&mut self, line: SheetLine) -> Result<bool, AllocError>
        ensures fits { IfOk result (λ fits. fits ≡ fits_after self.old line) }
        ensures parts { IfOk result (λ fits. IsTrue fits → self.new ≡ with_kept self.old line) }
    {
        let part = line.part();
        if !comes_after(self.last, part) || !self.put(line)? {
            return Ok(false);
        }
        self.last = Some(part);
        Ok(true)
    }

    /// Returns whether the last line was the end.
    pub(crate) fn are_ended(&self) -> bool
        ensures { result ≡ is_ended self.now }
    {
        matches!(self.last, Some(Part::End))
    }

    /// Returns the sheet that the parts make. `number` is the number of the end.
    pub(crate) fn into_sheet(self, alloc: Global, number: u64) -> Result<Sheet, TextError>
        requires { IsSome self.last }
        ensures made { IfOk result (IsMadeOf self) }
        ensures refused { IfErr result (MakesNone self number) }
    {
        let Parts {
            last: _,
            header,
            offers,
            rooms,
            takes,
            cut,
        } = self;
        let Some(header) = header else {
            unreachable!();
        };
        let view = view_at(alloc, header, offers, rooms, number)?;
        let takes = takes_in_order(alloc, takes.into_list())?;
        let cut = cut.into_cut(alloc)?;
        Ok(Sheet { view, takes, cut })
    }
}

/// Returns the view that offers and rooms make. `number` is the number of the end.
fn view_at(
    alloc: Global,
    header: Header,
    offers: Vec<ViewOffer>,
    rooms: Vec<Room>,
    number: u64,
) -> Result<View, TextError>
    ensures view { IfOk result (λ view. view ≡ view_of header.group header.version offers.items rooms.items) }
    ensures makes { OnOk result (MakesView offers.items rooms.items) }
    ensures refused { IfErr result (MakesNoView offers.items rooms.items number) }
{
    match View::new(alloc, header.group, header.version, offers, rooms) {
        Ok(view) => Ok(view),
        Err(ViewError::Memory) => Err(TextError::Memory),
        Err(ViewError::BadOffer(_) | ViewError::PathDiffers(_) | ViewError::BadRooms) => {
            Err(TextError::BadLine(number))
        }
    }
}
