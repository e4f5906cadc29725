//! The places of a worker: which are free, want a visit, or hold answers back.

use crate::guest::Guest;
use crate::place_list::PlaceList;
use std::alloc::{AllocError, Global};

/// The places of a worker.
pub struct Slots<I, O> {
    /// The connection at each place, unless the place is free or being visited.
    places: Vec<Option<Guest<I, O>>>,
    free: Vec<usize>,
    /// The places that want a visit.
    wanting: PlaceList,
    /// The places that hold answers back until more entries are kept.
    holding: PlaceList,
}

impl<I: Drop, O: Drop> Drop for Slots<I, O> {
    fn drop(self) {
        let Slots {
            places,
            free,
            wanting,
            holding,
        } = self;
        drop(places);
        drop(free);
        drop(wanting);
        drop(holding);
    }
}

impl<I, O> Slots<I, O> {
    /// Creates this many free places.
    pub fn new(alloc: Global, count: usize) -> Result<Self, AllocError>
    where
        I: Drop,
        O: Drop,
    {
        let mut places = Vec::with_capacity(alloc, count)?;
        let mut free = Vec::with_capacity(alloc, count)?;
        for at in 0..count {
            places.push(None)?;
            free.push(at)?;
        }
        Ok(Slots {
            places,
            free,
            wanting: PlaceList::new(alloc, count)?,
            holding: PlaceList::new(alloc, count)?,
        })
    }

    /// Returns how many places there are.
    pub fn len(&self) -> usize {
        self.places.len()
    }

    /// Returns whether all places are free.
    pub fn is_empty(&self) -> bool {
        self.free.len() == self.places.len()
    }

    /// Returns whether any place wants a visit.
    pub fn has_wanting(&self) -> bool {
        !self.wanting.is_empty()
    }

    /// Returns whether any place holds answers back.
    pub fn has_holding(&self) -> bool {
        !self.holding.is_empty()
    }

    /// Takes a free place, if there is one.
    pub fn take_free(&mut self) -> Option<usize> {
        self.free.pop()
    }

    /// Frees a place.
    pub fn give_back(&mut self, at: usize) -> Result<(), AllocError> {
        self.free.push(at)?;
        Ok(())
    }

    /// Returns the connection at a place.
    pub fn get_mut(&mut self, at: usize) -> Option<&mut Guest<I, O>> {
        self.places.get_mut(at)?.as_mut()
    }

    /// Returns the connection at a place.
    pub fn get(&self, at: usize) -> Option<&Guest<I, O>> {
        self.places.get(at)?.as_ref()
    }

    /// Takes the connection from a place, to visit it or to end it.
    pub fn take(&mut self, at: usize) -> Option<Guest<I, O>> {
        self.places.get_mut(at)?.take()
    }

    /// Puts a connection at a place that has none.
    pub fn put(&mut self, at: usize, guest: Guest<I, O>)
    where
        I: Drop,
        O: Drop,
    {
        match self.places.get_mut(at) {
            Some(slot) => *slot = Some(guest),
            None => drop(guest),
        }
    }

    /// Lists a place, if it has a connection, for the next round of visits.
    pub fn list(&mut self, at: usize) -> Result<(), AllocError> {
        if self.get(at).is_none() {
            return Ok(());
        }
        self.wanting.list(at)
    }

    /// Begins to visit the listed places, and returns how many there are.
    pub fn begin_visits(&mut self) -> usize {
        self.wanting.begin()
    }

    /// Takes the next connection to visit, with its place.
    pub fn next_visit(&mut self) -> Option<(usize, Guest<I, O>)> {
        let at = self.wanting.next()?;
        let guest = self.take(at)?;
        Some((at, guest))
    }

    /// Notes that a place holds answers back.
    pub fn hold_back(&mut self, at: usize) -> Result<(), AllocError> {
        self.holding.list(at)
    }

    /// Begins to send what places hold back, and returns how many places do.
    pub fn begin_releases(&mut self) -> usize {
        self.holding.begin()
    }

    /// Takes the next connection that holds answers back, with its place. A listed one stays: its visit sends them too.
    pub fn next_release(&mut self) -> Option<(usize, Guest<I, O>)> {
        let at = self.holding.next()?;
        if self.wanting.has(at) {
            return None;
        }
        let guest = self.take(at)?;
        Some((at, guest))
    }
}
