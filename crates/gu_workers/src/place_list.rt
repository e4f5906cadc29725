//! A list of places, each at most once.

use std::alloc::{AllocError, Global};
use std::mem;

/// A list of places to go through, each at most once: those listed before, and then those listed meanwhile.
#[derive(Drop)]
pub struct PlaceList {
    /// Whether each place is listed, by its number.
    is_listed: Vec<bool>,
    listed: Vec<usize>,
    /// The places that are being gone through.
    passing: Vec<usize>,
}

impl PlaceList {
    /// Creates an empty list for this many places.
    pub fn new(alloc: Global, places: usize) -> Result<Self, AllocError> {
        let mut is_listed = Vec::with_capacity(alloc, places)?;
        for _place in 0..places {
            is_listed.push(false)?;
        }
        Ok(PlaceList {
            is_listed,
            listed: Vec::with_capacity(alloc, places)?,
            passing: Vec::with_capacity(alloc, places)?,
        })
    }

    /// Returns whether no place is listed.
    pub fn is_empty(&self) -> bool {
        self.listed.is_empty()
    }

    /// Returns whether a place is listed, or to be gone through now.
    pub fn has(&self, at: usize) -> bool {
        self.is_listed.get(at).copied().unwrap_or(false)
    }

    /// Lists a place, unless it is listed.
    pub fn list(&mut self, at: usize) -> Result<(), AllocError> {
        let Some(is_listed) = self.is_listed.get_mut(at) else {
            return Ok(());
        };
        if !*is_listed {
            self.listed.push(at)?;
            *is_listed = true;
        }
        Ok(())
    }

    /// Begins to go through the listed places, and returns how many there are.
    pub fn begin(&mut self) -> usize {
        mem::swap(&mut self.listed, &mut self.passing);
        self.passing.len()
    }

    /// Takes the next place off the list.
    pub fn next(&mut self) -> Option<usize> {
        let at = self.passing.pop()?;
        if let Some(is_listed) = self.is_listed.get_mut(at) {
            *is_listed = false;
        }
        Some(at)
    }
}
