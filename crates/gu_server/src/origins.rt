//! The origins of entries that aren't kept yet.

use gu_desk::Origin;
use std::alloc::{AllocError, Global};
use std::collections::VecDeque;

/// The origins of entries that aren't kept yet. They may arrive out of order, since an entry is made before it is reported.
#[derive(Drop)]
pub struct Origins {
    /// The number of the next entry to be kept.
    next: u64,
    /// The origins of that entry and of those after it, as far as they are known.
    known: VecDeque<Option<Origin>>,
}

impl Origins {
    /// Creates it for a day with this many entries kept.
    pub fn after(alloc: Global, kept: u64) -> Self {
        Origins {
            next: kept.saturating_add(1),
            known: VecDeque::new(alloc),
        }
    }

    /// Notes the origin of an entry by its number, unless the entry is kept already.
    pub fn note(&mut self, number: u64, origin: Origin) -> Result<(), AllocError> {
        let Some(place) = number.checked_sub(self.next) else {
            return Ok(());
        };
        let place = place as usize;
        for _unknown in self.known.len()..place.saturating_add(1) {
            self.known.push_back(None)?;
        }
        if let Some(known) = self.known.get_mut(place) {
            *known = Some(origin);
        }
        Ok(())
    }

    /// Puts the origins of the next entries into an empty list: at most this many, up to the first that isn't known.
    pub fn ready(&self, most: usize, origins: &mut Vec<Origin>) -> Result<(), AllocError> {
        for known in self.known.iter().take(most) {
            match known {
                Some(origin) => origins.push(*origin)?,
                None => break,
            }
        }
        Ok(())
    }

    /// Forgets the origins of kept entries, now that this many are kept in all.
    pub fn forget(&mut self, kept: u64) {
        let more = kept.saturating_add(1).saturating_sub(self.next);
        for _entry in 0..more {
            if self.known.pop_front().is_none() {
                break;
            }
        }
        self.next = self.next.saturating_add(more);
    }
}
