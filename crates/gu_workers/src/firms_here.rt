//! How many connections a worker has for the firms at each place of the list.

use gu_notices::FirmPlace;

/// How many places there are for firms.
const FIRM_PLACES: usize = 64;

/// How many connections a worker has for the firms at each place of the list.
#[derive(Drop)]
pub struct FirmsHere {
    counts: [u64; FIRM_PLACES],
}

impl FirmsHere {
    /// Creates the counts of a worker without connections.
    pub fn new() -> Self {
        FirmsHere {
            counts: [0; FIRM_PLACES],
        }
    }

    /// Counts a connection of a firm.
    pub fn add(&mut self, firm: FirmPlace) {
        if let Some(count) = self.counts.get_mut(firm.number() as usize) {
            *count = count.saturating_add(1);
        }
    }

    /// Counts down a connection of a firm, and returns whether it was the last at its place.
    pub fn remove(&mut self, firm: FirmPlace) -> bool {
        let Some(count) = self.counts.get_mut(firm.number() as usize) else {
            return false;
        };
        *count = count.saturating_sub(1);
        *count == 0
    }
}
