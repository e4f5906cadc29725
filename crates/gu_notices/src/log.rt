//! The entries that a book's notices come from.

ghost use Rattle.std.specs.Prelude.{◌≡◌, true, slice_get};
ghost use Rattle.std.specs.Option.{option_map_or};
ghost use Rattle.gu_notices.specs.Filters.{has_place};
ghost use Rattle.gu_notices.specs.declared.firm_filter.FirmFilter.{FirmFilter as FilterOf};

use crate::firm_filter::{FirmFilter, FirmPlace};
use gu_terms::History;

/// A log of all entries and, for the first of them, the firms that each may notify.
#[derive(Clone, Copy)]
pub struct Log<'a> {
    pub history: &'a History,
    pub recipients: &'a [FirmFilter],
}

impl<'a> Log<'a> {
    /// Returns whether the entry at an index may notify the firms with this bit.
    pub(crate) fn may_tell(&self, place: usize, own: FirmPlace) -> bool
        ensures { result ≡ option_map_or (λ (firms : FilterOf). has_place firms own.number) (slice_get self.now.recipients.now place) true }
    {
        match self.recipients.get(place) {
            Some(firms) => firms.has(own),
            None => true,
        }
    }
}
