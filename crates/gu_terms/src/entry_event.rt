//! Events: what an entry did that firms get notices of.

use crate::alloc_reject::AllocReject;
use crate::id::Id;
use crate::lots::Lots;
use crate::offer_no::OfferNo;

/// An entry's effect, if firms get notices of it. It owns no memory: a sweep's takes are read in place.
#[derive(Clone, Copy, Debug, PartialEq, Eq)]
pub enum EntryEvent {
    /// A report made a trade with this match id.
    Matched {
        match_id: Id,
    },
    /// The lines of a give-up, 1 to 16, became offers, numbered from `first`.
    Offered {
        first: OfferNo,
        count: u8,
    },
    /// All lots left of an offer were claimed.
    Claimed {
        offer: OfferNo,
        lots: Lots,
    },
    /// All lots left of an offer were refused.
    Refused {
        offer: OfferNo,
        why: AllocReject,
        lots: Lots,
    },
    /// All lots moved for an offer that day were moved back.
    Reversed {
        offer: OfferNo,
        lots: Lots,
    },
    /// A sweep was committed.
    Swept,
    /// Nothing that a firm gets a notice of.
    Other,
}
