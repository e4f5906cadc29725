//! The event of a stored entry.

ghost use Rattle.std.specs.Prelude.{◌≡◌, ◌∷◌, [], length};
ghost use Rattle.gu_terms.specs.Events.{event_of, takes_of};
ghost use Rattle.gu_terms.specs.PackedEntries.{entry_of, IsWithin};

use crate::entry_event::EntryEvent;
use crate::id::Id;
use crate::kept_reply::KeptReply;
use crate::packed::{Body, Packed};
use crate::takes::Take;

impl Packed {
    /// Returns the entry's event, with its match id from `all`.
    pub(crate) fn event(&self, all: &[u8]) -> EntryEvent
        requires { IsWithin all.now self.now }
        ensures { result ≡ event_of (entry_of all.now self.now) }
    {
        match (&self.body, self.reply) {
            (Body::ReportSide { .. }, KeptReply::Reported { matched: true }) =>
                EntryEvent::Matched {
                    match_id: Id::known(self.span.texts(all).other_id),
                },
            (Body::GiveUpOne { .. }, KeptReply::Offered { first, .. }) => {
                EntryEvent::Offered { first, count: 1 }
            }
            (Body::GiveUp(lines), KeptReply::Offered { first, .. }) => EntryEvent::Offered {
                first,
                count: lines.count(),
            },
            (Body::Claim { offer, .. }, KeptReply::Claimed { lots }) => EntryEvent::Claimed {
                offer: *offer,
                lots,
            },
            (Body::Refuse { offer, why, .. }, KeptReply::Refused { lots }) => EntryEvent::Refused {
                offer: *offer,
                why: *why,
                lots,
            },
            (Body::Reverse { offer, .. }, KeptReply::Reversed { lots }) => EntryEvent::Reversed {
                offer: *offer,
                lots,
            },
            (Body::Swept(_), _) => EntryEvent::Swept,
            _ => EntryEvent::Other,
        }
    }

    /// Returns the takes of a sweep, and none for any other entry.
    pub(crate) fn takes(&self, all: &[u8]) -> &[Take]
        ensures { result.now ≡ takes_of (entry_of all.now self.now) }
    {
        match &self.body {
            Body::Swept(sweep) => sweep.takes(),
            _ => &[],
        }
    }
}
