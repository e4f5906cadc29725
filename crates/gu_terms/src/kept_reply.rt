//! Replies as the history stores them: without the name of a group or a key, which is among the texts.

ghost use Rattle.std.specs.Prelude.{◌≡◌};
ghost use Rattle.gu_terms.specs.PackedEntries.{reply_by, IsNameOf, IsReplyOf};

use crate::group::Group;
use crate::limit_key::KeyKind;
use crate::lots::Lots;
use crate::name::{LONGEST_NAME, Name};
use crate::offer_no::OfferNo;
use crate::padded::Padded;
use crate::refusal::Refusal;
use crate::reply::{Done, Reply};

/// A reply as stored.
#[derive(Clone, Copy)]
pub(crate) enum KeptReply {
    Opened,
    LimitSet,
    Reported { matched: bool },
    Offered { first: OfferNo, count: u8 },
    Claimed { lots: Lots },
    Refused { lots: Lots },
    Reversed { lots: Lots },
    /// A refusal that names no key, as its number.
    Denied(u8),
    /// The limit on a key of this kind is reached.
    LimitReached(KeyKind),
}

impl KeptReply {
    /// Returns the name in a reply, or another text if it has none, and the rest of the reply to store.
    pub(crate) fn of<'a>(
        reply: &'a Reply,
        none: &'a Padded<LONGEST_NAME>,
    ) -> (&'a Padded<LONGEST_NAME>, KeptReply)
        ensures { IsReplyOf result.0.now result.1 reply.now }
    {
        let done = match reply {
            Reply::Accepted(done) => done,
            Reply::Denied(Refusal::LimitReached(key)) => {
                return (key.padded(), KeptReply::LimitReached(KeyKind::of(*key)));
            }
            Reply::Denied(refusal) => return (none, KeptReply::Denied(refusal.code())),
        };
        let kept = match done {
            Done::Opened => KeptReply::Opened,
            Done::LimitSet => KeptReply::LimitSet,
            Done::Reported { matched } => KeptReply::Reported { matched: *matched },
            Done::Offered {
                group,
                first,
                count,
            } => {
                let kept = KeptReply::Offered {
                    first: *first,
                    count: *count,
                };
                return (group.name.padded(), kept);
            }
            Done::Claimed { lots } => KeptReply::Claimed { lots: *lots },
            Done::Refused { lots } => KeptReply::Refused { lots: *lots },
            Done::Reversed { lots } => KeptReply::Reversed { lots: *lots },
        };
        (none, kept)
    }

    /// Returns the reply stored as this, with this name in it.
    pub(crate) fn reply(self, name: &[u8]) -> Reply
        requires { IsNameOf name.now self }
        ensures { result ≡ reply_by name.now self }
    {
        let done = match self {
            KeptReply::Opened => Done::Opened,
            KeptReply::LimitSet => Done::LimitSet,
            KeptReply::Reported { matched } => Done::Reported { matched },
            KeptReply::Offered { first, count } => Done::Offered {
                group: Group {
                    name: Name::known(name),
                },
                first,
                count,
            },
            KeptReply::Claimed { lots } => Done::Claimed { lots },
            KeptReply::Refused { lots } => Done::Refused { lots },
            KeptReply::Reversed { lots } => Done::Reversed { lots },
            KeptReply::Denied(code) => return Reply::Denied(Refusal::of_code(code)),
            KeptReply::LimitReached(kind) => {
                return Reply::Denied(Refusal::LimitReached(kind.key(Name::known(name))));
            }
        };
        Reply::Accepted(done)
    }
}
