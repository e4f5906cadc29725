//! Replies to commands.

ghost use Rattle.std.specs.Prelude.{◌≡◌, ◌↔◌, IsTrue};

use crate::group::Group;
use crate::lots::Lots;
use crate::offer_no::OfferNo;
use crate::refusal::Refusal;

/// The effect of an accepted command.
#[derive(Clone, Copy, Debug, PartialEq, Eq)]
pub enum Done {
    /// The day is open.
    Opened,
    /// The limit applies from now on.
    LimitSet,
    /// The side is captured, and makes a trade with an earlier side or waits for its other side.
    Reported {
        matched: bool,
    },
    /// The lines are offers in this product group, `count` of them, numbered from `first`.
    Offered {
        group: Group,
        first: OfferNo,
        count: u8,
    },
    /// These lots, all that was left of the offer, are moved to the carrying firm's account.
    Claimed {
        lots: Lots,
    },
    /// These lots, all that was left of the offer, are closed.
    Refused {
        lots: Lots,
    },
    /// These lots, all that was moved for the offer on this day, are moved back.
    Reversed {
        lots: Lots,
    },
}

impl Done {
    /// Returns whether two commands had the same effect.
    pub fn is_same(self, other: Done) -> bool
        ensures { IsTrue result ↔ (self ≡ other) }
    {
        match self {
            Done::Opened => matches!(other, Done::Opened),
            Done::LimitSet => matches!(other, Done::LimitSet),
            Done::Reported { matched } => match other {
                Done::Reported { matched: of_other } => matched == of_other,
                _ => false,
            },
            Done::Offered {
                group,
                first,
                count,
            } => match other {
                Done::Offered {
                    group: group_of_other,
                    first: first_of_other,
                    count: count_of_other,
                } => {
                    group == group_of_other && first == first_of_other && count == count_of_other
                }
                _ => false,
            },
            Done::Claimed { lots } => match other {
                Done::Claimed { lots: of_other } => lots == of_other,
                _ => false,
            },
            Done::Refused { lots } => match other {
                Done::Refused { lots: of_other } => lots == of_other,
                _ => false,
            },
            Done::Reversed { lots } => match other {
                Done::Reversed { lots: of_other } => lots == of_other,
                _ => false,
            },
        }
    }
}

/// The reply to a command.
#[derive(Clone, Copy, Debug, PartialEq, Eq)]
pub enum Reply {
    Accepted(Done),
    Denied(Refusal),
}

impl Reply {
    /// Returns whether two replies are the same.
    pub fn is_same(self, other: Reply) -> bool
        ensures { IsTrue result ↔ (self ≡ other) }
    {
        match self {
            Reply::Accepted(done) => match other {
                Reply::Accepted(of_other) => done.is_same(of_other),
                Reply::Denied(_) => false,
            },
            Reply::Denied(refusal) => match other {
                Reply::Denied(of_other) => refusal.is_same(&of_other),
                Reply::Accepted(_) => false,
            },
        }
    }
}
