//! Effects of accepted commands.

ghost use Rattle.std.specs.Prelude.{◌≡◌, OnErr, OnOk};
ghost use Rattle.gu_ref.specs.Tables.{Tables};
ghost use Rattle.gu_book.specs.Accepted.{MayDo, TakesDeed};
ghost use Rattle.gu_book.specs.Deeds.{Claims, Deed as DeedOf, GivesUp, Opens, Refuses, Reports, Reverses, SetsLimit, done_by, touched_by};
ghost use Rattle.gu_book.specs.Effects.{SameAnswers};

use crate::totals::Totals;
use crate::versions::Touched;
use gu_limits::PathLimits;
use gu_terms::{
    AccountId, Day, Done, GiveUp, Group, Lots, OfferNo, OpenDay, Reply, ReportSide, SetLimit,
};
use gu_trades::{ReportNo, Terms};
use std::alloc::AllocError;

/// Lots of an offer that are claimed or moved back.
#[derive(Clone, Copy, Debug)]
pub struct Moved {
    pub number: OfferNo,
    pub group: Group,
    /// The account to which the lots are offered.
    pub account: AccountId,
    /// The terms of the report that the offer gives up.
    pub report: Terms,
    /// The limits of the path of the agreement by which the offer was made.
    pub limits: PathLimits,
    pub lots: u64,
}

/// A report made on the open day.
#[derive(Drop)]
pub struct NewReport<'a> {
    pub report: &'a ReportSide,
    pub today: Day,
    /// The terms of the report that waits for it, if one does.
    pub waiting: Option<Terms>,
}

/// Offers made by giving up lines of a report.
#[derive(Drop)]
pub struct NewOffers<'a> {
    pub give_up: &'a GiveUp,
    pub group: Group,
    pub first: OfferNo,
    /// The number of the report.
    pub report: ReportNo,
}

/// A claim of an offer.
#[derive(Drop)]
pub struct NewClaim {
    pub claimed: Moved,
    pub lots: Lots,
    ghost all: { lots ≡ claimed.lots },
}

/// A refusal of an offer.
#[derive(Drop)]
pub struct Closing {
    pub number: OfferNo,
    pub group: Group,
    pub lots: Lots,
}

/// A reversal of what was moved for an offer today.
#[derive(Drop)]
pub struct Reversal {
    pub reversed: Moved,
    pub lots: Lots,
    ghost all: { lots ≡ reversed.lots },
}

/// An accepted command's effect, with everything that was looked up to decide it. Each kind has its own type, so what one kind needs is
/// never moved for another.
pub trait Deed: Drop {
    /// The effect, as specified.
    ghost does: { Self → DeedOf };

    /// Returns the reply to its command.
    fn reply(&self) -> Reply
        ensures { result ≡ Reply.Accepted (done_by (does self.now)) };

    /// Returns the groups that the entry touches.
    fn touched(&self) -> Touched
        ensures { result ≡ touched_by (does self.now) };

    /// Applies it to the totals.
    fn take_in(&self, totals: &mut Totals) -> Result<(), AllocError>
        requires { (reference : Tables) × MayDo reference totals.old (does self.now) }
        ensures taken { OnOk result (TakesDeed totals.old totals.new (does self.now)) }
        ensures refused { OnErr result (SameAnswers totals.old totals.new) };
}

impl Deed for OpenDay {
    ghost does = { λ d. Opens d };

    fn reply(&self) -> Reply {
        Reply::Accepted(Done::Opened)
    }

    fn touched(&self) -> Touched {
        Touched::Every
    }

    fn take_in(&self, totals: &mut Totals) -> Result<(), AllocError> {
        totals.open(self.day);
        Ok(())
    }
}

impl Deed for SetLimit {
    ghost does = { λ d. SetsLimit d };

    fn reply(&self) -> Reply {
        Reply::Accepted(Done::LimitSet)
    }

    fn touched(&self) -> Touched {
        let SetLimit { group, .. } = self;
        Touched::Only(*group)
    }

    fn take_in(&self, totals: &mut Totals) -> Result<(), AllocError> {
        totals.set_limit(&self.group, &self.key, self.lots)
    }
}

impl<'a> Deed for NewReport<'a> {
    ghost does = { λ d. Reports d.report.now d.today d.waiting };

    fn reply(&self) -> Reply {
        Reply::Accepted(Done::Reported {
            matched: self.waiting.is_some(),
        })
    }

    fn touched(&self) -> Touched {
        Touched::Nothing
    }

    fn take_in(&self, totals: &mut Totals) -> Result<(), AllocError> {
        totals.report(self.report, self.today, &self.waiting)
    }
}

impl<'a> Deed for NewOffers<'a> {
    ghost does = { λ d. GivesUp d.give_up.now d.group d.first d.report };

    fn reply(&self) -> Reply {
        Reply::Accepted(Done::Offered {
            group: self.group,
            first: self.first,
            count: self.give_up.lines.count(),
        })
    }

    fn touched(&self) -> Touched {
        Touched::Only(self.group)
    }

    fn take_in(&self, totals: &mut Totals) -> Result<(), AllocError> {
        // Shows the prover: the number of lines.
        let _ = self.give_up.lines.as_slice();
        totals.give_up(self.give_up, &self.group, self.report)
    }
}

impl Deed for NewClaim {
    ghost does = { λ d. Claims d.claimed };

    fn reply(&self) -> Reply {
        Reply::Accepted(Done::Claimed { lots: self.lots })
    }

    fn touched(&self) -> Touched {
        Touched::Only(self.claimed.group)
    }

    fn take_in(&self, totals: &mut Totals) -> Result<(), AllocError> {
        totals.claim(&self.claimed)
    }
}

impl Deed for Closing {
    ghost does = { λ d. Refuses d.number d.group d.lots };

    fn reply(&self) -> Reply {
        Reply::Accepted(Done::Refused { lots: self.lots })
    }

    fn touched(&self) -> Touched {
        Touched::Only(self.group)
    }

    fn take_in(&self, totals: &mut Totals) -> Result<(), AllocError> {
        totals.close(self.number);
        Ok(())
    }
}

impl Deed for Reversal {
    ghost does = { λ d. Reverses d.reversed };

    fn reply(&self) -> Reply {
        Reply::Accepted(Done::Reversed { lots: self.lots })
    }

    fn touched(&self) -> Touched {
        Touched::Only(self.reversed.group)
    }

    fn take_in(&self, totals: &mut Totals) -> Result<(), AllocError> {
        totals.reverse(&self.reversed)
    }
}
