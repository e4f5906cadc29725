//! Commands to the house.

ghost use Rattle.std.specs.Prelude.{◌≡◌, ◌↔◌, IsTrue, IfOk};
ghost use Rattle.gu_terms.specs.Commands.{MayBeAsked};

use crate::account::AccountId;
use crate::alloc_reject::AllocReject;
use crate::day::Day;
use crate::firm::FirmId;
use crate::group::Group;
use crate::id::Id;
use crate::limit_key::LimitKey;
use crate::lines::Lines;
use crate::lots::Lots;
use crate::offer_no::OfferNo;
use crate::price::Price;
use crate::side::Side;
use crate::symbol::Symbol;
use std::alloc::AllocError;

/// A command to open a day, which must be later than the day before.
#[derive(Clone, Copy, Debug)]
pub struct OpenDay {
    pub day: Day,
}

/// A command to set a daily limit, in lots, in one product group.
#[derive(Clone, Copy, Debug, PartialEq, Eq)]
pub struct SetLimit {
    pub group: Group,
    pub key: LimitKey,
    pub lots: u64,
}

/// A firm's report of its side of a trade (FIX: Trade Capture Report). Two sides with one match id make a trade.
#[derive(Clone, Copy, Debug, PartialEq)]
pub struct ReportSide {
    pub firm: FirmId,
    pub id: Id,
    pub match_id: Id,
    pub symbol: Symbol,
    pub lots: Lots,
    pub price: Price,
    /// The trade's day; the open day if it is None.
    pub day: Option<Day>,
    pub side: Side,
    pub account: AccountId,
}

/// An executing firm's give-up of lots of its own report, one line an account (FIX: Allocation Instruction).
#[derive(Debug, Drop)]
pub struct GiveUp {
    pub firm: FirmId,
    /// The firm's own id for the give-up. Reports have a separate set of ids.
    pub id: Id,
    /// The firm's id for the report.
    pub report: Id,
    pub lines: Lines,
}

/// A carrying firm's claim of all that is left of an offer (FIX: Allocation Report Ack).
#[derive(Clone, Copy, Debug, PartialEq, Eq)]
pub struct Claim {
    pub firm: FirmId,
    pub offer: OfferNo,
}

/// A carrying firm's refusal of what is left of an offer.
#[derive(Clone, Copy, Debug, PartialEq, Eq)]
pub struct Refuse {
    pub firm: FirmId,
    pub offer: OfferNo,
    pub why: AllocReject,
}

/// A carrying firm's reversal of what was moved for an offer since the day was opened.
#[derive(Clone, Copy, Debug, PartialEq, Eq)]
pub struct Reverse {
    pub firm: FirmId,
    pub offer: OfferNo,
}

/// A command that a caller asks the house to enter.
#[derive(Debug, Drop)]
pub enum Command {
    OpenDay(OpenDay),
    SetLimit(SetLimit),
    ReportSide(ReportSide),
    GiveUp(GiveUp),
    Claim(Claim),
    Refuse(Refuse),
    Reverse(Reverse),
}

impl GiveUp {
    /// Returns a copy.
    fn copy(&self) -> Result<GiveUp, AllocError>
        ensures { IfOk result (λ give_up. give_up ≡ self.now) }
    {
        let lines = self.lines.copy()?;
        Ok(GiveUp {
            firm: self.firm,
            id: self.id,
            report: self.report,
            lines,
        })
    }

    /// Returns whether two give-ups are the same.
    fn is_same(&self, other: &GiveUp) -> bool
        ensures { IsTrue result ↔ (self.now ≡ other.now) }
    {
        self.firm == other.firm
            && self.id == other.id
            && self.report == other.report
            && self.lines.is_same(&other.lines)
    }
}

impl Command {
    /// Shows the prover the invariant of a give-up's lines. Does nothing at run time.
    pub fn rules(&self)
        ensures { MayBeAsked self.now }
    {
        if let Command::GiveUp(give_up) = self {
            let _ = give_up.lines.as_slice();
        }
    }

    /// Returns a copy.
    pub fn copy(&self) -> Result<Command, AllocError>
        ensures { IfOk result (λ command. command ≡ self.now) }
    {
        Ok(match self {
            Command::OpenDay(it) => Command::OpenDay(*it),
            Command::SetLimit(it) => Command::SetLimit(*it),
            Command::ReportSide(it) => Command::ReportSide(*it),
            Command::GiveUp(it) => Command::GiveUp(it.copy()?),
            Command::Claim(it) => Command::Claim(*it),
            Command::Refuse(it) => Command::Refuse(*it),
            Command::Reverse(it) => Command::Reverse(*it),
        })
    }

    /// Returns whether two commands are the same.
    pub fn is_same(&self, other: &Command) -> bool
        ensures { IsTrue result ↔ (self.now ≡ other.now) }
    {
        match (self, other) {
            (Command::OpenDay(a), Command::OpenDay(b)) => a.day.is_same(b.day),
            (Command::SetLimit(a), Command::SetLimit(b)) => a == b,
            (Command::ReportSide(a), Command::ReportSide(b)) => a == b,
            (Command::GiveUp(a), Command::GiveUp(b)) => a.is_same(b),
            (Command::Claim(a), Command::Claim(b)) => a == b,
            (Command::Refuse(a), Command::Refuse(b)) => a == b,
            (Command::Reverse(a), Command::Reverse(b)) => a == b,
            _ => false,
        }
    }
}
