//! Entries as the history stores them: without the padding of ids and names.

ghost use Rattle.std.specs.Prelude.{◌≡◌, IfOk};
ghost use Rattle.gu_terms.specs.PackedEntries.{end_of, entry_of, firm_by, report_by, IsWithin};
ghost use Rattle.gu_terms.specs.LimitKeys.{key_by};
ghost use Rattle.gu_terms.specs.Names.{IsId, IsName};

use crate::account::AccountId;
use crate::alloc_reject::AllocReject;
use crate::command::{Claim, Command, GiveUp, OpenDay, Refuse, ReportSide, Reverse, SetLimit};
use crate::day::Day;
use crate::entry::Entry;
use crate::firm::FirmId;
use crate::group::Group;
use crate::id::Id;
use crate::kept_reply::KeptReply;
use crate::kept_sweep::KeptSweep;
use crate::kept_texts::{Span, Texts};
use crate::limit_key::KeyKind;
use crate::lines::{Line, Lines};
use crate::lots::Lots;
use crate::name::Name;
use crate::offer_no::OfferNo;
use crate::price::Price;
use crate::side::Side;
use crate::symbol::Symbol;
use std::alloc::{AllocError, Global};

/// The parts of a report that are stored apart from its texts and its price.
#[derive(Clone, Copy)]
pub(crate) struct KeptReport {
    pub(crate) side: Side,
    pub(crate) day: Option<Day>,
    pub(crate) lots: Lots,
}

/// The parts of an entry that are stored apart from its texts and its reply. Fields go from small to large, to save room.
#[derive(Drop)]
pub(crate) enum Body {
    OpenDay { day: Day },
    SetLimit { kind: KeyKind, lots: u64 },
    ReportSide { report: KeptReport, price: Price },
    /// A give-up with one line, as most have.
    GiveUpOne { lots: Lots },
    /// A give-up with several lines.
    GiveUp(Box<Lines>),
    Claim { offer: OfferNo },
    Refuse { why: AllocReject, offer: OfferNo },
    Reverse { offer: OfferNo },
    /// A sweep, which has no reply.
    Swept(Box<KeptSweep>),
}

/// An entry as stored.
#[derive(Drop)]
pub(crate) struct Packed {
    pub(crate) span: Span,
    pub(crate) reply: KeptReply,
    pub(crate) body: Body,
}

impl KeptReport {
    /// Returns the parts of a report that are stored apart from its texts.
    pub(crate) fn of(report: &ReportSide) -> Self
        ensures { result ≡ record { side = report.now.side; day = report.now.day; lots = report.now.lots } }
    {
        KeptReport {
            side: report.side,
            day: report.day,
            lots: report.lots,
        }
    }

    /// Returns the report stored as this, with its texts.
    pub(crate) fn command(self, texts: &Texts<'_>, price: Price) -> Command
        requires ids { IsId texts.now.own_id × IsId texts.now.other_id }
        requires names { IsName texts.now.symbol_or_group × IsName texts.now.account_or_key × IsName texts.now.firm }
        ensures { result ≡ report_by texts.now self price }
    {
        Command::ReportSide(ReportSide {
            firm: firm(texts),
            id: Id::known(texts.own_id),
            match_id: Id::known(texts.other_id),
            symbol: Symbol {
                name: Name::known(texts.symbol_or_group),
            },
            lots: self.lots,
            price,
            day: self.day,
            side: self.side,
            account: AccountId {
                name: Name::known(texts.account_or_key),
            },
        })
    }
}

/// Returns the firm named in these texts.
pub(crate) fn firm(texts: &Texts<'_>) -> FirmId
    requires { IsName texts.now.firm }
    ensures { result ≡ firm_by texts.now }
{
    FirmId {
        name: Name::known(texts.firm),
    }
}

/// Returns a limit, with its texts.
pub(crate) fn limit(texts: &Texts<'_>, kind: KeyKind, lots: u64) -> Command
    requires { IsName texts.now.symbol_or_group × IsName texts.now.account_or_key }
    ensures { result ≡ Command.SetLimit (record { group = record { name = texts.now.symbol_or_group }; key = key_by kind texts.now.account_or_key; lots = lots }) }
{
    Command::SetLimit(SetLimit {
        group: Group {
            name: Name::known(texts.symbol_or_group),
        },
        key: kind.key(Name::known(texts.account_or_key)),
        lots,
    })
}

/// Returns a line with these lots and the account in these texts.
pub(crate) fn line(texts: &Texts<'_>, lots: Lots) -> Line
    requires { IsName texts.now.account_or_key }
    ensures { result ≡ record { account = record { name = texts.now.account_or_key }; lots = lots } }
{
    Line {
        account: AccountId {
            name: Name::known(texts.account_or_key),
        },
        lots,
    }
}

/// Returns a give-up with these lines and texts.
fn give_up(texts: &Texts<'_>, lines: Lines) -> Command
    requires ids { IsId texts.now.own_id × IsId texts.now.other_id }
    requires firm { IsName texts.now.firm }
    ensures { result ≡ Command.GiveUp (record { firm = firm_by texts.now; id = texts.now.own_id; report = texts.now.other_id; lines = lines }) }
{
    Command::GiveUp(GiveUp {
        firm: firm(texts),
        id: Id::known(texts.own_id),
        report: Id::known(texts.other_id),
        lines,
    })
}

impl Packed {
    /// Returns the position after its texts.
    pub(crate) fn end(&self) -> usize
        ensures { result ≡ end_of self.now }
    {
        self.span.end()
    }

    /// Returns the entry stored as this, with its texts from `all`.
    pub(crate) fn entry(&self, alloc: Global, all: &[u8]) -> Result<Entry, AllocError>
        requires { IsWithin all.now self.now }
        ensures { IfOk result (λ entry. entry ≡ entry_of all.now self.now) }
    {
        let texts = self.span.texts(all);
        let reply = self.reply.reply(texts.reply);
        let command = match &self.body {
            Body::OpenDay { day } => Command::OpenDay(OpenDay { day: *day }),
            Body::SetLimit { kind, lots } => limit(&texts, *kind, *lots),
            Body::ReportSide { report, price } => report.command(&texts, *price),
            Body::GiveUpOne { lots } => give_up(&texts, Lines::one(alloc, line(&texts, *lots))?),
            Body::GiveUp(lines) => give_up(&texts, lines.copy()?),
            Body::Claim { offer } => Command::Claim(Claim {
                firm: firm(&texts),
                offer: *offer,
            }),
            Body::Refuse { why, offer } => Command::Refuse(Refuse {
                firm: firm(&texts),
                offer: *offer,
                why: *why,
            }),
            Body::Reverse { offer } => Command::Reverse(Reverse {
                firm: firm(&texts),
                offer: *offer,
            }),
            Body::Swept(sweep) => return Ok(Entry::Swept(sweep.entry(alloc)?)),
        };
        Ok(Entry::Asked { command, reply })
    }
}
