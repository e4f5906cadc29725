//! A report as stored: without the padding of its texts.

ghost use Rattle.std.specs.Prelude.{◌≡◌, ◌+◌, ◌≤◌, length};
ghost use Rattle.gu_terms.specs.Names.{IsId, IsName};
ghost use Rattle.gu_terms.specs.PackedEntries.{text_at};
ghost use Rattle.gu_terms.specs.Same.{same_id};
ghost use Rattle.gu_trades.specs.PackedReports.{kept_at, report_of_kept, HasIdsAndNames, IsWithin};
ghost use Rattle.gu_trades.specs.Reports.{is_by, made_on};
ghost use Rattle.gu_trades.specs.Terms.{terms_of};

use crate::short_texts::same_text;
use crate::terms::Terms;
use gu_terms::{AccountId, Day, FirmId, Id, Lots, Name, Price, Report, ReportSide, Side, Symbol};
use std::marker::Model;

/// A report without its ids and names, which are stored in the texts of all reports.
#[derive(Clone, Copy)]
pub(crate) struct Packed {
    /// The position of its first text.
    at: u32,
    /// The lengths of its texts in bytes: its own id, its match id, and the names of its firm, symbol and account.
    own: u8,
    matched: u8,
    firm: u8,
    symbol: u8,
    account: u8,
    side: Side,
    day: Day,
    lots: Lots,
    price: Price,
}

/// A reference to a stored report and the texts of all reports. To a contract it is the report.
#[derive(Drop)]
pub(crate) struct KeptRef<'a> {
    kept: &'a Packed,
    texts: &'a [u8],
}

impl<'a> Model for KeptRef<'a> {
    ghost use Rattle.gu_terms.specs.declared.report.Report.{Report as Row};
    ghost use Rattle.gu_trades.specs.PackedReports.{report_of_kept, IsWithin};

    ghost Value = { Row };

    ghost view = { λ k. report_of_kept k.texts.now k.kept.now };

    ghost invariant = { λ k. IsWithin k.texts.now k.kept.now };
}

impl Packed {
    /// Returns the stored form of a report made on this day, with its texts starting at this position.
    pub(crate) fn of(report: &ReportSide, today: Day, at: u32) -> Self
        ensures kept { result ≡ kept_at at (made_on today report.now) }
        ensures sound { HasIdsAndNames (made_on today report.now) }
    {
        Packed {
            at,
            own: report.id.get().len() as u8,
            matched: report.match_id.get().len() as u8,
            firm: report.firm.get().len() as u8,
            symbol: report.symbol.get().len() as u8,
            account: report.account.get().len() as u8,
            side: report.side,
            day: today,
            lots: report.lots,
            price: report.price,
        }
    }

    /// Returns the position of its firm's name.
    fn names_at(self) -> usize
        ensures { result ≡ self.at + self.own + self.matched }
    {
        self.at as usize + usize::from(self.own) + usize::from(self.matched)
    }
}

/// Returns `len` bytes of the texts, starting at `at`.
fn text_at(texts: &[u8], at: usize, len: u8) -> &[u8]
    requires { at + len ≤ length texts.now }
    ensures { result.now ≡ text_at texts.now at len }
{
    &texts[at..at + usize::from(len)]
}

impl<'a> KeptRef<'a> {
    /// Returns a reference to the report stored with these texts.
    pub(crate) fn new(kept: &'a Packed, texts: &'a [u8]) -> Self
        requires { IsWithin texts.now kept.now }
        ensures { result ≡ report_of_kept texts.now kept.now }
    {
        KeptRef { kept, texts }
    }

    /// Returns the bytes of its own id.
    fn own_id(&self) -> &[u8]
        ensures bytes { result.now ≡ self.now.id }
        ensures sound { IsId self.now.id }
    {
        text_at(self.texts, self.kept.at as usize, self.kept.own)
    }

    /// Returns the bytes of its match id.
    pub(crate) fn match_bytes(&self) -> &[u8]
        ensures bytes { result.now ≡ self.now.match_id }
        ensures sound { IsId self.now.match_id }
    {
        let from = self.kept.at as usize + usize::from(self.kept.own);
        text_at(self.texts, from, self.kept.matched)
    }

    /// Returns the bytes of its firm's name.
    fn firm(&self) -> &[u8]
        ensures bytes { result.now ≡ self.now.firm.name }
        ensures sound { IsName self.now.firm.name }
    {
        text_at(self.texts, self.kept.names_at(), self.kept.firm)
    }

    /// Returns whether it is this firm's report with this id.
    pub(crate) fn is_by(&self, firm: &FirmId, id: &Id) -> bool
        ensures { result ≡ is_by firm.now id.now self.now }
    {
        same_text(self.own_id(), id.get()) && self.firm() == firm.get()
    }

    /// Returns whether it has this match id.
    pub(crate) fn is_with(&self, match_id: &Id) -> bool
        ensures { result ≡ same_id self.now.match_id match_id.now }
    {
        self.has_match(match_id.get())
    }

    /// Returns whether these are the bytes of its match id.
    pub(crate) fn has_match(&self, match_id: &[u8]) -> bool
        ensures { result ≡ same_id self.now.match_id match_id.now }
    {
        same_text(self.match_bytes(), match_id)
    }

    /// Returns its match id.
    fn match_id(&self) -> Id
        ensures { result ≡ self.now.match_id }
    {
        Id::known(self.match_bytes())
    }

    /// Returns its terms.
    pub(crate) fn terms(&self) -> Terms
        ensures { result ≡ terms_of self.now }
    {
        let kept = self.kept;
        let symbol = kept.names_at() + usize::from(kept.firm);
        let account = symbol + usize::from(kept.symbol);
        Terms {
            symbol: Symbol {
                name: Name::known(text_at(self.texts, symbol, kept.symbol)),
            },
            account: AccountId {
                name: Name::known(text_at(self.texts, account, kept.account)),
            },
            side: kept.side,
            day: kept.day,
            lots: kept.lots,
            price: kept.price,
        }
    }

    /// Returns the whole report.
    pub(crate) fn report(&self) -> Report
        ensures { result ≡ self.now }
    {
        let terms = self.terms();
        Report {
            firm: FirmId {
                name: Name::known(self.firm()),
            },
            id: Id::known(self.own_id()),
            match_id: self.match_id(),
            symbol: terms.symbol,
            lots: terms.lots,
            price: terms.price,
            day: terms.day,
            side: terms.side,
            account: terms.account,
        }
    }
}
