//! The house's reports, in the order in which they were accepted.

ghost use Rattle.std.specs.Prelude.{◌≡◌, ◌++◌, ◌∷◌, [], false, Some, Contains, is_some, OnOk, OnErr, IfOk, IfSome, ◌<◌, length, slice_get, true};
ghost use Rattle.std.specs.Option.{option_map};
ghost use Rattle.gu_terms.specs.declared.report.Report.{Report as ReportOf};
ghost use Rattle.gu_trades.specs.Counterparts.{counterpart_of, standing_in};
ghost use Rattle.gu_trades.specs.Kept.{ArePlaced, id_number, is_by_at, match_number};
ghost use Rattle.gu_trades.specs.Matching.{conflicts, is_of_trade, matching_of};
ghost use Rattle.gu_trades.specs.Numbered.{last_before};
ghost use Rattle.gu_trades.specs.Reports.{has_report, made_on, report_by, report_of, with_match};
ghost use Rattle.gu_trades.specs.Rules.{IsSound, are_sides};
ghost use Rattle.gu_trades.specs.Sides.{reports_in};
ghost use Rattle.gu_trades.specs.Terms.{terms_of};

use crate::counterpart::Counterpart;
use crate::hash_index::{HashIndex, number_of};
use crate::matching::Matching;
use crate::report_no::ReportNo;
use crate::reports::Reports;
use crate::sides::Sides;
use crate::standing::Standing;
use crate::terms::Terms;
use gu_terms::{AccountId, Day, FirmId, Id, Lots, Price, Report, ReportSide, Seed, Side, Symbol};
use std::alloc::{AllocError, Global};
use std::marker::Model;

/// The accepted reports: each id of a firm occurs once, and each match id once or as a trade. To a contract it is their list.
pub struct Trades {
    reports: Reports,
    by_id: HashIndex,
    by_match: HashIndex,
    seed: Seed,
}

impl Drop for Trades {
    fn drop(self) {
        let Trades {
            reports,
            by_id,
            by_match,
            seed: _,
        } = self;
        drop(reports);
        drop(by_id);
        drop(by_match);
    }
}

impl Model for Trades {
    ghost use Rattle.std.specs.Prelude.{List};
    ghost use Rattle.gu_terms.specs.declared.report.Report.{Report as Row};

    ghost Value = { List Row };

    ghost use Rattle.gu_trades.specs.Kept.{IsKept};

    ghost view = { λ t. t.reports };

    ghost invariant = { IsKept };
}

/// Returns the stored hash of a firm and an id.
fn id_number(seed: &Seed, firm: &FirmId, id: &Id) -> u32
    ensures { result ≡ id_number seed.now firm.now id.now }
{
    number_of(seed, (firm, id))
}

/// Returns the stored hash of a match id.
fn match_number(seed: &Seed, match_id: &Id) -> u32
    ensures { result ≡ match_number seed.now match_id.now }
{
    number_of(seed, match_id)
}

impl Trades {
    /// Returns an empty table.
    pub fn new(alloc: Global) -> Self
        ensures { result ≡ [] }
    {
        Trades::seeded(alloc, Seed::new(0))
    }

    /// Returns an empty table whose id hashes use `seed`. The seed affects no answer.
    pub fn seeded(alloc: Global, seed: Seed) -> Self
        ensures { result ≡ [] }
    {
        Trades {
            reports: Reports::new(alloc),
            by_id: HashIndex::new(alloc),
            by_match: HashIndex::new(alloc),
            seed,
        }
    }

    /// Shows the prover the rules of all accepted reports: looking up a report's firm and id finds that report.
    pub fn rules(&self)
        ensures sound { IsSound self.now }
        ensures own { (report : ReportOf) → Contains self.now report → report_by self.now report.firm report.id ≡ Some report }
    {
        // Reading a field shows the prover the invariant of its type.
        let _ = &self.reports;
    }

    /// Returns the position of the firm's last report with this id, counted from 1; 0 if there is none.
    fn last_by(&self, firm: &FirmId, id: &Id) -> u32
        ensures placed { result ≡ last_before (is_by_at self.now firm.now id.now) (length self.now) }
        ensures sound { IsSound self.now }
    {
        let mut at = self.by_id.last(id_number(&self.seed, firm, id));
        while at > 0 {
            let place = at as usize - 1;
            if self.reports.kept(place).is_by(firm, id) {
                return at;
            }
            at = self.by_id.before(place);
        }
        0
    }

    /// Returns the positions of the last two reports with this match id, counted from 1, the later first; 0 if there is none.
    fn last_two(&self, match_id: &Id) -> (u32, u32)
        ensures placed { ArePlaced self.now match_id.now result.0 result.1 }
        ensures sound { are_sides (with_match match_id.now self.now) ≡ true }
    {
        let mut last = 0;
        let mut at = self.by_match.last(match_number(&self.seed, match_id));
        while at > 0 {
            let place = at as usize - 1;
            if self.reports.kept(place).is_with(match_id) {
                if last > 0 {
                    return (last, at);
                }
                last = at;
            }
            at = self.by_match.before(place);
        }
        (last, 0)
    }

    /// Returns the reports with this match id, at most two, in the order of arrival.
    pub fn trade(&self, match_id: Id) -> Sides
        ensures { reports_in result ≡ with_match match_id self.now }
    {
        let (last, first) = self.last_two(&match_id);
        if last == 0 {
            return Sides::Neither;
        }
        let later = self.reports.kept(last as usize - 1).report();
        if first == 0 {
            return Sides::One(later);
        }
        Sides::Both(self.reports.kept(first as usize - 1).report(), later)
    }

    /// Returns the counterpart of a new report with this match id and these terms.
    pub fn counterpart(&self, match_id: &Id, terms: &Terms) -> Counterpart
        ensures { result ≡ counterpart_of (with_match match_id.now self.now) terms.now }
    {
        let (last, first) = self.last_two(match_id);
        if last == 0 {
            return Counterpart::Nobody;
        }
        if first != 0 {
            return Counterpart::Conflicting;
        }
        let waiting = self.reports.kept(last as usize - 1).terms();
        if waiting.have_other_sides(terms) {
            Counterpart::Waiting(waiting)
        } else {
            Counterpart::Conflicting
        }
    }

    /// Returns the firm's report with this id.
    pub fn side_of(&self, firm: FirmId, id: Id) -> Option<Report>
        ensures found { result ≡ report_by self.now firm id }
        ensures known { is_some result ≡ has_report self.now firm id }
    {
        let at = self.last_by(&firm, &id);
        if at == 0 {
            return None;
        }
        Some(self.reports.kept(at as usize - 1).report())
    }

    /// Returns whether the firm has a report with this id.
    pub fn has(&self, firm: &FirmId, id: &Id) -> bool
        ensures { result ≡ has_report self.now firm.now id.now }
    {
        self.last_by(firm, id) != 0
    }

    /// Returns the terms of the firm's report with this id.
    pub fn terms(&self, firm: &FirmId, id: &Id) -> Option<Terms>
        ensures { result ≡ option_map terms_of (report_by self.now firm.now id.now) }
    {
        let at = self.last_by(firm, id);
        if at == 0 {
            return None;
        }
        Some(self.reports.kept(at as usize - 1).terms())
    }

    /// Returns the terms of the report with this number.
    pub fn terms_at(&self, report: ReportNo) -> Terms
        requires { report < length self.now }
        ensures { option_map terms_of (slice_get self.now report) ≡ Some result }
    {
        self.reports.kept(report.get()).terms()
    }

    /// Returns the firm's report with this id: its number, its terms, and whether it is a side of a trade.
    pub fn standing(&self, firm: &FirmId, id: &Id) -> Option<(ReportNo, Standing)>
        ensures standing { option_map (λ r. r.1) result ≡ option_map (standing_in self.now) (report_by self.now firm.now id.now) }
        ensures at { IfSome result (λ r. slice_get self.now r.0 ≡ report_by self.now firm.now id.now) }
    {
        let at = self.last_by(firm, id);
        if at == 0 {
            return None;
        }
        let place = at as usize - 1;
        let standing = Standing {
            terms: self.reports.kept(place).terms(),
            is_of_trade: self.is_of_trade(place),
        };
        Some((ReportNo::known(at - 1), standing))
    }

    /// Adds a report whose id is new and whose match id has no report, or only its other side.
    pub fn report(
        &mut self,
        firm: FirmId,
        id: Id,
        match_id: Id,
        symbol: Symbol,
        lots: Lots,
        price: Price,
        day: Day,
        side: Side,
        account: AccountId,
    ) -> Result<Matching, AllocError>
        requires new_id { has_report self.old firm id ≡ false }
        requires fits { conflicts (with_match match_id self.old) (report_of firm id match_id symbol lots price day side account) ≡ false }
        ensures taken { OnOk result (self.new ≡ self.old ++ report_of firm id match_id symbol lots price day side account ∷ []) }
        ensures matching { IfOk result (λ matching. matching ≡ matching_of (with_match match_id self.old)) }
        ensures refused { OnErr result (self.new ≡ self.old) }
    {
        let matching = self.matching(&match_id);
        let report = ReportSide {
            firm,
            id,
            match_id,
            symbol,
            lots,
            price,
            day: Some(day),
            side,
            account,
        };
        self.push(&report, day)?;
        Ok(matching)
    }

    /// Returns whether the report at an index is a side of a trade.
    fn is_of_trade(&self, place: usize) -> bool
        requires { place < length self.now }
        ensures { option_map (is_of_trade self.now) (slice_get self.now place) ≡ Some result }
    {
        let kept = self.reports.kept(place);
        let match_id = kept.match_bytes();
        let mut at = self.by_match.last(self.by_match.number(place));
        while at > 0 {
            let other = at as usize - 1;
            if other != place && self.reports.kept(other).has_match(match_id) {
                return true;
            }
            at = self.by_match.before(other);
        }
        false
    }

    /// Returns the effect of one more report with this match id.
    fn matching(&self, match_id: &Id) -> Matching
        ensures { result ≡ matching_of (with_match match_id.now self.now) }
    {
        let (last, _) = self.last_two(match_id);
        Matching::behind(last)
    }

    /// Adds a report on this day as `report` does, without returning its effect, for a caller that knows the reports with its match id.
    pub fn push(&mut self, report: &ReportSide, today: Day) -> Result<(), AllocError>
        requires new_id { has_report self.old report.now.firm report.now.id ≡ false }
        requires fits { conflicts (with_match report.now.match_id self.old) (made_on today report.now) ≡ false }
        ensures taken { OnOk result (self.new ≡ self.old ++ made_on today report.now ∷ []) }
        ensures refused { OnErr result (self.new ≡ self.old) }
    {
        // All allocations come first, so a failed one leaves everything unchanged.
        self.by_id.reserve()?;
        self.by_match.reserve()?;
        self.reports.push(report, today)?;
        self.by_id
            .push(id_number(&self.seed, &report.firm, &report.id));
        self.by_match
            .push(match_number(&self.seed, &report.match_id));
        Ok(())
    }
}
