//! Totals that a book keeps, so that no answer reads its history.

ghost use Rattle.std.specs.Prelude.{◌≡◌, ◌<◌, ◌≤◌, ◌+◌, ◌^◌, ◌++◌, ◌∷◌, [], true, false, is_some, List, Some, None, IfOk, OnOk, OnErr, length, map};
ghost use Rattle.std.specs.Option.{option_map};
ghost use Rattle.indexmap.specs.IndexSet.{hasher_of};
ghost use Rattle.gu_limits.specs.Changes.{Charges, MayCharge, MayReturn, Returns, Sets};
ghost use Rattle.gu_offers.specs.Changes.{changed, closed, next_day, reversed, taken, with_lines};
ghost use Rattle.gu_offers.specs.Rows.{Row, counted_under, left_in, row_at, today_in};
ghost use Rattle.gu_positions.specs.Changes.{KeepsNumbers};
ghost use Rattle.gu_positions.specs.Rows.{lots_in, lots_on};
ghost use Rattle.gu_terms.specs.declared.firm.FirmId.{FirmId as FirmOf};
ghost use Rattle.gu_terms.specs.declared.id.Id.{Id as IdOf};
ghost use Rattle.gu_terms.specs.declared.limit_key.LimitKey.{LimitKey as LimitKeyOf};
ghost use Rattle.gu_terms.specs.declared.offer.Offer.{Offer as OfferOf};
ghost use Rattle.gu_terms.specs.declared.side.Side.{Side as SideOf};
ghost use Rattle.gu_terms.specs.declared.symbol.Symbol.{Symbol as SymbolOf};
ghost use Rattle.gu_trades.specs.Counterparts.{counterpart_of};
ghost use Rattle.gu_trades.specs.Reports.{has_report, made_on, report_by, with_match};
ghost use Rattle.gu_trades.specs.Terms.{terms_of};
ghost use Rattle.gu_rules.specs.Reports.{Fits};
ghost use Rattle.gu_book.specs.GivenUp.{AreGivenUp, names_at};

use crate::deed::Moved;
use crate::given_up::GivenUp;
use crate::holding::{hold, make_rows, move_back, move_over};
use gu_limits::LimitTable;
use gu_offers::Offers;
use gu_positions::{Positions, RowNo};
use gu_terms::{Day, FirmId, GiveUp, Group, Id, LimitKey, OfferNo, ReportSide, Seed};
use gu_trades::{ReportNo, Terms, Trades};
use indexmap::IndexSet;
use std::alloc::{AllocError, Global};

/// The firm and id that identify a give-up. No two give-ups have the same.
#[derive(Clone, Copy, Debug, PartialEq, Eq, Hash)]
pub struct GiveUpKey {
    pub firm: FirmId,
    pub id: Id,
}

/// Lots about to move, with the rows of the accounts between which they move: that of the report, and that of the offer.
#[derive(Clone, Copy)]
pub struct Transfer {
    pub moved: Moved,
    pub rows: (RowNo, RowNo),
}

/// The totals that a history leads to.
pub struct Totals {
    /// The open day.
    pub today: Option<Day>,
    /// The reports that were accepted.
    pub trades: Trades,
    /// The offers, as they are now.
    pub offers: Offers,
    /// What they give up of each report.
    pub given_up: GivenUp,
    /// The give-ups that were accepted.
    pub give_ups: IndexSet<GiveUpKey, Seed>,
    /// The limits that were set, and their use today.
    pub limits: LimitTable,
    /// Each account's positions.
    pub positions: Positions,
    ghost placed: { AreGivenUp trades offers given_up },
}

impl Drop for Totals {
    fn drop(self) {
        let Totals {
            today: _,
            trades,
            offers,
            given_up,
            give_ups,
            limits,
            positions,
        } = self;
        drop(trades);
        drop(offers);
        drop(given_up);
        drop(give_ups);
        drop(limits);
        drop(positions);
    }
}

impl Totals {
    ghost use Rattle.gu_book.specs.Beside.{is_kept_give_up, waiting_of};
    ghost use Rattle.gu_book.specs.Effects.{HoldsMore, HoldsMoved, SameAnswers, SameEntries, UsesNothing, made_a_trade};
    ghost use Rattle.gu_book.specs.Moving.{ClaimsLots, HasRows, MayClaim};

    /// Returns the totals of an empty history, whose tables of firm-chosen ids use `seed`. The seed affects no answer.
    pub fn seeded(alloc: Global, seed: Seed) -> Self
        ensures today { result.today ≡ None }
        ensures trades { result.trades ≡ [] }
        ensures offers { result.offers ≡ [] }
        ensures give_ups { result.give_ups.keys ≡ [] }
        ensures seed { hasher_of result.give_ups ≡ seed }
        ensures limits { result.limits ≡ [] }
        ensures positions { result.positions ≡ [] }
    {
        Totals {
            today: None,
            trades: Trades::seeded(alloc, seed),
            offers: Offers::new(alloc),
            given_up: GivenUp::new(alloc),
            give_ups: IndexSet::with_hasher(alloc, seed),
            limits: LimitTable::new(alloc),
            positions: Positions::new(alloc),
        }
    }

    /// Returns whether the firm has given up with this id.
    pub fn has_give_up(&self, firm: &FirmId, id: &Id) -> bool
        ensures { result ≡ is_kept_give_up self.now.give_ups.keys firm.now id.now }
    {
        self.give_ups.contains(&GiveUpKey {
            firm: *firm,
            id: *id,
        })
    }

    /// Returns the lots of the report with this number that its offers hold.
    pub fn lots_given_up(&self, report: ReportNo) -> u64
        ensures { (firm : FirmOf) (id : IdOf) → names_at self.now.trades report ≡ Some (firm, id) → result ≡ counted_under self.now.offers firm id }
    {
        self.given_up.lots_of(report)
    }

    /// Returns the terms of the report that an offer gives up.
    pub fn terms_given_up(&self, number: OfferNo) -> Terms
        requires { is_some (row_at self.now.offers number) ≡ true }
        ensures { (offer : OfferOf) → Some offer ≡ option_map (λ (r : Row). r.offer) (row_at self.now.offers number)
            → Some result ≡ option_map terms_of (report_by self.now.trades offer.firm offer.report) }
    {
        // Shows the prover: a report's firm and id find that report.
        self.trades.rules();
        self.trades.terms_at(self.given_up.report(number))
    }

    /// Opens a day.
    pub fn open(&mut self, day: Day)
        ensures today { self.new.today ≡ Some day }
        ensures trades { self.new.trades ≡ self.old.trades }
        ensures give_ups { self.new.give_ups.keys ≡ self.old.give_ups.keys }
        ensures offers { self.new.offers ≡ map next_day self.old.offers }
        ensures limits { UsesNothing self.old.limits self.new.limits }
        ensures positions { self.new.positions ≡ self.old.positions }
    {
        self.today = Some(day);
        self.offers.new_day();
        self.limits.new_day();
    }

    /// Sets a limit.
    pub fn set_limit(&mut self, group: &Group, key: &LimitKey, lots: u64) -> Result<(), AllocError>
        requires { lots ≤ 1000000000 }
        ensures entries { SameEntries self.old self.new }
        ensures offers { self.new.offers ≡ self.old.offers }
        ensures limits { OnOk result (Sets self.old.limits self.new.limits group.now key.now lots) }
        ensures positions { self.new.positions ≡ self.old.positions }
        ensures refused { OnErr result (SameAnswers self.old self.new) }
    {
        self.limits.set_within(group, key, lots)?;
        Ok(())
    }

    /// Adds a report on this day. If it makes a trade with a waiting one, with these terms, adds the lots of both to their accounts.
    pub fn report(
        &mut self,
        report: &ReportSide,
        today: Day,
        waiting: &Option<Terms>,
    ) -> Result<(), AllocError>
        requires fits { Fits self.old.trades (made_on today report.now) }
        requires waiting { waiting.now ≡ waiting_of (counterpart_of (with_match report.now.match_id self.old.trades) (terms_of (made_on today report.now))) }
        requires room { (side : SideOf) (symbol : SymbolOf) → lots_on self.old.positions side symbol + 2000000 < 2 ^ 64 }
        ensures today { self.new.today ≡ self.old.today }
        ensures give_ups { self.new.give_ups.keys ≡ self.old.give_ups.keys }
        ensures trades { OnOk result (self.new.trades ≡ self.old.trades ++ made_on today report.now ∷ []) }
        ensures offers { self.new.offers ≡ self.old.offers }
        ensures limits { self.new.limits ≡ self.old.limits }
        ensures positions { OnOk result (HoldsMore self.old.positions self.new.positions
            (made_a_trade (with_match report.now.match_id self.old.trades) (made_on today report.now))) }
        ensures refused { OnErr result (SameAnswers self.old self.new) }
    {
        let Some(waiting) = waiting else {
            self.trades.push(report, today)?;
            return Ok(());
        };
        let terms = Terms::on(today, report);
        let rows = make_rows(
            &mut self.positions,
            (&terms.account, &terms.symbol),
            (&waiting.account, &waiting.symbol),
        )?;
        self.trades.push(report, today)?;
        hold(&mut self.positions, &rows.1, waiting);
        hold(&mut self.positions, &rows.0, &terms);
        Ok(())
    }

    /// Adds an offer for each line of a give-up of the report with this number.
    pub fn give_up(
        &mut self,
        asked: &GiveUp,
        group: &Group,
        report: ReportNo,
    ) -> Result<(), AllocError>
        requires report { names_at self.old.trades report ≡ Some (asked.now.firm, asked.now.report) }
        requires new_id { is_kept_give_up self.old.give_ups.keys asked.now.firm asked.now.id ≡ false }
        requires numbers { length self.old.offers + length asked.now.lines ≤ 16000000 }
        ensures today { self.new.today ≡ self.old.today }
        ensures trades { self.new.trades ≡ self.old.trades }
        ensures give_ups { OnOk result (self.new.give_ups.keys ≡ self.old.give_ups.keys ++ record { firm = asked.now.firm; id = asked.now.id } ∷ []) }
        ensures offers { OnOk result (self.new.offers ≡ with_lines self.old.offers asked.now.firm asked.now.report group.now asked.now.lines) }
        ensures limits { self.new.limits ≡ self.old.limits }
        ensures positions { self.new.positions ≡ self.old.positions }
        ensures refused { OnErr result (SameAnswers self.old self.new) }
    {
        // Shows the prover: the rules of the reports and of the offers.
        self.trades.rules();
        self.offers.rules();
        let count = asked.lines.as_slice().len();
        self.give_ups.reserve(1)?;
        self.given_up.reserve(report, count)?;
        self.offers
            .give_up(asked.firm, asked.report, *group, &asked.lines)?;
        self.given_up.add(report, count, asked.lines.lots());
        self.give_ups.insert(GiveUpKey {
            firm: asked.firm,
            id: asked.id,
        })?;
        Ok(())
    }

    /// Closes an offer. What was left of it may be given up again.
    pub fn close(&mut self, number: OfferNo)
        requires { is_some (row_at self.old.offers number) ≡ true }
        ensures entries { SameEntries self.old self.new }
        ensures offers { self.new.offers ≡ changed self.old.offers number closed }
        ensures limits { self.new.limits ≡ self.old.limits }
        ensures positions { self.new.positions ≡ self.old.positions }
    {
        // Shows the prover: the rules of the reports and of the offers.
        self.trades.rules();
        self.offers.rules();
        let left = self.offers.left(number);
        self.offers.close(number);
        let report = self.given_up.report(number);
        self.given_up.take(report, left);
    }

    /// Makes the rows of the accounts between which lots of an offer move: that of its report, and its own. No answer changes.
    pub fn make_way(&mut self, moved: &Moved) -> Result<(RowNo, RowNo), AllocError>
        ensures rows { IfOk result (HasRows self.new.positions moved.now) }
        ensures stay { KeepsNumbers self.old.positions self.new.positions }
        ensures same { SameAnswers self.old self.new }
    {
        let report = &moved.report;
        make_rows(
            &mut self.positions,
            (&report.account, &report.symbol),
            (&moved.account, &report.symbol),
        )
    }

    /// Charges lots of an offer to its limits and moves them from the account of its report to its own, whose rows these are. It looks
    /// nothing up and allocates nothing.
    pub fn carry_out(&mut self, claimed: &Moved, rows: &(RowNo, RowNo))
        requires may { MayClaim self.old claimed.now }
        requires rows { HasRows self.old.positions claimed.now rows.now }
        ensures { ClaimsLots self.old self.new claimed.now }
    {
        self.limits.charge_at(&claimed.limits, claimed.lots);
        self.offers.take(claimed.number, claimed.lots);
        move_over(&mut self.positions, claimed, rows);
    }

    /// Claims lots of an offer: makes the rows, charges the lots to its limits and moves them.
    pub fn claim(&mut self, claimed: &Moved) -> Result<(), AllocError>
        requires { MayClaim self.old claimed.now }
        ensures claimed { OnOk result (ClaimsLots self.old self.new claimed.now) }
        ensures refused { OnErr result (SameAnswers self.old self.new) }
    {
        let rows = self.make_way(claimed)?;
        self.carry_out(claimed, &rows);
        Ok(())
    }

    /// Moves back the lots of an offer that were moved today.
    pub fn reverse(&mut self, returned: &Moved) -> Result<(), AllocError>
        requires used { (keys : List LimitKeyOf) × MayReturn self.old.limits returned.now.group keys returned.now.lots returned.now.limits }
        requires closed { left_in self.old.offers returned.now.number ≡ 0 }
        requires moved { 0 < today_in self.old.offers returned.now.number }
        requires there { returned.now.lots ≤ lots_in self.old.positions returned.now.report.side returned.now.account returned.now.report.symbol }
        ensures entries { SameEntries self.old self.new }
        ensures offers { OnOk result (self.new.offers ≡ changed self.old.offers returned.now.number reversed) }
        ensures limits { OnOk result ((keys : List LimitKeyOf) → MayReturn self.old.limits returned.now.group keys returned.now.lots returned.now.limits
            → Returns self.old.limits self.new.limits returned.now.group keys returned.now.lots) }
        ensures positions { OnOk result
            (HoldsMoved self.old.positions self.new.positions returned.now.report returned.now.account returned.now.report.account returned.now.lots) }
        ensures refused { OnErr result (SameAnswers self.old self.new) }
    {
        let rows = self.make_way(returned)?;
        // Shows the prover: the rules of the reports and of the offers.
        self.trades.rules();
        self.offers.rules();
        let lots = self.offers.moved_today(returned.number);
        self.offers.reverse(returned.number);
        let report = self.given_up.report(returned.number);
        self.given_up.take(report, lots);
        self.limits.give_back_at(&returned.limits, returned.lots);
        move_back(&mut self.positions, returned, &rows);
        Ok(())
    }
}
