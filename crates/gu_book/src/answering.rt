//! Decisions on commands.

ghost use Rattle.std.specs.Prelude.{◌≡◌, ◌<◌, [], nat_lt, is_some, length, unwrap_or, true, IfErr, IfOk, IfSome, OnOk, None, Some};
ghost use Rattle.std.specs.List.{find, IsDistinct};
ghost use Rattle.gu_terms.specs.LimitKeys.{key_eq};
ghost use Rattle.std.specs.Option.{option_map};
ghost use Rattle.std.specs.Result.{result_err};
ghost use Rattle.gu_limits.specs.Limits.{AreLimitsOf, room_in};
ghost use Rattle.gu_ref.specs.Reference.{partner_between};
ghost use Rattle.gu_ref.specs.Tables.{Tables};
ghost use Rattle.gu_terms.specs.declared.alloc_reject.AllocReject.{AllocReject as AllocRejectOf};
ghost use Rattle.gu_terms.specs.declared.command.Command.{Command};
ghost use Rattle.gu_terms.specs.declared.firm.FirmId.{FirmId as FirmIdOf};
ghost use Rattle.gu_terms.specs.declared.reply.Done.TheVariants.{LimitSet, Opened, Reported};
ghost use Rattle.gu_terms.specs.declared.reply.Reply.TheVariants.{Accepted, Denied};
ghost use Rattle.gu_trades.specs.Matching.{is_waiting};
ghost use Rattle.gu_trades.specs.Reports.{report_by, with_match};
ghost use Rattle.gu_trades.specs.Terms.{terms_of};
ghost use Rattle.gu_rules.specs.Answer.{answer_in, first_standing, has_unknown_account, is_another_firms, is_known_key, is_later, is_other_day, lacks_agreement, limit_tests, offer_tests, opening_tests, refusal_in, report_tests, tests_of_lines};
ghost use Rattle.gu_rules.specs.Limits.{path_after};
ghost use Rattle.gu_offers.specs.Rows.{Row, left_in, row_at, today_in};
ghost use Rattle.gu_book.specs.Beside.{answer_to_match, group_named_by, some_lots, standing_given_up, state_in, waiting_of};
ghost use Rattle.gu_book.specs.Deeds.{IsDeedOf, reply_by};
ghost use Rattle.gu_book.specs.GivenUp.{names_at};

use crate::deciding::Decide;
use crate::deed::{Closing, Moved, NewClaim, NewOffers, NewReport, Reversal};
use crate::totals::Totals;
use gu_limits::{LimitTable, PathLimits, path_by};
use gu_ref::{Partner, Reference};
use gu_terms::{
    Claim, Day, FirmId, GiveUp, Group, Id, LimitKey, Line, Lots, MOST_LIMIT, MOST_OPEN_OFFERS,
    Offer, OfferNo, OpenDay, Path, Refusal, Refuse, ReportSide, Reverse, SetLimit,
};
use gu_trades::{Counterpart, ReportNo, Standing, Terms};

/// Returns whether a day is after the open one.
fn is_later(today: Option<Day>, day: Day) -> bool
    ensures { result ≡ is_later today day }
{
    match today {
        Some(today) => today.is_before(day),
        None => true,
    }
}

/// Returns whether a report names a day that isn't the open one.
fn is_other_day(today: Day, day: Option<Day>) -> bool
    ensures { result ≡ is_other_day today day }
{
    match day {
        Some(day) => today != day,
        None => false,
    }
}

/// Returns whether the reference has what a key names.
fn is_known_key(reference: &Reference, key: LimitKey) -> bool
    ensures { result ≡ is_known_key reference.now key }
{
    match key {
        LimitKey::Exec(firm) | LimitKey::Carry(firm) => reference.firm(firm),
        LimitKey::Agr(agreement) => reference.is_agreement(agreement),
        LimitKey::Acct(account) => reference.is_account(account),
        LimitKey::Guar(firm) => reference.guards(firm),
    }
}

/// Returns the terms of the waiting report that a new one matches, if there is one, or why the new one is refused.
fn waiting_of(counterpart: &Counterpart) -> Result<Option<Terms>, Refusal>
    ensures waiting { IfOk result (λ waiting. waiting ≡ waiting_of counterpart.now) }
    ensures made { IfOk result (λ waiting. answer_to_match counterpart.now ≡ Accepted (Reported (is_some waiting))) }
    ensures refused { IfErr result (λ why. answer_to_match counterpart.now ≡ Denied why) }
{
    match counterpart {
        Counterpart::Nobody => Ok(None),
        Counterpart::Waiting(waiting) => Ok(Some(*waiting)),
        Counterpart::Conflicting => Err(Refusal::MatchConflict),
    }
}

impl<'a> Decide<'a> for ReportSide {
    type Does = NewReport<'a>;

    ghost command = { Command.ReportSide };

    fn decide(&'a self, reference: &Reference, totals: &Totals) -> Result<NewReport<'a>, Refusal> {
        let Some(today) = totals.today else {
            return Err(Refusal::NoDay);
        };
        if is_other_day(today, self.day) {
            return Err(Refusal::WrongDay);
        }
        if !reference.is_instrument(self.symbol) {
            return Err(Refusal::UnknownInstrument);
        }
        let Some(row) = reference.account(self.account) else {
            return Err(Refusal::UnknownAccount);
        };
        if row.firm != self.firm {
            return Err(Refusal::NotYours);
        }
        if totals.trades.has(&self.firm, &self.id) {
            return Err(Refusal::DuplicateId);
        }
        let terms = Terms::on(today, self);
        let counterpart = totals.trades.counterpart(&self.match_id, &terms);
        let waiting = waiting_of(&counterpart)?;
        Ok(NewReport {
            report: self,
            today,
            waiting,
        })
    }
}

impl<'a> Decide<'a> for SetLimit {
    type Does = SetLimit;

    ghost command = { Command.SetLimit };

    fn decide(&'a self, reference: &Reference, _totals: &Totals) -> Result<SetLimit, Refusal> {
        if !(reference.group(self.group) && is_known_key(reference, self.key)) {
            return Err(Refusal::UnknownKey);
        }
        if self.lots > MOST_LIMIT {
            return Err(Refusal::TooHigh);
        }
        Ok(*self)
    }
}

impl<'a> Decide<'a> for OpenDay {
    type Does = OpenDay;

    ghost command = { Command.OpenDay };

    fn decide(&'a self, _reference: &Reference, totals: &Totals) -> Result<OpenDay, Refusal> {
        if is_later(totals.today, self.day) {
            Ok(*self)
        } else {
            Err(Refusal::WrongDay)
        }
    }
}

/// Returns the product group of the instrument that terms name.
pub fn group_of(reference: &Reference, terms: &Terms) -> Option<Group>
    ensures { result ≡ group_named_by reference.now terms.now }
{
    let instrument = reference.instrument(terms.symbol)?;
    Some(instrument.group)
}

/// A report that is given up, as it is now.
#[derive(Clone, Copy)]
struct GivenReport {
    number: ReportNo,
    standing: Standing,
    /// The product group of its instrument.
    group: Group,
}

/// Returns the firm's report with this id, as it is now.
fn given_up(
    reference: &Reference,
    totals: &Totals,
    firm: &FirmId,
    report: &Id,
) -> Option<GivenReport>
    ensures standing { option_map (λ g. (g.standing, g.group)) result ≡ standing_given_up reference.now totals.now firm.now report.now }
    ensures number { IfSome result (λ g. names_at totals.now.trades g.number ≡ Some (firm.now, report.now)) }
{
    let (number, standing) = totals.trades.standing(firm, report)?;
    let group = group_of(reference, &standing.terms)?;
    Some(GivenReport {
        number,
        standing,
        group,
    })
}

/// Returns whether the account in one of the lines isn't in the reference.
fn has_unknown_account(reference: &Reference, lines: &[Line]) -> bool
    ensures { result ≡ has_unknown_account reference.now lines.now }
{
    for line in lines {
        if !reference.is_account(line.account) {
            return true;
        }
    }
    false
}

/// Returns the same, given whether the firm lacks an agreement for one of the lines. If it lacks none, no account is looked up.
fn has_unknown_account_without(reference: &Reference, lines: &[Line], lacks: bool) -> bool
    requires { (firm : FirmIdOf) × (lacks ≡ lacks_agreement reference.now firm lines.now) }
    ensures { result ≡ has_unknown_account reference.now lines.now }
{
    // Shows the prover: the rules of the reference.
    reference.rules();
    lacks && has_unknown_account(reference, lines)
}

/// Returns whether the firm has no agreement for the account in one of the lines.
fn lacks_agreement(reference: &Reference, firm: &FirmId, lines: &[Line]) -> bool
    ensures { result ≡ lacks_agreement reference.now firm.now lines.now }
{
    for line in lines {
        if reference.between(*firm, line.account).is_none() {
            return true;
        }
    }
    false
}

/// Returns the reason that lines of a firm's report can't be given up in its group, if there is one.
fn refusal_of_lines(
    totals: &Totals,
    asked: &GiveUp,
    given: &GivenReport,
    lacks: bool,
) -> Option<Refusal>
    requires { names_at totals.now.trades given.now.number ≡ Some (asked.now.firm, asked.now.report) }
    ensures { (reference : Tables) → lacks ≡ lacks_agreement reference asked.now.firm asked.now.lines
        → result ≡ refusal_in (tests_of_lines reference totals.now.offers asked.now.firm asked.now.report given.now.standing given.now.group asked.now.lines) }
{
    if !given.standing.is_of_trade {
        return Some(Refusal::NotMatched);
    }
    if lacks {
        return Some(Refusal::NoAgreement);
    }
    let held = totals.lots_given_up(given.number);
    if given.standing.terms.lots.get().saturating_sub(held) < asked.lines.lots() {
        return Some(Refusal::TooManyLots);
    }
    if MOST_OPEN_OFFERS - asked.lines.as_slice().len() < totals.offers.open_count(given.group) {
        return Some(Refusal::TooManyOffers);
    }
    None
}

impl<'a> Decide<'a> for GiveUp {
    type Does = NewOffers<'a>;

    ghost command = { Command.GiveUp };

    fn decide(&'a self, reference: &Reference, totals: &Totals) -> Result<NewOffers<'a>, Refusal> {
        if totals.today.is_none() {
            return Err(Refusal::NoDay);
        }
        let lacks = lacks_agreement(reference, &self.firm, self.lines.as_slice());
        if has_unknown_account_without(reference, self.lines.as_slice(), lacks) {
            return Err(Refusal::UnknownAccount);
        }
        if totals.has_give_up(&self.firm, &self.id) {
            return Err(Refusal::DuplicateId);
        }
        let Some(given) = given_up(reference, totals, &self.firm, &self.report) else {
            return Err(Refusal::UnknownTrade);
        };
        if let Some(refusal) = refusal_of_lines(totals, self, &given, lacks) {
            return Err(refusal);
        }
        Ok(NewOffers {
            give_up: self,
            group: given.group,
            first: OfferNo::known(totals.offers.count() as u64 + 1),
            report: given.number,
        })
    }
}

/// Returns whether an offer is to another firm's account, given the agreement by which it was made, if there is one.
fn is_anothers(
    reference: &Reference,
    offer: &Offer,
    partner: &Option<Partner>,
    firm: FirmId,
) -> bool
    requires { partner.now ≡ partner_between reference.now offer.now.firm offer.now.account }
    ensures { result ≡ is_another_firms reference.now offer.now.account firm }
{
    if let Some(partner) = partner {
        return partner.carrying != firm;
    }
    match reference.account(offer.account) {
        Some(row) => row.firm != firm,
        None => false,
    }
}

/// Returns the path of the agreement by which an offer was made, given that agreement, if there is one.
fn path_with(reference: &Reference, offer: &Offer, partner: &Option<Partner>) -> Option<Path>
    requires { partner.now ≡ partner_between reference.now offer.now.firm offer.now.account }
    ensures keys { unwrap_or result [] ≡ path_after reference.now offer.now }
    ensures once { IfSome result (IsDistinct key_eq) }
{
    // Shows the prover: the rules of the reference.
    reference.rules();
    match partner {
        Some(partner) => Some(path_by(reference, &offer.firm, &offer.account, partner)),
        None => None,
    }
}

/// Returns the limits of a path, or those of no key if there is no path.
fn limits_of(limits: &LimitTable, group: &Group, path: &Option<Path>) -> PathLimits
    ensures { AreLimitsOf limits.now group.now (unwrap_or path.now []) result }
{
    match path {
        Some(path) => limits.limits_of(group, path),
        None => PathLimits::none(),
    }
}

/// Returns the same if each limit has room for these lots, or else the first key that has less.
fn limits_with_room(
    limits: &LimitTable,
    group: &Group,
    path: &Option<Path>,
    lots: u64,
) -> Result<PathLimits, LimitKey>
    ensures limits { IfOk result (AreLimitsOf limits.now group.now (unwrap_or path.now [])) }
    ensures short { result_err result ≡ find (λ key. nat_lt (room_in limits.now group.now key) lots) (unwrap_or path.now []) }
{
    match path {
        Some(path) => limits.limits_with_room(group, path, lots),
        None => Ok(PathLimits::none()),
    }
}

/// Returns the lots left of an offer, if there are any.
fn lots_left(totals: &Totals, number: OfferNo) -> Option<Lots>
    ensures { result ≡ some_lots (left_in totals.now.offers number) }
{
    // No offer has more lots than the maximum. Shows the prover: the rules of the offers.
    totals.offers.rules();
    Lots::new(totals.offers.left(number))
}

/// Returns the lots of an offer that were moved today, if there are any.
fn lots_moved_today(totals: &Totals, number: OfferNo) -> Option<Lots>
    ensures { result ≡ some_lots (today_in totals.now.offers number) }
{
    // No offer has more lots than the maximum. Shows the prover: the rules of the offers.
    totals.offers.rules();
    Lots::new(totals.offers.moved_today(number))
}

/// Returns the offer that a firm responds to and the agreement by which it was made, if there is one; or why the response is refused.
fn offer_to(
    reference: &Reference,
    totals: &Totals,
    firm: FirmId,
    number: OfferNo,
) -> Result<(Offer, Option<Partner>), Refusal>
    ensures passed { OnOk result (refusal_in (offer_tests reference.now (state_in totals.now) firm number) ≡ None) }
    ensures refused { IfErr result (λ why. refusal_in (offer_tests reference.now (state_in totals.now) firm number) ≡ Some why) }
    ensures offer { IfOk result (λ r. Some r.0 ≡ option_map (λ (row : Row). row.offer) (row_at totals.now.offers number)) }
    ensures partner { IfOk result (λ r. r.1 ≡ partner_between reference.now r.0.firm r.0.account) }
{
    if totals.today.is_none() {
        return Err(Refusal::NoDay);
    }
    let Some(offer) = totals.offers.get(number) else {
        return Err(Refusal::UnknownOffer);
    };
    let partner = reference.partner(offer.firm, offer.account);
    if is_anothers(reference, &offer, &partner, firm) {
        return Err(Refusal::NotYours);
    }
    Ok((offer, partner))
}

impl<'a> Decide<'a> for Claim {
    type Does = NewClaim;

    ghost command = { Command.Claim };

    fn decide(&'a self, reference: &Reference, totals: &Totals) -> Result<NewClaim, Refusal> {
        let (offer, partner) = offer_to(reference, totals, self.firm, self.offer)?;
        let Some(lots) = lots_left(totals, self.offer) else {
            return Err(Refusal::OfferClosed);
        };
        let path = path_with(reference, &offer, &partner);
        let limits = match limits_with_room(&totals.limits, &offer.group, &path, lots.get()) {
            Ok(limits) => limits,
            Err(key) => return Err(Refusal::LimitReached(key)),
        };
        let claimed = Moved {
            number: self.offer,
            group: offer.group,
            account: offer.account,
            report: totals.terms_given_up(self.offer),
            limits,
            lots: lots.get(),
        };
        Ok(NewClaim { claimed, lots })
    }
}

impl<'a> Decide<'a> for Refuse {
    type Does = Closing;

    ghost command = { Command.Refuse };

    fn decide(&'a self, reference: &Reference, totals: &Totals) -> Result<Closing, Refusal> {
        let (offer, _) = offer_to(reference, totals, self.firm, self.offer)?;
        let Some(lots) = lots_left(totals, self.offer) else {
            return Err(Refusal::OfferClosed);
        };
        Ok(Closing {
            number: self.offer,
            group: offer.group,
            lots,
        })
    }
}

impl<'a> Decide<'a> for Reverse {
    type Does = Reversal;

    ghost command = { Command.Reverse };

    fn decide(&'a self, reference: &Reference, totals: &Totals) -> Result<Reversal, Refusal> {
        let (offer, partner) = offer_to(reference, totals, self.firm, self.offer)?;
        if totals.offers.left(self.offer) > 0 {
            return Err(Refusal::OfferOpen);
        }
        let Some(lots) = lots_moved_today(totals, self.offer) else {
            return Err(Refusal::NothingToReverse);
        };
        let path = path_with(reference, &offer, &partner);
        let reversed = Moved {
            number: self.offer,
            group: offer.group,
            account: offer.account,
            report: totals.terms_given_up(self.offer),
            limits: limits_of(&totals.limits, &offer.group, &path),
            lots: lots.get(),
        };
        Ok(Reversal { reversed, lots })
    }
}
