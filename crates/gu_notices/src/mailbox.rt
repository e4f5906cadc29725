//! The notices to one firm.

ghost use Rattle.std.specs.Prelude.{◌≡◌, ◌∷◌, []};
ghost use Rattle.std.specs.List.{flat_map, range_with_len};
ghost use Rattle.gu_trades.specs.Reports.{with_match};
ghost use Rattle.gu_trades.specs.Sides.{reports_in};
ghost use Rattle.gu_rules.specs.Notices.{offer_notice, to_both, to_carrier, told_by, told_of_event, told_of_line, told_of_take, told_of_trade, told_on};
ghost use Rattle.gu_notices.specs.Registers.{register_in};
ghost use Rattle.gu_notices.specs.Telling.{IsTold, is_party, is_party_to};

use crate::register::Register;
use gu_ref::Reference;
use gu_terms::{
    EntryEvent, EntryRef, FirmId, Id, Lots, Notice, Offer, OfferEvent, OfferNo, OfferNotice,
    Report, Side, Take,
};
use gu_trades::{Sides, Terms};
use std::alloc::AllocError;

/// A mailbox of the notices to one firm.
#[derive(Drop)]
pub struct Mailbox {
    pub firm: FirmId,
    pub list: Vec<Notice>,
}

impl Mailbox {
    /// Adds a notice if it is to this firm.
    fn tell(&mut self, to: &FirmId, notice: &Notice) -> Result<(), AllocError>
        ensures { IsTold self.old self.new result (record { firm = to.now; notice = notice.now } ∷ []) }
    {
        if *to == self.firm {
            self.list.push(*notice)?;
        }
        Ok(())
    }

    /// Adds a notice to the firm that carries an offer's account.
    fn tell_carrier(
        &mut self,
        reference: &Reference,
        offer: &Offer,
        notice: &Notice,
    ) -> Result<(), AllocError>
        ensures { IsTold self.old self.new result (to_carrier reference.now offer.now notice.now) }
    {
        match reference.account(offer.account) {
            Some(account) => self.tell(&account.firm, notice),
            None => Ok(()),
        }
    }

    /// Adds a notice to both firms of an offer.
    fn tell_both(
        &mut self,
        reference: &Reference,
        offer: &Offer,
        notice: &Notice,
    ) -> Result<(), AllocError>
        ensures { IsTold self.old self.new result (to_both reference.now offer.now notice.now) }
    {
        self.tell(&offer.firm, notice)?;
        self.tell_carrier(reference, offer, notice)
    }

    /// Returns whether the firm gives an offer up, or carries its account.
    fn is_party(&self, reference: &Reference, offer: &Offer) -> bool
        ensures { result ≡ is_party reference.now self.now.firm offer.now }
    {
        if offer.firm == self.firm {
            return true;
        }
        match reference.account(offer.account) {
            Some(account) => account.firm == self.firm,
            None => false,
        }
    }

    /// Returns whether the firm is a party to the offer with a number. It gets notices of no other offer.
    fn is_party_to(&self, register: &Register<'_>, number: OfferNo) -> bool
        ensures { result ≡ is_party_to (register_in register.now) self.now.firm number }
    {
        match register.offer(number) {
            Some(offer) => self.is_party(register.reference, &offer),
            None => false,
        }
    }

    /// Adds the notice for the offer that a line made.
    fn tell_line(&mut self, register: &Register<'_>, number: u64) -> Result<(), AllocError>
        ensures { IsTold self.old self.new result (told_of_line (register_in register.now) number) }
    {
        // All offers have valid numbers. Shows the prover: the rules of the offers.
        register.offers.rules();
        let Some(number) = OfferNo::new(number) else {
            return Ok(());
        };
        if !self.is_party_to(register, number) {
            return Ok(());
        }
        match register.given(number) {
            Some((offer, report)) => {
                let notice = offer_notice(number, OfferEvent::Offered, offer.lots, &offer, &report);
                self.tell_carrier(register.reference, &offer, &notice)
            }
            None => Ok(()),
        }
    }

    /// Adds the notices for an event of an offer.
    fn tell_event(
        &mut self,
        register: &Register<'_>,
        number: OfferNo,
        event: OfferEvent,
        lots: Lots,
    ) -> Result<(), AllocError>
        ensures { IsTold self.old self.new result (told_of_event (register_in register.now) number event lots) }
    {
        if !self.is_party_to(register, number) {
            return Ok(());
        }
        match register.given(number) {
            Some((offer, report)) => {
                let notice = offer_notice(number, event, lots, &offer, &report);
                self.tell_both(register.reference, &offer, &notice)
            }
            None => Ok(()),
        }
    }

    /// Adds the notices for a take of a sweep.
    fn tell_take(&mut self, register: &Register<'_>, take: &Take) -> Result<(), AllocError>
        ensures { IsTold self.old self.new result (told_of_take (register_in register.now) take.now) }
    {
        match Lots::new(take.lots) {
            Some(lots) => { self.tell_event(register, take.offer, OfferEvent::Claimed, lots) }
            None => Ok(()),
        }
    }

    /// Adds the notices for the lines of a give-up, which are offers numbered from `first`.
    fn tell_lines(
        &mut self,
        register: &Register<'_>,
        first: OfferNo,
        count: u8,
    ) -> Result<(), AllocError>
        ensures { IsTold self.old self.new result (flat_map (told_of_line (register_in register.now)) (range_with_len first count)) }
    {
        let from = first.get();
        for number in from..from + u64::from(count) {
            self.tell_line(register, number)?;
        }
        Ok(())
    }

    /// Adds the notices for the takes of a sweep.
    fn tell_takes(&mut self, register: &Register<'_>, takes: &[Take]) -> Result<(), AllocError>
        ensures { IsTold self.old self.new result (flat_map (told_of_take (register_in register.now)) takes.now) }
    {
        for take in takes {
            self.tell_take(register, take)?;
        }
        Ok(())
    }

    /// Adds the notice for a report, if it is on this side.
    fn tell_report(&mut self, number: u64, side: Side, report: &Report) -> Result<(), AllocError>
        ensures { IsTold self.old self.new result (told_on number side (report.now ∷ [])) }
    {
        if report.side != side {
            return Ok(());
        }
        let notice = Notice::Matched {
            entry: number,
            report: *report,
        };
        self.tell(&report.firm, &notice)
    }

    /// Adds the notices for the reports on a side.
    fn tell_side(&mut self, number: u64, side: Side, sides: &Sides) -> Result<(), AllocError>
        ensures { IsTold self.old self.new result (told_on number side (reports_in sides.now)) }
    {
        match sides {
            Sides::Neither => Ok(()),
            Sides::One(report) => self.tell_report(number, side, report),
            Sides::Both(first, second) => {
                self.tell_report(number, side, first)?;
                self.tell_report(number, side, second)
            }
        }
    }

    /// Adds the notices for the entry that made a trade.
    fn tell_trade(
        &mut self,
        register: &Register<'_>,
        number: u64,
        match_id: &Id,
    ) -> Result<(), AllocError>
        ensures { IsTold self.old self.new result (told_of_trade number (with_match match_id.now (register_in register.now).reports)) }
    {
        let sides = register.trade(match_id);
        self.tell_side(number, Side::Buy, &sides)?;
        self.tell_side(number, Side::Sell, &sides)
    }

    /// Adds the notices for the entry with a number.
    pub(crate) fn tell_entry(
        &mut self,
        register: &Register<'_>,
        number: u64,
        entry: &EntryRef,
    ) -> Result<(), AllocError>
        ensures { IsTold self.old self.new result (told_by (register_in register.now) number entry.now) }
    {
        match entry.event() {
            EntryEvent::Matched { match_id } => self.tell_trade(register, number, &match_id),
            EntryEvent::Offered { first, count } => { self.tell_lines(register, first, count) }
            EntryEvent::Claimed { offer, lots } => {
                self.tell_event(register, offer, OfferEvent::Claimed, lots)
            }
            EntryEvent::Refused { offer, why, lots } => {
                self.tell_event(register, offer, OfferEvent::Refused(why), lots)
            }
            EntryEvent::Reversed { offer, lots } => {
                self.tell_event(register, offer, OfferEvent::Reversed, lots)
            }
            EntryEvent::Swept => self.tell_takes(register, entry.takes()),
            EntryEvent::Other => Ok(()),
        }
    }
}

/// Returns the notice of an event of an offer with these lots.
fn offer_notice(
    number: OfferNo,
    event: OfferEvent,
    lots: Lots,
    offer: &Offer,
    report: &Terms,
) -> Notice
    ensures { result ≡ offer_notice number event lots offer.now report.now }
{
    Notice::Offer(OfferNotice {
        offer: number,
        event,
        lots,
        account: offer.account,
        symbol: report.symbol,
        side: report.side,
        price: report.price,
        day: report.day,
    })
}
