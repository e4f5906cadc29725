//! The firms that an entry may notify.

ghost use Rattle.std.specs.Prelude.{◌≡◌, ℕ};
ghost use Rattle.std.specs.List.{flat_map, range_with_len};
ghost use Rattle.gu_rules.specs.Notices.{Register as RegisterOf, told_of_line, told_of_take};
ghost use Rattle.gu_terms.specs.declared.notice.OfferEvent.{OfferEvent as EventOf};
ghost use Rattle.gu_rules.specs.Notices.{told_of_event, told_of_trade};
ghost use Rattle.gu_trades.specs.Reports.{with_match};
ghost use Rattle.gu_notices.specs.Filters.{Keeps};
ghost use Rattle.gu_notices.specs.Recipients.{AreRecipients, Covers, CoversCarrier, CoversEach};
ghost use Rattle.gu_notices.specs.Registers.{register_in};

use crate::firm_filter::FirmFilter;
use crate::register::Register;
use gu_terms::{EntryEvent, EntryRef, History, Id, Offer, OfferNo, Take};
use gu_trades::Sides;
use std::alloc::AllocError;

impl FirmFilter {
    /// Adds the firm that carries an offer's account.
    fn add_carrier(&mut self, register: &Register<'_>, offer: &Offer)
        ensures added { CoversCarrier (register_in register.now) offer.now self.new }
        ensures kept { Keeps self.old self.new }
    {
        if let Some(firm) = register.carrier(offer) {
            self.add(&firm);
        }
    }

    /// Adds the firms notified of a line's offer: all firms, if there is no such offer yet.
    fn add_line(&mut self, register: &Register<'_>, number: u64)
        ensures added { CoversEach (register_in register.now) self.new (λ later. told_of_line later number) }
        ensures kept { Keeps self.old self.new }
    {
        let Some(number) = OfferNo::new(number) else {
            self.add_all();
            return;
        };
        match register.offer(number) {
            Some(offer) => self.add_carrier(register, &offer),
            None => self.add_all(),
        }
    }

    /// Adds the firms notified of an event of an offer: all firms, if there is no such offer yet.
    fn add_event(&mut self, register: &Register<'_>, number: OfferNo)
        ensures added { (event : EventOf) (lots : ℕ) → CoversEach (register_in register.now) self.new (λ later. told_of_event later number event lots) }
        ensures kept { Keeps self.old self.new }
    {
        match register.offer(number) {
            Some(offer) => {
                self.add(&offer.firm);
                self.add_carrier(register, &offer);
            }
            None => self.add_all(),
        }
    }

    /// Adds the firms notified of the lines of a give-up, which are offers numbered from `first`.
    fn add_lines(&mut self, register: &Register<'_>, first: OfferNo, count: u8)
        ensures added { CoversEach (register_in register.now) self.new (λ later. flat_map (told_of_line later) (range_with_len first count)) }
        ensures kept { Keeps self.old self.new }
    {
        let from = first.get();
        for number in from..from + u64::from(count) {
            self.add_line(register, number);
        }
    }

    /// Adds the firms notified of the takes of a sweep.
    fn add_takes(&mut self, register: &Register<'_>, takes: &[Take])
        ensures added { CoversEach (register_in register.now) self.new (λ later. flat_map (told_of_take later) takes.now) }
        ensures kept { Keeps self.old self.new }
    {
        for take in takes {
            self.add_event(register, take.offer);
        }
    }

    /// Adds the firms notified of a trade: all firms, if there is no such trade yet.
    fn add_trade(&mut self, register: &Register<'_>, match_id: &Id)
        ensures added { (number : ℕ) → CoversEach (register_in register.now) self.new (λ later. told_of_trade number (with_match match_id.now later.reports)) }
        ensures kept { Keeps self.old self.new }
    {
        match register.trade(match_id) {
            Sides::Both(first, second) => {
                self.add(&first.firm);
                self.add(&second.firm);
            }
            Sides::Neither | Sides::One(_) => self.add_all(),
        }
    }
}

/// Returns the firms that an entry may notify, now and after later entries.
pub fn recipients_of(register: &Register<'_>, entry: &EntryRef) -> FirmFilter
    ensures { Covers (register_in register.now) entry.now result }
{
    let mut firms = FirmFilter::NONE;
    match entry.event() {
        EntryEvent::Matched { match_id } => firms.add_trade(register, &match_id),
        EntryEvent::Offered { first, count } => firms.add_lines(register, first, count),
        EntryEvent::Claimed { offer, .. }
        | EntryEvent::Refused { offer, .. }
        | EntryEvent::Reversed { offer, .. } => firms.add_event(register, offer),
        EntryEvent::Swept => firms.add_takes(register, entry.takes()),
        EntryEvent::Other => {}
    }
    firms
}

/// Records the recipients of the entries that have none recorded yet. If an allocation fails, some may be left out.
pub fn note_recipients(
    register: &Register<'_>,
    history: &History,
    recipients: &mut Vec<FirmFilter>,
) -> Result<(), AllocError>
    requires { AreRecipients (register_in register.now) history.now recipients.old.items }
    ensures { AreRecipients (register_in register.now) history.now recipients.new.items }
{
    for place in recipients.len()..history.len() {
        let firms = recipients_of(register, &history.show(place));
        recipients.push(firms)?;
    }
    Ok(())
}
