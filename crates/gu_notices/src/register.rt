//! The data that notices are made from.

ghost use Rattle.std.specs.Prelude.{◌≡◌};
ghost use Rattle.gu_trades.specs.Reports.{with_match};
ghost use Rattle.gu_trades.specs.Sides.{reports_in};
ghost use Rattle.gu_notices.specs.Registers.{carrier_in, given_in, register_in};

use gu_offers::Offers;
use gu_ref::Reference;
use gu_terms::{FirmId, Id, Offer, OfferNo};
use gu_trades::{Sides, Terms, Trades};

/// The data that notices are made from: the reference, the reports and the offers.
#[derive(Clone, Copy)]
pub struct Register<'a> {
    pub reference: &'a Reference,
    pub trades: &'a Trades,
    pub offers: &'a Offers,
}

impl<'a> Register<'a> {
    /// Returns the offer with this number.
    pub(crate) fn offer(&self, number: OfferNo) -> Option<Offer>
        ensures { result ≡ (register_in self.now).offer number }
    {
        self.offers.get(number)
    }

    /// Returns the offer with this number, and the terms of the report that it gives up.
    pub(crate) fn given(&self, number: OfferNo) -> Option<(Offer, Terms)>
        ensures { result ≡ given_in (register_in self.now) number }
    {
        let offer = self.offers.get(number)?;
        let report = self.trades.terms(&offer.firm, &offer.report)?;
        Some((offer, report))
    }

    /// Returns the firm that carries an offer's account.
    pub(crate) fn carrier(&self, offer: &Offer) -> Option<FirmId>
        ensures { result ≡ carrier_in (register_in self.now).reference offer.now }
    {
        let account = self.reference.account(offer.account)?;
        Some(account.firm)
    }

    /// Returns the reports with a match id.
    pub(crate) fn trade(&self, match_id: &Id) -> Sides
        ensures { reports_in result ≡ with_match match_id.now (register_in self.now).reports }
    {
        self.trades.trade(*match_id)
    }
}
