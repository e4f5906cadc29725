//! Open offers, as a view shows them.

ghost use Rattle.std.specs.Prelude.{◌≡◌, IfSome};
ghost use Rattle.std.specs.Option.{option_map};
ghost use Rattle.gu_ref.specs.Reference.{agreement_between};
ghost use Rattle.gu_rules.specs.Views.{shown_at};
ghost use Rattle.gu_book.specs.Shown.{IsWay};

use crate::totals::Totals;
use gu_limits::path_between;
use gu_ref::Reference;
use gu_terms::{AccountId, AgreementId, FirmId, OfferNo, Path};
use gu_view::ViewOffer;
use std::marker::Model;

/// An agreement between an executing firm and an account, and its path.
#[derive(Clone, Copy)]
pub struct Way {
    firm: FirmId,
    account: AccountId,
    agreement: AgreementId,
    path: Path,
}

/// Shows open offers as a view does. It keeps the last agreement with its path, since the next offer is usually under the same one. To a
/// contract it is the reference and the offers that it shows.
#[derive(Drop)]
pub struct Showing<'a> {
    reference: &'a Reference,
    totals: &'a Totals,
    last: Option<Way>,
}

impl<'a> Model for Showing<'a> {
    ghost use Rattle.std.specs.Prelude.{List, IfSome};
    ghost use Rattle.gu_ref.specs.Tables.{Tables};
    ghost use Rattle.gu_offers.specs.Rows.{Row};
    ghost use Rattle.gu_book.specs.Shown.{IsWay};

    ghost Value = { Tables × List Row };

    ghost view = { λ s. (s.reference.now, s.totals.now.offers) };

    ghost invariant = { λ s. IfSome s.last (IsWay s.reference.now) };
}

/// Makes the last way the one between this executing firm and this account, or None if they have no agreement.
fn turn_to(reference: &Reference, last: &mut Option<Way>, firm: FirmId, account: AccountId)
    requires { IfSome last.old (IsWay reference.now) }
    ensures agreement { option_map (λ w. w.agreement) last.new ≡ agreement_between reference.now firm account }
    ensures way { IfSome last.new (IsWay reference.now) }
{
    if let Some(way) = last {
        if way.firm == firm && way.account == account {
            return;
        }
    }
    *last = match path_between(reference, firm, account) {
        Some((agreement, path)) => Some(Way {
            firm,
            account,
            agreement,
            path,
        }),
        None => None,
    };
}

impl<'a> Showing<'a> {
    /// Returns a `Showing` for the offers of these totals.
    pub fn new(reference: &'a Reference, totals: &'a Totals) -> Self
        ensures { result ≡ (reference.now, totals.now.offers) }
    {
        Showing {
            reference,
            totals,
            last: None,
        }
    }

    /// Returns the offer with this number, as a view shows it: the lots left of it, its agreement and its path. It allocates nothing.
    pub fn offer(&mut self, number: u64) -> Option<ViewOffer>
        ensures shown { result ≡ shown_at self.old.0 self.old.1 number }
        ensures same { self.new ≡ self.old }
    {
        // All offers have numbers, and each agreement has a path. Shows the prover: the rules of the offers and the reference.
        self.totals.offers.rules();
        self.reference.rules();
        let number = OfferNo::new(number)?;
        let (firm, account) = self.totals.offers.parties(number)?;
        turn_to(self.reference, &mut self.last, firm, account);
        let way = self.last.as_ref()?;
        Some(ViewOffer {
            number,
            lots: self.totals.offers.left(number),
            agreement: way.agreement,
            path: way.path,
        })
    }
}
