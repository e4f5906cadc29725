//! Each offer's share of the flow through its agreement's arc.

ghost use Rattle.std.specs.Prelude.{◌≡◌, ◌++◌, ◌∷◌, [], IfOk, OnOk, length};
ghost use Rattle.gu_flow.specs.Shares.{above_zero, AreShares};

use gu_terms::{OfferNo, Take, Takes};
use gu_view::View;
use std::alloc::{AllocError, Global};

/// Adds a take of these lots from an offer, if they are more than 0.
fn add_take(takes: &mut Vec<Take>, offer: OfferNo, lots: u64) -> Result<(), AllocError>
    ensures { OnOk result (takes.new.items ≡ takes.old.items ++ above_zero (record { offer = offer; lots = lots } ∷ [])) }
{
    if 0 < lots {
        takes.push(Take { offer, lots })?;
    }
    Ok(())
}

/// Gives each offer what the older ones under its agreement leave of the flow, but no more than it has.
pub(crate) fn share_out(alloc: Global, view: &View, flow: Vec<u64>) -> Result<Takes, AllocError>
    requires { length flow.items ≡ length view.now.rooms }
    ensures { IfOk result (λ takes. AreShares view.now flow.items takes) }
{
    let mut rests = flow;
    let mut takes = Vec::new(alloc);
    for (number, offer) in view.offers().iter().enumerate() {
        let place = view.agreement_place(number);
        let lots = offer.lots.min(rests[place]);
        rests[place] -= lots;
        add_take(&mut takes, offer.number, lots)?;
    }
    Ok(Takes::of(takes))
}
