//! Views of groups.

ghost use Rattle.std.specs.Prelude.{◌≡◌, ◌<◌, ◌^◌, ◌++◌, IfOk, OnOk};
ghost use Rattle.std.specs.List.{filter_map};
ghost use Rattle.std.specs.Option.{option_to_list};
ghost use Rattle.gu_rules.specs.Orderly.{IsShown};
ghost use Rattle.gu_rules.specs.Views.{shown_at};
ghost use Rattle.gu_view.specs.View.{IsNested};
ghost use Rattle.gu_book.specs.Counted.{version_in};
ghost use Rattle.gu_book.specs.Shown.{rooms_in, view_in};

use crate::showing::Showing;
use crate::totals::Totals;
use crate::versions::Versions;
use gu_limits::LimitTable;
use gu_ref::Reference;
use gu_terms::{Group, LimitKey};
use gu_view::{KeyedOffers, Room, View, ViewOffer};
use std::alloc::{AllocError, Global};

/// Appends an offer, if there is one.
fn append_offer(offers: &mut Vec<ViewOffer>, offer: Option<ViewOffer>) -> Result<(), AllocError>
    ensures { OnOk result (offers.new.items ≡ offers.old.items ++ option_to_list offer) }
{
    // Taken apart and rebuilt, so that the checker sees the types inside.
    if let Some(
        ViewOffer {
            number,
            lots,
            agreement,
            path,
        },
    ) = offer
    {
        offers.push(ViewOffer {
            number,
            lots,
            agreement,
            path,
        })?;
    }
    Ok(())
}

/// Returns the offers with these numbers, as a view shows them.
#[tactic(auto, using(crate::proofs::LimitLemmas::filter_map_next))]
fn offers_of(
    alloc: Global,
    reference: &Reference,
    totals: &Totals,
    numbers: &[u64],
) -> Result<Vec<ViewOffer>, AllocError>
    ensures { IfOk result (λ offers. offers.items ≡ filter_map (shown_at reference.now totals.now.offers) numbers.now) }
{
    let mut showing = Showing::new(reference, totals);
    let mut offers = Vec::with_capacity(alloc, numbers.len())?;
    for number in numbers {
        append_offer(&mut offers, showing.offer(*number))?;
    }
    Ok(offers)
}

/// Returns the rooms of these keys in a group.
fn rooms_of(
    alloc: Global,
    limits: &LimitTable,
    group: &Group,
    keys: &[LimitKey],
) -> Result<Vec<Room>, AllocError>
    ensures { IfOk result (λ rooms. rooms.items ≡ rooms_in limits.now group.now keys.now) }
{
    let mut rooms = Vec::with_capacity(alloc, keys.len())?;
    for key in keys {
        rooms.push(Room {
            key: *key,
            lots: limits.room(group, key),
        })?;
    }
    Ok(rooms)
}

/// Returns the view of a group. It reads only the group's open offers.
pub fn view_of(
    alloc: Global,
    reference: &Reference,
    totals: &Totals,
    versions: &Versions,
    group: &Group,
) -> Result<View, AllocError>
    requires few { IsShown reference.now totals.now.offers }
    requires version { version_in versions.now group.now < 2 ^ 64 }
    ensures view { IfOk result (λ view. view ≡ view_in reference.now totals.now versions.now group.now) }
    ensures nested { IfOk result (λ view. IsNested view) }
{
    // Shows the prover: the rules of the reference, the offers and the limits.
    reference.rules();
    totals.offers.rules();
    totals.limits.rules();
    let numbers = totals.offers.open_numbers(*group);
    let offers = offers_of(alloc, reference, totals, numbers)?;
    let offers = KeyedOffers::new(alloc, offers)?;
    let rooms = rooms_of(alloc, &totals.limits, group, offers.keys())?;
    View::of(alloc, *group, versions.of(group), offers, rooms)
}
