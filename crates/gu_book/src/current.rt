//! Whether a view is still its group's, decided without allocating.

ghost use Rattle.std.specs.Prelude.{◌≡◌, ◌↔◌, ◌++◌, ◌∷◌, IsTrue, IfSome, IsSome, List};
ghost use Rattle.std.specs.List.{filter_map};
ghost use Rattle.std.specs.Option.{option_to_list};
ghost use Rattle.gu_view.specs.View.{IsView};
ghost use Rattle.gu_view.specs.declared.view.ViewOffer.{ViewOffer as OfferOf};
ghost use Rattle.gu_rules.specs.Views.{shown_at};
ghost use Rattle.gu_book.specs.Current.{HasRooms, ShowsAll};

use crate::showing::Showing;
use crate::totals::Totals;
use gu_limits::LimitTable;
use gu_ref::Reference;
use gu_terms::Group;
use gu_view::{Room, View, ViewOffer};

/// Returns the offers after the first, if they begin with this one.
fn behind<'a>(offers: &'a [ViewOffer], first: &ViewOffer) -> Option<&'a [ViewOffer]>
    ensures begins { IfSome result (λ rest. offers.now ≡ first.now ∷ rest.now) }
    ensures exactly { (rest : List OfferOf) → offers.now ≡ first.now ∷ rest → IsSome result }
{
    let (one, rest) = offers.split_first()?;
    if *one != *first {
        return None;
    }
    Some(rest)
}

/// Returns the offers after the first, if that is the one that a view shows for this number; all, if a view shows none for it.
fn behind_number<'a>(
    showing: &mut Showing<'_>,
    number: u64,
    offers: &'a [ViewOffer],
) -> Option<&'a [ViewOffer]>
    ensures begins { IfSome result (λ rest. offers.now ≡ option_to_list (shown_at showing.old.0 showing.old.1 number) ++ rest.now) }
    ensures exactly { (rest : List OfferOf) → offers.now ≡ option_to_list (shown_at showing.old.0 showing.old.1 number) ++ rest → IsSome result }
    ensures same { showing.new ≡ showing.old }
{
    match showing.offer(number) {
        Some(shown) => behind(offers, &shown),
        None => Some(offers),
    }
}

/// Returns whether these offers are those with these numbers, as a view shows them.
fn shows_offers(showing: &mut Showing<'_>, numbers: &[u64], offers: &[ViewOffer]) -> bool
    ensures { IsTrue result ↔ (offers.now ≡ filter_map (shown_at showing.old.0 showing.old.1) numbers.now) }
{
    let mut rest = offers;
    for number in numbers {
        let Some(others) = behind_number(showing, *number, rest) else {
            return false;
        };
        rest = others;
    }
    rest.is_empty()
}

/// Returns whether each room is the room of its key in a group.
fn shows_rooms(limits: &LimitTable, group: &Group, rooms: &[Room]) -> bool
    ensures { IsTrue result ↔ HasRooms limits.now group.now rooms.now }
{
    for room in rooms {
        if room.lots != limits.room(group, &room.key) {
            return false;
        }
    }
    true
}

/// Returns whether a view shows the open offers of its group, and each room as it is now. It allocates nothing.
pub fn shows_all(reference: &Reference, totals: &Totals, view: &View) -> bool
    ensures shown { IsTrue result ↔ ShowsAll reference.now totals.now view.now }
    ensures sound { IsView view.now }
{
    let group = view.group();
    let numbers = totals.offers.open_numbers(group);
    shows_offers(&mut Showing::new(reference, totals), numbers, view.offers())
        && shows_rooms(&totals.limits, &group, view.rooms())
}
