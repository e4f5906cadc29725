//! Making a view: offers in order, their paths, and rooms by first mention.

ghost use Rattle.std.specs.Prelude.{◌≡◌, ◌<◌, List, All, AllPairs, IfOk, IsTrue, MatchBool, MatchOption, find, slice_get};
ghost use Rattle.std.specs.Option.{option_map};
ghost use Rattle.indexmap.specs.IndexMap.{get, IsEmpty};
ghost use Rattle.gu_terms.specs.LimitKeys.{key_eq};
ghost use Rattle.gu_view.specs.Check.{has_room};
ghost use Rattle.gu_terms.specs.declared.limit_key.LimitKey.{LimitKey};
ghost use Rattle.gu_view.specs.Keeping.{IsGiven};
ghost use Rattle.gu_view.specs.Making.{is_bad, is_own, numbered, bad_offer, path_differs, lots_given, AreRooms, in_order};

use crate::view::{Room, ViewOffer};
use gu_terms::{AgreementId, LimitKey, MOST_LIMIT, MOST_LOTS, MOST_OPEN_OFFERS, OfferNo, Path};
use indexmap::{IndexMap, IndexSet};
use std::alloc::{AllocError, Global};

/// Returns whether an offer's number isn't above the previous one, or its lots are out of range.
fn is_bad(before: u64, offer: &ViewOffer) -> bool
    ensures { result ≡ is_bad before offer.now }
{
    offer.number.get() <= before || (offer.lots == 0 || MOST_LOTS < offer.lots)
}

/// Returns the first bad offer.
fn first_bad(offers: &[ViewOffer]) -> Option<OfferNo>
    ensures { result ≡ option_map (λ p. p.1.number) (find (λ p. is_bad p.0 p.1) (numbered offers.now)) }
{
    let mut before = 0;
    for offer in offers {
        if is_bad(before, offer) {
            return Some(offer.number);
        }
        before = offer.number.get();
    }
    None
}

fn number_at(offers: &[ViewOffer], place: usize) -> Option<OfferNo>
    ensures { result ≡ option_map (λ o. o.number) (slice_get offers.now place) }
{
    offers.get(place).map(|offer| offer.number)
}

/// Returns the first bad offer among the most that a view may have, or else the next offer.
pub fn bad_offer(offers: &[ViewOffer]) -> Option<OfferNo>
    ensures { result ≡ bad_offer offers.now }
{
    if offers.len() <= MOST_OPEN_OFFERS {
        return first_bad(offers);
    }
    match first_bad(&offers[..MOST_OPEN_OFFERS]) {
        Some(number) => Some(number),
        None => number_at(offers, MOST_OPEN_OFFERS),
    }
}

/// Returns whether the second key of an offer's path is its own agreement.
fn is_own(offer: &ViewOffer) -> bool
    ensures { result ≡ is_own offer.now }
{
    offer
        .path
        .keys()
        .get(1)
        .is_some_and(|key| LimitKey::Agr(offer.agreement).is_same(*key))
}

/// Returns the first offer whose path isn't that of its agreement. The agreements' paths are collected in a map, which starts empty.
fn first_other_path(
    paths: &mut IndexMap<AgreementId, Path>,
    offers: &[ViewOffer],
) -> Result<Option<OfferNo>, AllocError>
    requires empty { IsEmpty paths.old }
    requires ascending { AllPairs (λ a b. a.number < b.number) offers.now }
    ensures { IfOk result (λ found. found ≡ path_differs offers.now) }
{
    for offer in offers {
        if !is_own(offer) {
            return Ok(Some(offer.number));
        }
        match paths.get(&offer.agreement) {
            Some(path) => {
                if path.keys() != offer.path.keys() {
                    return Ok(Some(offer.number));
                }
            }
            None => {
                paths.insert(offer.agreement, offer.path)?;
            }
        }
    }
    Ok(None)
}

/// Returns the first offer whose path isn't that of its agreement. At most this many agreements are expected.
pub fn path_differs(
    alloc: Global,
    offers: &[ViewOffer],
    expected: usize,
) -> Result<Option<OfferNo>, AllocError>
    requires { AllPairs (λ a b. a.number < b.number) offers.now }
    ensures { IfOk result (λ found. found ≡ path_differs offers.now) }
{
    let mut paths = IndexMap::with_capacity(alloc, expected)?;
    let found = first_other_path(&mut paths, offers);
    drop(paths);
    found
}

/// Records each key's lots in a map that starts empty, and returns whether each room is needed, within its limit and given once.
fn give(
    lots: &mut IndexMap<LimitKey, u64>,
    keys: &IndexSet<LimitKey>,
    rooms: &[Room],
) -> Result<bool, AllocError>
    requires { IsEmpty lots.old }
    ensures { IfOk result (λ all.
        MatchBool all (IsGiven keys.now.keys rooms.now (get key_eq lots.new)) (¬ AreRooms keys.now.keys rooms.now)) }
{
    for room in rooms {
        if MOST_LIMIT < room.lots {
            return Ok(false);
        }
        if !keys.contains(&room.key) {
            return Ok(false);
        }
        if lots.insert(room.key, room.lots)?.is_some() {
            return Ok(false);
        }
    }
    Ok(true)
}

/// Returns the rooms in the order of the keys, if each key has one.
fn ordered(
    alloc: Global,
    keys: &[LimitKey],
    lots: &IndexMap<LimitKey, u64>,
) -> Result<Option<Vec<Room>>, AllocError>
    ensures { (rooms : List Room)
        → ((k : LimitKey) → get key_eq lots.now k ≡ lots_given rooms k)
        → IfOk result (λ ordered.
        MatchOption ordered (¬ AreRooms keys.now rooms)
        (λ made. All (λ k. IsTrue (has_room rooms k)) keys.now × (made.items ≡ in_order keys.now rooms))) }
{
    let mut made = Vec::with_capacity(alloc, keys.len())?;
    for key in keys {
        let Some(lots) = lots.get(key) else {
            return Ok(None);
        };
        made.push(Room {
            key: *key,
            lots: *lots,
        })?;
    }
    Ok(Some(made))
}

/// Returns the rooms in the order of the keys, if they are exactly theirs. The lots are collected in a map, which starts empty.
fn rooms_by_lots(
    alloc: Global,
    lots: &mut IndexMap<LimitKey, u64>,
    keys: &IndexSet<LimitKey>,
    rooms: &[Room],
) -> Result<Option<Vec<Room>>, AllocError>
    requires { IsEmpty lots.old }
    ensures { IfOk result (λ ordered.
        MatchOption ordered (¬ AreRooms keys.now.keys rooms.now)
        (λ made. AreRooms keys.now.keys rooms.now × (made.items ≡ in_order keys.now.keys rooms.now))) }
{
    if give(lots, keys, rooms)? {
        ordered(alloc, keys.as_slice(), lots)
    } else {
        Ok(None)
    }
}

/// Returns the rooms in the order of the keys, if they are exactly theirs.
pub fn rooms_in_order(
    alloc: Global,
    keys: &IndexSet<LimitKey>,
    rooms: &[Room],
) -> Result<Option<Vec<Room>>, AllocError>
    ensures { IfOk result (λ ordered.
        MatchOption ordered (¬ AreRooms keys.now.keys rooms.now)
        (λ made. AreRooms keys.now.keys rooms.now × (made.items ≡ in_order keys.now.keys rooms.now))) }
{
    let mut lots = IndexMap::with_capacity(alloc, keys.len())?;
    let ordered = rooms_by_lots(alloc, &mut lots, keys, rooms);
    drop(lots);
    ordered
}
