//! Whether the offers of a view are nested.

ghost use Rattle.std.specs.Prelude.{◌≡◌, ◌<◌, IfSome, length, slice_get};
ghost use Rattle.std.specs.List.{list_all};
ghost use Rattle.gu_view.specs.Paths.{behind, have_one_key, key_on, room_agrees, same_key};

use crate::view::{View, ViewOffer};
use gu_terms::LimitKey;

/// Returns the depth on a path that follows an account's key or a carrying firm's.
fn behind(key: LimitKey) -> Option<usize>
    ensures { result ≡ behind key }
{
    match key {
        LimitKey::Acct(_) => Some(3),
        LimitKey::Carry(_) => Some(4),
        _ => None,
    }
}

/// Returns the key at a depth on the path of the offer at an index.
fn key_on(offers: &[ViewOffer], depth: usize, place: u32) -> Option<LimitKey>
    ensures { result ≡ key_on offers.now depth place }
{
    offers.get(place as usize)?.path.keys().get(depth).copied()
}

/// Returns whether both are the same key, or both None.
fn is_same_key(a: Option<LimitKey>, b: Option<LimitKey>) -> bool
    ensures { result ≡ same_key a b }
{
    match (a, b) {
        (Some(j), Some(k)) => j == k,
        (None, None) => true,
        _ => false,
    }
}

/// Returns whether the offers at these indexes have this key at this depth.
fn all_have_key(offers: &[ViewOffer], depth: usize, places: &[u32], key: Option<LimitKey>) -> bool
    ensures { result ≡ list_all (λ place. same_key key (key_on offers.now depth place)) places.now }
{
    places
        .iter()
        .all(|place| is_same_key(key, key_on(offers, depth, *place)))
}

/// Returns whether the offers at these indexes all have the same key at this depth as the first.
fn have_one_key(offers: &[ViewOffer], depth: usize, places: &[u32]) -> bool
    ensures { result ≡ have_one_key offers.now depth places.now }
{
    match places {
        [first, others @ ..] => all_have_key(offers, depth, others, key_on(offers, depth, *first)),
        [] => true,
    }
}

/// Returns whether the paths of the offers under the room at an index continue with the same key.
fn agrees(view: &View, place: usize, key: LimitKey) -> bool
    requires { IfSome (slice_get view.now.rooms place) (λ r. r.key ≡ key) × (place < length view.now.rooms) }
    ensures { IfSome (slice_get view.now.rooms place) (λ r. result ≡ room_agrees view.now.offers r) }
{
    match behind(key) {
        Some(depth) => have_one_key(view.offers(), depth, view.members(place)),
        None => true,
    }
}

/// Returns whether offers with one account have the same carrying key, and those with one carrying firm the same guarantor's key or none.
/// It looks at each offer twice.
pub fn keys_agree(view: &View) -> bool
    ensures { result ≡ list_all (room_agrees view.now.offers) view.now.rooms }
{
    for (place, room) in view.rooms().iter().enumerate() {
        if !agrees(view, place, room.key) {
            return false;
        }
    }
    true
}
