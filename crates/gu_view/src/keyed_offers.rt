//! Offers and the keys of their paths, in order of first mention.

ghost use Rattle.std.specs.Prelude.{◌≡◌, ◌+◌, ◌<◌, ◌≤◌, ◌^◌, ◌++◌, ◌∷◌, [], None, Some, List, All, AllPairs, IfOk, IsTrue, OnOk, length, map, slice_get, take};
ghost use Rattle.gu_terms.specs.LimitKeys.{has_key};
ghost use Rattle.gu_terms.specs.declared.limit_key.LimitKey.{LimitKey};
ghost use Rattle.gu_terms.specs.declared.limit_key.LimitKey.TheVariants.{Agr};
ghost use Rattle.gu_view.specs.Keeping.{AreMentioned, IsKeyed};
ghost use Rattle.gu_view.specs.Making.{bad_offer, path_differs};
ghost use Rattle.gu_view.specs.View.{firsts, keys_of, place_among};

use crate::shared_lists::SharedLists;
use crate::view::ViewOffer;
use gu_terms::LimitKey;
use indexmap::IndexSet;
use std::alloc::{AllocError, Global};
use std::marker::Model;

/// The most keys in a path.
const MOST_KEYS: usize = 5;

/// Offers that a view may be made of, and the keys of their paths in order of first mention. To a contract it is the list of these offers.
pub struct KeyedOffers {
    offers: Vec<ViewOffer>,
    keys: IndexSet<LimitKey>,
    /// For each offer, the indexes of its path's keys among the keys.
    places: SharedLists,
}

impl Model for KeyedOffers {
    ghost use Rattle.std.specs.Prelude.{List};
    ghost use Rattle.gu_view.specs.Keeping.{IsKeyed};
    ghost use Rattle.gu_view.specs.declared.view.ViewOffer.{ViewOffer};

    ghost Value = { List ViewOffer };

    ghost view = { λ k. k.offers.items };

    ghost invariant = { λ k. IsKeyed k.offers.items k.keys.keys k.places };
}

// By hand, so that its owner drops it with one call.
impl Drop for KeyedOffers {
    fn drop(self) {
        let KeyedOffers {
            offers,
            keys,
            places,
        } = self;
        drop(offers);
        drop(keys);
        drop(places);
    }
}

/// Adds the new keys of a path, and the list of the indexes of all its keys.
fn mention(
    keys: &mut IndexSet<LimitKey>,
    places: &mut SharedLists,
    path: &[LimitKey],
) -> Result<(), AllocError>
    requires room { length keys.old.keys + length path.now ≤ 2 ^ 32 }
    requires short { length path.now ≤ 5 }
    ensures first { OnOk result ((mentioned : List LimitKey)
        → keys.old.keys ≡ firsts mentioned
        → keys.new.keys ≡ firsts (mentioned ++ path.now)) }
    ensures few { OnOk result (length keys.new.keys ≤ length keys.old.keys + length path.now) }
    ensures stay { OnOk result ((k : LimitKey)
        → IsTrue (has_key keys.old.keys k)
        → place_among keys.new.keys k ≡ place_among keys.old.keys k) }
    ensures places { OnOk result (places.new ≡ places.old ++ map (place_among keys.new.keys) path.now ∷ []) }
{
    let mut list = [0; MOST_KEYS];
    for (at, key) in path.iter().enumerate() {
        let (place, _) = keys.insert_full(*key)?;
        list[at] = place as u32;
    }
    places.push(&list[..path.len()])
}

/// Adds the keys of the path of the offer at an index. If the previous offer is under the same agreement, both share the list of indexes.
fn mention_offer(
    keys: &mut IndexSet<LimitKey>,
    places: &mut SharedLists,
    offers: &[ViewOffer],
    at: usize,
) -> Result<(), AllocError>
    requires inside { (at < length offers.now) × (length offers.now ≤ 4096) }
    requires own { All (λ o. slice_get o.path 1 ≡ Some (Agr o.agreement)) offers.now }
    requires one_path { AllPairs (λ a b. a.agreement ≡ b.agreement → a.path ≡ b.path) offers.now }
    requires before { AreMentioned (take at offers.now) keys.old.keys places.old }
    ensures { OnOk result (AreMentioned (take (at + 1) offers.now) keys.new.keys places.new) }
{
    if at > 0 && offers[at - 1].agreement == offers[at].agreement {
        return places.push_again();
    }
    mention(keys, places, offers[at].path.keys())?;
    Ok(())
}

/// Adds the keys of the offers' paths, in order, and for each offer the list of their indexes.
fn mention_all(
    keys: &mut IndexSet<LimitKey>,
    places: &mut SharedLists,
    offers: &[ViewOffer],
) -> Result<(), AllocError>
    requires none { (keys.old.keys ≡ []) × (places.old ≡ []) }
    requires few { length offers.now ≤ 4096 }
    requires own { All (λ o. slice_get o.path 1 ≡ Some (Agr o.agreement)) offers.now }
    requires one_path { AllPairs (λ a b. a.agreement ≡ b.agreement → a.path ≡ b.path) offers.now }
    ensures { OnOk result (AreMentioned offers.now keys.new.keys places.new) }
{
    for at in 0..offers.len() {
        mention_offer(keys, places, offers, at)?;
    }
    Ok(())
}

/// Returns the keys of the offers' paths, in order of first mention, and for each offer the indexes of its path's keys.
fn keyed(
    alloc: Global,
    offers: &[ViewOffer],
) -> Result<(IndexSet<LimitKey>, SharedLists), AllocError>
    requires few { length offers.now ≤ 4096 }
    requires own { All (λ o. slice_get o.path 1 ≡ Some (Agr o.agreement)) offers.now }
    requires one_path { AllPairs (λ a b. a.agreement ≡ b.agreement → a.path ≡ b.path) offers.now }
    ensures { IfOk result (λ made. AreMentioned offers.now made.0.keys made.1) }
{
    let mut places = SharedLists::with_room(alloc, offers.len())?;
    let mut keys = IndexSet::new(alloc);
    match mention_all(&mut keys, &mut places, offers) {
        Ok(()) => Ok((keys, places)),
        Err(refused) => {
            drop(keys);
            Err(refused)
        }
    }
}

impl KeyedOffers {
    /// Returns these offers with their keys.
    pub fn new(alloc: Global, offers: Vec<ViewOffer>) -> Result<Self, AllocError>
        requires numbers { bad_offer offers.items ≡ None }
        requires paths { path_differs offers.items ≡ None }
        ensures { IfOk result (λ made. made ≡ offers.items) }
    {
        let (keys, places) = keyed(alloc, &offers)?;
        Ok(KeyedOffers {
            offers,
            keys,
            places,
        })
    }

    /// Returns the keys of their paths, in order of first mention.
    pub fn keys(&self) -> &[LimitKey]
        ensures { result.now ≡ keys_of self.now }
    {
        self.keys.as_slice()
    }

    /// Returns the same keys as a set.
    pub(crate) fn key_set(&self) -> &IndexSet<LimitKey>
        ensures { result.now.keys ≡ keys_of self.now }
    {
        &self.keys
    }

    /// Returns the offers, their keys, and the indexes of each path's keys.
    pub(crate) fn into_parts(self) -> (Vec<ViewOffer>, IndexSet<LimitKey>, SharedLists)
        ensures offers { result.0.items ≡ self }
        ensures keyed { IsKeyed self result.1.keys result.2 }
    {
        let KeyedOffers {
            offers,
            keys,
            places,
        } = self;
        (offers, keys, places)
    }
}
