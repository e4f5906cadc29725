//! Views of groups.

ghost use Rattle.std.specs.Prelude.{◌≡◌, ℕ, ◌<◌, ◌≤◌, ◌↔◌, IfErr, IfOk, IfSome, IsTrue, MatchOption, OnOk, length, map, All, position, slice_get};
ghost use Rattle.std.specs.Option.{option_copied};
ghost use Rattle.gu_terms.specs.LimitKeys.{key_eq};
ghost use Rattle.gu_terms.specs.declared.limit_key.LimitKey.TheVariants.{Agr};
ghost use Rattle.gu_view.specs.Making.{bad_offer, view_of, AreRooms, MakesView, Refuses};
ghost use Rattle.gu_view.specs.View.{IsView, IsNested, keys_of, offer_of, place_of, places_under};

use crate::checker::offer_place;
use crate::error::ViewError;
use crate::keyed_offers::KeyedOffers;
use crate::making::{bad_offer, path_differs, rooms_in_order};
use crate::members::all_members;
use crate::nesting::keys_agree;
use crate::place_lists::PlaceLists;
use crate::shared_lists::SharedLists;
use gu_terms::{AgreementId, Group, LimitKey, MOST_LIMIT, OfferNo, Path};
use indexmap::IndexSet;
use std::alloc::{AllocError, Global};
use std::marker::Model;

/// The most rooms in a view: a path has at most five keys.
pub const MOST_ROOMS: usize = 20_480;

/// An open offer: its number, the lots left of it, its agreement and its path.
#[derive(Clone, Copy, PartialEq, Eq)]
pub struct ViewOffer {
    pub number: OfferNo,
    pub lots: u64,
    pub agreement: AgreementId,
    pub path: Path,
}

/// The room of a key.
#[derive(Clone, Copy, PartialEq, Eq)]
pub struct Room {
    pub key: LimitKey,
    pub lots: u64,
}

/// A group's open offers, and the room of each key on their paths, in order of first mention.
pub struct View {
    group: Group,
    version: u64,
    offers: Vec<ViewOffer>,
    rooms: Vec<Room>,
    /// The rooms' keys, for look-up.
    keys: IndexSet<LimitKey>,
    /// For each offer, the indexes of its path's keys among the rooms.
    places: SharedLists,
    /// For each room, the indexes of the offers with its key.
    members: PlaceLists,
}

impl Model for View {
    ghost use Rattle.gu_view.specs.Keeping.{IsIndexed};
    ghost use Rattle.gu_view.specs.View.{GroupView};

    ghost Value = { GroupView };

    ghost view = { λ v. record { group = v.group; version = v.version; offers = v.offers.items; rooms = v.rooms.items } };

    ghost invariant = { λ v.
        IsIndexed (record { group = v.group; version = v.version; offers = v.offers.items; rooms = v.rooms.items })
        v.keys.keys v.places v.members };
}

// By hand, so that a view's owner drops it with one call.
impl Drop for View {
    fn drop(self) {
        let View {
            group: _,
            version: _,
            offers,
            rooms,
            keys,
            places,
            members,
        } = self;
        drop(offers);
        drop(rooms);
        drop(keys);
        drop(places);
        drop(members);
    }
}

impl View {
    /// Returns the view that offers and rooms make. The rooms may be in any order, and are stored in order of first mention.
    pub fn new(
        alloc: Global,
        group: Group,
        version: u64,
        offers: Vec<ViewOffer>,
        rooms: Vec<Room>,
    ) -> Result<View, ViewError>
        ensures made { IfOk result (λ view. view ≡ view_of group version offers.items rooms.items) }
        ensures accepted { OnOk result (MakesView offers.items rooms.items) }

        // What each refusal means; Memory means nothing about the offers or rooms.
        ensures refused { IfErr result (Refuses offers.items rooms.items) }
        ensures bad_offer { (number : ℕ) → (result ≡ Err (ViewError.BadOffer number)) ↔ (bad_offer offers.items ≡ Some number) }
    {
        if let Some(number) = bad_offer(&offers) {
            return Err(ViewError::BadOffer(number));
        }
        if let Some(number) = path_differs(alloc, &offers, rooms.len().min(offers.len()))? {
            return Err(ViewError::PathDiffers(number));
        }
        let offers = KeyedOffers::new(alloc, offers)?;
        View::with_rooms(alloc, group, version, offers, &rooms)?.ok_or(ViewError::BadRooms)
    }

    /// Returns the view of offers with these rooms, in any order, if they are exactly those of the keys.
    fn with_rooms(
        alloc: Global,
        group: Group,
        version: u64,
        offers: KeyedOffers,
        rooms: &[Room],
    ) -> Result<Option<View>, AllocError>
        ensures { IfOk result (λ made.
            MatchOption made (¬ AreRooms (keys_of offers) rooms.now)
            (λ view. (view ≡ view_of group version offers rooms.now) × MakesView offers rooms.now)) }
    {
        match rooms_in_order(alloc, offers.key_set(), rooms)? {
            Some(rooms) => Ok(Some(View::of(alloc, group, version, offers, rooms)?)),
            None => Ok(None),
        }
    }

    /// Returns the view of offers with the rooms of their keys, in the order of the keys.
    pub fn of(
        alloc: Global,
        group: Group,
        version: u64,
        offers: KeyedOffers,
        rooms: Vec<Room>,
    ) -> Result<View, AllocError>
        requires keys { map (λ r. r.key) rooms.items ≡ keys_of offers }
        requires limits { All (λ r. r.lots ≤ MOST_LIMIT) rooms.items }
        ensures made { IfOk result (λ view. view ≡ view_of group version offers rooms.items) }
        ensures rooms { IfOk result (λ view. view.rooms ≡ rooms.items) }
        ensures accepted { OnOk result (MakesView offers rooms.items) }
    {
        let (offers, keys, places) = offers.into_parts();
        let members = all_members(alloc, &places, offers.len(), rooms.len())?;
        Ok(View {
            group,
            version,
            offers,
            rooms,
            keys,
            places,
            members,
        })
    }

    /// Returns the group.
    pub fn group(&self) -> Group
        ensures { result ≡ self.now.group }
    {
        self.group
    }

    /// Returns the group's version.
    pub fn version(&self) -> u64
        ensures { result ≡ self.now.version }
    {
        self.version
    }

    /// Returns the offers, in ascending order of numbers.
    pub fn offers(&self) -> &[ViewOffer]
        ensures offers { result.now ≡ self.now.offers }
        ensures sound { IsView self.now }
    {
        self.offers.as_slice()
    }

    /// Returns the offer with this number.
    pub fn offer(&self, number: OfferNo) -> Option<&ViewOffer>
        ensures { option_copied result ≡ offer_of self.now.offers number }
    {
        let place = offer_place(&self.offers, number)?;
        Some(&self.offers[place])
    }

    /// Returns the rooms, in order of first mention.
    pub fn rooms(&self) -> &[Room]
        ensures rooms { result.now ≡ self.now.rooms }
        ensures sound { IsView self.now }
    {
        self.rooms.as_slice()
    }

    /// Returns the indexes, among the rooms, of the keys of the offer at an index, in the order of its path.
    pub fn places(&self, offer: usize) -> &[u32]
        requires { offer < length self.now.offers }
        ensures places { IfSome (slice_get self.now.offers offer) (λ o. result.now ≡ map (place_of self.now.rooms) o.path) }
        ensures within { All (λ place. place < length self.now.rooms) result.now }
        ensures sound { IsView self.now }
    {
        self.places.list(offer)
    }

    /// Returns the index, among the rooms, of an offer's agreement.
    pub fn agreement_place(&self, offer: usize) -> usize
        requires { offer < length self.now.offers }
        ensures place { IfSome (slice_get self.now.offers offer) (λ o. result ≡ place_of self.now.rooms (Agr o.agreement)) }
        ensures within { result < length self.now.rooms }
    {
        self.places(offer)[1] as usize
    }

    /// Returns the indexes of the offers with the key of the room at an index, in number order.
    pub fn members(&self, room: usize) -> &[u32]
        requires { room < length self.now.rooms }
        ensures members { IfSome (slice_get self.now.rooms room) (λ r. result.now ≡ places_under self.now.offers r.key) }
        ensures within { All (λ place. place < length self.now.offers) result.now }
    {
        self.members.list(room)
    }

    /// Returns the index of a key's room.
    pub fn place(&self, key: LimitKey) -> Option<usize>
        ensures place { result ≡ position (λ r. key_eq r.key key) self.now.rooms }
        ensures sound { IsView self.now }
    {
        self.keys.get_index_of(&key)
    }

    /// Returns whether offers with one account have the same carrying firm, and those with one carrying firm the same guarantor or none.
    /// (Each path is whole by its type.) It allocates nothing.
    pub fn nested(&self) -> bool
        ensures { IsTrue result ↔ IsNested self.now }
    {
        // Reading a field shows the prover that each path is whole.
        let _ = &self.rooms;
        keys_agree(self)
    }

    /// Returns whether two views show the same. It allocates nothing.
    pub fn is_same(&self, other: &View) -> bool
        ensures { IsTrue result ↔ (self.now ≡ other.now) }
    {
        let mine = (self.group, self.version, self.offers(), self.rooms());
        let theirs = (other.group, other.version, other.offers(), other.rooms());
        mine == theirs
    }

    /// Returns a copy.
    pub fn copy(&self) -> Result<View, AllocError>
        ensures { IfOk result (λ view. view ≡ self.now) }
    {
        Ok(View {
            group: self.group,
            version: self.version,
            offers: self.offers.clone()?,
            rooms: self.rooms.clone()?,
            places: self.places.copy()?,
            members: self.members.copy()?,
            keys: self.keys.clone()?,
        })
    }
}
