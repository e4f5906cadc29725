//! Lists of indexes, stored once if consecutive ones are the same.

ghost use Rattle.std.specs.Prelude.{◌≡◌, ℕ, ◌-◌, ◌<◌, ◌≤◌, ◌++◌, ◌∷◌, [], IfOk, OnOk, Some, length, slice_get, slice_index_or};

use crate::place_lists::PlaceLists;
use std::alloc::{AllocError, Global};
use std::marker::Model;

/// Lists of indexes. One added several times in a row is stored once. To a contract it is the list of these lists.
#[derive(Drop)]
pub struct SharedLists {
    kept: PlaceLists,
    /// For each list, its index among those stored.
    at: Vec<usize>,
}

impl Model for SharedLists {
    ghost use Rattle.std.specs.Prelude.{◌<◌, All, List, ℕ, length};
    ghost use Rattle.gu_view.specs.Keeping.{lists_at};

    ghost Value = { List (List ℕ) };

    ghost view = { λ l. lists_at l.kept l.at.items };

    ghost invariant = { λ l. All (λ place. place < length l.kept) l.at.items };
}

impl SharedLists {
    /// Returns no lists, with capacity for this many.
    pub fn with_room(alloc: Global, lists: usize) -> Result<Self, AllocError>
        ensures { IfOk result (λ made. made ≡ []) }
    {
        let at = Vec::with_capacity(alloc, lists)?;
        Ok(SharedLists {
            kept: PlaceLists::new(alloc),
            at,
        })
    }

    /// Adds a list after the others.
    pub fn push(&mut self, list: &[u32]) -> Result<(), AllocError>
        ensures { OnOk result (self.new ≡ self.old ++ list.now ∷ []) }
    {
        self.at.reserve(1)?;
        let place = self.kept.count();
        self.kept.push(list)?;
        self.at.push(place)?;
        Ok(())
    }

    /// Adds the last list again.
    pub fn push_again(&mut self) -> Result<(), AllocError>
        requires { 0 < length self.old }
        ensures { OnOk result (self.new ≡ self.old ++ slice_index_or self.old (length self.old - 1) [] ∷ []) }
    {
        let place = self.at[self.at.len() - 1];
        self.at.push(place)?;
        Ok(())
    }

    /// Returns the list at an index.
    pub fn list(&self, place: usize) -> &[u32]
        requires { place < length self.now }
        ensures { slice_get self.now place ≡ Some result.now }
    {
        self.kept.list(self.at[place])
    }

    /// Returns the end of the run of lists that share one stored list, starting at an index.
    pub fn run_end(&self, first: usize) -> usize
        requires { first < length self.now }
        ensures within { (first < result) × (result ≤ length self.now) }
        ensures alike { (place : ℕ) → first ≤ place → place < result → slice_get self.now place ≡ slice_get self.now first }
    {
        let kept = self.at[first];
        for end in first + 1..self.at.len() {
            if self.at[end] != kept {
                return end;
            }
        }
        self.at.len()
    }

    /// Returns a copy.
    pub fn copy(&self) -> Result<SharedLists, AllocError>
        ensures { IfOk result (λ lists. lists ≡ self.now) }
    {
        let at = self.at.clone()?;
        let kept = self.kept.copy()?;
        Ok(SharedLists { kept, at })
    }
}
