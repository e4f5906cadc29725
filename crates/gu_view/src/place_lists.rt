//! Lists of indexes, one after another in one buffer.

ghost use Rattle.std.specs.Prelude.{◌≡◌, ◌<◌, ◌≤◌, ◌∷◌, ◌++◌, [], length, OnOk, OnErr, IfOk, slice_get, slice_index, slice_range};
ghost use Rattle.gu_view.specs.Keeping.{lists_from, AreEnds};

use std::alloc::{AllocError, Global};
use std::marker::Model;

/// Lists of indexes. To a contract it is the list of these lists.
#[derive(Drop)]
pub struct PlaceLists {
    joined: Vec<u32>,
    ends: Vec<usize>,
}

impl Model for PlaceLists {
    ghost use Rattle.std.specs.Prelude.{List, ℕ, length};
    ghost use Rattle.std.specs.List.{list_any};
    ghost use Rattle.gu_view.specs.Keeping.{lists_from, AreEnds};

    ghost Value = { List (List ℕ) };

    ghost view = { λ l. lists_from l.joined.items 0 l.ends.items };

    ghost invariant = { λ l. AreEnds (length l.joined.items) 0 l.ends.items };
}

/// Returns the start of the list at an index, which is the end of the previous one.
fn start_of(ends: &[usize], place: usize) -> usize
    requires { place < length ends.now }
    ensures { result ≡ slice_index (0 ∷ ends.now) place }
{
    if place == 0 { 0 } else { ends[place - 1] }
}

/// Returns the part between two positions.
fn part(joined: &[u32], start: usize, end: usize) -> &[u32]
    requires in_order { start ≤ end }
    requires within { end ≤ length joined.now }
    ensures { result.now ≡ slice_range joined.now start end }
{
    &joined[start..end]
}

impl PlaceLists {
    /// Returns no lists.
    pub fn new(alloc: Global) -> Self
        ensures { result ≡ [] }
    {
        PlaceLists {
            joined: Vec::new(alloc),
            ends: Vec::new(alloc),
        }
    }

    /// Returns the parts of one list that end at these positions.
    pub fn of(joined: Vec<u32>, ends: Vec<usize>) -> Self
        requires { AreEnds (length joined.items) 0 ends.items }
        ensures { result ≡ lists_from joined.items 0 ends.items }
    {
        PlaceLists { joined, ends }
    }

    /// Returns the number of lists.
    pub fn count(&self) -> usize
        ensures { result ≡ length self.now }
    {
        self.ends.len()
    }

    /// Adds a list after the others.
    pub fn push(&mut self, list: &[u32]) -> Result<(), AllocError>
        ensures ok { OnOk result (self.new ≡ self.old ++ list.now ∷ []) }
        ensures refused { OnErr result (self.new ≡ self.old) }
    {
        self.ends.reserve(1)?;
        self.joined.extend_from_slice(list)?;
        self.ends.push(self.joined.len())?;
        Ok(())
    }

    /// Returns the list at an index.
    pub fn list(&self, place: usize) -> &[u32]
        requires { place < length self.now }
        ensures { slice_get self.now place ≡ Some result.now }
    {
        part(&self.joined, start_of(&self.ends, place), self.ends[place])
    }

    /// Returns a copy.
    pub fn copy(&self) -> Result<PlaceLists, AllocError>
        ensures { IfOk result (λ lists. lists ≡ self.now) }
    {
        let joined = self.joined.clone()?;
        let ends = self.ends.clone()?;
        Ok(PlaceLists { joined, ends })
    }
}
