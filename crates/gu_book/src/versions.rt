//! Versions of groups, as running counts.

ghost use Rattle.std.specs.Prelude.{◌≡◌, ◌+◌, ◌<◌, ◌^◌, is_some, IfOk, IfSome, if◌then◌else◌};
ghost use Rattle.indexmap.specs.IndexMap.{get};
ghost use Rattle.gu_terms.specs.declared.group.Group.{Group as GroupOf};
ghost use Rattle.gu_terms.specs.Same.{same_group};

use gu_terms::Group;
use indexmap::IndexMap;
use std::alloc::{AllocError, Global};

/// The groups that an entry touches.
#[derive(Clone, Copy, Debug, PartialEq, Eq)]
pub enum Touched {
    /// No group.
    Nothing,
    /// Only this group.
    Only(Group),
    /// Every group, even one that the reference lacks.
    Every,
}

/// The number of entries that touched each group. Openings of days touch all groups, and are counted once.
pub struct Versions {
    /// The number of days opened.
    pub days: u64,
    /// The number of other entries that touched each group.
    pub own: IndexMap<Group, u64>,
}

impl Drop for Versions {
    fn drop(self) {
        let Versions { days: _, own } = self;
        drop(own);
    }
}

impl Versions {
    ghost use Rattle.gu_book.specs.Counted.{IsCountAt, version_in};

    /// Returns counts of no entries.
    pub fn new(alloc: Global) -> Self
        ensures days { result.days ≡ 0 }
        ensures none { (group : GroupOf) → version_in result group ≡ 0 }
    {
        Versions {
            days: 0,
            own: IndexMap::new(alloc),
        }
    }

    /// Returns the version of a group: the number of entries that touched it.
    pub fn of(&self, group: &Group) -> u64
        requires { version_in self.now group.now < 2 ^ 64 }
        ensures { result ≡ version_in self.now group.now }
    {
        self.days + self.own.get(group).copied().unwrap_or(0)
    }

    /// Returns the index of a group's count, if it has one.
    fn place_of(&self, group: &Group) -> Option<usize>
        ensures at { IfSome result (λ place. IsCountAt self.now place group.now) }
        ensures there { is_some result ≡ is_some (get ⟦<Group as PartialEq>⟧.eq self.now.own group.now) }
    {
        let (place, _, _) = self.own.get_full(group)?;
        Some(place)
    }

    /// Makes sure that a group has a count, and returns the count's index. No version changes.
    pub fn know(&mut self, group: &Group) -> Result<usize, AllocError>
        ensures known { IfOk result (λ place. IsCountAt self.new place group.now) }
        ensures days { self.new.days ≡ self.old.days }
        ensures same { (other : GroupOf) → version_in self.new other ≡ version_in self.old other }
    {
        if let Some(place) = self.place_of(group) {
            return Ok(place);
        }
        self.own.insert(*group, 0)?;
        let Some(place) = self.place_of(group) else {
            unreachable!();
        };
        Ok(place)
    }

    /// Records that an entry touches a group, whose count is at this index.
    pub fn touch(&mut self, group: &Group, place: usize)
        requires known { IsCountAt self.old place group.now }
        requires fits { version_in self.old group.now + 1 < 2 ^ 64 }
        ensures days { self.new.days ≡ self.old.days }
        ensures one { (other : GroupOf)
            → version_in self.new other ≡ (if same_group group.now other then version_in self.old other + 1 else version_in self.old other) }
    {
        let Some(count) = self.own.get_index_mut(place) else {
            unreachable!();
        };
        *count += 1;
    }

    /// Records that an entry touches every group.
    pub fn touch_all(&mut self)
        requires { self.old.days + 1 < 2 ^ 64 }
        ensures days { self.new.days ≡ self.old.days + 1 }
        ensures each { (group : GroupOf) → version_in self.new group ≡ version_in self.old group + 1 }
    {
        self.days += 1;
    }
}
