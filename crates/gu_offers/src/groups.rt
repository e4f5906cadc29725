//! The numbers of open offers, by product group.

ghost use Rattle.std.specs.Prelude.{◌≡◌, ◌+◌, ◌<◌, ◌==◌, ◌^◌, ◌++◌, [], not, filter, OnOk, OnErr, if◌then◌else◌};
ghost use Rattle.std.specs.List.{range_with_len};
ghost use Rattle.gu_terms.specs.declared.group.Group.{Group as GroupOf};
ghost use Rattle.gu_terms.specs.Same.{same_group};
ghost use Rattle.gu_offers.specs.Numbers.{IsAscending};

use gu_terms::Group;
use indexmap::IndexMap;
use std::alloc::{AllocError, Global};

/// The numbers of each product group's open offers, ascending.
pub(crate) struct Groups {
    pub(crate) numbers: IndexMap<Group, Vec<u64>>,
    pub(crate) alloc: Global,
}

impl Drop for Groups {
    fn drop(self) {
        let Groups { numbers, alloc: _ } = self;
        drop(numbers);
    }
}

/// Appends `count` numbers starting at `first`, or none.
fn append_to(numbers: &mut Vec<u64>, first: u64, count: usize) -> Result<(), AllocError>
    requires { first + count < 2 ^ 64 }
    ensures appended { OnOk result (numbers.new.items ≡ numbers.old.items ++ range_with_len first count) }
    ensures refused { OnErr result (numbers.new.items ≡ numbers.old.items) }
{
    numbers.reserve(count)?;
    for i in 0..count {
        numbers.push_reserved(first + i as u64);
    }
    Ok(())
}

/// Removes a number from an ascending list, if it is there.
fn take_from(numbers: &mut Vec<u64>, number: u64)
    requires { IsAscending numbers.old.items }
    ensures { numbers.new.items ≡ filter (λ other. not (other == number)) numbers.old.items }
{
    if let Ok(at) = numbers.binary_search(&number) {
        numbers.remove(at);
    }
}

impl Groups {
    ghost use Rattle.gu_offers.specs.Groups.{numbers_in};

    /// Returns an empty table.
    pub(crate) fn new(alloc: Global) -> Self
        ensures { (group : GroupOf) → numbers_in result group ≡ [] }
    {
        Groups {
            numbers: IndexMap::new(alloc),
            alloc,
        }
    }

    /// Returns the numbers of a group's open offers.
    pub(crate) fn of(&self, group: &Group) -> &[u64]
        ensures { result.now ≡ numbers_in self.now group.now }
    {
        match self.numbers.get(group) {
            Some(numbers) => numbers.as_slice(),
            None => &[],
        }
    }

    /// Appends consecutive numbers to a group's list, or none. A new group's list is inserted once it is written.
    pub(crate) fn append(
        &mut self,
        group: &Group,
        first: u64,
        count: usize,
    ) -> Result<(), AllocError>
        requires { first + count < 2 ^ 64 }
        ensures appended { OnOk result ((other : GroupOf)
            → numbers_in self.new other ≡ (if same_group group.now other then numbers_in self.old other ++ range_with_len first count else numbers_in self.old other)) }
        ensures refused { OnErr result ((other : GroupOf) → numbers_in self.new other ≡ numbers_in self.old other) }
    {
        if let Some(numbers) = self.numbers.get_mut(group) {
            return append_to(numbers, first, count);
        }
        let mut numbers = Vec::new(self.alloc);
        append_to(&mut numbers, first, count)?;
        self.numbers.insert(*group, numbers)?;
        Ok(())
    }

    /// Removes a number from a group's list, if it is there.
    pub(crate) fn take_out(&mut self, group: &Group, number: u64)
        requires { IsAscending (numbers_in self.old group.now) }
        ensures { (other : GroupOf)
            → numbers_in self.new other ≡ (if same_group group.now other then filter (λ m. not (m == number)) (numbers_in self.old other) else numbers_in self.old other) }
    {
        if let Some(numbers) = self.numbers.get_mut(group) {
            take_from(numbers, number);
        }
    }
}
