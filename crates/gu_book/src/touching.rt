//! The groups that an entry touches.

ghost use Rattle.std.specs.Prelude.{◌≡◌, ◌+◌, ◌<◌, ◌≤◌, ◌^◌, IfOk, if◌then◌else◌};
ghost use Rattle.gu_terms.specs.declared.group.Group.{Group as GroupOf};
ghost use Rattle.gu_book.specs.Counted.{HasCounts, is_touched, version_in};

use crate::versions::{Touched, Versions};
use std::alloc::AllocError;

/// Makes sure that a group that alone is touched has a count, and returns the count's index. No version changes.
pub fn know(versions: &mut Versions, touched: &Touched) -> Result<usize, AllocError>
    ensures known { IfOk result (λ place. HasCounts versions.new place touched.now) }
    ensures days { versions.new.days ≡ versions.old.days }
    ensures same { (group : GroupOf) → version_in versions.new group ≡ version_in versions.old group }
{
    match touched {
        Touched::Only(group) => versions.know(group),
        Touched::Nothing | Touched::Every => Ok(0),
    }
}

/// Records that an entry touches these groups; the count of a group that alone is touched is at this index.
pub fn touch(versions: &mut Versions, touched: &Touched, place: usize)
    requires known { HasCounts versions.old place touched.now }
    requires fits { (group : GroupOf) → version_in versions.old group + 1 < 2 ^ 64 }
    requires days { versions.old.days + 1 < 2 ^ 64 }
    ensures days { versions.new.days ≤ versions.old.days + 1 }
    ensures touched { (group : GroupOf)
        → version_in versions.new group ≡ (if is_touched touched.now group then version_in versions.old group + 1 else version_in versions.old group) }
{
    match touched {
        Touched::Nothing => {}
        Touched::Only(group) => versions.touch(group, place),
        Touched::Every => versions.touch_all(),
    }
}
