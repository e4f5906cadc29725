//! The limits of the house and their use today.

ghost use Rattle.std.specs.Prelude.{◌≡◌, ◌+◌, ◌-◌, ◌<◌, ◌≤◌, ◌↔◌, ◌||◌, [], ◌∷◌, All, IfOk, IsErrOf, List, OnErr, OnOk, find, length, nat_lt, slice_get, if◌then◌else◌, map};
ghost use Rattle.std.specs.List.{IsDistinct};
ghost use Rattle.std.specs.Option.{ForSome};
ghost use Rattle.std.specs.Result.{result_err};
ghost use Rattle.indexmap.specs.IndexMap.{get, index_map_len, insert_entry, set_value_at, values, IsUnique};
ghost use Rattle.gu_terms.specs.LimitKeys.{key_eq};
ghost use Rattle.gu_terms.specs.declared.group.Group.{Group as GroupOf};
ghost use Rattle.gu_terms.specs.declared.limit_key.LimitKey.{LimitKey as LimitKeyOf};
ghost use Rattle.gu_limits.specs.Changes.{Charges, MayCharge, MayReturn, Returns, Sets, limits_after_charge, limits_after_return, limits_after_setting, limits_of_new_day, lots_under, SameLimits, SameUses};
ghost use Rattle.gu_limits.specs.Kept.{set_to, unused, used_on};
ghost use Rattle.gu_limits.specs.Limits.{AreLimitsOf, has_limit, limit_and_use, limit_in, number_in, room_in, row_in, same_limit, same_place, used_in};

use crate::error::SetError;
use crate::numbers::PathLimits;
use gu_terms::{Group, LimitKey, LimitRow, MOST_LIMIT, Path};
use indexmap::IndexMap;
use std::alloc::{AllocError, Global};
use std::marker::Model;

/// The group and key that a limit applies to. No two limits have the same.
#[derive(Clone, Copy, Debug, PartialEq, Eq, Hash)]
struct GroupKey {
    group: Group,
    key: LimitKey,
}

/// A limit and its use on the day when it was last charged. On any other day its use is 0.
#[derive(Clone, Copy, Debug)]
struct KeptLimit {
    limit: u64,
    used: u64,
    day: u64,
}

/// A table of the limits that were set, each group and key once. To a contract it is their list, in the order in which they were first set.
pub struct LimitTable {
    limits: IndexMap<GroupKey, KeptLimit>,
    /// The number of the day, so that a new day needs no pass over the limits.
    day: u64,
}

impl Drop for LimitTable {
    fn drop(self) {
        let LimitTable { limits, day: _ } = self;
        drop(limits);
    }
}

impl Model for LimitTable {
    ghost use Rattle.std.specs.Prelude.{List};
    ghost use Rattle.gu_limits.specs.Limits.{GroupLimit};

    ghost Value = { List GroupLimit };

    ghost use Rattle.gu_limits.specs.Kept.{limits_kept, IsKept};

    ghost view = { limits_kept };

    ghost invariant = { IsKept };
}

impl KeptLimit {
    /// Returns the lots used on a day.
    fn used_on(&self, day: u64) -> u64
        ensures { result ≡ used_on day self.now }
    {
        if self.day == day { self.used } else { 0 }
    }
}

impl LimitTable {
    /// Returns an empty table.
    pub fn new(alloc: Global) -> Self
        ensures { result ≡ [] }
    {
        LimitTable {
            limits: IndexMap::new(alloc),
            day: 0,
        }
    }

    /// Shows the prover: each group and key has at most one limit, and neither it nor its use is above 1,000,000,000 lots.
    pub fn rules(&self)
        ensures once { IsDistinct same_limit self.now }
        ensures limits { (group : GroupOf) (key : LimitKeyOf) → limit_in self.now group key ≤ MOST_LIMIT }
        ensures uses { (group : GroupOf) (key : LimitKeyOf) → used_in self.now group key ≤ MOST_LIMIT }
    {
        // Shows the prover: the keys of the map are distinct.
        let _ = self.limits.len();
    }

    /// Returns a limit's lots and the lots of it used today, if it was set.
    fn limit_and_use(&self, group: &Group, key: &LimitKey) -> Option<(u64, u64)>
        ensures { result ≡ limit_and_use self.now group.now key.now }
    {
        let on = GroupKey {
            group: *group,
            key: *key,
        };
        let kept = self.limits.get(&on)?;
        Some((kept.limit, kept.used_on(self.day)))
    }

    /// Returns a limit as it is now, if it was set.
    pub fn row(&self, group: &Group, key: &LimitKey) -> Option<LimitRow>
        ensures { result ≡ row_in self.now group.now key.now }
    {
        let (limit, used) = self.limit_and_use(group, key)?;
        Some(LimitRow {
            key: *key,
            limit,
            used,
            room: limit.saturating_sub(used),
        })
    }

    /// Returns the room left under a limit: 0 if it was never set.
    pub fn room(&self, group: &Group, key: &LimitKey) -> u64
        ensures { result ≡ room_in self.now group.now key.now }
    {
        let (room, _) = self.room_and_number(group, key);
        room
    }

    /// Returns the room, and the number of the limit: 0 if it was never set.
    fn room_and_number(&self, group: &Group, key: &LimitKey) -> (u64, usize)
        ensures room { result.0 ≡ room_in self.now group.now key.now }
        ensures number { result.1 ≡ number_in self.now group.now key.now }
    {
        let on = GroupKey {
            group: *group,
            key: *key,
        };
        let Some((place, _, kept)) = self.limits.get_full(&on) else {
            return (0, 0);
        };
        // Shows the prover: an index is below the number of limits.
        let _ = self.limits.len();
        let room = kept.limit.saturating_sub(kept.used_on(self.day));
        (room, place + 1)
    }

    /// Returns the limits of a path in a group if each has room for these lots, or else the first key that has less.
    pub fn limits_with_room(
        &self,
        group: &Group,
        path: &Path,
        lots: u64,
    ) -> Result<PathLimits, LimitKey>
        ensures limits { IfOk result (AreLimitsOf self.now group.now path.now) }
        ensures short { result_err result ≡ find (λ key. nat_lt (room_in self.now group.now key) lots) path.now }
    {
        let mut limits = PathLimits::none();
        for (at, key) in path.keys().iter().enumerate() {
            let (room, number) = self.room_and_number(group, key);
            if room < lots {
                return Err(*key);
            }
            limits.numbers[at] = number;
        }
        Ok(limits)
    }

    /// Returns the limits of a path in a group.
    pub fn limits_of(&self, group: &Group, path: &Path) -> PathLimits
        ensures { AreLimitsOf self.now group.now path.now result }
    {
        match self.limits_with_room(group, path, 0) {
            Ok(limits) => limits,
            Err(_) => PathLimits::none(),
        }
    }

    /// Sets a limit. Its use is unchanged, even if it exceeds the new limit.
    pub fn set(&mut self, group: &Group, key: &LimitKey, lots: u64) -> Result<(), SetError>
        ensures rows { OnOk result (self.new ≡ limits_after_setting self.old group.now key.now lots) }
        ensures known { OnOk result ((at : GroupOf) (on : LimitKeyOf) →
            has_limit self.new at on ≡ (same_place at on group.now key.now || has_limit self.old at on)) }
        ensures limits { OnOk result ((at : GroupOf) (on : LimitKeyOf) →
            limit_in self.new at on ≡ (if same_place at on group.now key.now then lots else limit_in self.old at on)) }
        ensures uses { OnOk result (SameUses self.old self.new) }

        ensures within { OnOk result (lots ≤ MOST_LIMIT) }
        ensures too_high { IsErrOf result SetError.TooHigh ↔ (MOST_LIMIT < lots) }
        ensures refused { OnErr result (self.new ≡ self.old) }
    {
        if lots > MOST_LIMIT {
            return Err(SetError::TooHigh);
        }
        self.set_within(group, key, lots)?;
        Ok(())
    }

    /// Sets a limit whose lots are known to be within the maximum.
    pub fn set_within(&mut self, group: &Group, key: &LimitKey, lots: u64) -> Result<(), AllocError>
        requires { lots ≤ MOST_LIMIT }
        ensures set { OnOk result (Sets self.old self.new group.now key.now lots) }
        ensures refused { OnErr result (self.new ≡ self.old) }
    {
        put(&mut self.limits, group, key, lots, self.day)?;
        Ok(())
    }

    /// Charges lots to every limit of a path in a group.
    pub fn charge(&mut self, group: &Group, path: &Path, lots: u64)
        requires room { All (λ key. lots ≤ room_in self.old group.now key) path.now }
        requires once { IsDistinct key_eq path.now }
        ensures rows { self.new ≡ limits_after_charge self.old group.now path.now lots }
        ensures limits { SameLimits self.old self.new }
        ensures uses { (at : GroupOf) (on : LimitKeyOf) →
            used_in self.new at on ≡ used_in self.old at on + lots_under group.now path.now lots at on }
    {
        let limits = self.limits_of(group, path);
        self.charge_at(&limits, lots);
    }

    /// Charges lots to these limits without looking them up.
    pub fn charge_at(&mut self, limits: &PathLimits, lots: u64)
        requires { (group : GroupOf) × (keys : List LimitKeyOf) × MayCharge self.old group keys lots limits.now }
        ensures { (group : GroupOf) (keys : List LimitKeyOf) → MayCharge self.old group keys lots limits.now → Charges self.old self.new group keys lots }
    {
        for number in &limits.numbers {
            if *number > 0 {
                self.charge_limit(*number - 1, lots);
            }
        }
    }

    /// Charges lots to the limit at an index.
    fn charge_limit(&mut self, place: usize, lots: u64)
        requires known { place < length self.old }
        requires room { ForSome (slice_get self.old place) (λ l. lots ≤ l.limit - l.used) }
        ensures { ForSome (slice_get self.old place) (λ l. self.new ≡ limits_after_charge self.old l.group (l.key ∷ []) lots) }
    {
        let used = self.used_at(place);
        write_use(&mut self.limits, place, self.day, used + lots);
    }

    /// Returns lots that were charged today to every limit of a path in a group.
    pub fn give_back(&mut self, group: &Group, path: &Path, lots: u64)
        requires used { All (λ key. lots ≤ used_in self.old group.now key) path.now }
        requires once { IsDistinct key_eq path.now }
        ensures rows { self.new ≡ limits_after_return self.old group.now path.now lots }
        ensures limits { SameLimits self.old self.new }
        ensures uses { (at : GroupOf) (on : LimitKeyOf) →
            used_in self.new at on + lots_under group.now path.now lots at on ≡ used_in self.old at on }
    {
        let limits = self.limits_of(group, path);
        self.give_back_at(&limits, lots);
    }

    /// Returns lots to these limits without looking them up.
    pub fn give_back_at(&mut self, limits: &PathLimits, lots: u64)
        requires { (group : GroupOf) × (keys : List LimitKeyOf) × MayReturn self.old group keys lots limits.now }
        ensures { (group : GroupOf) (keys : List LimitKeyOf) → MayReturn self.old group keys lots limits.now → Returns self.old self.new group keys lots }
    {
        for number in &limits.numbers {
            if *number > 0 {
                self.return_to_limit(*number - 1, lots);
            }
        }
    }

    /// Returns lots to the limit at an index.
    fn return_to_limit(&mut self, place: usize, lots: u64)
        requires known { place < length self.old }
        requires used { ForSome (slice_get self.old place) (λ l. lots ≤ l.used) }
        ensures { ForSome (slice_get self.old place) (λ l. self.new ≡ limits_after_return self.old l.group (l.key ∷ []) lots) }
    {
        let used = self.used_at(place);
        write_use(&mut self.limits, place, self.day, used - lots);
    }

    /// Returns the lots used of the limit at an index.
    fn used_at(&self, place: usize) -> u64
        requires { place < length self.now }
        ensures { ForSome (slice_get self.now place) (λ l. result ≡ l.used) }
    {
        self.limits[place].used_on(self.day)
    }

    /// Starts a new day: the limits stay, and nothing of them is used.
    pub fn new_day(&mut self)
        ensures rows { self.new ≡ limits_of_new_day self.old }
        ensures limits { SameLimits self.old self.new }
        ensures uses { (group : GroupOf) (key : LimitKeyOf) → used_in self.new group key ≡ 0 }
    {
        if self.day < u64::MAX {
            self.day += 1;
        } else {
            forget_uses(&mut self.limits);
            self.day = 0;
        }
    }
}

/// Sets a limit in its place, or last if it is new.
fn put(
    limits: &mut IndexMap<GroupKey, KeptLimit>,
    group: &Group,
    key: &LimitKey,
    lots: u64,
    day: u64,
) -> Result<(), AllocError>
    ensures put { OnOk result (limits.new.entries
        ≡ insert_entry ⟦<GroupKey as PartialEq>⟧.eq limits.old.entries (record { group = group.now; key = key.now })
        (set_to day lots (get ⟦<GroupKey as PartialEq>⟧.eq limits.old (record { group = group.now; key = key.now })))) }
    ensures apart { OnOk result (IsUnique ⟦<GroupKey as PartialEq>⟧.eq limits.new) }
    ensures refused { OnErr result (limits.new.entries ≡ limits.old.entries) }
{
    let on = GroupKey {
        group: *group,
        key: *key,
    };
    let kept = limits.entry(on)?.or_insert(KeptLimit {
        limit: lots,
        used: 0,
        day,
    });
    kept.limit = lots;
    Ok(())
}

/// Writes the use on a day of the limit at an index.
fn write_use(limits: &mut IndexMap<GroupKey, KeptLimit>, place: usize, day: u64, used: u64)
    requires { place < index_map_len limits.old }
    ensures written { ForSome (slice_get (values limits.old) place) (λ kept.
        limits.new.entries ≡ set_value_at limits.old.entries place (record kept { used = used; day = day })) }
    ensures apart { IsUnique ⟦<GroupKey as PartialEq>⟧.eq limits.old }
{
    // Shows the prover: the keys of the map are distinct.
    let _ = limits.len();
    let kept = &mut limits[place];
    kept.used = used;
    kept.day = day;
}

/// Resets all uses to 0, on day 0.
fn forget_uses(limits: &mut IndexMap<GroupKey, KeptLimit>)
    ensures { limits.new.entries ≡ map unused limits.old.entries }
{
    for place in 0..limits.len() {
        let kept = &mut limits[place];
        kept.used = 0;
        kept.day = 0;
    }
}
