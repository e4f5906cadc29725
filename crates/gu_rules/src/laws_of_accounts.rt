//! Laws of accounts, limits and views in every legal history.

ghost use Rattle.std.specs.Prelude.{◌≡◌, ◌<◌, ◌≤◌, ◌++◌, ◌∷◌, [], ℕ, false, length, take, slice_get, List, Some};
ghost use Rattle.gu_terms.specs.declared.account.AccountId.{AccountId as AccountOf};
ghost use Rattle.gu_terms.specs.declared.entry.Entry.{Entry as EntryOf};
ghost use Rattle.gu_terms.specs.declared.group.Group.{Group as GroupOf};
ghost use Rattle.gu_terms.specs.declared.limit_key.LimitKey.{LimitKey as KeyOf};
ghost use Rattle.gu_terms.specs.declared.side.Side.{Side as SideOf};
ghost use Rattle.gu_terms.specs.declared.symbol.Symbol.{Symbol as SymbolOf};
ghost use Rattle.gu_ref.specs.Rules.{IsSound};
ghost use Rattle.gu_ref.specs.Tables.{Tables};
ghost use Rattle.gu_rules.specs.Legal.{IsLegal, MayFollow};
ghost use Rattle.gu_rules.specs.Limits.{limit_of, use_of};
ghost use Rattle.gu_rules.specs.Offers.{standing_of};
ghost use Rattle.gu_rules.specs.Positions.{LongIsShort, moved_out, traded};
ghost use Rattle.gu_rules.specs.Reports.{reports_of};
ghost use Rattle.gu_rules.specs.Versions.{touches};
ghost use Rattle.gu_rules.specs.Views.{group_view};

/// No more lots leave an account, on one side of an instrument, than trades brought to it there.
pub fn no_more_leaves_an_account_than_it_traded()
    ensures { (reference : Tables) (history : List EntryOf) (side : SideOf) (account : AccountOf) (symbol : SymbolOf)
        → IsLegal reference history
        → moved_out (reports_of history) (standing_of history) side account symbol ≤ traded (reports_of history) side account symbol }
{}

/// If an entry increases the use of a key, that use is at most the key's limit: nothing is charged above the limit.
pub fn no_more_is_charged_than_a_limit_allows()
    ensures { (reference : Tables) (history : List EntryOf) (entry : EntryOf) (group : GroupOf) (key : KeyOf)
        → IsLegal reference history → length history < 1000000 → MayFollow reference history entry
        → use_of reference history group key < use_of reference (history ++ entry ∷ []) group key
        → use_of reference (history ++ entry ∷ []) group key ≤ limit_of (history ++ entry ∷ []) group key }
{}

/// Over the reference's accounts, as many lots of each instrument are held long as short.
pub fn as_many_lots_are_held_long_as_short()
    ensures { (reference : Tables) (history : List EntryOf) → IsSound reference → IsLegal reference history
        → LongIsShort (record { reference = reference; history = history }) }
{}

/// If no entry from a position on touches a group, the group's view is unchanged.
pub fn entries_elsewhere_leave_the_view()
    ensures { (reference : Tables) (history : List EntryOf) (first : ℕ) (group : GroupOf)
        → IsLegal reference history
        → ((place : ℕ) (entry : EntryOf) → first ≤ place → slice_get history place ≡ Some entry → touches (take place history) group entry ≡ false)
        → group_view reference history group ≡ group_view reference (take first history) group }
{}
