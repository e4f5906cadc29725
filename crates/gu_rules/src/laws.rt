//! Consequences of the definitions alone.

ghost use Rattle.std.specs.Prelude.{◌≡◌, ◌<◌, ◌≤◌, ◌↔◌, ◌++◌, ◌∷◌, [], ℕ, true, false, AllPairs, length, List, Some, slice_get, take};
ghost use Rattle.gu_terms.specs.Refusals.{number_of};
ghost use Rattle.gu_terms.specs.declared.command.Command.{Command as CommandOf};
ghost use Rattle.gu_terms.specs.declared.entry.Entry.{Entry as EntryOf};
ghost use Rattle.gu_terms.specs.declared.firm.FirmId.{FirmId as FirmOf};
ghost use Rattle.gu_terms.specs.declared.group.Group.{Group as GroupOf};
ghost use Rattle.gu_terms.specs.declared.refusal.Refusal.{Refusal as RefusalOf};
ghost use Rattle.gu_terms.specs.declared.reply.Reply.TheVariants.{Denied};
ghost use Rattle.gu_ref.specs.Tables.{Tables};
ghost use Rattle.gu_rules.specs.Answer.{State, answer_in, tests_of};
ghost use Rattle.gu_rules.specs.BookState.{BookState};
ghost use Rattle.gu_rules.specs.Legal.{MayFollow};
ghost use Rattle.gu_rules.specs.Notices.{notices_between, notices_of};
ghost use Rattle.gu_rules.specs.Versions.{touches, touching, touching_after, version_of};
ghost use Rattle.gu_rules.specs.Views.{group_view};

/// A command's refusals are tested in the order of their numbers: if several conditions hold, the reply is the refusal with the least
/// number.
pub fn the_least_refusal_is_given()
    ensures ascend { (reference : Tables) (state : State) (command : CommandOf)
        → AllPairs (λ a b. number_of a.1 ≤ number_of b.1) (tests_of reference state command) }
    ensures least { (reference : Tables) (state : State) (command : CommandOf) (given other : RefusalOf) (place : ℕ)
        → answer_in reference state command ≡ Denied given
        → slice_get (tests_of reference state command) place ≡ Some (true, other)
        → number_of given ≤ number_of other }
{}

/// Later entries add their touches after the earlier ones.
pub fn later_touches_come_after()
    ensures { (first later : List EntryOf) (group : GroupOf)
        → touching (first ++ later) group ≡ touching first group ++ touching_after first group later }
{}

/// The version of a group after the first entries equals that after all entries if and only if none of the others touches the group.
pub fn equal_versions_are_untouched()
    ensures { (history : List EntryOf) (first : ℕ) (group : GroupOf)
        → (version_of (take first history) group ≡ version_of history group)
        ↔ ((place : ℕ) (entry : EntryOf) → first ≤ place → slice_get history place ≡ Some entry → touches (take place history) group entry ≡ false) }
{}

/// An entry that may follow and doesn't touch a group leaves the group's view unchanged.
pub fn an_entry_elsewhere_leaves_the_view()
    ensures { (reference : Tables) (history : List EntryOf) (entry : EntryOf) (group : GroupOf)
        → MayFollow reference history entry
        → touches history group entry ≡ false
        → group_view reference (history ++ entry ∷ []) group ≡ group_view reference history group }
{}

/// A firm's notices up to a number, followed by those from that number on, are all of its notices. This holds for two batches if the second
/// begins where the first ends, and for all entries.
pub fn stretches_join_to_the_whole()
    ensures between { (book : BookState) (firm : FirmOf) (from mid next : ℕ) → from ≤ mid → mid ≤ next
        → notices_between book firm from mid ++ notices_between book firm mid next ≡ notices_between book firm from next }
    ensures rest { (book : BookState) (firm : FirmOf) (from mid : ℕ) → from ≤ mid
        → notices_between book firm from mid ++ notices_of book firm mid ≡ notices_of book firm from }
    ensures whole { (book : BookState) (firm : FirmOf) (from next : ℕ) → length book.history < next
        → notices_between book firm from next ≡ notices_of book firm from }
{}
