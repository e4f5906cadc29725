//! Laws of views and cuts.

ghost use Rattle.std.specs.Prelude.{◌≡◌, ℕ, ◌≤◌, All};
ghost use Rattle.gu_terms.specs.Cuts.{CutLists};
ghost use Rattle.gu_view.specs.Cut.{Covers, IsLeastCut, room_of};
ghost use Rattle.gu_view.specs.Nearest.{AreSame, IsNearestCut, NeedsEach, held_at};
ghost use Rattle.gu_view.specs.Takes.{IsAdmissible, IsOldestFirst, IsOldestGreatest, total};
ghost use Rattle.gu_view.specs.View.{GroupView, IsNested, IsView};

/// No admissible takes exceed the room of a cut that covers.
pub fn cut_bounds_takes()
    ensures { (view : GroupView) (cut : CutLists) (lots : ℕ → ℕ)
        → IsView view
        → IsAdmissible view lots
        → Covers view cut
        → total view.offers lots ≤ room_of view cut }
{}

/// If two takes are oldest first over the group among the greatest, they give each offer of the view the same lots.
pub fn oldest_greatest_is_one()
    ensures { (view : GroupView) (lots others : ℕ → ℕ)
        → IsOldestGreatest view lots
        → IsOldestGreatest view others
        → All (λ o. others o.number ≡ lots o.number) view.offers }
{}

/// Takes that are oldest first over the group among the greatest are oldest first within each agreement.
pub fn oldest_greatest_is_oldest_first()
    ensures { (view : GroupView) (lots : ℕ → ℕ)
        → IsView view
        → IsOldestGreatest view lots
        → IsOldestFirst view lots }
{}

/// Two nearest cuts of a view are the same cut.
pub fn nearest_cut_is_one()
    ensures { (view : GroupView) (cut others : CutLists)
        → IsView view
        → IsNearestCut view cut
        → IsNearestCut view others
        → AreSame cut others }
{}

/// The nearest cut holds each offer back as early as does any cut with the least room that needs each of its members.
pub fn nearest_cut_holds_earliest()
    ensures { (view : GroupView) (cut others : CutLists)
        → IsView view
        → IsNested view
        → IsNearestCut view cut
        → IsLeastCut view others
        → NeedsEach view others
        → All (λ o. held_at cut o ≤ held_at others o) view.offers }
{}
