//! A worker's work in hand.

use gu_flow::Proposal;
use gu_view::View;

/// The view that a worker saw, or its proposal for that view.
#[derive(Drop)]
pub enum Work {
    Looking(View),
    Ready(Proposal),
}

/// A worker's work in hand, and the number of entries that the book had when the worker looked.
#[derive(Drop)]
pub struct Held {
    pub seen: u64,
    pub work: Work,
}

impl Held {
    ghost use Rattle.std.specs.Prelude.{◌≡◌};
    ghost use Rattle.gu_world.specs.Looks.{view_in};

    /// Returns the view that was seen.
    pub fn view(&self) -> &View
        ensures { result.now ≡ view_in self.now.work }
    {
        match &self.work {
            Work::Looking(view) => view,
            Work::Ready(proposal) => proposal.view(),
        }
    }
}
