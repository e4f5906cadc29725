//! Gates, which propose a desk's sweeps.

ghost use Rattle.std.specs.Prelude.{◌≡◌, IfErr, IfOk};
ghost use Rattle.gu_flow.specs.Proposals.{IsSound};
ghost use Rattle.gu_view.specs.View.{IsNested};

use gu_flow::{Proposal, propose};
use gu_terms::Group;
use gu_view::View;
use std::alloc::{AllocError, Global};

/// A gate proposes sweeps of views while no lock is held. It promises what `gu_flow::propose` does.
pub trait Gate {
    /// Returns the proposal of a greatest sweep of a nested view.
    fn propose(&self, alloc: Global, view: View) -> Result<Proposal, (AllocError, View)>
        requires { IsNested view }
        ensures view { IfOk result (λ proposal. proposal.view ≡ view) }
        ensures sound { IfOk result (λ proposal. IsSound proposal) }
        ensures refused { IfErr result (λ e. e.1 ≡ view) };
}

/// A gate that only proposes.
pub struct Direct;

impl Gate for Direct {
    fn propose(&self, alloc: Global, view: View) -> Result<Proposal, (AllocError, View)> {
        propose(alloc, view)
    }
}

/// A plan for a sweep: its group, the most tries, and the gate that proposes.
#[derive(Drop)]
pub struct SweepPlan<'g, G: Gate> {
    pub group: Group,
    pub tries: u32,
    pub gate: &'g G,
}
