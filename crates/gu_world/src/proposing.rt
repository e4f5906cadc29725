//! Proposals.

ghost use Rattle.std.specs.Prelude.{◌≡◌, IfErr, IfOk, OnErr};
ghost use Rattle.gu_rules.specs.BookState.{BookState};
ghost use Rattle.gu_rules.specs.Sweeps.{IsSweepOf};
ghost use Rattle.gu_book.specs.Commits.{sweep_of};
ghost use Rattle.gu_view.specs.View.{IsNested};
ghost use Rattle.gu_world.specs.Looks.{AreNested, AreTrue, state_in, view_in};
ghost use Rattle.gu_world.specs.Steps.{ProposesOn, look_of};
ghost use Rattle.gu_world.specs.declared.held.Work.TheVariants.{Looking};

use crate::held::{Held, Work};
use crate::looks::Looks;
use crate::outcome::Outcome;
use crate::worker::Worker;
use gu_flow::{Proposal, propose};
use gu_view::View;
use std::alloc::{AllocError, Global};

/// Returns the lots of a proposal, which is for a sweep of its view.
fn proposed_lots(proposal: &Proposal) -> u64
    ensures lots { result ≡ proposal.now.lots }
    ensures sweeps { IsSweepOf proposal.now.view (sweep_of proposal.now) }
{
    // Shows the prover: the takes ascend, and the cut names each key and each offer once.
    let _takes = proposal.takes().as_slice();
    let _keys = proposal.cut().keys();
    let _offers = proposal.cut().offers();
    proposal.lots()
}

/// Returns a proposal for a worker's view: the one that the worker has already, or a new one.
fn proposal_for(alloc: Global, work: Work) -> Result<Proposal, (AllocError, View)>
    requires { IsNested (view_in work) }
    ensures view { IfOk result (λ proposal. proposal.view ≡ view_in work) }
    ensures refused { IfErr result (λ e. work ≡ Looking e.1) }
{
    match work {
        Work::Ready(proposal) => Ok(proposal),
        Work::Looking(view) => propose(alloc, view),
    }
}

/// Makes a worker's proposal for the view that it saw.
pub fn propose_for(alloc: Global, looks: &mut Looks, worker: Worker) -> Result<Outcome, AllocError>
    requires { AreNested looks.old }
    ensures proposes { (book : BookState) → AreTrue book looks.old
        → IfOk result (λ outcome. ProposesOn (look_of (state_in book looks.old) worker) (state_in book looks.old) worker outcome (state_in book looks.new)) }
    ensures still { (book : BookState) → AreTrue book looks.old → AreTrue book looks.new }
    ensures refused { OnErr result (looks.new ≡ looks.old) }
{
    let Some(held) = looks.take(worker) else {
        return Ok(Outcome::Nothing);
    };
    let Held { seen, work } = held;
    match proposal_for(alloc, work) {
        Ok(proposal) => {
            let lots = proposed_lots(&proposal);
            let work = Work::Ready(proposal);
            looks.put(worker, Held { seen, work });
            Ok(Outcome::Proposed(lots))
        }
        Err((refused, view)) => {
            let work = Work::Looking(view);
            looks.put(worker, Held { seen, work });
            Err(refused)
        }
    }
}
