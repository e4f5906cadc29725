//! Commits.

ghost use Rattle.std.specs.Prelude.{◌≡◌, ℕ, List, Option, None, Some, IfErr, IfOk, OnErr, slice_index_or};
ghost use Rattle.gu_book.specs.Commits.{sweep_of};
ghost use Rattle.gu_world.specs.Looks.{AreTrue, Grows, IsTrueLook, look_by, state_in, view_proposed};
ghost use Rattle.gu_world.specs.Steps.{Look, committed_for, committed_on, look_of};
ghost use Rattle.gu_world.specs.declared.held.Work.TheVariants.{Ready};

use crate::held::{Held, Work};
use crate::looks::Looks;
use crate::outcome::Outcome;
use crate::worker::Worker;
use gu_book::{Book, CommitError};
use gu_flow::Proposal;
use gu_view::View;
use std::alloc::AllocError;

/// Returns the view of a proposal, and drops the rest.
fn into_view(proposal: Proposal) -> View
    ensures { result ≡ proposal.view }
{
    let (view, takes, cut, _) = proposal.into_parts();
    drop(takes);
    drop(cut);
    view
}

/// Commits a proposal for a true look. Returns its view, or all of it if an allocation fails.
fn commit(book: &mut Book, proposal: Proposal) -> Result<(Outcome, View), Proposal>
    requires { (seen : ℕ) × IsTrueLook book.old (record { seen = seen; work = Ready proposal }) }
    ensures committed { IfOk result (λ r. (seen : ℕ) (looks : List (Option Look))
        → IsTrueLook book.old (record { seen = seen; work = Ready proposal })
        → (r.0, record { book = book.new; looks = looks })
        ≡ committed_for (record { book = book.old; looks = looks }) (look_by seen (Ready proposal)) (sweep_of proposal)) }
    ensures view { IfOk result (λ r. r.1 ≡ proposal.view) }
    ensures grows { Grows book.old book.new }
    ensures handed_back { IfErr result (λ back. back ≡ proposal) }
    ensures refused { OnErr result (book.new ≡ book.old) }
{
    // Shows the prover: the history is legal.
    let _entries = book.history().len();
    match book.commit_seen(proposal) {
        Ok((receipt, view)) => Ok((Outcome::Swept(receipt), view)),
        Err((error, proposal)) => match error {
            CommitError::Memory => Err(proposal),
            CommitError::Full => Ok((Outcome::Full, into_view(proposal))),
            CommitError::Stale { seen, now } => {
                Ok((Outcome::Stale { seen, now }, into_view(proposal)))
            }
            CommitError::Foreign => Ok((Outcome::Foreign, into_view(proposal))),
        },
    }
}

/// Commits a worker's proposal, and returns the view that it was for.
pub fn commit_for(
    book: &mut Book,
    looks: &mut Looks,
    worker: Worker,
) -> Result<(Outcome, Option<View>), AllocError>
    requires { AreTrue book.old looks.old }
    ensures commits { IfOk result (λ r. (r.0, state_in book.new looks.new)
        ≡ committed_on (look_of (state_in book.old looks.old) worker) (state_in book.old looks.old) worker) }
    ensures view { IfOk result (λ r. r.1 ≡ view_proposed (slice_index_or looks.old worker None)) }
    ensures still { AreTrue book.new looks.new }
    ensures refused { OnErr result ((book.new ≡ book.old) × (looks.new ≡ looks.old)) }
{
    let Some(held) = looks.take(worker) else {
        return Ok((Outcome::Nothing, None));
    };
    let Held { seen, work } = held;
    match work {
        Work::Looking(view) => {
            let work = Work::Looking(view);
            looks.put(worker, Held { seen, work });
            Ok((Outcome::Nothing, None))
        }
        Work::Ready(proposal) => match commit(book, proposal) {
            Ok((outcome, view)) => Ok((outcome, Some(view))),
            Err(proposal) => {
                let work = Work::Ready(proposal);
                looks.put(worker, Held { seen, work });
                Err(AllocError)
            }
        },
    }
}
