//! Proposals: the greatest claim sweep of a view, with the cut that proves it.

ghost use Rattle.std.specs.Prelude.{◌≡◌, ◌<◌, ◌^◌, All, Ok, IfErr, IfOk, sum_by};
ghost use Rattle.gu_flow.specs.Proposals.{IsSound};
ghost use Rattle.gu_view.specs.Check.{verdict};
ghost use Rattle.gu_view.specs.View.{IsNested};

use crate::allotment::Allotment;
use crate::beginning::begin;
use crate::cutting::cut_by;
use crate::layout::lay_out;
use crate::maximum::maximize;
use crate::network::Network;
use crate::oldest::give_oldest;
use crate::rounds::TwoWay;
use crate::sharing::share_out;
use gu_terms::{Cut, Take, Takes};
use gu_view::View;
use std::alloc::{AllocError, Global};
use std::marker::Model;

/// The greatest takes of a view that are oldest first over the group, and the cut nearest to the source, with exactly their room.
pub struct Proposal {
    view: View,
    takes: Takes,
    cut: Cut,
    lots: u64,
}

impl Model for Proposal {
    ghost use Rattle.gu_flow.specs.Proposals.{ProposedSweep, IsSound};

    ghost Value = { ProposedSweep };

    ghost view = { λ p. record { view = p.view; takes = p.takes; cut = p.cut; lots = p.lots } };

    ghost invariant = { λ p. IsSound (record { view = p.view; takes = p.takes; cut = p.cut; lots = p.lots }) };
}

// By hand, so that a proposal's owner drops it with one call.
impl Drop for Proposal {
    fn drop(self) {
        let Proposal {
            view,
            takes,
            cut,
            lots: _,
        } = self;
        drop(view);
        drop(takes);
        drop(cut);
    }
}

impl Proposal {
    /// Returns the view that it was made for.
    pub fn view(&self) -> &View
        ensures view { result.now ≡ self.now.view }
        ensures sound { IsSound self.now }
    {
        &self.view
    }

    /// Returns the takes, which name only offers from which lots are taken.
    pub fn takes(&self) -> &Takes
        ensures takes { result.now ≡ self.now.takes }
        ensures sound { IsSound self.now }
    {
        &self.takes
    }

    /// Returns the cut: the keys and offers whose room bounds every sweep of the view.
    pub fn cut(&self) -> &Cut
        ensures cut { result.now ≡ self.now.cut }
        ensures sound { IsSound self.now }
    {
        &self.cut
    }

    /// Returns the total lots taken, which equals the cut's room.
    pub fn lots(&self) -> u64
        ensures lots { result ≡ self.now.lots }
        ensures sound { IsSound self.now }
        ensures checked { verdict self.now.view self.now.takes self.now.cut ≡ Ok self.now.lots }
    {
        self.lots
    }

    /// Returns the view, the takes, the cut and the total lots taken.
    pub fn into_parts(self) -> (View, Takes, Cut, u64)
        ensures view { result.0 ≡ self.view }
        ensures takes { result.1 ≡ self.takes }
        ensures cut { result.2 ≡ self.cut }
        ensures lots { result.3 ≡ self.lots }
        ensures sound { IsSound (record { view = result.0; takes = result.1; cut = result.2; lots = result.3 }) }
        ensures checked { verdict result.0 result.1 result.2 ≡ Ok result.3 }
    {
        let Proposal {
            view,
            takes,
            cut,
            lots,
        } = self;
        (view, takes, cut, lots)
    }

    /// Returns a copy.
    pub fn copy(&self) -> Result<Proposal, AllocError>
        ensures { IfOk result (λ proposal. proposal ≡ self.now) }
    {
        let view = self.view.copy()?;
        let takes = self.takes.copy()?;
        let cut = self.cut.copy()?;
        Ok(Proposal {
            view,
            takes,
            cut,
            lots: self.lots,
        })
    }
}

/// Returns the total lots of the takes.
fn sum_of(takes: &[Take]) -> u64
    requires { sum_by (λ t. t.lots) takes.now < 2 ^ 64 }
    ensures { result ≡ sum_by (λ t. t.lots) takes.now }
{
    takes.iter().map(|take| take.lots).sum()
}

/// Returns the takes, their cut and their total lots, from a maximum flow in the view's network.
fn sweep(alloc: Global, view: &View) -> Result<(Takes, Cut, u64), AllocError>
    requires { IsNested view.now }
    ensures { IfOk result (λ s. IsSound (record { view = view.now; takes = s.0; cut = s.1; lots = s.2 })) }
{
    let arcs = lay_out(alloc, view)?;
    let net = Network::new(alloc, arcs, view.rooms().len() + 2)?;
    let first = begin(alloc, view, &net)?;
    let mut allotment = Allotment::new(alloc, &net, first)?;
    let mut searches = TwoWay::new(alloc, net.last_ends().len())?;
    maximize(alloc, &net, &mut allotment, &mut searches.ahead)?;
    let cut = cut_by(alloc, view, net.arcs(), &searches.ahead.marks)?;
    searches.ahead.clear();
    let flow = give_oldest(alloc, view, &net, allotment, &mut searches)?;
    let takes = share_out(alloc, view, flow)?;
    let lots = sum_of(takes.as_slice());
    Ok((takes, cut, lots))
}

/// Returns the greatest claim sweep of a nested view that is oldest first over the group. It holds no lock and waits for nothing.
pub fn propose(alloc: Global, view: View) -> Result<Proposal, (AllocError, View)>
    requires { IsNested view }
    ensures view { IfOk result (λ proposal. proposal.view ≡ view) }
    ensures sound { IfOk result (λ proposal. IsSound proposal) }
    ensures named { IfOk result (λ proposal. All (λ t. 0 < t.lots) proposal.takes) }
    ensures refused { IfErr result (λ e. e.1 ≡ view) }
{
    match sweep(alloc, &view) {
        Ok((takes, cut, lots)) => Ok(Proposal {
            view,
            takes,
            cut,
            lots,
        }),
        Err(refused) => Err((refused, view)),
    }
}
