//! Entering sweeps.

ghost use Rattle.std.specs.Prelude.{◌≡◌, ◌<◌, ◌^◌, IfOk, MatchOption, OnOk, map};
ghost use Rattle.std.specs.List.{AllByRecursion};
ghost use Rattle.gu_terms.specs.Histories.{lots_swept};
ghost use Rattle.gu_ref.specs.Tables.{Tables};
ghost use Rattle.gu_rules.specs.Sweeps.{IsSweepOf};
ghost use Rattle.gu_book.specs.Deeds.{IsFound};
ghost use Rattle.gu_book.specs.Effects.{SameAnswers};
ghost use Rattle.gu_book.specs.Commits.{sweep_of};
ghost use Rattle.gu_book.specs.Moving.{AreReady, IsShownOpen, MayMove, MovesAll, moved_lots, taken_by};

use crate::deed::Moved;
use crate::totals::{Totals, Transfer};
use gu_flow::Proposal;
use gu_terms::{Entry, History, KeptSweep, Receipt, SweepEntry, Take};
use gu_view::View;
use std::alloc::{AllocError, Global};

/// Returns the stored form of a proposal's sweep. Made before `Book::enter_seen`, it saves that call from copying anything.
pub fn kept_sweep(alloc: Global, proposal: &Proposal) -> Result<KeptSweep, AllocError>
    ensures { IfOk result (λ kept. kept ≡ sweep_of proposal.now) }
{
    let group = proposal.view().group();
    KeptSweep::of(
        alloc,
        group,
        proposal.takes(),
        proposal.cut(),
        proposal.lots(),
    )
}

/// Returns the receipt for a proposal whose sweep was entered with this number, and the proposal's view. It allocates nothing.
pub fn receipt_and_view(number: u64, proposal: Proposal) -> (Receipt, View)
    ensures number { result.0.number ≡ number }
    ensures entry { result.0.entry ≡ Entry.Swept (sweep_of proposal) }
    ensures view { result.1 ≡ proposal.view }
{
    let (view, takes, cut, lots) = proposal.into_parts();
    let sweep = SweepEntry {
        group: view.group(),
        takes,
        cut,
        lots,
    };
    let receipt = Receipt {
        number,
        entry: Entry::Swept(sweep),
    };
    (receipt, view)
}

/// Returns only the receipt. The proposal's view is dropped here rather than while a book is held.
pub fn swept_receipt(number: u64, proposal: Proposal) -> Receipt
    ensures number { result.number ≡ number }
    ensures entry { result.entry ≡ Entry.Swept (sweep_of proposal) }
{
    let (receipt, view) = receipt_and_view(number, proposal);
    drop(view);
    receipt
}

/// Returns the total lots of all sweeps in a history.
pub fn sum_swept(history: &History) -> u64
    requires { lots_swept history.now < 2 ^ 64 }
    ensures { result ≡ lots_swept history.now }
{
    let mut lots = 0;
    for place in 0..history.len() {
        lots += history.lots_at(place);
    }
    lots
}

/// Shows the prover: a proposal's sweep is a sweep of its view.
pub fn asks_for_a_sweep(proposal: &Proposal)
    ensures { IsSweepOf proposal.now.view (sweep_of proposal.now) }
{
    let takes = proposal.takes();
    let cut = proposal.cut();
    let _ = proposal.lots();
    // Reading the lists shows the prover that they are in order.
    let _ = takes.as_slice();
    let _ = cut.keys();
    let _ = cut.offers();
}

/// Returns what a take moves, with everything that is looked up of its offer.
fn moved_by(totals: &Totals, view: &View, take: &Take) -> Option<Moved>
    ensures { (reference : Tables) → IsShownOpen reference totals.now view.now.offers take.now
        → MatchOption result ⊥ (λ m. (moved_lots m ≡ take.now) × IsFound reference totals.now m) }
{
    let offer = totals.offers.get(take.offer)?;
    let shown = view.offer(take.offer)?;
    Some(Moved {
        number: take.offer,
        group: offer.group,
        account: offer.account,
        report: totals.terms_given_up(take.offer),
        limits: totals.limits.limits_of(&offer.group, &shown.path),
        lots: take.lots,
    })
}

/// Returns the transfers for takes from a view's offers, and makes their rows. No answer changes.
pub fn transfers_of(
    alloc: Global,
    totals: &mut Totals,
    view: &View,
    takes: &[Take],
) -> Result<Vec<Transfer>, AllocError>
    ensures ready { IfOk result (λ transfers. (reference : Tables)
        → AllByRecursion (IsShownOpen reference totals.old view.now.offers) takes.now
        → AreReady reference totals.new takes.now transfers.items) }
    ensures same { SameAnswers totals.old totals.new }
{
    let mut transfers = Vec::with_capacity(alloc, takes.len())?;
    for take in takes {
        // A current view shows each of its sweep's offers, so each is found.
        let Some(moved) = moved_by(totals, view, take) else {
            continue;
        };
        let rows = totals.make_way(&moved)?;
        transfers.push(Transfer { moved, rows })?;
    }
    Ok(transfers)
}

/// Carries out transfers, one after another. It allocates nothing.
pub fn carry_out(totals: &mut Totals, transfers: &[Transfer])
    requires { (reference : Tables) × MayMove reference totals.old transfers.now }
    ensures { (reference : Tables) → MayMove reference totals.old transfers.now
        → MovesAll reference totals.old totals.new (map taken_by transfers.now) }
{
    for transfer in transfers {
        totals.carry_out(&transfer.moved, &transfer.rows);
    }
}
