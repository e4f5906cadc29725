//! The cut between the nodes that the last search reached and those that it didn't.

ghost use Rattle.std.specs.Prelude.{◌≡◌, ◌<◌, [], false, IfOk, OnOk, length};
ghost use Rattle.gu_flow.specs.CutArcs.{leads_out, cuts_key, cuts_offers, AreKeysCut, AreNoOffersCut, AreOffersCut, IsCutBy};
ghost use Rattle.gu_flow.specs.Searches.{is_reached};

use crate::network::Arc;
use crate::searching::Mark;
use gu_terms::Cut;
use gu_view::View;
use std::alloc::{AllocError, Global};

fn is_reached(marks: &[Mark], node: u32) -> bool
    ensures { result ≡ is_reached marks.now node }
{
    match marks.get(node as usize) {
        Some(mark) => 0 < mark.level,
        None => false,
    }
}

/// Returns whether an arc leads from a reached node to one that isn't.
fn leads_out(marks: &[Mark], arc: &Arc) -> bool
    ensures { result ≡ leads_out (is_reached marks.now) arc.now }
{
    is_reached(marks, arc.from) && !is_reached(marks, arc.to)
}

/// Returns whether the key of the room at an index is cut.
fn cuts_key(view: &View, arcs: &[Arc], marks: &[Mark], place: usize) -> bool
    requires room { place < length view.now.rooms }
    requires arc { place < length arcs.now }
    ensures { result ≡ cuts_key (is_reached marks.now) arcs.now view.now.rooms place }
{
    leads_out(marks, &arcs[place]) && arcs[place].capacity == view.rooms()[place].lots
}

/// Returns whether the offers under the agreement with the room at an index are cut.
fn cuts_offers(view: &View, arcs: &[Arc], marks: &[Mark], place: usize) -> bool
    requires room { place < length view.now.rooms }
    requires arc { place < length arcs.now }
    ensures { result ≡ cuts_offers (is_reached marks.now) arcs.now view.now.rooms place }
{
    leads_out(marks, &arcs[place]) && arcs[place].capacity != view.rooms()[place].lots
}

/// Adds the keys that are cut, and returns whether any offers are cut as well.
fn add_keys(cut: &mut Cut, view: &View, arcs: &[Arc], marks: &[Mark]) -> Result<bool, AllocError>
    requires arcs { length arcs.now ≡ length view.now.rooms }
    requires none { cut.old.keys ≡ [] }
    ensures keys { OnOk result (AreKeysCut view.now (is_reached marks.now) arcs.now cut.new.keys (length view.now.rooms)) }
    ensures offers { cut.new.offers ≡ cut.old.offers }
    ensures more { IfOk result (λ more. more ≡ false → AreNoOffersCut (is_reached marks.now) arcs.now view.now.rooms (length view.now.rooms)) }
{
    let mut more = false;
    for (place, room) in view.rooms().iter().enumerate() {
        if cuts_key(view, arcs, marks, place) {
            cut.add_key(room.key)?;
        } else {
            more |= cuts_offers(view, arcs, marks, place);
        }
    }
    Ok(more)
}

/// Adds the offers that are cut.
fn add_offers(cut: &mut Cut, view: &View, arcs: &[Arc], marks: &[Mark]) -> Result<(), AllocError>
    requires arcs { length arcs.now ≡ length view.now.rooms }
    requires none { cut.old.offers ≡ [] }
    ensures offers { OnOk result (AreOffersCut view.now (is_reached marks.now) arcs.now cut.new.offers (length view.now.offers)) }
    ensures keys { cut.new.keys ≡ cut.old.keys }
{
    for (number, offer) in view.offers().iter().enumerate() {
        if cuts_offers(view, arcs, marks, view.agreement_place(number)) {
            cut.add_offer(offer.number)?;
        }
    }
    Ok(())
}

/// Returns the cut at which the last search stopped.
pub(crate) fn cut_by(
    alloc: Global,
    view: &View,
    arcs: &[Arc],
    marks: &[Mark],
) -> Result<Cut, AllocError>
    requires { length arcs.now ≡ length view.now.rooms }
    ensures { IfOk result (λ cut. IsCutBy view.now (is_reached marks.now) arcs.now cut) }
{
    let mut cut = Cut::new(alloc);
    if add_keys(&mut cut, view, arcs, marks)? {
        add_offers(&mut cut, view, arcs, marks)?;
    }
    Ok(cut)
}
