//! The network of a view, with an arc for each room.

ghost use Rattle.std.specs.Prelude.{◌≡◌, ◌+◌, ◌<◌, ◌^◌, All, IfOk, length, sum_by};
ghost use Rattle.gu_view.specs.Paths.{step_of};
ghost use Rattle.gu_view.specs.View.{IsView};
ghost use Rattle.gu_flow.specs.Ends.{capacities, JoinsNodes};
ghost use Rattle.gu_flow.specs.Layouts.{node_at};
ghost use Rattle.gu_flow.specs.Networks.{capacity_of, IsArcOf, AreArcs, room_at, offer_at};

use crate::network::{Arc, SINK, SOURCE};
use gu_terms::LimitKey;
use gu_view::{View, ViewOffer};
use std::alloc::{AllocError, Global};

/// Returns the number of steps of a way before the one for a key.
fn step_of(key: LimitKey) -> usize
    ensures { result ≡ step_of key }
{
    match key {
        LimitKey::Exec(_) => 0,
        LimitKey::Agr(_) => 1,
        LimitKey::Acct(_) => 2,
        LimitKey::Carry(_) => 3,
        LimitKey::Guar(_) => 4,
    }
}

/// Returns the node of a way after this many steps: the source, the node of its first place, then that of each place but the second, and
/// the sink after the last.
fn node_at(way: &[u32], steps: usize) -> u32
    requires { All (λ p. p < 2 ^ 31) way.now }
    ensures { result ≡ node_at way.now steps }
{
    if steps == 0 {
        return SOURCE;
    }
    let place = if steps == 1 { 0 } else { steps };
    match way.get(place) {
        Some(place) => *place + 2,
        None => SINK,
    }
}

fn lots_of(offers: &[ViewOffer], place: u32) -> u64
    requires { place < length offers.now }
    ensures { result ≡ (offer_at offers.now place).lots }
{
    offers[place as usize].lots
}

/// Returns the total lots of the offers at these indexes.
fn lots_at(offers: &[ViewOffer], places: &[u32]) -> u64
    requires within { All (λ place. place < length offers.now) places.now }
    requires fits { sum_by (λ place. (offer_at offers.now place).lots) places.now < 2 ^ 64 }
    ensures { result ≡ sum_by (λ place. (offer_at offers.now place).lots) places.now }
{
    places.iter().map(|place| lots_of(offers, *place)).sum()
}

/// Returns the capacity of the arc of the room at an index.
fn capacity_of(view: &View, place: usize) -> u64
    requires { place < length view.now.rooms }
    ensures capacity { result ≡ capacity_of view.now.offers (room_at view.now.rooms place).lots (room_at view.now.rooms place).key }
    ensures sound { IsView view.now }
{
    let room = view.rooms()[place];
    match room.key {
        LimitKey::Agr(_) => room.lots.min(lots_at(view.offers(), view.members(place))),
        _ => room.lots,
    }
}

/// Returns the arc of the room at an index.
fn arc_of(view: &View, place: usize) -> Arc
    requires { place < length view.now.rooms }
    ensures { IsArcOf view.now place result }
{
    let capacity = capacity_of(view, place);
    let offer = view.members(place)[0] as usize;
    let way = view.places(offer);
    let room = view.rooms()[place];
    let steps = step_of(room.key);
    Arc {
        from: node_at(way, steps),
        to: node_at(way, steps + 1),
        capacity,
    }
}

/// Returns an arc for each room.
pub(crate) fn lay_out(alloc: Global, view: &View) -> Result<Vec<Arc>, AllocError>
    ensures arcs { IfOk result (λ arcs. AreArcs view.now arcs.items) }
    ensures joins { IfOk result (λ arcs. JoinsNodes arcs.items (length view.now.rooms + 2)) }
    ensures fits { IfOk result (λ arcs. capacities arcs.items < 2 ^ 64) }
{
    let rooms = view.rooms().len();
    let mut arcs = Vec::with_capacity(alloc, rooms)?;
    for place in 0..rooms {
        arcs.push(arc_of(view, place))?;
    }
    Ok(arcs)
}
