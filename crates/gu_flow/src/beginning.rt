//! The flow with which the search for a greatest one begins.

ghost use Rattle.std.specs.Prelude.{◌≡◌, ℕ, ◌+◌, ◌-◌, ◌*◌, ◌^◌, ◌<◌, ◌≤◌, All, IfOk, length, slice_index};
ghost use Rattle.gu_flow.specs.Flows.{IsFlow};
ghost use Rattle.gu_flow.specs.Networks.{AreArcs};
ghost use Rattle.gu_view.specs.View.{IsNested};

use crate::augment::push_some;
use crate::network::Network;
use gu_view::View;
use std::alloc::{AllocError, Global};

/// How many keys a path has at most.
const MOST_KEYS: usize = 5;

/// Writes the ends of a way, from the sink back to the source.
fn lead_back(places: &[u32], way: &mut [u32])
    requires places { All (λ place. place < 2 ^ 31) places.now }
    requires room { length places.now ≤ length way.old }
    ensures room { length way.new ≡ length way.old }
    ensures ends { (i : ℕ) → i < length places.now → slice_index way.new i ≡ 2 * slice_index places.now (length places.now - 1 - i) + 1 }
{
    let count = places.len();
    for number in 0..count {
        way[number] = 2 * places[count - 1 - number] + 1;
    }
}

/// Pushes lots of the offer at an index along its own way: as many as it has and as the way has room for.
fn give_directly(view: &View, net: &Network, flow: &mut [u64], offer: usize)
    requires nested { IsNested view.now }
    requires arcs { AreArcs view.now net.now.arcs.items }
    requires offer { offer < length view.now.offers }
    requires flow { IsFlow net.now.arcs.items flow.old }
    ensures { IsFlow net.now.arcs.items flow.new }
{
    let mut way = [0; MOST_KEYS];
    let places = view.places(offer);
    lead_back(places, &mut way);
    push_some(net, flow, &way[..places.len()], view.offers()[offer].lots);
}

/// Returns a flow that gives each offer, the oldest first, as many of its lots as its own way has room for. It is often close to the greatest
/// flow that is oldest first over the group, so that few searches are left.
pub(crate) fn begin(alloc: Global, view: &View, net: &Network) -> Result<Vec<u64>, AllocError>
    requires nested { IsNested view.now }
    requires arcs { AreArcs view.now net.now.arcs.items }
    ensures { IfOk result (λ flow. IsFlow net.now.arcs.items flow.items) }
{
    let mut flow = vec![in alloc; 0; net.arcs().len()]?;
    for offer in 0..view.offers().len() {
        give_directly(view, net, &mut flow, offer);
    }
    Ok(flow)
}
