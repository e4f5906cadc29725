//! Augmenting a flow along a path from the source to the sink.

ghost use Rattle.std.specs.Prelude.{◌≡◌, ◌+◌, ◌<◌, length};
ghost use Rattle.gu_flow.specs.Flows.{IsFlow, IsWithin, value_of};
ghost use Rattle.gu_flow.specs.Ways.{IsWay, IsWhole, IsNarrow, HasRoom};

use crate::network::{Network, other_end};
use crate::residual::{push, residual_in};

/// Returns the bottleneck: the least room on a path.
fn bottleneck(net: &Network, flow: &[u64], way: &[u32]) -> u64
    requires within { IsWithin net.now.arcs.items flow.now }
    requires way { IsWay net.now.arcs.items way.now (length way.now) }
    ensures least { HasRoom net.now.arcs.items flow.now way.now (length way.now) result }
    ensures some { HasRoom net.now.arcs.items flow.now way.now (length way.now) 1 → 0 < result }
    ensures narrow { 0 < length way.now → IsNarrow net.now.arcs.items flow.now way.now (length way.now) result }
{
    let mut least = u64::MAX;
    for end in way {
        least = least.min(residual_in(net, flow, *end));
    }
    least
}

/// Pushes this many lots from the source to the sink, following a path backwards.
fn push_along(net: &Network, flow: &mut [u64], way: &[u32], lots: u64)
    requires flow { IsFlow net.now.arcs.items flow.old }
    requires whole { IsWhole net.now.arcs.items way.now }
    requires room { HasRoom net.now.arcs.items flow.old way.now (length way.now) lots }
    ensures flow { IsFlow net.now.arcs.items flow.new }
    ensures more { value_of net.now.arcs.items flow.new ≡ value_of net.now.arcs.items flow.old + lots }
{
    for end in way {
        push(net, flow, other_end(*end), lots);
    }
}

/// Pushes as many lots as a path has room for, up to this many.
pub(crate) fn push_some(net: &Network, flow: &mut [u64], way: &[u32], most: u64)
    requires flow { IsFlow net.now.arcs.items flow.old }
    requires whole { IsWhole net.now.arcs.items way.now }
    ensures { IsFlow net.now.arcs.items flow.new }
{
    let lots = bottleneck(net, flow, way).min(most);
    push_along(net, flow, way, lots);
}

/// Pushes as many lots as a path has room for.
pub(crate) fn augment(net: &Network, flow: &mut [u64], way: &[u32])
    requires flow { IsFlow net.now.arcs.items flow.old }
    requires whole { IsWhole net.now.arcs.items way.now }
    requires room { HasRoom net.now.arcs.items flow.old way.now (length way.now) 1 }
    ensures flow { IsFlow net.now.arcs.items flow.new }
    ensures more { value_of net.now.arcs.items flow.old < value_of net.now.arcs.items flow.new }
{
    let lots = bottleneck(net, flow, way);
    push_along(net, flow, way, lots);
}
