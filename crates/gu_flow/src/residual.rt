//! The residual capacity that a flow leaves in a network.

ghost use Rattle.std.specs.Prelude.{◌≡◌, ◌*◌, ◌<◌, ◌≤◌, length};
ghost use Rattle.gu_flow.specs.Ends.{residual_in, residual_out};
ghost use Rattle.gu_flow.specs.Flows.{Pushes, IsWithin};

use crate::network::Network;

/// Returns the lots that can still be pushed to an end from the other one.
pub(crate) fn residual_in(net: &Network, flow: &[u64], end: u32) -> u64
    requires within { IsWithin net.now.arcs.items flow.now }
    requires end { end < 2 * length net.now.arcs.items }
    ensures { result ≡ residual_in net.now.arcs.items flow.now end }
{
    let flows = flow[end as usize / 2];
    if end % 2 == 0 {
        flows
    } else {
        net.capacity(end) - flows
    }
}

/// Returns the lots that can still be pushed from an end to the other: the capacity left along the arc, or the flow against it.
pub(crate) fn residual_out(net: &Network, flow: &[u64], end: u32) -> u64
    requires within { IsWithin net.now.arcs.items flow.now }
    requires end { end < 2 * length net.now.arcs.items }
    ensures { result ≡ residual_out net.now.arcs.items flow.now end }
{
    let flows = flow[end as usize / 2];
    if end % 2 == 1 {
        return flows;
    }
    net.capacity(end) - flows
}

/// Pushes lots over an end, from its node to the other.
pub(crate) fn push(net: &Network, flow: &mut [u64], end: u32, lots: u64)
    requires within { IsWithin net.now.arcs.items flow.old }
    requires end { end < 2 * length net.now.arcs.items }
    requires room { lots ≤ residual_out net.now.arcs.items flow.old end }
    ensures { Pushes net.now.arcs.items flow.old flow.new end lots }
{
    if end % 2 == 0 {
        flow[end as usize / 2] += lots;
    } else {
        flow[end as usize / 2] -= lots;
    }
}
