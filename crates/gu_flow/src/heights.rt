//! Push-relabel: lots are pushed down from node to node. A node's height is its distance from the sink.

ghost use Rattle.std.specs.Prelude.{◌≡◌, ℕ, ◌*◌, ◌<◌, ◌≤◌, OnErr, OnOk, length, slice_index, vec_len};
ghost use Rattle.gu_flow.specs.Flows.{IsFlow, IsWithin, value_of};
ghost use Rattle.gu_flow.specs.Preflows.{IsPreflow, IsSurge};

use crate::network::{Network, SINK, SOURCE};
use crate::preflow::{give_back, push_excess};
use crate::residual::{residual_in, residual_out};
use crate::waiting::Waiting;
use std::alloc::{AllocError, Global};

/// The most turns for nodes; what they leave is left to the searches.
const MOST_TURNS: u32 = 1 << 24;

/// The cost of lifting a node, counted in ends, in addition to the ends looked at.
const LIFT: usize = 12;

/// Finds the nodes that lead directly to a node, and returns the number of nodes found in all.
fn spread_back(
    net: &Network,
    flow: &[u64],
    heights: &mut [u32],
    queue: &mut [u32],
    node: u32,
    found: usize,
) -> usize
    requires within { IsWithin net.now.arcs.items flow.now }
    requires lists { length heights.old ≡ length net.now.first.items }
    requires node { node < length heights.old }
    requires found { found ≤ length queue.old }
    requires nodes { (k : ℕ) → k < found → slice_index queue.old k < length heights.old }
    ensures found { result ≤ length queue.new }
    ensures nodes { (k : ℕ) → k < result → slice_index queue.new k < length heights.new }
{
    let height = heights[node as usize].saturating_add(1);
    let mut count = found;
    let mut ends = net.ends(node);
    'ends: while ends > 0 {
        let end = ends - 1;
        let from = net.far(end);
        let is_new = from != SOURCE && heights[from as usize] > height;
        if is_new && count < queue.len() && residual_in(net, flow, end) > 0 {
            heights[from as usize] = height;
            queue[count] = from;
            count += 1;
        }
        ends = net.ends_before(end);
    }
    count
}

/// Sets each node's height to its distance from the sink over arcs with room.
fn measure(net: &Network, flow: &[u64], heights: &mut [u32], queue: &mut [u32])
    requires within { IsWithin net.now.arcs.items flow.now }
    requires nodes { length heights.old ≡ length net.now.first.items }
    requires room { 0 < length queue.old }
{
    let nodes = heights.len() as u32;
    heights.fill(nodes);
    heights[SINK as usize] = 0;
    queue[0] = SINK;
    let mut found = 1;
    let mut done = 0;
    'nodes: while done < found {
        let node = queue[done];
        found = spread_back(net, flow, heights, queue, node, found);
        done += 1;
    }
}

/// Pushes a node's excess to lower nodes, which then wait for their turn.
fn push_down(
    net: &Network,
    flow: &mut [u64],
    excess: &mut [u64],
    heights: &[u32],
    current: &mut [u32],
    waiting: &mut Waiting,
    node: u32,
)
    requires surge { IsSurge net.now.arcs.items (length net.now.first.items) flow.old excess.old heights.now current.old
        (vec_len waiting.old.ring) }
    requires node { node < length excess.old }
    ensures surge { IsSurge net.now.arcs.items (length net.now.first.items) flow.new excess.new heights.now current.new
        (vec_len waiting.new.ring) }
    ensures value { value_of net.now.arcs.items flow.old ≤ value_of net.now.arcs.items flow.new }
{
    let height = heights[node as usize];
    'ends: while current[node as usize] > 0 {
        let end = current[node as usize] - 1;
        let to = net.far(end);
        if heights[to as usize] < height {
            let is_idle = excess[to as usize] == 0;
            let lots = push_excess(net, flow, excess, end);
            if is_idle && lots > 0 && to > SINK {
                waiting.add(to);
            }
            if excess[node as usize] == 0 {
                return;
            }
        }
        current[node as usize] = net.ends_before(end);
    }
}

/// Lifts a node to one above the lowest node that it can push to, and returns the cost.
fn lift(net: &Network, flow: &[u64], heights: &mut [u32], node: u32) -> usize
    requires within { IsWithin net.now.arcs.items flow.now }
    requires nodes { length heights.old ≡ length net.now.first.items }
    requires node { node < length heights.old }
{
    let mut least = heights.len() as u32;
    let mut cost = LIFT;
    let mut ends = net.ends(node);
    'ends: while ends > 0 {
        let end = ends - 1;
        if residual_out(net, flow, end) > 0 {
            least = least.min(heights[net.far(end) as usize].saturating_add(1));
        }
        cost = cost.saturating_add(1);
        ends = net.ends_before(end);
    }
    heights[node as usize] = least;
    cost
}

/// Takes a node's turn: pushes its excess to lower nodes and, if some is left, lifts the node and makes it wait again. Returns the cost of
/// lifting.
fn discharge(
    net: &Network,
    flow: &mut [u64],
    excess: &mut [u64],
    heights: &mut [u32],
    current: &mut [u32],
    waiting: &mut Waiting,
    node: u32,
) -> usize
    requires surge { IsSurge net.now.arcs.items (length net.now.first.items) flow.old excess.old heights.old current.old
        (vec_len waiting.old.ring) }
    requires node { node < length excess.old }
    ensures surge { IsSurge net.now.arcs.items (length net.now.first.items) flow.new excess.new heights.new current.new
        (vec_len waiting.new.ring) }
    ensures value { value_of net.now.arcs.items flow.old ≤ value_of net.now.arcs.items flow.new }
{
    push_down(net, flow, excess, heights, current, waiting, node);
    if excess[node as usize] == 0 {
        return 0;
    }
    let cost = lift(net, flow, heights, node);
    current[node as usize] = net.ends(node);
    if (heights[node as usize] as usize) < heights.len() {
        waiting.add(node);
    }
    cost
}

/// Measures the heights again, and resets each node to its last end.
fn start_over(
    net: &Network,
    flow: &[u64],
    heights: &mut [u32],
    current: &mut [u32],
    queue: &mut [u32],
)
    requires within { IsWithin net.now.arcs.items flow.now }
    requires nodes { (length heights.old ≡ length net.now.first.items) × (length current.old ≡ length net.now.first.items)
        × (0 < length queue.old) }
    ensures current { (n : ℕ) → slice_index current.new n ≤ 2 * length net.now.arcs.items }
{
    measure(net, flow, heights, queue);
    current.copy_from_slice(net.last_ends());
}

/// Gives each waiting node its turn, until none waits or the turns are used up.
fn take_turns(
    net: &Network,
    flow: &mut [u64],
    excess: &mut [u64],
    heights: &mut [u32],
    current: &mut [u32],
    queue: &mut [u32],
    waiting: &mut Waiting,
)
    requires surge { IsSurge net.now.arcs.items (length net.now.first.items) flow.old excess.old heights.old current.old
        (vec_len waiting.old.ring) }
    requires room { 0 < length queue.old }
    ensures surge { IsSurge net.now.arcs.items (length net.now.first.items) flow.new excess.new heights.new current.new
        (vec_len waiting.new.ring) }
    ensures value { value_of net.now.arcs.items flow.old ≤ value_of net.now.arcs.items flow.new }
{
    let mut cost = 0_usize;
    'turns: for _ in 0..MOST_TURNS {
        let Some(node) = waiting.take() else {
            return;
        };
        let lifting = discharge(net, flow, excess, heights, current, waiting, node);
        cost = cost.saturating_add(lifting);
        if cost > net.arcs().len() {
            start_over(net, flow, heights, current, queue);
            cost = 0;
        }
    }
}

/// Pushes all that the source can give towards the sink at once, and gives back what doesn't reach it, using lists already allocated.
fn push_all(
    net: &Network,
    flow: &mut [u64],
    excess: &mut [u64],
    heights: &mut [u32],
    current: &mut [u32],
    queue: &mut [u32],
    waiting: &mut Waiting,
)
    requires preflow { IsPreflow net.now.arcs.items flow.old excess.old }
    requires nodes { (length excess.old ≡ length net.now.first.items) × (length heights.old ≡ length net.now.first.items)
        × (length current.old ≡ length net.now.first.items) × (vec_len waiting.old.ring ≡ length net.now.first.items)
        × (0 < length queue.old) }
    ensures flow { IsFlow net.now.arcs.items flow.new }
    ensures value { value_of net.now.arcs.items flow.old ≤ value_of net.now.arcs.items flow.new }
{
    start_over(net, flow, heights, current, queue);
    push_down(net, flow, excess, heights, current, waiting, SOURCE);
    take_turns(net, flow, excess, heights, current, queue, waiting);
    give_back(net, flow, excess);
}

/// Pushes all that the source can give towards the sink at once, and gives back what doesn't reach it. It first allocates the other lists
/// that it needs.
pub(crate) fn surge(
    alloc: Global,
    net: &Network,
    flow: &mut [u64],
    current: &mut [u32],
    queue: &mut [u32],
) -> Result<(), AllocError>
    requires flow { IsFlow net.now.arcs.items flow.old }
    requires lists { (length current.old ≡ length net.now.first.items) × (0 < length queue.old) }
    ensures flow { OnOk result (IsFlow net.now.arcs.items flow.new) }
    ensures value { OnOk result (value_of net.now.arcs.items flow.old ≤ value_of net.now.arcs.items flow.new) }
    ensures refused { OnErr result (flow.new ≡ flow.old) }
{
    let nodes = current.len();
    let mut excess = vec![in alloc; 0; nodes]?;
    let mut heights = vec![in alloc; 0; nodes]?;
    let mut waiting = Waiting::new(alloc, nodes)?;
    excess[SOURCE as usize] = u64::MAX;
    push_all(
        net,
        flow,
        &mut excess,
        &mut heights,
        current,
        queue,
        &mut waiting,
    );
    Ok(())
}
