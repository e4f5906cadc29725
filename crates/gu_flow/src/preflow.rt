//! Preflows: more lots may flow into a node than out of it.

ghost use Rattle.std.specs.Prelude.{
  ◌≡◌,
  ◌≢◌,
  ℕ,
  ◌+◌,
  ◌-◌,
  ◌*◌,
  ◌^◌,
  ◌<◌,
  ◌≤◌,
  ◌==◌,
  if◌then◌else◌,
  min,
  true,
  false,
  length,
  slice_index,
  sum,
};
ghost use Rattle.gu_flow.specs.Ends.{arc_at, is_tail, near, residual_out};
ghost use Rattle.gu_flow.specs.Flows.{IsFlow, value_of};
ghost use Rattle.gu_flow.specs.Preflows.{IsPreflow, AreSettled};

use crate::network::{Network, SINK, SOURCE};
use crate::residual::{push, residual_out};

/// Takes lots from a node's excess. The source has as many as needed.
fn debit(excess: &mut [u64], node: u32, lots: u64)
    requires node { node < length excess.old }
    requires lots { lots ≤ slice_index excess.old node }
    ensures { (n : ℕ) → n ≢ 0 → slice_index excess.new n ≡ slice_index excess.old n - (if node == n then lots else 0) }
{
    if node != SOURCE {
        excess[node as usize] -= lots;
    }
}

/// Adds lots to a node's excess. The sink keeps what it gets, and the source needs none.
fn credit(excess: &mut [u64], node: u32, lots: u64)
    requires node { node < length excess.old }
    requires fits { 1 < node → slice_index excess.old node + lots < 2 ^ 64 }
    ensures more { (n : ℕ) → 1 < n → slice_index excess.new n ≡ slice_index excess.old n + (if node == n then lots else 0) }
    ensures sink { slice_index excess.new 1 ≡ slice_index excess.old 1 }
{
    if node > SINK {
        excess[node as usize] += lots;
    }
}

/// Pushes a node's excess over an end, as far as there is room, and returns the lots pushed.
pub(crate) fn push_excess(net: &Network, flow: &mut [u64], excess: &mut [u64], end: u32) -> u64
    requires preflow { IsPreflow net.now.arcs.items flow.old excess.old }
    requires nodes { length excess.old ≡ length net.now.first.items }
    requires end { end < 2 * length net.now.arcs.items }
    ensures preflow { IsPreflow net.now.arcs.items flow.new excess.new }
    ensures lots { result ≡ min (residual_out net.now.arcs.items flow.old end) (slice_index excess.old (near net.now.arcs.items end)) }
    ensures value { value_of net.now.arcs.items flow.old ≤ value_of net.now.arcs.items flow.new }
    ensures less { is_tail end ≡ false → sum flow.new + result ≡ sum flow.old }
{
    let from = net.near(end);
    let lots = residual_out(net, flow, end).min(excess[from as usize]);
    push(net, flow, end, lots);
    debit(excess, from, lots);
    credit(excess, net.far(end), lots);
    lots
}

/// Returns whether an arc brings lots to a node that has an excess.
fn brings_too_much(net: &Network, flow: &[u64], excess: &[u64], place: usize) -> bool
    requires place { (place < length net.now.arcs.items) × (place < length flow.now) }
    requires nodes { length excess.now ≡ length net.now.first.items }
    ensures over { result ≡ true
        → (0 < slice_index flow.now place) × (0 < slice_index excess.now (arc_at net.now.arcs.items place).to) }
    ensures settled { result ≡ false → 1 < (arc_at net.now.arcs.items place).to → 0 < slice_index flow.now place
        → slice_index excess.now (arc_at net.now.arcs.items place).to ≡ 0 }
{
    let to = net.arcs()[place].to;
    to > SINK && flow[place] > 0 && excess[to as usize] > 0
}

/// Gives back, over each arc, its head's excess, and returns whether there was any.
fn give_back_once(net: &Network, flow: &mut [u64], excess: &mut [u64]) -> bool
    requires preflow { IsPreflow net.now.arcs.items flow.old excess.old }
    requires nodes { length excess.old ≡ length net.now.first.items }
    ensures preflow { IsPreflow net.now.arcs.items flow.new excess.new }
    ensures value { value_of net.now.arcs.items flow.old ≤ value_of net.now.arcs.items flow.new }
    ensures less { result ≡ true → sum flow.new < sum flow.old }
    ensures settled { result ≡ false → AreSettled net.now.arcs.items flow.new excess.new (length net.now.arcs.items) }
{
    let mut any = false;
    for place in 0..net.arcs().len() {
        if brings_too_much(net, flow, excess, place) {
            push_excess(net, flow, excess, 2 * place as u32 + 1);
            any = true;
        }
    }
    any
}

/// Gives back what has not reached the sink, which leaves a flow.
pub(crate) fn give_back(net: &Network, flow: &mut [u64], excess: &mut [u64])
    requires preflow { IsPreflow net.now.arcs.items flow.old excess.old }
    requires nodes { length excess.old ≡ length net.now.first.items }
    ensures flow { IsFlow net.now.arcs.items flow.new }
    ensures value { value_of net.now.arcs.items flow.old ≤ value_of net.now.arcs.items flow.new }
{
    'turns: while give_back_once(net, flow, excess) {}
}
