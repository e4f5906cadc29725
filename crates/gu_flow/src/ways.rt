//! Augmenting paths from the sink back to the source, each step one level down.

ghost use Rattle.std.specs.Prelude.{◌≡◌, ◌≢◌, ℕ, ◌+◌, ◌*◌, ◌<◌, ◌≤◌, IfSome, true, length, slice_index, sum};
ghost use Rattle.gu_flow.specs.Ends.{far, residual_in, residual_out, IsCurrent};
ghost use Rattle.gu_flow.specs.Flows.{IsFlow, IsWithin, value_of};
ghost use Rattle.gu_flow.specs.Searches.{level_at, IsTree};
ghost use Rattle.gu_flow.specs.Ways.{stand, IsWay, HasRoom, IsAhead, IsDown, IsDescent};

use crate::augment::augment;
use crate::network::{Network, SINK, SOURCE, other_end};
use crate::residual::residual_in;
use crate::searching::Mark;

/// The steps that a path pays for: a longer one costs the difference, and a shorter one pays for part of a search.
const PAID: usize = 8;

/// Returns the path on which the search reached the sink, and its number of steps.
pub(crate) fn trace(net: &Network, flow: &[u64], marks: &[Mark], way: &mut [u32]) -> usize
    requires tree { IsTree net.now.arcs.items (residual_out net.now.arcs.items flow.now) 0 marks.now }
    requires found { 0 < level_at marks.now 1 }
    requires lists { (length marks.now ≡ length net.now.first.items) × (length marks.now ≤ length way.old) }
    ensures within { result ≤ length way.new }
    ensures descent { IsDescent net.now.arcs.items flow.now marks.now way.new result }
    ensures whole { stand net.now.arcs.items way.new result ≡ 0 }
{
    let mut steps = 0;
    let mut node = SINK;
    while node != SOURCE {
        let end = other_end(marks[node as usize].via);
        way[steps] = end;
        steps += 1;
        node = net.far(end);
    }
    steps
}

/// Returns the number of a path's first steps that all have room.
pub(crate) fn clear_steps(net: &Network, flow: &[u64], way: &[u32]) -> usize
    requires within { IsWithin net.now.arcs.items flow.now }
    requires way { IsWay net.now.arcs.items way.now (length way.now) }
    ensures bound { result ≤ length way.now }
    ensures room { HasRoom net.now.arcs.items flow.now way.now result 1 }
    ensures stops { result < length way.now → residual_in net.now.arcs.items flow.now (slice_index way.now result) ≡ 0 }
{
    for (step, end) in way.iter().enumerate() {
        if residual_in(net, flow, *end) == 0 {
            return step;
        }
    }
    way.len()
}

/// Returns the node that a path has reached after this many steps.
fn stand(net: &Network, way: &[u32], steps: usize) -> u32
    requires within { steps ≤ length way.now }
    requires way { IsWay net.now.arcs.items way.now steps }
    ensures is { result ≡ stand net.now.arcs.items way.now steps }
    ensures within { result < length net.now.first.items }
{
    if steps == 0 {
        SINK
    } else {
        net.far(way[steps - 1])
    }
}

/// Returns whether lots can be pushed over an end from a node one level below this one.
fn leads_down(net: &Network, flow: &[u64], marks: &[Mark], end: u32, level: u32) -> bool
    requires within { IsWithin net.now.arcs.items flow.now }
    requires lists { length marks.now ≡ length net.now.first.items }
    requires end { end < 2 * length net.now.arcs.items }
    requires levels { (n : ℕ) → level_at marks.now n ≤ length marks.now }
    ensures room { result ≡ true → 0 < residual_in net.now.arcs.items flow.now end }
    ensures falls { result ≡ true → level_at marks.now (far net.now.arcs.items end) + 1 ≡ level }
    ensures each { 0 < residual_in net.now.arcs.items flow.now end
        → level_at marks.now (far net.now.arcs.items end) + 1 ≡ level
        → result ≡ true }
{
    let before = marks[net.far(end) as usize].level;
    before + 1 == level && residual_in(net, flow, end) > 0
}

/// Returns the next end at a node that leads down a level.
fn next_down(
    net: &Network,
    flow: &[u64],
    marks: &[Mark],
    current: &mut [u32],
    node: u32,
) -> Option<u32>
    requires within { IsWithin net.now.arcs.items flow.now }
    requires lists { length marks.now ≡ length net.now.first.items }
    requires levels { (n : ℕ) → level_at marks.now n ≤ length marks.now }
    requires node { (node < length current.old) × (node < length marks.now) }
    requires current { IsCurrent net.now.arcs.items current.old }
    ensures current { IsCurrent net.now.arcs.items current.new }
    ensures others { (n : ℕ) → n ≢ node → slice_index current.new n ≡ slice_index current.old n }
    ensures less { sum current.new ≤ sum current.old }
    ensures down { IfSome result (λ end. IsDown net.now.arcs.items flow.now marks.now current.new node end) }
{
    let level = marks[node as usize].level;
    'ends: while current[node as usize] > 0 {
        let end = current[node as usize] - 1;
        if leads_down(net, flow, marks, end, level) {
            return Some(end);
        }
        current[node as usize] = net.ends_before(end);
    }
    None
}

/// Extends a path to the source, backtracking as needed, if there is one.
pub(crate) fn extend(
    net: &Network,
    flow: &[u64],
    marks: &[Mark],
    current: &mut [u32],
    way: &mut [u32],
    kept: usize,
) -> Option<usize>
    requires within { IsWithin net.now.arcs.items flow.now }
    requires levels { (n : ℕ) → level_at marks.now n ≤ length marks.now }
    requires lists { (length marks.now ≡ length net.now.first.items) × (length marks.now ≤ length current.old)
        × (length marks.now ≤ length way.old) }
    requires kept { kept ≤ length way.old }
    requires descent { IsDescent net.now.arcs.items flow.now marks.now way.old kept }
    requires current { IsCurrent net.now.arcs.items current.old }
    requires ahead { IsAhead net.now.arcs.items current.old way.old kept }
    ensures current { IsCurrent net.now.arcs.items current.new }
    ensures within { IfSome result (λ steps. steps ≤ length way.new) }
    ensures descent { IfSome result (λ steps. IsDescent net.now.arcs.items flow.now marks.now way.new steps) }
    ensures ahead { IfSome result (λ steps. IsAhead net.now.arcs.items current.new way.new steps) }
    ensures whole { IfSome result (λ steps. stand net.now.arcs.items way.new steps ≡ 0) }
{
    let mut steps = kept;
    let mut node = stand(net, way, kept);
    'steps: while node != SOURCE {
        match next_down(net, flow, marks, current, node) {
            Some(end) => {
                way[steps] = end;
                steps += 1;
                node = net.far(end);
            }
            None => {
                if steps == 0 {
                    return None;
                }
                steps -= 1;
                let end = way[steps];
                node = net.near(end);
                current[node as usize] = net.ends_before(end);
            }
        }
    }
    Some(steps)
}

/// Pushes lots along paths that go down a level at each step, at least along the one on which the sink was reached, until no further path
/// is found or the step budget is used up. Paths add to the budget. Returns the steps left.
#[tactic(auto, using(crate::proofs::PushLemmas::left_less))]
pub(crate) fn block(
    net: &Network,
    flow: &mut [u64],
    marks: &[Mark],
    current: &mut [u32],
    way: &mut [u32],
    most: usize,
) -> usize
    requires flow { IsFlow net.now.arcs.items flow.old }
    requires tree { IsTree net.now.arcs.items (residual_out net.now.arcs.items flow.old) 0 marks.now }
    requires found { 0 < level_at marks.now 1 }
    requires lists { (length marks.now ≡ length net.now.first.items) × (length marks.now ≤ length current.old)
        × (length marks.now ≤ length way.old) }
    requires current { IsCurrent net.now.arcs.items current.old }
    ensures flow { IsFlow net.now.arcs.items flow.new }
    ensures more { value_of net.now.arcs.items flow.old < value_of net.now.arcs.items flow.new }
{
    let steps = trace(net, flow, marks, way);
    augment(net, flow, &way[..steps]);
    let mut left = most.saturating_add(PAID).saturating_sub(steps);
    let mut kept = 0;
    'ways: while let Some(steps) = extend(net, flow, marks, current, way, kept) {
        augment(net, flow, &way[..steps]);
        left = left.saturating_add(PAID).saturating_sub(steps);
        if left == 0 {
            return 0;
        }
        kept = clear_steps(net, flow, &way[..steps]);
    }
    left
}
