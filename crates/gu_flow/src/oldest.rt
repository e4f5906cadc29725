//! Among the flows of one value, the one that is oldest first over the group.

ghost use Rattle.std.specs.Prelude.{◌≡◌, ◌≢◌, ℕ, ◌<◌, ◌≤◌, IfOk, List, min, length, slice_index};
ghost use Rattle.gu_flow.specs.Ends.{arc_at};
ghost use Rattle.gu_flow.specs.Floors.{IsAlike};
ghost use Rattle.gu_flow.specs.Flows.{IsFlow, value_of};
ghost use Rattle.gu_flow.specs.Networks.{AreArcs};
ghost use Rattle.gu_flow.specs.OldestFlows.{IsOldestFlow};
ghost use Rattle.gu_flow.specs.Rounds.{AreReady, IsAllotment, IsFree};

use crate::allotment::Allotment;
use crate::network::Network;
use crate::rounds::TwoWay;
use gu_view::View;
use std::alloc::{AllocError, Global};

/// Raises the flow of an arc, to a goal if possible, and its floor with it.
fn raise_arc(
    net: &Network,
    allotment: &mut Allotment,
    searches: &mut TwoWay,
    place: usize,
    goal: u64,
    region: u32,
)
    requires allotment { IsAllotment net.now.arcs.items (length net.now.first.items) allotment.old }
    requires ready { AreReady (length net.now.first.items) searches.old }
    requires place { (place < length net.now.arcs.items) × (slice_index allotment.old.floors.items place ≤ goal) }
    requires goal { goal ≤ (arc_at net.now.arcs.items place).capacity }
    ensures allotment { IsAllotment net.now.arcs.items (length net.now.first.items) allotment.new }
    ensures ready { AreReady (length net.now.first.items) searches.new }
    ensures value { value_of net.now.arcs.items allotment.new.flow.items ≡ value_of net.now.arcs.items allotment.old.flow.items }
    ensures here { slice_index allotment.new.floors.items place ≡ min (slice_index allotment.new.flow.items place) goal }
    ensures others { (k : ℕ) → k ≢ place → slice_index allotment.new.floors.items k ≡ slice_index allotment.old.floors.items k }
    ensures rises { slice_index allotment.old.floors.items place ≤ slice_index allotment.new.floors.items place }
    ensures most { (others : List ℕ) → IsAlike net.now.arcs.items allotment.old.floors.items allotment.new.flow.items others
        → min (slice_index others place) goal ≤ slice_index allotment.new.floors.items place }
{
    let tail = net.near(2 * place as u32) as usize;
    let head = net.far(2 * place as u32) as usize;
    allotment.floors[place] = allotment.flow[place].min(goal);
    allotment.measure(net, place);
    'rounds: while allotment.floors[place] < goal
        && allotment.regions[tail] == allotment.regions[head]
    {
        if !searches.go_round(net, allotment, place, goal, region) {
            return;
        }
    }
}

/// Gives each offer, the oldest first, as much as a flow of this value can.
fn give_each(
    view: &View,
    net: &Network,
    allotment: &mut Allotment,
    goals: &mut [u64],
    searches: &mut TwoWay,
)
    requires allotment { IsAllotment net.now.arcs.items (length net.now.first.items) allotment.old }
    requires ready { AreReady (length net.now.first.items) searches.old }
    requires arcs { AreArcs view.now net.now.arcs.items }
    requires no_floors { (k : ℕ) → slice_index allotment.old.floors.items k ≡ 0 }
    requires no_goals { ((k : ℕ) → slice_index goals.old k ≡ 0) × (length goals.old ≡ length net.now.arcs.items) }
    ensures flow { IsFlow net.now.arcs.items allotment.new.flow.items }
    ensures value { value_of net.now.arcs.items allotment.new.flow.items ≡ value_of net.now.arcs.items allotment.old.flow.items }
    ensures oldest { IsOldestFlow view.now net.now.arcs.items allotment.new.flow.items }
{
    for (number, offer) in view.offers().iter().enumerate() {
        let place = view.agreement_place(number);
        goals[place] += offer.lots;
        let goal = goals[place].min(net.capacity(2 * place as u32));
        raise_arc(net, allotment, searches, place, goal, number as u32 + 1);
    }
}

/// Returns the flow of the same value as this one that is oldest first over the group.
pub(crate) fn give_oldest(
    alloc: Global,
    view: &View,
    net: &Network,
    mut allotment: Allotment,
    searches: &mut TwoWay,
) -> Result<Vec<u64>, AllocError>
    requires free { IsFree net.now.arcs.items (length net.now.first.items) allotment }
    requires ready { AreReady (length net.now.first.items) searches.old }
    requires arcs { AreArcs view.now net.now.arcs.items }
    ensures flow { IfOk result (λ given. IsFlow net.now.arcs.items given.items) }
    ensures value { IfOk result (λ given. value_of net.now.arcs.items given.items ≡ value_of net.now.arcs.items allotment.flow.items) }
    ensures oldest { IfOk result (λ given. IsOldestFlow view.now net.now.arcs.items given.items) }
{
    let mut goals = vec![in alloc; 0; net.arcs().len()]?;
    give_each(view, net, &mut allotment, &mut goals, searches);
    let Allotment {
        flow,
        floors: _,
        regions: _,
        rooms: _,
    } = allotment;
    Ok(flow)
}
