//! Rounds: lots are pushed from the head of an arc back to its tail, and then over the arc.

ghost use Rattle.std.specs.Prelude.{◌≡◌, ◌≢◌, ℕ, ◌+◌, ◌<◌, ◌≤◌, ◌⊎◌, IfNone, IfOk, IfSome, true, false, length, slice_index};
ghost use Rattle.gu_flow.specs.Ends.{arc_at};
ghost use Rattle.gu_flow.specs.Floors.{KeepsFloors};
ghost use Rattle.gu_flow.specs.Flows.{IsWithin, value_of};
ghost use Rattle.gu_flow.specs.Rounds.{room_inside, AreReady, AreSearches, AreUnderWay, CarriesMost, HasRooms, IsAllotment, IsBrought};
ghost use Rattle.gu_flow.specs.Searches.{level_at, mark_at, HasPlaces, IsQueue, IsTree, KeepsReached};

use crate::allotment::Allotment;
use crate::network::{Network, other_end};
use crate::searching::Search;
use std::alloc::{AllocError, Global};

/// Two searches that meet: one goes ahead from the head of an arc, the other back from its tail.
#[derive(Drop)]
pub struct TwoWay {
    pub(crate) ahead: Search,
    back: Search,
}

impl TwoWay {
    /// Returns two searches that haven't begun, with room for this number of nodes.
    pub(crate) fn new(alloc: Global, nodes: usize) -> Result<TwoWay, AllocError>
        ensures { IfOk result (λ s. AreReady nodes s) }
    {
        let ahead = Search::new(alloc, false, nodes)?;
        let back = Search::new(alloc, true, nodes)?;
        Ok(TwoWay { ahead, back })
    }

    /// Lets the searches take turns, until they meet or one has no ends left. Returns a node that both have reached.
    fn meet(&mut self, net: &Network, allotment: &Allotment) -> Option<u32>
        requires allotment { IsAllotment net.now.arcs.items (length net.now.first.items) allotment.now }
        requires under_way { AreUnderWay net.now.arcs.items (length net.now.first.items) allotment.now self.old }
        requires ends { (self.old.ahead.from < length net.now.first.items) × (self.old.back.from < length net.now.first.items) }
        ensures under_way { AreUnderWay net.now.arcs.items (length net.now.first.items) allotment.now self.new }
        ensures ahead { KeepsReached self.old.ahead self.new.ahead }
        ensures back { KeepsReached self.old.back self.new.back }
        ensures met { IfSome result (λ n. (n < length net.now.first.items)
            × (0 < level_at self.new.ahead.marks.items n) × (0 < level_at self.new.back.marks.items n)) }
        ensures apart { IfNone result ((level_at self.new.ahead.marks.items self.new.back.from ≡ 0)
            × (level_at self.new.back.marks.items self.new.ahead.from ≡ 0)) }
        ensures out { IfNone result ((self.new.ahead.count ≤ self.new.ahead.done) ⊎ (self.new.back.count ≤ self.new.back.done)) }
    {
        'turns: while self.ahead.done < self.ahead.count && self.back.done < self.back.count {
            if let Some(node) = self.ahead.look(net, allotment)
                && self.back.has(node)
            {
                return Some(node);
            }
            if let Some(node) = self.back.look(net, allotment)
                && self.ahead.has(node)
            {
                return Some(node);
            }
        }
        if self.ahead.has(self.back.from) {
            return Some(self.back.from);
        }
        if self.back.has(self.ahead.from) {
            return Some(self.ahead.from);
        }
        None
    }

    /// Extends the forward search from a node along the path on which the other reached it, to where that one began.
    fn lead_on(&mut self, net: &Network, allotment: &Allotment, met: u32)
        requires allotment { IsAllotment net.now.arcs.items (length net.now.first.items) allotment.now }
        requires under_way { AreUnderWay net.now.arcs.items (length net.now.first.items) allotment.now self.old }
        requires met { (met < length net.now.first.items) × (0 < level_at self.old.ahead.marks.items met) × (0 < level_at self.old.back.marks.items met) }
        ensures are { AreSearches (length net.now.first.items) self.new }
        ensures tree { IsTree net.now.arcs.items (room_inside net.now.arcs.items allotment.now false) self.new.ahead.from self.new.ahead.marks.items }
        ensures waits { IsQueue self.new.ahead.marks.items self.new.ahead.queue.items self.new.ahead.count }
        ensures keeps { KeepsReached self.old.ahead self.new.ahead }
        ensures same { self.new.back ≡ self.old.back }
        ensures found { 0 < level_at self.new.ahead.marks.items self.old.back.from }
    {
        let mut node = met;
        while node != self.back.from {
            let end = self.back.marks[node as usize].via;
            self.ahead.reach(net, allotment, other_end(end));
            node = net.near(end);
        }
    }

    /// Makes a region of the nodes reached by the search that has no ends left.
    fn part(&self, net: &Network, allotment: &mut Allotment, place: usize, region: u32)
        requires allotment { IsAllotment net.now.arcs.items (length net.now.first.items) allotment.old }
        requires under_way { AreUnderWay net.now.arcs.items (length net.now.first.items) allotment.old self.now }
        requires place { (place < length net.now.arcs.items)
            × (slice_index allotment.old.floors.items place ≡ slice_index allotment.old.flow.items place) }
        requires ends { (self.now.ahead.from ≡ (arc_at net.now.arcs.items place).to) × (self.now.back.from ≡ (arc_at net.now.arcs.items place).from) }
        requires apart { (level_at self.now.ahead.marks.items self.now.back.from ≡ 0) × (level_at self.now.back.marks.items self.now.ahead.from ≡ 0) }
        requires out { (self.now.ahead.count ≤ self.now.ahead.done) ⊎ (self.now.back.count ≤ self.now.back.done) }
        ensures allotment { IsAllotment net.now.arcs.items (length net.now.first.items) allotment.new }
        ensures same { (allotment.new.flow ≡ allotment.old.flow) × (allotment.new.floors ≡ allotment.old.floors) }
        ensures most { CarriesMost net.now.arcs.items allotment.new.floors.items allotment.new.flow.items place }
    {
        if self.ahead.done >= self.ahead.count {
            allotment.set_apart(&self.ahead, region);
        } else {
            allotment.set_apart(&self.back, region);
        }
    }

    /// Pushes lots round if the searches meet, or else separates two regions. Returns whether they met.
    fn settle(
        &mut self,
        net: &Network,
        allotment: &mut Allotment,
        place: usize,
        region: u32,
    ) -> bool
        requires allotment { IsAllotment net.now.arcs.items (length net.now.first.items) allotment.old }
        requires under_way { AreUnderWay net.now.arcs.items (length net.now.first.items) allotment.old self.old }
        requires place { (place < length net.now.arcs.items)
            × (slice_index allotment.old.floors.items place ≡ slice_index allotment.old.flow.items place) }
        requires ends { (self.old.ahead.from ≡ (arc_at net.now.arcs.items place).to) × (self.old.back.from ≡ (arc_at net.now.arcs.items place).from) }
        requires fits { slice_index allotment.old.flow.items place + (mark_at self.old.ahead.marks.items self.old.ahead.from).lots
            ≤ (arc_at net.now.arcs.items place).capacity }
        ensures allotment { IsAllotment net.now.arcs.items (length net.now.first.items) allotment.new }
        ensures searches { AreSearches (length net.now.first.items) self.new }
        ensures ahead { IsQueue self.new.ahead.marks.items self.new.ahead.queue.items self.new.ahead.count }
        ensures back { IsQueue self.new.back.marks.items self.new.back.queue.items self.new.back.count }
        ensures value { value_of net.now.arcs.items allotment.new.flow.items ≡ value_of net.now.arcs.items allotment.old.flow.items }
        ensures here { slice_index allotment.new.floors.items place ≡ slice_index allotment.new.flow.items place }
        ensures within { slice_index allotment.new.flow.items place
            ≤ slice_index allotment.old.flow.items place + (mark_at self.old.ahead.marks.items self.old.ahead.from).lots }
        ensures others { (k : ℕ) → k ≢ place → slice_index allotment.new.floors.items k ≡ slice_index allotment.old.floors.items k }
        ensures rises { slice_index allotment.old.flow.items place ≤ slice_index allotment.new.flow.items place }
        ensures more { result ≡ true → slice_index allotment.old.flow.items place < slice_index allotment.new.flow.items place }
        ensures most { result ≡ false → CarriesMost net.now.arcs.items allotment.new.floors.items allotment.new.flow.items place }
    {
        let Some(node) = self.meet(net, allotment) else {
            self.part(net, allotment, place, region);
            return false;
        };
        self.lead_on(net, allotment, node);
        bring_round(net, allotment, &self.ahead, place);
        true
    }

    /// Pushes as many lots round as a path allows, so that the arc at an index carries more. Returns whether there is a path; if not, no
    /// flow of this value carries more there.
    pub(crate) fn go_round(
        &mut self,
        net: &Network,
        allotment: &mut Allotment,
        place: usize,
        goal: u64,
        region: u32,
    ) -> bool
        requires allotment { IsAllotment net.now.arcs.items (length net.now.first.items) allotment.old }
        requires ready { AreReady (length net.now.first.items) self.old }
        requires place { (place < length net.now.arcs.items)
            × (slice_index allotment.old.floors.items place ≡ slice_index allotment.old.flow.items place) }
        requires goal { (slice_index allotment.old.flow.items place < goal) × (goal ≤ (arc_at net.now.arcs.items place).capacity) }
        ensures allotment { IsAllotment net.now.arcs.items (length net.now.first.items) allotment.new }
        ensures ready { AreReady (length net.now.first.items) self.new }
        ensures value { value_of net.now.arcs.items allotment.new.flow.items ≡ value_of net.now.arcs.items allotment.old.flow.items }
        ensures here { slice_index allotment.new.floors.items place ≡ slice_index allotment.new.flow.items place }
        ensures within { slice_index allotment.new.flow.items place ≤ goal }
        ensures others { (k : ℕ) → k ≢ place → slice_index allotment.new.floors.items k ≡ slice_index allotment.old.floors.items k }
        ensures rises { slice_index allotment.old.flow.items place ≤ slice_index allotment.new.flow.items place }
        ensures more { result ≡ true → slice_index allotment.old.flow.items place < slice_index allotment.new.flow.items place }
        ensures most { result ≡ false → CarriesMost net.now.arcs.items allotment.new.floors.items allotment.new.flow.items place }
    {
        let end = 2 * place as u32;
        self.ahead
            .begin(net, net.far(end), goal - allotment.flow[place]);
        self.back.begin(net, net.near(end), 1);
        let found = self.settle(net, allotment, place, region);
        self.ahead.clear();
        self.back.clear();
        found
    }
}

/// Pushes lots to a node along the path on which a search reached it.
fn push_along(net: &Network, allotment: &mut Allotment, search: &Search, to: u32, lots: u64)
    requires allotment { IsAllotment net.now.arcs.items (length net.now.first.items) allotment.old }
    requires places { HasPlaces (length net.now.first.items) search.now }
    requires tree { IsTree net.now.arcs.items (room_inside net.now.arcs.items allotment.old false) search.now.from search.now.marks.items }
    requires found { (to < length net.now.first.items) × (0 < level_at search.now.marks.items to) }
    requires room { lots ≤ (mark_at search.now.marks.items to).lots }
    ensures within { IsWithin net.now.arcs.items allotment.new.flow.items }
    ensures keeps { KeepsFloors allotment.new.floors.items allotment.new.flow.items }
    ensures rooms { HasRooms net.now.arcs.items allotment.new }
    ensures same { (allotment.new.floors ≡ allotment.old.floors) × (allotment.new.regions ≡ allotment.old.regions) }
    ensures brought { IsBrought net.now.arcs.items allotment.old.flow.items allotment.new.flow.items search.now.from to lots }
    ensures floor { (place : ℕ) → slice_index allotment.old.floors.items place ≡ slice_index allotment.old.flow.items place
        → (arc_at net.now.arcs.items place).to ≡ search.now.from
        → slice_index allotment.new.flow.items place ≡ slice_index allotment.old.flow.items place }
{
    let mut node = to;
    while node != search.from {
        let end = search.marks[node as usize].via;
        allotment.push(net, end, lots);
        allotment.measure(net, end as usize / 2);
        node = net.near(end);
    }
}

/// Pushes lots from the head of the arc at an index to its tail, then over the arc, and raises its floor to its new flow.
fn bring_round(net: &Network, allotment: &mut Allotment, search: &Search, place: usize)
    requires allotment { IsAllotment net.now.arcs.items (length net.now.first.items) allotment.old }
    requires places { HasPlaces (length net.now.first.items) search.now }
    requires tree { IsTree net.now.arcs.items (room_inside net.now.arcs.items allotment.old false) search.now.from search.now.marks.items }
    requires place { (place < length net.now.arcs.items)
        × (slice_index allotment.old.floors.items place ≡ slice_index allotment.old.flow.items place) }
    requires ends { (search.now.from ≡ (arc_at net.now.arcs.items place).to) × (0 < level_at search.now.marks.items (arc_at net.now.arcs.items place).from) }
    requires fits { slice_index allotment.old.flow.items place + (mark_at search.now.marks.items search.now.from).lots
        ≤ (arc_at net.now.arcs.items place).capacity }
    ensures allotment { IsAllotment net.now.arcs.items (length net.now.first.items) allotment.new }
    ensures value { value_of net.now.arcs.items allotment.new.flow.items ≡ value_of net.now.arcs.items allotment.old.flow.items }
    ensures here { slice_index allotment.new.floors.items place ≡ slice_index allotment.new.flow.items place }
    ensures others { (k : ℕ) → k ≢ place → slice_index allotment.new.floors.items k ≡ slice_index allotment.old.floors.items k }
    ensures more { slice_index allotment.old.flow.items place < slice_index allotment.new.flow.items place }
    ensures within { slice_index allotment.new.flow.items place
        ≤ slice_index allotment.old.flow.items place + (mark_at search.now.marks.items search.now.from).lots }
{
    let end = 2 * place as u32;
    let tail = net.near(end);
    let lots = search.marks[tail as usize].lots;
    push_along(net, allotment, search, tail, lots);
    allotment.push(net, end, lots);
    allotment.floors[place] = allotment.flow[place];
    allotment.measure(net, place);
}
