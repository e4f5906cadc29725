//! A flow that is rerouted in cycles without changing its value.

ghost use Rattle.std.specs.Prelude.{◌≡◌, ◌≢◌, ℕ, ◌+◌, ◌*◌, ◌/◌, ◌%◌, ◌<◌, ◌≤◌, IfOk, length, slice_index};
ghost use Rattle.gu_flow.specs.Floors.{KeepsFloors, room_out};
ghost use Rattle.gu_flow.specs.Flows.{IsFlow, IsWithin, Pushes};
ghost use Rattle.gu_flow.specs.Rounds.{AreMeasured, HasRooms, IsFree};
ghost use Rattle.gu_flow.specs.Searches.{level_at, IsQueue};

use crate::network::Network;
use crate::searching::Search;
use std::alloc::{AllocError, Global};

/// A flow, with a floor below which each arc may not fall, and a region for each node: flow between two regions is fixed.
#[derive(Drop)]
pub struct Allotment {
    pub(crate) flow: Vec<u64>,
    pub(crate) floors: Vec<u64>,
    pub(crate) regions: Vec<u32>,
    /// For each end, the lots that can be pushed from it to the other.
    pub(crate) rooms: Vec<u64>,
}

impl Allotment {
    /// Returns the allotment of a flow: no floors, one region.
    pub(crate) fn new(alloc: Global, net: &Network, flow: Vec<u64>) -> Result<Allotment, AllocError>
        requires { IsFlow net.now.arcs.items flow.items }
        ensures { IfOk result (λ a. IsFree net.now.arcs.items (length net.now.first.items) a) }
    {
        let floors = vec![in alloc; 0; flow.len()]?;
        let regions = vec![in alloc; 0; net.last_ends().len()]?;
        let rooms = vec![in alloc; 0; 2 * flow.len()]?;
        let mut allotment = Allotment {
            flow,
            floors,
            regions,
            rooms,
        };
        allotment.measure_all(net);
        Ok(allotment)
    }

    /// Finds the lots that can be pushed over each end of an arc, after its flow or its floor has changed.
    pub(crate) fn measure(&mut self, net: &Network, place: usize)
        requires within { IsWithin net.now.arcs.items self.old.flow.items }
        requires keeps { KeepsFloors self.old.floors.items self.old.flow.items }
        requires sizes { (length self.old.floors.items ≡ length net.now.arcs.items) × (length self.old.rooms.items ≡ 2 * length net.now.arcs.items) }
        requires place { place < length net.now.arcs.items }
        ensures here { AreMeasured net.now.arcs.items self.new place }
        ensures others { (k : ℕ) → k ≢ place → AreMeasured net.now.arcs.items self.old k → AreMeasured net.now.arcs.items self.new k }
        ensures size { length self.new.rooms.items ≡ length self.old.rooms.items }
        ensures same { (self.new.flow ≡ self.old.flow) × (self.new.floors ≡ self.old.floors) × (self.new.regions ≡ self.old.regions) }
    {
        self.rooms[2 * place] = net.capacity(2 * place as u32) - self.flow[place];
        self.rooms[2 * place + 1] = self.flow[place] - self.floors[place];
    }

    /// Finds the lots that can be pushed over each end.
    pub(crate) fn measure_all(&mut self, net: &Network)
        requires within { IsWithin net.now.arcs.items self.old.flow.items }
        requires keeps { KeepsFloors self.old.floors.items self.old.flow.items }
        requires sizes { (length self.old.floors.items ≡ length net.now.arcs.items) × (length self.old.rooms.items ≡ 2 * length net.now.arcs.items) }
        ensures rooms { HasRooms net.now.arcs.items self.new }
        ensures same { (self.new.flow ≡ self.old.flow) × (self.new.floors ≡ self.old.floors) × (self.new.regions ≡ self.old.regions) }
    {
        for place in 0..net.arcs().len() {
            self.measure(net, place);
        }
    }

    /// Pushes lots over an end, from its node to the other.
    pub(crate) fn push(&mut self, net: &Network, end: u32, lots: u64)
        requires within { IsWithin net.now.arcs.items self.old.flow.items }
        requires keeps { KeepsFloors self.old.floors.items self.old.flow.items }
        requires end { end < 2 * length net.now.arcs.items }
        requires room { lots ≤ room_out net.now.arcs.items self.old.floors.items self.old.flow.items end }
        ensures pushes { Pushes net.now.arcs.items self.old.flow.items self.new.flow.items end lots }
        ensures keeps { KeepsFloors self.new.floors.items self.new.flow.items }
        ensures along { end % 2 ≡ 0 → slice_index self.new.flow.items (end / 2) ≡ slice_index self.old.flow.items (end / 2) + lots }
        ensures same { (self.new.floors ≡ self.old.floors) × (self.new.regions ≡ self.old.regions) × (self.new.rooms ≡ self.old.rooms) }
    {
        if end % 2 == 0 {
            self.flow[end as usize / 2] += lots;
        } else {
            self.flow[end as usize / 2] -= lots;
        }
    }

    /// Makes the nodes that a search has reached a region.
    pub(crate) fn set_apart(&mut self, search: &Search, region: u32)
        requires waits { IsQueue search.now.marks.items search.now.queue.items search.now.count }
        requires places { (length search.now.marks.items ≡ length self.old.regions.items)
            × (length search.now.queue.items ≡ length self.old.regions.items) }
        ensures same { (self.new.flow ≡ self.old.flow) × (self.new.floors ≡ self.old.floors) × (self.new.rooms ≡ self.old.rooms) }
        ensures size { length self.new.regions.items ≡ length self.old.regions.items }
        ensures inside { (n : ℕ) → 0 < level_at search.now.marks.items n → slice_index self.new.regions.items n ≡ region }
        ensures outside { (n : ℕ) → level_at search.now.marks.items n ≡ 0
            → slice_index self.new.regions.items n ≡ slice_index self.old.regions.items n }
    {
        for place in 0..search.count {
            self.regions[search.queue[place] as usize] = region;
        }
    }
}
