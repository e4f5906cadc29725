//! A search from one node within a region, which looks at a few ends at a time.

ghost use Rattle.std.specs.Prelude.{◌≡◌, ℕ, ◌-◌, ◌*◌, ◌<◌, ◌≤◌, IfOk, IfSome, length, slice_index};
ghost use Rattle.gu_flow.specs.Ends.{near, far};
ghost use Rattle.gu_flow.specs.Rounds.{room_inside, IsAllotment};
ghost use Rattle.gu_flow.specs.Searches.{level_at, is_reached, mark_at, turns_left, GoesOn, HasPlaces, IsClear, IsQueue, IsTree, IsSearch, KeepsReached};

use crate::allotment::Allotment;
use crate::network::{Network, other_end};
use std::alloc::{AllocError, Global};

/// The most ends that a search looks at in one turn.
const ENDS_A_TURN: u32 = 16;

/// A mark on a node that a search reached: the end, the level, and the most lots.
#[derive(Clone, Copy)]
pub struct Mark {
    /// The end at the previous node.
    pub via: u32,
    /// 1 for the node where the search began, and 0 if it hasn't reached this node.
    pub level: u32,
    pub lots: u64,
}

/// A search: what it has reached, and where it continues.
#[derive(Drop)]
pub struct Search {
    /// The node where it began.
    pub(crate) from: u32,
    /// Whether it goes back, to the nodes from which lots can be pushed.
    pub(crate) back: bool,
    pub(crate) marks: Vec<Mark>,
    /// The reached nodes, in order.
    pub(crate) queue: Vec<u32>,
    pub(crate) count: usize,
    /// The number of these whose ends have all been looked at.
    pub(crate) done: usize,
    /// The end of the next node to look at next, plus one; or 0.
    ends: u32,
}

impl Search {
    /// Returns a search that hasn't begun, with room for this number of nodes.
    pub(crate) fn new(alloc: Global, back: bool, nodes: usize) -> Result<Search, AllocError>
        ensures back { IfOk result (λ s. s.back ≡ back) }
        ensures places { IfOk result (λ s. HasPlaces nodes s) }
        ensures clear { IfOk result (λ s. IsClear s) }
    {
        let marks = vec![in alloc; Mark {
            via: 0,
            level: 0,
            lots: 0
        }; nodes]?;
        let queue = vec![in alloc; 0; nodes]?;
        Ok(Search {
            from: 0,
            back,
            marks,
            queue,
            count: 0,
            done: 0,
            ends: 0,
        })
    }

    /// Begins at a node, with at most this number of lots.
    pub(crate) fn begin(&mut self, net: &Network, from: u32, most: u64)
        requires clear { IsClear self.old }
        requires places { HasPlaces (length net.now.first.items) self.old }
        requires from { from < length net.now.first.items }
        requires some { 0 < most }
        ensures search { (room : ℕ → ℕ) → IsSearch net.now.arcs.items room self.new }
        ensures places { HasPlaces (length net.now.first.items) self.new }
        ensures same { (self.new.from ≡ from) × (self.new.back ≡ self.old.back) }
        ensures most { (mark_at self.new.marks.items from).lots ≡ most }
    {
        self.marks[from as usize] = Mark {
            via: 0,
            level: 1,
            lots: most,
        };
        self.queue[0] = from;
        self.from = from;
        self.count = 1;
        self.done = 0;
        self.ends = net.ends(from);
    }

    /// Returns whether it has reached a node.
    pub(crate) fn has(&self, node: u32) -> bool
        requires { node < length self.now.marks.items }
        ensures { result ≡ is_reached self.now.marks.items node }
    {
        self.marks[node as usize].level > 0
    }

    /// Marks the node at the other end of an arc as reached from this one, over an end with room for this number of lots.
    fn enter(&mut self, net: &Network, node: u32, end: u32, room: u64)
        requires places { HasPlaces (length net.now.first.items) self.old }
        requires waits { IsQueue self.old.marks.items self.old.queue.items self.old.count }
        requires end { (end < 2 * length net.now.arcs.items) × (node ≡ near net.now.arcs.items end) }
        requires reached { (0 < level_at self.old.marks.items node) × (0 < (mark_at self.old.marks.items node).lots) }
        requires new { level_at self.old.marks.items (far net.now.arcs.items end) ≡ 0 }
        requires some { 0 < room }
        ensures places { HasPlaces (length net.now.first.items) self.new }
        ensures tree { (rooms : ℕ → ℕ) → room ≤ rooms end → IsTree net.now.arcs.items rooms self.old.from self.old.marks.items
            → IsTree net.now.arcs.items rooms self.new.from self.new.marks.items }
        ensures waits { IsQueue self.new.marks.items self.new.queue.items self.new.count }
        ensures keeps { KeepsReached self.old self.new }
        ensures position { (self.new.done ≡ self.old.done) × (self.new.ends ≡ self.old.ends) }
        ensures there { 0 < level_at self.new.marks.items (far net.now.arcs.items end) }
    {
        let other = net.far(end);
        let mark = self.marks[node as usize];
        self.marks[other as usize] = Mark {
            via: end,
            level: mark.level + 1,
            lots: mark.lots.min(room),
        };
        self.queue[self.count] = other;
        self.count += 1;
    }

    /// Reaches the node at the other end of an arc, if it is new and lots can be pushed there.
    pub(crate) fn reach(&mut self, net: &Network, allotment: &Allotment, end: u32)
        requires allotment { IsAllotment net.now.arcs.items (length net.now.first.items) allotment.now }
        requires places { HasPlaces (length net.now.first.items) self.old }
        requires tree { IsTree net.now.arcs.items (room_inside net.now.arcs.items allotment.now self.old.back) self.old.from self.old.marks.items }
        requires waits { IsQueue self.old.marks.items self.old.queue.items self.old.count }
        requires end { (end < 2 * length net.now.arcs.items) × (0 < level_at self.old.marks.items (near net.now.arcs.items end)) }
        ensures places { HasPlaces (length net.now.first.items) self.new }
        ensures tree { IsTree net.now.arcs.items (room_inside net.now.arcs.items allotment.now self.new.back) self.new.from self.new.marks.items }
        ensures waits { IsQueue self.new.marks.items self.new.queue.items self.new.count }
        ensures keeps { KeepsReached self.old self.new }
        ensures reached { 0 < room_inside net.now.arcs.items allotment.now self.old.back end
            → 0 < level_at self.new.marks.items (far net.now.arcs.items end) }
    {
        let node = net.near(end);
        let room = self.room_to_new(net, allotment, allotment.regions[node as usize], end);
        if room > 0 {
            self.enter(net, node, end, room);
        }
    }

    /// Returns the lots that can be pushed over an end in a region to a node that hasn't been reached, or 0.
    fn room_to_new(&self, net: &Network, allotment: &Allotment, region: u32, end: u32) -> u64
        requires allotment { IsAllotment net.now.arcs.items (length net.now.first.items) allotment.now }
        requires places { HasPlaces (length net.now.first.items) self.now }
        requires end { end < 2 * length net.now.arcs.items }
        requires region { region ≡ slice_index allotment.now.regions.items (near net.now.arcs.items end) }
        ensures new { 0 < result → level_at self.now.marks.items (far net.now.arcs.items end) ≡ 0 }
        ensures room { level_at self.now.marks.items (far net.now.arcs.items end) ≡ 0
            → result ≡ room_inside net.now.arcs.items allotment.now self.now.back end }
    {
        let over = if self.back { other_end(end) } else { end };
        let room = allotment.rooms[over as usize];
        if room == 0 {
            return 0;
        }
        let other = net.far(end);
        if self.has(other) || allotment.regions[other as usize] != region {
            return 0;
        }
        room
    }

    /// Skips ends of the next node that reach nothing new, for one turn at most. Returns where it stops, an end plus one or 0 if there are no
    /// more, and the room over that end if it reaches a new node, or else 0.
    fn skip(&self, net: &Network, allotment: &Allotment) -> (u32, u64)
        requires allotment { IsAllotment net.now.arcs.items (length net.now.first.items) allotment.now }
        requires places { HasPlaces (length net.now.first.items) self.now }
        requires search { IsSearch net.now.arcs.items (room_inside net.now.arcs.items allotment.now self.now.back) self.now }
        requires on { self.now.done < self.now.count }
        ensures on { GoesOn net.now.arcs.items (room_inside net.now.arcs.items allotment.now self.now.back) self.now result.0 }
        ensures less { result.1 ≡ 0 → 0 < result.0 → result.0 < self.now.ends }
        ensures new { 0 < result.1 → (0 < result.0) × (level_at self.now.marks.items (far net.now.arcs.items (result.0 - 1)) ≡ 0) }
        ensures room { 0 < result.1 → result.1 ≡ room_inside net.now.arcs.items allotment.now self.now.back (result.0 - 1) }
    {
        let region = allotment.regions[self.queue[self.done] as usize];
        let mut ends = self.ends;
        for looked in 0..ENDS_A_TURN {
            if ends == 0 {
                return (0, 0);
            }
            let room = self.room_to_new(net, allotment, region, ends - 1);
            if room > 0 {
                return (ends, room);
            }
            ends = net.ends_before(ends - 1);
        }
        (ends, 0)
    }

    /// Takes a turn: looks at further ends of a node, until one reaches a new node. Returns that node.
    pub(crate) fn look(&mut self, net: &Network, allotment: &Allotment) -> Option<u32>
        requires allotment { IsAllotment net.now.arcs.items (length net.now.first.items) allotment.now }
        requires places { HasPlaces (length net.now.first.items) self.old }
        requires search { IsSearch net.now.arcs.items (room_inside net.now.arcs.items allotment.now self.old.back) self.old }
        requires on { self.old.done < self.old.count }
        ensures places { HasPlaces (length net.now.first.items) self.new }
        ensures search { IsSearch net.now.arcs.items (room_inside net.now.arcs.items allotment.now self.new.back) self.new }
        ensures keeps { KeepsReached self.old self.new }
        ensures found { IfSome result (λ n. (n < length net.now.first.items) × (0 < level_at self.new.marks.items n)) }
        ensures less { turns_left net.now.arcs.items self.new < turns_left net.now.arcs.items self.old }
    {
        let (ends, room) = self.skip(net, allotment);
        if room > 0 {
            let node = self.queue[self.done];
            let other = net.far(ends - 1);
            self.enter(net, node, ends - 1, room);
            self.ends = net.ends_before(ends - 1);
            return Some(other);
        }
        self.ends = ends;
        if ends == 0 {
            self.done += 1;
            if self.done < self.count {
                self.ends = net.ends(self.queue[self.done]);
            }
        }
        None
    }

    /// Clears what was reached.
    pub(crate) fn clear(&mut self)
        requires waits { IsQueue self.old.marks.items self.old.queue.items self.old.count }
        requires places { length self.old.queue.items ≡ length self.old.marks.items }
        ensures clear { IsClear self.new }
        ensures same { (self.new.back ≡ self.old.back) × (length self.new.marks.items ≡ length self.old.marks.items)
            × (length self.new.queue.items ≡ length self.old.queue.items) }
    {
        for place in 0..self.count {
            let node = self.queue[place];
            self.marks[node as usize].level = 0;
        }
    }
}
