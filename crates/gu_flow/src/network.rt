//! Networks of arcs, and the ends at each node: end 2k is the tail of arc k, and end 2k + 1 its head.

ghost use Rattle.std.specs.Prelude.{◌≡◌, ◌*◌, ◌/◌, ◌^◌, ◌<◌, ◌≤◌, All, IfOk, length, slice_index};
ghost use Rattle.gu_flow.specs.Ends.{arc_at, near, far, other_end, last_before, capacities, IsCurrent, IsIndex, IsNetwork, JoinsNodes};

use std::alloc::{AllocError, Global};

/// The source.
pub(crate) const SOURCE: u32 = 0;

/// The sink.
pub(crate) const SINK: u32 = 1;

/// An arc from one node to another, and its capacity.
#[derive(Clone, Copy)]
pub struct Arc {
    pub from: u32,
    pub to: u32,
    pub capacity: u64,
}

/// Where an end leads: to the node at the arc's other end, and to the previous end at its own node.
#[derive(Clone, Copy)]
pub struct EndLink {
    pub far: u32,
    /// The previous end plus one, or 0 if there is none.
    pub next: u32,
}

/// A network: arcs that join nodes, with the ends at each node.
#[derive(Drop)]
pub(crate) struct Network {
    arcs: Vec<Arc>,
    /// For each node, its last end plus one, or 0 if it has none.
    first: Vec<u32>,
    /// For each end, where it leads.
    links: Vec<EndLink>,
    ghost is_network: { IsNetwork arcs.items first.items links.items },
}

/// Returns the arc's other end.
pub(crate) fn other_end(end: u32) -> u32
    ensures { result ≡ other_end end }
{
    end ^ 1
}

/// Returns the node at an end.
fn near(arcs: &[Arc], end: u32) -> u32
    requires { end < 2 * length arcs.now }
    ensures { result ≡ near arcs.now end }
{
    let arc = &arcs[end as usize / 2];
    if end % 2 == 0 { arc.from } else { arc.to }
}

/// Links the ends at each node, from the last to the first.
fn link(arcs: &[Arc], first: &mut [u32], links: &mut [EndLink])
    requires joins { JoinsNodes arcs.now (length first.old) }
    requires few { length arcs.now < 2 ^ 31 }
    requires none { All (λ ends. ends ≡ 0) first.old }
    requires ends { length links.old ≡ 2 * length arcs.now }
    ensures { IsIndex arcs.now first.new links.new (2 * length arcs.now) }
{
    for end in 0..links.len() {
        let node = near(arcs, end as u32) as usize;
        links[end] = EndLink {
            far: near(arcs, other_end(end as u32)),
            next: first[node],
        };
        first[node] = end as u32 + 1;
    }
}

#[tactic(auto, using(crate::proofs::Linking::last_is_before))]
impl Network {
    /// Returns the network of these arcs between this many nodes.
    pub(crate) fn new(alloc: Global, arcs: Vec<Arc>, nodes: usize) -> Result<Network, AllocError>
        requires joins { JoinsNodes arcs.items nodes }
        requires few { (nodes < 2 ^ 31) × (1 < nodes) × (length arcs.items < 2 ^ 31) }
        requires fits { capacities arcs.items < 2 ^ 64 }
        ensures arcs { IfOk result (λ net. net.arcs.items ≡ arcs.items) }
        ensures nodes { IfOk result (λ net. length net.first.items ≡ nodes) }
    {
        let mut first = vec![in alloc; 0; nodes]?;
        let mut links = vec![in alloc; EndLink { far: 0, next: 0 }; 2 * arcs.len()]?;
        link(&arcs, &mut first, &mut links);
        Ok(Network { arcs, first, links })
    }

    pub(crate) fn arcs(&self) -> &[Arc]
        ensures { result.now ≡ self.now.arcs.items }
    {
        &self.arcs
    }

    /// Returns the capacity of the arc of an end.
    pub(crate) fn capacity(&self, end: u32) -> u64
        requires { end < 2 * length self.now.arcs.items }
        ensures { result ≡ (arc_at self.now.arcs.items (end / 2)).capacity }
    {
        self.arcs[end as usize / 2].capacity
    }

    /// Returns the node at an end.
    pub(crate) fn near(&self, end: u32) -> u32
        requires { end < 2 * length self.now.arcs.items }
        ensures is { result ≡ near self.now.arcs.items end }
        ensures within { result < length self.now.first.items }
    {
        near(&self.arcs, end)
    }

    /// Returns the node at the other end of the arc.
    pub(crate) fn far(&self, end: u32) -> u32
        requires { end < 2 * length self.now.arcs.items }
        ensures is { result ≡ far self.now.arcs.items end }
        ensures within { result < length self.now.first.items }
    {
        self.links[end as usize].far
    }

    /// Returns a node's last end plus one, or 0 if it has none.
    pub(crate) fn ends(&self, node: u32) -> u32
        requires { node < length self.now.first.items }
        ensures is { result ≡ last_before self.now.arcs.items (2 * length self.now.arcs.items) node }
        ensures within { result ≤ 2 * length self.now.arcs.items }
    {
        self.first[node as usize]
    }

    /// Returns the previous end at the same node plus one, or 0 if there is none.
    pub(crate) fn ends_before(&self, end: u32) -> u32
        requires { end < 2 * length self.now.arcs.items }
        ensures is { result ≡ last_before self.now.arcs.items end (near self.now.arcs.items end) }
        ensures less { result ≤ end }
    {
        self.links[end as usize].next
    }

    /// Returns the last end of each node.
    pub(crate) fn last_ends(&self) -> &[u32]
        ensures nodes { length result.now ≡ length self.now.first.items }
        ensures current { IsCurrent self.now.arcs.items result.now }
    {
        &self.first
    }
}
