//! Nodes waiting for their turn.

ghost use Rattle.std.specs.Prelude.{◌≡◌, ◌<◌, ◌≤◌, All, IfOk, IfSome, length, vec_len};

use std::alloc::{AllocError, Global};

/// A queue of waiting nodes, first come, first served.
#[derive(Drop)]
pub(crate) struct Waiting {
    ring: Vec<u32>,
    first: usize,
    count: usize,
    ghost nodes: { All (λ n. n < vec_len ring) ring.items },
}

impl Waiting {
    /// Returns an empty queue for this many nodes.
    pub(crate) fn new(alloc: Global, nodes: usize) -> Result<Waiting, AllocError>
        requires { 0 < nodes }
        ensures { IfOk result (λ waiting. vec_len waiting.ring ≡ nodes) }
    {
        let ring = vec![in alloc; 0; nodes]?;
        Ok(Waiting {
            ring,
            first: 0,
            count: 0,
        })
    }

    /// Adds a node at the back, if there is room.
    pub(crate) fn add(&mut self, node: u32)
        requires { node < vec_len self.old.ring }
        ensures { vec_len self.new.ring ≡ vec_len self.old.ring }
    {
        let places = self.ring.len();
        if self.first < places && self.count < places {
            let ahead = places - self.first;
            let place = if self.count < ahead {
                self.first + self.count
            } else {
                self.count - ahead
            };
            self.ring[place] = node;
            self.count += 1;
        }
    }

    /// Removes and returns the node that has waited longest.
    pub(crate) fn take(&mut self) -> Option<u32>
        ensures ring { vec_len self.new.ring ≡ vec_len self.old.ring }
        ensures node { IfSome result (λ node. node < vec_len self.new.ring) }
    {
        if self.count == 0 || self.first >= self.ring.len() {
            return None;
        }
        let node = self.ring[self.first];
        self.count -= 1;
        self.first += 1;
        if self.first == self.ring.len() {
            self.first = 0;
        }
        Some(node)
    }
}
