//! Each worker's work in hand.

ghost use Rattle.std.specs.Prelude.{◌≡◌, ◌⊎◌, [], length, replicate, None, Some, IsSome, IfOk, OnOk, OnSome, slice_index_or, slice_set};
ghost use Rattle.std.specs.Option.{option_copied};

use crate::held::Held;
use crate::worker::{WORKERS, Worker};
use std::alloc::{AllocError, Global};
use std::marker::Model;
use std::mem;

/// Each worker's work in hand. Slots for all workers are allocated at the first look. To a contract it is the list of these slots.
pub struct Looks {
    slots: Vec<Option<Held>>,
    alloc: Global,
}

impl Model for Looks {
    ghost use Rattle.std.specs.Prelude.{List, Option};
    ghost use Rattle.gu_world.specs.declared.held.Held.{Held};
    ghost use Rattle.gu_world.specs.Looks.{AreMade};

    ghost Value = { List (Option Held) };

    ghost view = { λ l. l.slots.items };

    ghost invariant = { λ l. AreMade l.slots.items };
}

// By hand, so that their owner drops them with one call.
impl Drop for Looks {
    fn drop(self) {
        let Looks { slots, alloc: _ } = self;
        drop(slots);
    }
}

/// Returns an empty slot for each worker.
fn empty_places(alloc: Global) -> Result<Vec<Option<Held>>, AllocError>
    ensures { IfOk result (λ slots. slots.items ≡ replicate 64 None) }
{
    let mut slots = Vec::new(alloc);
    for _ in 0..WORKERS {
        slots.push(None)?;
    }
    Ok(slots)
}

impl Looks {
    /// Returns no slots.
    pub fn new(alloc: Global) -> Self
        ensures { result ≡ [] }
    {
        Looks {
            slots: Vec::new(alloc),
            alloc,
        }
    }

    /// Allocates the slots, if there are none.
    pub fn make(&mut self) -> Result<(), AllocError>
        ensures made { OnOk result (length self.new ≡ 64) }
        ensures kept { (self.new ≡ self.old) ⊎ ((self.old ≡ []) × (self.new ≡ replicate 64 None)) }
    {
        if self.slots.is_empty() {
            self.slots = empty_places(self.alloc)?;
        }
        Ok(())
    }

    /// Returns a worker's work in hand.
    pub fn get(&self, worker: Worker) -> Option<&Held>
        ensures { option_copied result ≡ slice_index_or self.now worker None }
    {
        let place = usize::from(worker.get());
        if place >= self.slots.len() {
            return None;
        }
        self.slots[place].as_ref()
    }

    /// Takes a worker's work in hand, which leaves it none.
    pub fn take(&mut self, worker: Worker) -> Option<Held>
        ensures held { result ≡ slice_index_or self.old worker None }
        ensures left { self.new ≡ slice_set self.old worker None }
        ensures made { OnSome result (length self.new ≡ 64) }
    {
        let place = usize::from(worker.get());
        if place >= self.slots.len() {
            return None;
        }
        mem::replace(&mut self.slots[place], None)
    }

    /// Gives a worker this work.
    pub fn put(&mut self, worker: Worker, held: Held)
        requires { length self.old ≡ 64 }
        ensures { self.new ≡ slice_set self.old worker (Some held) }
    {
        let place = usize::from(worker.get());
        // Shows the prover: a worker is one of 64.
        let _within = worker.get();
        self.slots[place] = Some(held);
    }
}
