//! Watchers of a script's lines.

use gu_world::World;
use std::alloc::AllocError;

/// A watcher sees each line of a script after it is carried out.
pub trait LineWatcher {
    /// Sees the world after the line with this number is carried out.
    fn see(&mut self, number: u64, world: &World) -> Result<(), AllocError>;
}

/// A watcher that does nothing.
#[derive(Drop)]
pub struct Unwatched;

impl LineWatcher for Unwatched {
    #[inline(always)]
    fn see(&mut self, _number: u64, _world: &World) -> Result<(), AllocError> {
        Ok(())
    }
}
