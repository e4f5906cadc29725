//! A bell that wakes a waiting thread.

/// A bell that wakes a waiting thread. If the thread doesn't wait yet, its next wait ends at once.
pub trait Bell {
    /// Wakes it.
    fn ring(&self);
}
