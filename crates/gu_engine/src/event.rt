//! Inputs of an engine.

use gu_fix::Frame;

/// An event that an engine is given.
#[derive(Drop)]
pub enum Event {
    /// A whole message arrived.
    Frame(Frame),
    /// A turn began in which the reader has nothing for now.
    Silence,
    /// The next part of what is due is to be given.
    More,
    /// The turn is over.
    Over,
}
