//! Houses that answer many connections in turn.

/// A house that answers many connections in turn. Each has its own count of give-ups, by which sweeps are ordered.
pub trait AnswersMany {
    /// Turns to the connection with this number, which has counted this many give-ups.
    fn resume(&mut self, connection: u64, give_ups: u64);

    /// Returns the count of give-ups of the connection that it answers.
    fn give_ups(&self) -> u64;

    /// Returns how many entries it has seen. No answer that it has given shows a later one.
    fn seen(&self) -> u64;
}
