//! Who answers the operators of a desk that follows a log.

use crate::follower::Follower;

/// What an operator wishes of a desk that follows a log.
#[derive(Clone, Copy, Debug, PartialEq, Eq)]
pub enum Wish {
    /// It is to take the lead.
    Lead,
    /// It is to end.
    Close,
}

/// What became of a wish that the desk takes the lead.
#[derive(Clone, Copy, Debug, PartialEq, Eq)]
pub enum LeadAnswer {
    /// It leads.
    Leading,
    /// Whenever it claimed the lead, the log had grown, or another desk had taken it.
    Stale,
    /// It doesn't lead, or it isn't known whether it does: no answer came, or the log's day is ended.
    NotLeading,
}

/// Who answers the operators of a desk that follows a log.
pub trait Attendance {
    /// Answers operators from what a follower has played, for this many milliseconds, or once. Returns sooner what one of them wishes.
    fn attend(&mut self, follower: &Follower, milliseconds: u64) -> Option<Wish>;

    /// Answers the operator who wished that the desk takes the lead.
    fn answer_lead(&mut self, answer: LeadAnswer);
}
