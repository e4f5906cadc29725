//! Results of a turn.

ghost use Rattle.std.specs.Prelude.{◌≡◌};
ghost use Rattle.gu_engine.specs.Turned.{is_last};

/// The result of a turn, which says when to make the next. As long as answers are held (`Backlog::is_sent`), the next turn is also due when
/// they can go out.
#[derive(Clone, Copy, Debug, PartialEq, Eq)]
pub enum Turned {
    /// Everything is answered, and the reader may have more: at once.
    Again,
    /// Everything is answered, and the reader has nothing for now: when it has more.
    Waits,
    /// More than 65,536 bytes are held, so nothing was read, or some events may be left unanswered: when they can go out.
    Full,
    /// Nothing is left to do: no further turn, once all answers are sent.
    Done,
    /// The input has ended: no further turn, once all answers are sent.
    End,
    /// Reading stopped, or the turn couldn't begin: no further turn.
    Stopped,
}

impl Turned {
    /// Returns whether no further turn is due.
    pub fn is_last(self) -> bool
        ensures { result ≡ is_last self }
    {
        matches!(self, Turned::Done | Turned::End | Turned::Stopped)
    }
}
