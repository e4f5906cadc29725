//! Laws of every engine.

ghost use Rattle.gu_engine.specs.Running.{AreReads, TurnsGoOn};
ghost use Rattle.gu_engine.specs.Turns.{CutTurnsGoOn, UncutTurnsArePieces};

use crate::answerer::Answerer;

/// If the reader always has something or is at its end, each turn is a read of some bytes.
pub fn reads_alone()
    ensures { AreReads }
{}

/// Turns followed by more turns are answered as all of them one after another. So an exchange that is resumed is one exchange.
pub fn turns_go_on<A: Answerer>()
    ensures { TurnsGoOn A.engine }
{}

/// A turn that reads and leaves nothing answers its piece at its moment.
pub fn uncut_turns_are_pieces<A: Answerer>()
    ensures { UncutTurnsArePieces A.engine }
{}

/// A cut turn and those that continue with what it left answer the events that its piece brings: each once, in order, and at the moment of
/// the turn that answers it.
pub fn cut_turns_go_on<A: Answerer>()
    ensures { CutTurnsGoOn A.engine }
{}
