//! Answerers of events.

ghost use Rattle.std.specs.Prelude.{◌≡◌, ◌<◌, ◌++◌, List, true, ℕ, IfOk, OnErr, OnOk};
ghost use Rattle.gu_engine.specs.Running.{Engine, is_more};

use crate::clock::ClockFault;
use crate::event::Event;
use gu_terms::Moment;
use std::alloc::AllocError;

/// An answerer answers events one after another.
pub trait Answerer {
    /// The engine that specifies its answers.
    ghost engine: { Engine Self };

    /// The most parts of what is due that are still to be given.
    ghost parts_left: { Self → ℕ };

    /// Returns whether nothing is left to do.
    fn is_done(&self) -> bool
        ensures { result ≡ engine.is_done self.now };

    /// Returns whether something is due, which comes before any other event.
    fn is_due(&self) -> bool
        ensures { result ≡ engine.is_due self.now };

    /// Begins a turn, and returns its moment.
    fn begin_turn(&mut self) -> Result<Moment, ClockFault>
        ensures begun { IfOk result (λ now. engine.begins self.old now self.new) }
        ensures stopped { OnErr result (engine.stops self.old self.new) };

    /// Appends the answer to an event. What is due is requested with `Event::More`, and comes first.
    fn answer(&mut self, event: Event, now: Moment, output: &mut Vec<u8>) -> Result<(), AllocError>
        requires { engine.is_due self.old ≡ is_more event }
        ensures answered { OnOk result ((text : List ℕ) × (output.new.items ≡ output.old.items ++ text)
            × engine.answers now self.old event text self.new) }
        ensures fewer { OnOk result (is_more event ≡ true → parts_left self.new < parts_left self.old) };
}
