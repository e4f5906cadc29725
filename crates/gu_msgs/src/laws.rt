//! Laws of all messages.

ghost use Rattle.std.specs.Prelude.{◌≡◌, ◌⊎◌, ℕ, List, MatchOption};
ghost use Rattle.gu_fix.specs.TagValue.{TagValue};
ghost use Rattle.gu_msgs.specs.Faults.{IsFaultOf};
ghost use Rattle.gu_msgs.specs.Messages.{Says};
ghost use Rattle.gu_msgs.specs.Shape.{StandsAgain, StandsAgainFirst, repeated};
ghost use Rattle.gu_msgs.specs.declared.fault.Fault.{Fault as FaultOf};
ghost use Rattle.gu_msgs.specs.declared.inbound.Inbound.{Inbound as InboundOf};
ghost use Rattle.gu_msgs.specs.declared.row.Row.{Row as RowOf};

/// Fields are a message, or have a fault.
pub fn a_message_or_a_fault()
    ensures { (fields : List TagValue) → ((message : InboundOf) × Says fields message) ⊎ ((fault : FaultOf) × IsFaultOf fields fault) }
{}

/// They are never both.
pub fn what_is_read_has_no_fault()
    ensures { (fields : List TagValue) (message : InboundOf) (fault : FaultOf) → Says fields message → IsFaultOf fields fault → ⊥ }
{}

/// Fields have at most one first fault.
pub fn one_first_fault()
    ensures { (fields : List TagValue) (fault other : FaultOf) → IsFaultOf fields fault → IsFaultOf fields other → fault ≡ other }
{}

/// Fields are at most one message.
pub fn one_message()
    ensures { (fields : List TagValue) (message other : InboundOf) → Says fields message → Says fields other → message ≡ other }
{}

/// The tag reported as repeated is that of the leftmost field that repeats one; if none is reported, none is repeated.
pub fn the_leftmost_second_standing_is_named()
    ensures { (rows : List RowOf) (fields : List TagValue)
        → MatchOption (repeated rows fields) ((place : ℕ) → ¬ StandsAgain rows fields place) (StandsAgainFirst rows fields) }
{}
