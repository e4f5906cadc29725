//! Ending a connection when the house closes.

ghost use Rattle.std.specs.Prelude.{◌≡◌, ◌⊎◌, true, IfErr, IsErrOf, OnErr, OnOk};
ghost use Rattle.gu_engine.specs.Closings.{Closes, HoldsTheSame, IsIdle};

use crate::answerer::Answerer;
use crate::backlog::Backlog;
use crate::clock::Clock;
use crate::connection::Connection;
use crate::house::House;
use gu_streams::StreamError;

/// Sends a logged-on firm the Logout of a closing house, at the clock's moment; it is held after the answers already held. The connection
/// is then over.
///
/// Call it only for a connection whose last turn left nothing unanswered (`Backlog::is_idle`).
pub fn close<H: House, C: Clock, O>(
    connection: &mut Connection<H, C>,
    backlog: &mut Backlog<O>,
) -> Result<(), StreamError>
    requires { IsIdle backlog.old }
    ensures closed { OnOk result (Closes C.ahead connection.old connection.new backlog.old backlog.new) }
    ensures kept { OnErr result (HoldsTheSame backlog.old backlog.new) }
    ensures stopped { IsErrOf result StreamError.Read → C.has_failed connection.new.clock ≡ true }
    ensures faults { IfErr result (λ error. (error ≡ StreamError.Memory) ⊎ (error ≡ StreamError.Read)) }
{
    let Ok(now) = connection.begin_turn() else {
        return Err(StreamError::Read);
    };
    connection.close(now, &mut backlog.held.bytes)?;
    Ok(())
}
