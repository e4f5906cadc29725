//! Laws of what a session sends and keeps.

ghost use Rattle.gu_session.specs.Laws.{AsksForTheGap, ClosedForGood, KeepsTheLastSent, NumbersGoUpByOne, OneStep, ResendsWhatWasSent, ServesWhatIsAsked};

/// In every run, new messages are numbered 1, 2, 3 and so on.
pub fn numbers_go_up_by_one()
    ensures { NumbersGoUpByOne }
{}

/// In every run, the messages kept are the last ones sent.
pub fn keeps_the_last_sent()
    ensures { KeepsTheLastSent }
{}

/// A ResendRequest is served with messages that cover each requested number once.
pub fn serves_what_is_asked()
    ensures { ServesWhatIsAsked }
{}

/// After the close the session gives nothing, and nothing changes.
pub fn closed_for_good()
    ensures { ClosedForGood }
{}

/// Whenever messages are missing before a frame, the session requests them.
pub fn asks_for_the_gap()
    ensures { AsksForTheGap }
{}

/// Every message that a step sends again was sent before, or is a gap fill.
pub fn resends_what_was_sent()
    ensures { ResendsWhatWasSent }
{}

/// For a state, an input and a moment, there is at most one step.
pub fn one_step()
    ensures { OneStep }
{}
