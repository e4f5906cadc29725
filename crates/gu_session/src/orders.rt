//! Laws of the order in which a session gives outputs.

ghost use Rattle.gu_session.specs.Orders.{CloseIsLast, ExpectedNeverFalls, HandsOutInOrder, NothingBeforeTheLogon, OneAnswer, ReferencesGoUp};

/// A session ends at most once, and gives nothing afterwards.
pub fn close_is_last()
    ensures { CloseIsLast }
{}

/// Before a firm logs on, the session gives nothing but its end.
pub fn nothing_before_the_logon()
    ensures { NothingBeforeTheLogon }
{}

/// A step hands out at most one request, with the number that was expected.
pub fn hands_out_in_order()
    ensures { HandsOutInOrder }
{}

/// The expected number never decreases.
pub fn expected_never_falls()
    ensures { ExpectedNeverFalls }
{}

/// In every run, each reference is handed out at most once.
pub fn references_go_up()
    ensures { ReferencesGoUp }
{}

/// Each question is answered at most once.
pub fn one_answer()
    ensures { OneAnswer }
{}
