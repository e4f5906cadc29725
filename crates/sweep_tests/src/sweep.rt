//! Proposals whose takes and cuts are known.
use crate::rows::{Subject, check, shown};
use crate::sheets::Question;
use gu_flow::{Proposal, propose};
use gu_text::{sheet_text, verdict_text};
use gu_view::View;
use std::alloc::{AllocError, Global};

/// The parts of a proposal besides its lots.
#[derive(Clone, Copy)]
pub enum Telling {
    Lots,
    /// The line that a check answers, the takes and the cut.
    Takes,
    /// The takes alone.
    Given,
}

/// Returns the lots of a proposal, the line that a check of it answers, and its sheet from a word on.
fn from_word(alloc: Global, proposal: &Proposal, word: &str) -> Result<String, AllocError> {
    let verdict = gu_view::check(proposal.view(), proposal.takes(), proposal.cut());
    let verdict = shown(alloc, verdict_text(alloc, &verdict))?;
    let sheet = sheet_text(alloc, proposal.view(), proposal.takes(), proposal.cut());
    let sheet = shown(alloc, sheet)?;
    let (_, rest) = sheet.split_once(word).unwrap_or(("", ""));
    format!(in alloc; "{} {verdict}{word}{rest}", proposal.lots())
}

/// Returns the takes of a proposal.
fn takes_text(alloc: Global, proposal: &Proposal) -> Result<String, AllocError> {
    let sheet = sheet_text(alloc, proposal.view(), proposal.takes(), proposal.cut());
    let sheet = shown(alloc, sheet)?;
    let (_, rest) = sheet.split_once("TAKE").unwrap_or(("", ""));
    let (takes, _) = rest.split_once("CUT").unwrap_or(("", ""));
    format!(in alloc; "TAKE{takes}")
}

/// Returns a proposal as text.
fn proposal_text(
    alloc: Global,
    telling: Telling,
    proposal: &Proposal,
) -> Result<String, AllocError> {
    match telling {
        Telling::Lots => format!(in alloc; "{}", proposal.lots()),
        Telling::Takes => from_word(alloc, proposal, "TAKE"),
        Telling::Given => takes_text(alloc, proposal),
    }
}

/// Returns the copy of a proposal as text.
fn copy_text(alloc: Global, telling: Telling, proposal: &Proposal) -> Result<String, AllocError> {
    let copy = proposal.copy()?;
    proposal_text(alloc, telling, &copy)
}

/// Returns the proposal for a view that was given back, if that is this view.
fn proposed_again(alloc: Global, view: &View, given: View) -> Result<Option<Proposal>, AllocError> {
    if !given.is_same(view) || !given.nested() {
        return Ok(None);
    }
    match propose(alloc, given) {
        Ok(proposal) => Ok(Some(proposal)),
        Err((refused, _)) => Err(refused),
    }
}

/// Returns the proposal for a nested view, retrying once if memory is refused.
fn proposed(alloc: Global, view: &View) -> Result<Option<Proposal>, AllocError> {
    let copy = view.copy()?;
    if !copy.nested() {
        return Ok(None);
    }
    match propose(alloc, copy) {
        Ok(proposal) => Ok(Some(proposal)),
        Err((_, given)) => proposed_again(alloc, view, given),
    }
}

/// Returns the proposal for a view as text.
pub fn sweep_text(alloc: Global, telling: Telling, view: &View) -> Result<String, AllocError> {
    match proposed(alloc, view)? {
        Some(proposal) => copy_text(alloc, telling, &proposal),
        None => String::from_str(alloc, "nothing"),
    }
}

/// Views, and the lots of their proposals, the line that a check answers, the takes and the cut, in the order of the view.
const TAKES: &str = "\
SHEET G1 0|OFFER 1 7 P1 E1 A1 C1|ROOM EXEC E1 100|ROOM AGR P1 100|ROOM ACCT A1 100|ROOM CARRY C1 100|END| -> \
    7 OK 7|TAKE 1 7|CUT OFFER 1|END|
crossed: -> 20 OK 20|TAKE 1 0|TAKE 2 10|TAKE 3 10|CUT EXEC E1|CUT ACCT A1|END|
shared: -> 7 OK 7|TAKE 1 5|TAKE 2 2|CUT AGR P1|END|
guaranteed: -> 4 OK 4|TAKE 1 4|CUT GUAR E2|END|
unlimited: -> 0 OK 0|TAKE 1 0|CUT GUAR E2|END|
mixed: -> 11 OK 11|TAKE 1 3|TAKE 2 8|CUT GUAR E2|CUT CARRY C2|END|
empty: -> 0 OK 0|TAKE
";

/// Views in which other takes are as great. The second has 13 lots for three offers of ten; in the last, lots that are added
/// offer by offer would be sent round past older offers, and 2, 1, 3 and 3 be taken.
const OLDEST: &str = "\
narrow: -> 13 OK 13|TAKE 1 10|TAKE 2 3|CUT CARRY C1|END|
SHEET G1 0|OFFER 1 10 P1 E1 A1 C1|OFFER 2 10 P2 E1 A2 C1|OFFER 3 10 P3 E1 A3 C1|ROOM EXEC E1 100|ROOM AGR P1 100|\
    ROOM ACCT A1 100|ROOM CARRY C1 13|ROOM AGR P2 100|ROOM ACCT A2 100|ROOM AGR P3 100|ROOM ACCT A3 100|END| -> \
    13 OK 13|TAKE 1 10|TAKE 2 3|TAKE 3 0|CUT CARRY C1|END|
both: -> 10 OK 10|TAKE 1 8|TAKE 2 2|CUT GUAR E2|END|
SHEET G1 0|OFFER 1 4 P1 E1 A1 C1|OFFER 2 1 P2 E2 A1 C1|OFFER 3 4 P3 E1 A2 C1|OFFER 4 4 P4 E2 A2 C1|ROOM EXEC E1 5|\
    ROOM AGR P1 4|ROOM ACCT A1 3|ROOM CARRY C1 11|ROOM EXEC E2 4|ROOM AGR P2 1|ROOM AGR P3 6|ROOM ACCT A2 8|\
    ROOM AGR P4 6|END| -> 9 OK 9|TAKE 1 3|TAKE 2 0|TAKE 3 2|TAKE 4 4|CUT EXEC E1|CUT EXEC E2|END|
";

#[test]
fn takes_what_greedy_misses_and_shows_why_no_more(rt: HostRuntime) {
    let takes = Subject::Sheets(Question::Sweep(Telling::Takes));
    check(&rt, rt.alloc(), takes, TAKES);
}

#[test]
fn gives_older_offers_more_where_other_takes_are_as_great(rt: HostRuntime) {
    let takes = Subject::Sheets(Question::Sweep(Telling::Takes));
    check(&rt, rt.alloc(), takes, OLDEST);
}
