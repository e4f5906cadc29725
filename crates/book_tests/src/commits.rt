//! Commits of proposals for views that somebody made, and of copies: the book is as it was if one is
//! refused, and the proposal comes back. And sweeps of views that were just seen.

ghost use Rattle.std.specs.Prelude.{◌≡◌, true};
ghost use Rattle.gu_ref.specs.Reference.{is_group};
ghost use Rattle.gu_view.specs.View.{IsNested};
ghost use Rattle.gu_rules.specs.Views.{group_view};

use crate::beginnings::beginning;
use crate::transcript::{Patience, follow, picture, world_of};
use gu_book::{Book, kept_sweep, swept_receipt};
use gu_flow::{Proposal, propose};
use gu_terms::Group;
use gu_text::Sheet;
use gu_view::View;
use std::alloc::Global;
use std::process::Abort;

/// Views for which a proposal is made, each as a sheet after what comes of a copy of the proposal and
/// what comes of the proposal itself, in a book in which G1 has version 6 and offer 1 of seven lots.
const VIEWS: &str = "\
== Foreign, Foreign
SHEET G1 6
OFFER 1 6 P1 E1 A1 C1
ROOM EXEC E1 100
ROOM AGR P1 100
ROOM ACCT A1 100
ROOM CARRY C1 100
END
== Foreign, Foreign
SHEET G1 6
END
== Foreign, Foreign
SHEET G9 1
END
== Stale 0 1, Stale 0 1
SHEET G9 0
END
== entry 9, Stale 6 7
SHEET G1 6
OFFER 1 7 P1 E1 A1 C1
ROOM EXEC E1 100
ROOM AGR P1 100
ROOM ACCT A1 100
ROOM CARRY C1 100
END
";

/// Returns a proposal for the view of a sheet.
fn proposal_for(alloc: Global, sheet: &str) -> Option<Proposal> {
    let sheet = Sheet::read(alloc, sheet.as_bytes()).ok()?;
    let view = sheet.view.copy().ok()?;
    if view.nested() {
        propose(alloc, view).ok()
    } else {
        None
    }
}

/// Returns what comes of a proposal: the number of its entry, or why it is refused.
fn commit_told(rt: &impl Abort, alloc: Global, book: &mut Book, proposal: Proposal) -> String {
    let before = picture(rt, alloc, book);
    let lots = proposal.lots();
    let told = match book.commit(proposal) {
        Ok(receipt) => format!(in alloc; "entry {}", receipt.number).ok(),
        Err((why, proposal)) => {
            assert_eq!(rt; proposal.lots(), lots);
            assert!(rt; picture(rt, alloc, book) == before);
            format!(in alloc; "{why}").ok()
        }
    };
    told.expect(rt, "memory")
}

/// Commits a copy of a proposal for the view of a sheet, and then the proposal.
fn commit_twice(rt: &impl Abort, alloc: Global, book: &mut Book, want: &str, sheet: &str) {
    let proposal = proposal_for(alloc, sheet).expect(rt, "a proposal");
    let copy = proposal.copy().ok().expect(rt, "a copy");
    let first = commit_told(rt, alloc, book, copy);
    let second = commit_told(rt, alloc, book, proposal);
    let told = format!(in alloc; "{first}, {second}").ok();
    let told = told.expect(rt, "memory");
    assert_eq!(rt; told.as_str(), want, "{sheet}");
}

/// Sweeps the group of a view, as the book is now, by a borrowed proposal with the sweep as the history
/// keeps it. Returns the number of the entry, which is that of its receipt, and the lots.
fn sweep_view(rt: &impl Abort, alloc: Global, book: &mut Book, view: View) -> (u64, u64)
    requires nested { IsNested view }
    requires known { is_group book.old.reference view.group ≡ true }
    requires current { view ≡ group_view book.old.reference book.old.history view.group }
{
    let Ok(proposal) = propose(alloc, view) else {
        panic!(rt; "no proposal");
    };
    let Ok(kept) = kept_sweep(alloc, &proposal) else {
        panic!(rt; "no memory");
    };
    let lots = proposal.lots();
    let Ok(number) = book.enter_seen(&proposal, kept) else {
        panic!(rt; "no entry");
    };
    let receipt = swept_receipt(number, proposal);
    let is_entry = book.history().is_entry(number, &receipt.entry);
    assert_eq!(rt; is_entry, Some(true));
    (receipt.number, lots)
}

/// Sweeps a group by its view.
fn sweep_seen(rt: &impl Abort, alloc: Global, book: &mut Book, group: &Group) -> (u64, u64) {
    let Ok(view) = book.view(group) else {
        panic!(rt; "no view");
    };
    sweep_view(rt, alloc, book, view)
}

/// Returns a book in which G1 has version 6 and offer 1 of seven lots.
fn book_with_an_offer(rt: &impl Abort, alloc: Global) -> Book {
    let mut world = world_of(rt, alloc, "", "", Patience::Never);
    let lines = beginning("an offer");
    follow(rt, alloc, &mut world, "an offer", lines, Patience::Never);
    world.into_book()
}

#[test]
fn a_view_is_foreign_stale_or_the_books(rt: HostRuntime) {
    let alloc = rt.alloc();
    let mut book = book_with_an_offer(&rt, alloc);
    for view in VIEWS.split("== ") {
        if let Some((want, sheet)) = view.split_once("\n") {
            commit_twice(&rt, alloc, &mut book, want, sheet);
        }
    }
}

#[test]
fn a_view_that_was_just_seen_is_swept(rt: HostRuntime) {
    let alloc = rt.alloc();
    let mut book = book_with_an_offer(&rt, alloc);
    let group = Group::new(b"G1").expect(&rt, "a group");
    assert_eq!(rt; sweep_seen(&rt, alloc, &mut book, &group), (9, 7));
    assert_eq!(rt; sweep_seen(&rt, alloc, &mut book, &group), (10, 0));
    assert_eq!(rt; book.lots_swept(), 7);
}
