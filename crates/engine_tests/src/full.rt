//! A connection to a book that is full.

use crate::books::sample;
use crate::exchanges::{Desk, told};
use crate::rows::check_told;
use gu_book::Book;
use gu_houses::OverBook;
use gu_terms::{Command, Day, OpenDay};
use std::alloc::Global;
use std::process::Abort;
use trials::{AMPLE, Talk};

/// A report, and a claim of an offer that there isn't.
const REPORT: &str = "\
in A 1 98=0|108=0|1137=9|
out A 1 98=0|108=0|1137=9|
in AE 2 571=R1|880=M1|55=XF6|32=10|31=101.5|552=1|54=1|1=H1|
out AR 2 571=R1|880=M1|939=1|751=99|58=Full|
in AT 3 755=1|87=0|
out j 3 45=3|379=1|372=AT|380=0|58=Full|
in 5 4
out 5 4";

/// Returns a book with as many entries as there may be: a day that is opened once, and again and again.
fn full_book(rt: &impl Abort, alloc: Global) -> Book {
    let mut book = Book::new(alloc, sample(alloc).expect(rt, "the sample"));
    let day = Day::new(2026, 1, 5).expect(rt, "a day");
    for _ in 0..1_000_000 {
        book.enter(Command::OpenDay(OpenDay { day }))
            .expect(rt, "an entry");
    }
    book
}

#[test]
fn what_a_full_book_does_not_take_in_is_answered(rt: HostRuntime) {
    let alloc = rt.alloc();
    let mut house = OverBook::new(full_book(&rt, alloc));
    let entries = house.book().history().len();
    let talk = Talk::of(alloc, "E1", REPORT).expect(&rt, "memory");
    let expected = format!(in alloc; "done: {}", talk.output).expect(&rt, "memory");
    let desk = Desk {
        alloc,
        house: &mut house,
        besides: "",
    };
    check_told(&rt, "full", told(desk, "E1", &talk, AMPLE), &expected);
    drop(house);
    assert_eq!(rt; entries, 1_000_000);
}
