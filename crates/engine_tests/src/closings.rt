//! A gate that is opened, and a house that closes.

use crate::cuts::source;
use crate::visits::Visit;
use gu_engine::{Conversation, Gate, Turned};
use gu_streams::CountedReads;
use gu_terms::{FirmId, Moment};
use std::alloc::Global;
use std::process::Abort;
use trials::{Talk, shown, wire};

/// A Logon, after which 2,000 notices are due, and then silence; the Logout of the house is the message after them.
const CLOSING: &str = "\
in A 1 98=0|108=30|1137=9|
silence
out 5 2002 58=Closing|";

/// Returns a visit that has had its Logon and its notices.
fn logged_on(rt: &impl Abort, alloc: Global, talk: &Talk, gate: Gate) -> Visit {
    let input = wire(alloc, &talk.input).expect(rt, "memory");
    let mut visit = Visit::new(rt, alloc, gate);
    let mut reads = CountedReads::patient(source(input.as_bytes(), talk));
    for _ in 0..20 {
        if visit.turn(rt, &mut reads, usize::MAX) == Turned::Waits {
            return visit;
        }
    }
    visit
}

/// Asserts how far a conversation is after its Logon and its notices, and has it expect more of them.
fn check_conversation(rt: &impl Abort, conversation: &mut Conversation) {
    assert_eq!(rt; conversation.firm(), FirmId::new(b"E1"));
    assert_eq!(rt; conversation.numbers(), (2, 2_002));
    assert_eq!(rt; conversation.next(), 2_001);
    assert_eq!(rt; conversation.due_at(), Moment::new(1_767_603_630_000));
    conversation.expect_notices();
}

#[test]
fn a_house_that_closes_sends_a_firm_a_logout_after_what_is_held(rt: HostRuntime) {
    let alloc = rt.alloc();
    let talk = Talk::of(alloc, "E1", CLOSING).expect(&rt, "memory");
    let mut visit = logged_on(&rt, alloc, &talk, Gate::open());
    let mut reads = CountedReads::patient(b"".as_slice());
    check_conversation(&rt, visit.conversation(&rt));
    visit.close(&rt);
    assert!(rt; visit.conversation(&rt).is_over());
    assert_eq!(rt; visit.turn(&rt, &mut reads, usize::MAX), Turned::Done);
    let told = shown(alloc, &visit.stream.taken).expect(&rt, "memory");
    assert!(rt; told.ends_with(talk.output.as_str()), "{told}");
}

#[test]
fn before_the_logon_a_house_closes_silently(rt: HostRuntime) {
    let mut visit = Visit::new(&rt, rt.alloc(), Gate::open());
    assert_eq!(rt; visit.conversation(&rt).firm(), None);
    visit.close(&rt);
    assert!(rt; visit.conversation(&rt).is_over());
    assert_eq!(rt; visit.backlog.held(), 0);
}

#[test]
fn a_closed_gate_holds_what_an_open_one_lets_go(rt: HostRuntime) {
    let alloc = rt.alloc();
    let talk = Talk::of(alloc, "E1", CLOSING).expect(&rt, "memory");
    let mut visit = logged_on(&rt, alloc, &talk, Gate::closed());
    let held = visit.backlog.held();
    assert!(rt; held > 65_536);
    assert!(rt; visit.stream.taken.is_empty());
    visit.backlog.set_outlet(Gate::open());
    visit.backlog.send(&mut visit.stream).expect(&rt, "a write");
    assert!(rt; visit.backlog.is_sent());
    assert_eq!(rt; visit.stream.taken.len(), held);
}
