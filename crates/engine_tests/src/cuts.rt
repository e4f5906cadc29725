//! Turns that are cut: a stream that takes a few bytes at a time gets what a run writes, and one that takes none is read no further.

use crate::visits::{FullHouse, Nine, Visit, conversation};
use gu_engine::{Connection, Gate, Turned, run};
use gu_streams::CountedReads;
use std::alloc::Global;
use std::process::Abort;
use trials::{AMPLE, Sink, Source, Talk, wire};

/// Returns what a firm sends.
pub fn source<'a>(input: &'a [u8], talk: &'a Talk) -> Source<'a> {
    Source {
        bytes: input,
        lengths: &talk.lengths,
        later: AMPLE.piece,
        reads: AMPLE.reads,
    }
}

/// Returns bytes in pieces of 200, of which this many can be read.
fn pieces(bytes: &[u8], reads: usize) -> Source<'_> {
    Source {
        bytes,
        lengths: &[],
        later: 200,
        reads,
    }
}

/// Returns what a run writes.
fn run_on(rt: &impl Abort, alloc: Global, input: &[u8], talk: &Talk) -> Vec<u8> {
    let mut sink = Sink::new(alloc, usize::MAX, AMPLE.writes);
    let conversation = conversation(rt, alloc);
    let mut connection = Connection::resume(conversation, FullHouse { alloc }, Nine);
    let mut reads = CountedReads::patient(source(input, talk));
    run(alloc, &mut reads, &mut sink, &mut connection).expect(rt, "a run");
    drop(connection);
    let Sink {
        held,
        most: _,
        writes: _,
        longest: _,
    } = sink;
    held
}

/// A Logon, after which 2,000 notices are due; silence; and then, in one read, two requests for all that was sent and a report that isn't
/// entered, and in another thirty reports.
const DAY: &str = "\
in A 1 98=0|108=0|1137=9|
silence
in 2 2 7=1|16=0|
and 2 3 7=1|16=0|
and AE 4 571=R4|880=M4|55=XF6|32=10|31=101.5|552=1|54=1|1=H1|
in AE 5 571=R5|880=M5|55=XF6|32=10|31=101.5|552=1|54=1|1=H1|
(and AE % 571=R%|880=M%|55=XF6|32=10|31=101.5|552=1|54=1|1=H1|
*6..34)in 5 35";

#[test]
fn whatever_a_stream_takes_at_a_time_it_gets_what_a_run_writes(rt: HostRuntime) {
    let alloc = rt.alloc();
    let talk = Talk::of(alloc, "E1", DAY).expect(&rt, "memory");
    let input = wire(alloc, &talk.input).expect(&rt, "memory");
    let expected = run_on(&rt, alloc, input.as_bytes(), &talk);
    assert!(rt; expected.len() > 1_000_000);
    for room in [1_000, 4_096, 65_537, 300_000, 10_000_000] {
        let mut visit = Visit::new(&rt, alloc, Gate::open());
        let mut reads = CountedReads::patient(source(input.as_bytes(), &talk));
        let is_sent = visit.turns(&rt, &mut reads, room, 10_000);
        assert!(rt; is_sent, "{room}");
        assert!(rt;
            visit.stream.taken.as_slice() == expected.as_slice(),
            "{room}"
        );
    }
}

/// Returns a visit whose stream took nothing of what answers these bytes, after which it is read no further.
fn stopped_at(rt: &impl Abort, alloc: Global, first: &[u8]) -> Visit {
    let mut visit = Visit::new(rt, alloc, Gate::open());
    let mut reads = CountedReads::patient(pieces(first, 1));
    let is_sent = visit.turns(rt, &mut reads, 0, 1_000);
    assert!(rt; !is_sent);
    assert!(rt; !reads.has_failed(), "a second read would have failed");
    assert!(rt; visit.stream.taken.is_empty());
    visit
}

#[test]
fn a_stream_that_takes_nothing_is_read_no_further_and_loses_nothing(rt: HostRuntime) {
    let alloc = rt.alloc();
    let talk = Talk::of(alloc, "E1", DAY).expect(&rt, "memory");
    let input = wire(alloc, &talk.input).expect(&rt, "memory");
    let expected = run_on(&rt, alloc, input.as_bytes(), &talk);
    assert!(rt; input.len() > 200);
    let (first, rest) = input.as_bytes().split_at(200);
    let mut visit = stopped_at(&rt, alloc, first);
    let mut reads = CountedReads::patient(pieces(rest, AMPLE.reads));
    let is_sent = visit.turns(&rt, &mut reads, 1_000, 10_000);
    assert!(rt; is_sent);
    assert!(rt; visit.stream.taken.as_slice() == expected.as_slice());
}

/// Notices alone: 2,000 of some 170 bytes, of which a stretch is 250.
const LOGON: &str = "\
in A 1 98=0|108=0|1137=9|
in 5 2";

#[test]
fn the_notices_that_are_due_are_not_held_together(rt: HostRuntime) {
    let alloc = rt.alloc();
    let talk = Talk::of(alloc, "E1", LOGON).expect(&rt, "memory");
    let input = wire(alloc, &talk.input).expect(&rt, "memory");
    let mut visit = Visit::new(&rt, alloc, Gate::open());
    let mut reads = CountedReads::patient(source(input.as_bytes(), &talk));
    let is_sent = visit.turns(&rt, &mut reads, 1_000, 10_000);
    assert!(rt; is_sent);
    assert!(rt; visit.stream.taken.len() > 300_000);
    assert!(rt; visit.stream.longest > 65_536);
    assert!(rt; visit.stream.longest <= 65_536 + 250 * 200);
}

/// The room of each turn, what it says of the next one, and whether all was sent then.
const TURNS: &[(usize, Turned, bool)] = &[
    (0, Turned::Full, false),
    (0, Turned::Full, false),
    (usize::MAX, Turned::Again, true),
    (usize::MAX, Turned::Waits, true),
    (usize::MAX, Turned::Again, true),
    (usize::MAX, Turned::Again, true),
    (usize::MAX, Turned::Done, true),
    (usize::MAX, Turned::Done, true),
];

#[test]
fn each_turn_says_when_the_next_one_is(rt: HostRuntime) {
    let alloc = rt.alloc();
    let talk = Talk::of(alloc, "E1", DAY).expect(&rt, "memory");
    let input = wire(alloc, &talk.input).expect(&rt, "memory");
    let mut visit = Visit::new(&rt, alloc, Gate::open());
    let mut reads = CountedReads::patient(source(input.as_bytes(), &talk));
    for (place, &(room, turned, is_sent)) in TURNS.iter().enumerate() {
        assert_eq!(rt; visit.turn(&rt, &mut reads, room), turned, "turn {place}");
        assert_eq!(rt; visit.backlog.is_sent(), is_sent, "turn {place}");
    }
}
