//! The sink of the journal over a log: what is in the log after its batches, and why it stops.
ghost use Rattle.std.specs.Prelude.{◌≤◌};
ghost use Rattle.gu_etcd.specs.declared.node.TheConstants.{LAST_NUMBER};

use crate::etcd::{Etcd, Way, gateway_of, name_of};
use crate::memory::node_of;
use gu_etcd::{Appender, Fate, Gateway, LAST_NUMBER, LogSink, MemoryNode, Name, NodeError};
use gu_journal::{MAX_BATCH, Sink, SinkError, is_batch};
use std::alloc::{AllocError, Global};
use std::test::Fail;

/// The batches of a day.
const BATCHES: &[&str] = &[
    "DAY 20260105\n",
    "LIMIT G1 EXEC E1 100\n# 12\n",
    "# CLOSED\n",
];

/// The entries with which desk A-2 puts them.
const ENTRIES: &[&str] = &[
    "# desk A-2\nDAY 20260105\n",
    "# desk A-2\nLIMIT G1 EXEC E1 100\n# 12\n",
    "# desk A-2\n# CLOSED\n",
];

/// What became of the batches.
#[derive(Clone, Copy, Debug, PartialEq, Eq)]
struct Outcome {
    /// How many were kept.
    kept: usize,
    /// Why the sink stopped, if it did.
    error: Option<SinkError>,
    /// How many of the entries the log has then, if it has nothing else.
    found: Option<usize>,
}

/// Returns how many of the entries the log of an etcd has, if it has nothing else.
fn found_in(node: &MemoryNode) -> Option<usize> {
    let log = node.log();
    let is_begun = log.len() <= ENTRIES.len()
        && log
            .iter()
            .zip(ENTRIES.iter())
            .all(|(entry, text)| entry.as_slice() == text.as_bytes());
    if is_begun { Some(log.len()) } else { None }
}

/// Appends the batches to a sink, until it stops.
fn append_all(sink: LogSink<MemoryNode>) -> Outcome {
    let mut sink = sink;
    for (kept, batch) in BATCHES.iter().enumerate() {
        if !is_batch(batch.as_bytes()) {
            break;
        }
        sink = match sink.append(batch.as_bytes()) {
            Ok(sink) => sink,
            Err(stopped) => {
                return Outcome {
                    kept,
                    error: Some(stopped.error()),
                    found: found_in(stopped.place().node()),
                };
            }
        };
    }
    Outcome {
        kept: sink.count() as usize,
        error: None,
        found: found_in(sink.node()),
    }
}

/// Has desk A-2 append the batches over an etcd in memory, whose calls have these fates, the last one first.
fn day_of(alloc: Global, leads: bool, fates: &[Fate]) -> Result<Option<Outcome>, AllocError> {
    let node = node_of(alloc, leads, fates)?;
    let bytes = Vec::from_slice(alloc, b"A-2")?;
    match Name::new(bytes) {
        Some(desk) => Ok(Some(append_all(LogSink::new(alloc, Appender::new(node, 0), desk)))),
        None => Ok(None),
    }
}

/// What comes upon the calls, whether the desk leads, their fates, the last one first, and what becomes of the batches: how many are kept,
/// why the sink stops, and how many entries the log has.
type Row = (
    &'static str,
    bool,
    &'static [Fate],
    usize,
    Option<SinkError>,
    usize,
);

const ROWS: &[Row] = &[
    ("nothing", true, &[], 3, None, 3),
    ("a lost question", true, &[Fate::RequestLost], 3, None, 3),
    (
        "lost answers, at the second batch and the third",
        true,
        &[
            Fate::AnswerLost,
            Fate::Answered,
            Fate::AnswerLost,
            Fate::Answered,
        ],
        3,
        None,
        3,
    ),
    (
        "no question heard",
        true,
        &[Fate::RequestLost; 16],
        0,
        Some(SinkError::Failed),
        0,
    ),
    (
        "no answer heard",
        true,
        &[Fate::AnswerLost; 16],
        0,
        Some(SinkError::Failed),
        1,
    ),
    (
        "another desk leads",
        false,
        &[],
        0,
        Some(SinkError::Fenced),
        0,
    ),
];

#[test]
fn a_batch_is_an_entry_or_the_sink_stops(rt: HostRuntime) -> Result<(), Fail> {
    for (what, leads, fates, kept, error, found) in ROWS {
        let outcome = day_of(rt.alloc(), *leads, fates)?;
        let said = Outcome {
            kept: *kept,
            error: *error,
            found: Some(*found),
        };
        assert_eq!(rt; outcome, Some(said), "{what}");
    }
    Ok(())
}

#[test]
fn a_sink_that_gets_no_memory_leaves_the_log_as_it_was(rt: HostRuntime) {
    if let Ok(Some(outcome)) = day_of(rt.alloc(), true, &[]) {
        assert!(rt;
            matches!(outcome.error, None | Some(SinkError::Memory)),
            "{outcome:?}"
        );
        assert_eq!(rt; outcome.found, Some(outcome.kept), "{outcome:?}");
    }
}

/// Returns the sink of a desk that knows a number of entries, over the log DAY.
fn sink_of<'a>(
    alloc: Global,
    etcd: &'a mut Etcd,
    desk: &str,
    count: u64,
) -> Result<LogSink<Gateway<Way<'a>>>, NodeError>
    requires { count ≤ LAST_NUMBER }
{
    let gateway = gateway_of(alloc, etcd, &[], desk)?;
    let name = name_of(alloc, desk)?;
    Ok(LogSink::new(alloc, Appender::new(gateway, count), name))
}

/// Has a desk that knows a number of entries append a batch to the log DAY, and returns how many it knows then.
fn append(
    alloc: Global,
    etcd: &mut Etcd,
    desk: &str,
    count: u64,
    batch: &[u8],
) -> Result<u64, SinkError> {
    if count > LAST_NUMBER || !is_batch(batch) {
        return Err(SinkError::Failed);
    }
    let Ok(sink) = sink_of(alloc, etcd, desk, count) else {
        return Err(SinkError::Memory);
    };
    match sink.append(batch) {
        Ok(sink) => Ok(sink.count()),
        Err(stopped) => Err(stopped.error()),
    }
}

#[test]
fn a_number_that_another_desk_took_fences_the_sink(rt: HostRuntime) -> Result<(), Fail> {
    let mut etcd = Etcd::new(rt.alloc(), b"desk-B")?;
    let first = append(rt.alloc(), &mut etcd, "desk-B", 0, b"DAY 20260105\n");
    assert_eq!(rt; first, Ok(1));
    let second = append(rt.alloc(), &mut etcd, "desk-A", 0, b"DAY 20260105\n");
    assert_eq!(rt; second, Err(SinkError::Fenced));
    let later = append(rt.alloc(), &mut etcd, "desk-A", 1, b"DAY 20260105\n");
    assert_eq!(rt; later, Err(SinkError::Fenced));
    assert_eq!(rt; etcd.pairs.len(), 1);
    assert_eq!(rt;
        etcd.pairs[0].value.as_str(),
        "IyBkZXNrIGRlc2stQgpEQVkgMjAyNjAxMDUK"
    );
    Ok(())
}

#[test]
fn a_sink_with_no_number_left_is_full(rt: HostRuntime) -> Result<(), Fail> {
    let mut etcd = Etcd::new(rt.alloc(), b"desk-A")?;
    let last = append(rt.alloc(), &mut etcd, "desk-A", LAST_NUMBER - 1, b"\n");
    assert_eq!(rt; last, Ok(LAST_NUMBER));
    let none = append(rt.alloc(), &mut etcd, "desk-A", LAST_NUMBER, b"\n");
    assert_eq!(rt; none, Err(SinkError::Full));
    assert_eq!(rt; etcd.pairs.len(), 1);
    Ok(())
}

#[test]
fn the_largest_batch_is_one_entry(rt: HostRuntime) -> Result<(), Fail> {
    let mut etcd = Etcd::new(rt.alloc(), b"desk-A")?;
    let mut batch = vec![in rt.alloc(); b'x'; MAX_BATCH - 1]?;
    batch.push(b'\n')?;
    let kept = append(rt.alloc(), &mut etcd, "desk-A", 0, &batch);
    assert_eq!(rt; kept, Ok(1));
    assert_eq!(rt; etcd.pairs.len(), 1);
    Ok(())
}
