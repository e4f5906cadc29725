//! Days over a model of etcd: the product's own appender, with lost requests and answers, doubled requests, and two desks.
use crate::etcd::{Etcd, Fate, Way, gateway_of};
use gu_etcd::{AppendError, Appender, Gateway, LAST_NUMBER, MAX_ENTRY, NodeError, TRIES, entry_of};
use gu_journal::MAX_BATCH;
use std::alloc::Global;
use std::process::Abort;
use std::test::Fail;

/// A desk: its name for the leadership, and how many batches are kept as it knows.
#[derive(Clone, Copy)]
struct Desk<'a> {
    leader: &'a str,
    count: u64,
}

/// Has a desk append a batch to the log DAY of an etcd with three endpoints, and returns how many batches it knows to be kept.
fn append(
    alloc: Global,
    etcd: &mut Etcd,
    desk: Desk,
    fates: &[Fate],
    batch: &[u8],
) -> Result<u64, AppendError> {
    if desk.count > LAST_NUMBER {
        return Err(AppendError::Full);
    }
    let Ok(entry) = entry_of(alloc, desk.leader.as_bytes(), batch) else {
        return Err(AppendError::Memory);
    };
    if entry.len() > MAX_ENTRY {
        return Err(AppendError::Full);
    }
    let Ok(gateway) = gateway_of(alloc, etcd, fates, desk.leader) else {
        return Err(AppendError::Memory);
    };
    match Appender::new(gateway, desk.count).append(alloc, &entry) {
        Ok(appender) => Ok(appender.count()),
        Err(stopped) => Err(stopped.error()),
    }
}

const DESK_A: Desk<'static> = Desk {
    leader: "desk-A",
    count: 0,
};

/// The fates of the requests for one batch, the appender's result, and how often a request came.
const FATES: &[(&str, &[Fate], Result<u64, AppendError>, usize)] = &[
    ("answered", &[], Ok(1), 1),
    ("a lost request", &[Fate::RequestLost], Ok(1), 2),
    ("a lost answer", &[Fate::AnswerLost], Ok(1), 2),
    ("a doubled request", &[Fate::Doubled], Ok(1), 1),
    ("an endpoint that can't say", &[Fate::TimedOut], Ok(1), 2),
    (
        "all of it",
        &[
            Fate::RequestLost,
            Fate::AnswerLost,
            Fate::TimedOut,
            Fate::AnswerLost,
            Fate::Doubled,
        ],
        Ok(1),
        5,
    ),
];

/// Returns the key and the value of an etcd's only batch, in base64.
fn only_pair(etcd: &Etcd) -> Option<(&str, &str)> {
    match etcd.pairs.as_slice() {
        [pair] => Some((pair.key.as_str(), pair.value.as_str())),
        _ => None,
    }
}

#[test]
fn a_batch_is_there_once_whatever_got_lost(rt: HostRuntime) -> Result<(), Fail> {
    for (what, fates, said, asked) in FATES {
        let mut etcd = Etcd::new(rt.alloc(), b"desk-A")?;
        let result = append(rt.alloc(), &mut etcd, DESK_A, fates, b"DAY 20260105\n");
        assert_eq!(rt; (result, etcd.asked), (*said, *asked), "{what}");
        assert_eq!(rt;
            only_pair(&etcd),
            Some((
                "REFZLzAwMDAwMDAwMDE=",
                "IyBkZXNrIGRlc2stQQpEQVkgMjAyNjAxMDUK"
            )),
            "{what}"
        );
    }
    Ok(())
}

#[test]
fn each_question_goes_to_the_next_endpoint(rt: HostRuntime) -> Result<(), Fail> {
    let mut etcd = Etcd::new(rt.alloc(), b"desk-A")?;
    let fates = &[Fate::RequestLost, Fate::TimedOut, Fate::AnswerLost];
    let result = append(rt.alloc(), &mut etcd, DESK_A, fates, b"\n");
    assert_eq!(rt; result, Ok(1));
    assert_eq!(rt; etcd.endpoints.as_slice(), [0, 1, 2, 0].as_slice());
    Ok(())
}

#[test]
fn a_desk_without_an_answer_stops(rt: HostRuntime) -> Result<(), Fail> {
    let mut etcd = Etcd::new(rt.alloc(), b"desk-A")?;
    let result = append(
        rt.alloc(),
        &mut etcd,
        DESK_A,
        &[Fate::RequestLost; 64],
        b"\n",
    );
    assert_eq!(rt; result, Err(AppendError::Failed));
    assert_eq!(rt; etcd.asked, TRIES as usize);
    assert!(rt; etcd.pairs.is_empty());
    Ok(())
}

#[test]
fn a_desk_that_lost_the_leadership_is_fenced(rt: HostRuntime) -> Result<(), Fail> {
    let mut etcd = Etcd::new(rt.alloc(), b"desk-B")?;
    let result = append(rt.alloc(), &mut etcd, DESK_A, &[], b"\n");
    assert_eq!(rt; result, Err(AppendError::Fenced));
    assert!(rt; etcd.pairs.is_empty());
    assert_eq!(rt; etcd.asked, 1);
    Ok(())
}

#[test]
fn a_number_that_another_desk_took_fences(rt: HostRuntime) -> Result<(), Fail> {
    let mut etcd = Etcd::new(rt.alloc(), b"desk-B")?;
    let desk_b = Desk {
        leader: "desk-B",
        count: 0,
    };
    let first = append(rt.alloc(), &mut etcd, desk_b, &[], b"DAY 20260105\n");
    assert_eq!(rt; first, Ok(1));
    let second = append(rt.alloc(), &mut etcd, DESK_A, &[Fate::AnswerLost], b"\n");
    assert_eq!(rt; second, Err(AppendError::Fenced));
    let same = append(rt.alloc(), &mut etcd, DESK_A, &[], b"DAY 20260105\n");
    assert_eq!(rt;
        same,
        Err(AppendError::Fenced),
        "the same batch of another desk"
    );
    assert_eq!(rt; etcd.pairs.len(), 1);
    assert_eq!(rt;
        etcd.pairs[0].value.as_str(),
        "IyBkZXNrIGRlc2stQgpEQVkgMjAyNjAxMDUK"
    );
    Ok(())
}

#[test]
fn the_last_number_is_taken_and_none_after_it(rt: HostRuntime) -> Result<(), Fail> {
    let mut etcd = Etcd::new(rt.alloc(), b"desk-A")?;
    let before_last = Desk {
        leader: "desk-A",
        count: LAST_NUMBER - 1,
    };
    let last = Desk {
        leader: "desk-A",
        count: LAST_NUMBER,
    };
    let taken = append(rt.alloc(), &mut etcd, before_last, &[], b"\n");
    assert_eq!(rt; taken, Ok(LAST_NUMBER));
    let none = append(rt.alloc(), &mut etcd, last, &[], b"\n");
    assert_eq!(rt; none, Err(AppendError::Full));
    assert_eq!(rt; etcd.pairs.len(), 1);
    assert_eq!(rt; etcd.pairs[0].key.as_str(), "REFZLzk5OTk5OTk5OTk=");
    Ok(())
}

#[test]
fn a_batch_of_512_kib_is_appended(rt: HostRuntime) -> Result<(), Fail> {
    let mut etcd = Etcd::new(rt.alloc(), b"desk-A")?;
    let batch = vec![in rt.alloc(); b'x'; MAX_BATCH]?;
    let result = append(rt.alloc(), &mut etcd, DESK_A, &[Fate::AnswerLost], &batch);
    assert_eq!(rt; result, Ok(1));
    assert_eq!(rt; etcd.pairs.len(), 1);
    Ok(())
}

/// Has desk A append this many batches.
fn append_many(alloc: Global, etcd: &mut Etcd, most: u64) -> Result<(), AppendError> {
    for count in 0..most {
        let desk = Desk {
            leader: "desk-A",
            count,
        };
        let _ = append(alloc, etcd, desk, &[], b"DAY 20260105\n")?;
    }
    Ok(())
}

/// The numbers that pages begin with, how many entries each has, and whether there are more.
const PAGES: &[(u64, usize, bool)] = &[(1, 16, true), (17, 2, false), (19, 0, false)];

/// Returns how many entries a page has, if they are the batches of desk A, and whether there are more.
fn page_of(
    alloc: Global,
    gateway: &mut Gateway<Way<'_>>,
    number: u64,
) -> Result<Option<(usize, bool)>, NodeError> {
    let page = gateway.page(alloc, number.min(LAST_NUMBER))?;
    let text = b"# desk desk-A\nDAY 20260105\n".as_slice();
    let is_ours = page.entries.iter().all(|entry| entry.as_slice() == text);
    Ok(is_ours.then_some((page.entries.len(), page.has_more)))
}

/// Asks for the first page, which gets lost, and then for each page.
fn read_pages(rt: &impl Abort, alloc: Global, gateway: &mut Gateway<Way<'_>>) {
    let lost = page_of(alloc, gateway, 1);
    assert_eq!(rt; lost, Err(NodeError::Unanswered));
    for &(number, count, has_more) in PAGES {
        let page = page_of(alloc, gateway, number);
        assert_eq!(rt; page, Ok(Some((count, has_more))), "from {number} on");
    }
}

#[test]
fn a_log_is_read_page_by_page(rt: HostRuntime) -> Result<(), Fail> {
    let mut etcd = Etcd::new(rt.alloc(), b"desk-A")?;
    append_many(rt.alloc(), &mut etcd, 18)?;
    let mut gateway = gateway_of(rt.alloc(), &mut etcd, &[Fate::RequestLost], "desk-B")?;
    read_pages(&rt, rt.alloc(), &mut gateway);
    drop(gateway);
    assert!(rt; etcd.endpoints.as_slice().ends_with([0, 1, 1, 1].as_slice()));
    Ok(())
}

/// Two batches of a day.
const BATCHES: &[&str] = &["DAY 20260105\n", "LIMIT G1 EXEC E1 100\n"];

/// Returns how many of two batches are kept, retrying once if memory is refused.
fn two_batches(alloc: Global, etcd: &mut Etcd) -> Result<u64, AppendError> {
    let mut desk = DESK_A;
    for batch in BATCHES {
        desk.count = match append(alloc, etcd, desk, &[Fate::AnswerLost], batch.as_bytes()) {
            Err(AppendError::Memory) => append(alloc, etcd, desk, &[], batch.as_bytes())?,
            count => count?,
        };
    }
    Ok(desk.count)
}

#[test]
fn a_desk_that_got_no_memory_goes_on_with_the_same_batch(rt: HostRuntime) {
    if let Ok(mut etcd) = Etcd::new(rt.alloc(), b"desk-A") {
        let kept = two_batches(rt.alloc(), &mut etcd);
        assert!(rt;
            matches!(kept, Ok(2) | Err(AppendError::Memory | AppendError::Failed)),
            "{kept:?}"
        );
        if kept == Ok(2) {
            assert_eq!(rt; etcd.pairs.len(), 2);
        }
    }
}
