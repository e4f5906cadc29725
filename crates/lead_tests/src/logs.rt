//! Reading a log.
use crate::etcd::{Etcd, Turn, name_of};
use gu_etcd::{Gateway, RANGE_PATH, TRIES};
use gu_lead::{LogError, LogText};
use std::alloc::{AllocError, Global};
use std::test::Fail;

/// The question for the page that begins at number 1.
const FIRST: Turn = Turn {
    endpoint: 0,
    path: RANGE_PATH,
    says: "{\"key\":\"REFZLzAwMDAwMDAwMDE=\",\"range_end\":\"REFZLzo=\",\"limit\":\"16\"}",
    answer: None,
};

/// The question for the page that begins at number 3.
const THIRD: Turn = Turn {
    says: "{\"key\":\"REFZLzAwMDAwMDAwMDM=\",\"range_end\":\"REFZLzo=\",\"limit\":\"16\"}",
    ..FIRST
};

/// Entries 1 and 2, a batch of desk-B and one of desk-A, after which more come.
const ENTRIES_1_AND_2: Option<&str> = Some(
    "{\"header\":{\"revision\":\"9\"},\"kvs\":[{\"key\":\"REFZLzAwMDAwMDAwMDE=\",\"create_revision\":\"4\",\"mod_revision\":\"4\",\"version\":\"1\",\"value\":\"IyBkZXNrIGRlc2stQgpEQVkgMjAyNjAxMDUK\"},{\"key\":\"REFZLzAwMDAwMDAwMDI=\",\"create_revision\":\"5\",\"mod_revision\":\"5\",\"version\":\"1\",\"value\":\"IyBkZXNrIGRlc2stQQojIE9QRU5FRAo=\"}],\"more\":true,\"count\":\"3\"}",
);

/// Entry 3, a batch of desk-A, after which no more come.
const ENTRY_3: Option<&str> = Some(
    "{\"header\":{\"revision\":\"9\"},\"kvs\":[{\"key\":\"REFZLzAwMDAwMDAwMDM=\",\"create_revision\":\"6\",\"mod_revision\":\"6\",\"version\":\"1\",\"value\":\"IyBkZXNrIGRlc2stQQpMSU1JVCBHMSBFWEVDIEUxIDEwMAo=\"}],\"count\":\"1\"}",
);

/// Entry 1, which doesn't name a desk.
const FOREIGN: Option<&str> = Some(
    "{\"header\":{\"revision\":\"9\"},\"kvs\":[{\"key\":\"REFZLzAwMDAwMDAwMDE=\",\"create_revision\":\"4\",\"mod_revision\":\"4\",\"version\":\"1\",\"value\":\"REFZIDIwMjYwMTA1Cg==\"}],\"count\":\"1\"}",
);

/// An empty log.
const EMPTY: Option<&str> = Some("{\"header\":{\"revision\":\"9\"}}");

/// What is asked and answered, and the entries and the text that are found, or why nothing is.
const ROWS: &[(&str, &[Turn], Result<(u64, &str), LogError>)] = &[
    (
        "an empty log",
        &[Turn {
            answer: EMPTY,
            ..FIRST
        }],
        Ok((0, "")),
    ),
    (
        "two pages",
        &[
            Turn {
                answer: ENTRIES_1_AND_2,
                ..FIRST
            },
            Turn {
                answer: ENTRY_3,
                ..THIRD
            },
        ],
        Ok((3, "DAY 20260105\n# OPENED\nLIMIT G1 EXEC E1 100\n")),
    ),
    (
        "a page that is asked for again, at the next endpoint",
        &[
            Turn {
                answer: ENTRIES_1_AND_2,
                ..FIRST
            },
            THIRD,
            Turn {
                endpoint: 1,
                answer: ENTRY_3,
                ..THIRD
            },
        ],
        Ok((3, "DAY 20260105\n# OPENED\nLIMIT G1 EXEC E1 100\n")),
    ),
    (
        "a page that begins at another number",
        &[
            Turn {
                answer: ENTRY_3,
                ..FIRST
            },
            Turn {
                endpoint: 1,
                answer: EMPTY,
                ..FIRST
            },
        ],
        Ok((0, "")),
    ),
    (
        "an entry that isn't a desk's",
        &[Turn {
            answer: FOREIGN,
            ..FIRST
        }],
        Err(LogError::Foreign),
    ),
];

/// Returns the gateway of desk-A to the log DAY, at an etcd with three endpoints and these turns.
fn gateway<'a>(alloc: Global, turns: &'a [Turn]) -> Result<Option<Gateway<Etcd<'a>>>, AllocError> {
    let (Some(log), Some(desk)) = (name_of(alloc, "DAY")?, name_of(alloc, "desk-A")?) else {
        return Ok(None);
    };
    Ok(Some(Gateway::new(Etcd::new(turns), 3, log, desk)))
}

#[test]
fn the_text_of_a_log_is_that_of_its_batches(rt: HostRuntime) -> Result<(), Fail> {
    for (what, turns, expected) in ROWS {
        let mut gateway = gateway(rt.alloc(), turns)?.ok_or("a gateway")?;
        match (LogText::read(rt.alloc(), &mut gateway), expected) {
            (Ok(found), Ok((count, text))) => {
                assert_eq!(rt; found.count, *count, "{what}");
                assert_eq!(rt; found.text.as_slice(), text.as_bytes(), "{what}");
            }
            (Err(error), Err(expected)) => assert_eq!(rt; error, *expected, "{what}"),
            _ => assert!(rt; false, "{what}"),
        }
        assert!(rt; gateway.exchange().is_done(), "{what}");
    }
    Ok(())
}

#[test]
fn a_page_is_asked_for_sixteen_times(rt: HostRuntime) -> Result<(), Fail> {
    let mut turns = Vec::new(rt.alloc());
    for number in 0..TRIES {
        turns.push(Turn {
            endpoint: number as usize % 3,
            ..FIRST
        })?;
    }
    let mut gateway = gateway(rt.alloc(), &turns)?.ok_or("a gateway")?;
    let found = LogText::read(rt.alloc(), &mut gateway);
    assert!(rt; matches!(found, Err(LogError::Unanswered)));
    assert!(rt; gateway.exchange().is_done());
    Ok(())
}
