//! What is refused memory, changes nothing, and succeeds once there is some.
use crate::etcd::{Turn, candidate, name_of};
use gu_etcd::{GRANT_PATH, Granted, KEEP_ALIVE_PATH, NodeError, REVOKE_PATH};
use std::alloc::Global;

/// A question for a lease, one for its going on, and one for its end, each at the first endpoint.
const TURNS: &[Turn] = &[
    Turn {
        endpoint: 0,
        path: GRANT_PATH,
        says: "\"TTL\":\"3\"",
        answer: Some("{\"header\":{\"revision\":\"7\"},\"ID\":\"9\",\"TTL\":\"3\"}"),
    },
    Turn {
        endpoint: 0,
        path: KEEP_ALIVE_PATH,
        says: "{\"ID\":\"9\"}",
        answer: Some("{\"result\":{\"header\":{\"revision\":\"8\"},\"ID\":\"9\",\"TTL\":\"3\"}}"),
    },
    Turn {
        endpoint: 0,
        path: REVOKE_PATH,
        says: "{\"ID\":\"9\"}",
        answer: Some("{\"header\":{\"revision\":\"9\"}}"),
    },
];

/// Returns what a lease is granted as, and how long it goes on.
fn asked(alloc: Global) -> Result<Option<(Granted, Option<u64>)>, NodeError> {
    let Some(mut desk) = candidate(alloc, TURNS)? else {
        return Ok(None);
    };
    let granted = desk.grant(alloc, 3)?;
    let alive = desk.keep_alive(alloc, granted.lease)?;
    desk.revoke(alloc, granted.lease)?;
    Ok(Some((granted, alive)))
}

#[test]
fn a_candidate_asks_or_has_no_memory(rt: HostRuntime) {
    match asked(rt.alloc()) {
        Ok(answers) => {
            let granted = Granted {
                lease: 9,
                seconds: 3,
            };
            assert_eq!(rt; answers, Some((granted, Some(3))));
        }
        Err(error) => assert_eq!(rt; error, NodeError::Memory),
    }
}

#[test]
fn a_name_is_copied_or_has_no_memory(rt: HostRuntime) {
    if let Ok(Some(name)) = name_of(rt.alloc(), "DAY-1") {
        if let Ok(copy) = name.copy(rt.alloc()) {
            assert_eq!(rt; copy.as_bytes(), b"DAY-1".as_slice());
        }
        assert_eq!(rt; name.as_bytes(), b"DAY-1".as_slice());
    }
}
