//! Renewing the lead.
use crate::etcd::{Turn, candidate};
use crate::takings::{IS_LED_BY_B, LEADS};
use gu_etcd::{KEEP_ALIVE_PATH, NodeError, TXN_PATH};
use gu_lead::{Lead, Renewal};
use gu_lease::{Lease, Moment};
use std::test::Fail;

/// A moment at which both clocks have gone on since the lease was asked for.
fn after(ms: u32) -> Moment {
    let ms = u64::from(ms);
    Moment {
        monotonic_ms: 1_000 + ms,
        system_ms: 1_767_600_000_000 + ms,
    }
}

/// The lead by lease 9, which lasts for 3 s from moment 0 on.
fn lead() -> Lead {
    Lead {
        number: 9,
        lease: Lease::new(after(0), 3_000, 500),
    }
}

/// The question whether desk-A leads, by the value of the key DAY/leader.
const LEADS_STILL: Turn = Turn {
    endpoint: 0,
    path: TXN_PATH,
    says: "{\"compare\":[{\"target\":\"VALUE\",\"key\":\"REFZL2xlYWRlcg==\",\"value\":\"ZGVzay1B\"}],\"success\":[{\"request_range\":{\"key\":\"REFZL2xlYWRlcg==\"}}],",
    answer: LEADS,
};

/// The answer that no desk leads.
const NOBODY_LEADS: Option<&str> = Some(
    "{\"header\":{\"revision\":\"8\"},\"responses\":[{\"response_range\":{\"header\":{\"revision\":\"8\"}}}]}",
);

/// The question whether lease 9 goes on.
const ASKED: Turn = Turn {
    endpoint: 0,
    path: KEEP_ALIVE_PATH,
    says: "{\"ID\":\"9\"}",
    answer: None,
};

/// The answer that it does, for 3 s.
const GOES_ON: Option<&str> = Some(
    "{\"result\":{\"header\":{\"revision\":\"8\"},\"ID\":\"9\",\"TTL\":\"3\"}}",
);

/// The answer that it has ended.
const HAS_ENDED: Option<&str> = Some("{\"result\":{\"header\":{\"revision\":\"8\"},\"ID\":\"9\"}}");

/// When a renewal is tried, what etcd answers if it is asked, what becomes of the lead, and from when its lease then counts.
const ROWS: &[(&str, u32, &[Turn], Result<Renewal, NodeError>, u32)] = &[
    (
        "it goes on",
        500,
        &[
            LEADS_STILL,
            Turn {
                answer: GOES_ON,
                ..ASKED
            },
        ],
        Ok(Renewal::GoesOn),
        500,
    ),
    (
        "in the last millisecond of it",
        2_499,
        &[
            LEADS_STILL,
            Turn {
                answer: GOES_ON,
                ..ASKED
            },
        ],
        Ok(Renewal::GoesOn),
        2_499,
    ),
    (
        "a millisecond later nothing is asked",
        2_500,
        &[],
        Ok(Renewal::Ended),
        0,
    ),
    (
        "etcd has ended it",
        500,
        &[
            LEADS_STILL,
            Turn {
                answer: HAS_ENDED,
                ..ASKED
            },
        ],
        Ok(Renewal::Ended),
        0,
    ),
    (
        "without an answer it is as long as it was",
        500,
        &[LEADS_STILL, ASKED],
        Err(NodeError::Unanswered),
        0,
    ),
    (
        "without an answer to the first question too",
        500,
        &[Turn {
            answer: None,
            ..LEADS_STILL
        }],
        Err(NodeError::Unanswered),
        0,
    ),
    (
        "another desk has claimed it",
        500,
        &[Turn {
            answer: IS_LED_BY_B,
            ..LEADS_STILL
        }],
        Ok(Renewal::Ended),
        0,
    ),
    (
        "another desk has claimed it, and leads no more",
        500,
        &[Turn {
            answer: NOBODY_LEADS,
            ..LEADS_STILL
        }],
        Ok(Renewal::Ended),
        0,
    ),
];

#[test]
fn a_lead_goes_on_from_when_that_was_asked(rt: HostRuntime) -> Result<(), Fail> {
    for (what, now, turns, became, from) in ROWS {
        let mut desk = candidate(rt.alloc(), turns)?.ok_or("a candidate")?;
        let mut lead = lead();
        let renewed = lead.renew(rt.alloc(), &mut desk, after(*now));
        assert_eq!(rt; renewed, *became, "{what}");
        assert_eq!(rt; lead.number, 9, "{what}");
        assert_eq!(rt; lead.lease.asked, after(*from), "{what}");
        assert_eq!(rt; lead.lease.length_ms, 3_000, "{what}");
        assert!(rt; desk.exchange().is_done(), "{what}");
    }
    Ok(())
}

#[test]
fn a_lead_that_a_clock_ended_is_ended_for_good(rt: HostRuntime) -> Result<(), Fail> {
    let mut desk = candidate(rt.alloc(), &[])?.ok_or("a candidate")?;
    let asleep = Moment {
        monotonic_ms: 1_100,
        system_ms: 1_767_600_003_000,
    };
    let set_back = Moment {
        monotonic_ms: 1_100,
        system_ms: 1_767_599_999_999,
    };
    for now in [asleep, set_back] {
        let mut lead = lead();
        assert_eq!(rt; lead.renew(rt.alloc(), &mut desk, now), Ok(Renewal::Ended));
    }
    assert!(rt; desk.exchange().is_done());
    Ok(())
}

#[test]
fn an_unanswered_renewal_goes_to_the_next_endpoint(rt: HostRuntime) -> Result<(), Fail> {
    let turns = [
        LEADS_STILL,
        ASKED,
        Turn {
            endpoint: 1,
            ..LEADS_STILL
        },
        Turn {
            endpoint: 1,
            answer: GOES_ON,
            ..ASKED
        },
    ];
    let mut desk = candidate(rt.alloc(), &turns)?.ok_or("a candidate")?;
    let mut lead = lead();
    let first = lead.renew(rt.alloc(), &mut desk, after(500));
    assert_eq!(rt; first, Err(NodeError::Unanswered));
    assert_eq!(rt;
        lead.renew(rt.alloc(), &mut desk, after(1_000)),
        Ok(Renewal::GoesOn)
    );
    assert_eq!(rt; lead.lease.asked, after(1_000));
    assert!(rt; desk.exchange().is_done());
    Ok(())
}
