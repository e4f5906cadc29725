//! Taking the lead.
use crate::etcd::{Turn, candidate};
use gu_etcd::{GRANT_PATH, NodeError, TXN_PATH};
use gu_lead::{Lead, Taking, take_lead};
use gu_lease::Clocks;
use std::test::Fail;

/// A lease is asked for and granted.
const GRANTED: Turn = Turn {
    endpoint: 0,
    path: GRANT_PATH,
    says: "\"TTL\":\"3\"",
    answer: Some("{\"header\":{\"revision\":\"7\"},\"ID\":\"7587862094870418962\",\"TTL\":\"3\"}"),
};

/// The lead is asked for by desk-A with that lease, at the key DAY/leader.
const ASKED: Turn = Turn {
    endpoint: 0,
    path: TXN_PATH,
    says: "{\"key\":\"REFZL2xlYWRlcg==\",\"value\":\"ZGVzay1B\",\"lease\":\"7587862094870418962\"}",
    answer: None,
};

/// The answer that the desk leads.
pub const LEADS: Option<&str> = Some(
    "{\"header\":{\"revision\":\"8\"},\"succeeded\":true,\"responses\":[{\"response_put\":{\"header\":{\"revision\":\"8\"}}}]}",
);

/// The answer that desk-A leads.
pub const IS_LED_BY_A: Option<&str> = Some(
    "{\"header\":{\"revision\":\"8\"},\"responses\":[{\"response_range\":{\"header\":{\"revision\":\"8\"},\"kvs\":[{\"key\":\"REFZL2xlYWRlcg==\",\"create_revision\":\"8\",\"mod_revision\":\"8\",\"version\":\"1\",\"value\":\"ZGVzay1B\",\"lease\":\"7587862094870418962\"}],\"count\":\"1\"}}]}",
);

/// The answer that desk-B leads.
pub const IS_LED_BY_B: Option<&str> = Some(
    "{\"header\":{\"revision\":\"8\"},\"responses\":[{\"response_range\":{\"header\":{\"revision\":\"8\"},\"kvs\":[{\"key\":\"REFZL2xlYWRlcg==\",\"create_revision\":\"6\",\"mod_revision\":\"6\",\"version\":\"1\",\"value\":\"ZGVzay1C\",\"lease\":\"5\"}],\"count\":\"1\"}}]}",
);

/// What an etcd answers, and whether the desk then leads; none: it isn't known.
const ROWS: &[(&str, &[Turn], Option<bool>)] = &[
    (
        "a free log",
        &[
            GRANTED,
            Turn {
                answer: LEADS,
                ..ASKED
            },
        ],
        Some(true),
    ),
    (
        "a log that another desk leads",
        &[
            GRANTED,
            Turn {
                answer: IS_LED_BY_B,
                ..ASKED
            },
        ],
        Some(false),
    ),
    (
        "an answer that got lost",
        &[
            GRANTED,
            ASKED,
            Turn {
                endpoint: 1,
                answer: IS_LED_BY_A,
                ..ASKED
            },
        ],
        Some(true),
    ),
    (
        "a question that got lost, while another desk took the lead",
        &[
            GRANTED,
            ASKED,
            Turn {
                endpoint: 1,
                ..ASKED
            },
            Turn {
                endpoint: 2,
                answer: IS_LED_BY_B,
                ..ASKED
            },
        ],
        Some(false),
    ),
    (
        "an answer that can't be read, after which the next endpoint is asked",
        &[
            GRANTED,
            Turn {
                answer: Some("{\"error\":\"etcdserver: requested lease not found\",\"code\":5}"),
                ..ASKED
            },
            Turn {
                endpoint: 1,
                answer: LEADS,
                ..ASKED
            },
        ],
        Some(true),
    ),
    (
        "a first endpoint that is down, and a second one that answers no etcd's answer",
        &[
            Turn {
                answer: None,
                ..GRANTED
            },
            Turn {
                endpoint: 1,
                answer: Some("hello"),
                ..GRANTED
            },
            Turn {
                endpoint: 2,
                ..GRANTED
            },
            Turn {
                endpoint: 2,
                answer: LEADS,
                ..ASKED
            },
        ],
        Some(true),
    ),
    (
        "no lease, at any endpoint",
        &[
            Turn {
                answer: None,
                ..GRANTED
            },
            Turn {
                endpoint: 1,
                answer: None,
                ..GRANTED
            },
            Turn {
                endpoint: 2,
                answer: None,
                ..GRANTED
            },
        ],
        None,
    ),
    (
        "a lease without an end, at each endpoint",
        &[
            Turn {
                answer: Some("{\"header\":{},\"ID\":\"7\"}"),
                ..GRANTED
            },
            Turn {
                endpoint: 1,
                answer: Some("{\"header\":{},\"ID\":\"7\"}"),
                ..GRANTED
            },
            Turn {
                endpoint: 2,
                answer: Some("{\"header\":{},\"ID\":\"7\"}"),
                ..GRANTED
            },
        ],
        None,
    ),
];

#[test]
fn a_desk_leads_if_no_other_one_does(rt: HostRuntime) -> Result<(), Fail> {
    let clocks = Clocks::new(&rt).ok_or("a clock")?;
    for (what, turns, leads) in ROWS {
        let mut desk = candidate(rt.alloc(), turns)?.ok_or("a candidate")?;
        match take_lead(rt.alloc(), &mut desk, &clocks) {
            Ok(Taking::Leads(Lead { number, lease })) => {
                assert_eq!(rt; *leads, Some(true), "{what}");
                assert_eq!(rt; number, 7_587_862_094_870_418_962, "{what}");
                assert_eq!(rt; (lease.length_ms, lease.margin_ms), (3_000, 500), "{what}");
                assert_eq!(rt; lease.asked, lease.seen, "{what}");
            }
            Ok(Taking::IsLed(claim)) => {
                assert_eq!(rt; *leads, Some(false), "{what}");
                assert_eq!(rt; claim.lead.number, 7_587_862_094_870_418_962, "{what}");
                assert!(rt; claim.former.as_slice() == b"desk-B".as_slice(), "{what}");
            }
            Err(error) => {
                assert_eq!(rt; *leads, None, "{what}");
                assert_eq!(rt; error, NodeError::Unanswered, "{what}");
            }
        }
        assert!(rt; desk.exchange().is_done(), "{what}");
    }
    Ok(())
}

/// The question for the lead, sixteen times without an answer, from endpoint to endpoint.
const UNANSWERED: &[Turn] = &[
    GRANTED,
    ASKED,
    Turn {
        endpoint: 1,
        ..ASKED
    },
    Turn {
        endpoint: 2,
        ..ASKED
    },
    ASKED,
    Turn {
        endpoint: 1,
        ..ASKED
    },
    Turn {
        endpoint: 2,
        ..ASKED
    },
    ASKED,
    Turn {
        endpoint: 1,
        ..ASKED
    },
    Turn {
        endpoint: 2,
        ..ASKED
    },
    ASKED,
    Turn {
        endpoint: 1,
        ..ASKED
    },
    Turn {
        endpoint: 2,
        ..ASKED
    },
    ASKED,
    Turn {
        endpoint: 1,
        ..ASKED
    },
    Turn {
        endpoint: 2,
        ..ASKED
    },
    ASKED,
];

#[test]
fn a_desk_gives_up_after_sixteen_questions(rt: HostRuntime) -> Result<(), Fail> {
    let clocks = Clocks::new(&rt).ok_or("a clock")?;
    let mut desk = candidate(rt.alloc(), UNANSWERED)?.ok_or("a candidate")?;
    let taken = take_lead(rt.alloc(), &mut desk, &clocks);
    assert!(rt; matches!(taken, Err(NodeError::Unanswered)));
    assert!(rt; desk.exchange().is_done());
    Ok(())
}
