//! Claiming the lead from the desk that has it.
use crate::etcd::{Turn, candidate};
use crate::takings::{IS_LED_BY_A, IS_LED_BY_B, LEADS};
use gu_etcd::{NodeError, TXN_PATH};
use gu_lead::{Claim, Lead};
use gu_lease::{Lease, Moment};
use std::test::Fail;

/// The claim of desk-A with lease 9: DAY/0000000018 has to be free, and DAY/leader to have the value desk-B.
const ASKED: Turn = Turn {
    endpoint: 0,
    path: TXN_PATH,
    says: "{\"compare\":[{\"target\":\"VERSION\",\"key\":\"REFZLzAwMDAwMDAwMTg=\",\"version\":\"0\"},{\"target\":\"VALUE\",\"key\":\"REFZL2xlYWRlcg==\",\"value\":\"ZGVzay1C\"}],\"success\":[{\"request_put\":{\"key\":\"REFZL2xlYWRlcg==\",\"value\":\"ZGVzay1B\",\"lease\":\"9\"}}],\"failure\":[{\"request_range\":{\"key\":\"REFZL2xlYWRlcg==\"}}]}",
    answer: None,
};

/// The answer that desk-C leads.
const IS_LED_BY_C: Option<&str> = Some(
    "{\"header\":{\"revision\":\"8\"},\"responses\":[{\"response_range\":{\"header\":{\"revision\":\"8\"},\"kvs\":[{\"key\":\"REFZL2xlYWRlcg==\",\"value\":\"ZGVzay1D\"}],\"count\":\"1\"}}]}",
);

/// What an etcd answers, and what becomes of the claim: whether the desk leads by it, if that is known.
const ROWS: &[(&str, &[Turn], Result<bool, NodeError>)] = &[
    (
        "the desk that was seen still leads, and the number is free",
        &[Turn {
            answer: LEADS,
            ..ASKED
        }],
        Ok(true),
    ),
    (
        "that desk still leads, so the log has grown",
        &[Turn {
            answer: IS_LED_BY_B,
            ..ASKED
        }],
        Ok(false),
    ),
    (
        "a third desk leads",
        &[Turn {
            answer: IS_LED_BY_C,
            ..ASKED
        }],
        Ok(false),
    ),
    (
        "the answer to the first question got lost",
        &[
            ASKED,
            Turn {
                endpoint: 1,
                answer: IS_LED_BY_A,
                ..ASKED
            },
        ],
        Ok(true),
    ),
    (
        "the first question got lost, and the log has grown since",
        &[
            ASKED,
            Turn {
                endpoint: 1,
                answer: IS_LED_BY_B,
                ..ASKED
            },
        ],
        Ok(false),
    ),
];

#[test]
fn a_desk_leads_if_nothing_has_moved_since_it_looked(rt: HostRuntime) -> Result<(), Fail> {
    let now = Moment {
        monotonic_ms: 1_000,
        system_ms: 1_767_600_000_000,
    };
    for (what, turns, became) in ROWS {
        let mut desk = candidate(rt.alloc(), turns)?.ok_or("a candidate")?;
        let claim = Claim {
            lead: Lead {
                number: 9,
                lease: Lease::new(now, 3_000, 500),
            },
            former: Vec::from_slice(rt.alloc(), b"desk-B")?,
        };
        let made = claim.make(rt.alloc(), &mut desk, 18);
        let leads = match made {
            Ok(Some(lead)) => {
                assert_eq!(rt; lead, claim.lead, "{what}");
                Ok(true)
            }
            Ok(None) => Ok(false),
            Err(error) => Err(error),
        };
        assert_eq!(rt; leads, *became, "{what}");
        assert!(rt; desk.exchange().is_done(), "{what}");
    }
    Ok(())
}
