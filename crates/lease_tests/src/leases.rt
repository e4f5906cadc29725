//! When a desk leads by its lease of 3 s with a margin of 500 ms, asked for at 10,000 ms by the one clock and 50,000 ms by the other.
use gu_lease::{Lease, Moment};

/// What the two clocks say, and whether the desk leads.
const ROWS: &[(&str, u64, u64, bool)] = &[
    ("at once", 10_000, 50_000, true),
    ("after a second", 11_000, 51_000, true),
    ("just before the margin", 12_499, 52_499, true),
    ("at the margin", 12_500, 52_500, false),
    ("after the lease", 13_000, 53_000, false),
    (
        "the machine slept: its monotonic clock stood still",
        10_001,
        3_650_000,
        false,
    ),
    ("the system's clock stood still", 12_500, 50_000, false),
    ("the system's clock was set on", 10_100, 52_500, false),
    ("the system's clock was set back", 10_100, 49_999, false),
    ("the monotonic clock went back", 9_999, 50_100, false),
    ("the end of time", u64::MAX, u64::MAX, false),
];

fn lease() -> Lease {
    let asked = Moment {
        monotonic_ms: 10_000,
        system_ms: 50_000,
    };
    Lease::new(asked, 3_000, 500)
}

fn moment(monotonic_ms: u64, system_ms: u64) -> Moment {
    Moment {
        monotonic_ms,
        system_ms,
    }
}

#[test]
fn a_desk_leads_until_the_margin(rt: HostRuntime) {
    for (what, monotonic_ms, system_ms, leads) in ROWS {
        let now = Moment {
            monotonic_ms: *monotonic_ms,
            system_ms: *system_ms,
        };
        assert_eq!(rt; lease().leads(now), *leads, "{what}");
        assert_eq!(rt; lease().at(now).is_some(), *leads, "{what}");
    }
}

#[test]
fn a_clock_that_went_back_after_a_sleep_ends_it(rt: HostRuntime) {
    let seen = lease().at(moment(11_000, 51_000));
    let lease = seen.expect(&rt, "it leads");
    assert!(rt; lease.leads(moment(11_000, 51_000)));
    assert!(rt; !lease.leads(moment(11_000, 50_999)));
    assert!(rt; !lease.leads(moment(10_999, 51_000)));
}

#[test]
fn a_margin_as_long_as_the_lease_never_leads(rt: HostRuntime) {
    let asked = Moment {
        monotonic_ms: 0,
        system_ms: 0,
    };
    assert!(rt; !Lease::new(asked, 500, 500).leads(asked));
    assert!(rt; !Lease::new(asked, u64::MAX, u64::MAX).leads(asked));
    assert!(rt; Lease::new(asked, 501, 500).leads(asked));
}
