//! When the gate of a desk gives permits: by two clocks that a test sets, from a lease of 3 s with a margin of 500 ms.

use gu_lease::{BothClocks, Gate, Lease, Moment};
use std::cell::Cell;

/// Two clocks that a test sets.
#[derive(Drop)]
struct Dials {
    now: Cell<Option<Moment>>,
}

impl BothClocks for Dials {
    fn now(&self) -> Option<Moment> {
        self.now.get()
    }
}

/// Returns the moment at which both clocks have gone on since the lease was asked for.
fn after(monotonic_ms: u32, system_ms: u32) -> Moment {
    Moment {
        monotonic_ms: 10_000 + u64::from(monotonic_ms),
        system_ms: 1_767_600_000_000 + u64::from(system_ms),
    }
}

/// Returns a lease that was asked for when both clocks had gone on.
fn lease(ms: u32) -> Lease {
    Lease::new(after(ms, ms), 3_000, 500)
}

/// Returns the gate of a desk whose lease was just asked for.
fn gate() -> Gate<Dials> {
    let dials = Dials {
        now: Cell::new(Some(after(0, 0))),
    };
    Gate::of_lease(dials, lease(0))
}

/// Sets the clocks of a gate.
fn set(gate: &Gate<Dials>, now: Option<Moment>) {
    if let Some(dials) = gate.clocks() {
        dials.now.set(now);
    }
}

/// What the clocks say, in milliseconds since the lease was asked for, and whether the desk leads: one after another, at one gate.
const ROWS: &[(&str, &[(u32, u32, bool)])] = &[
    (
        "up to the margin",
        &[
            (0, 0, true),
            (2_499, 2_499, true),
            (2_500, 2_500, false),
            (2_499, 2_499, false),
        ],
    ),
    (
        "the machine slept",
        &[(1, 1, true), (2, 3_600_000, false), (3, 3, false)],
    ),
    (
        "the system's clock was set on",
        &[(1, 1, true), (2, 2_500, false)],
    ),
    (
        "the system's clock was set back",
        &[(100, 100, true), (101, 99, false), (102, 102, false)],
    ),
    (
        "the monotonic clock went back",
        &[(100, 100, true), (99, 101, false), (102, 102, false)],
    ),
];

#[test]
fn a_desk_leads_until_a_clock_ends_it_for_good(rt: HostRuntime) {
    for (what, looks) in ROWS {
        let gate = gate();
        for (monotonic_ms, system_ms, leads) in *looks {
            set(&gate, Some(after(*monotonic_ms, *system_ms)));
            assert_eq!(rt; gate.ask(&rt, 7).is_some(), *leads, "{what}");
            assert_eq!(rt; gate.leads(&rt), *leads, "{what}");
        }
    }
}

#[test]
fn a_permit_says_how_many_entries_are_kept(rt: HostRuntime) {
    let permit = gate().ask(&rt, 7).expect(&rt, "a permit");
    assert_eq!(rt; permit.kept(), 7);
    let open: Gate<Dials> = Gate::open();
    let permit = open.ask(&rt, u64::MAX).expect(&rt, "a permit");
    assert_eq!(rt; permit.kept(), u64::MAX);
    assert!(rt; !open.needs_lease());
    assert!(rt; gate().needs_lease());
}

#[test]
fn a_clock_that_fails_ends_it_for_good(rt: HostRuntime) {
    let gate = gate();
    set(&gate, None);
    assert!(rt; gate.ask(&rt, 0).is_none());
    set(&gate, Some(after(1, 1)));
    assert!(rt; !gate.leads(&rt));
    assert!(rt; !gate.renew(&rt, lease(1)));
}

#[test]
fn a_renewed_lease_counts_from_when_that_was_asked(rt: HostRuntime) {
    let gate = gate();
    set(&gate, Some(after(2_000, 2_000)));
    assert!(rt; gate.renew(&rt, lease(1_900)));
    set(&gate, Some(after(4_399, 4_399)));
    assert!(rt; gate.leads(&rt));
    set(&gate, Some(after(4_400, 4_400)));
    assert!(rt; !gate.leads(&rt));
    assert!(rt; !gate.renew(&rt, lease(4_400)));
    assert!(rt; !gate.leads(&rt));
}

#[test]
fn a_lease_that_ended_while_it_was_renewed_stays_ended(rt: HostRuntime) {
    let gate = gate();
    set(&gate, Some(after(2_600, 2_600)));
    assert!(rt; !gate.renew(&rt, lease(2_000)));
    assert!(rt; !gate.leads(&rt));
}

#[test]
fn a_desk_that_ends_its_lease_leads_no_more(rt: HostRuntime) {
    let gate = gate();
    gate.end(&rt);
    assert!(rt; gate.ask(&rt, 0).is_none());
    assert!(rt; !gate.renew(&rt, lease(0)));
    let open: Gate<Dials> = Gate::open();
    open.end(&rt);
    assert!(rt; open.leads(&rt));
    assert!(rt; open.renew(&rt, lease(0)));
    assert!(rt; open.now().is_none());
}
