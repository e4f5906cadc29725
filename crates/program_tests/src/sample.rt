//! The sample house.

use crate::rows::check_text;
use gu_program::{SAMPLE_ROWS, sample_day};

/// Its rows, each with its end.
const TYPED: &str = "\
FIRM,E1
FIRM,E2
FIRM,C1
FIRM,C2
GROUP,G1
GROUP,G2
INSTRUMENT,XF6,G1
INSTRUMENT,YF6,G2
ACCOUNT,H1,E1
ACCOUNT,H2,E2
ACCOUNT,A1,C1
ACCOUNT,A2,C1
ACCOUNT,A3,C2
AGREEMENT,P1,E1,A1
AGREEMENT,P2,E1,A2
AGREEMENT,P3,E2,A1
AGREEMENT,P4,E2,A3
";

#[test]
fn the_sample_is_seventeen_rows_and_a_monday(rt: HostRuntime) {
    let rows = str::from_utf8(SAMPLE_ROWS).unwrap_or("?");
    check_text(&rt, "the rows", rows, TYPED);
    assert!(rt; sample_day().get() == (2026, 1, 5));
}
