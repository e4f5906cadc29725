//! Rows of tables, asserted.

use std::alloc::AllocError;
use std::process::Abort;

/// Asserts that the report of a run is the one in a row.
pub fn check_told(rt: &impl Abort, row: &str, told: Result<String, AllocError>, expected: &str) {
    let told = told.expect(rt, "memory");
    assert_eq!(rt; told.as_str(), expected, "{row}");
}
