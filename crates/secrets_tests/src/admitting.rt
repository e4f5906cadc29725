//! Which firm logs on by which secret.

use crate::sample::{FILE, firm_of, read};

/// A firm, the secret that it sends, and whether it may log on.
const LOGONS: &[(&str, Option<&str>, bool)] = &[
    ("E1", Some("first secret"), true),
    ("E1", Some("second secret"), true),
    ("C1", Some("first secret"), true),
    ("H-1", Some(""), true),
    // Another firm's secret, or none of anyone.
    ("C1", Some("second secret"), false),
    ("H-1", Some("first secret"), false),
    ("E1", Some("third secret"), false),
    ("E1", Some("First secret"), false),
    ("E1", Some("first secret "), false),
    ("E1", Some("first secre"), false),
    ("E1", Some(""), false),
    // No secret.
    ("E1", None, false),
    ("H-1", None, false),
    // No row.
    ("F1", Some("first secret"), false),
    ("F1", Some(""), false),
    ("F1", None, false),
    // No firm of the house.
    ("E2", Some("first secret"), false),
    ("E2", None, false),
];

#[test]
fn a_firm_logs_on_by_a_secret_that_fits_a_row_of_its_own(rt: HostRuntime) {
    let secrets = read(rt.alloc(), FILE.as_bytes()).ok().expect(&rt, "a file");
    for &(name, secret, want) in LOGONS {
        let secret = secret.map(|text| text.as_bytes());
        assert_eq!(rt; secrets.admits(firm_of(&rt, name), secret), want, "{name}");
    }
}
