//! Secrets that are issued, byte by byte.

use crate::sample::{firm_of, read};
use gu_secrets::issue;

/// Returns 32 bytes: this one first, and then each as much more than the one before it.
fn drawn_from(first: u8, step: u8) -> [u8; 32] {
    let mut drawn = [first; 32];
    for place in 1..32 {
        drawn[place] = drawn[place - 1].wrapping_add(step);
    }
    drawn
}

/// A firm, the first byte that is drawn, by how much each other one is more than the one before it, the secret that is issued, and its
/// line. The digests are those of Python's hashlib.
const ISSUED: &[(&str, u8, u8, &str, &str)] = &[
    (
        "E1",
        0,
        1,
        "101112131415161718191a1b1c1d1e1f",
        "E1,000102030405060708090a0b0c0d0e0f,6260881eef63b338c58ef4638ccb26d8f2ab8f81eb097925c51c255b224761e5",
    ),
    (
        "E1",
        0,
        0,
        "00000000000000000000000000000000",
        "E1,00000000000000000000000000000000,6c58833e4305927c736ba96b7bb5407edf759255e4c5fb58b2bd435e619c0c7a",
    ),
    (
        "H-1",
        255,
        0,
        "ffffffffffffffffffffffffffffffff",
        "H-1,ffffffffffffffffffffffffffffffff,bf7c6a289e831bada3076b44209d45f2a53fa7eba96bec3f54d8068326ebc306",
    ),
];

#[test]
fn a_firm_logs_on_by_the_secret_that_is_issued_to_it(rt: HostRuntime) {
    let alloc = rt.alloc();
    for &(name, first, step, secret, line) in ISSUED {
        let issued = issue(alloc, firm_of(&rt, name), drawn_from(first, step))
            .ok()
            .expect(&rt, "memory");
        assert!(rt;
            issued.secret.as_slice() == secret.as_bytes(),
            "{name}: the secret"
        );
        assert!(rt;
            issued.line.as_slice() == line.as_bytes(),
            "{name}: the line"
        );
        let secrets = read(alloc, &issued.line).ok().expect(&rt, "a file");
        assert!(rt;
            secrets.admits(firm_of(&rt, name), Some(issued.secret.as_slice())),
            "{name}"
        );
    }
}
