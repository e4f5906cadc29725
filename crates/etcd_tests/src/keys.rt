//! Names of logs, and their keys.
use gu_etcd::{LAST_NUMBER, MAX_NAME, batch_key, end_key, is_name, leader_key};
use std::test::Fail;

/// Texts, and whether each is the name of a log or of a desk.
const NAMES: &[(&str, bool)] = &[
    ("DAY", true),
    ("day-2026_01.05", true),
    ("a", true),
    (".", true),
    ("Z9", true),
    ("", false),
    ("a/b", false),
    ("a b", false),
    ("a\n", false),
    ("a:", false),
    ("[", false),
    ("@", false),
    ("`", false),
    ("{", false),
    ("\u{e9}", false),
];

#[test]
fn names_are_letters_digits_and_three_signs(rt: HostRuntime) {
    for (name, is) in NAMES {
        assert_eq!(rt; is_name(name.as_bytes()), *is, "{name}");
    }
}

#[test]
fn a_name_has_64_letters_at_most(rt: HostRuntime) -> Result<(), Fail> {
    let longest = vec![in rt.alloc(); b'x'; MAX_NAME]?;
    let longer = vec![in rt.alloc(); b'x'; MAX_NAME + 1]?;
    assert_eq!(rt; longest.len(), 64);
    assert!(rt; is_name(&longest));
    assert!(rt; !is_name(&longer));
    Ok(())
}

/// Numbers, and the keys of their entries in the log DAY.
const KEYS: &[(u64, &str)] = &[
    (1, "DAY/0000000001"),
    (7, "DAY/0000000007"),
    (10, "DAY/0000000010"),
    (1_024, "DAY/0000001024"),
    (1_234_567_890, "DAY/1234567890"),
    (LAST_NUMBER, "DAY/9999999999"),
];

#[test]
fn a_key_has_ten_digits(rt: HostRuntime) -> Result<(), Fail> {
    for (number, key) in KEYS {
        let made = batch_key(rt.alloc(), b"DAY", *number)?;
        assert_eq!(rt; made.as_slice(), key.as_bytes(), "{number}");
    }
    Ok(())
}

#[test]
fn the_leader_comes_after_the_entries(rt: HostRuntime) -> Result<(), Fail> {
    let last = batch_key(rt.alloc(), b"DAY", LAST_NUMBER)?;
    let end = end_key(rt.alloc(), b"DAY")?;
    let leader = leader_key(rt.alloc(), b"DAY")?;
    assert_eq!(rt; end.as_slice(), b"DAY/:".as_slice());
    assert_eq!(rt; leader.as_slice(), b"DAY/leader".as_slice());
    assert!(rt; last.as_slice() < end.as_slice() && end.as_slice() < leader.as_slice());
    Ok(())
}
