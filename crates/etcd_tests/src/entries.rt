//! Entries: batches under the names of their desks.
use gu_etcd::{an_entry_is_of_one_desk, entry_of, parts_of};
use std::test::Fail;

#[test]
fn an_entry_begins_with_the_name_of_its_desk(rt: HostRuntime) -> Result<(), Fail> {
    an_entry_is_of_one_desk();
    let entry = entry_of(rt.alloc(), b"A-7", b"DAY 20260105\n")?;
    assert_eq!(rt; entry.as_slice(), b"# desk A-7\nDAY 20260105\n".as_slice());
    let (desk, batch) = parts_of(&entry).ok_or("parts")?;
    assert_eq!(rt; desk, b"A-7".as_slice());
    assert_eq!(rt; batch, b"DAY 20260105\n".as_slice());
    Ok(())
}

/// Texts, and whether each is the entry of a desk.
const ENTRIES: &[(&str, bool)] = &[
    ("# desk A-7\n", true),
    ("# desk A-7\n\n", true),
    ("# desk A-7\n# desk B-1\n", true),
    ("", false),
    ("DAY 20260105\n", false),
    ("# desk A-7", false),
    ("# desk \nDAY 20260105\n", false),
    ("# desk A 7\n", false),
    ("#desk A-7\n", false),
    ("# desk A-7\r\n", false),
];

#[test]
fn what_has_no_desk_is_no_entry(rt: HostRuntime) {
    for (text, is) in ENTRIES {
        assert_eq!(rt; parts_of(text.as_bytes()).is_some(), *is, "{text}");
    }
}
