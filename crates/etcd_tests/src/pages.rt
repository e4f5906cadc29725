//! Pages of a log, as etcd 3.4.23 answers them.
use gu_etcd::{NodeError, PAGE, Page, read_page};
use std::alloc::Global;
use std::test::Fail;

/// The page of two entries at the numbers 1 and 2 of DAY, the second one empty.
const TWO: &str =
    "{\"header\":{\"cluster_id\":\"17086039349274994302\",\"revision\":\"4\"},\"kvs\":[\
    {\"key\":\"REFZLzAwMDAwMDAwMDE=\",\"create_revision\":\"3\",\"mod_revision\":\"3\",\"version\":\"1\",\"value\":\"aGVsbG8K\"},\
    {\"key\":\"REFZLzAwMDAwMDAwMDI=\",\"create_revision\":\"4\",\"mod_revision\":\"4\",\"version\":\"1\"}],\"count\":\"2\"}";

/// The same, of which only the first was asked for.
const ONE: &str = "{\"header\":{\"revision\":\"4\"},\"kvs\":[\
    {\"key\":\"REFZLzAwMDAwMDAwMDE=\",\"create_revision\":\"3\",\"mod_revision\":\"3\",\"version\":\"1\",\"value\":\"aGVsbG8K\"}],\
    \"more\":true,\"count\":\"2\"}";

fn page_of(alloc: Global, answer: &str, number: u64) -> Result<Page, NodeError> {
    if number > 9 {
        return Err(NodeError::Unanswered);
    }
    read_page(alloc, answer.as_bytes(), b"DAY", number)
}

#[test]
fn the_entries_of_a_page_are_read_in_order(rt: HostRuntime) -> Result<(), Fail> {
    let page = page_of(rt.alloc(), TWO, 1)?;
    assert_eq!(rt; page.entries.len(), 2);
    assert_eq!(rt; page.entries[0].as_slice(), b"hello\n".as_slice());
    assert!(rt; page.entries[1].is_empty());
    assert!(rt; !page.has_more);
    let page = page_of(rt.alloc(), ONE, 1)?;
    assert_eq!(rt; page.entries.len(), 1);
    assert!(rt; page.has_more);
    let page = page_of(rt.alloc(), "{\"header\":{\"revision\":\"4\"}}", 3)?;
    assert!(rt; page.entries.is_empty() && !page.has_more);
    Ok(())
}

/// Texts that are no page from number 1 on.
const NO_PAGES: &[&str] = &[
    "",
    "{}",
    "{\"error\":\"etcdserver: request timed out\",\"code\":14}",
    "{\"header\":{},\"more\":true}",
    "{\"header\":{},\"kvs\":{}}",
    "{\"header\":{},\"kvs\":[{}]}",
    "{\"header\":{},\"kvs\":[{\"key\":\"REFZLzAwMDAwMDAwMDI=\"}]}",
    "{\"header\":{},\"kvs\":[{\"key\":\"REFZLzAwMDAwMDAwMDE=\",\"value\":\"?\"}]}",
    "{\"header\":{},\"kvs\":[{\"key\":\"REFZLzAwMDAwMDAwMDE=\"},{\"key\":\"REFZLzAwMDAwMDAwMDM=\"}]}",
    "{\"header\":{},\"kvs\":[{\"key\":\"REFZLzAwMDAwMDAwMDE=\"},{\"key\":\"REFZLzAwMDAwMDAwMDE=\"}]}",
];

#[test]
fn a_page_with_another_key_is_none(rt: HostRuntime) {
    for answer in NO_PAGES {
        let page = page_of(rt.alloc(), answer, 1);
        assert!(rt; matches!(page, Err(NodeError::Unanswered)), "{answer}");
    }
    assert!(rt; matches!(page_of(rt.alloc(), TWO, 2), Err(NodeError::Unanswered)));
}

#[test]
fn a_page_with_more_than_was_asked_for_is_none(rt: HostRuntime) -> Result<(), Fail> {
    let mut answer = String::from_str(rt.alloc(), "{\"header\":{},\"kvs\":[")?;
    for _ in 0..PAGE {
        answer.push_str("{\"key\":\"REFZLzAwMDAwMDAwMDE=\"},")?;
    }
    answer.push_str("{\"key\":\"REFZLzAwMDAwMDAwMDE=\"}]}")?;
    let page = page_of(rt.alloc(), answer.as_str(), 1);
    assert!(rt; matches!(page, Err(NodeError::Unanswered)));
    Ok(())
}
