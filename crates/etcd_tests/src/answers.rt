//! What etcd 3.4.23 answered to requests, and what is read of it.
use gu_etcd::{MAX_ANSWER, NodeError, PutAnswer, read_put};
use std::alloc::Global;
use std::test::Fail;

/// Returns what is read of an answer, as a word.
fn word(alloc: Global, answer: &str) -> &'static str {
    match read_put(alloc, answer.as_bytes()) {
        Ok(PutAnswer::Kept) => "kept",
        Ok(PutAnswer::Holds(there)) => {
            if there.as_slice() == b"hello\n".as_slice() {
                "hello"
            } else if there.is_empty() {
                "empty"
            } else {
                "another"
            }
        }
        Ok(PutAnswer::NotLeading) => "not leading",
        Err(NodeError::Unanswered) => "none",
        Err(NodeError::Memory) => "memory",
    }
}

/// Answers as they came, and what is read of each.
const ANSWERS: &[(&str, &str)] = &[
    (
        "{\"header\":{\"cluster_id\":\"17086039349274994302\",\"member_id\":\"2153012361009272853\",\"revision\":\"3\",\"raft_term\":\"2\"},\"succeeded\":true,\"responses\":[{\"response_put\":{\"header\":{\"revision\":\"3\"}}}]}",
        "kept",
    ),
    (
        "{\"header\":{\"revision\":\"3\",\"raft_term\":\"2\"},\"responses\":[{\"response_range\":{\"header\":{\"revision\":\"3\"},\"kvs\":[{\"key\":\"REFZLzAwMDAwMDAwMDE=\",\"create_revision\":\"3\",\"mod_revision\":\"3\",\"version\":\"1\",\"value\":\"aGVsbG8K\"}],\"count\":\"1\"}}]}",
        "hello",
    ),
    (
        "{\"header\":{\"revision\":\"4\"},\"responses\":[{\"response_range\":{\"header\":{\"revision\":\"4\"},\"kvs\":[{\"key\":\"REFZLzAwMDAwMDAwMDI=\",\"create_revision\":\"4\",\"mod_revision\":\"4\",\"version\":\"1\"}],\"count\":\"1\"}}]}",
        "empty",
    ),
    (
        "{\"responses\":[{\"response_range\":{\"kvs\":[{\"value\":\"b3RoZXIK\"}]}}]}",
        "another",
    ),
    (
        "{\"header\":{\"revision\":\"4\"},\"responses\":[{\"response_range\":{\"header\":{\"revision\":\"4\"}}}]}",
        "not leading",
    ),
];

#[test]
fn each_answer_of_etcd_is_read(rt: HostRuntime) {
    for (answer, read) in ANSWERS {
        assert_eq!(rt; word(rt.alloc(), answer), *read, "{answer}");
    }
}

/// Texts that answer nothing.
const NO_ANSWERS: &[&str] = &[
    "",
    "{",
    "{}",
    "[]",
    "true",
    "Not Found\n",
    "{\"error\":\"unexpected EOF\",\"message\":\"unexpected EOF\",\"code\":3}",
    "{\"error\":\"etcdserver: request timed out\",\"message\":\"etcdserver: request timed out\",\"code\":14}",
    "{\"succeeded\":false}",
    "{\"succeeded\":\"true\"}",
    "{\"responses\":[]}",
    "{\"responses\":{}}",
    "{\"responses\":[{\"response_put\":{}}]}",
    "{\"responses\":[{\"response_range\":{\"kvs\":[{\"value\":7}]}}]}",
    "{\"responses\":[{\"response_range\":{\"kvs\":[{\"value\":\"?\"}]}}]}",
    "{\"responses\":[{\"response_range\":{\"kvs\":[{\"value\":\"aGVsbG8\"}]}}]}",
    "{\"responses\":[{\"response_range\":{}}]",
];

#[test]
fn what_is_no_answer_is_read_as_none(rt: HostRuntime) {
    for answer in NO_ANSWERS {
        assert_eq!(rt; word(rt.alloc(), answer), "none", "{answer}");
    }
}

#[test]
fn an_answer_that_is_too_long_is_none(rt: HostRuntime) -> Result<(), Fail> {
    let mut long = vec![in rt.alloc(); b' '; MAX_ANSWER]?;
    long.extend_from_slice(b"{\"succeeded\":true}")?;
    assert!(rt; matches!(read_put(rt.alloc(), &long), Err(NodeError::Unanswered)));
    Ok(())
}
