//! Answers as they are read, however they arrive.
use crate::line::{Line, Piece};
use gu_etcd::{MAX_ANSWER, NodeError};
use gu_exchange::Connection;
use std::alloc::Global;
use std::test::Fail;

/// How an answer comes, its body if it has one that counts, and whether the connection can be used again.
#[derive(Clone, Copy)]
struct Row {
    what: &'static str,
    pieces: &'static [Piece],
    body: Option<&'static str>,
    is_idle: bool,
}

const ROWS: &[Row] = &[
    Row {
        what: "in one piece",
        pieces: &[Piece::Text("HTTP/1.1 200 OK\r\nContent-Length: 2\r\n\r\n{}")],
        body: Some("{}"),
        is_idle: true,
    },
    Row {
        what: "byte by byte",
        pieces: &[Piece::Bytes(
            "HTTP/1.1 200 OK\r\nContent-Type: application/json\r\nContent-Length: 4\r\n\r\n[1] ",
        )],
        body: Some("[1] "),
        is_idle: true,
    },
    Row {
        what: "with a signal in between",
        pieces: &[
            Piece::Signal,
            Piece::Text("HTTP/1.1 200 OK\r\nContent-Length: 2\r\n\r\n{"),
            Piece::Signal,
            Piece::Text("}"),
        ],
        body: Some("{}"),
        is_idle: true,
    },
    Row {
        what: "in chunks",
        pieces: &[
            Piece::Text("HTTP/1.1 200 OK\r\nTransfer-Encoding: chunked\r\n\r\n1\r\n{\r\n"),
            Piece::Bytes("5\r\n\"a\":1\r\n1\r\n}\r\n0\r\n\r\n"),
        ],
        body: Some("{\"a\":1}"),
        is_idle: true,
    },
    Row {
        what: "after another one that says: go on",
        pieces: &[Piece::Text(
            "HTTP/1.1 100 Continue\r\n\r\nHTTP/1.1 200 OK\r\nContent-Length: 2\r\n\r\n{}",
        )],
        body: Some("{}"),
        is_idle: true,
    },
    Row {
        what: "an empty one",
        pieces: &[Piece::Text("HTTP/1.1 200 OK\r\nContent-Length: 0\r\n\r\n")],
        body: Some(""),
        is_idle: true,
    },
    Row {
        what: "the last one",
        pieces: &[Piece::Text(
            "HTTP/1.1 200 OK\r\nConnection: close\r\nContent-Length: 2\r\n\r\n{}",
        )],
        body: Some("{}"),
        is_idle: false,
    },
    Row {
        what: "with more than was asked for",
        pieces: &[Piece::Text(
            "HTTP/1.1 200 OK\r\nContent-Length: 2\r\n\r\n{}HTTP/1.1 200 OK\r\nContent-Length: 2\r\n\r\n[]",
        )],
        body: Some("{}"),
        is_idle: false,
    },
    Row {
        what: "another status",
        pieces: &[Piece::Text("HTTP/1.1 503 Service Unavailable\r\nContent-Length: 2\r\n\r\n{}")],
        body: None,
        is_idle: true,
    },
    Row {
        what: "closed within the body",
        pieces: &[Piece::Text("HTTP/1.1 200 OK\r\nContent-Length: 3\r\n\r\n{}")],
        body: None,
        is_idle: false,
    },
    Row {
        what: "closed within a chunk",
        pieces: &[Piece::Text("HTTP/1.1 200 OK\r\nTransfer-Encoding: chunked\r\n\r\n2\r\n{}\r\n")],
        body: None,
        is_idle: false,
    },
    Row {
        what: "a body that only the end of the connection ends",
        pieces: &[Piece::Text("HTTP/1.1 200 OK\r\n\r\n{}")],
        body: None,
        is_idle: false,
    },
    Row {
        what: "closed at once",
        pieces: &[],
        body: None,
        is_idle: false,
    },
    Row {
        what: "no answer in time",
        pieces: &[
            Piece::Fault,
            Piece::Text("HTTP/1.1 200 OK\r\nContent-Length: 2\r\n\r\n{}"),
        ],
        body: None,
        is_idle: false,
    },
    Row {
        what: "no answer in time within the body",
        pieces: &[
            Piece::Text("HTTP/1.1 200 OK\r\nContent-Length: 2\r\n\r\n{"),
            Piece::Fault,
            Piece::Text("}"),
        ],
        body: None,
        is_idle: false,
    },
    Row {
        what: "two lengths",
        pieces: &[Piece::Text(
            "HTTP/1.1 200 OK\r\nContent-Length: 2\r\nContent-Length: 3\r\n\r\n{} ",
        )],
        body: None,
        is_idle: false,
    },
    Row {
        what: "no HTTP",
        pieces: &[Piece::Text("SSH-2.0-OpenSSH_9.2p1\r\n")],
        body: None,
        is_idle: false,
    },
    Row {
        what: "a head without end",
        pieces: &[Piece::Text("HTTP/1.1 200 OK\r\nA: "), Piece::Endless(1_000)],
        body: None,
        is_idle: false,
    },
    Row {
        what: "a body that is too long",
        pieces: &[
            Piece::Text("HTTP/1.1 200 OK\r\nContent-Length: 999999999999\r\n\r\n"),
            Piece::Endless(2_000),
        ],
        body: None,
        is_idle: false,
    },
];

fn line(alloc: Global, pieces: &'static [Piece]) -> Line {
    Line {
        pieces,
        read: 0,
        sent: Vec::new(alloc),
        room: usize::MAX,
    }
}

#[test]
fn an_answer_is_read_however_it_comes(rt: HostRuntime) {
    for row in ROWS {
        let mut connection = Connection::new(rt.alloc(), 0, line(rt.alloc(), row.pieces));
        let answer = connection.ask(rt.alloc(), "/v3/kv/txn", "{}");
        match (&answer, row.body) {
            (Ok(body), Some(expected)) => {
                assert_eq!(rt; body.as_slice(), expected.as_bytes(), "{}", row.what);
            }
            (Err(error), None) => assert_eq!(rt; *error, NodeError::Unanswered, "{}", row.what),
            _ => panic!(rt; "{}", row.what),
        }
        assert_eq!(rt; connection.is_idle(), row.is_idle, "{}", row.what);
    }
}

#[test]
fn a_request_has_its_length_and_one_host(rt: HostRuntime) -> Result<(), Fail> {
    let pieces = &[Piece::Text("HTTP/1.1 200 OK\r\nContent-Length: 2\r\n\r\n{}")];
    let mut connection = Connection::new(rt.alloc(), 0, line(rt.alloc(), pieces));
    let _ = connection.ask(rt.alloc(), "/v3/kv/range", "{\"key\":\"\"}")?;
    let sent = std::str::from_utf8(&connection.stream().sent)?;
    assert!(rt;
        sent.starts_with("POST /v3/kv/range HTTP/1.1\r\n"),
        "{sent}"
    );
    assert!(rt; sent.contains("host: localhost\r\n"), "{sent}");
    assert!(rt;
        sent.contains("content-type: application/json\r\n"),
        "{sent}"
    );
    assert!(rt; sent.contains("content-length: 10\r\n"), "{sent}");
    assert!(rt; sent.ends_with("\r\n\r\n{\"key\":\"\"}"), "{sent}");
    Ok(())
}

#[test]
fn a_request_that_cannot_be_sent_has_no_answer(rt: HostRuntime) {
    let pieces = &[Piece::Text("HTTP/1.1 200 OK\r\nContent-Length: 2\r\n\r\n{}")];
    for room in [0_usize, 1, 20, 100] {
        let mut stream = line(rt.alloc(), pieces);
        stream.room = room;
        let mut connection = Connection::new(rt.alloc(), 0, stream);
        let answer = connection.ask(rt.alloc(), "/v3/kv/range", "{\"key\":\"\"}");
        assert!(rt; matches!(answer, Err(NodeError::Unanswered)), "{room}");
        assert!(rt; !connection.is_idle(), "{room}");
    }
}

#[test]
fn the_longest_answer_is_read(rt: HostRuntime) -> Result<(), Fail> {
    assert_eq!(rt; MAX_ANSWER, 12_582_912);
    let pieces = &[
        Piece::Text("HTTP/1.1 200 OK\r\nContent-Length: 12582912\r\n\r\n"),
        Piece::Endless(2_000),
    ];
    let mut connection = Connection::new(rt.alloc(), 0, line(rt.alloc(), pieces));
    let answer = connection.ask(rt.alloc(), "/v3/kv/range", "{}")?;
    assert_eq!(rt; answer.len(), 12_582_912);
    Ok(())
}
