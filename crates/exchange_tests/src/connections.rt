//! Which connections an exchange opens.
use crate::line::{Line, Piece};
use gu_etcd::{Exchange, NodeError};
use gu_exchange::{Connector, HttpExchange};
use std::alloc::Global;
use std::io;
use std::io::ErrorKind;
use std::test::Fail;

/// Opens connections with scripts, one after the other, and then none.
#[derive(Drop)]
struct Scripts {
    scripts: &'static [&'static [Piece]],
    /// The endpoints to which connections were opened.
    opened: Vec<usize>,
}

impl Connector for Scripts {
    type Stream = Line;

    fn connect(&mut self, alloc: Global, endpoint: usize) -> io::Result<Line> {
        self.opened.push(endpoint)?;
        let [pieces, rest @ ..] = self.scripts else {
            return Err(io::Error::from(ErrorKind::ConnectionRefused));
        };
        self.scripts = rest;
        Ok(Line {
            pieces,
            read: 0,
            sent: Vec::new(alloc),
            room: usize::MAX,
        })
    }
}

/// A peer that answers three times.
const THREE: &[Piece] = &[
    Piece::Text("HTTP/1.1 200 OK\r\nContent-Length: 1\r\n\r\n1"),
    Piece::Text("HTTP/1.1 200 OK\r\nContent-Length: 1\r\n\r\n2"),
    Piece::Text("HTTP/1.1 200 OK\r\nContent-Length: 1\r\n\r\n3"),
];

/// A peer that answers after the time is up.
const LATE: &[Piece] = &[
    Piece::Fault,
    Piece::Text("HTTP/1.1 200 OK\r\nContent-Length: 4\r\n\r\nlate"),
];

/// Returns the answer as a text, or `-` if there is none.
fn said<C: Connector>(exchange: &mut HttpExchange<C>, alloc: Global, endpoint: usize) -> String {
    let answer = match exchange.post(alloc, endpoint, "/v3/kv/txn", "{}") {
        Ok(answer) => String::from_utf8(answer).ok(),
        Err(NodeError::Unanswered | NodeError::Memory) => None,
    };
    answer.unwrap_or(String::new(alloc))
}

#[test]
fn one_connection_stays_open(rt: HostRuntime) -> Result<(), Fail> {
    let mut exchange = HttpExchange::new(Scripts {
        scripts: &[THREE, THREE],
        opened: Vec::new(rt.alloc()),
    });
    assert_eq!(rt; said(&mut exchange, rt.alloc(), 0).as_str(), "1");
    assert_eq!(rt; said(&mut exchange, rt.alloc(), 0).as_str(), "2");
    assert_eq!(rt; said(&mut exchange, rt.alloc(), 1).as_str(), "1");
    assert_eq!(rt; said(&mut exchange, rt.alloc(), 1).as_str(), "2");
    assert_eq!(rt; exchange.connector().opened.as_slice(), [0, 1].as_slice());
    Ok(())
}

#[test]
fn a_late_answer_is_never_that_of_the_next_request(rt: HostRuntime) -> Result<(), Fail> {
    let mut exchange = HttpExchange::new(Scripts {
        scripts: &[LATE, THREE],
        opened: Vec::new(rt.alloc()),
    });
    assert_eq!(rt; said(&mut exchange, rt.alloc(), 0).as_str(), "");
    assert_eq!(rt; said(&mut exchange, rt.alloc(), 0).as_str(), "1");
    assert_eq!(rt; exchange.connector().opened.as_slice(), [0, 0].as_slice());
    Ok(())
}

#[test]
fn a_peer_that_cannot_be_reached_gives_no_answer(rt: HostRuntime) -> Result<(), Fail> {
    let mut exchange = HttpExchange::new(Scripts {
        scripts: &[&[], THREE],
        opened: Vec::new(rt.alloc()),
    });
    assert_eq!(rt; said(&mut exchange, rt.alloc(), 0).as_str(), "");
    assert_eq!(rt; said(&mut exchange, rt.alloc(), 1).as_str(), "1");
    assert_eq!(rt; said(&mut exchange, rt.alloc(), 2).as_str(), "");
    assert_eq!(rt;
        exchange.connector().opened.as_slice(),
        [0, 1, 2].as_slice()
    );
    Ok(())
}
