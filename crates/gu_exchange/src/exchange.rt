//! HTTP to the endpoints of an etcd.

ghost use Rattle.std.specs.Prelude.{◌≡◌, ◌≤◌, IfOk, vec_len, None};
ghost use Rattle.gu_etcd.specs.declared.answers.TheConstants.{MAX_ANSWER};

use crate::connection::Connection;
use gu_etcd::{Exchange, MAX_ANSWER, NodeError};
use std::alloc::Global;
use std::io;
use std::io::{Read, Write};

/// Opens connections to the endpoints of an etcd.
pub trait Connector: Drop {
    type Stream: Read + Write + Drop;

    /// Opens a connection to an endpoint, whose reads and writes give up in time.
    fn connect(&mut self, alloc: Global, endpoint: usize) -> io::Result<Self::Stream>;
}

/// HTTP to the endpoints of an etcd, over one connection that stays open. After a request that got no answer it is closed.
#[derive(Drop)]
pub struct HttpExchange<C: Connector> {
    connector: C,
    connection: Option<Connection<C::Stream>>,
}

impl<C: Connector> HttpExchange<C> {
    /// Creates an exchange that has no connection yet.
    pub fn new(connector: C) -> Self
        ensures connector { result.connector ≡ connector }
        ensures connection { result.connection ≡ None }
    {
        HttpExchange {
            connector,
            connection: None,
        }
    }

    /// Returns the connector, to look at.
    pub fn connector(&self) -> &C
        ensures { result.now ≡ self.now.connector }
    {
        &self.connector
    }

    /// Returns the connection that is open, if it is to this endpoint, or else a new one.
    fn connection_to(
        &mut self,
        alloc: Global,
        endpoint: usize,
    ) -> Result<Connection<C::Stream>, NodeError> {
        match self.connection.take() {
            Some(connection) if connection.endpoint() == endpoint => Ok(connection),
            _ => match self.connector.connect(alloc, endpoint) {
                Ok(stream) => Ok(Connection::new(alloc, endpoint, stream)),
                Err(_) => Err(NodeError::Unanswered),
            },
        }
    }
}

impl<C: Connector> Exchange for HttpExchange<C> {
    fn post(
        &mut self,
        alloc: Global,
        endpoint: usize,
        path: &str,
        body: &str,
    ) -> Result<Vec<u8>, NodeError>
        ensures { IfOk result (λ answer. vec_len answer ≤ MAX_ANSWER) }
    {
        let mut connection = self.connection_to(alloc, endpoint)?;
        let answer = connection.ask(alloc, path, body)?;
        if connection.is_idle() {
            self.connection = Some(connection);
        }
        Ok(answer)
    }
}
