//! Doors of the tests' own.

use gu_server::LetsIn;
use gu_sockets::{Caller, Doorway, OperatorDoor};
use std::io;
use std::io::{Error, ErrorKind};
use std::os::unix::net::UnixStream;
use std::time::Duration;

/// A door at which one operator may wait; an accept that finds nobody fails, if the row says so.
#[derive(Drop)]
pub struct TestDoor {
    pub doorway: Doorway,
    pub fails_where_nobody_waits: bool,
    pub operator: Option<UnixStream>,
}

impl LetsIn for TestDoor {
    fn wait(&mut self, most: Option<Duration>) -> io::Result<()> {
        self.doorway.wait(most)
    }

    fn is_due(&self) -> bool {
        self.doorway.is_due()
    }

    fn accept(&mut self) -> io::Result<Option<Caller>> {
        match self.doorway.accept() {
            Ok(None) if self.fails_where_nobody_waits => Err(Error::from(ErrorKind::WouldBlock)),
            accepted => accepted,
        }
    }

    fn accept_operator(&mut self, which: OperatorDoor) -> io::Result<Option<UnixStream>> {
        match which {
            OperatorDoor::Console => Ok(self.operator.take()),
            OperatorDoor::Watch => Ok(None),
        }
    }

    fn close_firms(&mut self) {
        self.doorway.close_firms();
    }
}
