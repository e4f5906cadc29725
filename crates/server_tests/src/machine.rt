//! A machine of the tests' own, on which it is always nine on 2026-01-05, and whose standard error a test may read.

use std::fmt::Display;
use std::io;
use std::io::{Error, ErrorKind, Write};
use std::net::{Net, SocketAddr, TcpListener, TcpStream};
use std::rt::Clock;
use std::sync::atomic::{AtomicU64, Ordering};
use std::sync::{Mutex, Wait};
use std::thread::Threads;
use std::time::Duration;

/// A machine on which it is always nine on 2026-01-05. The time since its start grows by this many seconds at each look.
#[derive(Drop)]
pub struct Machine<'a, R> {
    rt: &'a R,
    seconds: AtomicU64,
    leap: u64,
    said: &'a Mutex<Vec<u8>>,
}

impl<'a, R> Machine<'a, R> {
    /// Returns a machine that starts. What is printed on its standard error goes there.
    pub fn new(rt: &'a R, leap: u64, said: &'a Mutex<Vec<u8>>) -> Self {
        Machine {
            rt,
            seconds: AtomicU64::new(0),
            leap,
            said,
        }
    }
}

impl<R: Wait> Wait for Machine<'_, R> {}

impl<R: Threads> Threads for Machine<'_, R> {}

// What watches connections reaches the system by itself: this is asked for nothing.
impl<R> Net for Machine<'_, R> {
    type Stream = TcpStream;

    type Listener = TcpListener;

    fn bind(&self, _addr: SocketAddr) -> io::Result<TcpListener> {
        Err(Error::from(ErrorKind::Unsupported))
    }

    fn connect(&self, _addr: SocketAddr) -> io::Result<TcpStream> {
        Err(Error::from(ErrorKind::Unsupported))
    }
}

impl<R> Clock for Machine<'_, R> {
    fn monotonic(&self) -> io::Result<Duration> {
        let seconds = self.seconds.fetch_add(self.leap, Ordering::SeqCst);
        Ok(Duration::from_secs(seconds.min(1_000_000)))
    }

    fn since_1970(&self) -> io::Result<Duration> {
        Ok(Duration::from_millis(1_767_603_600_000))
    }
}

impl<R: Wait> Eprint for Machine<'_, R> {
    fn eprint<D: Display + Drop>(&self, value: D) -> io::Result<()> {
        let mut said = self.said.lock(self.rt);
        write!(said, "{value}")
    }

    fn eprintln<D: Display + Drop>(&self, value: D) -> io::Result<()> {
        let mut said = self.said.lock(self.rt);
        writeln!(said, "{value}")
    }
}
