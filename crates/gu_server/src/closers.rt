//! The operators that closed a day.

use std::io::Write;
use std::os::unix::net::UnixStream;
use std::time::Duration;

/// How many seconds a write to one of them may wait for room.
const WRITE_WAIT_S: u64 = 10;

/// The operators that closed a day and wait for its last lines. Dropping them closes their connections.
#[derive(Drop)]
pub struct Closers {
    streams: Vec<UnixStream>,
}

impl Closers {
    /// Creates the list from these connections.
    pub fn new(streams: Vec<UnixStream>) -> Self {
        Closers { streams }
    }

    /// Sends each of them the last lines of the day and an empty line, which ends the answer. What an operator doesn't take is lost.
    pub fn tell(&self, lines: &str) {
        for stream in &self.streams {
            let _ = stream.set_write_timeout(Some(Duration::from_secs(WRITE_WAIT_S)));
            let mut to = stream;
            if to.write_all(lines.as_bytes()).is_ok() {
                let _ = to.write_all(b"\n");
            }
        }
    }
}
