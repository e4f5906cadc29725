//! Firms that connect to a server. The lines of a connection are those of `trials`; the time is always nine.

use std::alloc::Global;
use std::io;
use std::io::{Read, Write};
use std::net::{Net, TcpListener, TcpStream};
use std::time::Duration;
use trials::{Talk, shown, wire};

/// How a firm ends its connection.
#[derive(Clone, Copy)]
pub enum Ending {
    /// By a Logout of this number; then it waits until the server closes the connection.
    LogsOut(u64),
    /// It waits until the server closes the connection.
    Waits,
    /// It closes the connection.
    HangsUp,
}

/// A connection of a firm: what it sends and waits for, part by part, and how it ends.
#[derive(Clone, Copy)]
pub struct Visit {
    pub firm: &'static str,
    pub parts: &'static [&'static str],
    pub ending: Ending,
}

/// A firm's side of an open connection.
#[derive(Drop)]
pub struct Client {
    alloc: Global,
    stream: TcpStream,
}

impl Client {
    /// Connects. What doesn't come within 20 seconds has failed.
    pub fn open<R: Net<Listener = TcpListener, Stream = TcpStream>>(
        rt: &R,
        alloc: Global,
        port: u16,
    ) -> io::Result<Self> {
        let stream = TcpStream::connect(rt, ("127.0.0.1", port))?;
        stream.set_read_timeout(Some(Duration::from_secs(20)))?;
        Ok(Client { alloc, stream })
    }

    /// Sends what the lines of a connection say.
    pub fn send(&mut self, firm: &str, lines: &str) -> io::Result<()> {
        let talk = Talk::of(self.alloc, firm, lines)?;
        let sent = wire(self.alloc, &talk.input)?;
        self.stream.write_all(sent.as_bytes())
    }

    /// Sends what the lines of a connection say, and waits for as many bytes as they say come. Returns what came, and what the lines say.
    pub fn talk(&mut self, firm: &str, lines: &str) -> io::Result<(String, String)> {
        let talk = Talk::of(self.alloc, firm, lines)?;
        self.send(firm, lines)?;
        let mut came = vec![in self.alloc; 0_u8; talk.output.len()]?;
        self.stream.read_exact(&mut came)?;
        let came = shown(self.alloc, &came)?;
        let want = String::from_str(self.alloc, &talk.output)?;
        Ok((came, want))
    }

    /// Sends a Logout.
    fn log_out(&mut self, firm: &str, number: u64) -> io::Result<()> {
        let line = format!(in self.alloc; "in 5 {number}")?;
        let end = Talk::of(self.alloc, firm, &line)?;
        let sent = wire(self.alloc, &end.input)?;
        self.stream.write_all(sent.as_bytes())
    }

    /// Ends the connection, and returns how many bytes came meanwhile.
    pub fn end(mut self, firm: &str, ending: Ending) -> io::Result<usize> {
        match ending {
            Ending::LogsOut(number) => self.log_out(firm, number)?,
            Ending::Waits => {}
            Ending::HangsUp => return Ok(0),
        }
        let mut rest = Vec::new(self.alloc);
        self.stream.read_to_end(&mut rest)
    }

    /// Goes through a connection to its end. Returns what came, what the lines say, and how many bytes came after that.
    pub fn visit(mut self, visit: &Visit) -> io::Result<(String, String, usize)> {
        let mut came = String::new(self.alloc);
        let mut want = String::new(self.alloc);
        for part in visit.parts {
            let (more, wanted) = self.talk(visit.firm, part)?;
            came.push_str(&more)?;
            want.push_str(&wanted)?;
        }
        let more = self.end(visit.firm, visit.ending)?;
        Ok((came, want, more))
    }
}
