//! What firms and an operator do in turn on a day that goes on until it is closed.

use crate::clients::{Client, Ending};
use std::alloc::Global;
use std::io::{Read, Write};
use std::net::{Net, TcpListener, TcpStream};
use std::os::unix::net::UnixStream;
use std::process::Abort;
use std::rt::Clock;
use std::sync::Wait;
use std::time::Duration;
use std::{io, thread};

/// What a firm or the operator does.
#[derive(Clone, Copy)]
pub enum Act {
    /// A connection is opened, and gets the next number from 0 on.
    Comes,
    /// The firm of a connection sends what these lines say, and is answered as they say.
    Says(usize, &'static str, &'static str),
    /// The firm of a connection sends what these lines say, and its connection is closed silently.
    IsTurnedAway(usize, &'static str, &'static str),
    /// A connection is closed silently, though nothing was sent.
    IsRefused(usize),
    /// The firm of a connection logs out with a message of this number, and its connection is closed.
    LogsOut(usize, &'static str, u64),
    /// A connection is closed by the server, after whatever comes.
    IsEnded(usize),
    /// A connection is closed by its firm.
    HangsUp(usize),
    /// The operator sends this line, and its answer begins so.
    Asks(&'static str, &'static str),
    /// The operator asks for the status until it begins so.
    Awaits(&'static str),
    /// The operator closes the day, and is answered so at once.
    Closes(&'static str),
}

/// An operator's end of a console.
#[derive(Drop)]
pub struct Operator {
    stream: UnixStream,
}

impl Operator {
    /// Creates one of a stream. What doesn't come within 60 seconds has failed.
    pub fn new(stream: UnixStream) -> io::Result<Self> {
        stream.set_read_timeout(Some(Duration::from_secs(60)))?;
        Ok(Operator { stream })
    }

    /// Sends a line.
    fn send(&mut self, line: &str) -> io::Result<()> {
        self.stream.write_all(line.as_bytes())?;
        self.stream.write_all(b"\n")
    }

    /// Returns what comes up to these bytes.
    fn read_to(&mut self, alloc: Global, end: &[u8]) -> io::Result<String> {
        let mut came = Vec::new(alloc);
        let mut byte = [0];
        for _byte in 0..65_536 {
            self.stream.read_exact(&mut byte)?;
            came.push(byte[0])?;
            if came.ends_with(end) {
                break;
            }
        }
        match String::from_utf8(came) {
            Ok(text) => Ok(text),
            Err(_) => Err(io::Error::from(io::ErrorKind::InvalidData)),
        }
    }

    /// Sends a line this many times at once.
    pub fn send_often(&mut self, alloc: Global, line: &str, times: usize) -> io::Result<()> {
        let mut lines = String::new(alloc);
        for _line in 0..times {
            lines.push_str(line)?;
            lines.push_str("\n")?;
        }
        self.stream.write_all(lines.as_bytes())
    }

    /// Reads this many answers.
    pub fn read_often(&mut self, alloc: Global, times: usize) -> io::Result<()> {
        for _answer in 0..times {
            let _ = self.read_to(alloc, b"\n\n")?;
        }
        Ok(())
    }

    /// Sends a line, and returns its answer without the empty line that ends it.
    fn ask(&mut self, alloc: Global, line: &str) -> io::Result<String> {
        self.send(line)?;
        let came = self.read_to(alloc, b"\n\n")?;
        String::from_str(alloc, came.strip_suffix("\n").unwrap_or(&came)).map_err(io::Error::from)
    }
}

/// The connections that firms have opened, by their numbers.
#[derive(Drop)]
struct Clients {
    clients: Vec<Option<Client>>,
}

impl Clients {
    /// Takes a connection, to end it.
    fn take(&mut self, rt: &impl Abort, number: usize) -> Client {
        let client = match self.clients.get_mut(number) {
            Some(client) => client.take(),
            None => None,
        };
        client.expect(rt, "a connection")
    }

    /// Has the firm of a connection send what these lines say, and asserts what it is answered.
    fn say(&mut self, rt: &impl Abort, number: usize, firm: &str, lines: &str) -> io::Result<()> {
        let mut client = self.take(rt, number);
        let (came, want) = client.talk(firm, lines)?;
        assert_eq!(rt; came, want);
        if let Some(place) = self.clients.get_mut(number) {
            *place = Some(client);
        }
        Ok(())
    }
}

/// Has an operator ask for the status until it begins so.
fn await_status<R: Wait + Clock + Abort>(
    rt: &R,
    alloc: Global,
    operator: &mut Operator,
    begins: &str,
) -> io::Result<()> {
    for _look in 0..2_000 {
        if operator.ask(alloc, "STATUS")?.starts_with(begins) {
            return Ok(());
        }
        thread::sleep(rt, Duration::from_millis(5));
    }
    assert!(rt; false, "{begins}");
    Ok(())
}

/// Has a firm or the operator act.
fn perform<R: Net<Listener = TcpListener, Stream = TcpStream> + Wait + Clock + Abort>(
    rt: &R,
    alloc: Global,
    port: u16,
    clients: &mut Clients,
    operator: &mut Operator,
    one: Act,
) -> io::Result<()> {
    match one {
        Act::Comes => clients.clients.push(Some(Client::open(rt, alloc, port)?))?,
        Act::Says(number, firm, lines) => clients.say(rt, number, firm, lines)?,
        Act::IsTurnedAway(number, firm, lines) => {
            let mut client = clients.take(rt, number);
            client.send(firm, lines)?;
            assert_eq!(rt; client.end(firm, Ending::Waits)?, 0);
        }
        Act::IsRefused(number) => {
            assert_eq!(rt; clients.take(rt, number).end("", Ending::Waits)?, 0);
        }
        Act::LogsOut(number, firm, seq) => {
            let _ = clients.take(rt, number).end(firm, Ending::LogsOut(seq))?;
        }
        Act::IsEnded(number) => {
            let _ = clients.take(rt, number).end("", Ending::Waits)?;
        }
        Act::HangsUp(number) => drop(clients.take(rt, number)),
        Act::Asks(line, begins) => {
            let came = operator.ask(alloc, line)?;
            assert!(rt; came.starts_with(begins), "{came}");
        }
        Act::Awaits(begins) => await_status(rt, alloc, operator, begins)?,
        Act::Closes(begins) => {
            operator.send("CLOSE")?;
            let came = operator.read_to(alloc, b"\n")?;
            assert!(rt; came.starts_with(begins), "{came}");
        }
    }
    Ok(())
}

/// Has firms and an operator act in turn. The operator is gone at the end.
pub fn act_all<R: Net<Listener = TcpListener, Stream = TcpStream> + Wait + Clock + Abort>(
    rt: &R,
    alloc: Global,
    port: u16,
    mut operator: Operator,
    acts: &[Act],
) -> io::Result<()> {
    let mut clients = Clients {
        clients: Vec::new(alloc),
    };
    for (number, one) in acts.iter().enumerate() {
        let acted = perform(rt, alloc, port, &mut clients, &mut operator, *one);
        assert!(rt; acted.is_ok(), "act {number}");
    }
    Ok(())
}
