//! What firms do on a day of a server.

use crate::acts::{Act, Operator, act_all};
use crate::clients::{Client, Ending, Visit};
use crate::visits::{
    GIVES_UP, GIVES_UP_LINES, IS_OFFERED, LOGON, LOGON_OF_A_LARGE_TRADE, LOGON_OF_A_TRADE, OFFER,
    SAYS_NOTHING,
};
use gu_server::WRITE_WAIT_MS;
use std::alloc::Global;
use std::net::{Net, TcpListener, TcpStream};
use std::os::unix::net::UnixStream;
use std::process::Abort;
use std::rt::Clock;
use std::sync::{Mutex, Wait};
use std::time::Duration;
use std::{io, thread};

/// How many lots a firm gives up while an operator sweeps.
const SWEPT_BESIDE: u64 = 46;

/// Goes through a connection. If its lines are empty, nothing is sent.
fn go_through(rt: &impl Abort, client: Client, visit: &Visit) -> io::Result<()> {
    let (came, want, more) = client.visit(visit)?;
    assert_eq!(rt; came, want);
    assert!(rt; more == 0 || !want.is_empty());
    Ok(())
}

/// Runs a connection from its beginning to its end.
fn connect<R: Net<Listener = TcpListener, Stream = TcpStream> + Abort>(
    rt: &R,
    alloc: Global,
    port: u16,
    visit: &Visit,
) -> io::Result<()> {
    go_through(rt, Client::open(rt, alloc, port)?, visit)
}

/// Runs connections one after another. One that fails doesn't keep the server waiting for the others.
fn visit_all<R: Net<Listener = TcpListener, Stream = TcpStream> + Abort>(
    rt: &R,
    alloc: Global,
    port: u16,
    visits: &[Visit],
) -> io::Result<()> {
    let mut result = Ok(());
    for one in visits {
        let visited = connect(rt, alloc, port, one);
        if result.is_ok() {
            result = visited;
        }
    }
    result
}

/// Waits for the offer: the carrying firm logs on and sends nothing more; then the executing firm gives up its lots.
fn wait_for_the_offer<R: Net<Listener = TcpListener, Stream = TcpStream> + Abort>(
    rt: &R,
    alloc: Global,
    port: u16,
) -> io::Result<()> {
    let mut carrying = Client::open(rt, alloc, port)?;
    let (came, want) = carrying.talk("C1", LOGON)?;
    assert_eq!(rt; came, want);
    let mut executing = Client::open(rt, alloc, port)?;
    let (came, want) = executing.talk("E1", GIVES_UP_LINES)?;
    assert_eq!(rt; came, want);
    let (came, want) = carrying.talk("C1", OFFER)?;
    assert_eq!(rt; came, want);
    let _ = executing.end("E1", GIVES_UP.ending)?;
    let _ = carrying.end("C1", IS_OFFERED.ending)?;
    Ok(())
}

/// Logs a firm on, and sends 100 TestRequests of 1,000 letters in one burst. Their answers, which are more than a connection holds, come in
/// order.
fn send_much<R: Net<Listener = TcpListener, Stream = TcpStream> + Abort>(
    rt: &R,
    alloc: Global,
    port: u16,
) -> io::Result<()> {
    let mut lines = String::new(alloc);
    for number in 2..102 {
        let line = format!(in alloc; "in 1 {number} 112=T{number}(x*1000)|\n")?;
        lines.push_str(&line)?;
    }
    for number in 2..102 {
        let line = format!(in alloc; "out 0 {number} 112=T{number}(x*1000)|\n")?;
        lines.push_str(&line)?;
    }
    let mut client = Client::open(rt, alloc, port)?;
    let (came, want) = client.talk("C1", LOGON)?;
    assert_eq!(rt; came, want);
    let (came, want) = client.talk("C1", &lines)?;
    assert!(rt; came == want);
    let _ = client.end("C1", Ending::LogsOut(102))?;
    Ok(())
}

/// Logs a firm on, and asks again and again for what it was sent, without reading, until its connection is ended.
fn ask_and_read_nothing<R: Net<Listener = TcpListener, Stream = TcpStream> + Abort>(
    rt: &R,
    alloc: Global,
    port: u16,
) -> io::Result<()> {
    let mut lines = String::new(alloc);
    for _request in 0..1_000 {
        lines.push_str("in 2 9000 7=1|16=0|\n")?;
    }
    let mut client = Client::open(rt, alloc, port)?;
    let (came, want) = client.talk("E1", LOGON_OF_A_TRADE)?;
    assert_eq!(rt; came, want);
    let mut has_ended = false;
    for _burst in 0..1_000 {
        has_ended = has_ended || client.talk("E1", &lines).is_err();
    }
    assert!(rt; has_ended);
    Ok(())
}

/// Connects a firm, then another once the log says that nobody else can be accepted; then the first logs out.
fn come_later<R: Net<Listener = TcpListener, Stream = TcpStream> + Abort + Wait + Clock>(
    rt: &R,
    alloc: Global,
    port: u16,
    first: Client,
    said: &Mutex<Vec<u8>>,
) -> io::Result<()> {
    let mut first = first;
    let (came, want) = first.talk("C1", LOGON)?;
    assert_eq!(rt; came, want);
    for _look in 0..2_000 {
        if !said.lock(rt).is_empty() {
            break;
        }
        thread::sleep(rt, Duration::from_millis(5));
    }
    let second = Client::open(rt, alloc, port)?;
    let _ = first.end("C1", Ending::LogsOut(2))?;
    go_through(rt, second, &GIVES_UP)
}

/// Says a Logon at a desk whose lease has ended, and isn't answered. Whether the desk still takes what the firm says is up to the moment.
fn log_on_in_vain(rt: &impl Abort, mut client: Client) {
    let _ = client.send("E1", "in A 1 98=0|108=30|1137=9|\n");
    if let Ok(came) = client.end("E1", Ending::Waits) {
        assert_eq!(rt; came, 0);
    }
}

/// Gives up one lot of a firm's report, and reads that the lot was swept. Its offer has this number, as has its give-up.
fn give_up_one(rt: &impl Abort, alloc: Global, client: &mut Client, number: u64) -> io::Result<()> {
    let sent = number.saturating_add(1);
    let told = number.saturating_mul(2).saturating_add(1);
    let next = told.saturating_add(1);
    let given = format!(in alloc;
        "in J {sent} 70=L{number}|71=0|53=1|124=1|17=R1|78=1|79=A1|80=1|\n"
    )?;
    let accepted = format!(in alloc; "out P {told} 70=L{number}|87=0|\n")?;
    let swept = format!(in alloc;
        "out AS {next} 755={number}|71=0|794=9|87=0|55=XF6|54=1|53=1|6=101.5|75=20260105|78=1|79=A1|80=1|\n"
    )?;
    let lines = format!(in alloc; "{given}{accepted}{swept}")?;
    let (came, want) = client.talk("E1", &lines)?;
    assert_eq!(rt; came, want);
    Ok(())
}

/// Gives up a firm's lots one by one, while an operator sweeps its group as fast as he can: sweepers find the group changed, and
/// leave sweeps out. What the firm gives up after that is swept all the same.
fn give_up_beside_sweeps<R: Net<Listener = TcpListener, Stream = TcpStream> + Abort>(
    rt: &R,
    alloc: Global,
    port: u16,
    mut operator: Operator,
) -> io::Result<()> {
    let mut client = Client::open(rt, alloc, port)?;
    let (came, want) = client.talk("E1", LOGON_OF_A_LARGE_TRADE)?;
    assert_eq!(rt; came, want);
    for number in 1..=SWEPT_BESIDE {
        operator.send_often(alloc, "SWEEP G1", 50)?;
        give_up_one(rt, alloc, &mut client, number)?;
        operator.read_often(alloc, 50)?;
    }
    for number in SWEPT_BESIDE + 1..=SWEPT_BESIDE + 2 {
        give_up_one(rt, alloc, &mut client, number)?;
    }
    let _ = client.end("E1", Ending::LogsOut(SWEPT_BESIDE + 4))?;
    Ok(())
}

/// What firms do on a day.
#[derive(Clone, Copy)]
pub enum Doing {
    /// They connect one after the other.
    Visits(&'static [Visit]),
    /// The same, if the sessions of one firm make this percentage at most.
    VisitsWithin(u16, &'static [Visit]),
    /// One waits for what the other offers.
    Waits,
    /// One sends much at once.
    SendsMuch,
    /// One says nothing, and the time leaps by ten seconds at each look.
    LogsOnTooLate,
    /// One asks much and reads nothing; a write waits for it for 0.2 seconds.
    DoesNotRead,
    /// One comes after the log says that nobody is accepted until a firm that was there first has gone.
    ComesLater,
    /// Firms and an operator act in turn.
    Acts(&'static [Act]),
    /// One gives up lots while an operator sweeps.
    GivesUpBesideSweeps,
    /// One that was there first says a Logon at a desk whose lease has ended.
    ComesAfterTheLease,
}

impl Doing {
    /// Returns by how many seconds the time since the machine's start grows at each look.
    pub fn leap(self) -> u64 {
        match self {
            Doing::LogsOnTooLate | Doing::DoesNotRead => 10,
            _ => 0,
        }
    }

    /// Returns whether the desk needs a lease and has none any more.
    pub fn is_after_the_lease(self) -> bool {
        matches!(self, Doing::ComesAfterTheLease)
    }

    /// Returns the percentage that the sessions of one firm make at most.
    pub fn share(self) -> u16 {
        match self {
            Doing::VisitsWithin(share, _) => share,
            _ => 100,
        }
    }

    /// Returns how many milliseconds a write waits.
    pub fn write_wait_ms(self) -> u64 {
        match self {
            Doing::DoesNotRead => 200,
            _ => WRITE_WAIT_MS,
        }
    }
}

/// Who is there when a day begins, and where firms connect.
#[derive(Drop)]
pub struct There {
    pub port: u16,
    /// A firm that has connected.
    pub first: Option<Client>,
    /// An operator's end of a console.
    pub operator: UnixStream,
}

/// Does what firms do on a day. A firm that was there first gives up its lots, if the row says nothing else about it.
pub fn do_all<R: Net<Listener = TcpListener, Stream = TcpStream> + Abort + Wait + Clock>(
    rt: &R,
    alloc: Global,
    there: There,
    doing: Doing,
    said: &Mutex<Vec<u8>>,
) -> io::Result<()> {
    let There {
        port,
        first,
        operator,
    } = there;
    if let Doing::Acts(acts) = doing {
        return act_all(rt, alloc, port, Operator::new(operator)?, acts);
    }
    if let Doing::GivesUpBesideSweeps = doing {
        return give_up_beside_sweeps(rt, alloc, port, Operator::new(operator)?);
    }
    match first {
        Some(first) => match doing {
            Doing::ComesLater => come_later(rt, alloc, port, first, said),
            Doing::ComesAfterTheLease => {
                log_on_in_vain(rt, first);
                Ok(())
            }
            _ => go_through(rt, first, &GIVES_UP),
        },
        None => match doing {
            Doing::Visits(visits) | Doing::VisitsWithin(_, visits) => {
                visit_all(rt, alloc, port, visits)
            }
            Doing::SendsMuch => send_much(rt, alloc, port),
            Doing::LogsOnTooLate => connect(rt, alloc, port, &SAYS_NOTHING),
            Doing::DoesNotRead => ask_and_read_nothing(rt, alloc, port),
            Doing::Waits
            | Doing::ComesLater
            | Doing::Acts(_)
            | Doing::GivesUpBesideSweeps
            | Doing::ComesAfterTheLease => wait_for_the_offer(rt, alloc, port),
        },
    }
}
