//! Plays as lines, for workers 0 and on and connections 1 and on. `2:C1` is connection 2, of C1. What a firm is sent has to be said before
//! the next round, and nothing else may be sent.
//!
//! - `2:C1 comes`, `2:C1 comes 1`: the connection is sent to worker 0, or 1
//! - `2:C1 comes at E1`: it comes at the door of E1, and is sent to worker 0
//! - `2:C1 in T N fields`, `and ..`, `raw text`: the firm sends a message, or a text (as in `trials`)
//! - `2:C1 ends`, `fails`: the firm sends no more; the connection fails
//! - `2:C1 room 100`: from now on it takes 100 bytes
//! - `2:C1 out T N fields`: the firm was sent this
//! - `2:C1 took 10`: it was sent 10 bytes
//! - `2:C1 all 9 7 5`: it was sent messages 1 to 9, seven of them AllocationReports, and the last of type 5
//! - `2:C1 open`, `closed`, `hung`: the worker has it, hasn't it, has said that it writes no more
//! - `2:C1 unread 10`, `left 10`: 10 bytes weren't read; as many or more
//! - `clock 09:00:30.000`: the time
//! - `round`, `round 1`: each worker makes a round, or worker 1; `rounds 3`: each makes three
//! - `waits 1000`, `waits ever`: how many milliseconds the last round was to wait at most
//! - `asleep 1`: worker 1 waits; `rung 1 2`: its bell was rung twice since this was asked
//! - `event 0`: the poller says once of place 0 that it is ready for all
//! - `held 2`, `sent 2`: something is held for connection 2, or nothing
//! - `full 2`: more than 65,536 bytes are held for connection 2
//! - `cut 2`, `miss 3`, `close`: the connection is cut; there is none to be cut; the day is closed
//! - `besides LINE`: it is entered as soon as a firm was given notices
//! - `keep 4`, `stop`: four entries are kept; no more will be
//! - `lease 2499 0`: this many milliseconds have gone by since the lease was asked for, by its monotonic clock and the system's; it lasts for
//!   3 s, with a margin of 500 ms
//! - `refuse E1`, `most 2`: E1 has no place from now on; firms have two places at most
//! - `wrong Secret E1`: the last first message that was refused was wrong in this way, and named E1, or no firm that may come in there
//! - `away Full`, `ended Cut`: why the last connection without a place had none, and why the last one ended
//! - `host 3 2 1 1`: three connections have begun, two have ended, one of them by a fault, and firms have one place
//! - `entries 4`, `connections 0 2`: the book has four entries; worker 0 has two connections
//! - `counted 2`: the most give-ups that a connection has counted
//! - `asked 2`: the connection whose command or question came last
//! - `last`, `over`: no more connections come; the last round was the last of its worker
//! - `fault poller`, `fault clock`, `fault house`, `fault lease`: it, or a clock of the lease, fails from now on; a house that fails has no
//!   notices
//! - `run`, `run poller`, `run clock`: worker 0 makes rounds until it is over, or can't go on and says why; a wait in which nothing
//!   happens takes its time
//!
//! In a table `(x% *2..9)` is `x2 x3 ..` up to `x9 ` (as in `trials`).

use crate::bulk::Bulk;
use crate::floors::{Floor, Setting};
use crate::plays::Play;
use crate::wires::Wire;
use gu_posts::Failure;
use gu_talks::Ready;
use gu_terms::FirmId;
use gu_text::{Line, TextError};
use gu_world::Step;
use std::alloc::{AllocError, Global};
use std::process::Abort;
use std::sync::Wait;
use trials::meant;

/// Returns what comes before the first of these characters, and what comes after it.
fn parts(text: &str, at: char) -> (&str, &str) {
    text.split_once(at).unwrap_or((text, ""))
}

/// Returns the number that a word writes.
fn number(word: &str) -> usize {
    word.parse().unwrap_or(0)
}

/// Asserts that no firm was sent anything that the lines haven't said.
fn check_silence<R: Abort>(rt: &R, play: &Play<'_>, line: &str) {
    for (place, wire) in play.floor.wires.iter().enumerate() {
        let rest = play.look(wire, usize::MAX).expect(rt, "memory");
        assert_eq!(rt;
            rest.as_str(),
            "",
            "{}: before {line}: connection {}",
            play.name,
            place as u64 + 1
        );
    }
}

/// Asserts that a firm was sent what a line says.
fn check_out<R: Abort>(rt: &R, play: &Play<'_>, wire: &Wire, firm: &str, line: &str) {
    let talk = play.talk(firm, line).expect(rt, "memory");
    let found = play.look(wire, talk.output.len()).expect(rt, "memory");
    assert_eq!(rt;
        found.as_str(),
        talk.output.as_str(),
        "{}: {firm} {line}",
        play.name
    );
}

/// Asserts that a firm was sent this many bytes.
fn check_took<R: Abort>(rt: &R, play: &Play<'_>, wire: &Wire, count: usize) {
    let found = play.look(wire, usize::MAX).expect(rt, "memory");
    assert_eq!(rt; found.len(), count, "{}: took", play.name);
}

/// Asserts which messages a firm was sent, all in all.
fn check_all<R: Abort>(rt: &R, play: &Play<'_>, wire: &Wire, text: &str) {
    let found = play.look(wire, usize::MAX).expect(rt, "memory");
    let told = Bulk::of(&found).told(play.alloc).expect(rt, "memory");
    assert_eq!(rt; told.as_str(), text, "{}: all", play.name);
}

/// Asserts how far a connection is.
fn check_wire<R: Abort>(rt: &R, play: &Play<'_>, wire: &Wire, word: &str, text: &str) {
    let name = play.name;
    match word {
        "open" => assert!(rt; wire.is_open(), "{name}: {word}"),
        "closed" => assert!(rt; !wire.is_open(), "{name}: {word}"),
        "hung" => assert!(rt; wire.is_said(), "{name}: {word}"),
        "unread" => assert_eq!(rt; wire.unread(), number(text), "{name}: {word}"),
        "left" => assert!(rt; number(text) <= wire.unread(), "{name}: {word}"),
        _ => assert!(rt; false, "{name}: no line: {word}"),
    }
}

/// Returns the firm at whose door a connection comes, if it comes by one.
fn door(text: &str) -> Option<FirmId> {
    let firm = text.strip_prefix("at ")?;
    FirmId::new(firm.as_bytes())
}

/// Does what a line of a connection says.
fn wire_step<R: Wait + Abort>(rt: &R, play: &Play<'_>, label: &str, line: &str) {
    let (place, firm) = parts(label, ':');
    let (word, text) = parts(line, ' ');
    let Some(wire) = play.wire(number(place)) else {
        assert!(rt; false, "{}: no line: {label} {line}", play.name);
        return;
    };
    match word {
        "comes" => play.come(rt, number(place), number(text), door(text)),
        "in" | "and" | "raw" => play.send(wire, firm, line).expect(rt, "memory"),
        "ends" => wire.finish(),
        "fails" => wire.fail(),
        "room" => wire.set_room(number(text)),
        "out" => check_out(rt, play, wire, firm, line),
        "took" => check_took(rt, play, wire, number(text)),
        "all" => check_all(rt, play, wire, text),
        _ => check_wire(rt, play, wire, word, text),
    }
}

/// Has a line entered as soon as a firm was given notices.
fn enter_besides(alloc: Global, floor: &Floor, line: &str) -> Result<(), TextError> {
    match Line::read(alloc, line.as_bytes(), 1)? {
        Some(Line::Step(Step::Enter(command))) => floor.book.enter_besides(command),
        other => drop(other),
    }
    Ok(())
}

/// Returns the last event at the host of the kind that a word names.
fn heard(play: &Play<'_>, word: &str) -> Result<String, AllocError> {
    let host = &play.floor.host;
    match (word, host.fault(), host.turned_away(), host.cause()) {
        ("wrong", Some((Some(firm), fault)), ..) => {
            let name = String::from_utf8_lossy(play.alloc, firm.get())?;
            format!(in play.alloc; "{fault:?} {name}")
        }
        ("wrong", Some((None, fault)), ..) => format!(in play.alloc; "{fault:?}"),
        ("away", _, Some(reason), _) => format!(in play.alloc; "{reason:?}"),
        ("ended", _, _, Some(cause)) => format!(in play.alloc; "{cause:?}"),
        _ => String::from_str(play.alloc, "nothing"),
    }
}

/// Asserts the last event at the host of the kind that a word names.
fn check_heard<R: Abort>(
    rt: &R,
    play: &Play<'_>,
    word: &str,
    text: &str,
) -> Result<(), AllocError> {
    let found = heard(play, word)?;
    assert_eq!(rt; found.as_str(), text, "{}: {word}", play.name);
    Ok(())
}

/// Asserts how the host has counted connections.
fn check_host<R: Abort>(rt: &R, play: &Play<'_>, text: &str) -> Result<(), AllocError> {
    let (begun, ended, failed, places) = play.floor.host.counts();
    let found = format!(in play.alloc; "{begun} {ended} {failed} {places}")?;
    assert_eq!(rt; found.as_str(), text, "{}: host", play.name);
    Ok(())
}

/// Asserts how long the last round was to wait at most.
fn check_wait<R: Abort>(rt: &R, play: &Play<'_>, text: &str) -> Result<(), AllocError> {
    let found = match play.floor.waits.asked.get() {
        Some(time) => format!(in play.alloc; "{}", time.as_millis())?,
        None => String::from_str(play.alloc, "ever")?,
    };
    assert_eq!(rt; found.as_str(), text, "{}: waits", play.name);
    Ok(())
}

/// Returns how many bytes are held for a connection, or 0 if there is none of this number.
fn held<R: Abort>(rt: &R, play: &Play<'_>, number: u64) -> u64 {
    let list = play.floor.posts.status(play.alloc).expect(rt, "memory");
    for one in list.iter() {
        if one.number == number {
            return one.held;
        }
    }
    0
}

/// Asserts how much is held for a connection: nothing, something, or so much that nothing is read.
fn check_held<R: Abort>(rt: &R, play: &Play<'_>, word: &str, text: &str) {
    let found = held(rt, play, number(text) as u64);
    let is_so = match word {
        "sent" => found == 0,
        "held" => found > 0,
        _ => found > 65_536,
    };
    assert!(rt; is_so, "{}: {word} {text}", play.name);
}

/// Has the poller say once of a place that it is ready for all.
fn say_ready(play: &Play<'_>, place: usize) -> Result<(), AllocError> {
    if let Ok(mut besides) = play.floor.waits.besides.try_borrow_mut() {
        besides.push(Ready {
            place,
            is_readable: true,
            is_writable: true,
            is_ending: true,
        })?;
    }
    Ok(())
}

/// Does what a line says of a post of a worker.
fn post_step<R: Abort>(rt: &R, play: &Play<'_>, word: &str, text: &str) {
    let (worker, count) = parts(text, ' ');
    let post = play.floor.posts.post(number(worker)).expect(rt, "a post");
    match word {
        "asleep" => post.fall_asleep(),
        "rung" => assert_eq!(rt;
            post.bell().take() as usize,
            number(count),
            "{}: rung {text}",
            play.name
        ),
        _ => assert_eq!(rt;
            post.connections() as usize,
            number(count),
            "{}: connections {text}",
            play.name
        ),
    }
}

/// Sets the clocks of the lease.
fn set_lease(play: &Play<'_>, text: &str) {
    let (monotonic, system) = parts(text, ' ');
    if let Some(dials) = play.floor.gate.clocks() {
        dials.set(number(monotonic), number(system));
    }
}

/// Makes the poller, the clock, the house or the clocks of the lease fail from now on.
fn set_fault(play: &Play<'_>, text: &str) {
    match text {
        "lease" => {
            if let Some(dials) = play.floor.gate.clocks() {
                dials.fail();
            }
        }
        "poller" => play.floor.waits.has_failed.set(true),
        "clock" => play.floor.hands.has_failed.set(true),
        _ => play.floor.book.has_failed.set(true),
    }
}

/// Returns the failure that a word names, if it names one.
fn failure(word: &str) -> Option<Failure> {
    match word {
        "poller" => Some(Failure::Poller),
        "clock" => Some(Failure::Clock),
        _ => None,
    }
}

/// Asserts that a worker that makes rounds ends so.
fn check_run<R: Wait + Abort>(rt: &R, play: &mut Play<'_>, text: &str) {
    let failure = failure(text);
    play.floor.waits.takes_time.set(true);
    assert_eq!(rt;
        play.run(rt, 0),
        failure.is_none(),
        "{}: run {text}",
        play.name
    );
    assert_eq!(rt;
        play.floor.posts.failure(),
        failure,
        "{}: failure",
        play.name
    );
    assert_eq!(rt;
        play.floor.posts.has_failed(),
        failure.is_some(),
        "{}: has failed",
        play.name
    );
}

/// Does what a line says that is of no connection. Returns whether there is such a line.
fn floor_step<R: Wait + Abort>(rt: &R, play: &mut Play<'_>, word: &str, text: &str) -> bool {
    match word {
        "clock" => play.set_time(text).expect(rt, "memory"),
        "waits" => check_wait(rt, play, text).expect(rt, "memory"),
        "host" => check_host(rt, play, text).expect(rt, "memory"),
        "wrong" | "away" | "ended" => check_heard(rt, play, word, text).expect(rt, "memory"),
        "besides" => enter_besides(play.alloc, play.floor, text).expect(rt, "memory"),
        "asleep" | "rung" | "connections" => post_step(rt, play, word, text),
        "event" => say_ready(play, number(text)).expect(rt, "memory"),
        "full" | "held" | "sent" => check_held(rt, play, word, text),
        "counted" => assert_eq!(rt;
            play.floor.book.most_give_ups.get() as usize,
            number(text),
            "{}: counted",
            play.name
        ),
        "cut" => assert!(rt;
            play.floor.posts.cut(number(text) as u64),
            "{}: cut {text}",
            play.name
        ),
        "miss" => assert!(rt;
            !play.floor.posts.cut(number(text) as u64),
            "{}: miss {text}",
            play.name
        ),
        "close" => play.floor.posts.close(),
        "keep" => play.floor.posts.keep(number(text) as u64),
        "stop" => play.floor.posts.stop(),
        "lease" => set_lease(play, text),
        "most" => play.floor.host.most.set(number(text) as u64),
        "refuse" => play.floor.host.refused.set(FirmId::new(text.as_bytes())),
        "entries" => assert_eq!(rt;
            play.floor.book.entries(),
            number(text),
            "{}: entries",
            play.name
        ),
        "fault" => set_fault(play, text),
        "asked" => assert_eq!(rt;
            play.floor.book.last.get() as usize,
            number(text),
            "{}: asked",
            play.name
        ),
        "last" => play.end_calls(),
        "over" => assert!(rt; play.is_over, "{}: over", play.name),
        _ => return false,
    }
    true
}

/// Makes rounds, if a line says so. Returns whether it does.
fn round_step<R: Wait + Abort>(rt: &R, play: &mut Play<'_>, word: &str, text: &str) -> bool {
    match (word, text) {
        ("run", _) => check_run(rt, play, text),
        ("round", "") => play.rounds(rt),
        ("round", worker) => play.round(rt, number(worker)),
        ("rounds", count) => {
            for _round in 0..number(count) {
                play.rounds(rt);
            }
        }
        _ => return false,
    }
    true
}

/// Does what a line says.
fn step<R: Wait + Abort>(rt: &R, play: &mut Play<'_>, line: &str) {
    let (word, text) = parts(line, ' ');
    if word == "round" || word == "rounds" || word == "run" {
        check_silence(rt, play, line);
    }
    if !round_step(rt, play, word, text) && !floor_step(rt, play, word, text) {
        wire_step(rt, play, word, text);
    }
}

/// Asserts that a play goes as its lines say. The first is its name.
pub fn check_play<R: Wait + Abort>(rt: &R, alloc: Global, setting: Setting<'_>, case: &str) {
    let (name, lines) = parts(case, '\n');
    let floor = Floor::new(alloc, setting).expect(rt, name);
    let mut play = Play::new(alloc, name, &floor, setting).expect(rt, name);
    for line in lines.lines() {
        step(rt, &mut play, line);
    }
    check_silence(rt, &play, name);
}

/// Asserts that each play of a table goes as its lines say. An empty line is between them.
pub fn check_plays<R: Wait + Abort>(rt: &R, alloc: Global, setting: Setting<'_>, table: &str) {
    let table = meant(alloc, table).expect(rt, "memory");
    for case in table.split("\n\n") {
        check_play(rt, alloc, setting, case);
    }
}
