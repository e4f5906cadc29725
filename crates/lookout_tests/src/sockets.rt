//! The sockets of operators, turned beside a log.

use crate::house::reference;
use gu_lookout::Lookout;
use gu_standby::{Attendance, Follower, LeadAnswer, Wish};
use gu_terms::Seed;
use std::io::{Read, Write};
use std::os::unix::net::{UnixListener, UnixStream};
use std::process::Abort;
use std::test::Fail;
use std::time::Duration;
use std::{env, fs, process};

/// What STATUS is answered before the first batch.
const STATUS: &str = "DESK FOLLOWING DAY - ENTRIES 0 OF 1000000 SWEPT 0 BATCHES 0\n\n";

/// Creates a socket of a test's own, and returns it with its path.
fn socket(rt: &HostRuntime, name: &str) -> Result<(UnixListener, String), Fail> {
    let name = format!(in rt.alloc(); "{name}-{}", process::id(rt.process()))?;
    let path = env::temp_dir(rt)?.join(rt.alloc(), name.as_str())?;
    let path = String::from_str(rt.alloc(), &path.as_path().to_string_lossy())?;
    let _ = fs::remove_file(rt, path.as_str());
    Ok((UnixListener::bind(rt, path.as_str())?, path))
}

/// Connects to a socket. What doesn't come within 20 seconds has failed.
fn connected(rt: &HostRuntime, path: &str) -> Result<UnixStream, Fail> {
    let stream = UnixStream::connect(rt, path)?;
    stream.set_read_timeout(Some(Duration::from_secs(20)))?;
    Ok(stream)
}

/// Returns a follower that has played nothing.
fn follower(rt: &HostRuntime) -> Result<Follower, Fail> {
    let reference = reference(rt.alloc()).ok_or("a reference")?;
    Ok(Follower::new(rt.alloc(), reference, Seed::new(0)))
}

/// Reads what came, and compares it.
fn expect(rt: &impl Abort, mut stream: &UnixStream, text: &str) -> Result<(), Fail> {
    let mut buffer = [0; 256];
    let mut count = 0;
    for _read in 0..256 {
        if count >= text.len() {
            break;
        }
        match stream.read(buffer.get_mut(count..text.len()).unwrap_or(&mut []))? {
            0 => break,
            more => count = count.saturating_add(more),
        }
    }
    let came = buffer.get(..count).unwrap_or(&[]);
    assert_eq!(*rt; str::from_utf8(came).unwrap_or("?"), text);
    Ok(())
}

#[test]
fn lines_are_answered_however_their_bytes_come(rt: HostRuntime) -> Result<(), Fail> {
    let (console, path) = socket(&rt, "pieces")?;
    let mut lookout = Lookout::new(&rt, rt.alloc(), Some(console), None)?;
    let follower = follower(&rt)?;
    let mut stream = connected(&rt, &path)?;
    for (piece, answers) in [
        ("STAT", ""),
        ("US", ""),
        ("\r\n", STATUS),
        ("STATUS\nCUT 1\nSTA", "BOTH"),
        ("TUS\n", STATUS),
        ("\n", "\n"),
    ] {
        stream.write_all(piece.as_bytes())?;
        assert_eq!(rt; lookout.attend(&follower, 0), None);
        if answers == "BOTH" {
            expect(&rt, &stream, STATUS)?;
            expect(&rt, &stream, "UNKNOWN\n\n")?;
        } else {
            expect(&rt, &stream, answers)?;
        }
    }
    drop(stream);
    assert_eq!(rt; lookout.attend(&follower, 40), None);
    drop(lookout);
    fs::remove_file(&rt, path.as_str())?;
    Ok(())
}

#[test]
fn lead_is_answered_later_and_what_follows_it_after_that(rt: HostRuntime) -> Result<(), Fail> {
    let (console, path) = socket(&rt, "lead")?;
    let mut lookout = Lookout::new(&rt, rt.alloc(), Some(console), None)?;
    let follower = follower(&rt)?;
    let mut stream = connected(&rt, &path)?;
    let other = connected(&rt, &path)?;
    stream.write_all(b"STATUS\nLEAD\nSTATUS\nLEAD\n")?;
    assert_eq!(rt; lookout.attend(&follower, 0), Some(Wish::Lead));
    lookout.answer_lead(LeadAnswer::Stale);
    expect(&rt, &stream, STATUS)?;
    assert_eq!(rt; lookout.attend(&follower, 1_000), Some(Wish::Lead));
    expect(&rt, &stream, "STALE\n\n")?;
    expect(&rt, &stream, STATUS)?;
    lookout.answer_lead(LeadAnswer::Leading);
    let (console, watch) = lookout.end();
    expect(&rt, &stream, "LEADING\n\n")?;
    assert_eq!(rt; stream.read(&mut [0; 8])?, 0);
    assert!(rt; console.is_some());
    assert!(rt; watch.is_none());
    drop((stream, other, console, watch));
    fs::remove_file(&rt, path.as_str())?;
    Ok(())
}

#[test]
fn who_watches_has_a_socket_of_its_own(rt: HostRuntime) -> Result<(), Fail> {
    let (console, path) = socket(&rt, "console")?;
    let (watch, watch_path) = socket(&rt, "watch")?;
    let mut lookout = Lookout::new(&rt, rt.alloc(), Some(console), Some(watch))?;
    let follower = follower(&rt)?;
    let (mut operator, mut watcher) = (connected(&rt, &path)?, connected(&rt, &watch_path)?);
    watcher.write_all(b"CLOSE\nLEAD\nSTATUS\n")?;
    operator.write_all(b"SWEEP G1\n")?;
    assert_eq!(rt; lookout.attend(&follower, 0), None);
    expect(&rt, &watcher, "BAD LINE\n\nBAD LINE\n\n")?;
    expect(&rt, &watcher, STATUS)?;
    expect(&rt, &operator, "NOT LEADING\n\n")?;
    operator.write_all(b"CLOSE\n")?;
    assert_eq!(rt; lookout.attend(&follower, 0), Some(Wish::Close));
    drop(lookout.end());
    expect(&rt, &operator, "CLOSING\n\n")?;
    drop((operator, watcher));
    fs::remove_file(&rt, path.as_str())?;
    fs::remove_file(&rt, watch_path.as_str())?;
    Ok(())
}
