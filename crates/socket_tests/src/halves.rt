//! What goes over a connection, whichever way it came in by.

use crate::rooms::{House, Room, long};
use gu_sockets::{Caller, SocketPoller, SocketReader};
use gu_talks::{EndsWriting, Poller, Ready};
use std::alloc::Global;
use std::io;
use std::io::{ErrorKind, Read, Write};
use std::net::Net;
use std::process::Abort;
use std::test::Fail;

/// Waits until a connection says that it is ready to be read, and returns its place.
fn readable_place(alloc: Global, poller: &mut SocketPoller) -> io::Result<Option<usize>> {
    let mut ready: Vec<Ready> = Vec::new(alloc);
    for _wait in 0..1_000 {
        ready.clear();
        poller.wait(long(), &mut ready)?;
        if let Some(one) = ready.iter().find(|one| one.is_readable) {
            return Ok(Some(one.place));
        }
    }
    Ok(None)
}

/// Reads what has come, and asserts that it is this.
fn check_read(rt: &impl Abort, reader: &mut SocketReader, want: &[u8]) -> Result<(), Fail> {
    let mut buf = [0_u8; 64];
    let count = reader.read(&mut buf)?;
    assert_eq!(rt; buf.get(..count), Some(want));
    let none = reader.read(&mut buf);
    assert_eq!(rt; none.map_err(|e| e.kind()), Err(ErrorKind::WouldBlock));
    Ok(())
}

/// Has a worker's poller watch who came in, and looks at what goes each way.
fn check_talk<R: Net + Alloc<A = Global> + Abort, F: Read + Write>(
    rt: &R,
    caller: Caller,
    firm: &mut F,
) -> Result<(), Fail> {
    let (mut poller, bell) = SocketPoller::new(rt, rt.alloc())?;
    let (mut reader, mut writer) = poller.watch(caller.stream, 5)?;
    firm.write_all(b"8=FIXT.1.1")?;
    assert_eq!(rt; readable_place(rt.alloc(), &mut poller)?, Some(5));
    check_read(rt, &mut reader, b"8=FIXT.1.1")?;
    writer.write_all(b"35=A")?;
    writer.end_writing();
    let mut came = Vec::new(rt.alloc());
    firm.read_to_end(&mut came)?;
    assert!(rt; came.as_slice() == b"35=A".as_slice());
    drop(bell);
    Ok(())
}

#[test]
fn bytes_go_both_ways_by_a_door_and_by_the_port(rt: HostRuntime) -> Result<(), Fail> {
    let room = Room::new(&rt, "halves")?;
    let mut house = House::open(&rt, &room, &["E1"])?;
    let mut firm = room.connect(&rt, "E1")?;
    let caller = house.accept()?.expect(&rt, "a caller");
    check_talk(&rt, caller, &mut firm)?;
    let mut firm = house.connect(&rt)?;
    let caller = house.accept()?.expect(&rt, "a caller");
    check_talk(&rt, caller, &mut firm)?;
    room.remove(&rt)?;
    Ok(())
}
