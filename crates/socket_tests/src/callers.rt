//! By which way a firm comes in, and whose turn it is.

use crate::rooms::{House, Room};
use gu_sockets::SocketStream;
use std::io::ErrorKind;
use std::net::TcpStream;
use std::os::unix::net::UnixStream;
use std::test::Fail;

/// Returns the doors of a hundred firms.
fn hundred(rt: &HostRuntime) -> Result<Vec<String>, Fail> {
    let mut names = Vec::new(rt.alloc());
    for number in 0..100 {
        names.push(format!(in rt.alloc(); "F{number}")?)?;
    }
    Ok(names)
}

#[test]
fn a_caller_at_a_door_has_its_number_and_one_by_the_port_has_none(
    rt: HostRuntime,
) -> Result<(), Fail> {
    let room = Room::new(&rt, "numbers")?;
    let mut house = House::open(&rt, &room, &["E1", "E2", "C1"])?;
    assert!(rt; house.doorway.accept()?.is_none());
    for (name, number) in [("C1", 2), ("E1", 0), ("E2", 1)] {
        let firm = room.connect(&rt, name)?;
        let caller = house.accept()?.expect(&rt, "a caller");
        assert_eq!(rt; caller.door, Some(number), "at {name}");
        assert_eq!(rt; caller.port, 0);
        assert!(rt; matches!(caller.stream, SocketStream::Unix(_)));
        drop(firm);
    }
    let firm = house.connect(&rt)?;
    let port = firm.local_addr()?.port();
    let caller = house.accept()?.expect(&rt, "a caller");
    assert_eq!(rt; (caller.door, caller.port), (None, port));
    assert!(rt; matches!(caller.stream, SocketStream::Tcp(_)));
    room.remove(&rt)?;
    Ok(())
}

#[test]
fn they_take_turns(rt: HostRuntime) -> Result<(), Fail> {
    let room = Room::new(&rt, "turns")?;
    let mut house = House::open(&rt, &room, &["E1", "C1"])?;
    let mut firms = Vec::new(rt.alloc());
    for name in ["E1", "E1", "E1", "E1", "C1", "C1"] {
        firms.push(room.connect(&rt, name)?)?;
    }
    let by_port = (house.connect(&rt)?, house.connect(&rt)?);
    for door in [
        Some(0),
        Some(1),
        None,
        Some(0),
        Some(1),
        None,
        Some(0),
        Some(0),
    ] {
        let caller = house.accept()?.expect(&rt, "a caller");
        assert_eq!(rt; caller.door, door);
    }
    assert!(rt; house.doorway.accept()?.is_none());
    drop(by_port);
    room.remove(&rt)?;
    Ok(())
}

#[test]
fn each_of_a_hundred_comes_in_by_a_door_of_its_own(rt: HostRuntime) -> Result<(), Fail> {
    let room = Room::new(&rt, "hundred")?;
    let names = hundred(&rt)?;
    let mut shown = Vec::new(rt.alloc());
    for name in &names {
        shown.push(name.as_str())?;
    }
    let mut house = House::open(&rt, &room, &shown)?;
    assert!(rt; house.doorway.accept()?.is_none());
    assert!(rt; !house.doorway.is_due());
    let mut firms = Vec::new(rt.alloc());
    for name in shown.iter().rev() {
        firms.push(room.connect(&rt, name)?)?;
    }
    let mut came = vec![in rt.alloc(); 0_u32; 100]?;
    for _firm in 0..100 {
        let caller = house.accept()?.expect(&rt, "a caller");
        let number = caller.door.expect(&rt, "a door");
        if let Some(count) = came.get_mut(number) {
            *count = count.saturating_add(1);
        }
    }
    assert!(rt; came.iter().all(|count| *count == 1));
    assert!(rt; house.doorway.accept()?.is_none());
    room.remove(&rt)?;
    Ok(())
}

#[test]
fn nobody_comes_in_once_it_is_closed(rt: HostRuntime) -> Result<(), Fail> {
    let room = Room::new(&rt, "closed")?;
    let mut house = House::open(&rt, &room, &["E1", "C1"])?;
    let waiting = (room.connect(&rt, "E1")?, house.connect(&rt)?);
    house.doorway.close_firms();
    assert!(rt; house.doorway.accept()?.is_none());
    assert!(rt; !house.doorway.is_due());
    let path = room.path_of(&rt, "E1")?;
    let late = UnixStream::connect(&rt, path.as_str()).map(drop);
    assert_eq!(rt;
        late.map_err(|e| e.kind()),
        Err(ErrorKind::ConnectionRefused)
    );
    let late = TcpStream::connect(&rt, ("127.0.0.1", house.port)).map(drop);
    assert_eq!(rt;
        late.map_err(|e| e.kind()),
        Err(ErrorKind::ConnectionRefused)
    );
    drop(waiting);
    room.remove(&rt)?;
    Ok(())
}
