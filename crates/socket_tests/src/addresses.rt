//! The ways in for firms and operators: sockets at paths, and what becomes of them if one can't be had.

use crate::rooms::Room;
use gu_office::{Addresses, FirmDoors, ListenError};
use gu_sockets::{ListenFault, OperatorDoor};
use gu_terms::FirmId;
use std::fs;
use std::net::TcpListener;
use std::os::unix::fs::PermissionsExt;
use std::process::Abort;
use std::test::Fail;

/// Returns three firms.
fn firms(rt: &impl Abort) -> [FirmId; 3] {
    let firm = |name: &[u8]| FirmId::new(name).expect(rt, "a firm");
    [firm(b"E1"), firm(b"E-2"), firm(b"C1")]
}

/// Returns whether none of the sockets stays after in a room.
fn is_bare(rt: &HostRuntime, room: &Room, names: &[&str]) -> Result<bool, Fail> {
    for name in names {
        if room.has(rt, name)? {
            return Ok(false);
        }
    }
    Ok(true)
}

#[test]
fn each_firm_has_a_socket_for_its_owner_alone(rt: HostRuntime) -> Result<(), Fail> {
    let room = Room::new(&rt, "doors")?;
    let firms = firms(&rt);
    let console = room.path_of(&rt, "console")?;
    let addresses = Addresses {
        port: None,
        doors: Some(FirmDoors {
            folder: room.path(),
            firms: &firms,
        }),
        console: Some(console.as_str()),
        watch: None,
    };
    let listened = addresses.listen(&rt, rt.alloc());
    let mut front = listened.ok().expect(&rt, "a front");
    for name in ["E1", "E-2", "C1", "console"] {
        let path = room.path_of(&rt, name)?;
        let mode = fs::metadata(&rt, path.as_str())?.permissions().mode();
        assert_eq!(rt; mode & 0o777, 0o600, "{name}");
    }
    let late = room.connect(&rt, "C1")?;
    let caller = front.door.accept()?.expect(&rt, "a caller");
    assert_eq!(rt; caller.door, Some(2));
    let operator = room.connect(&rt, "console")?;
    let came = front.door.accept_operator(OperatorDoor::Console)?;
    assert!(rt; came.is_some());
    drop((late, operator));
    room.remove(&rt)?;
    Ok(())
}

#[test]
fn no_socket_stays_behind_where_a_door_is_no_socket(rt: HostRuntime) -> Result<(), Fail> {
    let room = Room::new(&rt, "nosocket")?;
    let firms = firms(&rt);
    let (console, watch) = (room.path_of(&rt, "console")?, room.path_of(&rt, "watch")?);
    let file = room.path_of(&rt, "C1")?;
    fs::write(&rt, file.as_str(), b"a file".as_slice())?;
    let addresses = Addresses {
        port: None,
        doors: Some(FirmDoors {
            folder: room.path(),
            firms: &firms,
        }),
        console: Some(console.as_str()),
        watch: Some(watch.as_str()),
    };
    match addresses.listen(&rt, rt.alloc()) {
        Err(
            ListenError::Door {
                folder,
                firm,
                fault: ListenFault::NotASocket,
            },
        ) => {
            assert_eq!(rt; folder, room.path());
            assert!(rt; firm == firms[2]);
        }
        other => assert!(rt; other.is_ok() && false, "another end"),
    }
    assert!(rt; is_bare(&rt, &room, &["E1", "E-2", "console", "watch"])?);
    assert!(rt; fs::read(&rt, file.as_str())?.as_slice() == b"a file".as_slice());
    room.remove(&rt)?;
    Ok(())
}

#[test]
fn no_socket_stays_behind_where_the_port_is_in_use(rt: HostRuntime) -> Result<(), Fail> {
    let room = Room::new(&rt, "port")?;
    let firms = firms(&rt);
    let other = TcpListener::bind(&rt, ("127.0.0.1", 0))?;
    let console = room.path_of(&rt, "console")?;
    let addresses = Addresses {
        port: Some(other.local_addr()?.port()),
        doors: Some(FirmDoors {
            folder: room.path(),
            firms: &firms,
        }),
        console: Some(console.as_str()),
        watch: None,
    };
    let listened = addresses.listen(&rt, rt.alloc());
    assert!(rt; matches!(listened, Err(ListenError::Port(_))));
    assert!(rt; is_bare(&rt, &room, &["E1", "E-2", "C1", "console"])?);
    room.remove(&rt)?;
    Ok(())
}

#[test]
fn a_living_desk_keeps_its_doors_and_a_dead_ones_are_replaced(rt: HostRuntime) -> Result<(), Fail> {
    let room = Room::new(&rt, "desks")?;
    let firms = firms(&rt);
    let addresses = Addresses {
        port: None,
        doors: Some(FirmDoors {
            folder: room.path(),
            firms: &firms,
        }),
        console: None,
        watch: None,
    };
    let first = addresses.listen(&rt, rt.alloc()).ok().expect(&rt, "a desk");
    match addresses.listen(&rt, rt.alloc()) {
        Err(ListenError::Door { firm, fault, .. }) => {
            assert!(rt; firm == firms[0]);
            assert!(rt; matches!(fault, ListenFault::InUse));
        }
        other => assert!(rt; other.is_ok() && false, "another end"),
    }
    drop(room.connect(&rt, "E1")?);
    drop(first);
    let second = addresses.listen(&rt, rt.alloc());
    assert!(rt; second.is_ok());
    drop(room.connect(&rt, "E1")?);
    room.remove(&rt)?;
    Ok(())
}
