//! Folders of the tests' own, and who connects to the sockets there.

use gu_sockets::{Caller, Doorway, Listeners, PollBell};
use std::io::ErrorKind;
use std::net::{TcpListener, TcpStream};
use std::os::unix::net::{UnixListener, UnixStream};
use std::test::Fail;
use std::time::Duration;
use std::{env, fs, io, process};

/// Returns how long is waited for what is to come.
pub fn long() -> Option<Duration> {
    Some(Duration::from_secs(20))
}

/// A folder of a test's own.
#[derive(Drop)]
pub struct Room {
    path: String,
}

impl Room {
    /// Creates the folder of a test.
    pub fn new(rt: &HostRuntime, test: &str) -> Result<Self, Fail> {
        let name = format!(in rt.alloc(); "{test}-{}", process::id(rt.process()))?;
        let folder = env::temp_dir(rt)?.join(rt.alloc(), name.as_str())?;
        fs::create_dir(rt, folder.as_path())?;
        let path = String::from_str(rt.alloc(), &folder.as_path().to_string_lossy())?;
        Ok(Room { path })
    }

    /// Returns its path.
    pub fn path(&self) -> &str {
        &self.path
    }

    /// Returns the path of what has a name there.
    pub fn path_of(&self, rt: &HostRuntime, name: &str) -> Result<String, Fail> {
        Ok(format!(in rt.alloc(); "{}/{name}", self.path)?)
    }

    /// Returns whether anything has a name there.
    pub fn has(&self, rt: &HostRuntime, name: &str) -> Result<bool, Fail> {
        let path = self.path_of(rt, name)?;
        match fs::symlink_metadata(rt, path.as_str()) {
            Ok(_) => Ok(true),
            Err(error) if error.kind() == ErrorKind::NotFound => Ok(false),
            Err(error) => Err(error.into()),
        }
    }

    /// Connects to the socket of a name there. What doesn't come within 20 seconds has failed.
    pub fn connect(&self, rt: &HostRuntime, name: &str) -> Result<UnixStream, Fail> {
        let stream = UnixStream::connect(rt, self.path_of(rt, name)?.as_str())?;
        stream.set_read_timeout(long())?;
        Ok(stream)
    }

    /// Removes it, with all that is in it.
    pub fn remove(&self, rt: &HostRuntime) -> io::Result<()> {
        fs::remove_dir_all(rt, self.path())
    }
}

/// A doorway with a port and with doors in a room.
#[derive(Drop)]
pub struct House {
    pub doorway: Doorway,
    pub port: u16,
    bell: PollBell,
}

impl House {
    /// Opens a port, and a door of each of these names in a room.
    pub fn open(rt: &HostRuntime, room: &Room, names: &[&str]) -> Result<Self, Fail> {
        let port = TcpListener::bind(rt, ("127.0.0.1", 0))?;
        let number = port.local_addr()?.port();
        let mut doors = Vec::new(rt.alloc());
        for name in names {
            doors.push(UnixListener::bind(rt, room.path_of(rt, name)?.as_str())?)?;
        }
        let listeners = Listeners {
            port: Some(port),
            doors,
            console: None,
            watch: None,
        };
        let (doorway, bell) = Doorway::new(rt, rt.alloc(), listeners)?;
        Ok(House {
            doorway,
            port: number,
            bell,
        })
    }

    /// Connects to the port. What doesn't come within 20 seconds has failed.
    pub fn connect(&self, rt: &HostRuntime) -> Result<TcpStream, Fail> {
        let stream = TcpStream::connect(rt, ("127.0.0.1", self.port))?;
        stream.set_read_timeout(long())?;
        Ok(stream)
    }

    /// Accepts who is waiting or comes.
    pub fn accept(&mut self) -> io::Result<Option<Caller>> {
        for _wait in 0..1_000 {
            if let Some(caller) = self.doorway.accept()? {
                return Ok(Some(caller));
            }
            self.doorway.wait(long())?;
        }
        Ok(None)
    }
}
