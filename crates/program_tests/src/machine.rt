//! A machine of the tests' own: words, files, standard streams, a clock at nine on 2026-01-05, and one free port or none. It writes
//! down what it is asked for.

use crate::disk::Disk;
use gu_program::Locks;
use std::alloc::{Allocator, Global};
use std::env::FillError;
use std::fmt::Display;
use std::fs::{Metadata, OpenFile, OpenOptions};
use std::io::{self, BufRead, Error, ErrorKind, Lines, Read, Seek, SeekFrom, Write};
use std::net::{Net, SocketAddr, TcpListener, TcpStream};
use std::os::fd::{AsRawFd, RawFd};
use std::random::RandomSource;
use std::rt::{Clock, Env, Files};
use std::sync::{Mutex, Wait};
use std::thread::Threads;
use std::time::Duration;

/// How a machine is set up.
#[derive(Clone, Copy, PartialEq, Eq)]
pub enum Setting {
    /// It has all that a run asks of it, and no terminal.
    Usual,
    /// It has no random bytes.
    Unseeded,
    /// Its standard error takes nothing.
    Unheard,
    /// Its standard output takes nothing.
    Unprinted,
    /// Its standard input has nothing for now at every other read.
    Slow,
    /// Somebody types its input at a terminal.
    Watched,
    /// Its file `log` has a day, and after it the beginning of a line.
    Logged,
}

/// What a machine is given, and what it printed. It waits and starts threads as its host does.
#[derive(Drop)]
pub struct Machine<'a, R> {
    pub host: &'a R,
    pub alloc: Global,
    pub words: &'a [&'a str],
    /// What each file holds that can't be written, by its path.
    pub files: &'a [(&'a str, &'a [u8])],
    pub input: &'a [u8],
    pub setting: Setting,
    /// The one port that can be had, whichever is asked for.
    pub port: Mutex<Option<TcpListener>>,
    /// The files that can be written.
    pub disk: &'a Mutex<Disk>,
    pub out: Mutex<Vec<u8>>,
    pub err: Mutex<Vec<u8>>,
    /// What was asked for, each with a blank after it: the path of a file that is opened, `+` and the path of one that is opened or made
    /// to be written, `!` and the path of one that is synced with its length, `-` and the path of one that is removed, two paths with `=`
    /// between them when a file gets a name, and the address of a port.
    pub opened: &'a Mutex<Vec<u8>>,
}

/// Fails: no run asks this of a machine.
fn unsupported<T>() -> io::Result<T> {
    Err(Error::from(ErrorKind::Unsupported))
}

impl<R: Wait> Machine<'_, R> {
    /// Appends bytes to what is held.
    fn append(&self, held: &Mutex<Vec<u8>>, bytes: &[u8]) -> io::Result<()> {
        Ok(held.lock(self.host).extend_from_slice(bytes)?)
    }

    /// Appends to standard output, if it takes anything.
    fn put(&self, bytes: &[u8]) -> io::Result<()> {
        if self.setting == Setting::Unprinted {
            return Err(Error::from(ErrorKind::BrokenPipe));
        }
        self.append(&self.out, bytes)
    }

    /// Writes down what is asked for.
    fn note<D: Display + Drop>(&self, mark: &str, asked: D) -> io::Result<()> {
        let text = format!(in self.alloc; "{mark}{asked} ")?;
        self.append(self.opened, text.as_bytes())
    }

    /// Appends a value to standard error.
    fn say<D: Display + Drop>(&self, value: D, end: &str) -> io::Result<()> {
        if self.setting == Setting::Unheard {
            drop(value);
            return Err(Error::from(ErrorKind::BrokenPipe));
        }
        let text = format!(in self.alloc; "{value}{end}")?;
        self.append(&self.err, text.as_bytes())
    }
}

impl<R> Alloc for Machine<'_, R> {
    type A = Global;

    fn alloc(&self) -> Global {
        self.alloc
    }
}

impl<R: Wait> Print for Machine<'_, R> {
    fn print<D: Display + Drop>(&self, value: D) -> io::Result<()> {
        let text = format!(in self.alloc; "{value}")?;
        self.put(text.as_bytes())
    }

    fn println<D: Display + Drop>(&self, value: D) -> io::Result<()> {
        let text = format!(in self.alloc; "{value}\n")?;
        self.put(text.as_bytes())
    }

    fn write_all(&self, bytes: &[u8]) -> io::Result<()> {
        self.put(bytes)
    }
}

impl<R: Wait> Eprint for Machine<'_, R> {
    fn eprint<D: Display + Drop>(&self, value: D) -> io::Result<()> {
        self.say(value, "")
    }

    fn eprintln<D: Display + Drop>(&self, value: D) -> io::Result<()> {
        self.say(value, "\n")
    }
}

/// A standard input.
#[derive(Drop)]
pub struct Typed<'a> {
    bytes: &'a [u8],
    /// Whether it has nothing for now at every other read.
    is_slow: bool,
    /// Whether the next read has something.
    is_ready: bool,
}

impl Read for Typed<'_> {
    fn read(&mut self, buf: &mut [u8]) -> io::Result<usize> {
        if self.is_slow {
            self.is_ready = !self.is_ready;
            if !self.is_ready {
                return Err(Error::from(ErrorKind::WouldBlock));
            }
        }
        self.bytes.read(buf)
    }
}

impl BufRead for Typed<'_> {
    fn fill_buf(&mut self) -> io::Result<&[u8]> {
        Ok(self.bytes)
    }

    fn consume(&mut self, amount: usize) {
        self.bytes = &self.bytes[amount.min(self.bytes.len())..];
    }
}

impl<'a, R> Input for Machine<'a, R> {
    type Reader = Typed<'a>;

    fn read_line<A: Allocator + Clone>(&self, buf: &mut String<A>) -> io::Result<usize> {
        self.reader().read_line(buf)
    }

    fn lines<A: Allocator>(&self, alloc: A) -> Lines<Typed<'a>, A> {
        self.reader().lines(alloc)
    }

    fn reader(&self) -> Typed<'a> {
        Typed {
            bytes: self.input,
            is_slow: self.setting == Setting::Slow,
            is_ready: true,
        }
    }
}

impl<R: Wait> Wait for Machine<'_, R> {}

impl<R: Threads> Threads for Machine<'_, R> {}

impl<R: Wait> Net for Machine<'_, R> {
    type Stream = TcpStream;

    type Listener = TcpListener;

    fn bind(&self, addr: SocketAddr) -> io::Result<TcpListener> {
        self.note("", addr)?;
        match self.port.lock(self.host).take() {
            Some(listener) => Ok(listener),
            None => Err(Error::from(ErrorKind::AddrInUse)),
        }
    }

    fn connect(&self, _addr: SocketAddr) -> io::Result<TcpStream> {
        unsupported()
    }
}

impl<R> Clock for Machine<'_, R> {
    fn monotonic(&self) -> io::Result<Duration> {
        Ok(Duration::ZERO)
    }

    fn since_1970(&self) -> io::Result<Duration> {
        Ok(Duration::from_millis(1_767_603_600_000))
    }
}

impl<R> RandomSource for Machine<'_, R> {
    fn fill_bytes(&self, buf: &mut [u8]) -> io::Result<()> {
        if self.setting == Setting::Unseeded {
            return unsupported();
        }
        buf.fill(7);
        Ok(())
    }
}

impl<R> Env for Machine<'_, R> {
    fn arg(&self, i: usize, buf: &mut [u8]) -> Result<usize, FillError> {
        let Some(word) = self.words.get(i) else {
            return Err(FillError::NotPresent);
        };
        let bytes = word.as_bytes();
        if bytes.len() > buf.len() {
            return Err(FillError::TooLong);
        }
        buf[..bytes.len()].copy_from_slice(bytes);
        Ok(bytes.len())
    }

    fn var(&self, _name: &str, _buf: &mut [u8]) -> Result<usize, FillError> {
        Err(FillError::NotPresent)
    }

    fn var_at(&self, _i: usize, _buf: &mut [u8]) -> Result<usize, FillError> {
        Err(FillError::NotPresent)
    }
}

/// A file that is open: what it holds, or its number among those that can be written.
#[derive(Drop)]
pub struct Text<'a, R> {
    host: &'a R,
    alloc: Global,
    path: String,
    bytes: &'a [u8],
    disk: &'a Mutex<Disk>,
    number: Option<usize>,
    /// The place at which the next read or write of a writable file begins.
    at: usize,
    /// The place where each sync of it is noted.
    opened: &'a Mutex<Vec<u8>>,
}

impl<R: Wait> Text<'_, R> {
    /// Returns its number, if it can be written.
    fn number(&self) -> io::Result<usize> {
        match self.number {
            Some(number) => Ok(number),
            None => Err(Error::from(ErrorKind::Unsupported)),
        }
    }

    /// Returns how long it is.
    fn len(&self) -> usize {
        match self.number {
            Some(number) => self.disk.lock(self.host).bytes(number).len(),
            None => self.bytes.len(),
        }
    }
}

impl<R: Wait> Read for Text<'_, R> {
    fn read(&mut self, buf: &mut [u8]) -> io::Result<usize> {
        let Some(number) = self.number else {
            return self.bytes.read(buf);
        };
        let disk = self.disk.lock(self.host);
        let mut rest = disk.bytes(number).get(self.at..).unwrap_or(&[]);
        let count = rest.read(buf)?;
        self.at = self.at.saturating_add(count);
        Ok(count)
    }
}

impl<R: Wait> Write for Text<'_, R> {
    fn write(&mut self, buf: &[u8]) -> io::Result<usize> {
        let number = self.number()?;
        self.disk.lock(self.host).write_at(number, self.at, buf)?;
        self.at = self.at.saturating_add(buf.len());
        Ok(buf.len())
    }

    fn flush(&mut self) -> io::Result<()> {
        Ok(())
    }
}

impl<R: Wait> Seek for Text<'_, R> {
    fn seek(&mut self, to: SeekFrom) -> io::Result<u64> {
        match to {
            SeekFrom::Start(at) => self.at = at as usize,
            SeekFrom::End(0) => self.at = self.len(),
            _ => return unsupported(),
        }
        Ok(self.at as u64)
    }
}

impl<R: Wait> Locks for Text<'_, R> {
    fn lock_out(&self) -> io::Result<bool> {
        let number = self.number()?;
        Ok(self.disk.lock(self.host).is_free(number))
    }
}

impl<R: Wait> OpenFile for Text<'_, R> {
    fn metadata(&self) -> io::Result<Metadata> {
        Ok(Metadata::of_file(self.len() as u64))
    }

    fn set_len(&self, size: u64) -> io::Result<()> {
        let number = self.number()?;
        self.disk.lock(self.host).cut(number, size as usize);
        Ok(())
    }

    fn sync_all(&self) -> io::Result<()> {
        let text = format!(in self.alloc; "!{} ", self.path)?;
        Ok(
            self.opened
                .lock(self.host)
                .extend_from_slice(text.as_bytes())?,
        )
    }

    fn sync_data(&self) -> io::Result<()> {
        Ok(())
    }
}

/// Returns the mark of how a file is opened: to be read, or to be written, and made if there is none. A journal isn't emptied or
/// appended to as it is opened.
fn mark_of(how: &OpenOptions) -> &'static str {
    match (
        how.asks_write(),
        how.asks_create(),
        how.asks_append() || how.asks_truncate(),
    ) {
        (false, false, false) => "",
        (true, true, false) => "+",
        _ => "?",
    }
}

impl<'a, R: Wait> Machine<'a, R> {
    /// Returns a file that is open.
    fn text(&self, path: &str, bytes: &'a [u8], number: Option<usize>) -> io::Result<Text<'a, R>> {
        Ok(Text {
            host: self.host,
            alloc: self.alloc,
            path: String::from_str(self.alloc, path)?,
            bytes,
            disk: self.disk,
            number,
            at: 0,
            opened: self.opened,
        })
    }
}

impl<'a, R: Wait> Files for Machine<'a, R> {
    type File = Text<'a, R>;

    type Dir = Text<'a, R>;

    fn open_file(&self, how: &OpenOptions, path: &str) -> io::Result<Text<'a, R>> {
        self.note(mark_of(how), path)?;
        if let Some(file) = self.files.iter().find(|file| file.0 == path) {
            return self.text(path, file.1, None);
        }
        let number = if how.asks_create() {
            self.disk.lock(self.host).find_or_make(path)?
        } else {
            match self.disk.lock(self.host).find(path) {
                Some(number) => number,
                None => return Err(Error::from(ErrorKind::NotFound)),
            }
        };
        self.text(path, &[], Some(number))
    }

    fn open_dir(&self, _path: &str) -> io::Result<Text<'a, R>> {
        unsupported()
    }

    fn metadata(&self, path: &str) -> io::Result<Metadata> {
        match self.files.iter().find(|file| file.0 == path) {
            Some((".", _)) => return Ok(Metadata::of_dir()),
            Some((_, bytes)) => return Ok(Metadata::of_file(bytes.len() as u64)),
            None => {}
        }
        let disk = self.disk.lock(self.host);
        match disk.find(path) {
            Some(number) => Ok(Metadata::of_file(disk.bytes(number).len() as u64)),
            None => Err(Error::from(ErrorKind::NotFound)),
        }
    }

    fn symlink_metadata(&self, _path: &str) -> io::Result<Metadata> {
        unsupported()
    }

    fn copy(&self, _from: &str, _to: &str) -> io::Result<u64> {
        unsupported()
    }

    fn rename(&self, from: &str, to: &str) -> io::Result<()> {
        let names = format!(in self.alloc; "{from}={to}")?;
        self.note("", names)?;
        self.disk.lock(self.host).rename(from, to)
    }

    fn remove_file(&self, path: &str) -> io::Result<()> {
        self.note("-", path)?;
        self.disk.lock(self.host).remove(path);
        Ok(())
    }

    fn create_dir(&self, _path: &str) -> io::Result<()> {
        unsupported()
    }

    fn remove_dir(&self, _path: &str) -> io::Result<()> {
        unsupported()
    }

    fn remove_dir_all<B: Allocator>(&self, _alloc: B, _path: &str) -> io::Result<()> {
        unsupported()
    }
}

/// The standard error of a machine, to which a log is written. It is as ready as that of the test.
#[derive(Drop)]
pub struct LogEnd<'v, 'a, R> {
    machine: &'v Machine<'a, R>,
}

impl<'v, 'a, R> LogEnd<'v, 'a, R> {
    /// Creates that of a machine.
    pub fn new(machine: &'v Machine<'a, R>) -> Self {
        LogEnd { machine }
    }
}

impl<R: Wait> Write for LogEnd<'_, '_, R> {
    fn write(&mut self, buf: &[u8]) -> io::Result<usize> {
        let mut err = self.machine.err.lock(self.machine.host);
        err.extend_from_slice(buf)?;
        Ok(buf.len())
    }

    fn flush(&mut self) -> io::Result<()> {
        Ok(())
    }
}

impl<R> AsRawFd for LogEnd<'_, '_, R> {
    fn as_raw_fd(&self) -> RawFd {
        2
    }
}
