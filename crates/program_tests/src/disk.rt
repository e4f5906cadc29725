//! Files of the tests' machine that can be written.

use std::alloc::{AllocError, Global};
use std::io::{self, Error, ErrorKind};

/// What is special about a file.
#[derive(Clone, Copy, PartialEq, Eq)]
pub enum Kind {
    /// It can be read and written.
    Sound,
    /// It takes nothing.
    Stuck,
    /// It takes the opening of a day, and nothing else: 64 pieces of zeros, the heading, and the script's entries.
    Worn,
    /// Another program has it.
    Held,
}

/// How many pieces a worn file takes.
const WORN_AFTER: u32 = 66;

/// A file that can be written.
#[derive(Drop)]
struct Node {
    bytes: Vec<u8>,
    kind: Kind,
    /// How many pieces were written.
    writes: u32,
}

/// The files that can be written, and their names.
#[derive(Drop)]
pub struct Disk {
    alloc: Global,
    nodes: Vec<Node>,
    names: Vec<(String, usize)>,
}

/// Returns the kind of a file that is made with this name, or nothing if none can be made.
fn kind_of(name: &str) -> Option<Kind> {
    match name {
        "log.new" => Some(Kind::Sound),
        "stuck.new" => Some(Kind::Stuck),
        "worn.new" => Some(Kind::Worn),
        _ => None,
    }
}

impl Disk {
    /// Creates one without files.
    pub fn new(alloc: Global) -> Self {
        Disk {
            alloc,
            nodes: Vec::new(alloc),
            names: Vec::new(alloc),
        }
    }

    /// Adds a file, and returns its number.
    pub fn add(&mut self, name: &str, kind: Kind, bytes: &[u8]) -> Result<usize, AllocError> {
        let number = self.nodes.len();
        let name = String::from_str(self.alloc, name)?;
        self.nodes.push(Node {
            bytes: Vec::from_slice(self.alloc, bytes)?,
            kind,
            writes: 0,
        })?;
        self.names.push((name, number))?;
        Ok(number)
    }

    /// Returns the number of the file that has a name.
    pub fn find(&self, name: &str) -> Option<usize> {
        match self.names.iter().find(|named| named.0.as_str() == name) {
            Some(named) => Some(named.1),
            None => None,
        }
    }

    /// Returns the number of the file that has a name, which is made if there is none.
    pub fn find_or_make(&mut self, name: &str) -> io::Result<usize> {
        if let Some(number) = self.find(name) {
            return Ok(number);
        }
        match kind_of(name) {
            Some(kind) => Ok(self.add(name, kind, b"")?),
            None => Err(Error::from(ErrorKind::NotFound)),
        }
    }

    /// Takes a name from the file that has it.
    pub fn remove(&mut self, name: &str) {
        self.names.retain(|named| named.0.as_str() != name);
    }

    /// Gives a file's name another spelling, which the file that had it loses.
    pub fn rename(&mut self, from: &str, to: &str) -> io::Result<()> {
        let Some(number) = self.find(from) else {
            return Err(Error::from(ErrorKind::NotFound));
        };
        self.remove(from);
        self.remove(to);
        let name = String::from_str(self.alloc, to)?;
        self.names.push((name, number))?;
        Ok(())
    }

    /// Returns what a file holds.
    pub fn bytes(&self, number: usize) -> &[u8] {
        match self.nodes.get(number) {
            Some(node) => &node.bytes,
            None => &[],
        }
    }

    /// Returns what a file has before the zeros at its end.
    pub fn text_of(&self, name: &str) -> &[u8] {
        let text = match self.find(name) {
            Some(number) => self.bytes(number),
            None => &[],
        };
        let mut end = 0;
        for (place, byte) in text.iter().enumerate() {
            if *byte != 0 {
                end = place.saturating_add(1);
            }
        }
        text.get(..end).unwrap_or(&[])
    }

    /// Returns whether no other program has a file.
    pub fn is_free(&self, number: usize) -> bool {
        match self.nodes.get(number) {
            Some(node) => node.kind != Kind::Held,
            None => false,
        }
    }

    /// Cuts a file to a length.
    pub fn cut(&mut self, number: usize, len: usize) {
        if let Some(node) = self.nodes.get_mut(number) {
            node.bytes.truncate(len);
        }
    }

    /// Writes over a file from a place on.
    pub fn write_at(&mut self, number: usize, at: usize, bytes: &[u8]) -> io::Result<()> {
        let Some(node) = self.nodes.get_mut(number) else {
            return Err(Error::from(ErrorKind::NotFound));
        };
        node.writes = node.writes.saturating_add(1);
        match node.kind {
            Kind::Stuck => return Err(Error::from(ErrorKind::Unsupported)),
            Kind::Worn if node.writes > WORN_AFTER => {
                return Err(Error::from(ErrorKind::StorageFull));
            }
            _ => {}
        }
        let Some(end) = at.checked_add(bytes.len()) else {
            return Err(Error::from(ErrorKind::FileTooLarge));
        };
        if node.bytes.len() < end {
            node.bytes.resize(end, 0)?;
        }
        node.bytes[at..end].copy_from_slice(bytes);
        Ok(())
    }
}
