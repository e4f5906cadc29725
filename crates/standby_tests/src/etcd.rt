//! An etcd in memory: the entries of one log, which answers pages of them.

use base64::engine::general_purpose::STANDARD;
use gu_etcd::{Exchange, NodeError, PAGE, RANGE_PATH, batch_key, entry_of};
use std::alloc::{AllocError, Global};
use std::cell::{Cell, RefCell};

/// The name of the log.
pub const LOG: &[u8] = b"DAY";

/// A log, and what befalls those who ask for it.
#[derive(Drop)]
pub struct Etcd {
    /// The values of its entries.
    entries: RefCell<Vec<Vec<u8>>>,
    /// How many entries were given.
    given: Cell<usize>,
    /// How many more questions get no answer.
    pub unanswered: Cell<u32>,
    /// How many pages were given.
    pub pages: Cell<u32>,
}

impl Etcd {
    /// Creates an empty log.
    pub fn new(alloc: Global) -> Self {
        Etcd {
            entries: RefCell::new(Vec::new(alloc)),
            given: Cell::new(0),
            unanswered: Cell::new(0),
            pages: Cell::new(0),
        }
    }

    /// Appends a batch of the desk that leads.
    pub fn append(&self, alloc: Global, batch: &str) -> Result<(), AllocError> {
        self.append_entry(entry_of(alloc, b"desk-B", batch.as_bytes())?)
    }

    /// Appends an entry.
    pub fn append_entry(&self, entry: Vec<u8>) -> Result<(), AllocError> {
        match self.entries.try_borrow_mut() {
            Ok(mut entries) => {
                entries.push(entry)?;
                Ok(())
            }
            Err(_) => {
                drop(entry);
                Err(AllocError)
            }
        }
    }

    /// Returns how many entries it has.
    pub fn count(&self) -> usize {
        match self.entries.try_borrow() {
            Ok(entries) => entries.len(),
            Err(_) => 0,
        }
    }

    /// Returns the answer with the page that comes next.
    fn page(&self, alloc: Global) -> Result<String, AllocError> {
        let Ok(entries) = self.entries.try_borrow() else {
            return Err(AllocError);
        };
        let mut pairs = String::new(alloc);
        let mut number = self.given.get();
        for entry in entries.iter().skip(number).take(PAGE as usize) {
            number = number.saturating_add(1);
            let key = STANDARD.encode(alloc, &batch_key(alloc, LOG, number as u64)?)?;
            let value = STANDARD.encode(alloc, entry)?;
            let comma = if pairs.is_empty() { "" } else { "," };
            let pair = format!(in alloc; "{comma}{{\"key\":\"{key}\",\"value\":\"{value}\"}}")?;
            pairs.push_str(&pair)?;
        }
        self.given.set(number);
        self.pages.set(self.pages.get().saturating_add(1));
        let more = number < entries.len();
        format!(in alloc; "{{\"header\":{{}},\"kvs\":[{pairs}],\"more\":{more}}}")
    }
}

/// The way to an etcd.
#[derive(Drop)]
pub struct Way<'a> {
    pub etcd: &'a Etcd,
}

impl Exchange for Way<'_> {
    fn post(
        &mut self,
        alloc: Global,
        _endpoint: usize,
        path: &str,
        _body: &str,
    ) -> Result<Vec<u8>, NodeError> {
        let unanswered = self.etcd.unanswered.get();
        if unanswered > 0 {
            self.etcd.unanswered.set(unanswered.saturating_sub(1));
            return Err(NodeError::Unanswered);
        }
        if path != RANGE_PATH {
            return Err(NodeError::Unanswered);
        }
        let page = self.etcd.page(alloc)?;
        Ok(Vec::from_slice(alloc, page.as_bytes())?)
    }
}
