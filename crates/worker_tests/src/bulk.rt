//! Many messages to a firm.

use std::alloc::{AllocError, Global};

/// What many messages to a firm are, in which `|` is SOH.
#[derive(Drop)]
pub struct Bulk<'a> {
    /// How many there are, as long as they are numbered from 1 on.
    numbered: u64,
    /// How many of them are AllocationReports.
    reports: u64,
    /// The type of the last.
    last: &'a str,
}

/// Returns the value of a field of a message.
fn field<'a>(message: &'a str, tag: &str) -> &'a str {
    for field in message.split('|') {
        let (name, value) = field.split_once('=').unwrap_or((field, ""));
        if name == tag {
            return value;
        }
    }
    ""
}

impl<'a> Bulk<'a> {
    /// Returns what the messages of a text are.
    pub fn of(text: &'a str) -> Self {
        let mut bulk = Bulk {
            numbered: 0,
            reports: 0,
            last: "",
        };
        for message in text.split("8=FIXT.1.1|") {
            if !message.is_empty() {
                bulk.add(message);
            }
        }
        bulk
    }

    /// Adds a message. Once a number is wrong, all that follow are.
    fn add(&mut self, message: &'a str) {
        let number: u64 = field(message, "34").parse().unwrap_or(0);
        if number == self.numbered.saturating_add(1) {
            self.numbered = number;
        }
        self.last = field(message, "35");
        if self.last == "AS" {
            self.reports = self.reports.saturating_add(1);
        }
    }

    /// Returns these as a line.
    pub fn told(&self, alloc: Global) -> Result<String, AllocError> {
        format!(in alloc; "{} {} {}", self.numbered, self.reports, self.last)
    }
}
