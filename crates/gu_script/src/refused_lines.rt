//! The lines of a script that had no effect.

use crate::line_watcher::LineWatcher;
use gu_terms::{Entry, Receipt, RefusalText, Reply};
use gu_world::{Outcome, World};
use std::alloc::{AllocError, Global};
use std::fmt;

/// The most refused lines stored.
const MOST_KEPT: usize = 20;

/// The reason that a line of a script had no effect.
#[derive(Clone, Copy, Debug)]
pub enum LineRefusal {
    /// The command was refused: the number and the text of the refusal.
    Denied { number: u64, text: RefusalText },
    /// The book is full.
    Full,
    /// The reference has no such group.
    UnknownGroup,
}

impl LineRefusal {
    /// Returns the reason that the step with this outcome had no effect, if it had none.
    fn of(outcome: &Outcome) -> Option<Self> {
        match outcome {
            Outcome::Asked(
                Receipt {
                    entry: Entry::Asked {
                        reply: Reply::Denied(refusal),
                        ..
                    },
                    ..
                },
            ) => Some(LineRefusal::Denied {
                number: refusal.number(),
                text: refusal.text(),
            }),
            Outcome::Full => Some(LineRefusal::Full),
            Outcome::NoGroup => Some(LineRefusal::UnknownGroup),
            _ => None,
        }
    }
}

impl fmt::Display for LineRefusal {
    /// Writes the replay's answer without its number and its NO: `16 UnknownKey`.
    fn fmt<W: fmt::Write>(&self, f: &mut fmt::Formatter<W>) -> fmt::Result {
        match self {
            LineRefusal::Denied { number, text } => {
                let text = str::from_utf8(text.get()).unwrap_or("?");
                write!(f, "{number} {text}")
            }
            LineRefusal::Full => f.write_str("FULL"),
            LineRefusal::UnknownGroup => f.write_str("UNKNOWN GROUP"),
        }
    }
}

/// A line of a script that had no effect.
#[derive(Clone, Copy, Debug)]
pub struct RefusedLine {
    /// The number of the line, counted from 1.
    pub number: u64,
    pub why: LineRefusal,
}

/// The lines of a script that had no effect: the first 20 of them, and how many there are.
#[derive(Drop)]
pub struct RefusedLines {
    first: Vec<RefusedLine>,
    count: u64,
    /// The number of steps in the lines so far.
    steps: usize,
}

impl RefusedLines {
    /// Returns an empty list.
    pub(crate) fn new(alloc: Global) -> Self {
        RefusedLines {
            first: Vec::new(alloc),
            count: 0,
            steps: 0,
        }
    }

    /// Returns the first 20 of them, in the order of the script.
    pub fn first(&self) -> &[RefusedLine] {
        &self.first
    }

    /// Returns the number of them.
    pub fn count(&self) -> u64 {
        self.count
    }
}

impl LineWatcher for RefusedLines {
    fn see(&mut self, number: u64, world: &World) -> Result<(), AllocError> {
        let outcomes = world.outcomes();
        let before = self.steps;
        self.steps = outcomes.len();
        for place in before..outcomes.len() {
            let outcome = outcomes.get(place)?;
            if let Some(why) = outcome.as_ref().and_then(LineRefusal::of) {
                self.count = self.count.saturating_add(1);
                if self.first.len() < MOST_KEPT {
                    self.first.push(RefusedLine { number, why })?;
                }
            }
        }
        Ok(())
    }
}
