//! Entries of the history.

ghost use Rattle.std.specs.Prelude.{◌≡◌, ◌↔◌, IsTrue, IfOk};
ghost use Rattle.gu_terms.specs.Histories.{swept_by};

use crate::command::Command;
use crate::cut::Cut;
use crate::group::Group;
use crate::reply::Reply;
use crate::takes::Takes;
use std::alloc::AllocError;

/// A sweep of a product group's open offers, as committed.
#[derive(Drop)]
pub struct SweepEntry {
    pub group: Group,
    pub takes: Takes,
    /// The cut that proves that no more could be taken.
    pub cut: Cut,
    /// The total lots of the takes, which equals the room of the cut.
    pub lots: u64,
}

impl SweepEntry {
    /// Returns a copy.
    pub fn copy(&self) -> Result<SweepEntry, AllocError>
        ensures { IfOk result (λ sweep. sweep ≡ self.now) }
    {
        let takes = self.takes.copy()?;
        let cut = self.cut.copy()?;
        Ok(SweepEntry {
            group: self.group,
            takes,
            cut,
            lots: self.lots,
        })
    }

    /// Returns whether two sweeps are the same.
    pub fn is_same(&self, other: &SweepEntry) -> bool
        ensures { IsTrue result ↔ (self.now ≡ other.now) }
    {
        self.group == other.group
            && self.takes.is_same(&other.takes)
            && self.cut.is_same(&other.cut)
            && self.lots == other.lots
    }
}

/// An entry of the history.
#[derive(Drop)]
pub enum Entry {
    /// A command with its reply, even if it was refused.
    Asked { command: Command, reply: Reply },
    /// A committed sweep.
    Swept(SweepEntry),
}

impl Entry {
    /// Returns a copy.
    pub fn copy(&self) -> Result<Entry, AllocError>
        ensures { IfOk result (λ entry. entry ≡ self.now) }
    {
        match self {
            Entry::Asked { command, reply } => {
                let command = command.copy()?;
                Ok(Entry::Asked {
                    command,
                    reply: *reply,
                })
            }
            Entry::Swept(sweep) => Ok(Entry::Swept(sweep.copy()?)),
        }
    }

    /// Returns whether it is this command with this reply.
    pub(crate) fn is_asked(&self, command: &Command, reply: Reply) -> bool
        ensures { IsTrue result ↔ (self.now ≡ Entry.Asked command.now reply) }
    {
        match self {
            Entry::Asked {
                command: own_command,
                reply: own_reply,
            } => own_command.is_same(command) && own_reply.is_same(reply),
            Entry::Swept(_) => false,
        }
    }

    /// Returns whether it is this sweep.
    pub(crate) fn is_sweep(&self, sweep: &SweepEntry) -> bool
        ensures { IsTrue result ↔ (self.now ≡ Entry.Swept sweep.now) }
    {
        match self {
            Entry::Swept(own) => own.is_same(sweep),
            Entry::Asked { .. } => false,
        }
    }

    /// Returns whether two entries are the same.
    pub fn is_same(&self, other: &Entry) -> bool
        ensures { IsTrue result ↔ (self.now ≡ other.now) }
    {
        match other {
            Entry::Asked { command, reply } => self.is_asked(command, *reply),
            Entry::Swept(sweep) => self.is_sweep(sweep),
        }
    }
}
