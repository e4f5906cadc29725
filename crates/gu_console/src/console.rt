//! What the operators of one socket have in common.

ghost use Rattle.std.specs.Prelude.{◌≡◌, None};

use crate::office::{Office, moment_of};
use gu_desk::{EntryLedger, LotLedger, Origin};
use gu_houses::{DeskTools, Informs};
use std::alloc::Global;
use std::sync::Wait;

/// What the operators of one socket have in common: the desk that they talk to, and whether they only watch.
#[derive(Drop)]
pub struct Console<'a, E: EntryLedger, S: LotLedger, R: Wait, O: Office, I: Informs> {
    pub alloc: Global,
    pub tools: DeskTools<'a, E, S, R, I>,
    pub office: &'a O,
    /// Whether they may look and change nothing.
    pub is_watch: bool,
}

impl<E: EntryLedger, S: LotLedger, R: Wait, O: Office, I: Informs> Console<'_, E, S, R, O, I> {
    /// Returns the origin of an entry that an operator makes now.
    pub(crate) fn origin(&self) -> Origin
        ensures { result.message ≡ None }
    {
        Origin {
            moment: moment_of(self.office),
            message: None,
        }
    }
}
