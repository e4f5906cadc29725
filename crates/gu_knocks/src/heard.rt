//! What is known about a connection from all that it has sent.

ghost use Rattle.std.specs.Prelude.{◌≡◌, ◌<◌, ◌++◌, length, IfOk};
ghost use Rattle.std.specs.Option.{option_map};
ghost use Rattle.gu_fix.specs.Stream.{HasNoFrameYet};
ghost use Rattle.gu_knocks.specs.Hearing.{IsHeard};
ghost use Rattle.gu_knocks.specs.declared.heard.TheConstants.{MOST_SAID};

use crate::guard::{Guard, Judged};
use crate::knock::Knock;
use gu_fix::FeedError;
use gu_log::LogonFault;
use gu_terms::FirmId;
use std::alloc::{AllocError, Global};

/// If there are secrets, a connection that sends more bytes than this without a whole message is turned away.
const MOST_SAID: usize = 16_384;

/// What a first message shows.
#[derive(Clone, Copy, Debug)]
pub struct Glance {
    /// The firm whose secret fits; if the connection is turned away, the firm that it names, if that may come in here.
    pub firm: Option<FirmId>,
    /// Its fault, or what its fault is if its session refuses it.
    pub fault: LogonFault,
}

/// What is known after more bytes have come.
#[derive(Drop)]
pub enum Heard {
    /// The first message isn't whole yet.
    Waits(Knock),
    /// The connection is let in. `said` is all that has come, for its session to read.
    LetsIn { glance: Glance, said: Vec<u8> },
    /// The connection is turned away.
    Refuses(Glance),
}

impl Knock {
    /// Takes the next bytes, and returns what is known with them. If an allocation fails, the connection is lost.
    pub fn hear(self, alloc: Global, guard: Guard<'_>, piece: &[u8]) -> Result<Heard, AllocError>
        ensures { IfOk result (IsHeard (option_map (λ secrets. secrets.now) guard.entry.secrets) guard.entry.firms.now (self ++ piece.now)) }
    {
        let Knock {
            mut said,
            mut intake,
        } = self;
        said.extend_from_slice(piece)?;
        match intake.push(piece) {
            Ok(()) => {}
            Err(FeedError::Memory) => return Err(AllocError),
        }
        match intake.next_frame() {
            Err(FeedError::Memory) => Err(AllocError),
            Ok(Some(frame)) => match guard.judge(alloc, frame)? {
                Judged::LetsIn(glance) => Ok(Heard::LetsIn { glance, said }),
                Judged::Refuses(glance) => Ok(Heard::Refuses(glance)),
            },
            Ok(None) if said.len() <= MOST_SAID => Ok(Heard::Waits(Knock { said, intake })),
            Ok(None) => Ok(after_too_much(guard, said)),
        }
    }
}

/// Returns what is known about a connection that has sent too much before its first message is whole.
fn after_too_much(guard: Guard<'_>, said: Vec<u8>) -> Heard
    ensures { HasNoFrameYet said.items → MOST_SAID < length said.items → IsHeard (option_map (λ secrets. secrets.now) guard.entry.secrets) guard.entry.firms.now said.items result }
{
    let glance = Glance {
        firm: None,
        fault: LogonFault::TooLong,
    };
    match guard.secrets {
        Some(_) => Heard::Refuses(glance),
        None => Heard::LetsIn { glance, said },
    }
}
