//! The connection at a place: one with a session, or one whose firm isn't known yet.

ghost use Rattle.std.specs.Prelude.{◌≡◌};

use crate::card::Card;
use crate::knocker::Knocker;
use crate::place::Place;
use crate::stage::Deadline;
use gu_lease::Permit;
use gu_talks::{EndsWriting, Ready};
use std::io::{Read, Write};

/// The connection at a place.
#[derive(Drop)]
pub enum Guest<I, O> {
    /// A connection with a session.
    Talks(Place<I, O>),
    /// A connection whose firm isn't known yet.
    Knocks(Knocker<I, O>),
}

impl<I: Read + Drop, O: Write + EndsWriting + Drop> Guest<I, O> {
    /// Notes what its streams are ready for.
    pub fn note(&mut self, ready: Ready) {
        match self {
            Guest::Talks(place) => place.note(ready),
            Guest::Knocks(knocker) => knocker.note(ready),
        }
    }

    /// Returns its card.
    pub fn card(&self) -> Card {
        match self {
            Guest::Talks(place) => place.card,
            Guest::Knocks(knocker) => knocker.card(),
        }
    }

    /// Notes that entries up to this number may inform its firm, and returns whether any of them is new to it.
    pub fn tell(&mut self, number: u64) -> bool {
        match self {
            Guest::Talks(place) => place.tell(number),
            Guest::Knocks(_) => false,
        }
    }

    /// Notes that nothing more is to be read for its session.
    pub fn stop_reading(&mut self) {
        if let Guest::Talks(place) = self {
            place.stop_reading();
        }
    }

    /// Returns when it is to be visited even if nothing happens, given when the close began, if it did, and how long held answers may wait.
    pub fn deadline(&self, closing: Option<u64>, write_wait_ms: u64) -> Deadline {
        match self {
            Guest::Talks(place) => place.deadline(closing, write_wait_ms),
            Guest::Knocks(knocker) => knocker.deadline(),
        }
    }

    /// Sends by a permit of the desk's gate as much of what is held as its stream takes and as may go. No more entries will be kept.
    pub fn send_last(&mut self, permit: Permit) {
        if let Guest::Talks(place) = self {
            let _ = place.talk.send(permit);
        }
    }
}
