//! The rounds of a worker: it waits, notes what has happened, and visits the connections that want it.

use crate::admission::Admission;
use crate::answers_many::AnswersMany;
use crate::error::WorkerError;
use crate::stage::Deadline;
use crate::timer::{Now, Timer};
use crate::worker::{Round, Worker};
use crossbeam_channel::TryRecvError;
use gu_engine::House;
use gu_lease::BothClocks;
use gu_log::{EndCause, Refusal};
use gu_notices::FirmPlace;
use gu_posts::{Bell, bit_of};
use gu_talks::Poller;
use std::alloc::AllocError;
use std::io::ErrorKind;
use std::sync::{Wait, WaitMethods};
use std::time::Duration;

/// How many milliseconds a worker may wait while it has connections.
const LONGEST_WAIT_MS: u64 = 1_000;

impl<
    P: Poller + Drop,
    T: Timer + Drop,
    H: House + AnswersMany + Drop,
    A: Admission,
    B: Bell,
    C: BothClocks,
> Worker<'_, P, T, H, A, B, C> {
    /// Makes one round: waits once, notes what has happened, sends what was held back and may go now, visits each connection that wants it
    /// once, and takes those that have come. Once no more entries will be kept, it sends what may go, and is over.
    pub fn round<R: Wait>(&mut self, rt: &R) -> Result<Round, WorkerError> {
        self.wait()?;
        let now = self.timer.now()?;
        if self.shared.posts.is_stopped() {
            self.stop(rt);
            return Ok(Round::Over);
        }
        self.note_ready()?;
        self.note_told()?;
        self.note_cuts()?;
        self.note_closing(&now)?;
        self.note_due(&now)?;
        self.note_kept(rt, &now)?;
        self.visit_all(rt, &now)?;
        self.take_calls(rt, &now)?;
        if self.has_all_calls && self.slots.is_empty() {
            return Ok(Round::Over);
        }
        Ok(Round::GoesOn)
    }

    /// Makes rounds until no more connections come and the last has ended. If it can't go on, it ends its connections and reports the
    /// failure.
    pub fn run<R: Wait>(&mut self, rt: &R) -> Result<(), WorkerError> {
        for _round in rt.forever() {
            match self.round(rt) {
                Ok(Round::GoesOn) => {}
                Ok(Round::Over) => break,
                Err(error) => {
                    self.end_all(rt);
                    self.shared.posts.fail(error.kind());
                    return Err(error);
                }
            }
        }
        Ok(())
    }

    /// Ends all its connections, including those that have come and aren't taken yet.
    fn end_all<R: Wait>(&mut self, rt: &R) {
        for at in 0..self.slots.len() {
            if self.drop_at(at, EndCause::Stopped).is_err() {
                break;
            }
        }
        for call in self.calls.try_iter(rt) {
            self.shared
                .admission
                .turn_away(call.number, Refusal::Closing);
            drop(call);
            self.shared.posts.end_connection(self.settings.worker);
        }
    }

    /// Sends what may go of each connection, once, if the desk leads, and ends them all: no more entries will be kept, so nothing more is
    /// answered.
    fn stop<R: Wait>(&mut self, rt: &R) {
        let kept = self.shared.posts.kept();
        let gate = self.shared.gate;
        for at in 0..self.slots.len() {
            let Some(permit) = gate.ask(rt, kept) else {
                break;
            };
            if let Some(guest) = self.slots.get_mut(at) {
                guest.send_last(permit);
            }
        }
        self.end_all(rt);
    }

    /// Ends the connection at a place, if there is one.
    fn drop_at(&mut self, at: usize, cause: EndCause) -> Result<(), AllocError> {
        let Some(guest) = self.slots.take(at) else {
            return Ok(());
        };
        let card = guest.card();
        drop(guest);
        self.end(at, card, cause)
    }

    /// Returns how long to wait: not at all if a place wants a visit, otherwise until the next deadline.
    fn longest_wait(&mut self) -> Result<Option<Duration>, WorkerError> {
        if self.slots.has_wanting() {
            return Ok(Some(Duration::from_millis(0)));
        }
        if self.slots.is_empty() {
            return Ok(None);
        }
        let now = self.timer.now()?;
        let left = self.earliest.left_ms(&now).min(LONGEST_WAIT_MS);
        Ok(Some(Duration::from_millis(left)))
    }

    /// Returns whether there is anything to do that the poller doesn't know about.
    fn has_news(&self) -> bool {
        let posts = self.shared.posts;
        let is_told = match posts.post(self.settings.worker) {
            Some(post) => post.has_news(),
            None => false,
        };
        let may_release = self.slots.has_holding() && posts.kept() != self.kept;
        let is_closing = self.closing.is_none() && posts.is_closing();
        is_told || may_release || is_closing || posts.is_stopped()
    }

    /// Waits once. What others report while it isn't waiting is seen before the wait, or in the next round.
    fn wait(&mut self) -> Result<(), WorkerError> {
        let mut most = self.longest_wait()?;
        let posts = self.shared.posts;
        if let Some(post) = posts.post(self.settings.worker) {
            post.set_holds_back(self.slots.has_holding());
            post.fall_asleep();
        }
        if self.has_news() {
            most = Some(Duration::from_millis(0));
        }
        self.ready.clear();
        let waited = self.poller.wait(most, &mut self.ready);
        if let Some(post) = posts.post(self.settings.worker) {
            post.wake_up();
        }
        match waited {
            Err(error) if error.kind() != ErrorKind::Interrupted => Err(WorkerError::Poller(error)),
            _ => Ok(()),
        }
    }

    /// Notes which connections are ready.
    fn note_ready(&mut self) -> Result<(), AllocError> {
        for ready in &self.ready {
            if let Some(guest) = self.slots.get_mut(ready.place) {
                guest.note(*ready);
                self.slots.list(ready.place)?;
            }
        }
        Ok(())
    }

    /// Notes which connections have notices to send.
    fn note_told(&mut self) -> Result<(), AllocError> {
        let posts = self.shared.posts;
        let Some(post) = posts.post(self.settings.worker) else {
            return Ok(());
        };
        let told = post.take_told();
        if told == 0 {
            return Ok(());
        }
        for at in 0..self.slots.len() {
            self.tell(at, told)?;
        }
        Ok(())
    }

    /// Notes that the connection at a place may have notices to send, if its firm's place is among these.
    fn tell(&mut self, at: usize, told: u64) -> Result<(), AllocError> {
        let Some(guest) = self.slots.get_mut(at) else {
            return Ok(());
        };
        let Some(admitted) = guest.card().firm else {
            return Ok(());
        };
        let firm_place = FirmPlace::of(&admitted.firm);
        if told & bit_of(firm_place.number() as usize) == 0 {
            return Ok(());
        }
        if guest.tell(self.shared.posts.number(firm_place)) {
            self.slots.list(at)?;
        }
        Ok(())
    }

    /// Ends the connections that were cut.
    fn note_cuts(&mut self) -> Result<(), AllocError> {
        let Some(post) = self.shared.posts.post(self.settings.worker) else {
            return Ok(());
        };
        if !post.take_cuts() {
            return Ok(());
        }
        for at in 0..self.slots.len() {
            let is_cut = match post.rows().get(at) {
                Some(row) => row.is_cut(),
                None => false,
            };
            if is_cut {
                self.drop_at(at, EndCause::Cut)?;
            }
        }
        Ok(())
    }

    /// Notes that the day is being closed, once: nothing more is read then, and each connection is visited.
    fn note_closing(&mut self, now: &Now) -> Result<(), AllocError> {
        if self.closing.is_some() || !self.shared.posts.is_closing() {
            return Ok(());
        }
        self.closing = Some(now.ms);
        for at in 0..self.slots.len() {
            if let Some(guest) = self.slots.get_mut(at) {
                guest.stop_reading();
            }
            self.slots.list(at)?;
        }
        Ok(())
    }

    /// Lists the connections whose deadline has come, and finds the earliest deadline of the others.
    fn note_due(&mut self, now: &Now) -> Result<(), AllocError> {
        if !self.earliest.has_come(now) {
            return Ok(());
        }
        let closing = self.closing;
        let write_wait_ms = self.settings.write_wait_ms;
        let mut earliest = Deadline::never();
        for at in 0..self.slots.len() {
            let Some(guest) = self.slots.get(at) else {
                continue;
            };
            let deadline = guest.deadline(closing, write_wait_ms);
            if deadline.has_come(now) {
                self.slots.list(at)?;
            } else {
                earliest = earliest.min(deadline);
            }
        }
        self.earliest = earliest;
        Ok(())
    }

    /// Sends what connections have held back, if more entries are kept than before.
    fn note_kept<R: Wait>(&mut self, rt: &R, now: &Now) -> Result<(), AllocError> {
        let kept = self.shared.posts.kept();
        if kept == self.kept {
            return Ok(());
        }
        self.kept = kept;
        for _place in 0..self.slots.begin_releases() {
            if let Some((at, guest)) = self.slots.next_release() {
                self.release(rt, at, guest, now)?;
            }
        }
        Ok(())
    }

    /// Visits each connection that is listed, once.
    fn visit_all<R: Wait>(&mut self, rt: &R, now: &Now) -> Result<(), AllocError> {
        for _visit in 0..self.slots.begin_visits() {
            if let Some((at, guest)) = self.slots.next_visit() {
                self.visit(rt, at, guest, now)?;
            }
        }
        Ok(())
    }

    /// Takes the connections that have come.
    fn take_calls<R: Wait>(&mut self, rt: &R, now: &Now) -> Result<(), AllocError> {
        for _call in 0..self.slots.len() {
            match self.calls.try_recv(rt) {
                Ok(call) => self.take_call(call, now)?,
                Err(TryRecvError::Disconnected) => {
                    self.has_all_calls = true;
                    break;
                }
                Err(TryRecvError::Empty) => break,
            }
        }
        Ok(())
    }
}
