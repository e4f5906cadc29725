//! Workers that are turned by hand, and what reaches them.

use crate::floors::{Callers, Floor, Hand, Setting};
use crate::wires::{Line, Wire};
use gu_posts::Call;
use gu_terms::FirmId;
use gu_workers::Round;
use std::alloc::{AllocError, Global};
use std::process::Abort;
use std::sync::Wait;
use trials::{Talk, shown, wire};

/// Workers that are turned by hand.
#[derive(Drop)]
pub struct Play<'a> {
    pub alloc: Global,
    /// What it is called.
    pub name: &'a str,
    pub floor: &'a Floor,
    workers: Vec<Hand<'a>>,
    callers: Vec<Callers<'a>>,
    /// The time, as `09:00:00.000`.
    time: String,
    /// Whether the last round was the last of its worker.
    pub is_over: bool,
}

impl<'a> Play<'a> {
    /// Returns the workers of a setting, at nine.
    pub fn new(
        alloc: Global,
        name: &'a str,
        floor: &'a Floor,
        setting: Setting<'_>,
    ) -> Result<Self, AllocError> {
        let mut workers = Vec::new(alloc);
        let mut callers = Vec::new(alloc);
        for worker in 0..setting.workers {
            let (hand, to) = floor.worker(alloc, worker, setting.places)?;
            workers.push(hand)?;
            callers.push(to)?;
        }
        Ok(Play {
            alloc,
            name,
            floor,
            workers,
            callers,
            time: String::from_str(alloc, "09:00:00.000")?,
            is_over: false,
        })
    }

    /// Returns the connection of a number, from 1 on.
    pub fn wire(&self, number: usize) -> Option<&'a Wire> {
        self.floor.wires.get(number.checked_sub(1)?)
    }

    /// Sends a worker the connection of a number, whose port is 1,000 more, and which comes at the door of this firm, if it comes by one.
    pub fn come<R: Wait>(&self, rt: &R, number: usize, worker: usize, door: Option<FirmId>) {
        let (Some(wire), Some(callers)) = (self.wire(number), self.callers.get(worker)) else {
            return;
        };
        let number = number as u64;
        let call = Call {
            stream: Line::new(wire),
            number,
            port: number.saturating_add(1_000),
            door,
        };
        callers.send(rt, call);
    }

    /// Ends the connections that come.
    pub fn end_calls(&mut self) {
        self.callers.clear();
    }

    /// Sets the time.
    pub fn set_time(&mut self, time: &str) -> Result<(), AllocError> {
        self.time = String::from_str(self.alloc, time)?;
        let lines = format!(in self.alloc; "clock {time}\nsilence")?;
        let talk = Talk::of(self.alloc, "E1", &lines)?;
        if let Some(moment) = talk.moments.first() {
            self.floor.hands.set(*moment);
        }
        Ok(())
    }

    /// Returns what a line of a firm says, at this time.
    pub fn talk(&self, firm: &str, line: &str) -> Result<Talk, AllocError> {
        let lines = format!(in self.alloc; "clock {}\n{line}", self.time)?;
        Talk::of(self.alloc, firm, &lines)
    }

    /// Sends what a firm's line says.
    pub fn send(&self, wire_to: &Wire, firm: &str, line: &str) -> Result<(), AllocError> {
        let talk = self.talk(firm, line)?;
        let bytes = wire(self.alloc, &talk.input)?;
        wire_to.send(bytes.as_bytes())
    }

    /// Returns what a firm was sent since this was asked last, but at most this many bytes.
    pub fn look(&self, wire: &Wire, most: usize) -> Result<String, AllocError> {
        let bytes = wire.look(self.alloc, most)?;
        shown(self.alloc, &bytes)
    }

    /// Has a worker make a round.
    pub fn round<R: Wait + Abort>(&mut self, rt: &R, worker: usize) {
        if let Some(hand) = self.workers.get_mut(worker) {
            let round = hand.round(rt).expect(rt, "a round");
            self.is_over = round == Round::Over;
        }
    }

    /// Has a worker make rounds until it is over. Returns whether it could go on until then.
    pub fn run<R: Wait>(&mut self, rt: &R, worker: usize) -> bool {
        match self.workers.get_mut(worker) {
            Some(hand) => hand.run(rt).is_ok(),
            None => false,
        }
    }

    /// Has each worker make a round.
    pub fn rounds<R: Wait + Abort>(&mut self, rt: &R) {
        for worker in 0..self.workers.len() {
            self.round(rt, worker);
        }
    }
}
