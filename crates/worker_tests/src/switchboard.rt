//! A poller over memory.

use crate::watches::{Hands, Ring};
use crate::wires::{Hearing, Line, Saying, Wire};
use gu_talks::{Poller, Ready};
use std::cell::{Cell, RefCell};
use std::io;
use std::io::ErrorKind;
use std::time::Duration;

/// What a test sees and says of a poller.
#[derive(Drop)]
pub struct Waits {
    /// How long the last wait was to be at most.
    pub asked: Cell<Option<Duration>>,
    /// Whether a wait in which nothing happens lets its time pass; one without a time fails then.
    pub takes_time: Cell<bool>,
    /// Whether waits fail.
    pub has_failed: Cell<bool>,
    /// What is said besides, once.
    pub besides: RefCell<Vec<Ready>>,
}

/// A poller over memory: it says of each of its connections what is new, once.
#[derive(Drop)]
pub struct Switchboard<'a> {
    wires: &'a [Wire],
    hands: &'a Hands,
    waits: &'a Waits,
    bell: Option<&'a Ring>,
}

impl<'a> Switchboard<'a> {
    /// Returns the poller of these connections, which a bell wakes.
    pub fn new(
        wires: &'a [Wire],
        hands: &'a Hands,
        waits: &'a Waits,
        bell: Option<&'a Ring>,
    ) -> Self {
        Switchboard {
            wires,
            hands,
            waits,
            bell,
        }
    }

    /// Returns whether the bell was rung since the last wait.
    fn is_woken(&self) -> bool {
        match self.bell {
            Some(bell) => bell.wakes(),
            None => false,
        }
    }

    /// Lets time pass in which nothing happens.
    fn rest(&self, most: Option<Duration>) -> io::Result<()> {
        if !self.waits.takes_time.get() {
            return Ok(());
        }
        match most {
            Some(time) => self.hands.forward(time),
            None => return Err(io::Error::from(ErrorKind::TimedOut)),
        }
        Ok(())
    }
}

impl<'a> Poller for Switchboard<'a> {
    type Call = Line<'a>;

    type Incoming = Hearing<'a>;

    type Outgoing = Saying<'a>;

    fn watch(&mut self, call: Line<'a>, place: usize) -> io::Result<(Hearing<'a>, Saying<'a>)> {
        Ok(call.halves(place))
    }

    fn wait(&mut self, most: Option<Duration>, ready: &mut Vec<Ready>) -> io::Result<()> {
        self.waits.asked.set(most);
        if self.waits.has_failed.get() {
            return Err(io::Error::from(ErrorKind::InvalidInput));
        }
        for wire in self.wires {
            if let Some(one) = wire.take_ready() {
                ready.push(one)?;
            }
        }
        if let Ok(mut besides) = self.waits.besides.try_borrow_mut() {
            for one in besides.iter() {
                ready.push(*one)?;
            }
            besides.clear();
        }
        if !self.is_woken() && ready.is_empty() {
            return self.rest(most);
        }
        Ok(())
    }
}
