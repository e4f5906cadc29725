//! The ways by which firms come in, which take turns.

ghost use Rattle.std.specs.Prelude.{◌≡◌, ◌<◌, true, false, None, Ok, OnErr, IfOk, IfSome, IsSomeAnd, length, slice_get};
ghost use Rattle.gu_sockets.specs.Doorways.{CameIn, KeepsListeners, is_open, is_way_due};

use crate::door::{Door, Listens};
use std::io;

/// A connection, with the way by which it came in.
#[derive(Drop)]
pub enum Arrival<P, D> {
    /// One by the port.
    ByPort(P),
    /// One by the firm's door of this number, from 0 on.
    ByDoor(usize, D),
}

/// The ways by which firms come in: the doors of firms, and the port.
#[derive(Drop)]
pub struct FirmWays<P, D> {
    pub(crate) port: Option<Door<P>>,
    pub(crate) doors: Vec<Door<D>>,
    /// Whose turn it is: the door's of this number, or past the last the port's.
    turn: usize,
}

impl<P, D> FirmWays<P, D> {
    /// Creates the ways of this port, if it is open, and of these doors.
    pub fn new(port: Option<Door<P>>, doors: Vec<Door<D>>) -> Self
        ensures port { result.port ≡ port }
        ensures doors { result.doors ≡ doors }
    {
        FirmWays {
            port,
            doors,
            turn: 0,
        }
    }

    /// Notes that a connection may be waiting at the port, if it is open.
    pub fn note_port(&mut self)
        ensures listeners { KeepsListeners self.old self.new }
        ensures due { is_way_due self.old ≡ true → is_way_due self.new ≡ true }
    {
        if let Some(port) = &mut self.port {
            port.note();
        }
    }

    /// Notes that a connection may be waiting at the door of this number, if there is one.
    pub fn note_door(&mut self, number: usize)
        ensures listeners { KeepsListeners self.old self.new }
        ensures noted { IfSome (slice_get self.new.doors.items number) (λ door. door.is_due ≡ true) }
        ensures due { is_way_due self.old ≡ true → is_way_due self.new ≡ true }
    {
        if number < self.doors.len() {
            self.doors[number].note();
        }
    }

    /// Returns whether a connection may be waiting at any.
    pub fn is_due(&self) -> bool
        ensures { result ≡ is_way_due self.now }
    {
        if let Some(port) = &self.port
            && port.is_due()
        {
            return true;
        }
        for door in &self.doors {
            if door.is_due() {
                return true;
            }
        }
        false
    }
}

impl<P: Drop, D: Drop> FirmWays<P, D> {
    /// Closes them.
    pub fn close(&mut self)
        ensures { is_open self.new ≡ false }
    {
        self.port = None;
        self.doors.clear();
    }
}

impl<P: Listens, D: Listens> FirmWays<P, D> {
    /// Accepts a connection at the port, if it is open.
    fn accept_at_port(&mut self) -> io::Result<Option<Arrival<P::Accepted, D::Accepted>>>
        ensures listeners { KeepsListeners self.old self.new }
        ensures came { IfOk result (λ who. IfSome who (CameIn P.accepts D.accepts self.old)) }
        ensures failed { OnErr result (is_way_due self.new ≡ true) }
    {
        let Some(port) = &mut self.port else {
            return Ok(None);
        };
        match port.accept()? {
            Some(accepted) => Ok(Some(Arrival::ByPort(accepted))),
            None => Ok(None),
        }
    }

    /// Accepts a connection at the door with this number.
    fn accept_at_door(
        &mut self,
        number: usize,
    ) -> io::Result<Option<Arrival<P::Accepted, D::Accepted>>>
        requires { number < length self.old.doors.items }
        ensures listeners { KeepsListeners self.old self.new }
        ensures came { IfOk result (λ who. IfSome who (CameIn P.accepts D.accepts self.old)) }
        ensures failed { OnErr result (is_way_due self.new ≡ true) }
    {
        match self.doors[number].accept()? {
            Some(accepted) => Ok(Some(Arrival::ByDoor(number, accepted))),
            None => Ok(None),
        }
    }

    /// Accepts a connection at the door with this number, or at the port if there is no such door.
    fn accept_at(&mut self, place: usize) -> io::Result<Option<Arrival<P::Accepted, D::Accepted>>>
        ensures listeners { KeepsListeners self.old self.new }
        ensures came { IfOk result (λ who. IfSome who (CameIn P.accepts D.accepts self.old)) }
        ensures failed { OnErr result (is_way_due self.new ≡ true) }
    {
        if place < self.doors.len() {
            self.accept_at_door(place)
        } else {
            self.accept_at_port()
        }
    }

    /// Accepts a connection at the first of these places at which one waits. The next turn begins after that place.
    fn accept_among(
        &mut self,
        from: usize,
        end: usize,
    ) -> io::Result<Option<Arrival<P::Accepted, D::Accepted>>>
        ensures listeners { KeepsListeners self.old self.new }
        ensures came { IfOk result (λ who. IfSome who (CameIn P.accepts D.accepts self.old)) }
        ensures failed { OnErr result (is_way_due self.new ≡ true) }
    {
        for place in from..end {
            match self.accept_at(place) {
                Ok(None) => {}
                accepted => {
                    self.turn = place.saturating_add(1);
                    return accepted;
                }
            }
        }
        Ok(None)
    }

    /// Accepts a connection, if one is waiting: at the first way in turn at which one is. A way that was served, or at which an accept
    /// failed, is the last in turn then.
    pub fn accept(&mut self) -> io::Result<Option<Arrival<P::Accepted, D::Accepted>>>
        ensures listeners { KeepsListeners self.old self.new }
        ensures came { IfOk result (λ who. IfSome who (CameIn P.accepts D.accepts self.old)) }
        ensures closed { is_open self.old ≡ false → result ≡ Ok None }
        ensures failed { OnErr result (is_way_due self.new ≡ true) }
    {
        let turn = self.turn;
        let end = self.doors.len().saturating_add(1);
        match self.accept_among(turn, end)? {
            Some(arrival) => Ok(Some(arrival)),
            None => self.accept_among(0, turn),
        }
    }
}
