//! The seats of a day, and the threads that hold some of them.

ghost use Rattle.std.specs.Prelude.{◌≡◌, ◌↔◌, ◌+◌, ◌<◌, ◌≤◌, [], ◌∷◌, ◌++◌, vec_capacity, vec_len, IfSome, IfNone, IsSome, OnOk};

use crossbeam_channel::Sender;
use gu_desk::{EntryLedger, LotLedger};
use gu_houses::SeatReceipts;
use std::alloc::{AllocError, Global};
use std::sync::Wait;
use std::thread::{JoinHandle, Threads};

/// A thread that hands back its seat, or nothing if it was never given one.
pub type Seated<E, S> = JoinHandle<Option<SeatReceipts<E, S>>>;

/// The seats that no thread holds, and the threads. There is room to take back the seat of every thread.
#[derive(Drop)]
pub struct Crew<E: EntryLedger, S: LotLedger> {
    seats: Vec<SeatReceipts<E, S>>,
    threads: Vec<Seated<E, S>>,
    ghost room: { vec_len seats + vec_len threads ≤ vec_capacity seats },
}

impl<E: EntryLedger, S: LotLedger> Crew<E, S> {
    /// Creates a crew with these seats and no thread.
    pub fn new(alloc: Global, seats: Vec<SeatReceipts<E, S>>) -> Self
        ensures seats { result.seats.items ≡ seats.items }
        ensures threads { result.threads.items ≡ [] }
    {
        Crew {
            seats,
            threads: Vec::new(alloc),
        }
    }

    /// Returns how many seats no thread holds.
    pub fn idle(&self) -> usize
        ensures { result ≡ vec_len self.now.seats }
    {
        self.seats.len()
    }

    /// Makes room for one more thread, and for the seat that it will hand back.
    pub fn reserve(&mut self) -> Result<(), AllocError>
        ensures room { OnOk result ((vec_len self.new.threads < vec_capacity self.new.threads)
            × (vec_len self.new.seats + vec_len self.new.threads < vec_capacity self.new.seats)) }
        ensures seats { self.new.seats.items ≡ self.old.seats.items }
        ensures threads { self.new.threads.items ≡ self.old.threads.items }
    {
        self.threads.reserve(1)?;
        self.seats.reserve(self.threads.len() + 1)
    }

    /// Adds a thread. Room for it was made by `reserve`.
    pub fn add(&mut self, thread: Seated<E, S>)
        requires thread { vec_len self.old.threads < vec_capacity self.old.threads }
        requires seat { vec_len self.old.seats + vec_len self.old.threads < vec_capacity self.old.seats }
        ensures seats { self.new.seats.items ≡ self.old.seats.items }
        ensures threads { self.new.threads.items ≡ self.old.threads.items ++ thread ∷ [] }
    {
        self.threads.push_reserved(thread);
    }

    /// Takes a seat for a thread. There is room here to take it back.
    pub fn take_seat(&mut self) -> Option<SeatReceipts<E, S>>
        ensures some { IsSome result ↔ (0 < vec_len self.old.seats) }
        ensures seat { IfSome result (λ seat. self.old.seats.items ≡ self.new.seats.items ++ seat ∷ []) }
        ensures none { IfNone result (self.new.seats.items ≡ self.old.seats.items) }
        ensures threads { self.new.threads.items ≡ self.old.threads.items }
        ensures room { IsSome result → vec_len self.new.seats + vec_len self.new.threads < vec_capacity self.new.seats }
    {
        self.seats.pop()
    }

    /// Puts back a seat that no thread was given.
    pub fn put_back(&mut self, seat: SeatReceipts<E, S>)
        requires { vec_len self.old.seats + vec_len self.old.threads < vec_capacity self.old.seats }
        ensures seats { self.new.seats.items ≡ self.old.seats.items ++ seat ∷ [] }
        ensures threads { self.new.threads.items ≡ self.old.threads.items }
    {
        self.seats.push_reserved(seat);
    }

    /// Gives a free seat, if there is one, to a thread that waits for it. A seat that can't be given is put back.
    pub fn give_seat<R: Wait>(
        &mut self,
        rt: &R,
        to: &Sender<SeatReceipts<E, S>>,
    ) -> Result<(), AllocError>
        ensures { self.new.threads.items ≡ self.old.threads.items }
    {
        let Some(seat) = self.take_seat() else {
            return Ok(());
        };
        match to.send(rt, seat) {
            Ok(()) => Ok(()),
            Err(refused) => {
                self.put_back(refused.into_inner());
                Err(AllocError)
            }
        }
    }

    /// Waits for the threads to end, and returns all seats.
    pub fn join<R: Threads>(self, rt: &R) -> Vec<SeatReceipts<E, S>> {
        let Crew {
            mut seats,
            mut threads,
        } = self;
        while let Some(thread) = threads.pop() {
            if let Some(seat) = thread.join(rt) {
                seats.push_reserved(seat);
            }
        }
        seats
    }
}
