//! The ways of the product's appender to the model.

ghost use Rattle.std.specs.Prelude.{[]};

use crate::cluster::{Question, Seat};
use crate::schedules::go_on;
use crate::world::World;
use gu_etcd::{Node, NodeError, PutAnswer};
use std::alloc::{AllocError, Global};

/// A desk's way to etcd, with nobody else on it.
#[derive(Drop)]
pub struct Way<'a> {
    pub world: &'a mut World,
    pub seat: Seat,
}

/// A desk's way to etcd, on which the other desk goes on while this one waits.
#[derive(Drop)]
pub struct BusyWay<'a> {
    pub world: &'a mut World,
    pub seat: Seat,
}

/// Returns the question of a desk.
fn question_of(
    world: &World,
    seat: Seat,
    number: u64,
    entry: &[u8],
) -> Result<Question, AllocError> {
    Ok(Question {
        desk: world.desk(seat).id,
        number,
        entry: Vec::from_slice(world.alloc, entry)?,
    })
}

/// No contract says what the model does: it is never honest to a contract.
impl Node for Way<'_> {
    ghost is_honest = { λ _. ⊥ };

    ghost leader = { λ _. [] };

    ghost known = { λ _. [] };

    ghost may_hold = { λ _ _. ⊥ };

    ghost moment = { λ _. 0 };

    ghost held_since = { λ _ _ _. ⊥ };

    ghost counts = { record { failures = λ _. 0; refusals = λ _. 0; shortages = λ _. 0 } };

    ghost only_now = { λ _ _ held. held };

    fn put(&mut self, _alloc: Global, number: u64, entry: &[u8]) -> Result<PutAnswer, NodeError> {
        let question = question_of(self.world, self.seat, number, entry)?;
        self.world.carry(question)
    }
}

/// Nor of this one.
impl Node for BusyWay<'_> {
    ghost is_honest = { λ _. ⊥ };

    ghost leader = { λ _. [] };

    ghost known = { λ _. [] };

    ghost may_hold = { λ _ _. ⊥ };

    ghost moment = { λ _. 0 };

    ghost held_since = { λ _ _ _. ⊥ };

    ghost counts = { record { failures = λ _. 0; refusals = λ _. 0; shortages = λ _. 0 } };

    ghost only_now = { λ _ _ held. held };

    fn put(&mut self, _alloc: Global, number: u64, entry: &[u8]) -> Result<PutAnswer, NodeError> {
        let question = question_of(self.world, self.seat, number, entry)?;
        go_on(self.world, self.seat.other())?;
        let answer = self.world.carry(question)?;
        go_on(self.world, self.seat.other())?;
        Ok(answer)
    }
}
