//! Two desks, an etcd, and what comes between them.
use crate::cluster::{Claim, Cluster, DeskId, LEASE_MS, Question, Seat};
use crate::desk::{Desk, MARGIN_MS, Trouble};
use gu_etcd::{NodeError, PutAnswer};
use gu_lease::{Lease, Moment};
use rand_core::utils::NextWord;
use rand_pcg::Pcg32;
use std::alloc::{AllocError, Global};

/// What a schedule may show to be wrong.
#[derive(Clone, Copy, Debug, PartialEq, Eq)]
pub enum Fault {
    /// A desk's gate let an answer leave, though another desk led that didn't claim the lead, or that had let something leave already.
    AnsweredAfterTheFence,
    /// An entry that was acknowledged isn't at its number.
    AcknowledgedAndLost,
    /// An entry is in the log twice.
    PutTwice,
    /// The log leaves a number out.
    LeftANumberOut,
}

/// What came up in schedules, to see that they try what they are for.
#[derive(Clone, Copy, Debug, Default, PartialEq, Eq)]
pub struct Coverage {
    pub acknowledged: u64,
    pub fenced: u64,
    pub unanswered: u64,
    pub late: u64,
    pub answers: u64,
    pub refused_answers: u64,
    /// How often a desk had a lease by its own book, though another desk led.
    pub two_leaders: u64,
    pub takeovers: u64,
    /// How often a desk claimed the lead from another one.
    pub claims: u64,
    /// How often a claim was refused.
    pub stale_claims: u64,
    /// How often an answer left after another desk had claimed the lead, which didn't serve yet.
    pub late_answers: u64,
}

/// What a desk saw that claims the lead: when it asked, who leads, and how many entries there are.
#[derive(Clone, Copy)]
pub struct Sight {
    asked: Moment,
    former: DeskId,
    count: u64,
}

/// An entry that a desk knows to be kept, at its number.
#[derive(Drop)]
pub struct Acknowledged {
    pub number: u64,
    pub entry: Vec<u8>,
}

/// Two machines and an etcd.
#[derive(Drop)]
pub struct World {
    pub alloc: Global,
    random: Pcg32,
    pub cluster: Cluster,
    a: Desk,
    b: Desk,
    acknowledged: Vec<Acknowledged>,
    /// The last desk, of those that came to lead one after another, that let something leave.
    speaker: Option<DeskId>,
    pub fault: Option<Fault>,
    pub coverage: Coverage,
}

impl World {
    /// Creates the world of a seed.
    pub fn new(alloc: Global, seed: u64) -> Self {
        let mut random = Pcg32::new(seed, 54);
        let a = random_desk(&mut random, Seat::A);
        let b = random_desk(&mut random, Seat::B);
        World {
            alloc,
            random,
            cluster: Cluster::new(alloc),
            a,
            b,
            acknowledged: Vec::new(alloc),
            speaker: None,
            fault: None,
            coverage: Coverage::default(),
        }
    }

    /// Draws a number below a bound, and 0 if the bound is 0.
    pub fn draw(&mut self, bound: u32) -> u32 {
        drawn(&mut self.random, bound)
    }

    /// Returns a machine.
    pub fn desk(&self, seat: Seat) -> Desk {
        match seat {
            Seat::A => self.a,
            Seat::B => self.b,
        }
    }

    /// Sets what a machine is like now.
    pub fn set_desk(&mut self, desk: Desk) {
        match desk.id.seat {
            Seat::A => self.a = desk,
            Seat::B => self.b = desk,
        }
    }

    /// Goes on for some time.
    pub fn pass(&mut self, ms: u32) -> Result<(), AllocError> {
        let ms = u64::from(ms);
        self.a.pass(ms);
        self.b.pass(ms);
        self.cluster.pass(ms)
    }

    /// Remembers what is wrong, the first time.
    fn find(&mut self, fault: Fault) {
        if self.fault.is_none() {
            self.fault = Some(fault);
        }
    }

    /// Carries the question of a desk to etcd, or loses it, or its answer.
    pub fn carry(&mut self, question: Question) -> Result<PutAnswer, NodeError> {
        let fate = self.draw(8);
        let wait = self.draw(900);
        match fate {
            0 => self.lose(wait),
            1 => {
                let _ = self.cluster.put(&question)?;
                self.lose(wait)
            }
            2 | 3 => {
                let ms = u64::from(self.draw(6_000));
                self.cluster.delay(question, ms)?;
                self.lose(wait)
            }
            4 => {
                let ms = u64::from(self.draw(6_000));
                let copy = question.copied(self.alloc)?;
                self.cluster.delay(copy, ms)?;
                self.answer(&question)
            }
            _ => self.answer(&question),
        }
    }

    /// Has no answer come in time.
    fn lose(&mut self, wait: u32) -> Result<PutAnswer, NodeError> {
        self.coverage.unanswered = self.coverage.unanswered.saturating_add(1);
        self.pass(wait)?;
        Err(NodeError::Unanswered)
    }

    /// Carries a question out, after some time, and answers it, after some more.
    fn answer(&mut self, question: &Question) -> Result<PutAnswer, NodeError> {
        let there = self.draw(40);
        self.pass(there)?;
        let answer = self.cluster.put(question)?;
        let back = self.draw(40);
        self.pass(back)?;
        Ok(answer)
    }

    /// Notes that a desk lets something leave, if it leads.
    fn speak(&mut self, desk: DeskId) {
        if self.cluster.leader() == Some(desk) {
            self.speaker = Some(desk);
        }
    }

    /// Notes that a desk knows an entry to be kept.
    pub fn acknowledge(
        &mut self,
        desk: DeskId,
        number: u64,
        entry: Vec<u8>,
    ) -> Result<(), AllocError> {
        self.speak(desk);
        self.coverage.acknowledged = self.coverage.acknowledged.saturating_add(1);
        self.acknowledged.push(Acknowledged { number, entry })?;
        Ok(())
    }

    /// Has a machine's desk begin anew, under a new name: it takes the leadership, if no desk leads, and then reads the log.
    pub fn lead(&mut self, seat: Seat) -> Result<(), AllocError> {
        let mut desk = self.desk(seat);
        let asked = desk.clocks.moment();
        let there = self.draw(300);
        self.pass(there)?;
        let id = DeskId {
            seat,
            term: desk.id.term.saturating_add(1),
        };
        let leads = self.cluster.lead(id);
        let back = self.draw(300);
        self.pass(back)?;
        desk = self.desk(seat);
        desk.id = id;
        desk.is_stopped = !leads;
        desk.lease = None;
        desk.serves_ms = 0;
        if leads {
            self.coverage.takeovers = self.coverage.takeovers.saturating_add(1);
            desk.lease = Some(Lease::new(asked, LEASE_MS, MARGIN_MS));
            desk.count = self.cluster.count();
        }
        self.set_desk(desk);
        Ok(())
    }

    /// Has a machine look at who leads, and read the log, to claim the lead. If no other desk leads, it takes the lead, and there is nothing to
    /// claim.
    pub fn look_at_leader(&mut self, seat: Seat) -> Result<Option<Sight>, AllocError> {
        let asked = self.desk(seat).clocks.moment();
        let there = self.draw(300);
        self.pass(there)?;
        match self.cluster.leader() {
            Some(former) if former != self.desk(seat).id => Ok(Some(Sight {
                asked,
                former,
                count: self.cluster.count(),
            })),
            Some(_) => Ok(None),
            None => {
                self.lead(seat)?;
                Ok(None)
            }
        }
    }

    /// Carries a claim to etcd, or loses it, or its answer. Returns whether the desk leads by it, if an answer comes.
    fn carry_claim(&mut self, claim: Claim) -> Result<Option<bool>, AllocError> {
        match self.draw(8) {
            0 => Ok(None),
            1 => {
                let _ = self.cluster.claim(claim);
                Ok(None)
            }
            2 => {
                let ms = u64::from(self.draw(6_000));
                self.cluster.delay_claim(claim, ms)?;
                Ok(None)
            }
            3 => {
                let ms = u64::from(self.draw(6_000));
                self.cluster.delay_claim(claim, ms)?;
                Ok(Some(self.cluster.claim(claim)))
            }
            // The answer to the first question got lost.
            4 => {
                let _ = self.cluster.claim(claim);
                Ok(Some(self.cluster.claim(claim)))
            }
            _ => Ok(Some(self.cluster.claim(claim))),
        }
    }

    /// Has a machine's desk begin anew, under a new name: it claims the lead from the desk that it saw, if that still leads and the log hasn't
    /// grown. It serves once that desk's lease has ended.
    pub fn claim(&mut self, seat: Seat, sight: Sight) -> Result<(), AllocError> {
        let mut desk = self.desk(seat);
        let there = self.draw(300);
        self.pass(there)?;
        let id = DeskId {
            seat,
            term: desk.id.term.saturating_add(1),
        };
        let claimed = self.carry_claim(Claim {
            desk: id,
            former: sight.former,
            number: sight.count.saturating_add(1),
        })?;
        let back = self.draw(300);
        self.pass(back)?;
        desk = self.desk(seat);
        desk.id = id;
        desk.is_stopped = true;
        desk.lease = None;
        if claimed == Some(true) {
            self.coverage.claims = self.coverage.claims.saturating_add(1);
            desk.is_stopped = false;
            desk.lease = Some(Lease::new(sight.asked, LEASE_MS, MARGIN_MS));
            desk.count = sight.count;
            desk.serves_ms = desk.clocks.monotonic_ms.saturating_add(LEASE_MS);
        } else if claimed == Some(false) {
            self.coverage.stale_claims = self.coverage.stale_claims.saturating_add(1);
        }
        self.set_desk(desk);
        Ok(())
    }

    /// Has a desk's lease go on.
    pub fn renew(&mut self, seat: Seat) -> Result<(), AllocError> {
        let asked = self.desk(seat).clocks.moment();
        let there = self.draw(300);
        self.pass(there)?;
        let id = self.desk(seat).id;
        let goes_on = self.cluster.keep_alive(id);
        let is_lost = self.draw(4) == 0;
        let back = self.draw(300);
        self.pass(back)?;
        if !is_lost {
            let mut desk = self.desk(seat);
            desk.lease = if goes_on {
                Some(Lease::new(asked, LEASE_MS, MARGIN_MS))
            } else {
                None
            };
            self.set_desk(desk);
        }
        Ok(())
    }

    /// Has a desk answer a question about its book, if its gate lets it.
    pub fn ask(&mut self, seat: Seat) {
        let mut desk = self.desk(seat);
        let is_led_by_another = match self.cluster.leader() {
            Some(leader) => leader != desk.id,
            None => false,
        };
        if is_led_by_another && desk.lease.is_some() {
            self.coverage.two_leaders = self.coverage.two_leaders.saturating_add(1);
        }
        if desk.may_answer() {
            self.coverage.answers = self.coverage.answers.saturating_add(1);
            let is_silent = self.speaker != self.cluster.leader();
            if is_led_by_another && self.cluster.is_claimed() && is_silent {
                self.coverage.late_answers = self.coverage.late_answers.saturating_add(1);
            } else if is_led_by_another {
                self.find(Fault::AnsweredAfterTheFence);
            }
            self.speak(desk.id);
        } else {
            self.coverage.refused_answers = self.coverage.refused_answers.saturating_add(1);
        }
        self.set_desk(desk);
    }

    /// Has something happen to a machine.
    pub fn disturb(&mut self, seat: Seat) {
        let ms = u64::from(self.draw(10_000));
        let is_set_back = self.draw(2) == 0;
        let mut desk = self.desk(seat);
        match desk.trouble {
            Trouble::Sleeps => desk.is_asleep = true,
            Trouble::ClockIsSet if is_set_back => {
                desk.clocks.system_ms = desk.clocks.system_ms.saturating_sub(ms);
            }
            Trouble::ClockIsSet => {
                desk.clocks.system_ms = desk.clocks.system_ms.saturating_add(ms);
            }
        }
        self.set_desk(desk);
    }

    /// Looks at the log once all is over.
    pub fn look(&mut self) {
        self.coverage.late = self.cluster.arrived;
        if self.cluster.count() != self.cluster.log.len() as u64 {
            self.find(Fault::LeftANumberOut);
        }
        if has_one_twice(&self.cluster) {
            self.find(Fault::PutTwice);
        }
        if !has_all(&self.cluster, &self.acknowledged) {
            self.find(Fault::AcknowledgedAndLost);
        }
    }
}

/// Draws a number below a bound, and 0 if the bound is 0.
fn drawn(random: &mut Pcg32, bound: u32) -> u32 {
    let word = random.next_word();
    if bound == 0 { 0 } else { word % bound }
}

/// Draws a machine whose clocks run up to two parts in a hundred wrong.
fn random_desk(random: &mut Pcg32, seat: Seat) -> Desk {
    let rate = u64::from(drawn(random, 41)).saturating_add(980);
    let trouble = if drawn(random, 2) == 0 {
        Trouble::Sleeps
    } else {
        Trouble::ClockIsSet
    };
    Desk::new(seat, rate, trouble)
}

/// Returns whether an entry is in the log twice.
fn has_one_twice(cluster: &Cluster) -> bool {
    cluster.log.iter().any(|one| {
        let same = cluster
            .log
            .iter()
            .filter(|other| other.entry.as_slice() == one.entry.as_slice());
        same.count() > 1
    })
}

/// Returns whether each entry that was acknowledged is at its number.
fn has_all(cluster: &Cluster, acknowledged: &[Acknowledged]) -> bool {
    acknowledged.iter().all(|one| match cluster.entry_at(one.number) {
        Some(there) => there.as_slice() == one.entry.as_slice(),
        None => false,
    })
}
