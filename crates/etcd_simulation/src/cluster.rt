//! A model of etcd: a log, a key for the desk that leads, with its lease, and requests that come late.
use gu_etcd::PutAnswer;
use std::alloc::{AllocError, Global};
use std::mem;

/// How long a lease lasts, in milliseconds of true time.
pub const LEASE_MS: u64 = 3_000;

/// One of the two machines.
#[derive(Clone, Copy, Debug, PartialEq, Eq)]
pub enum Seat {
    A,
    B,
}

impl Seat {
    /// Returns the other machine.
    pub fn other(self) -> Seat {
        match self {
            Seat::A => Seat::B,
            Seat::B => Seat::A,
        }
    }
}

/// A desk, under a name that no desk had before: how often its machine has tried to lead.
#[derive(Clone, Copy, Debug, PartialEq, Eq)]
pub struct DeskId {
    pub seat: Seat,
    pub term: u64,
}

impl DeskId {
    /// Returns the desk's name.
    pub fn name(self, alloc: Global) -> Result<String, AllocError> {
        let term = self.term;
        match self.seat {
            Seat::A => format!(in alloc; "A-{term}"),
            Seat::B => format!(in alloc; "B-{term}"),
        }
    }
}

/// The transaction that puts an entry at a number, if it is free and the desk leads.
#[derive(Drop)]
pub struct Question {
    pub desk: DeskId,
    pub number: u64,
    pub entry: Vec<u8>,
}

impl Question {
    /// Copies it.
    pub fn copied(&self, alloc: Global) -> Result<Question, AllocError> {
        Ok(Question {
            desk: self.desk,
            number: self.number,
            entry: Vec::from_slice(alloc, &self.entry)?,
        })
    }
}

/// An entry in the log, and its number.
#[derive(Drop)]
pub struct Numbered {
    pub number: u64,
    pub entry: Vec<u8>,
}

/// The transaction by which a desk takes the leadership from the desk that was seen to lead, if that one still does, and the number is free.
#[derive(Clone, Copy, Debug, PartialEq, Eq)]
pub struct Claim {
    pub desk: DeskId,
    pub former: DeskId,
    pub number: u64,
}

/// A question that is still on its way.
#[derive(Drop)]
struct LateQuestion {
    due_ms: u64,
    question: Question,
}

/// A claim that is still on its way.
#[derive(Clone, Copy)]
struct LateClaim {
    due_ms: u64,
    claim: Claim,
}

/// The desk that leads, when its lease ends, and whether it claimed the leadership from another one.
#[derive(Clone, Copy)]
struct Leadership {
    desk: DeskId,
    ends_ms: u64,
    is_claimed: bool,
}

/// etcd, at a moment of true time.
#[derive(Drop)]
pub struct Cluster {
    alloc: Global,
    now_ms: u64,
    /// The entries, in the order in which they were put.
    pub log: Vec<Numbered>,
    leadership: Option<Leadership>,
    late: Vec<LateQuestion>,
    late_claims: Vec<LateClaim>,
    /// How many late questions were carried out.
    pub arrived: u64,
}

impl Cluster {
    /// Creates an etcd with an empty log, which no desk leads.
    pub fn new(alloc: Global) -> Self {
        Cluster {
            alloc,
            now_ms: 0,
            log: Vec::new(alloc),
            leadership: None,
            late: Vec::new(alloc),
            late_claims: Vec::new(alloc),
            arrived: 0,
        }
    }

    /// Returns the desk that leads.
    pub fn leader(&self) -> Option<DeskId> {
        match self.leadership {
            Some(leadership) => Some(leadership.desk),
            None => None,
        }
    }

    /// Returns whether the desk that leads claimed the leadership from another one.
    pub fn is_claimed(&self) -> bool {
        match self.leadership {
            Some(leadership) => leadership.is_claimed,
            None => false,
        }
    }

    /// Goes on for some time, in which a lease may end and what is late may come.
    pub fn pass(&mut self, ms: u64) -> Result<(), AllocError> {
        self.now_ms = self.now_ms.saturating_add(ms);
        if let Some(leadership) = self.leadership
            && leadership.ends_ms <= self.now_ms
        {
            self.leadership = None;
        }
        self.deliver()
    }

    /// Carries out what is due.
    fn deliver(&mut self) -> Result<(), AllocError> {
        let late = mem::replace(&mut self.late, Vec::new(self.alloc));
        for one in late {
            if one.due_ms <= self.now_ms {
                self.arrived = self.arrived.saturating_add(1);
                let _ = self.put(&one.question)?;
            } else {
                self.late.push(one)?;
            }
        }
        let late_claims = mem::replace(&mut self.late_claims, Vec::new(self.alloc));
        for one in &late_claims {
            if one.due_ms <= self.now_ms {
                self.arrived = self.arrived.saturating_add(1);
                let _ = self.claim(one.claim);
            } else {
                self.late_claims.push(*one)?;
            }
        }
        Ok(())
    }

    /// Has a claim come late.
    pub fn delay_claim(&mut self, claim: Claim, ms: u64) -> Result<(), AllocError> {
        self.late_claims.push(LateClaim {
            due_ms: self.now_ms.saturating_add(ms),
            claim,
        })?;
        Ok(())
    }

    /// Has a question come late.
    pub fn delay(&mut self, question: Question, ms: u64) -> Result<(), AllocError> {
        self.late.push(LateQuestion {
            due_ms: self.now_ms.saturating_add(ms),
            question,
        })?;
        Ok(())
    }

    /// Returns the entry at a number.
    pub fn entry_at(&self, number: u64) -> Option<&Vec<u8>> {
        let numbered = self.log.iter().find(|one| one.number == number)?;
        Some(&numbered.entry)
    }

    /// Carries out the transaction that puts an entry.
    pub fn put(&mut self, question: &Question) -> Result<PutAnswer, AllocError> {
        if let Some(there) = self.entry_at(question.number) {
            return Ok(PutAnswer::Holds(Vec::from_slice(self.alloc, there)?));
        }
        if self.leader() != Some(question.desk) {
            return Ok(PutAnswer::NotLeading);
        }
        let entry = Vec::from_slice(self.alloc, &question.entry)?;
        self.log.push(Numbered {
            number: question.number,
            entry,
        })?;
        Ok(PutAnswer::Kept)
    }

    /// Returns how many entries there are at the numbers from 1 on, with none left out.
    pub fn count(&self) -> u64 {
        let mut count = 0_u64;
        for _ in &self.log {
            if self.entry_at(count.saturating_add(1)).is_some() {
                count = count.saturating_add(1);
            }
        }
        count
    }

    /// Carries out the transaction by which a desk takes the leadership, and returns whether it leads.
    pub fn lead(&mut self, desk: DeskId) -> bool {
        if self.leadership.is_none() {
            self.leadership = Some(Leadership {
                desk,
                ends_ms: self.now_ms.saturating_add(LEASE_MS),
                is_claimed: false,
            });
        }
        self.leader() == Some(desk)
    }

    /// Carries out the transaction by which a desk claims the leadership, and returns whether it leads.
    pub fn claim(&mut self, claim: Claim) -> bool {
        if self.leader() == Some(claim.former) && self.entry_at(claim.number).is_none() {
            self.leadership = Some(Leadership {
                desk: claim.desk,
                ends_ms: self.now_ms.saturating_add(LEASE_MS),
                is_claimed: true,
            });
        }
        self.leader() == Some(claim.desk)
    }

    /// Has a desk's lease go on, and returns whether it does.
    pub fn keep_alive(&mut self, desk: DeskId) -> bool {
        let Some(leadership) = self.leadership else {
            return false;
        };
        if leadership.desk != desk {
            return false;
        }
        self.leadership = Some(Leadership {
            ends_ms: self.now_ms.saturating_add(LEASE_MS),
            ..leadership
        });
        true
    }
}
