//! A desk that tries to take the lead, to which one thing happens at each try.

use crate::etcd::Etcd;
use gu_etcd::NodeError;
use gu_standby::{Attendance, Challenge, Follower, LeadAnswer, Succession, Wish};
use std::alloc::Global;

/// What happens at a try to take the lead, or at a claim to it.
#[derive(Clone, Copy, Debug, PartialEq, Eq)]
pub enum Try {
    /// Another desk leads, and appends this batch just before, if it isn't empty. A claim is made good then, if the log hasn't grown.
    IsLed(&'static str),
    /// The desk that led appends this batch, if it isn't empty, and then this desk leads.
    Leads(&'static str),
    /// A third desk has taken the lead, which refuses a claim.
    Moved,
    /// No answer comes.
    Unanswered,
    /// No answer comes to this try, nor to this many questions after it.
    Silence(u32),
}

/// A desk that tries to take the lead.
#[derive(Drop)]
pub struct Heir<'a> {
    pub etcd: &'a Etcd,
    /// What is still to happen.
    pub tries: &'a [Try],
    /// How many pauses without an answer it makes.
    pub patience: u32,
    /// How many pauses it has made.
    pub pauses: u32,
}

impl Heir<'_> {
    /// Returns what happens at the next try.
    fn next(&mut self) -> Option<Try> {
        let [first, rest @ ..] = self.tries else {
            return None;
        };
        self.tries = rest;
        Some(*first)
    }

    /// Appends a batch, if it isn't empty.
    fn append(&self, alloc: Global, batch: &str) -> Result<(), NodeError> {
        if !batch.is_empty() {
            self.etcd.append(alloc, batch)?;
        }
        Ok(())
    }
}

impl Succession for Heir<'_> {
    /// How many pauses there were before it.
    type Lead = u32;

    type Claim = ();

    fn try_lead(&mut self, alloc: Global) -> Result<Challenge<u32, ()>, NodeError> {
        match self.next() {
            None | Some(Try::Moved) => Ok(Challenge::IsLed(())),
            Some(Try::IsLed(batch)) => {
                self.append(alloc, batch)?;
                Ok(Challenge::IsLed(()))
            }
            Some(Try::Leads(batch)) => {
                self.append(alloc, batch)?;
                Ok(Challenge::Leads(self.pauses))
            }
            Some(Try::Unanswered) => Err(NodeError::Unanswered),
            Some(Try::Silence(questions)) => {
                self.etcd.unanswered.set(questions);
                Err(NodeError::Unanswered)
            }
        }
    }

    fn claim(
        &mut self,
        alloc: Global,
        _claim: &mut (),
        number: u64,
    ) -> Result<Option<u32>, NodeError> {
        match self.next() {
            Some(Try::IsLed(batch) | Try::Leads(batch)) => {
                self.append(alloc, batch)?;
                let is_next = number.checked_sub(1) == Some(self.etcd.count() as u64);
                Ok(if is_next { Some(self.pauses) } else { None })
            }
            None | Some(Try::Moved) => Ok(None),
            Some(Try::Unanswered) => Err(NodeError::Unanswered),
            Some(Try::Silence(questions)) => {
                self.etcd.unanswered.set(questions);
                Err(NodeError::Unanswered)
            }
        }
    }

    fn goes_on(&mut self, is_answered: bool) -> bool {
        self.pauses = self.pauses.saturating_add(1);
        if is_answered {
            return true;
        }
        self.patience = self.patience.saturating_sub(1);
        self.patience > 0
    }
}

/// Operators who wish something of a desk that follows, or nothing, one after another.
#[derive(Drop)]
pub struct Wishers<'a> {
    /// What is still to be wished.
    pub wishes: &'a [Option<Wish>],
    /// What the last wish for the lead was answered.
    pub answer: Option<LeadAnswer>,
    /// How many answers there were.
    pub answers: u32,
}

impl Attendance for Wishers<'_> {
    fn attend(&mut self, _follower: &Follower, _milliseconds: u64) -> Option<Wish> {
        let [first, rest @ ..] = self.wishes else {
            return None;
        };
        self.wishes = rest;
        *first
    }

    fn answer_lead(&mut self, answer: LeadAnswer) {
        self.answer = Some(answer);
        self.answers = self.answers.saturating_add(1);
    }
}
