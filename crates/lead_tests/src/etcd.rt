//! An etcd that answers one question after another, as is written down.
use gu_etcd::{Exchange, Name, NodeError};
use gu_lead::Candidate;
use std::alloc::{AllocError, Global};

/// A question that is expected, and its answer.
#[derive(Clone, Copy)]
pub struct Turn {
    pub endpoint: usize,
    pub path: &'static str,
    /// What its body has in it.
    pub says: &'static str,
    /// The body of the answer, if one comes.
    pub answer: Option<&'static str>,
}

/// An etcd with the turns to come.
#[derive(Drop)]
pub struct Etcd<'a> {
    turns: &'a [Turn],
    /// How many questions came that weren't expected.
    pub strange: usize,
}

impl<'a> Etcd<'a> {
    /// Creates an etcd with these turns to come.
    pub fn new(turns: &'a [Turn]) -> Self {
        Etcd { turns, strange: 0 }
    }

    /// Returns whether each question was the one expected, and all of them came.
    pub fn is_done(&self) -> bool {
        self.turns.is_empty() && self.strange == 0
    }
}

impl Exchange for Etcd<'_> {
    fn post(
        &mut self,
        alloc: Global,
        endpoint: usize,
        path: &str,
        body: &str,
    ) -> Result<Vec<u8>, NodeError> {
        let [turn, rest @ ..] = self.turns else {
            self.strange = self.strange.saturating_add(1);
            return Err(NodeError::Unanswered);
        };
        let is_expected = turn.endpoint == endpoint
            && turn.path == path
            && body.contains(turn.says);
        if !is_expected {
            self.strange = self.strange.saturating_add(1);
        }
        self.turns = rest;
        match turn.answer {
            Some(answer) => Ok(Vec::from_slice(alloc, answer.as_bytes())?),
            None => Err(NodeError::Unanswered),
        }
    }
}

/// Returns a text as a name, if it is one.
pub fn name_of(alloc: Global, text: &str) -> Result<Option<Name>, AllocError> {
    Ok(Name::new(Vec::from_slice(alloc, text.as_bytes())?))
}

/// Returns desk-A as a candidate for the lead over the log DAY, at an etcd with three endpoints and these turns.
pub fn candidate<'a>(
    alloc: Global,
    turns: &'a [Turn],
) -> Result<Option<Candidate<Etcd<'a>>>, AllocError> {
    let (Some(log), Some(desk)) = (name_of(alloc, "DAY")?, name_of(alloc, "desk-A")?) else {
        return Ok(None);
    };
    Ok(Some(Candidate::new(Etcd::new(turns), 3, log, desk)))
}
