//! A desk as it asks an etcd for the lead.

ghost use Rattle.std.specs.Prelude.{◌≡◌, ◌<◌};

use gu_etcd::{
    Exchange, GRANT_PATH, Granted, KEEP_ALIVE_PATH, LeadAnswer, Name, NodeError, PutAnswer,
    REVOKE_PATH, TXN_PATH, claim_text, grant_text, keep_alive_text, lead_text, leads_text,
    read_alive, read_granted, read_lead, read_put,
};
use std::alloc::Global;

/// A desk as it asks an etcd for the lead over a log, under a name that no desk had before. After a question that got no answer, or none
/// that can be read, the next one goes to the next endpoint.
#[derive(Drop)]
pub struct Candidate<X: Exchange> {
    exchange: X,
    endpoints: usize,
    endpoint: usize,
    log: Name,
    desk: Name,
    ghost within: { endpoint < endpoints },
}

impl<X: Exchange> Candidate<X> {
    /// Creates a candidate for the lead over the log with a name, at an etcd with this number of endpoints.
    pub fn new(exchange: X, endpoints: usize, log: Name, desk: Name) -> Self
        requires { 0 < endpoints }
        ensures exchange { result.exchange ≡ exchange }
        ensures endpoint { result.endpoint ≡ 0 }
        ensures log { result.log ≡ log }
        ensures desk { result.desk ≡ desk }
    {
        Candidate {
            exchange,
            endpoints,
            endpoint: 0,
            log,
            desk,
        }
    }

    /// Returns the exchange, to look at.
    pub fn exchange(&self) -> &X
        ensures { result.now ≡ self.now.exchange }
    {
        &self.exchange
    }

    /// Returns how many endpoints there are.
    pub fn endpoints(&self) -> usize
        ensures { result ≡ self.now.endpoints }
    {
        self.endpoints
    }

    /// Returns the name under which it asks.
    pub fn desk(&self) -> &[u8]
        ensures { result.now ≡ self.now.desk }
    {
        self.desk.as_bytes()
    }

    /// Goes on to the next endpoint, and to the first one after the last.
    fn turn_on(&mut self)
        ensures log { self.new.log ≡ self.old.log }
        ensures desk { self.new.desk ≡ self.old.desk }
    {
        self.endpoint = if self.endpoint + 1 < self.endpoints {
            self.endpoint + 1
        } else {
            0
        };
    }

    /// Returns this answer. If there is none, or none that can be read, the next question goes to the next endpoint.
    fn after<T>(&mut self, answer: Result<T, NodeError>) -> Result<T, NodeError>
        ensures answer { result ≡ answer }
        ensures log { self.new.log ≡ self.old.log }
        ensures desk { self.new.desk ≡ self.old.desk }
    {
        if matches!(&answer, Err(NodeError::Unanswered)) {
            self.turn_on();
        }
        answer
    }

    /// Returns the body of the answer to a question, which is asked once.
    fn ask(&mut self, alloc: Global, path: &str, body: &str) -> Result<Vec<u8>, NodeError>
        ensures log { self.new.log ≡ self.old.log }
        ensures desk { self.new.desk ≡ self.old.desk }
    {
        self.exchange.post(alloc, self.endpoint, path, body)
    }

    /// Returns what the answer to a transaction about the leadership says.
    fn ask_lead(&mut self, alloc: Global, body: &str) -> Result<LeadAnswer, NodeError>
        ensures log { self.new.log ≡ self.old.log }
        ensures desk { self.new.desk ≡ self.old.desk }
    {
        let heard = match self.ask(alloc, TXN_PATH, body) {
            Ok(answer) => read_lead(alloc, &answer),
            Err(error) => Err(error),
        };
        self.after(heard)
    }

    /// Asks for a lease of some seconds.
    pub fn grant(&mut self, alloc: Global, seconds: u64) -> Result<Granted, NodeError>
        ensures log { self.new.log ≡ self.old.log }
        ensures desk { self.new.desk ≡ self.old.desk }
    {
        let body = grant_text(alloc, seconds)?;
        let heard = match self.ask(alloc, GRANT_PATH, &body) {
            Ok(answer) => read_granted(alloc, &answer),
            Err(error) => Err(error),
        };
        self.after(heard)
    }

    /// Asks for the lead by a lease: the desk has it if no other one has.
    pub fn lead(&mut self, alloc: Global, lease: u64) -> Result<LeadAnswer, NodeError>
        ensures log { self.new.log ≡ self.old.log }
        ensures desk { self.new.desk ≡ self.old.desk }
    {
        let body = lead_text(alloc, self.log.as_bytes(), self.desk.as_bytes(), lease)?;
        self.ask_lead(alloc, &body)
    }

    /// Claims the lead by a lease from the desk of another name: the desk has it if that one still led, and the log had no entry at this
    /// number.
    pub fn claim(
        &mut self,
        alloc: Global,
        lease: u64,
        former: &[u8],
        number: u64,
    ) -> Result<LeadAnswer, NodeError>
        ensures log { self.new.log ≡ self.old.log }
        ensures desk { self.new.desk ≡ self.old.desk }
    {
        let (log, desk) = (self.log.as_bytes(), self.desk.as_bytes());
        let body = claim_text(alloc, log, desk, lease, former, number)?;
        self.ask_lead(alloc, &body)
    }

    /// Asks whether the desk leads.
    pub fn leads(&mut self, alloc: Global) -> Result<bool, NodeError>
        ensures log { self.new.log ≡ self.old.log }
        ensures desk { self.new.desk ≡ self.old.desk }
    {
        let body = leads_text(alloc, self.log.as_bytes(), self.desk.as_bytes())?;
        let heard = match self.ask(alloc, TXN_PATH, &body) {
            Ok(answer) => read_put(alloc, &answer),
            Err(error) => Err(error),
        };
        let answer = self.after(heard)?;
        Ok(matches!(answer, PutAnswer::Kept))
    }

    /// Gives a lease back, so that another desk can lead at once.
    pub fn revoke(&mut self, alloc: Global, lease: u64) -> Result<(), NodeError>
        ensures log { self.new.log ≡ self.old.log }
        ensures desk { self.new.desk ≡ self.old.desk }
    {
        let body = keep_alive_text(alloc, lease)?;
        let heard = self.ask(alloc, REVOKE_PATH, &body);
        drop(self.after(heard)?);
        Ok(())
    }

    /// Asks that a lease goes on. Returns for how many seconds it does, or nothing if it has ended.
    pub fn keep_alive(&mut self, alloc: Global, lease: u64) -> Result<Option<u64>, NodeError>
        ensures log { self.new.log ≡ self.old.log }
        ensures desk { self.new.desk ≡ self.old.desk }
    {
        let body = keep_alive_text(alloc, lease)?;
        let heard = match self.ask(alloc, KEEP_ALIVE_PATH, &body) {
            Ok(answer) => read_alive(alloc, &answer),
            Err(error) => Err(error),
        };
        self.after(heard)
    }
}
