//! An etcd behind its JSON gateway.

ghost use Rattle.std.specs.Prelude.{◌≡◌, ◌<◌, ◌≤◌, ℕ, List, [], IfOk, IsTrue, length};

use crate::requests::{RANGE_PATH, TXN_PATH, put_text, range_text};
use crate::{LAST_NUMBER, Name, Node, NodeError, PAGE, Page, PutAnswer, read_page, read_put};
use std::alloc::Global;

/// Sends requests to the endpoints of an etcd.
pub trait Exchange: Drop {
    /// Returns the body of an endpoint's answer, if one comes in time, with status 200, and no longer than `MAX_ANSWER`. Nothing of an
    /// earlier answer is in it.
    fn post(
        &mut self,
        alloc: Global,
        endpoint: usize,
        path: &str,
        body: &str,
    ) -> Result<Vec<u8>, NodeError>;
}

/// An etcd behind its JSON gateway. After a question that got no answer, the next one goes to the next endpoint.
#[derive(Drop)]
pub struct Gateway<X: Exchange> {
    exchange: X,
    endpoints: usize,
    endpoint: usize,
    name: Name,
    leader: Name,
    ghost within: { endpoint < endpoints },
}

impl<X: Exchange> Gateway<X> {
    /// Creates the gateway to an etcd with this number of endpoints, for the log with a name. The desk's own name for the
    /// leadership is to be one that no desk had before.
    pub fn new(exchange: X, endpoints: usize, name: Name, leader: Name) -> Self
        requires { 0 < endpoints }
        ensures exchange { result.exchange ≡ exchange }
        ensures endpoint { result.endpoint ≡ 0 }
        ensures name { result.name ≡ name }
        ensures leader { result.leader ≡ leader }
    {
        Gateway {
            exchange,
            endpoints,
            endpoint: 0,
            name,
            leader,
        }
    }

    /// Returns the exchange, to look at.
    pub fn exchange(&self) -> &X
        ensures { result.now ≡ self.now.exchange }
    {
        &self.exchange
    }

    /// Goes on to the next endpoint, and to the first one after the last.
    fn turn_on(&mut self)
        ensures exchange { self.new.exchange ≡ self.old.exchange }
        ensures endpoints { self.new.endpoints ≡ self.old.endpoints }
        ensures name { self.new.name ≡ self.old.name }
        ensures leader { self.new.leader ≡ self.old.leader }
    {
        self.endpoint = if self.endpoint + 1 < self.endpoints {
            self.endpoint + 1
        } else {
            0
        };
    }

    /// Sends the transaction that puts an entry, once.
    fn ask(&mut self, alloc: Global, number: u64, entry: &[u8]) -> Result<PutAnswer, NodeError> {
        let leader = self.leader.as_bytes();
        let body = put_text(alloc, self.name.as_bytes(), leader, number, entry)?;
        let answer = self.exchange.post(alloc, self.endpoint, TXN_PATH, &body)?;
        read_put(alloc, &answer)
    }

    /// Asks for the page of the log that begins at a number, once.
    fn ask_page(&mut self, alloc: Global, number: u64) -> Result<Page, NodeError>
        requires { number ≤ LAST_NUMBER }
        ensures name { self.new.name ≡ self.old.name }
        ensures leader { self.new.leader ≡ self.old.leader }
        ensures goes_on { IfOk result (λ page. IsTrue page.has_more → 0 < length page.entries.items) }
    {
        let body = range_text(alloc, self.name.as_bytes(), number, PAGE)?;
        let answer = self.exchange.post(alloc, self.endpoint, RANGE_PATH, &body)?;
        read_page(alloc, &answer, self.name.as_bytes(), number)
    }

    /// Returns the page of the log that begins at a number.
    pub fn page(&mut self, alloc: Global, number: u64) -> Result<Page, NodeError>
        requires { number ≤ LAST_NUMBER }
        ensures name { self.new.name ≡ self.old.name }
        ensures leader { self.new.leader ≡ self.old.leader }
        ensures goes_on { IfOk result (λ page. IsTrue page.has_more → 0 < length page.entries.items) }
    {
        let page = self.ask_page(alloc, number);
        if matches!(page, Err(NodeError::Unanswered)) {
            self.turn_on();
        }
        page
    }
}

/// No contract can say what an etcd that runs does: it is never honest to a contract.
impl<X: Exchange> Node for Gateway<X> {
    ghost is_honest = { λ _. ⊥ };

    ghost leader = { λ gateway. gateway.leader };

    ghost known = { λ _. [] };

    ghost may_hold = { λ _ _. ⊥ };

    ghost moment = { λ _. 0 };

    ghost held_since = { λ _ _ _. ⊥ };

    ghost counts = { record { failures = λ _. 0; refusals = λ _. 0; shortages = λ _. 0 } };

    ghost only_now = { λ _ _ held. held };

    fn put(&mut self, alloc: Global, number: u64, entry: &[u8]) -> Result<PutAnswer, NodeError> {
        match self.ask(alloc, number, entry) {
            Err(NodeError::Unanswered) => {
                self.turn_on();
                Err(NodeError::Unanswered)
            }
            answer => answer,
        }
    }
}
