//! A model of etcd at the end of an exchange: it reads the texts of requests, and its answers are texts too. Its failures are
//! scripted.
use base64::engine::general_purpose::STANDARD;
use gu_etcd::{Exchange, Gateway, Name, NodeError};
use serde_json::Value;
use std::alloc::{AllocError, Global};

/// The fate of a request.
#[derive(Clone, Copy, PartialEq, Eq)]
pub enum Fate {
    /// It is carried out and answered.
    Answered,
    /// It gets lost.
    RequestLost,
    /// It is carried out, and the answer gets lost.
    AnswerLost,
    /// It is carried out twice, and the second answer is the one that comes.
    Doubled,
    /// An endpoint answers that it can't say.
    TimedOut,
}

/// A batch in the log, with its key, in base64.
#[derive(Drop)]
pub struct Pair {
    pub key: String,
    pub value: String,
}

/// An etcd with one log.
pub struct Etcd {
    /// The name of the desk that leads, in base64.
    pub leader: String,
    pub pairs: Vec<Pair>,
    /// How often a request came, lost ones too.
    pub asked: usize,
    /// The endpoints that were asked, in order.
    pub endpoints: Vec<usize>,
}

// By hand, so that each exit of a caller drops an etcd by one call.
impl Drop for Etcd {
    fn drop(self) {
        let Etcd {
            leader,
            pairs,
            asked: _,
            endpoints,
        } = self;
        drop(leader);
        drop(pairs);
        drop(endpoints);
    }
}

impl Etcd {
    /// Creates an etcd with an empty log, which a desk leads.
    pub fn new(alloc: Global, leader: &[u8]) -> Result<Self, AllocError> {
        Ok(Etcd {
            leader: STANDARD.encode(alloc, leader)?,
            pairs: Vec::new(alloc),
            asked: 0,
            endpoints: Vec::new(alloc),
        })
    }

    /// Returns the value at a key.
    fn value_at(&self, key: &str) -> Option<&str> {
        let pair = self.pairs.iter().find(|pair| pair.key.as_str() == key)?;
        Some(pair.value.as_str())
    }

    /// Returns the pairs from a key on, in the order in which they were put.
    fn list(&self, alloc: Global, request: &RangeRequest) -> Result<String, AllocError> {
        let mut text = String::from_str(alloc, "{\"header\":{\"revision\":\"3\"},\"kvs\":[")?;
        let key = request.key.as_str();
        let from = self.pairs.iter().position(|pair| pair.key.as_str() == key);
        let pairs = match from {
            Some(from) => self.pairs.get(from..).unwrap_or(&[]),
            None => &[],
        };
        for (i, pair) in pairs.iter().take(request.limit).enumerate() {
            let comma = if i == 0 { "" } else { "," };
            let (key, value) = (pair.key.as_str(), pair.value.as_str());
            text.push_str(format!(in alloc;
                "{comma}{{\"key\":\"{key}\",\"value\":\"{value}\"}}"
            )?.as_str())?;
        }
        let has_more = pairs.len() > request.limit;
        text.push_str(format!(in alloc; "],\"more\":{has_more}}}")?.as_str())?;
        Ok(text)
    }

    /// Carries a transaction out, and returns the answer.
    fn answer(&mut self, alloc: Global, request: &Request) -> Result<String, AllocError> {
        if let Some(there) = self.value_at(request.key.as_str()) {
            return found_text(alloc, request.key.as_str(), there);
        }
        if request.leader.as_str() != self.leader.as_str() {
            return format!(in alloc; "{{\"responses\":[{{\"response_range\":{{}}}}]}}");
        }
        self.pairs.push(Pair {
            key: request.key.clone()?,
            value: request.value.clone()?,
        })?;
        format!(in alloc; "{{\"succeeded\":true,\"responses\":[{{\"response_put\":{{}}}}]}}")
    }
}

/// A request for the pairs from a key on.
#[derive(Drop)]
struct RangeRequest {
    key: String,
    limit: usize,
}

/// Returns the request for pairs that a value says.
fn range_request_in(alloc: Global, request: &Value) -> Option<RangeRequest> {
    let limit = request.pointer("/limit")?.as_str()?;
    Some(RangeRequest {
        limit: limit.parse::<usize>().ok()?,
        key: text_at(alloc, request, "/key")?,
    })
}

/// Returns the request for pairs that a text is.
fn range_request_of(alloc: Global, body: &str) -> Option<RangeRequest> {
    let request = Value::from_str(alloc, body).ok()?;
    let read = range_request_in(alloc, &request);
    drop(request);
    read
}

/// Returns the answer that a value is at a key.
fn found_text(alloc: Global, key: &str, value: &str) -> Result<String, AllocError> {
    format!(in alloc;
        "{{\"responses\":[{{\"response_range\":{{\"kvs\":[{{\"key\":\"{key}\",\"value\":\"{value}\"}}],\"count\":\"1\"}}}}]}}"
    )
}

/// A transaction that puts a batch.
#[derive(Drop)]
struct Request {
    key: String,
    leader: String,
    value: String,
}

/// Returns a text that is at a place of a request.
fn text_at(alloc: Global, request: &Value, place: &str) -> Option<String> {
    let text = request.pointer(place)?.as_str()?;
    String::from_str(alloc, text).ok()
}

/// Returns whether all keys of a transaction are one, whose version has to be 0.
fn is_of_one_key(request: &Value) -> Option<bool> {
    let key = request.pointer("/compare/0/key")?.as_str()?;
    let put = request.pointer("/success/0/request_put/key")?.as_str()?;
    let ranged = request.pointer("/failure/0/request_range/key")?.as_str()?;
    let version = request.pointer("/compare/0/version")?.as_str()?;
    Some(put == key && ranged == key && version == "0")
}

/// Returns the transaction that a value says.
fn request_in(alloc: Global, request: &Value) -> Option<Request> {
    if is_of_one_key(request) != Some(true) {
        return None;
    }
    Some(Request {
        key: text_at(alloc, request, "/compare/0/key")?,
        leader: text_at(alloc, request, "/compare/1/value")?,
        value: text_at(alloc, request, "/success/0/request_put/value")?,
    })
}

/// Returns the transaction that a text asks for.
fn request_of(alloc: Global, body: &str) -> Option<Request> {
    let request = Value::from_str(alloc, body).ok()?;
    let read = request_in(alloc, &request);
    drop(request);
    read
}

/// A desk's way to an etcd that others use too, with the fates of its next requests.
#[derive(Drop)]
pub struct Way<'a> {
    pub etcd: &'a mut Etcd,
    pub fates: &'a [Fate],
}

impl Way<'_> {
    /// Returns the fate of the next request.
    fn next_fate(&mut self) -> Fate {
        match self.fates {
            [fate, rest @ ..] => {
                self.fates = rest;
                *fate
            }
            [] => Fate::Answered,
        }
    }

    /// Carries a request out as often as its fate says, and returns the answer.
    fn play(&mut self, alloc: Global, request: &Request) -> Result<Option<String>, AllocError> {
        match self.next_fate() {
            Fate::Answered => Ok(Some(self.etcd.answer(alloc, request)?)),
            Fate::RequestLost => Ok(None),
            Fate::AnswerLost => {
                let _ = self.etcd.answer(alloc, request)?;
                Ok(None)
            }
            Fate::Doubled => {
                let _ = self.etcd.answer(alloc, request)?;
                Ok(Some(self.etcd.answer(alloc, request)?))
            }
            Fate::TimedOut => Ok(Some(format!(in alloc;
                "{{\"error\":\"etcdserver: request timed out\",\"code\":14}}"
            )?)),
        }
    }
}

impl Way<'_> {
    /// Answers a transaction, unless it or its answer gets lost.
    fn post_put(&mut self, alloc: Global, body: &str) -> Result<Vec<u8>, NodeError> {
        let Some(request) = request_of(alloc, body) else {
            return Err(NodeError::Unanswered);
        };
        match self.play(alloc, &request)? {
            Some(answer) => Ok(answer.into_bytes()),
            None => Err(NodeError::Unanswered),
        }
    }

    /// Answers a request for pairs, or loses it.
    fn post_range(&mut self, alloc: Global, body: &str) -> Result<Vec<u8>, NodeError> {
        let Some(request) = range_request_of(alloc, body) else {
            return Err(NodeError::Unanswered);
        };
        if self.next_fate() != Fate::Answered {
            return Err(NodeError::Unanswered);
        }
        Ok(self.etcd.list(alloc, &request)?.into_bytes())
    }
}

impl Exchange for Way<'_> {
    fn post(
        &mut self,
        alloc: Global,
        endpoint: usize,
        path: &str,
        body: &str,
    ) -> Result<Vec<u8>, NodeError> {
        self.etcd.asked = self.etcd.asked.saturating_add(1);
        if self.etcd.endpoints.push(endpoint).is_err() {
            return Err(NodeError::Memory);
        }
        match path {
            "/v3/kv/range" => self.post_range(alloc, body),
            "/v3/kv/txn" => self.post_put(alloc, body),
            _ => Err(NodeError::Unanswered),
        }
    }
}

/// Returns a text as a name.
pub fn name_of(alloc: Global, text: &str) -> Result<Name, NodeError> {
    let bytes = Vec::from_slice(alloc, text.as_bytes())?;
    Name::new(bytes).ok_or(NodeError::Unanswered)
}

/// Returns a desk's gateway to the log DAY of an etcd with three endpoints, whose next requests have these fates.
pub fn gateway_of<'a>(
    alloc: Global,
    etcd: &'a mut Etcd,
    fates: &'a [Fate],
    desk: &str,
) -> Result<Gateway<Way<'a>>, NodeError> {
    let log = name_of(alloc, "DAY")?;
    let desk = name_of(alloc, desk)?;
    Ok(Gateway::new(Way { etcd, fates }, 3, log, desk))
}
