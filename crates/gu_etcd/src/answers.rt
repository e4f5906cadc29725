//! What etcd answers, read from JSON.

ghost use Rattle.std.specs.Prelude.{◌≡◌, ◌↔◌, IsTrue, Some, IfOk, option_map};
ghost use Rattle.serde_json.specs.Data.{Data};
ghost use Rattle.serde_json.specs.Read.{read};
ghost use Rattle.serde_json.specs.View.{view};
ghost use Rattle.gu_etcd.specs.Answers.{HasValue, IsCarriedOut, SaysFound, SaysPut, range_in};

use crate::{NodeError, PutAnswer};
use base64::DecodeAllocError;
use base64::engine::general_purpose::STANDARD;
use serde_json::Value;
use std::alloc::Global;

/// The most bytes that an answer may have: a page of the longest entries in base64, and what is around them.
pub const MAX_ANSWER: usize = 12 << 20;

/// Returns the JSON of an answer, which is bounded.
pub(crate) fn json_of(alloc: Global, answer: &[u8]) -> Result<Value, NodeError>
    ensures { IfOk result (λ value. read answer.now ≡ Some (view value)) }
{
    if answer.len() > MAX_ANSWER {
        return Err(NodeError::Unanswered);
    }
    let Ok(text) = std::str::from_utf8(answer) else {
        return Err(NodeError::Unanswered);
    };
    match Value::from_str(alloc, text) {
        Ok(value) => Ok(value),
        Err(error) if error.is_memory() => Err(NodeError::Memory),
        Err(_) => Err(NodeError::Unanswered),
    }
}

/// Returns whether a transaction was carried out.
fn is_carried_out(answer: &Value) -> bool
    ensures { IsTrue result ↔ IsCarriedOut (view answer.now) }
{
    match answer.get("succeeded") {
        Some(value) => value.as_bool() == Some(true),
        None => false,
    }
}

/// Returns the value of a pair.
pub(crate) fn value_of(alloc: Global, pair: &Value) -> Result<Vec<u8>, NodeError>
    ensures { IfOk result (λ bytes. HasValue (view pair.now) bytes.items) }
{
    let Some(value) = pair.get("value") else {
        return Ok(Vec::new(alloc));
    };
    let Some(text) = value.as_str() else {
        return Err(NodeError::Unanswered);
    };
    match STANDARD.decode(alloc, text.as_bytes()) {
        Ok(bytes) => Ok(bytes),
        Err(DecodeAllocError::OutOfMemory) => Err(NodeError::Memory),
        Err(_) => Err(NodeError::Unanswered),
    }
}

/// Returns the range that a transaction asked for.
fn range_of(answer: &Value) -> Option<&Value>
    ensures { option_map (λ v. view v.now) result ≡ range_in (view answer.now) }
{
    answer.get("responses")?.get(0_usize)?.get("response_range")
}

/// Returns what a range found at the key that it asked for.
fn found_in(alloc: Global, range: &Value) -> Result<PutAnswer, NodeError>
    ensures { IfOk result (λ said. SaysFound (view range.now) said) }
{
    let Some(pairs) = range.get("kvs") else {
        return Ok(PutAnswer::NotLeading);
    };
    match pairs.get(0_usize) {
        Some(pair) => Ok(PutAnswer::Holds(value_of(alloc, pair)?)),
        None => Err(NodeError::Unanswered),
    }
}

/// Returns what the answer to a transaction that puts an entry says. An answer that can't be read is none.
pub fn read_put(alloc: Global, answer: &[u8]) -> Result<PutAnswer, NodeError>
    ensures { IfOk result (λ said. (json : Data) × (read answer.now ≡ Some json) × SaysPut json said) }
{
    let json = json_of(alloc, answer)?;
    if is_carried_out(&json) {
        return Ok(PutAnswer::Kept);
    }
    match range_of(&json) {
        Some(range) => found_in(alloc, range),
        None => Err(NodeError::Unanswered),
    }
}
