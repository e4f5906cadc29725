//! A page of a log: entries that etcd was asked for from a number on.

ghost use Rattle.std.specs.Prelude.{◌≡◌, ◌+◌, ◌<◌, ◌≤◌, ◌↔◌, ◌^◌, length, Some, IfOk, OnOk, IsTrue};
ghost use Rattle.serde_json.specs.Data.{Data};
ghost use Rattle.serde_json.specs.Read.{read};
ghost use Rattle.serde_json.specs.View.{items_view, view};
ghost use Rattle.gu_etcd.specs.Answers.{HasValue, pairs_in};
ghost use Rattle.gu_etcd.specs.InMemory.{log_of};
ghost use Rattle.gu_etcd.specs.Keys.{batch_key};
ghost use Rattle.gu_etcd.specs.Pages.{AreEntries, HasKey, HasMore, Lists, SaysPage};

use crate::answers::{json_of, value_of};
use crate::keys::batch_key;
use crate::{LAST_NUMBER, NodeError};
use base64::engine::general_purpose::STANDARD;
use serde_json::Value;
use std::alloc::Global;

/// The most entries that a page may have.
pub const PAGE: u64 = 16;

/// A page of a log.
#[derive(Drop)]
pub struct Page {
    /// The entries, in order.
    pub entries: Vec<Vec<u8>>,
    /// More entries come after them.
    pub has_more: bool,
}

/// Returns whether a pair has the key of the entry with a number.
fn has_key(alloc: Global, pair: &Value, name: &[u8], number: u64) -> Result<bool, NodeError>
    ensures { IfOk result (λ has. IsTrue has ↔ HasKey (view pair.now) (batch_key name.now number)) }
{
    let Some(key) = pair.get("key") else {
        return Ok(false);
    };
    let Some(text) = key.as_str() else {
        return Ok(false);
    };
    let expected = STANDARD.encode(alloc, &batch_key(alloc, name, number)?)?;
    Ok(text == expected.as_str())
}

/// Returns the entry of a pair, whose key is to be that of a number.
fn entry_at(alloc: Global, pair: &Value, name: &[u8], number: u64) -> Result<Vec<u8>, NodeError>
    ensures key { OnOk result (HasKey (view pair.now) (batch_key name.now number)) }
    ensures value { IfOk result (λ entry. HasValue (view pair.now) entry.items) }
{
    if has_key(alloc, pair, name, number)? {
        value_of(alloc, pair)
    } else {
        Err(NodeError::Unanswered)
    }
}

/// Returns the entries of pairs, whose keys are to be those of numbers that follow each other.
fn entries_of(
    alloc: Global,
    pairs: &[Value],
    name: &[u8],
    number: u64,
) -> Result<Vec<Vec<u8>>, NodeError>
    requires { number + length pairs.now < 2 ^ 64 }
    ensures { IfOk result (λ entries. AreEntries name.now number (items_view pairs.now) (log_of entries.items)) }
{
    let mut entries = Vec::new(alloc);
    for (i, pair) in pairs.iter().enumerate() {
        entries.push(entry_at(alloc, pair, name, number + i as u64)?)?;
    }
    Ok(entries)
}

/// Returns whether an answer says that more entries come.
fn has_more(answer: &Value) -> bool
    ensures { IsTrue result ↔ HasMore (view answer.now) }
{
    match answer.get("more") {
        Some(value) => value.as_bool() == Some(true),
        None => false,
    }
}

/// Returns the entries that an answer lists.
fn listed(
    alloc: Global,
    answer: &Value,
    name: &[u8],
    number: u64,
) -> Result<Vec<Vec<u8>>, NodeError>
    requires { number ≤ LAST_NUMBER }
    ensures { IfOk result (λ entries. Lists name.now number (pairs_in (view answer.now)) (log_of entries.items)) }
{
    let Some(pairs) = answer.get("kvs") else {
        return Ok(Vec::new(alloc));
    };
    match pairs.as_array() {
        Some(pairs) if pairs.len() as u64 <= PAGE => entries_of(alloc, pairs, name, number),
        _ => Err(NodeError::Unanswered),
    }
}

/// Returns the page that an answer has, which begins at a number. An answer that can't be read is none, and so is one that has no
/// entries, and yet says that more come.
pub fn read_page(alloc: Global, answer: &[u8], name: &[u8], number: u64) -> Result<Page, NodeError>
    requires { number ≤ LAST_NUMBER }
    ensures page { IfOk result (λ page. (json : Data) × (read answer.now ≡ Some json) × SaysPage name.now number json page) }
    ensures goes_on { IfOk result (λ page. IsTrue page.has_more → 0 < length page.entries.items) }
{
    let json = json_of(alloc, answer)?;
    if json.get("header").is_none() {
        return Err(NodeError::Unanswered);
    }
    let has_more = has_more(&json);
    let entries = listed(alloc, &json, name, number)?;
    if has_more && entries.is_empty() {
        return Err(NodeError::Unanswered);
    }
    Ok(Page { entries, has_more })
}
