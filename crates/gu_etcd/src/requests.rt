//! The texts of requests to etcd's JSON gateway.

ghost use Rattle.std.specs.Prelude.{◌≡◌, IfOk, string_bytes};
ghost use Rattle.gu_etcd.specs.Requests.{
  claim_text,
  coded,
  conditions_text,
  free_text,
  grant_text,
  keep_alive_text,
  lead_text,
  leader_text,
  leads_text,
  leased_text,
  put_text,
  question_text,
  range_text,
  transaction_text,
  value_text,
};

use crate::keys::{batch_key, end_key, leader_key};
use base64::engine::general_purpose::STANDARD;
use std::alloc::{AllocError, Global};

/// The path of transactions.
pub const TXN_PATH: &str = "/v3/kv/txn";
/// The path of ranges of keys.
pub const RANGE_PATH: &str = "/v3/kv/range";
/// The path at which leases are granted.
pub const GRANT_PATH: &str = "/v3/lease/grant";
/// The path at which leases are kept alive.
pub const KEEP_ALIVE_PATH: &str = "/v3/lease/keepalive";
/// The path at which leases are given back.
pub const REVOKE_PATH: &str = "/v3/lease/revoke";

/// Returns bytes in base64.
fn coded(alloc: Global, bytes: &[u8]) -> Result<String, AllocError>
    ensures { IfOk result (λ text. string_bytes text ≡ coded bytes.now) }
{
    STANDARD.encode(alloc, bytes)
}

/// Returns the condition that a key is free.
fn free_text(alloc: Global, key: &[u8]) -> Result<String, AllocError>
    ensures { IfOk result (λ text. string_bytes text ≡ free_text key.now) }
{
    let key = coded(alloc, key)?;
    format!(in alloc; "{{\"target\":\"VERSION\",\"key\":\"{key}\",\"version\":\"0\"}}")
}

/// Returns the condition that the desk that leads has this name.
fn leader_text(alloc: Global, leads: &[u8], leader: &[u8]) -> Result<String, AllocError>
    ensures { IfOk result (λ text. string_bytes text ≡ leader_text leads.now leader.now) }
{
    let leads = coded(alloc, leads)?;
    let leader = coded(alloc, leader)?;
    format!(in alloc; "{{\"target\":\"VALUE\",\"key\":\"{leads}\",\"value\":\"{leader}\"}}")
}

/// Returns the conditions that a key is free, and that the desk that leads has this name.
fn conditions_text(
    alloc: Global,
    key: &[u8],
    leads: &[u8],
    leader: &[u8],
) -> Result<String, AllocError>
    ensures { IfOk result (λ text. string_bytes text ≡ conditions_text key.now leads.now leader.now) }
{
    let free = free_text(alloc, key)?;
    let leader = leader_text(alloc, leads, leader)?;
    format!(in alloc; "{free},{leader}")
}

/// Returns the operation that gives a key a value.
fn value_text(alloc: Global, key: &[u8], value: &[u8]) -> Result<String, AllocError>
    ensures { IfOk result (λ text. string_bytes text ≡ value_text key.now value.now) }
{
    let key = coded(alloc, key)?;
    let value = coded(alloc, value)?;
    format!(in alloc; "{{\"request_put\":{{\"key\":\"{key}\",\"value\":\"{value}\"}}}}")
}

/// Returns the operation that gives a key a value as long as a lease goes on.
fn leased_text(alloc: Global, key: &[u8], value: &[u8], lease: u64) -> Result<String, AllocError>
    ensures { IfOk result (λ text. string_bytes text ≡ leased_text key.now value.now lease) }
{
    let key = coded(alloc, key)?;
    let value = coded(alloc, value)?;
    format!(in alloc;
        "{{\"request_put\":{{\"key\":\"{key}\",\"value\":\"{value}\",\"lease\":\"{lease}\"}}}}"
    )
}

/// Returns the operation that asks what is at a key.
fn question_text(alloc: Global, key: &[u8]) -> Result<String, AllocError>
    ensures { IfOk result (λ text. string_bytes text ≡ question_text key.now) }
{
    let key = coded(alloc, key)?;
    format!(in alloc; "{{\"request_range\":{{\"key\":\"{key}\"}}}}")
}

/// Returns a transaction: its conditions, what is done if they hold, and what if they don't.
fn transaction_text(
    alloc: Global,
    conditions: &str,
    put: &str,
    question: &str,
) -> Result<String, AllocError>
    ensures { IfOk result (λ text. string_bytes text ≡ transaction_text conditions.now put.now question.now) }
{
    format!(in alloc; "{{\"compare\":[{conditions}],\"success\":[{put}],\"failure\":[{question}]}}")
}

/// Returns the transaction that puts an entry at a number, if the number is free and this desk leads, and that else asks what is
/// at the number.
pub fn put_text(
    alloc: Global,
    name: &[u8],
    leader: &[u8],
    number: u64,
    entry: &[u8],
) -> Result<String, AllocError>
    ensures { IfOk result (λ text. string_bytes text ≡ put_text name.now leader.now number entry.now) }
{
    let key = batch_key(alloc, name, number)?;
    let conditions = conditions_text(alloc, &key, &leader_key(alloc, name)?, leader)?;
    let put = value_text(alloc, &key, entry)?;
    let question = question_text(alloc, &key)?;
    transaction_text(alloc, &conditions, &put, &question)
}

/// Returns the request for the batches from a number on.
pub fn range_text(alloc: Global, name: &[u8], from: u64, limit: u64) -> Result<String, AllocError>
    ensures { IfOk result (λ text. string_bytes text ≡ range_text name.now from limit) }
{
    let key = coded(alloc, &batch_key(alloc, name, from)?)?;
    let end = coded(alloc, &end_key(alloc, name)?)?;
    format!(in alloc; "{{\"key\":\"{key}\",\"range_end\":\"{end}\",\"limit\":\"{limit}\"}}")
}

/// Returns the request for a lease.
pub fn grant_text(alloc: Global, seconds: u64) -> Result<String, AllocError>
    ensures { IfOk result (λ text. string_bytes text ≡ grant_text seconds) }
{
    format!(in alloc; "{{\"TTL\":\"{seconds}\",\"ID\":\"0\"}}")
}

/// Returns the request that a lease goes on, or, at its path, that it ends.
pub fn keep_alive_text(alloc: Global, lease: u64) -> Result<String, AllocError>
    ensures { IfOk result (λ text. string_bytes text ≡ keep_alive_text lease) }
{
    format!(in alloc; "{{\"ID\":\"{lease}\"}}")
}

/// Returns the transaction by which a desk takes the leadership with its lease, if no desk leads, and that else asks who leads.
pub fn lead_text(
    alloc: Global,
    name: &[u8],
    leader: &[u8],
    lease: u64,
) -> Result<String, AllocError>
    ensures { IfOk result (λ text. string_bytes text ≡ lead_text name.now leader.now lease) }
{
    let key = leader_key(alloc, name)?;
    let free = free_text(alloc, &key)?;
    let put = leased_text(alloc, &key, leader, lease)?;
    let question = question_text(alloc, &key)?;
    transaction_text(alloc, &free, &put, &question)
}

/// Returns the transaction by which a desk takes the leadership with its lease from the desk of another name, if that one still leads and
/// the number is free, and that else asks who leads.
pub fn claim_text(
    alloc: Global,
    name: &[u8],
    leader: &[u8],
    lease: u64,
    former: &[u8],
    number: u64,
) -> Result<String, AllocError>
    ensures { IfOk result (λ text. string_bytes text ≡ claim_text name.now leader.now lease former.now number) }
{
    let leads = leader_key(alloc, name)?;
    let next = batch_key(alloc, name, number)?;
    let conditions = conditions_text(alloc, &next, &leads, former)?;
    let put = leased_text(alloc, &leads, leader, lease)?;
    let question = question_text(alloc, &leads)?;
    transaction_text(alloc, &conditions, &put, &question)
}

/// Returns the transaction that is carried out if the desk of this name leads, and that asks who leads.
pub fn leads_text(alloc: Global, name: &[u8], leader: &[u8]) -> Result<String, AllocError>
    ensures { IfOk result (λ text. string_bytes text ≡ leads_text name.now leader.now) }
{
    let leads = leader_key(alloc, name)?;
    let condition = leader_text(alloc, &leads, leader)?;
    let question = question_text(alloc, &leads)?;
    transaction_text(alloc, &condition, &question, &question)
}
