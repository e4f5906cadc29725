//! What etcd answers about leases.

ghost use Rattle.std.specs.Prelude.{◌≡◌, Some, IfOk, codes};
ghost use Rattle.serde_json.specs.Data.{Data};
ghost use Rattle.serde_json.specs.Read.{read};
ghost use Rattle.serde_json.specs.View.{view};
ghost use Rattle.gu_etcd.specs.Answers.{HasNumber, SaysAlive, SaysGranted};

use crate::NodeError;
use crate::answers::json_of;
use serde_json::Value;
use std::alloc::Global;

/// A lease that etcd has granted.
#[derive(Clone, Copy, Debug, PartialEq, Eq)]
pub struct Granted {
    /// Its number.
    pub lease: u64,
    /// How many seconds it lasts.
    pub seconds: u64,
}

/// Returns the number in a field.
fn number_in(answer: &Value, field: &str) -> Result<u64, NodeError>
    ensures { IfOk result (λ number. HasNumber field.now (view answer.now) number) }
{
    let Some(value) = answer.get(field) else {
        return Err(NodeError::Unanswered);
    };
    let Some(text) = value.as_str() else {
        return Err(NodeError::Unanswered);
    };
    match text.parse::<u64>() {
        Ok(number) => Ok(number),
        Err(_) => Err(NodeError::Unanswered),
    }
}

/// Returns the lease that an answer grants.
pub fn read_granted(alloc: Global, answer: &[u8]) -> Result<Granted, NodeError>
    ensures { IfOk result (λ granted. (json : Data) × (read answer.now ≡ Some json) × SaysGranted json granted) }
{
    let json = json_of(alloc, answer)?;
    let lease = number_in(&json, "ID")?;
    let seconds = number_in(&json, "TTL")?;
    Ok(Granted { lease, seconds })
}

/// Returns how many seconds a lease lasts that was kept alive, or nothing if it has ended.
pub fn read_alive(alloc: Global, answer: &[u8]) -> Result<Option<u64>, NodeError>
    ensures { IfOk result (λ seconds. (json : Data) × (read answer.now ≡ Some json) × SaysAlive json seconds) }
{
    let json = json_of(alloc, answer)?;
    let Some(result) = json.get("result") else {
        return Err(NodeError::Unanswered);
    };
    match result.get("TTL") {
        Some(_) => Ok(Some(number_in(result, "TTL")?)),
        None => Ok(None),
    }
}
