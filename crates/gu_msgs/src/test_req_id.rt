//! Ids of TestRequests.

ghost use Rattle.std.specs.Prelude.{◌≡◌, ◌↔◌, IfOk, IfSome, IsSome, IsTrue};
ghost use Rattle.gu_fix.specs.Encoding.{has_soh};
ghost use Rattle.gu_msgs.specs.TestReqIds.{IsTestReqId};

use std::alloc::{AllocError, Global};
use std::marker::Model;

/// The byte that ends a field.
const SOH: u8 = 1;

/// The most bytes in the id of a TestRequest.
const LONGEST_TEST_REQ_ID: usize = 1024;

/// The id of a TestRequest (FIX: TestReqID, tag 112): 1 to 1,024 bytes, none of them SOH. To a contract it is these bytes.
#[derive(Drop)]
pub struct TestReqId {
    bytes: Vec<u8>,
}

impl Model for TestReqId {
    ghost use Rattle.std.specs.Prelude.{ℕ, List};

    ghost Value = { List ℕ };

    ghost use Rattle.gu_msgs.specs.TestReqIds.{IsTestReqId};

    ghost view = { λ it. it.bytes.items };

    ghost invariant = { λ it. IsTestReqId it.bytes.items };
}

/// Returns whether the bytes contain SOH.
fn contains_soh(bytes: &[u8]) -> bool
    ensures { result ≡ has_soh bytes.now }
{
    bytes.contains(&SOH)
}

/// Returns whether bytes are the id of a TestRequest.
pub fn is_test_req_id(bytes: &[u8]) -> bool
    ensures { IsTrue result ↔ IsTestReqId bytes.now }
{
    !bytes.is_empty() && bytes.len() <= LONGEST_TEST_REQ_ID && !contains_soh(bytes)
}

impl TestReqId {
    /// Returns the id with these bytes, if they are valid.
    pub fn new(alloc: Global, bytes: &[u8]) -> Result<Option<Self>, AllocError>
        ensures sound { IfOk result (λ id. IsSome id ↔ IsTestReqId bytes.now) }
        ensures same { IfOk result (λ id. IfSome id (λ it. it ≡ bytes.now)) }
    {
        if !is_test_req_id(bytes) {
            return Ok(None);
        }
        let bytes = Vec::from_slice(alloc, bytes)?;
        Ok(Some(TestReqId { bytes }))
    }

    /// Returns its bytes.
    pub fn get(&self) -> &[u8]
        ensures bytes { result.now ≡ self.now }
        ensures sound { IsTestReqId self.now }
    {
        &self.bytes
    }
}
