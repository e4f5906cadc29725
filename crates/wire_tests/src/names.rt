//! Names of the house and ids of firms.
use crate::rows::{Subject, check};
use gu_terms::{FirmId, Id};
use std::alloc::{AllocError, Global};

/// Texts, and whether a name and an id can have them.
const ROWS: &str = "\
ABCXYZ-01789 -> true true
- -> true true
ABCXYZ-017890 -> false true
A -> true true
E12 -> true true
E123 -> true true
R123456 -> true true
R1234567 -> true true
R12345678 -> true true
R1234567890123 -> false true
R12345678901234 -> false true
R123456789012345 -> false true
R1234567890123456 -> false true
R1234567890 2345 -> false false
e1 -> false true
E_1 -> false true
!~ -> false true
E 1 -> false false
 -> false false
\x7f -> false false
ä -> false false
7777777777777777777777777777777777777777777777777777777777777777 -> false true
77777777777777777777777777777777777777777777777777777777777777777 -> false false
";

/// Returns whether a name and an id can have this text.
pub fn told(alloc: Global, text: &str) -> Result<String, AllocError> {
    let is_name = FirmId::new(text.as_bytes()).is_some();
    let is_id = Id::new(text.as_bytes()).is_some();
    format!(in alloc; "{is_name} {is_id}")
}

#[test]
fn names_and_ids_keep_to_their_alphabets_and_lengths(rt: HostRuntime) {
    check(&rt, rt.alloc(), Subject::Names, ROWS);
}
