//! A file of secrets, whose digests are those of Python's hashlib.

use gu_secrets::{Secrets, SecretsFault};
use gu_terms::FirmId;
use std::alloc::{AllocError, Global};
use std::process::Abort;

/// The firms of the house. F1 has no row in the file.
const FIRMS: [&str; 4] = ["E1", "C1", "H-1", "F1"];

/// E1 has two rows, of `first secret` and `second secret`; C1 has one of `first secret`; H-1 has one of the empty secret.
pub(crate) const FILE: &str = "\
E1,000102030405060708090a0b0c0d0e0f,3a72814458923120008764edab598becadfd9eac5519ffe499f6ceb8d8ee2df2
C1,A5A5A5A5A5A5A5A5A5A5A5A5A5A5A5A5,89F4560E6C97CF8CFA6ADE0DD76F04173164B37BBC9FB0EF3ED6E6B66AC7D0AB

E1,f0f1f2f3f4f5f6f7f8f9fafbfcfdfeff,766bc3704011ffb1fcb499a657d0f15c400a1564471e67f0664fd8a87aed6d92\r
H-1,00000000000000000000000000000000,374708fff7719dd5979ec875d56cd2286f6d3cf7ec317a3b25632aab28ec37bb";

/// Returns the firm with this name.
pub(crate) fn firm_of(rt: &impl Abort, name: &str) -> FirmId {
    FirmId::new(name.as_bytes()).expect(rt, "a firm")
}

/// Returns the firms of the house.
pub(crate) fn firms(alloc: Global) -> Result<Vec<FirmId>, AllocError> {
    let mut firms = Vec::new(alloc);
    for name in FIRMS {
        if let Some(firm) = FirmId::new(name.as_bytes()) {
            firms.push(firm)?;
        }
    }
    Ok(firms)
}

/// Reads a file for the firms of the house.
pub(crate) fn read(alloc: Global, file: &[u8]) -> Result<Secrets, SecretsFault> {
    Secrets::read(alloc, file, &firms(alloc)?)
}
