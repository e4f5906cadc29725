//! Calls that are refused memory. These tests pass whichever of their allocations fails, and if all of them fail from one on
//! (tools/each-growth): a call that is refused memory says so, and does at the second try what it would have done, if there is memory then.

use crate::sample::{FILE, firm_of, firms};
use gu_secrets::{Issued, Secrets, SecretsFault, issue};
use gu_terms::FirmId;
use std::alloc::{AllocError, Global};

/// Returns whether there is memory.
fn has_memory(alloc: Global) -> bool {
    Vec::<u8>::with_capacity(alloc, 1).is_ok()
}

/// Reads the file, retrying once if memory is refused.
fn read_again(alloc: Global, firms: &[FirmId]) -> Result<Secrets, SecretsFault> {
    match Secrets::read(alloc, FILE.as_bytes(), firms) {
        Err(SecretsFault::Memory) => Secrets::read(alloc, FILE.as_bytes(), firms),
        answer => answer,
    }
}

/// Issues a secret, retrying once if memory is refused.
fn issued_again(alloc: Global, firm: &FirmId) -> Result<Issued, AllocError> {
    match issue(alloc, *firm, [7; 32]) {
        Ok(issued) => Ok(issued),
        Err(_) => issue(alloc, *firm, [7; 32]),
    }
}

/// Returns the firms of the house, retrying once if memory is refused.
fn firms_again(alloc: Global) -> Result<Vec<FirmId>, AllocError> {
    match firms(alloc) {
        Ok(firms) => Ok(firms),
        Err(_) => firms(alloc),
    }
}

#[test]
fn refused_to_a_file_leaves_it_to_be_read_again(rt: HostRuntime) {
    let alloc = rt.alloc();
    let firm = firm_of(&rt, "E1");
    match firms_again(alloc) {
        Ok(firms) => match read_again(alloc, &firms) {
            Ok(secrets) => assert!(rt; secrets.admits(firm, Some(b"second secret".as_slice()))),
            Err(fault) => {
                assert_eq!(rt; fault, SecretsFault::Memory);
                assert!(rt; !has_memory(alloc), "no memory for the rows");
            }
        },
        Err(_) => assert!(rt; !has_memory(alloc), "no memory for the firms"),
    }
}

#[test]
fn refused_to_a_secret_leaves_it_to_be_issued_again(rt: HostRuntime) {
    let alloc = rt.alloc();
    let firm = firm_of(&rt, "E1");
    match issued_again(alloc, &firm) {
        Ok(issued) => assert!(rt;
            issued.secret.as_slice() == b"07070707070707070707070707070707".as_slice()
        ),
        Err(_) => assert!(rt; !has_memory(alloc), "no memory for a secret"),
    }
}
