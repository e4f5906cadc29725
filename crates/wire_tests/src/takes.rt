//! Takes of many offers.
use crate::rows::{Subject, check, number};
use gu_terms::{OfferNo, Takes};
use std::alloc::{AllocError, Global};

/// Adds a take of an offer, retrying once if memory is refused, and returns whether it was new.
fn add(takes: &mut Takes, number: u64) -> Option<bool> {
    let offer = OfferNo::new(number)?;
    match takes.add(offer, 1) {
        Ok(is_new) => Some(is_new),
        Err(_) => takes.add(offer, 1).ok(),
    }
}

/// Returns how many takes were new of this many offers, the last one first if the numbers descend.
pub fn add_all(takes: &mut Takes, count: u64, falls: bool) -> u64 {
    let mut added: u64 = 0;
    for place in 0..count {
        let number = if falls { count - place } else { place + 1 };
        if add(takes, number) == Some(true) {
            added = added.saturating_add(1);
        }
    }
    added
}

/// Returns how many takes were new, how many were new of the same offers once more, and how many a copy has.
pub fn told(alloc: Global, count: &str) -> Result<String, AllocError> {
    let mut takes = Takes::new(alloc);
    let first = add_all(&mut takes, number(count), true);
    let again = add_all(&mut takes, number(count), false);
    let copy = takes.copy()?;
    format!(in alloc; "{first} {again} {}", copy.as_slice().len())
}

/// A sweep looks at 4,096 offers at most.
const COUNTS: &str = "\
20 -> 20 0 20
4096 -> 4096 0 4096
";

#[test]
fn takes_of_4_096_offers_are_added_whatever_their_order(rt: HostRuntime) {
    check(&rt, rt.alloc(), Subject::Takes, COUNTS);
}
