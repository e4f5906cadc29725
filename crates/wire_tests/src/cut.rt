//! Cuts with many members.
use crate::rows::{Subject, check, number};
use gu_terms::{AccountId, Cut, LimitKey, OfferNo};
use std::alloc::{AllocError, Global};

/// Adds an offer to a cut, retrying once if memory is refused, and returns whether it was new.
fn add_offer(cut: &mut Cut, number: u64) -> Option<bool> {
    let offer = OfferNo::new(number)?;
    match cut.add_offer(offer) {
        Ok(is_new) => Some(is_new),
        Err(_) => cut.add_offer(offer).ok(),
    }
}

/// Returns the same for an account with this name.
fn add_key(cut: &mut Cut, name: &str) -> Option<bool> {
    let key = LimitKey::Acct(AccountId::new(name.as_bytes())?);
    match cut.add_key(key) {
        Ok(is_new) => Some(is_new),
        Err(_) => cut.add_key(key).ok(),
    }
}

/// Returns how many members were new of the offers and the accounts with this many numbers.
pub fn add_all(alloc: Global, cut: &mut Cut, count: u64) -> Result<u64, AllocError> {
    let mut added: u64 = 0;
    for place in 0..count {
        let number = place + 1;
        let is_new = add_offer(cut, number) == Some(true);
        let name = format!(in alloc; "A{number}")?;
        let is_new_key = add_key(cut, name.as_str()) == Some(true);
        added = added.saturating_add(u64::from(is_new) + u64::from(is_new_key));
    }
    Ok(added)
}

/// Returns how many members were new, how many were new once more, and how many a copy has.
fn counts(alloc: Global, cut: &mut Cut, count: u64) -> Result<String, AllocError> {
    let first = add_all(alloc, cut, count)?;
    let again = add_all(alloc, cut, count)?;
    let copy = cut.copy()?;
    format!(in alloc;
        "{first} {again} {} {}",
        copy.offers().len(),
        copy.keys().len()
    )
}

/// Returns the same for a new cut.
pub fn told(alloc: Global, count: &str) -> Result<String, AllocError> {
    let mut cut = Cut::new(alloc);
    let told = counts(alloc, &mut cut, number(count));
    drop(cut);
    told
}

/// A sweep looks at 4,096 offers at most.
const COUNTS: &str = "\
20 -> 40 0 20 20
4096 -> 8192 0 4096 4096
";

#[test]
fn a_cut_names_each_of_its_thousands_of_members_once(rt: HostRuntime) {
    check(&rt, rt.alloc(), Subject::Cut, COUNTS);
}
