//! The world that a script leads to: its book, and the receipts of its entries.

use crate::plays::{Pieces, played};
use crate::rows::check_told;
use crate::transcripts::{script_of, whole};
use gu_script::ScriptError;
use gu_terms::{AccountId, Symbol};
use gu_world::{Outcome, Outcomes};
use std::alloc::{AllocError, Global};
use std::io;

/// Returns the sum of the numbers of the receipts.
fn numbers_of(outcomes: &Outcomes<'_>) -> Result<u64, AllocError> {
    let mut sum: u64 = 0;
    for place in 0..outcomes.len() {
        if let Some(Outcome::Asked(receipt) | Outcome::Swept(receipt)) = outcomes.get(place)? {
            sum = sum.saturating_add(receipt.number);
        }
    }
    Ok(sum)
}

/// Returns how many entries a book has, the sum of the numbers of the script's receipts, and how many lots A1 has of XF6, long and short.
fn world_told(alloc: Global, transcript: &str) -> Result<String, ScriptError> {
    let script = script_of(alloc, &whole(alloc, transcript)?)?.replace(alloc, "/", "\n")?;
    let script = Pieces {
        bytes: script.as_bytes(),
        most: 4_096,
    };
    let world = played(alloc, "", script, &mut io::sink())?;
    let numbers = numbers_of(&world.outcomes())?;
    let book = world.into_book();
    let entries = book.history().len();
    let (long, short) = match (AccountId::new(b"A1"), Symbol::new(b"XF6")) {
        (Some(account), Some(symbol)) => book.position(account, symbol),
        _ => (0, 0),
    };
    drop(book);
    Ok(format!(in alloc; "{entries} entries, {numbers}, {long} long, {short} short")?)
}

#[test]
fn a_script_leads_to_its_book_and_its_receipts(rt: HostRuntime) {
    let told = world_told(rt.alloc(), "@opened/@trade_10/@claimed_10/")
        .ok()
        .expect(&rt, "a world");
    check_told(&rt, "a claim", Ok(told), "9 entries, 45, 10 long, 0 short");
}
