//! Checking the digests in a recovered text against the history that it was played to.

ghost use Rattle.std.specs.Prelude.{◌≡◌, ◌≢◌, ◌≤◌, ◌<◌, ◌^◌, ◌↔◌, ℕ, false, true, length, take, IfOk, IsErrOf, IsTrue};
ghost use Rattle.std.specs.Fmt.{decimal};
ghost use Rattle.std.specs.List.{list_all};
ghost use Rattle.gu_text.specs.LineFeeds.{ended_lines};
ghost use Rattle.gu_keeping.specs.Chains.{IsChainOf, empty_chain};
ghost use Rattle.gu_keeping.specs.Digests.{Agree, AgreeTo, chain_to, digest_line, has_marks, is_decimal, is_digest_line, is_hexadecimal};
ghost use Rattle.gu_keeping.specs.declared.chain.Chain.{Chain as ChainOf};

use crate::chain::{Chain, Link};
use crate::comments::append_digest;
use crate::error::DigestFault;
use gu_terms::History;
use gu_text::{split_at_line_feed, without_return};
use std::alloc::{AllocError, Global};

fn is_decimal(byte: u8) -> bool
    ensures { result ≡ is_decimal byte }
{
    byte.is_ascii_digit()
}

fn is_hexadecimal(byte: u8) -> bool
    ensures { result ≡ is_hexadecimal byte }
{
    is_decimal(byte) || matches!(byte, b'a'..=b'f')
}

/// Returns whether a line begins with `# ` and has a space before its last 64 bytes.
fn has_marks(line: &[u8]) -> bool
    requires { 68 ≤ length line.now }
    ensures { result ≡ has_marks line.now }
{
    line[0] == b'#' && line[1] == b' ' && line[line.len() - 65] == b' '
}

/// Returns whether bytes are decimal digits.
fn are_decimal(bytes: &[u8]) -> bool
    ensures { result ≡ list_all is_decimal bytes.now }
{
    bytes.iter().all(|byte| is_decimal(*byte))
}

/// Returns whether bytes are hexadecimal digits.
fn are_hexadecimal(bytes: &[u8]) -> bool
    ensures { result ≡ list_all is_hexadecimal bytes.now }
{
    bytes.iter().all(|byte| is_hexadecimal(*byte))
}

/// Returns whether a line has the form of a comment with a digest.
fn is_digest_line(line: &[u8]) -> bool
    ensures { result ≡ is_digest_line line.now }
{
    line.len() >= 68
        && has_marks(line)
        && are_decimal(&line[2..line.len() - 65])
        && are_hexadecimal(&line[line.len() - 64..])
}

/// Returns the value of digits, or the greatest number if it is greater.
fn number_of(digits: &[u8]) -> u64
    ensures { (n : ℕ) → n < 2 ^ 64 → digits.now ≡ decimal n → result ≡ n }
{
    let mut number: u64 = 0;
    for digit in digits {
        number = number
            .saturating_mul(10)
            .saturating_add(u64::from(digit.saturating_sub(b'0')));
    }
    number
}

/// Returns the number in a line with a digest, or the greatest number if it is greater.
fn number_in(line: &[u8]) -> u64
    ensures { (chain : ChainOf) → length chain.digest ≡ 32 → chain.count < 2 ^ 64 → line.now ≡ digest_line chain → result ≡ chain.count }
{
    if line.len() < 68 {
        return 0;
    }
    number_of(&line[2..line.len() - 65])
}

/// Returns whether a line is the comment with the digest of a chain.
fn is_digest_of(alloc: Global, chain: &Chain, line: &[u8]) -> Result<bool, AllocError>
    ensures { IfOk result (λ is. IsTrue is ↔ (line.now ≡ digest_line chain.now)) }
{
    let mut comment = Vec::new(alloc);
    append_digest(alloc, &mut comment, chain)?;
    let _ = comment.pop();
    Ok(comment.as_slice() == line)
}

/// Returns a chain with one more batch: the entries of a history up to a number.
fn chain_to(
    alloc: Global,
    chain: Chain,
    history: &History,
    count: usize,
) -> Result<Chain, AllocError>
    requires later { chain.count ≤ count }
    requires within { count ≤ length history.now }
    ensures { IfOk result (λ next. next ≡ chain_to history.now chain count) }
{
    let mut link = Link::new(alloc, chain, count - chain.count())?;
    for place in chain.count()..count {
        let entry = history.at(place)?;
        link.add(&entry)?;
    }
    Ok(link.end())
}

/// Adds one more batch to a chain, the entries of a history up to the number in a line, and returns true, if the line is the comment with
/// its digest; otherwise adds nothing. The cost is that of digesting what is shown of the batch.
fn reach(
    alloc: Global,
    chain: &mut Chain,
    history: &History,
    line: &[u8],
) -> Result<bool, AllocError>
    requires within { chain.old.count ≤ length history.now }
    requires at { IsChainOf chain.old (take chain.old.count history.now) }
    ensures found { IfOk result (λ found. found ≡ true → (chain.old.count ≤ chain.new.count) × (chain.new.count ≤ length history.now)
        × (chain.new ≡ chain_to history.now chain.old chain.new.count) × (line.now ≡ digest_line chain.new)) }
    ensures none { IfOk result (λ found. found ≡ false
        → (n : ℕ) → chain.old.count ≤ n → n ≤ length history.now → line.now ≢ digest_line (chain_to history.now chain.old n)) }
{
    let entries = history.len() as u64;
    let number = number_in(line);
    if number < chain.count() as u64 || number > entries {
        return Ok(false);
    }
    let next = chain_to(alloc, *chain, history, number as usize)?;
    if !is_digest_of(alloc, &next, line)? {
        return Ok(false);
    }
    *chain = next;
    Ok(true)
}

/// Compares the digests in the lines of a text with those of the history that it was played to. Returns the chain of the history, in which
/// the entries after the last digest are one batch, whose digest is to come next in the text (`resume_text`).
pub fn check_digests(alloc: Global, text: &[u8], history: &History) -> Result<Chain, DigestFault>
    ensures chain { IfOk result (λ chain. IsChainOf chain history.now) }
    ensures agree { IfOk result (λ chain. AgreeTo history.now empty_chain (ended_lines text.now) chain) }
    ensures differs { (n : ℕ) → IsErrOf result (DigestFault.Differs n) → ¬ Agree history.now (ended_lines text.now) }
{
    let entries = history.len();
    let mut chain = Chain::new();
    let mut rest = text;
    while let Some((line, behind)) = split_at_line_feed(rest) {
        let line = without_return(line);
        if is_digest_line(line) && !reach(alloc, &mut chain, history, line)? {
            return Err(DigestFault::Differs(number_in(line)));
        }
        rest = behind;
    }
    let last = chain_to(alloc, chain, history, entries)?;
    Ok(last)
}
