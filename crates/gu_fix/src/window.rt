//! A window of bytes, with the checksum of any part of it.
ghost use Rattle.std.specs.Prelude.{◌≡◌, ◌+◌, ◌-◌, ◌%◌, ◌≤◌, List, ℕ, [], ◌++◌, length, take, drop, sum, vec_len, vec_capacity, OnOk, OnErr};
ghost use Rattle.gu_fix.specs.Sums.{IsWindow, running_sums, sum_after};

use crate::prefix::checksum;
use std::alloc::{AllocError, Global};
use std::marker::Model;

/// A part of a stream. To a contract it is its bytes; it holds at most as many consumed bytes as others.
///
/// As long as messages follow one another, each checksum is computed separately. In garbled bytes the same bytes may be summed many times,
/// so running sums are kept there.
#[derive(Drop)]
pub struct Window {
    bytes: Vec<u8>,
    /// If sums are kept, the sum up to and including each byte, modulo 256.
    sums: Vec<u8>,
    keeps_sums: bool,
    /// The bytes before this position are consumed.
    start: usize,
}

impl Model for Window {
    ghost Value = { List ℕ };

    ghost view = { λ w. drop w.start w.bytes.items };

    ghost invariant = { λ w. IsWindow w.bytes.items w.sums.items w.keeps_sums w.start };
}

/// Replaces each byte by the running sum after it.
fn sum_up(base: u8, bytes: &mut [u8])
    ensures { bytes.new ≡ running_sums base bytes.old }
{
    let mut total = base;
    for place in 0..bytes.len() {
        total = total.wrapping_add(bytes[place]);
        bytes[place] = total;
    }
}

/// Appends the running sum after each byte.
fn push_sums(sums: &mut Vec<u8>, base: u8, bytes: &[u8])
    requires { vec_len sums.old + length bytes.now ≤ vec_capacity sums.old }
    ensures { sums.new.items ≡ sums.old.items ++ running_sums base bytes.now }
{
    let start = sums.len();
    let Ok(()) = sums.extend_from_slice(bytes) else {
        unreachable!();
    };
    sum_up(base, &mut sums[start..]);
}

/// Returns the running sum before a position.
fn sum_before(sums: &[u8], place: usize) -> u8
    requires { place ≤ length sums.now }
    ensures { (bytes : List ℕ) → sums.now ≡ running_sums 0 bytes → result ≡ sum_after 0 (take place bytes) }
{
    if place == 0 { 0 } else { sums[place - 1] }
}

/// Computes the running sums of bytes.
fn sums_of(sums: &mut Vec<u8>, bytes: &[u8]) -> Result<(), AllocError>
    ensures { OnOk result (sums.new.items ≡ running_sums 0 bytes.now) }
{
    sums.clear();
    sums.reserve(bytes.len())?;
    push_sums(sums, 0, bytes);
    Ok(())
}

/// Removes items from the front.
fn drop_front(items: &mut Vec<u8>, count: usize)
    requires { count ≤ vec_len items.old }
    ensures { items.new.items ≡ drop count items.old.items }
{
    let left = items.len() - count;
    items.copy_within(count.., 0);
    items.truncate(left);
}

/// Removes items from the front, at least half of them.
fn drop_half(items: &mut Vec<u8>, count: usize)
    requires within { count ≤ vec_len items.old }
    requires half { vec_len items.old ≤ count + count }
    ensures { items.new.items ≡ drop count items.old.items }
{
    let left = items.len() - count;
    let (done, rest) = items.split_at_mut(count);
    done[..left].copy_from_slice(rest);
    items.truncate(left);
}

impl Window {
    /// Returns an empty window.
    pub fn new(alloc: Global) -> Self
        ensures { result ≡ [] }
    {
        Window {
            bytes: Vec::new(alloc),
            sums: Vec::new(alloc),
            keeps_sums: false,
            start: 0,
        }
    }

    /// Returns the bytes.
    pub fn bytes(&self) -> &[u8]
        ensures { result.now ≡ self.now }
    {
        &self.bytes[self.start..]
    }

    /// Returns the sum of `len` bytes from a position on, modulo 256.
    pub fn checksum(&self, place: usize, len: usize) -> u8
        requires { place + len ≤ length self.now }
        ensures { result ≡ sum (take len (drop place self.now)) % 256 }
    {
        let from = self.start + place;
        if !self.keeps_sums {
            return checksum(&self.bytes[from..from + len]);
        }
        let before = sum_before(&self.sums, from);
        let behind = sum_before(&self.sums, from + len);
        behind.wrapping_sub(before)
    }

    /// Keeps sums from now on, as long as bytes are only appended.
    pub fn keep_sums(&mut self) -> Result<(), AllocError>
        ensures { self.new ≡ self.old }
    {
        if !self.keeps_sums {
            sums_of(&mut self.sums, &self.bytes)?;
            self.keeps_sums = true;
        }
        Ok(())
    }

    /// Appends a piece.
    pub fn push(&mut self, piece: &[u8]) -> Result<(), AllocError>
        ensures ok { OnOk result (self.new ≡ self.old ++ piece.now) }
        ensures err { OnErr result (self.new ≡ self.old) }
    {
        if !self.keeps_sums {
            return self.bytes.extend_from_slice(piece);
        }
        self.sums.reserve(piece.len())?;
        let total = sum_before(&self.sums, self.sums.len());
        self.bytes.extend_from_slice(piece)?;
        push_sums(&mut self.sums, total, piece);
        Ok(())
    }

    /// Removes bytes from the end.
    pub fn truncate(&mut self, len: usize)
        requires { len ≤ length self.old }
        ensures { self.new ≡ take len self.old }
    {
        drop_front(&mut self.bytes, self.start);
        self.start = 0;
        self.bytes.truncate(len);
        self.keeps_sums = false;
    }

    /// Removes bytes from the front.
    pub fn consume(&mut self, len: usize)
        requires { len ≤ length self.old }
        ensures { self.new ≡ drop len self.old }
    {
        self.start += len;
        // At most half of the bytes are moved and their sums recomputed, so each consumed byte pays for one.
        if self.start >= self.bytes.len() - self.start {
            drop_half(&mut self.bytes, self.start);
            self.start = 0;
            self.keeps_sums = false;
        }
    }
}
