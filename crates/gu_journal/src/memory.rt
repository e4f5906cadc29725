//! A device in memory, which remembers each call.
ghost use Rattle.std.specs.Prelude.{◌≡◌, ◌+◌, ◌≤◌, ◌++◌, length, replicate, take, IfOk};
ghost use Rattle.gu_journal.specs.Calls.{left_from, outcomes_after, seen_after};
ghost use Rattle.gu_journal.specs.CallLaws.{counts_now, only_now};
ghost use Rattle.gu_journal.specs.Device.{written};

use crate::zeros::zeros;
use crate::{Device, DeviceError};
use std::alloc::{AllocError, Global};

/// A call that changes a device, or syncs it.
#[derive(Drop)]
pub enum Call {
    Write { at: usize, bytes: Vec<u8> },
    Lengthen(usize),
    Cut(usize),
    Sync,
}

/// A device in memory. It tears as the worst device does: until a sync, a crash may leave any part of each call.
#[derive(Drop)]
pub struct Memory {
    alloc: Global,
    first: Vec<u8>,
    calls: Vec<Call>,
    bytes: Vec<u8>,
    ghost replayed: { bytes.items ≡ seen_after first.items calls.items },
}

impl Memory {
    /// Returns a device with these bytes on its disk.
    pub fn new(alloc: Global, first: Vec<u8>) -> Result<Self, AllocError>
        ensures { IfOk result (λ device. device.bytes.items ≡ first.items) }
    {
        let bytes = first.to_vec(alloc)?;
        Ok(Memory {
            alloc,
            first,
            calls: Vec::new(alloc),
            bytes,
        })
    }

    /// Returns the bytes that a read returns.
    pub fn bytes(&self) -> &[u8]
        ensures { result.now ≡ self.now.bytes.items }
    {
        &self.bytes
    }

    /// Returns the bytes that were on its disk at first.
    pub fn first(&self) -> &[u8]
        ensures { result.now ≡ self.now.first.items }
    {
        &self.first
    }

    /// Returns the calls that changed or synced it, the oldest first.
    pub fn calls(&self) -> &[Call]
        ensures { result.now ≡ self.now.calls.items }
    {
        &self.calls
    }
}

/// Returns bytes with those starting at a position replaced by others.
fn overwritten(alloc: Global, olds: &[u8], at: usize, bytes: &[u8]) -> Result<Vec<u8>, AllocError>
    requires { at + length bytes.now ≤ length olds.now }
    ensures { IfOk result (λ news. news.items ≡ written at bytes.now olds.now) }
{
    let (before, _) = olds.split_at(at);
    let (_, after) = olds.split_at(at + bytes.len());
    let mut news = Vec::from_slice(alloc, before)?;
    news.extend_from_slice(bytes)?;
    news.extend_from_slice(after)?;
    Ok(news)
}

/// Returns bytes followed by zeros.
fn lengthened(alloc: Global, olds: &[u8], more: usize) -> Result<Vec<u8>, AllocError>
    ensures { IfOk result (λ news. news.items ≡ olds.now ++ replicate more 0) }
{
    let mut news = Vec::from_slice(alloc, olds)?;
    news.extend_from_slice(&zeros(alloc, more)?)?;
    Ok(news)
}

/// Returns the first `len` bytes.
fn shortened(alloc: Global, olds: &[u8], len: usize) -> Result<Vec<u8>, AllocError>
    requires { len ≤ length olds.now }
    ensures { IfOk result (λ news. news.items ≡ take len olds.now) }
{
    let (kept, _) = olds.split_at(len);
    Vec::from_slice(alloc, kept)
}

impl Device for Memory {
    ghost is_honest = { λ _. Unit {0} };

    ghost seen = { λ m. m.bytes.items };

    ghost may_leave = { λ m. outcomes_after m.first.items m.calls.items };

    ghost moment = { λ m. length m.calls.items };

    ghost left_since = { λ m. left_from m.first.items m.calls.items };

    ghost failures = { λ _. 0 };

    ghost shortages = { λ _. 0 };

    ghost counts_now = { λ m. counts_now m.first.items m.calls.items };

    ghost only_now = { λ m. only_now m.first.items m.calls.items };

    fn read(&mut self, alloc: Global) -> Result<Vec<u8>, DeviceError> {
        Ok(self.bytes.to_vec(alloc)?)
    }

    fn write_at(&mut self, at: usize, bytes: &[u8]) -> Result<(), DeviceError> {
        let news = overwritten(self.alloc, &self.bytes, at, bytes)?;
        let bytes = Vec::from_slice(self.alloc, bytes)?;
        self.calls.push(Call::Write { at, bytes })?;
        self.bytes = news;
        Ok(())
    }

    fn lengthen(&mut self, more: usize) -> Result<(), DeviceError> {
        let news = lengthened(self.alloc, &self.bytes, more)?;
        self.calls.push(Call::Lengthen(more))?;
        self.bytes = news;
        Ok(())
    }

    fn cut(&mut self, len: usize) -> Result<(), DeviceError> {
        let news = shortened(self.alloc, &self.bytes, len)?;
        self.calls.push(Call::Cut(len))?;
        self.bytes = news;
        Ok(())
    }

    fn sync(&mut self) -> Result<(), DeviceError> {
        self.calls.push(Call::Sync)?;
        Ok(())
    }
}
