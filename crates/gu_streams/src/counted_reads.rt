//! A reader whose reads are bounded in length and in number, and which remembers whether one failed.

ghost use Rattle.std.specs.Prelude.{◌≡◌, ◌↔◌, ◌-◌, ◌≤◌, ◌||◌, ◌&&◌, true, false, not, min, IfOk, IsErr, IsTrue};
ghost use Rattle.std.specs.Result.{is_err};
ghost use Rattle.std.specs.Io.{ReadsAtMost};
ghost use Rattle.std.specs.Io.KnownBytes.{ReadConsumes};

use crate::source::Source;
use crate::turn::Turn;
use std::alloc::{AllocError, Global};
use std::io;
use std::io::{BufReader, ErrorKind, Read};

/// The most bytes requested in one read.
pub const LONGEST_READ: usize = 4_096;

/// The most bytes read at once when reading ahead.
const MOST_AHEAD: usize = 16_384;

/// The most reads.
pub const MOST_READS: u32 = 1_000_000;

/// A reader, the number of reads left, how often it may have nothing for now, and whether one of its reads failed.
///
/// Pass it by reference to query it afterwards: `&mut CountedReads<R>` is a reader too. It takes its reader by value, and returns it with
/// `into_reader`.
#[derive(Drop)]
pub struct CountedReads<R> {
    source: Source<R>,
    left: u32,
    waits: u64,
    failed: bool,
    ghost within: { left ≤ 1000000 },
}

/// Returns the number of bytes requested, given the room for them.
fn asked(room: usize) -> usize
    ensures { result ≡ min room 4096 }
{
    room.min(LONGEST_READ)
}

/// Returns whether an error of a reader means that it has nothing for now.
fn is_wait(error: &io::Error) -> bool {
    matches!(error.kind(), ErrorKind::WouldBlock | ErrorKind::TimedOut)
}

impl<R> CountedReads<R> {
    ghost use Rattle.gu_streams.specs.Reads.{has_failed, is_spent, reads_left, source_of, waits_left};

    /// Returns a reader with all reads left. Every error is a failure.
    pub fn new(reader: R) -> Self
        ensures source { source_of result ≡ Source.Direct reader }
        ensures left { reads_left result ≡ 1000000 }
        ensures waits { waits_left result ≡ 0 }
        ensures fresh { has_failed result ≡ false }
    {
        CountedReads {
            source: Source::Direct(reader),
            left: MOST_READS,
            waits: 0,
            failed: false,
        }
    }

    /// Returns a reader with all reads left that may have nothing for now: an error of kind `WouldBlock` or `TimedOut` is not a failure
    /// when it is read with `turn`.
    pub fn patient(reader: R) -> Self
        ensures source { source_of result ≡ Source.Direct reader }
        ensures left { reads_left result ≡ 1000000 }
        ensures waits { waits_left result ≡ 18446744073709551615 }
        ensures fresh { has_failed result ≡ false }
    {
        CountedReads {
            source: Source::Direct(reader),
            left: MOST_READS,
            waits: u64::MAX,
            failed: false,
        }
    }

    /// Returns whether the reader returned an error from one of its reads.
    pub fn has_failed(&self) -> bool
        ensures { result ≡ has_failed self.now }
    {
        self.failed
    }

    /// Returns whether no reads are left.
    pub fn is_spent(&self) -> bool
        ensures { result ≡ is_spent self.now }
    {
        self.left == 0
    }
}

impl<R: Read> CountedReads<R> {
    /// Returns a patient reader that reads up to 16,384 bytes ahead if they have arrived. Only requested reads are counted, of at most
    /// 4,096 bytes each.
    pub fn reading_ahead(alloc: Global, reader: R) -> Result<Self, AllocError>
    where
        R: Drop,
        ensures left { IfOk result (λ reads. bytes_left R.remaining reads ≡ R.remaining reader) }
        ensures reads { IfOk result (λ reads. reads_left reads ≡ 1000000) }
        ensures waits { IfOk result (λ reads. waits_left reads ≡ 18446744073709551615) }
        ensures fresh { IfOk result (λ reads. has_failed reads ≡ false) }
        ensures none { IfOk result (λ reads. IsAhead reads → ⊥) }
    {
        match BufReader::with_capacity(alloc, MOST_AHEAD, reader) {
            Ok(reader) => Ok(CountedReads {
                source: Source::Ahead(reader),
                left: MOST_READS,
                waits: u64::MAX,
                failed: false,
            }),
            Err(_) => Err(AllocError),
        }
    }

    /// Returns the reader. Bytes read ahead are lost.
    pub fn into_reader(self) -> R
        ensures { result ≡ reader_under self }
    {
        let CountedReads {
            source,
            left: _,
            waits: _,
            failed: _,
        } = self;
        source.into_reader()
    }

    /// Returns whether the next turn brings bytes that were read ahead, so that it doesn't ask the reader.
    pub fn is_ahead(&self) -> bool
        ensures { IsTrue result ↔ IsAhead self.now }
    {
        self.left > 0 && self.source.is_ahead()
    }

    ghost use Rattle.gu_streams.specs.Reads.{IsAhead, IsTurn, bytes_left, has_failed, reader_under, reads_left, waits_left};

    /// Asks the reader once. If it has nothing for now, as long as it may, no read is counted and none fails.
    pub fn turn(&mut self, buf: &mut [u8]) -> Turn
        ensures { IsTurn R.remaining self.old self.new buf.new result }
    {
        if self.left == 0 {
            return Turn::Stopped;
        }
        let most = asked(buf.len());
        match self.source.read(&mut buf[..most]) {
            Ok(count) => {
                self.left -= 1;
                Turn::Bytes(count)
            }
            Err(error) if self.waits > 0 && is_wait(&error) => {
                self.waits -= 1;
                Turn::Nothing
            }
            Err(_) => {
                self.left -= 1;
                self.failed = true;
                Turn::Stopped
            }
        }
    }
}

impl<R: Read> Read for CountedReads<R> {
    ghost use Rattle.gu_streams.specs.Reads.{bytes_left, has_failed, is_spent, reads_left};

    ghost remaining = { bytes_left R.remaining };

    fn read(&mut self, buf: &mut [u8]) -> io::Result<usize>
        ensures bound { ReadsAtMost result buf.new }
        ensures bytes { ReadConsumes (bytes_left R.remaining self.old) (bytes_left R.remaining self.new) result buf.new }
        ensures short { IfOk result (λ n. n ≤ 4096) }
        ensures counted { reads_left self.new ≡ reads_left self.old - 1 }

        // An error is the reader's own, which is remembered, or means that no reads were left.
        ensures failed { has_failed self.new ≡ (has_failed self.old || is_err result && not (is_spent self.old)) }
        ensures spent { is_spent self.old ≡ true → IsErr result }
    {
        if self.left == 0 {
            return Err(io::Error::from(io::ErrorKind::QuotaExceeded));
        }
        self.left -= 1;
        let most = asked(buf.len());
        let read = self.source.read(&mut buf[..most]);
        if read.is_err() {
            self.failed = true;
        }
        read
    }
}
