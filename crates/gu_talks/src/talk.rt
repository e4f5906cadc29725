//! The exchange of a connection: its session, what it reads and writes, what a turn left, and what is held back.

ghost use Rattle.std.specs.Prelude.{◌≡◌, ◌↔◌, ◌≤◌, ◌<◌, false, true, if◌then◌else◌, drop, length, take, IfOk, IsTrue, OnOk, Some, ℕ};
ghost use Rattle.std.specs.Fmt.{option_append};
ghost use Rattle.std.specs.List.{All};
ghost use Rattle.gu_lease.specs.Permits.{MayLeave};
ghost use Rattle.gu_talks.specs.Marks.{MarksAll};
ghost use Rattle.gu_talks.specs.Sources.{left_ahead};
ghost use Rattle.gu_talks.specs.Turns.{TurnsOn, TurnsOnce, spot};

use crate::closed_writer::ClosedWriter;
use crate::marks::Marks;
use crate::outgoing::Outgoing;
use crate::poller::{EndsWriting, Ready};
use crate::source::{Ahead, Source};
use crate::visit_clock::VisitClock;
use gu_engine::{Answerer, Backlog, Connection, Conversation, House, Turned};
use gu_lease::Permit;
use gu_streams::{CountedReads, LONGEST_READ, NonBlocking, StreamError};
use gu_terms::{FirmId, Moment};
use std::alloc::Global;
use std::io::{Read, Write};

/// How many turns a visit makes at most: enough for all that is read at once.
const MOST_TURNS: u32 = 4;

/// While more bytes than this are held, nothing is read or answered.
const MOST_HELD: usize = 65_536;

/// The buffer that a turn reads into.
pub type TurnBuffer = [u8; LONGEST_READ];

/// The exchange of a connection between its visits. Answers leave only by `send`, which takes a permit of the desk's gate, and none before it
/// is marked.
pub struct Talk<I, O> {
    conversation: Conversation,
    source: Source<I>,
    writer: Outgoing<O>,
    backlog: Backlog<NonBlocking>,
    /// How many entries must be kept before the held bytes may go, for those that were held when it was last marked.
    marks: Marks,
    ghost within: { length marks ≤ length backlog.held.bytes.items },
}

/// The halves of a connection that was accepted.
#[derive(Drop)]
pub struct Halves<I, O> {
    /// What was read from it before: its session reads this first.
    pub said: Vec<u8>,
    pub incoming: I,
    pub outgoing: O,
}

impl<I: Drop, O: Drop> Drop for Talk<I, O> {
    fn drop(self) {
        let Talk {
            conversation,
            source,
            writer,
            backlog,
            marks: _,
        } = self;
        drop(conversation);
        drop(source);
        drop(writer);
        drop(backlog);
    }
}

/// Makes one turn, whose answers are held.
fn make_turn<I: Read, A: Answerer>(
    ahead: Ahead<I>,
    answerer: &mut A,
    backlog: &mut Backlog<NonBlocking>,
    buffer: &mut TurnBuffer,
) -> (Ahead<I>, Result<Turned, StreamError>)
    ensures { IfOk result.1 (λ turned. TurnsOnce A.engine (left_ahead I.remaining)
        (spot answerer.old ahead backlog.old) turned (spot answerer.new result.0 backlog.new)) }
{
    let mut reads = CountedReads::patient(ahead);
    let turned = gu_engine::turn(&mut reads, &mut ClosedWriter, answerer, backlog, buffer);
    (reads.into_reader(), turned)
}

/// Makes turns, this many at most, as long as bytes are ahead or the last one was cut and may go on.
fn make_turns<I: Read, A: Answerer>(
    ahead: Ahead<I>,
    answerer: &mut A,
    backlog: &mut Backlog<NonBlocking>,
    buffer: &mut TurnBuffer,
    most: u32,
) -> (Ahead<I>, Result<Turned, StreamError>)
    ensures { IfOk result.1 (λ turned. (more : ℕ) × TurnsOn A.engine (left_ahead I.remaining) more
        (spot answerer.old ahead backlog.old) turned (spot answerer.new result.0 backlog.new)) }
{
    let (mut ahead, mut turned) = make_turn(ahead, answerer, backlog, buffer);
    for _turn in 1..most {
        let Ok(Turned::Again) = turned else {
            break;
        };
        if !ahead.has_bytes() {
            break;
        }
        let (read, again) = make_turn(ahead, answerer, backlog, buffer);
        ahead = read;
        turned = again;
    }
    (ahead, turned)
}

impl<I: Read + Drop, O: Write + Drop> Talk<I, O> {
    ghost use Rattle.gu_talks.specs.Talks.{HasNothingLeft};
    ghost use Rattle.gu_talks.specs.Visits.{ClosesTalk, IsNewTalk, Sends, StaysAsItIs, Visits};

    /// Creates the exchange of a connection that was accepted, in which one of these firms may log on. Its turns may make this many reads.
    pub fn new(alloc: Global, firms: Vec<FirmId>, halves: Halves<I, O>, reads: u64) -> Self
        ensures { IsNewTalk result firms.items (option_append (Some halves.said.items) (I.remaining halves.incoming)) I.remaining }
    {
        let Halves {
            said,
            incoming,
            outgoing,
        } = halves;
        Talk {
            conversation: Conversation::new(alloc, firms),
            source: Source::new(said, incoming, reads),
            writer: Outgoing::new(outgoing),
            backlog: Backlog::new(alloc, NonBlocking),
            marks: Marks::new(),
        }
    }

    /// Makes turns at a moment: one if its firm isn't logged on, otherwise up to four, as long as bytes are read ahead. Their answers are
    /// held. Returns how far the last turn came; after the session's last turn nothing more is answered. If an allocation fails, the
    /// exchange is lost.
    pub fn turn<H: House>(
        self,
        alloc: Global,
        house: &mut H,
        buffer: &mut TurnBuffer,
        moment: Moment,
    ) -> Result<(Self, Turned), StreamError>
        ensures { IfOk result (λ went. Visits H.rules I.remaining moment self house.old went.0 went.1) }
    {
        let most = if self.firm().is_some() { MOST_TURNS } else { 1 };
        let Talk {
            conversation,
            source,
            writer,
            mut backlog,
            marks,
        } = self;
        let ahead = source.into_ahead(alloc)?;
        let clock = VisitClock::new(moment, most);
        let mut connection = Connection::resume(conversation, house, clock);
        let (ahead, turned) = make_turns(ahead, &mut connection, &mut backlog, buffer, most);
        let turned = turned?;
        if turned.is_last() {
            connection.end();
        }
        let talk = Talk {
            conversation: connection.rest(),
            source: ahead.into_source(),
            writer,
            backlog,
            marks,
        };
        Ok((talk, turned))
    }

    /// Adds the Logout of a house that closes, if its firm is logged on, to what is held. Nothing may be left to be answered.
    pub fn close<H: House>(self, house: &mut H, moment: Moment) -> Result<Self, StreamError>
        requires { HasNothingLeft self }
        ensures { IfOk result (λ closed. ClosesTalk moment self house.old closed) }
    {
        let Talk {
            conversation,
            source,
            writer,
            mut backlog,
            marks,
        } = self;
        let clock = VisitClock::new(moment, 1);
        let mut connection = Connection::resume(conversation, house, clock);
        gu_engine::close(&mut connection, &mut backlog)?;
        Ok(Talk {
            conversation: connection.rest(),
            source,
            writer,
            backlog,
            marks,
        })
    }

    /// Marks the answers that were added since the last mark: they show no entry above this number, so they go once that many are kept.
    pub fn mark(&mut self, number: u64)
        ensures marked { MarksAll (length self.old.backlog.held.bytes.items) number self.old.marks self.new.marks }
        ensures conversation { self.new.conversation ≡ self.old.conversation }
        ensures source { self.new.source ≡ self.old.source }
        ensures writer { self.new.writer ≡ self.old.writer }
        ensures backlog { self.new.backlog ≡ self.old.backlog }
    {
        self.marks.mark(self.backlog.held(), number);
    }

    /// Sends by a permit of the desk's gate: as much of what is held as its stream takes and as may go while the permit's number of entries
    /// is kept.
    pub fn send(&mut self, permit: Permit) -> Result<(), StreamError>
        ensures sends { OnOk result (Sends O.contents permit.kept self.old self.new) }
        ensures led { MayLeave permit.lease }
    {
        self.send_kept(permit.kept())
    }

    /// Sends as much of what is held as its stream takes and as may go while this many entries are kept, and frees empty buffers.
    fn send_kept(&mut self, kept: u64) -> Result<(), StreamError>
        ensures { OnOk result (Sends O.contents kept self.old self.new) }
    {
        let before = self.backlog.held();
        self.backlog
            .send_first(self.marks.free(kept), &mut self.writer)?;
        let sent = before - self.backlog.held();
        self.marks.pass(sent);
        self.backlog.release();
        Ok(())
    }

    /// Returns how many held bytes may go once this many entries are kept.
    pub fn free(&self, kept: u64) -> usize
        ensures within { result ≤ length self.now.marks }
        ensures kept { All (λ mark. mark ≤ kept) (take result self.now.marks) }
        ensures held { All (λ mark. kept < mark) (drop result self.now.marks) }
    {
        self.marks.free(kept)
    }

    /// Returns whether some of what is held may not go while this many entries are kept.
    pub fn is_held_back(&self, kept: u64) -> bool
        ensures none { result ≡ false → length self.now.marks ≡ length self.now.backlog.held.bytes.items }
        ensures all { result ≡ false → All (λ mark. mark ≤ kept) self.now.marks }
    {
        self.marks.free(kept) < self.backlog.held()
    }

    /// Returns the firm that is logged on.
    pub fn firm(&self) -> Option<FirmId> {
        self.conversation.firm()
    }

    /// Reads and drops what comes, a few times at most, and returns whether its peer has ended or failed.
    pub fn drain(&mut self, buffer: &mut TurnBuffer) -> bool
        ensures conversation { self.new.conversation ≡ self.old.conversation }
        ensures backlog { self.new.backlog ≡ self.old.backlog }
        ensures writer { self.new.writer ≡ self.old.writer }
        ensures marks { self.new.marks ≡ self.old.marks }
    {
        self.source.drain(buffer)
    }

    /// Notes what its streams are ready for.
    pub fn note(&mut self, ready: Ready)
        ensures { StaysAsItIs I.remaining self.old self.new }
    {
        if ready.is_readable || ready.is_ending {
            self.source.note(ready.is_ending);
        }
        if ready.is_writable || ready.is_ending {
            self.writer.note();
        }
    }

    /// Has its next turn read, whether or not bytes are known to have come.
    pub fn try_read(&mut self)
        ensures { StaysAsItIs I.remaining self.old self.new }
    {
        self.source.note(false);
    }

    /// Notes that nothing more is to be read, whatever comes.
    pub fn stop_reading(&mut self)
        ensures { StaysAsItIs I.remaining self.old self.new }
    {
        self.source.stop();
    }

    /// Notes that entries up to this number may inform its firm, and returns whether any of them is new to it. If one is, its next turn
    /// sends notices.
    pub fn tell(&mut self, number: u64) -> bool
        ensures new { IsTrue result ↔ (self.old.conversation.next ≤ number) }
        ensures told { self.new ≡ (if result then record self.old { conversation = record self.old.conversation { is_behind = true } } else self.old) }
    {
        let is_new = self.conversation.next() <= number;
        if is_new {
            self.conversation.expect_notices();
        }
        is_new
    }

    /// Returns the next moment at which time alone does something.
    pub fn due_at(&self) -> Option<Moment> {
        self.conversation.due_at()
    }

    /// Returns the MsgSeqNum (34) that the firm's next message is to have, and that of the next message to send.
    pub fn numbers(&self) -> (u64, u64) {
        self.conversation.numbers()
    }

    /// Returns whether a read may bring bytes.
    pub fn is_readable(&self) -> bool {
        self.source.stream().is_readable()
    }

    /// Returns how many bytes were read.
    pub fn bytes_in(&self) -> u64 {
        self.source.stream().bytes()
    }

    /// Returns how many bytes were written.
    pub fn bytes_out(&self) -> u64 {
        self.writer.bytes()
    }

    /// Returns how many bytes of answers are held.
    pub fn held(&self) -> usize {
        self.backlog.held()
    }

    /// Returns whether so much is held that nothing is read or answered.
    pub fn is_full(&self) -> bool {
        self.backlog.held() > MOST_HELD
    }

    /// Returns whether there is anything to answer without reading: bytes are read ahead, or a turn left something.
    pub fn has_work(&self) -> bool
        ensures { result ≡ false → HasNothingLeft self.now }
    {
        self.source.has_bytes() || !self.backlog.is_idle()
    }

    /// Returns whether another turn would do something at once.
    pub fn wants_turn(&self) -> bool {
        !self.is_full() && (self.has_work() || self.is_readable())
    }
}

impl<I: Read + Drop, O: EndsWriting + Drop> Talk<I, O> {
    /// Ends its half of the stream. What was read ahead is dropped, as is what comes.
    pub fn hang_up(self) -> Self
        ensures conversation { result.conversation ≡ self.conversation }
        ensures backlog { result.backlog ≡ self.backlog }
        ensures marks { result.marks ≡ self.marks }
    {
        let Talk {
            conversation,
            source,
            mut writer,
            backlog,
            marks,
        } = self;
        writer.end_writing();
        Talk {
            conversation,
            source: source.into_bare(),
            writer,
            backlog,
            marks,
        }
    }
}
