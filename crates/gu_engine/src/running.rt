//! The loop of every message engine: reader, backlog, answerer and writer.

ghost use Rattle.std.specs.Prelude.{◌≡◌, ◌≢◌, ◌⊎◌, ◌≤◌, ◌∷◌, ◌<◌, [], List, ℕ, true, false, length, IfErr, IfOk, IsErrOf, OnErr, OnOk};
ghost use Rattle.gu_streams.specs.Reads.{HasStopped, IsAhead};
ghost use Rattle.gu_streams.specs.Streams.{streams_of};
ghost use Rattle.gu_streams.specs.Written.{WrotePart};
ghost use Rattle.gu_engine.specs.Backlogs.{AnswersPartOfIt, AnswersWhatIsLeft};
ghost use Rattle.gu_engine.specs.Running.{Answers, FailsToBegin, Served, ServedInPart, ServedSoFar, brought_in, is_more};
ghost use Rattle.gu_engine.specs.Sends.{Gives, GivesAnswers, GivesPart, GivesSome, IsAnswerFault};
ghost use Rattle.gu_engine.specs.Turned.{TurnsTo, TurnsToPart, is_last, work_of};
ghost use Rattle.gu_engine.specs.Turns.{IsEmpty};

use crate::answerer::Answerer;
use crate::backlog::Backlog;
use crate::event::Event;
use crate::held::Held;
use crate::turned::Turned;
use gu_streams::{Blocking, CountedReads, LONGEST_READ, Outlet, StreamError};
use gu_terms::Moment;
use std::alloc::Global;
use std::io::{Read, Write};

/// Answers an event, if something is left to do and at most 65,536 bytes are held.
fn answer_one<W: Write, O: Outlet, A: Answerer>(
    writer: &mut W,
    answerer: &mut A,
    event: Event,
    now: Moment,
    held: &mut Held<O>,
) -> Result<(), StreamError>
    requires goes_on { A.engine.is_done answerer.old ≡ false }
    requires due_first { A.engine.is_due answerer.old ≡ is_more event }
    requires room { length held.old.bytes.items ≤ 65536 }
    ensures answered { OnOk result ((text : List ℕ) × Answers A.engine now answerer.old event text answerer.new
        × Gives text held.old.bytes.items held.new.bytes.items (W.contents writer.old) (W.contents writer.new)) }
    ensures few { OnOk result (O.takes_all ≡ true → length held.new.bytes.items ≤ 65536) }
    ensures fewer { OnOk result (is_more event ≡ true → A.parts_left answerer.new < A.parts_left answerer.old) }
    ensures part { OnErr result (GivesPart A.engine now answerer.old (brought_in (event ∷ [])) held.old.bytes.items (W.contents writer.old) (W.contents writer.new)) }
    ensures faults { IfErr result IsAnswerFault }
{
    answerer.answer(event, now, &mut held.bytes)?;
    held.send_if_much(writer)
}

/// Gives what is due, part by part, until nothing is due or more than 65,536 bytes are held.
fn give_due<W: Write, O: Outlet, A: Answerer>(
    writer: &mut W,
    answerer: &mut A,
    now: Moment,
    held: &mut Held<O>,
) -> Result<(), StreamError>
    ensures answered { OnOk result (GivesAnswers A.engine now answerer.old [] answerer.new held.old.bytes.items held.new.bytes.items (W.contents writer.old) (W.contents writer.new)) }
    ensures few { OnOk result (O.takes_all ≡ true → length held.old.bytes.items ≤ 65536 → length held.new.bytes.items ≤ 65536) }
    ensures part { OnErr result (GivesPart A.engine now answerer.old [] held.old.bytes.items (W.contents writer.old) (W.contents writer.new)) }
    ensures faults { IfErr result IsAnswerFault }
{
    'parts: while !held.is_full() && !answerer.is_done() && answerer.is_due() {
        answer_one(writer, answerer, Event::More, now, held)?;
    }
    Ok(())
}

/// Answers an event that a turn brought, and then gives what is due.
fn answer_event<W: Write, O: Outlet, A: Answerer>(
    writer: &mut W,
    answerer: &mut A,
    event: Event,
    now: Moment,
    held: &mut Held<O>,
) -> Result<(), StreamError>
    requires goes_on { A.engine.is_done answerer.old ≡ false }
    requires idle { A.engine.is_due answerer.old ≡ false }
    requires brought { is_more event ≡ false }
    requires room { length held.old.bytes.items ≤ 65536 }
    ensures answered { OnOk result (GivesAnswers A.engine now answerer.old (event ∷ []) answerer.new held.old.bytes.items held.new.bytes.items (W.contents writer.old) (W.contents writer.new)) }
    ensures few { OnOk result (O.takes_all ≡ true → length held.new.bytes.items ≤ 65536) }
    ensures part { OnErr result (GivesPart A.engine now answerer.old (event ∷ []) held.old.bytes.items (W.contents writer.old) (W.contents writer.new)) }
    ensures faults { IfErr result IsAnswerFault }
{
    answer_one(writer, answerer, event, now, held)?;
    give_due(writer, answerer, now, held)
}

/// Answers what was left unanswered, one event after another, until none is left, more than 65,536 bytes are held or nothing is left to do.
/// What is due comes first.
fn answer_left<W: Write, O: Outlet, A: Answerer>(
    writer: &mut W,
    answerer: &mut A,
    backlog: &mut Backlog<O>,
    now: Moment,
) -> Result<(), StreamError>
    ensures answered { OnOk result (AnswersWhatIsLeft A.engine now answerer.old backlog.old answerer.new backlog.new (W.contents writer.old) (W.contents writer.new)) }
    ensures gave { OnOk result (GivesSome backlog.old.held.bytes.items backlog.new.held.bytes.items (W.contents writer.old) (W.contents writer.new)) }
    ensures few { OnOk result (O.takes_all ≡ true → length backlog.old.held.bytes.items ≤ 65536 → length backlog.new.held.bytes.items ≤ 65536) }
    ensures part { OnErr result (AnswersPartOfIt A.engine now answerer.old backlog.old (W.contents writer.old) (W.contents writer.new)) }
    ensures faults { IfErr result IsAnswerFault }
{
    give_due(writer, answerer, now, &mut backlog.held)?;
    'events: while !backlog.held.is_full() && !answerer.is_done() {
        let Some(event) = backlog.next_event()? else {
            return Ok(());
        };
        answer_event(writer, answerer, event, now, &mut backlog.held)?;
    }
    Ok(())
}

/// Sends what is held, unless the next turn brings bytes that were read ahead. If more than 65,536 bytes are held or nothing is left to do,
/// it sends all the same.
fn send_unless_ahead<R: Read, W: Write, O: Outlet, A: Answerer>(
    reads: &CountedReads<R>,
    writer: &mut W,
    answerer: &A,
    held: &mut Held<O>,
) -> Result<(), StreamError>
    ensures given { OnOk result (Gives [] held.old.bytes.items held.new.bytes.items (W.contents writer.old) (W.contents writer.new)) }
    ensures sent { OnOk result (O.takes_all ≡ true → (held.new.bytes.items ≡ []) ⊎ (IsAhead reads.now × (A.engine.is_done answerer.now ≡ false) × (length held.new.bytes.items ≤ 65536))) }
    ensures part { OnErr result (WrotePart held.old.bytes.items (W.contents writer.old) (W.contents writer.new)) }
    ensures fault { IfErr result (λ error. error ≡ StreamError.Write) }
{
    if held.is_full() || answerer.is_done() || !reads.is_ahead() {
        held.let_go(writer)?;
    }
    Ok(())
}

/// Makes one turn: continues with what the last turn left, or else reads once, and answers. The turn is cut when more than 65,536 bytes are
/// held: the rest is left for a later turn. If more are held from before and can't go out, nothing is read or answered.
///
/// Held answers are sent before the reader is asked, and at the end of the turn unless the next turn brings bytes that were read ahead.
pub fn turn<R: Read, W: Write, O: Outlet, A: Answerer>(
    reads: &mut CountedReads<R>,
    writer: &mut W,
    answerer: &mut A,
    backlog: &mut Backlog<O>,
    buffer: &mut [u8],
) -> Result<Turned, StreamError>
    requires { 0 < length buffer.old }
    ensures turned { IfOk result (TurnsTo A.engine R.remaining answerer.old answerer.new
        (work_of W.contents reads.old reads.new writer.old writer.new backlog.old backlog.new)) }

    // Whatever was left, the first of what was held and answered was sent, and the rest is held.
    ensures gave { IfOk result (λ turned. GivesSome backlog.old.held.bytes.items backlog.new.held.bytes.items (W.contents writer.old) (W.contents writer.new)) }

    // With an outlet that always sends everything, nothing is held when the next turn asks the reader, and no turn is cut.
    ensures sent { IfOk result (λ turned. O.takes_all ≡ true → (backlog.new.held.bytes.items ≡ []) ⊎ (IsAhead reads.new × (is_last turned ≡ false))) }
    ensures uncut { IfOk result (λ turned. O.takes_all ≡ true → turned ≢ Turned.Full) }

    // After a fault, a prefix of what was held and of the answers was sent.
    ensures part { OnErr result (TurnsToPart A.engine R.remaining answerer.old answerer.new
        (work_of W.contents reads.old reads.new writer.old writer.new backlog.old backlog.new)) }
    ensures faults { IfErr result IsAnswerFault }
{
    send_unless_ahead(reads, writer, answerer, &mut backlog.held)?;
    if backlog.held.is_full() {
        return Ok(Turned::Full);
    }
    if answerer.is_done() {
        return Ok(Turned::Done);
    }
    let turned = backlog.take_in(reads, buffer)?;
    if turned.is_last() {
        backlog.held.let_go(writer)?;
        return Ok(turned);
    }
    let Ok(now) = answerer.begin_turn() else {
        backlog.held.let_go(writer)?;
        return Ok(Turned::Stopped);
    };
    answer_left(writer, answerer, backlog, now)?;
    let is_cut = backlog.held.is_full();
    if is_cut {
        return Ok(Turned::Full);
    }
    send_unless_ahead(reads, writer, answerer, &mut backlog.held)?;
    if answerer.is_done() {
        return Ok(Turned::Done);
    }
    Ok(turned)
}

/// Makes turns until the input ends, reading stops or nothing is left to do, with an outlet that always sends everything.
fn make_turns<R: Read, W: Write, O: Outlet, A: Answerer>(
    reads: &mut CountedReads<R>,
    writer: &mut W,
    answerer: &mut A,
    backlog: &mut Backlog<O>,
) -> Result<(), StreamError>
    requires takes_all { O.takes_all ≡ true }
    requires empty { IsEmpty backlog.old }
    ensures done { OnOk result (Served A.engine answerer.old answerer.new (streams_of R.remaining W.contents reads.old reads.new writer.old writer.new)) }
    ensures answered { IsErrOf result StreamError.Read
        → ServedSoFar A.engine answerer.old answerer.new (streams_of R.remaining W.contents reads.old reads.new writer.old writer.new) }
    ensures stopped { IsErrOf result StreamError.Read → HasStopped reads.new ⊎ FailsToBegin A.engine answerer.new }
    ensures part { ServedInPart A.engine answerer.old (streams_of R.remaining W.contents reads.old reads.new writer.old writer.new) }
{
    let mut buffer = [0; LONGEST_READ];
    'turns: loop {
        match turn(reads, writer, answerer, backlog, &mut buffer)? {
            Turned::Again | Turned::Waits | Turned::Full => {}
            Turned::Done | Turned::End => return Ok(()),
            Turned::Stopped => return Err(StreamError::Read),
        }
    }
}

/// Answers what the reader gives, turn by turn, until the input ends or nothing is left to do.
///
/// A turn's answers are sent before the reader is read again, and as soon as there are more than 65,536 bytes of them.
pub fn run<R: Read, W: Write, A: Answerer>(
    alloc: Global,
    reads: &mut CountedReads<R>,
    writer: &mut W,
    answerer: &mut A,
) -> Result<(), StreamError>
    ensures done { OnOk result (Served A.engine answerer.old answerer.new (streams_of R.remaining W.contents reads.old reads.new writer.old writer.new)) }

    // If reading stopped, everything read before is answered, and exactly that was written.
    ensures answered { IsErrOf result StreamError.Read
        → ServedSoFar A.engine answerer.old answerer.new (streams_of R.remaining W.contents reads.old reads.new writer.old writer.new) }
    ensures stopped { IsErrOf result StreamError.Read → HasStopped reads.new ⊎ FailsToBegin A.engine answerer.new }

    // In every case, and so after each error: what was written is a prefix of the answers to what was read.
    ensures part { ServedInPart A.engine answerer.old (streams_of R.remaining W.contents reads.old reads.new writer.old writer.new) }
{
    let mut backlog = Backlog::new(alloc, Blocking);
    make_turns(reads, writer, answerer, &mut backlog)
}
