//! A firm's conversations with its session, line by line. A line is one of these; `|` ends a field, and `{x*9}` is nine times x.
//!
//! - `new name`: another session begins, and another conversation, which shows what its name says
//! - `now 09:00:30.000`: the clock, on 2026-01-05
//! - `in T N fields`: a message of type T and number N comes from E1 to the house; `body fields`: one with these fields
//! - `answer word`: the answer to what was handed out last; `notice matched`, `notice offered`; `tick`; `end`; `closing`
//! - `out T N fields`: the session sends a message of type T and number N to E1, now; `sent text`: these very bytes
//! - `hand text`: it hands this out; `close`: it ends
//! - `firm name`: this firm is logged on; `due time`: a tick does something then, and not before; with no time it never does
//! - `each 2 9 lines`: the lines, which `; ` parts, for each number from 2 to 9 in the place of `#`
use crate::bodies::{message_at, message_of};
use crate::messages::{frame_in, replaced, shown};
use crate::requests::request_text;
use crate::rows::{first_word, has_memory, number, parts_at};
use crate::words::{Values, notice_of, outcome_of, sample};
use gu_fix::Feed;
use gu_msgs::Request;
use gu_session::{AskRef, Input, Output, Session, Taken};
use gu_terms::{FirmId, Moment, Side};
use std::alloc::{AllocError, Global};
use std::process::Abort;

/// The call by which a session takes its inputs.
#[derive(Clone, Copy)]
enum Call {
    Step,
    StepOnto,
}

/// What an output has before a session appends to it.
const BEFORE: &[u8] = b"what was there ";

/// What a conversation has come to.
struct Talk {
    call: Call,
    session: Session,
    values: Values,
    time: &'static str,
    now: Moment,
    /// What the session gave at the last line and no line was about, the first last.
    given: Vec<Output>,
    /// What was handed out last, until a line was about it.
    handed: Option<Request>,
    asked: Option<AskRef>,
}

impl Drop for Talk {
    fn drop(self) {
        let Talk {
            call: _,
            session,
            values: _,
            time: _,
            now: _,
            given,
            handed,
            asked: _,
        } = self;
        drop(session);
        drop(given);
        drop(handed);
    }
}

/// Returns the moment of a time of 2026-01-05.
fn moment_of(time: &str) -> Option<Moment> {
    let (clock, millis) = time.split_once('.')?;
    let (hours, rest) = clock.split_once(':')?;
    let (minutes, seconds) = rest.split_once(':')?;
    let minutes = number(hours)
        .saturating_mul(60)
        .saturating_add(number(minutes));
    let seconds = minutes.saturating_mul(60).saturating_add(number(seconds));
    let millis = seconds.saturating_mul(1000).saturating_add(number(millis));
    Moment::new(millis.saturating_add(1_767_571_200_000))
}

/// Returns a whole message as an input.
fn framed(alloc: Global, message: String) -> Result<Option<Input>, AllocError> {
    let frame = frame_in(alloc, message.as_str())?;
    Ok(Some(Input::Frame(frame)))
}

/// Returns the messages that follow what was there, if nothing else does.
fn messages_in(alloc: Global, text: &[u8]) -> Result<Option<Vec<Output>>, AllocError> {
    let Some(rest) = text.strip_prefix(BEFORE) else {
        return Ok(None);
    };
    let frames = Feed::new(alloc).push(rest).map_err(|_| AllocError)?;
    let mut left = rest.len();
    let mut given = Vec::with_capacity(alloc, 2)?;
    for frame in frames {
        left = left.saturating_sub(frame.bytes().len());
        given.push(Output::Send(Vec::from_slice(alloc, frame.bytes())?))?;
    }
    Ok(if left == 0 { Some(given) } else { None })
}

/// Gives a session an input; its messages come after a text.
fn take(
    session: &mut Session,
    input: Input,
    now: Moment,
    text: &mut Vec<u8>,
) -> Result<Taken, AllocError> {
    match input {
        Input::Frame(frame) => session.frame_onto(frame, now, text),
        Input::Notice(notice) => session.notice_onto(&notice, now, text),
        Input::Answer(reference, outcome) => session.answer_onto(reference, &outcome, now, text),
        Input::Tick => session.tick_onto(now, text),
        Input::End => Ok(session.end()),
        Input::Close => session.close_onto(now, text),
    }
}

/// Returns the outputs of a session, one after another, with its messages appended.
fn step_onto(
    alloc: Global,
    session: &mut Session,
    input: Input,
    now: Moment,
) -> Result<Option<Vec<Output>>, AllocError> {
    let mut text = Vec::from_slice(alloc, BEFORE)?;
    let Taken { handed, is_closed } = take(session, input, now, &mut text)?;
    let found = match messages_in(alloc, &text) {
        Ok(found) => found,
        Err(_) => messages_in(alloc, &text)?,
    };
    let Some(mut given) = found else {
        return Ok(None);
    };
    if let Some(asked) = handed {
        given.push(Output::Hand(asked))?;
    }
    if is_closed {
        given.push(Output::Close)?;
    }
    Ok(Some(given))
}

impl Talk {
    /// Returns a conversation at nine in which E1 and E2 may log on.
    fn new(alloc: Global, call: Call) -> Result<Option<Talk>, AllocError> {
        let (Some(values), Some(other)) = (sample(), FirmId::new(b"E2")) else {
            return Ok(None);
        };
        let firms = Vec::from_slice(alloc, &[other, values.firm])?;
        Ok(Some(Talk {
            call,
            session: Session::new(alloc, firms),
            values,
            time: "09:00:00.000",
            now: values.nine,
            given: Vec::new(alloc),
            handed: None,
            asked: None,
        }))
    }

    /// Sets the clock.
    fn set_clock(&mut self, time: &'static str) {
        if let Some(now) = moment_of(time) {
            self.time = time;
            self.now = now;
        }
    }

    /// Returns the answer to what was handed out last.
    fn answer(&self, alloc: Global, text: &str) -> Result<Option<Input>, AllocError> {
        let Some(reference) = self.asked else {
            return Ok(None);
        };
        let outcome = outcome_of(alloc, &self.values, text)?;
        Ok(Some(Input::Answer(reference, outcome)))
    }

    /// Returns the input of a line, if it has one.
    fn input(&self, alloc: Global, word: &str, text: &str) -> Result<Option<Input>, AllocError> {
        match word {
            "in" => framed(
                alloc,
                message_at(alloc, "49=E1|56=GIVEUP", "09:00:00", text)?,
            ),
            "body" => framed(alloc, message_of(alloc, text)?),
            "notice" => Ok(notice_of(&self.values, Side::Buy, text).map(Input::Notice)),
            "answer" => self.answer(alloc, text),
            "tick" => Ok(Some(Input::Tick)),
            "end" => Ok(Some(Input::End)),
            "closing" => Ok(Some(Input::Close)),
            _ => Ok(None),
        }
    }

    /// Returns what the session gives for an input, unless it spoils what was there.
    fn step(&mut self, alloc: Global, input: Input) -> Result<Option<Vec<Output>>, AllocError> {
        match self.call {
            Call::Step => Ok(Some(self.session.step(input, self.now)?)),
            Call::StepOnto => step_onto(alloc, &mut self.session, input, self.now),
        }
    }

    /// Gives an input to the session. Nothing that it gave before may be left.
    fn give(&mut self, alloc: Global, input: Input) -> Result<bool, AllocError> {
        let is_due = self.given.is_empty();
        let Some(mut given) = self.step(alloc, input)? else {
            return Ok(false);
        };
        given.reverse();
        self.given = given;
        Ok(is_due)
    }

    /// Returns what the session gives next, as a text.
    fn told(&self, alloc: Global) -> Result<String, AllocError> {
        if let Some(request) = &self.handed {
            return request_text(alloc, request);
        }
        match self.given.last() {
            Some(Output::Send(bytes)) => shown(alloc, bytes),
            Some(Output::Close) => String::from_str(alloc, "the end"),
            _ => String::from_str(alloc, "nothing"),
        }
    }

    /// Returns the same by what a line says.
    fn expected(&self, alloc: Global, word: &str, text: &str) -> Result<String, AllocError> {
        let text = match word {
            "out" => return message_at(alloc, "49=GIVEUP|56=E1", self.time, text),
            "sent" | "hand" => text,
            "close" => "the end",
            _ => "no such line",
        };
        String::from_str(alloc, text)
    }

    /// Takes out what the session hands out next, if that comes next.
    fn take_handed(&mut self) {
        if !matches!(self.given.last(), Some(Output::Hand(_))) {
            return;
        }
        if let Some(Output::Hand(asked)) = self.given.pop() {
            self.asked = Some(asked.reference);
            self.handed = Some(asked.what.into_inner());
        }
    }

    /// Passes over what the session gives next.
    fn pass(&mut self) {
        if self.handed.take().is_none() {
            let _ = self.given.pop();
        }
    }

    /// Returns whether this firm is logged on.
    fn is_firm(&self, name: &str) -> bool {
        match self.session.firm() {
            Some(firm) => firm.get() == name.as_bytes(),
            None => name.is_empty(),
        }
    }

    /// Returns whether the session gives next what a line says.
    fn gives(&mut self, alloc: Global, word: &str, text: &str) -> Result<bool, AllocError> {
        let expected = self.expected(alloc, word, text)?;
        self.take_handed();
        let told = self.told(alloc)?;
        self.pass();
        Ok(told.as_str() == expected.as_str())
    }

    /// Returns whether a line is right; after `done` nothing is left that the session gave.
    fn take(&mut self, alloc: Global, line: &str) -> Result<bool, AllocError> {
        let (word, text) = first_word(line);
        if let Some(input) = self.input(alloc, word, text)? {
            return self.give(alloc, input);
        }
        match word {
            "firm" => Ok(self.is_firm(text)),
            "due" => Ok(self.session.due_at() == moment_of(text)),
            "done" => Ok(self.given.is_empty()),
            _ => self.gives(alloc, word, text),
        }
    }
}

/// Returns a conversation at nine, retrying once if memory is refused. Returns nothing once there is no memory left.
fn begin(rt: &impl Abort, alloc: Global, call: Call) -> Option<Talk> {
    let talk = match Talk::new(alloc, call) {
        Ok(talk) => Ok(talk),
        Err(_) => Talk::new(alloc, call),
    };
    match talk {
        Ok(talk) => Some(talk.expect(rt, "a sample")),
        Err(_) => {
            assert!(rt; !has_memory(alloc), "no memory for a session");
            None
        }
    }
}

/// Asserts that a line is right. One that is refused memory is tried once more. Returns whether the conversation goes on, as it
/// does as long as there is memory.
fn check_line(rt: &impl Abort, alloc: Global, talk: &mut Talk, name: &str, line: &str) -> bool {
    let told = match talk.take(alloc, line) {
        Ok(is_right) => Ok(is_right),
        Err(_) => talk.take(alloc, line),
    };
    match told {
        Ok(is_right) => assert!(rt; is_right, "{line} of: {name}"),
        Err(_) => assert!(rt; !has_memory(alloc), "no memory for {line} of: {name}"),
    }
    told.is_ok()
}

/// Lines with a number in the place of `#`.
fn lines_with(alloc: Global, lines: &str, number: u64) -> Result<String, AllocError> {
    let number = format!(in alloc; "{number}")?;
    replaced(alloc, lines, "#", number.as_str())
}

/// Asserts that lines are right for each of their numbers.
fn check_each(rt: &impl Abort, alloc: Global, talk: &mut Talk, name: &str, text: &str) {
    let (first, rest) = first_word(text);
    let (last, lines) = first_word(rest);
    for place in number(first)..number(last).saturating_add(1) {
        let lines = lines_with(alloc, lines, place).expect(rt, "memory");
        for line in lines.as_str().split("; ") {
            check_line(rt, alloc, talk, name, line);
        }
    }
}

/// Asserts that each line of a conversation is right after its name, and that nothing is left at its end.
fn follow_one(rt: &impl Abort, alloc: Global, talk: &'static str, call: Call) {
    let (name, lines) = parts_at(talk, "\n");
    let Some(mut talk) = begin(rt, alloc, call) else {
        return;
    };
    let mut goes_on = true;
    for line in lines.lines() {
        match first_word(line) {
            ("now", time) => talk.set_clock(time),
            ("each", text) => check_each(rt, alloc, &mut talk, name, text),
            _ if goes_on => goes_on = check_line(rt, alloc, &mut talk, name, line),
            _ => {}
        }
    }
    if goes_on {
        check_line(rt, alloc, &mut talk, name, "done");
    }
}

/// Asserts that each line of conversations is right, by either call.
pub fn follow(rt: &impl Abort, alloc: Global, talks: &'static str) {
    for talk in talks.split("\nnew ") {
        follow_one(rt, alloc, talk, Call::Step);
        follow_one(rt, alloc, talk, Call::StepOnto);
    }
}
