//! Histories of many entries.
use crate::reading::{asking_of, inbound_of};
use crate::rows::{Subject, check, first_word, number};
use crate::words::{Values, reply_of};
use gu_msgs::Request;
use gu_terms::{Command, Entry, History, Reply};
use std::alloc::{AllocError, Global};

/// Returns the command that the firm asks for by a message.
fn command_of(alloc: Global, w: &Values, message: &str) -> Result<Option<Command>, AllocError> {
    let Some(asking) = asking_of(inbound_of(alloc, message)?) else {
        return Ok(None);
    };
    match asking.into_request(w.firm) {
        Request::Enter(command) => Ok(Some(command)),
        Request::Ask(_) => Ok(None),
    }
}

/// Returns whether the entry of a number is this command with this reply.
fn is_entry(
    history: &History,
    number: u64,
    command: &Command,
    reply: Reply,
) -> Result<bool, AllocError> {
    let entry = history.entry(number)?;
    let is_same = match &entry {
        Some(
            Entry::Asked {
                command: found,
                reply: given,
            },
        ) => found.is_same(command) && given.is_same(reply),
        _ => false,
    };
    drop(entry);
    Ok(is_same)
}

/// Adds an entry this many times, retrying once if memory is refused, and returns whether each is shown as it came.
fn add_all(
    history: &mut History,
    command: &Command,
    reply: Reply,
    times: u64,
) -> Result<bool, AllocError> {
    let mut is_shown = true;
    for _ in 0..times {
        if history.push_asked(command, reply).is_err() {
            history.push_asked(command, reply)?;
        }
        is_shown &= is_entry(history, history.len() as u64, command, reply)?;
    }
    Ok(is_shown)
}

/// Returns whether words of a command and its reply are right: it is added this many times, or is the entry of this number.
fn is_right(
    history: &mut History,
    words: &str,
    command: &Command,
    reply: Reply,
) -> Result<bool, AllocError> {
    let (word, count) = first_word(words);
    match word {
        "add" => add_all(history, command, reply, number(count)),
        _ => is_entry(history, number(count), command, reply),
    }
}

/// Returns the same for a part of a row: the words, and after `: ` the message of the command and, after its last `|`, the reply.
fn is_part_right(
    alloc: Global,
    w: &Values,
    history: &mut History,
    part: &str,
) -> Result<bool, AllocError> {
    let (words, asked) = part.split_once(": ").unwrap_or(("", part));
    let (message, reply) = asked.rsplit_once('|').unwrap_or(("", asked));
    let Some(reply) = reply_of(w, reply) else {
        return Ok(false);
    };
    match command_of(alloc, w, message)? {
        Some(command) => is_right(history, words, &command, reply),
        None => Ok(false),
    }
}

/// Reports how many entries a history has after a part of a row, if the part is right.
fn tell_part(
    text: &mut String,
    alloc: Global,
    w: &Values,
    history: &mut History,
    part: &str,
) -> Result<(), AllocError> {
    if let Some(count) = part.strip_prefix("keep ") {
        history.truncate(number(count) as usize);
    } else if !is_part_right(alloc, w, history, part)? {
        text.push_str("not ")?;
    }
    write!(text, "{} ", history.len())
}

/// Returns how many entries a history has after each part of a row, if the part is right.
pub fn told(alloc: Global, w: &Values, asked: &str) -> Result<String, AllocError> {
    let mut history = History::new(alloc);
    let mut text = String::new(alloc);
    for part in asked.split("; ") {
        tell_part(&mut text, alloc, w, &mut history, part)?;
    }
    Ok(text)
}

/// Commands and replies, which a history shows as they came. No book answers the give-up of two lines by three offers, or a
/// claim as a report, and they are kept nevertheless.
const ENTRIES: &str = "\
add 1: 35=AE|571=r|880=m|55=XF6|32=10|31=-101.5|552=1|54=2|1=H1|open; \
add 1: 35=AE|571=r|880=m|55=XF6|32=10|31=-101.5|552=1|54=2|1=H1|LimitReached ACCT; \
add 1: 35=AE|571=rrrrrrr|880=mmmmmmm|55=XF6|32=10|31=-101.5|552=1|54=2|1=H1|matched; \
add 1: 35=AE|571=rrrrrrr|880=mmmmmmm|55=XF6|32=10|31=-101.5|552=1|54=2|1=H1|LimitReached ACCT; \
add 1: 35=AE|571={r*63}|880={m*63}|55=XF6|32=10|31=-101.5|552=1|54=2|1=H1|open; \
add 1: 35=AE|571={r*63}|880={m*63}|55=XF6|32=10|31=-101.5|552=1|54=2|1=H1|LimitReached ACCT; \
add 1: 35=AE|571={r*64}|880={m*64}|55=XF6|32=10|31=-101.5|552=1|54=2|1=H1|open; \
add 1: 35=AE|571={r*64}|880={m*64}|55=XF6|32=10|31=-101.5|552=1|54=2|1=H1|LimitReached ACCT; \
add 1: 35=J|70=L1|53=1|124=1|17=R1|78=1|79=A1|80=1|offered 1; \
add 1: 35=J|70=L1|53=2|124=1|17=R1|78=2|{79=A1|80=1|*2}|offered 2; \
add 1: 35=J|70=L1|53=16|124=1|17=R1|78=16|{79=A1|80=1|*16}|offered 16; \
add 1: 35=J|70=L1|53=2|124=1|17=R1|78=2|{79=A1|80=1|*2}|offered 3; \
add 1: 35=AT|755=16000000|87=0|matched; \
add 1: 35=AT|755=16000000|87=0|claimed 1000000; \
add 1: 35=AT|755=16000000|87=0|LimitReached ACCT; \
add 1: 35=AT|755=1|87=5|claimed 1000000 -> 1 2 3 4 5 6 7 8 9 10 11 12 13 14 15 16 \n";

/// Entries that are taken off, and the others, which stay. There is none of number 0, nor of one above all.
const TAKEN_OFF: &str = "\
add 1: 35=AE|571=rrrrr|880=mmmmm|55=XF6|32=10|31=-101.5|552=1|54=2|1=H1|open; \
add 1: 35=AE|571={r*64}|880={m*64}|55=XF6|32=10|31=-101.5|552=1|54=2|1=H1|open; \
add 1: 35=AE|571=rrr|880=mmm|55=XF6|32=10|31=-101.5|552=1|54=2|1=H1|open; \
keep 1; \
add 1: 35=AE|571=rrrrrrrrr|880=mmmmmmmmm|55=XF6|32=10|31=-101.5|552=1|54=2|1=H1|open; \
at 1: 35=AE|571=rrrrr|880=mmmmm|55=XF6|32=10|31=-101.5|552=1|54=2|1=H1|open; \
at 2: 35=AE|571=rrrrrrrrr|880=mmmmmmmmm|55=XF6|32=10|31=-101.5|552=1|54=2|1=H1|open; \
at 3: 35=AE|571=rrr|880=mmm|55=XF6|32=10|31=-101.5|552=1|54=2|1=H1|open; \
at 0: 35=AE|571=rrrrr|880=mmmmm|55=XF6|32=10|31=-101.5|552=1|54=2|1=H1|open -> 1 2 3 1 2 2 2 not 2 not 2 \n";

/// Thousands of entries, and twice as many after the first of them.
const THOUSANDS: &str = "\
add 10000: 35=AT|755=1|87=7|reversed 10; keep 1; add 20000: 35=AT|755=1|87=7|reversed 10 -> 10000 1 20001 \n";

#[test]
fn a_history_shows_thousands_of_entries_as_they_came(rt: HostRuntime) {
    check(&rt, rt.alloc(), Subject::History, ENTRIES);
    check(&rt, rt.alloc(), Subject::History, TAKEN_OFF);
    check(&rt, rt.alloc(), Subject::History, THOUSANDS);
}
