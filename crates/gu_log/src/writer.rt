//! The log's thread, which writes what is noted.

use crate::event::Event;
use crate::log::{EventLog, LogReader, Note, Taken};
use crate::patience::Patience;
use crate::rows::{LONGEST_LINE, append_line, append_lost_line};
use gu_terms::Moment;
use std::alloc::{AllocError, Global};
use std::io::Write;
use std::rt::Clock;
use std::sync::{Wait, WaitMethods};

/// The state of the log's thread between two lines.
#[derive(Drop)]
struct Pen {
    /// The line.
    line: Vec<u8>,
    patience: Patience,
    /// Whether lines are still written: false after an error that doesn't pass.
    is_open: bool,
}

/// Creates the buffer of a line, if there is memory for it.
fn room(alloc: Global) -> Vec<u8> {
    match Vec::with_capacity(alloc, LONGEST_LINE) {
        Ok(line) => line,
        Err(_) => Vec::new(alloc),
    }
}

/// Writes a whole text, and returns whether that succeeded.
fn write_whole<R: Wait + Clock, W: Write>(
    rt: &R,
    log: &EventLog,
    patience: &mut Patience,
    writer: &mut W,
    text: &[u8],
) -> bool {
    let mut rest = text;
    let mut is_whole = true;
    for _part in rt.forever() {
        if rest.is_empty() {
            break;
        }
        match writer.write(rest) {
            Ok(0) => {
                is_whole = false;
                break;
            }
            Ok(count) => rest = &rest[count..],
            Err(error) => {
                if !patience.waits(rt, log, &error) {
                    is_whole = false;
                    break;
                }
            }
        }
    }
    is_whole
}

/// Flushes a writer, and returns whether that succeeded.
fn flush<R: Wait + Clock, W: Write>(
    rt: &R,
    log: &EventLog,
    patience: &mut Patience,
    writer: &mut W,
) -> bool {
    let mut is_flushed = true;
    for _try in rt.forever() {
        match writer.flush() {
            Ok(()) => break,
            Err(error) => {
                if !patience.waits(rt, log, &error) {
                    is_flushed = false;
                    break;
                }
            }
        }
    }
    is_flushed
}

impl Pen {
    /// Creates one that has written nothing yet.
    fn new(alloc: Global) -> Self {
        Pen {
            line: room(alloc),
            patience: Patience::new(),
            is_open: true,
        }
    }

    /// Makes the line of a note.
    fn make(&mut self, moment: Moment, event: &Event) -> Result<(), AllocError> {
        self.line.clear();
        append_line(&mut self.line, moment, event)
    }

    /// Makes the line that says how many lines are lost.
    fn make_lost(&mut self, moment: Moment, lines: u64) -> Result<(), AllocError> {
        self.line.clear();
        append_lost_line(&mut self.line, moment, lines)
    }

    /// Writes the line that was made.
    fn write<R: Wait + Clock, W: Write>(&mut self, rt: &R, log: &EventLog, writer: &mut W) {
        self.is_open = write_whole(rt, log, &mut self.patience, writer, &self.line)
            && flush(rt, log, &mut self.patience, writer);
    }

    /// Writes what was noted before.
    fn write_begun<R: Wait + Clock, W: Write>(
        &mut self,
        rt: &R,
        log: &EventLog,
        writer: &mut W,
        text: &[u8],
    ) {
        if text.is_empty() {
            return;
        }
        self.is_open = write_whole(rt, log, &mut self.patience, writer, text)
            && flush(rt, log, &mut self.patience, writer);
    }

    /// Writes the line of a note. Without memory for it, the line is lost.
    fn write_note<R: Wait + Clock, W: Write>(
        &mut self,
        rt: &R,
        log: &EventLog,
        writer: &mut W,
        note: &Note,
    ) {
        if !self.is_open {
            return;
        }
        match self.make(note.moment, &note.event) {
            Ok(()) => self.write(rt, log, writer),
            Err(AllocError) => log.lose(1),
        }
    }

    /// Writes how many lines were lost since the last such report, if any were.
    fn write_lost<R: Wait + Clock, W: Write>(&mut self, rt: &R, log: &EventLog, writer: &mut W) {
        if !self.is_open {
            return;
        }
        let lines = log.take_lost();
        if lines == 0 {
            return;
        }
        match self.make_lost(log.moment(rt), lines) {
            Ok(()) => self.write(rt, log, writer),
            Err(AllocError) => log.lose(lines),
        }
    }
}

/// Writes what is noted, each line at once, until no more comes. A writer that takes nothing for now (`WouldBlock`) is tried again, up to a
/// second after the notes end. After any other error nothing more is written, and notes are taken and dropped.
pub fn write_all<R: Wait + Clock, W: Write>(
    rt: &R,
    alloc: Global,
    log: &EventLog,
    reader: &mut LogReader,
    writer: &mut W,
) {
    let mut pen = Pen::new(alloc);
    pen.write_begun(rt, log, writer, reader.begun());
    reader.forget_begun();
    for _turn in rt.forever() {
        let has_ended = log.has_ended();
        let taken = reader.take(rt, has_ended);
        pen.write_lost(rt, log, writer);
        match taken {
            Taken::Note(note) => pen.write_note(rt, log, writer, &note),
            Taken::Nothing => {
                if has_ended {
                    break;
                }
            }
            Taken::Awake => {}
            Taken::Over => break,
        }
    }
}
