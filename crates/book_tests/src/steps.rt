//! Lines that ask for steps, and the text of their outcomes.

use gu_terms::{Command, Day, Entry, Group, ReportSide, SweepEntry};
use gu_text::texts::{append_last_number, append_last_word, append_number, append_word};
use gu_text::{Line, TextError, append_outcome};
use gu_world::{Outcome, Step, Worker, World};
use std::alloc::{AllocError, Global};

/// Returns a report on a day that it names.
fn report_on(command: &Command, on: Day) -> Option<Step> {
    match command {
        Command::ReportSide(report) => Some(Step::Enter(Command::ReportSide(ReportSide {
            day: Some(on),
            ..*report
        }))),
        _ => None,
    }
}

/// Returns the report that a step enters, if it enters one.
fn step_on(step: &Step, on: Day) -> Option<Step> {
    match step {
        Step::Enter(command) => report_on(command, on),
        _ => None,
    }
}

/// Returns the report of the step in a line, if the line is a step.
fn read_on(read: &Result<Option<Line>, TextError>, on: Day) -> Option<Step> {
    match read {
        Ok(Some(Line::Step(step))) => step_on(step, on),
        _ => None,
    }
}

/// Returns the step of a line as `20260105 REPORT E1 R1 M1 B XF6 10 101.5 H1`.
fn dated(alloc: Global, line: &str) -> Option<Step> {
    let (date, report) = line.split_once(" ")?;
    let on = Day::read(date.as_bytes()).ok()?;
    let read = Line::read(alloc, report.as_bytes(), 0);
    let step = read_on(&read, on);
    drop(read);
    step
}

/// Returns the command of a line.
pub fn command_of(alloc: Global, line: &str) -> Option<Command> {
    match Line::read(alloc, line.as_bytes(), 0) {
        Ok(Some(Line::Step(Step::Enter(command)))) => Some(command),
        _ => None,
    }
}

/// Takes a step.
fn take_step(world: &mut World, step: Step) -> Option<()> {
    world.step(step).ok()
}

/// Sweeps a group in one go.
fn sweep(world: &mut World, group: Group) -> Option<()> {
    let worker = Worker::new(63)?;
    take_step(world, Step::See(worker, group))?;
    take_step(world, Step::Propose(worker))?;
    take_step(world, Step::Commit(worker))
}

/// Takes the steps that were read of a line, and says whether there are any.
fn take_read(world: &mut World, line: Line) -> Option<bool> {
    match line {
        Line::Step(step) => take_step(world, step)?,
        Line::Sweep(group) => sweep(world, group)?,
        question => {
            drop(question);
            return Some(false);
        }
    }
    Some(true)
}

/// Takes the step of a report that names its day, and says whether there is one.
fn take_dated(alloc: Global, world: &mut World, line: &str) -> Option<bool> {
    match dated(alloc, line) {
        Some(step) => {
            take_step(world, step)?;
            Some(true)
        }
        None => Some(false),
    }
}

/// Takes the steps that a line asks for, and returns whether there are any. Gives up if memory is refused.
pub fn take_steps(alloc: Global, world: &mut World, line: &str) -> Option<bool> {
    match Line::read(alloc, line.as_bytes(), 0) {
        Ok(Some(line)) => take_read(world, line),
        Ok(None) => Some(false),
        Err(TextError::Memory) => None,
        Err(TextError::BadLine(_)) => take_dated(alloc, world, line),
    }
}

/// Appends what a sweep takes, if anything, and its cut.
fn tell_sweep(text: &mut Vec<u8>, sweep: &SweepEntry) -> Result<(), AllocError> {
    for take in sweep.takes.as_slice() {
        if take.lots > 0 {
            append_word(text, b"TAKE")?;
            append_number(text, take.offer.get())?;
            append_last_number(text, take.lots)?;
        }
    }
    for key in sweep.cut.keys() {
        append_word(text, b"CUT")?;
        append_word(text, key.kind().as_bytes())?;
        append_last_word(text, key.name())?;
    }
    for offer in sweep.cut.offers() {
        append_word(text, b"CUT OFFER")?;
        append_last_number(text, offer.get())?;
    }
    Ok(())
}

/// Appends the outcome of a step.
pub fn tell_outcome(text: &mut Vec<u8>, outcome: &Outcome) -> Result<(), AllocError> {
    append_outcome(text, None, None, outcome)?;
    match outcome {
        Outcome::Swept(receipt) => match &receipt.entry {
            Entry::Swept(sweep) => tell_sweep(text, sweep),
            Entry::Asked { .. } => Ok(()),
        },
        _ => Ok(()),
    }
}
