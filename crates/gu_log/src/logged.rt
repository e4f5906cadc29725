//! Work that is done while a thread writes the log.

ghost use denote.Param.Send.{IsSend, IsSync};

use crate::log::{EventLog, LogReader};
use crate::writer::write_all;
use std::alloc::Global;
use std::io::Write;
use std::rt::Clock;
use std::sync::Wait;
use std::thread;
use std::thread::{Scope, Threads};

/// The writer of a log, and the notes that it is to write.
#[derive(Drop)]
pub struct LogOutput<W> {
    pub reader: LogReader,
    pub writer: W,
}

impl<W: Write> LogOutput<W> {
    /// Writes what is noted, until nothing more is.
    pub fn write<R: Wait + Clock>(mut self, rt: &R, alloc: Global, log: &EventLog) -> Self {
        write_all(rt, alloc, log, &mut self.reader, &mut self.writer);
        self
    }
}

/// The result of work, and the writer of its log, unless no thread could be started.
#[derive(Drop)]
pub struct Logged<D, W> {
    pub done: D,
    pub output: Option<LogOutput<W>>,
}

/// Does work while a thread of its own writes the log.
fn work_beside<
    's,
    X,
    R: Threads + Wait + Clock + Sync,
    W: Write + Send + Drop + 's,
    D,
    F: FnOnce() -> D,
>(
    scope: &Scope<'s, X>,
    rt: &'s R,
    alloc: Global,
    log: &'s EventLog,
    output: LogOutput<W>,
    work: F,
) -> Logged<D, W>
    requires { F.IsAlwaysCallable work }
    ensures { F.post work result.done }
{
    let thread = scope.spawn(move || output.write(rt, alloc, log));
    let done = work();
    log.end(rt);
    let output = match thread {
        Ok(thread) => Some(thread.join(rt)),
        Err(_) => None,
    };
    Logged { done, output }
}

/// Returns the result of work. Meanwhile a thread writes the log, and ends with the work; if none can be started, the log is lost.
pub fn run_logged<R: Threads + Wait + Clock + Sync, W: Write + Send + Drop, D, F: FnOnce() -> D>(
    rt: &R,
    alloc: Global,
    log: &EventLog,
    output: LogOutput<W>,
    work: F,
) -> Logged<D, W>
    requires { F.IsAlwaysCallable work }
    ensures { F.post work result.done }
{
    thread::scope(
        thread::scope_env(),
        rt,
        |scope| -> Logged<D, W>
            requires { IsSync R.row × IsSend W.row × F.IsAlwaysCallable work }
            ensures { F.post work result.done }
        { work_beside(scope, rt, alloc, log, output, work) },
    )
}
