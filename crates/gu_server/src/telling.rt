//! The progress that a server prints at a terminal.

use crossbeam_channel::{Receiver, RecvTimeoutError};
use gu_houses::{Counts, Tally};
use std::io;
use std::io::Write;
use std::rt::Clock;
use std::sync::{Wait, WaitMethods};
use std::time::Duration;

/// How many seconds lie between two lines at least.
const PAUSE_S: u64 = 1;

/// Writes the counts over the previous line.
fn tell<T: Write>(terminal: &mut T, counts: Counts) -> io::Result<()> {
    let Counts {
        begun,
        ended,
        failed,
        entries,
        lots,
    } = counts;
    write!(
        terminal,
        "\rgiveup: connections {begun}, ended {ended}, faults {failed}, entries {entries}, lots swept {lots}"
    )?;
    terminal.flush()
}

/// Prints the counts once a second if they changed, until the other end of the channel is dropped, and then ends the line. What can't be
/// written is lost.
pub fn tell_all<R: Wait + Clock, T: Write>(
    rt: &R,
    tally: &Tally,
    terminal: &mut T,
    until: &Receiver<()>,
) {
    let mut told = tally.counts();
    for _ in rt.forever() {
        let ends = until.recv_timeout(rt, Duration::from_secs(PAUSE_S))
            != Err(RecvTimeoutError::Timeout);
        let counts = tally.counts();
        if counts != told {
            told = counts;
            let _ = tell(terminal, counts);
        }
        if ends {
            break;
        }
    }
    let _ = writeln!(terminal);
}
