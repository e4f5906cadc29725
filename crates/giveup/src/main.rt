//! The program of the give-up clearing house.
#![tactic(auto)]

use gu_program::{Screen, status_of};
use std::io::IsTerminal;
use std::process::ExitCode;

fn main(rt: HostRuntime) -> ExitCode {
    let terminal = Some(rt.stderr()).filter(|stderr| stderr.is_terminal());
    let is_typed = rt.stdin().is_terminal();
    let screen = Screen {
        terminal,
        is_typed,
        stderr: rt.stderr(),
    };
    ExitCode::from(status_of(&rt, screen))
}
