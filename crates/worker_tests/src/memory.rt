//! A worker in which each allocation fails in turn (tools/each-growth). A failure outside the worker shows nothing of it.

use crate::floors::{Floor, NO_JOURNAL, Setting};
use crate::plays::Play;
use gu_script::ScriptError;
use std::alloc::{AllocError, Global};
use std::sync::Wait;

/// Two places, on a day with an offer to C1.
const SETTING: Setting<'static> = Setting {
    script: "DAY 20260105/REPORT E1 R1 M1 B XF6 10 101.5 H1/REPORT E2 R2 M1 S XF6 10 101.5 H2/GIVEUP E1 L1 R1 A1 10/",
    wires: 2,
    workers: 1,
    places: 2,
    kept: NO_JOURNAL,
    secrets: "",
    looks: false,
};

/// What C1 and C2 send, and what they are sent.
const SAID: [(&str, &str); 2] = [
    (
        "C1",
        "\
in A 1 98=0|108=0|1137=9|
in 5 2
out A 1 98=0|108=0|1137=9|
out AS 2 755=1|71=0|794=8|87=6|55=XF6|54=1|53=10|6=101.5|75=20260105|78=1|79=A1|80=10|
out 5 3",
    ),
    (
        "C2",
        "\
in A 1 98=0|108=0|1137=9|
in 1 2 112=X|
in 5 3
out A 1 98=0|108=0|1137=9|
out 0 2 112=X|
out 5 3",
    ),
];

/// Returns what workers share, with room for what firms are sent.
fn floor(alloc: Global) -> Result<Floor, AllocError> {
    match Floor::new(alloc, SETTING) {
        Ok(floor) => {
            for wire in &floor.wires {
                wire.reserve(1_000)?;
            }
            Ok(floor)
        }
        Err(ScriptError::Memory) => Err(AllocError),
        Err(_) => Err(AllocError),
    }
}

/// Has both firms send all that they say, and end.
fn say<R: Wait>(rt: &R, play: &mut Play<'_>) -> Result<(), AllocError> {
    for (place, (firm, lines)) in SAID.iter().enumerate() {
        if let Some(wire) = play.floor.wires.get(place) {
            play.send(wire, firm, lines)?;
            wire.finish();
        }
        play.come(rt, place + 1, 0, None);
    }
    play.end_calls();
    play.floor.waits.takes_time.set(true);
    Ok(())
}

/// Returns whether each firm was sent all, or if that isn't wanted a first part of it, and has no connection any more.
fn is_told(play: &Play<'_>, is_all: bool) -> Result<bool, AllocError> {
    for (wire, (firm, lines)) in play.floor.wires.iter().zip(SAID) {
        let talk = play.talk(firm, lines)?;
        let found = play.look(wire, usize::MAX)?;
        let is_whole = found.len() == talk.output.len();
        if wire.is_open() || !talk.output.starts_with(found.as_str()) || (is_all && !is_whole) {
            return Ok(false);
        }
    }
    Ok(true)
}

/// Returns whether a worker serves both firms, or ends one of them or both; and says that it couldn't go on, if so.
fn is_served_or_ended<R: Wait>(rt: &R, alloc: Global) -> Result<bool, AllocError> {
    let floor = floor(alloc)?;
    let mut play = Play::new(alloc, "memory", &floor, SETTING)?;
    say(rt, &mut play)?;
    let goes_on = play.run(rt, 0);
    let (begun, ended, failed, places) = floor.host.counts();
    let is_counted = begun == ended && places == 0 && floor.posts.connections() == 0;
    let is_said = floor.posts.has_failed() != goes_on;
    let is_all = goes_on && failed == 0;
    Ok(is_counted && is_said && is_told(&play, is_all)?)
}

#[test]
fn a_failed_allocation_ends_a_connection_or_the_worker(rt: HostRuntime) {
    assert!(rt; is_served_or_ended(&rt, rt.alloc()).unwrap_or(true));
}
