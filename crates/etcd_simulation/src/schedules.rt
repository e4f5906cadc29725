//! Schedules: what the desks do, in an order that a seed draws.
use crate::cluster::{DeskId, Seat};
use crate::ways::{BusyWay, Way};
use crate::world::{Coverage, Fault, World};
use gu_etcd::{AppendError, Appender, LAST_NUMBER, MAX_ENTRY, entry_of};
use std::alloc::{AllocError, Global};
use std::test::Fail;

/// Returns the next entry of a desk. Desks with the same number of batches put the same batch.
fn next_entry(alloc: Global, id: DeskId, batches: u64) -> Result<Vec<u8>, AllocError> {
    let name = id.name(alloc)?;
    let batch = format!(in alloc; "LIMIT G1 EXEC E1 {batches}\n")?;
    entry_of(alloc, name.as_bytes(), batch.as_bytes())
}

/// Begins an entry of a desk, which may append it if it hasn't stopped. The entry is `None` if it may not.
fn begin(world: &mut World, seat: Seat) -> Result<Option<Vec<u8>>, AllocError> {
    let mut desk = world.desk(seat);
    if !desk.serves() || desk.count > LAST_NUMBER {
        return Ok(None);
    }
    desk.batches = desk.batches.saturating_add(1);
    world.set_desk(desk);
    Ok(Some(next_entry(world.alloc, desk.id, desk.batches)?))
}

/// Ends an entry of a desk: it is kept, or the desk stops.
fn end(
    world: &mut World,
    seat: Seat,
    entry: Vec<u8>,
    outcome: Result<u64, AppendError>,
) -> Result<(), AllocError> {
    let mut desk = world.desk(seat);
    match outcome {
        Ok(count) => {
            desk.count = count;
            world.acknowledge(desk.id, count, entry)?;
        }
        Err(error) => {
            if error == AppendError::Fenced {
                world.coverage.fenced = world.coverage.fenced.saturating_add(1);
            }
            desk.is_stopped = true;
        }
    }
    world.set_desk(desk);
    Ok(())
}

/// Has a desk append a batch, with nobody else acting meanwhile.
fn append(world: &mut World, seat: Seat) -> Result<(), AllocError> {
    let Some(entry) = begin(world, seat)? else {
        return Ok(());
    };
    if entry.len() > MAX_ENTRY {
        return Ok(());
    }
    let (alloc, count) = (world.alloc, world.desk(seat).count.min(LAST_NUMBER));
    let outcome = match Appender::new(Way { world, seat }, count).append(alloc, &entry) {
        Ok(appender) => Ok(appender.count()),
        Err(stopped) => Err(stopped.error()),
    };
    end(world, seat, entry, outcome)
}

/// Has a desk append a batch, while the other one goes on.
fn append_amid(world: &mut World, seat: Seat) -> Result<(), AllocError> {
    let Some(entry) = begin(world, seat)? else {
        return Ok(());
    };
    if entry.len() > MAX_ENTRY {
        return Ok(());
    }
    let (alloc, count) = (world.alloc, world.desk(seat).count.min(LAST_NUMBER));
    let outcome = match Appender::new(BusyWay { world, seat }, count).append(alloc, &entry) {
        Ok(appender) => Ok(appender.count()),
        Err(stopped) => Err(stopped.error()),
    };
    end(world, seat, entry, outcome)
}

/// Returns whether a machine does anything now. One that sleeps may wake up.
fn is_awake(world: &mut World, seat: Seat) -> bool {
    let wakes = world.draw(3) == 0;
    let mut desk = world.desk(seat);
    if desk.is_asleep && wakes {
        desk.is_asleep = false;
        world.set_desk(desk);
    }
    !desk.is_asleep
}

/// Has a desk claim the lead, while the other one may append.
fn claim(world: &mut World, seat: Seat) -> Result<(), AllocError> {
    let Some(sight) = world.look_at_leader(seat)? else {
        return Ok(());
    };
    if world.draw(3) == 0 {
        append(world, seat.other())?;
    }
    world.claim(seat, sight)
}

/// Has a desk do something but append, and returns whether it did.
fn act(world: &mut World, seat: Seat) -> Result<bool, AllocError> {
    match world.draw(12) {
        0 => world.disturb(seat),
        1 => {
            let ms = world.draw(4_000);
            world.pass(ms)?;
        }
        2 if world.desk(seat).is_stopped || world.desk(seat).lease.is_none() => world.lead(seat)?,
        3 if world.desk(seat).is_stopped || world.desk(seat).lease.is_none() => claim(world, seat)?,
        4 => world.renew(seat)?,
        5 | 6 => world.ask(seat),
        _ => return Ok(false),
    }
    Ok(true)
}

/// Has a desk go on for a few steps.
pub fn go_on(world: &mut World, seat: Seat) -> Result<(), AllocError> {
    let steps = world.draw(4);
    for _ in 0..steps {
        if is_awake(world, seat) && !act(world, seat)? {
            append(world, seat)?;
        }
    }
    Ok(())
}

/// How many steps a schedule has.
const STEPS: u32 = 48;

/// Plays the schedule of a seed.
fn play(alloc: Global, seed: u64) -> Result<World, AllocError> {
    let mut world = World::new(alloc, seed);
    for _ in 0..STEPS {
        let seat = if world.draw(2) == 0 { Seat::A } else { Seat::B };
        if is_awake(&mut world, seat) && !act(&mut world, seat)? {
            append_amid(&mut world, seat)?;
        }
        world.ask(seat);
    }
    world.pass(20_000)?;
    world.look();
    Ok(world)
}

/// Adds what came up.
fn add(total: &mut Coverage, one: Coverage) {
    total.acknowledged = total.acknowledged.saturating_add(one.acknowledged);
    total.fenced = total.fenced.saturating_add(one.fenced);
    total.unanswered = total.unanswered.saturating_add(one.unanswered);
    total.late = total.late.saturating_add(one.late);
    total.answers = total.answers.saturating_add(one.answers);
    total.refused_answers = total.refused_answers.saturating_add(one.refused_answers);
    total.two_leaders = total.two_leaders.saturating_add(one.two_leaders);
    total.takeovers = total.takeovers.saturating_add(one.takeovers);
    total.claims = total.claims.saturating_add(one.claims);
    total.stale_claims = total.stale_claims.saturating_add(one.stale_claims);
    total.late_answers = total.late_answers.saturating_add(one.late_answers);
}

#[test]
fn whatever_comes_in_between_there_is_one_history(rt: HostRuntime) -> Result<(), Fail> {
    let mut total = Coverage::default();
    for seed in 0..100_000_u64 {
        let world = play(rt.alloc(), seed)?;
        assert_eq!(rt; world.fault, None::<Fault>, "seed {seed}");
        add(&mut total, world.coverage);
    }
    assert!(rt; total.acknowledged > 100_000, "{total:?}");
    assert!(rt; total.fenced > 1_000, "{total:?}");
    assert!(rt; total.late > 1_000, "{total:?}");
    assert!(rt; total.two_leaders > 1_000, "{total:?}");
    assert!(rt; total.answers > 10_000, "{total:?}");
    assert!(rt; total.claims > 1_000, "{total:?}");
    assert!(rt; total.stale_claims > 1_000, "{total:?}");
    assert!(rt; total.late_answers > 100, "{total:?}");
    Ok(())
}
