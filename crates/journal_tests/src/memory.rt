//! A day in which each allocation fails in turn, or all of them from one on (tools/each-growth): a call that gets no memory says
//! so, and the day is as it would have been at the second try, if there is memory then.
use crate::days::{BATCHES, joined, recorded};
use gu_journal::SinkError;
use std::alloc::Global;

/// Returns whether the bytes of a day are its text, retrying once if memory is refused.
fn is_kept(alloc: Global) -> Result<bool, SinkError> {
    let day = match recorded(alloc, BATCHES) {
        Err(SinkError::Memory) => recorded(alloc, BATCHES)?,
        day => day?,
    };
    let text = match joined(alloc, BATCHES) {
        Ok(text) => text,
        Err(_) => joined(alloc, BATCHES)?,
    };
    Ok(day.bytes() == text.as_slice())
}

#[test]
fn refused_to_a_day_leaves_it_to_be_run_again(rt: HostRuntime) {
    let kept = is_kept(rt.alloc());
    assert!(rt; matches!(kept, Ok(true) | Err(SinkError::Memory)));
}
