//! Copying a history's entries.

ghost use Rattle.std.specs.Prelude.{◌≡◌, ◌-◌, ◌≤◌, ◌++◌, drop, length, take, OnOk};

use gu_terms::{Entry, History};
use std::alloc::AllocError;

/// Appends copies of the entries from an index, counted from 0, up to an end. The index advances past each copied entry, even if a later
/// allocation fails.
pub(crate) fn copy_entries(
    history: &History,
    place: &mut usize,
    end: usize,
    entries: &mut Vec<Entry>,
) -> Result<(), AllocError>
    requires { (place.old ≤ end) × (end ≤ length history.now) }
    ensures copied { entries.new.items ≡ entries.old.items ++ take (place.new - place.old) (drop place.old history.now) }
    ensures within { (place.old ≤ place.new) × (place.new ≤ end) }
    ensures all { OnOk result (place.new ≡ end) }
{
    for at in *place..end {
        entries.reserve(1)?;
        entries.push_reserved(history.at(at)?);
        *place += 1;
    }
    Ok(())
}
