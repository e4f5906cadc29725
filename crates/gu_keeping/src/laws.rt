//! Laws of the lines of batches.

ghost use Rattle.gu_keeping.specs.Days.{ABatchSaysItsEntries, ACrashLeavesFirstEntries};

/// If a text records a day, then with a batch after it it records the day with the batch's entries.
pub fn a_batch_says_its_entries()
    ensures { ABatchSaysItsEntries }
{}

/// The text found after a crash records a day with all entries kept, followed by the first entries of the batch in progress.
pub fn a_crash_leaves_the_first_entries()
    ensures { ACrashLeavesFirstEntries }
{}
