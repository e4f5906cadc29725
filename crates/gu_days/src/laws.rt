//! What the lines of a journal play to.

ghost use Rattle.std.specs.Prelude.{◌≡◌, ◌++◌, List, None, Some, ℕ};
ghost use Rattle.std.specs.List.{AllByRecursion};
ghost use Rattle.std.specs.Str.Lines.{lines};
ghost use Rattle.gu_terms.specs.declared.entry.Entry.{Entry as EntryOf};
ghost use Rattle.gu_ref.specs.Tables.{Tables};
ghost use Rattle.gu_rules.specs.Legal.{IsLegal};
ghost use Rattle.gu_world.specs.Runs.{Course, beginning};
ghost use Rattle.gu_script.specs.Journals.{IsWritableEntry, journal_text, said_after};
ghost use Rattle.gu_script.specs.Replaying.{IsTextOfLines, SayAll};
ghost use Rattle.gu_keeping.specs.Days.{SaysFirstEntries};
ghost use Rattle.gu_days.specs.PlayedBack.{ArePlayedBack};
ghost use Rattle.gu_days.specs.Resumed.{BeginsDay, IsDayAgain};

use gu_text::a_line_says_one_thing;

/// Lines of which each is silent or says the next entry of a legal history play to that day again, and to the same book.
pub fn what_says_a_day_plays_to_it()
    ensures { (reference : Tables) (history : List EntryOf) (texts : List (List ℕ)) (answers : List ℕ) (course : Course)
        → IsLegal reference history
        → SayAll texts (said_after None history)
        → IsTextOfLines (beginning reference) texts answers course
        → IsDayAgain reference history course.state.book.history }
{
    a_line_says_one_thing();
}

/// A journal is its day: the lines of the journal of a legal history play to that day again, and to the same book.
pub fn a_journal_is_its_day()
    ensures { (reference : Tables) (history : List EntryOf) (answers : List ℕ) (course : Course)
        → IsLegal reference history
        → AllByRecursion IsWritableEntry history
        → IsTextOfLines (beginning reference) (lines (journal_text history)) answers course
        → IsDayAgain reference history course.state.book.history }
{
    what_says_a_day_plays_to_it();
}

/// What a crash leaves of a day that was kept plays to the day again, with all entries that were kept and the first ones of the batch that was
/// under way.
pub fn what_a_crash_leaves_plays_to_what_was_kept()
    ensures { (reference : Tables) (kept batch : List EntryOf) (text found answers : List ℕ) (course : Course)
        → IsLegal reference (kept ++ batch)
        → SaysFirstEntries kept batch text (Some found)
        → IsTextOfLines (beginning reference) (lines found) answers course
        → BeginsDay reference kept batch course.state.book.history }
{
    what_says_a_day_plays_to_it();
}

/// What a legal history is played back as says the same lines. So a text that says the one day says the other, and a day goes on in the text
/// from which it was resumed.
pub fn what_is_played_back_says_the_same()
    ensures { (reference : Tables) (history other : List EntryOf)
        → IsLegal reference history
        → ArePlayedBack None history other
        → said_after None other ≡ said_after None history }
{}
