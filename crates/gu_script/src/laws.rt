//! Laws of every script, and of the sheets of committed sweeps.

ghost use Rattle.std.specs.Prelude.{◌≡◌, List, None};
ghost use Rattle.std.specs.List.{AllByRecursion};
ghost use Rattle.std.specs.Str.Lines.{lines};
ghost use Rattle.gu_terms.specs.declared.entry.Entry.{Entry as EntryOf};
ghost use Rattle.gu_terms.specs.declared.entry.SweepEntry.{SweepEntry};
ghost use Rattle.gu_ref.specs.Rules.{IsSound};
ghost use Rattle.gu_ref.specs.Tables.{Tables};
ghost use Rattle.gu_rules.specs.Legal.{IsLegal};
ghost use Rattle.gu_rules.specs.Sweeps.{IsSweepOf};
ghost use Rattle.gu_view.specs.View.{GroupView, IsView};
ghost use Rattle.gu_text.specs.SheetText.{sheet_text};
ghost use Rattle.gu_world.specs.Runs.{Course, IsRunOf};
ghost use Rattle.gu_world.specs.declared.step.Step.{Step as StepOf};
ghost use Rattle.gu_script.specs.CommittedSheets.{PrintRightSheets};
ghost use Rattle.gu_script.specs.Journals.{IsWritableEntry, journal_text, said_after};
ghost use Rattle.gu_script.specs.Replaying.{SayAll, StepsAreARun};

/// A script is one run of the steps in its lines. So what holds of every run holds of a script.
pub fn a_script_is_a_run()
    ensures { StepsAreARun }
{}

/// Each committed sweep prints a right sheet: the text of its takes and its cut, in the view of its group as the book was just before the
/// commit, is a sheet, is read back as these takes and this cut, and passes the check with the sweep's lots.
pub fn a_committed_sweep_prints_a_right_sheet()
    ensures legal { (reference : Tables) (history : List EntryOf)
        → IsSound reference
        → IsLegal reference history
        → PrintRightSheets reference history }
    ensures runs { (reference : Tables) (steps : List StepOf) (course : Course)
        → IsSound reference
        → IsRunOf reference steps course
        → PrintRightSheets reference course.state.book.history }
{}

/// A sheet is a function of its view: any two sweeps of one view print the same bytes.
pub fn a_sheet_follows_from_its_view()
    ensures { (view : GroupView) (sweep other : SweepEntry)
        → IsView view
        → IsSweepOf view sweep
        → IsSweepOf view other
        → sheet_text view other.takes other.cut ≡ sheet_text view sweep.takes sweep.cut }
{}

/// The lines of a journal are silent, or say the entries of its history, one after another.
pub fn a_journal_says_its_entries()
    ensures { (history : List EntryOf) → AllByRecursion IsWritableEntry history → SayAll (lines (journal_text history)) (said_after None history) }
{}
