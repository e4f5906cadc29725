//! Laws of scripts, and of written texts.

ghost use Rattle.std.specs.Prelude.{◌≡◌, ◌<◌, ◌^◌, ℕ, List, All, IsTrue};
ghost use Rattle.std.specs.List.{AllByRecursion};
ghost use Rattle.gu_text.specs.ReadBack.{AreWords, HasLines, IsReadAsWritten, IsReadBack, IsWritable};
ghost use Rattle.gu_terms.specs.Cuts.{CutLists, has_number};
ghost use Rattle.gu_terms.specs.LimitKeys.{has_key};
ghost use Rattle.gu_terms.specs.Names.{is_name};
ghost use Rattle.gu_terms.specs.Takes.{lots_of};
ghost use Rattle.gu_terms.specs.declared.command.Command.{Command as CommandOf};
ghost use Rattle.gu_terms.specs.declared.day.Day.{Day as DayOf};
ghost use Rattle.gu_terms.specs.declared.entry.SweepEntry.{SweepEntry as SweepOf};
ghost use Rattle.gu_terms.specs.declared.group.Group.{Group as GroupOf};
ghost use Rattle.gu_terms.specs.declared.limit_key.LimitKey.{LimitKey as KeyOf};
ghost use Rattle.gu_terms.specs.declared.takes.Take.{Take};
ghost use Rattle.gu_text.specs.Scripts.{Says};
ghost use Rattle.gu_text.specs.SheetText.{sheet_text};
ghost use Rattle.gu_text.specs.Sheets.{IsSheet, Refuses};
ghost use Rattle.gu_text.specs.WrittenCommands.{IsScriptLineOf, IsSilentLineOf, IsWritableCommand, IsWritableSweep, command_words, remark_words, sweep_remarks, sweep_words, undated};
ghost use Rattle.gu_text.specs.WrittenSheets.{IsNamed, cut_of, sheet_of, takes_of};
ghost use Rattle.gu_text.specs.declared.error.TextError.{TextError as ErrorOf};
ghost use Rattle.gu_text.specs.declared.error.TextError.TheVariants.{Memory};
ghost use Rattle.gu_text.specs.declared.script_line.Line.{Line as LineOf};
ghost use Rattle.gu_text.specs.declared.script_line.Line.TheVariants as line;
ghost use Rattle.gu_text.specs.declared.sheet.Sheet.{Sheet as SheetOf};
ghost use Rattle.gu_world.specs.declared.step.Step.TheVariants.{Enter};
ghost use Rattle.gu_view.specs.Check.{IsRight, has_offer, has_room};
ghost use Rattle.gu_view.specs.View.{GroupView, IsNested, IsView};

/// A line of a script says at most one thing.
pub fn a_line_says_one_thing()
    ensures { (text : List ℕ) (a b : LineOf) → Says text a → Says text b → a ≡ b }
{}

/// A line made of words is read as those words, and a text written line by line has those lines.
pub fn written_words_are_read_back()
    ensures words { (words : List (List ℕ)) → AreWords words → IsReadBack words }
    ensures lines { (rows : List (List (List ℕ))) → All AreWords rows → HasLines rows }
{}

/// The lines of a written sheet say what it was made of: its head, offers, rooms, takes and cut, and the end.
pub fn a_written_sheet_says_what_it_is()
    ensures { (view : GroupView) (takes : List Take) (cut : CutLists) → IsWritable view takes → IsReadAsWritten view takes cut }
{}

/// A text is at most one sheet, and a text that is a sheet is refused only for lack of memory.
pub fn a_text_is_one_sheet()
    ensures one { (text : List ℕ) (a b : SheetOf) → IsSheet text a → IsSheet text b → a ≡ b }
    ensures accepted { (text : List ℕ) (sheet : SheetOf) (error : ErrorOf) → IsSheet text sheet → Refuses text error → error ≡ Memory }
{}

/// A written sheet is read back as a sheet of the view, with a take for each of its offers, and the cut in its order. Takes and a cut that
/// name only what the view has come back with the same lots and the same members.
pub fn a_written_sheet_is_read_back()
    ensures sheet { (view : GroupView) (takes : List Take) (cut : CutLists) → IsView view → IsWritable view takes
        → IsSheet (sheet_text view takes cut) (sheet_of view takes cut) }
    ensures lots { (view : GroupView) (takes : List Take) (number : ℕ)
        → All (λ t. IsTrue (has_offer view.offers t.offer)) takes
        → lots_of (takes_of view takes) number ≡ lots_of takes number }
    ensures keys { (view : GroupView) (cut : CutLists) (key : KeyOf)
        → All (λ k. IsTrue (has_room view.rooms k)) cut.keys
        → has_key (cut_of view cut).keys key ≡ has_key cut.keys key }
    ensures numbers { (view : GroupView) (cut : CutLists) (number : ℕ)
        → All (λ n. IsTrue (has_offer view.offers n)) cut.offers
        → has_number (cut_of view cut).offers number ≡ has_number cut.offers number }
    ensures right { (view : GroupView) (takes : List Take) (cut : CutLists) (lots : ℕ)
        → IsRight view takes cut lots → IsRight view (takes_of view takes) (cut_of view cut) lots }

    // Right takes and cuts can be written so, apart from the version, by the invariants of names and numbers.
    ensures writable { (view : GroupView) (takes : List Take) (cut : CutLists) (lots : ℕ)
        → IsView view
        → IsNested view
        → IsNamed view
        → view.version < 10 ^ 12
        → IsRight view takes cut lots
        → IsWritable view takes }
{}

/// A written command is read back unchanged, a report as one for the open day; so is a sweep. Comments say nothing.
pub fn a_written_command_is_read_back()
    ensures command { (command : CommandOf) → IsWritableCommand command
        → IsScriptLineOf (command_words command) (line.Step (Enter (undated command))) }
    ensures remark { (report : CommandOf) (day : DayOf) → IsWritableCommand report
        → IsSilentLineOf (remark_words report day) }
    ensures sweep { (group : GroupOf) → IsTrue (is_name group.name) → IsScriptLineOf (sweep_words group) (line.Sweep group) }
    ensures swept { (sweep : SweepOf) → IsWritableSweep sweep → AllByRecursion IsSilentLineOf (sweep_remarks sweep) }
{}
