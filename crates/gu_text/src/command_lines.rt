//! Commands and sweeps as lines of a script.

ghost use Rattle.std.specs.Prelude.{◌≡◌, ◌++◌, ◌∷◌, [], OnOk, codes};
ghost use Rattle.std.specs.Fmt.{decimal};
ghost use Rattle.std.specs.List.{flat_map};
ghost use Rattle.gu_terms.specs.WrittenNumbers.{price_text};
ghost use Rattle.gu_text.specs.Scripts.{side_word};
ghost use Rattle.gu_text.specs.Texts.{line_of, word};
ghost use Rattle.gu_text.specs.WrittenCommands.{command_text, command_words, cut_key_remark_text, cut_offer_remark_text, pair_words, remark_text, sweep_rows, sweep_words, take_remark_text};

use crate::texts::{append_last_number, append_last_word, append_number, append_word};
use gu_terms::{
    Command, Day, FirmId, Group, Id, LimitKey, Line, OfferNo, ReportSide, SetLimit, Side,
    SweepEntry, Take,
};
use std::alloc::AllocError;

/// Returns the letter of a side.
fn side_word(side: Side) -> &'static [u8]
    ensures { result.now ≡ side_word side }
{
    match side {
        Side::Buy => b"B",
        Side::Sell => b"S",
    }
}

/// Appends the words of a limit, each followed by a space.
fn append_limit(output: &mut Vec<u8>, limit: &SetLimit) -> Result<(), AllocError>
    ensures { OnOk result (output.new.items ≡ output.old.items ++ flat_map word (command_words (Command.SetLimit limit.now))) }
{
    append_word(output, b"LIMIT")?;
    append_word(output, limit.group.get())?;
    append_word(output, limit.key.kind().as_bytes())?;
    append_word(output, limit.key.name())?;
    append_number(output, limit.lots)
}

/// Appends the first words of a report or a give-up: its word, its firm, its own id and the other id, each followed by a space.
fn append_own(
    output: &mut Vec<u8>,
    name: &[u8],
    firm: FirmId,
    own: &Id,
    other: &Id,
) -> Result<(), AllocError>
    ensures { OnOk result (output.new.items ≡ output.old.items ++ flat_map word (name.now ∷ firm.name ∷ own.now ∷ other.now ∷ [])) }
{
    append_word(output, name)?;
    append_word(output, firm.get())?;
    append_word(output, own.get())?;
    append_word(output, other.get())
}

/// Appends the words of a report after its ids, each followed by a space. There is no word for its day.
fn append_side(output: &mut Vec<u8>, report: &ReportSide) -> Result<(), AllocError>
    ensures { OnOk result (output.new.items ≡ output.old.items
        ++ flat_map word (side_word report.now.side ∷ report.now.symbol.name ∷ decimal report.now.lots ∷ price_text report.now.price
        ∷ report.now.account.name ∷ [])) }
{
    append_word(output, side_word(report.side))?;
    append_word(output, report.symbol.get())?;
    append_number(output, report.lots.get())?;
    append_word(output, report.price.text().get())?;
    append_word(output, report.account.get())
}

/// Appends the words of a give-up's lines, each followed by a space.
fn append_pairs(output: &mut Vec<u8>, lines: &[Line]) -> Result<(), AllocError>
    ensures { OnOk result (output.new.items ≡ output.old.items ++ flat_map word (pair_words lines.now)) }
{
    for line in lines {
        append_word(output, line.account.get())?;
        append_number(output, line.lots.get())?;
    }
    Ok(())
}

/// Appends the words of a carrying firm's response to an offer, each followed by a space.
fn append_response(
    output: &mut Vec<u8>,
    name: &[u8],
    firm: FirmId,
    offer: OfferNo,
) -> Result<(), AllocError>
    ensures { OnOk result (output.new.items ≡ output.old.items ++ flat_map word (name.now ∷ firm.name ∷ decimal offer ∷ [])) }
{
    append_word(output, name)?;
    append_word(output, firm.get())?;
    append_number(output, offer.get())
}

/// Appends the words of a command, each followed by a space.
fn append_command_words(output: &mut Vec<u8>, command: &Command) -> Result<(), AllocError>
    ensures { OnOk result (output.new.items ≡ output.old.items ++ flat_map word (command_words command.now)) }
{
    match command {
        Command::OpenDay(opening) => {
            append_word(output, b"DAY")?;
            append_word(output, &opening.day.text())
        }
        Command::SetLimit(limit) => append_limit(output, limit),
        Command::ReportSide(it) => {
            append_own(output, b"REPORT", it.firm, &it.id, &it.match_id)?;
            append_side(output, it)
        }
        Command::GiveUp(it) => {
            append_own(output, b"GIVEUP", it.firm, &it.id, &it.report)?;
            append_pairs(output, it.lines.as_slice())
        }
        Command::Claim(it) => append_response(output, b"CLAIM", it.firm, it.offer),
        Command::Refuse(it) => {
            append_response(output, b"REFUSE", it.firm, it.offer)?;
            append_number(output, it.why.number())
        }
        Command::Reverse(it) => append_response(output, b"REVERSE", it.firm, it.offer),
    }
}

/// Appends the script line that makes a command. It uses the open day, whatever day a report names.
pub fn append_command(output: &mut Vec<u8>, command: &Command) -> Result<(), AllocError>
    ensures { OnOk result (output.new.items ≡ output.old.items ++ command_text command.now) }
{
    append_command_words(output, command)?;
    // The last word is followed by a space, which the end of the line replaces.
    let _ = output.pop();
    output.push(b'\n')?;
    Ok(())
}

/// Appends a comment with a report and the day that it names.
pub fn append_remark(output: &mut Vec<u8>, report: &Command, day: Day) -> Result<(), AllocError>
    ensures { OnOk result (output.new.items ≡ output.old.items ++ remark_text report.now day) }
{
    append_word(output, b"#")?;
    append_command_words(output, report)?;
    append_last_word(output, &day.text())?;
    Ok(())
}

/// Appends a comment with the lots that a sweep takes from an offer.
fn append_take(output: &mut Vec<u8>, take: &Take) -> Result<(), AllocError>
    ensures { OnOk result (output.new.items ≡ output.old.items ++ take_remark_text take.now) }
{
    append_word(output, b"#")?;
    append_word(output, b"TAKE")?;
    append_number(output, take.offer.get())?;
    append_last_number(output, take.lots)
}

/// Appends a comment with a key of a cut.
fn append_cut_key(output: &mut Vec<u8>, key: &LimitKey) -> Result<(), AllocError>
    ensures { OnOk result (output.new.items ≡ output.old.items ++ cut_key_remark_text key.now) }
{
    append_word(output, b"#")?;
    append_word(output, b"CUT")?;
    append_word(output, key.kind().as_bytes())?;
    append_last_word(output, key.name())
}

/// Appends a comment with an offer of a cut.
fn append_cut_offer(output: &mut Vec<u8>, offer: &OfferNo) -> Result<(), AllocError>
    ensures { OnOk result (output.new.items ≡ output.old.items ++ cut_offer_remark_text offer.now) }
{
    append_word(output, b"#")?;
    append_word(output, b"CUT")?;
    append_word(output, b"OFFER")?;
    append_last_number(output, offer.get())
}

/// Appends the lots that a sweep takes, one comment for each offer.
fn append_takes(output: &mut Vec<u8>, takes: &[Take]) -> Result<(), AllocError>
    ensures { OnOk result (output.new.items ≡ output.old.items ++ flat_map take_remark_text takes.now) }
{
    for take in takes {
        append_take(output, take)?;
    }
    Ok(())
}

/// Appends the keys of a cut, one comment for each.
fn append_cut_keys(output: &mut Vec<u8>, keys: &[LimitKey]) -> Result<(), AllocError>
    ensures { OnOk result (output.new.items ≡ output.old.items ++ flat_map cut_key_remark_text keys.now) }
{
    for key in keys {
        append_cut_key(output, key)?;
    }
    Ok(())
}

/// Appends the offers of a cut, one comment for each.
fn append_cut_offers(output: &mut Vec<u8>, offers: &[OfferNo]) -> Result<(), AllocError>
    ensures { OnOk result (output.new.items ≡ output.old.items ++ flat_map cut_offer_remark_text offers.now) }
{
    for offer in offers {
        append_cut_offer(output, offer)?;
    }
    Ok(())
}

/// Appends the script line that sweeps a group.
fn append_sweep_line(output: &mut Vec<u8>, group: Group) -> Result<(), AllocError>
    ensures { OnOk result (output.new.items ≡ output.old.items ++ line_of (sweep_words group)) }
{
    append_word(output, b"SWEEP")?;
    append_last_word(output, group.get())
}

/// Appends the lines of a committed sweep: the script line that sweeps its group, with its takes and its cut as comments.
pub fn append_sweep(output: &mut Vec<u8>, sweep: &SweepEntry) -> Result<(), AllocError>
    ensures { OnOk result (output.new.items ≡ output.old.items ++ flat_map line_of (sweep_rows sweep.now)) }
{
    append_sweep_line(output, sweep.group)?;
    append_takes(output, sweep.takes.as_slice())?;
    append_cut_keys(output, sweep.cut.keys())?;
    append_cut_offers(output, sweep.cut.offers())?;
    Ok(())
}
