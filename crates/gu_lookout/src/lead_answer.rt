//! What LEAD is answered.

ghost use Rattle.std.specs.Prelude.{◌≡◌, ◌++◌, ◌∷◌, [], OnOk};
ghost use Rattle.gu_lookout.specs.Answers.{lead_text, not_leading_text, sent};

use gu_standby::LeadAnswer;
use gu_text::texts::{append_last_word, append_word};
use std::alloc::AllocError;

/// Appends that a desk doesn't lead.
pub(crate) fn append_not_leading(output: &mut Vec<u8>) -> Result<(), AllocError>
    ensures { OnOk result (output.new.items ≡ output.old.items ++ not_leading_text) }
{
    append_word(output, b"NOT")?;
    append_last_word(output, b"LEADING")
}

/// Appends what LEAD is answered, with the empty line that ends it.
pub fn append_lead_answer(answer: LeadAnswer, output: &mut Vec<u8>) -> Result<(), AllocError>
    ensures { OnOk result (output.new.items ≡ output.old.items ++ sent (lead_text answer)) }
{
    match answer {
        LeadAnswer::Leading => append_last_word(output, b"LEADING")?,
        LeadAnswer::Stale => append_last_word(output, b"STALE")?,
        LeadAnswer::NotLeading => append_not_leading(output)?,
    }
    output.push(b'\n')?;
    Ok(())
}
