//! The answer to a check, as a line.

ghost use Rattle.std.specs.Prelude.{◌≡◌, ◌++◌, ◌∷◌, IfOk, OnOk};
ghost use Rattle.gu_text.specs.Texts.{line_of};
ghost use Rattle.gu_text.specs.Verdicts.{lacking_words, named_words, verdict_text};
ghost use Rattle.gu_view.specs.Faults.{name_of};

use crate::replies::append_key;
use crate::texts::{append_last_number, append_last_word, append_number, append_word};
use gu_view::{CutFault, Unknown};
use std::alloc::{AllocError, Global};

/// Appends what the view lacks, which ends the line.
fn append_lacking(output: &mut Vec<u8>, lacking: Unknown) -> Result<(), AllocError>
    ensures { OnOk result (output.new.items ≡ output.old.items ++ line_of (lacking_words lacking)) }
{
    match lacking {
        Unknown::Key(key) => append_key(output, key),
        Unknown::Offer(offer) => {
            append_word(output, b"OFFER")?;
            append_last_number(output, offer.get())
        }
    }
}

#[tactic(auto, using(crate::proofs::JoinedWords::lacking_line))]
/// Appends a fault's name and the key or offer that it names, which end the line.
fn append_fault(output: &mut Vec<u8>, fault: CutFault) -> Result<(), AllocError>
    ensures { OnOk result (output.new.items ≡ output.old.items ++ line_of (name_of fault ∷ named_words fault)) }
{
    let name = fault.name().as_bytes();
    match &fault {
        CutFault::OverOffer(offer) | CutFault::Uncovered(offer) | CutFault::NotOldestFirst(offer) =>
            {
                append_word(output, name)?;
                append_last_number(output, offer.get())
            }
        CutFault::OverLimit(key) => {
            append_word(output, name)?;
            append_key(output, *key)
        }
        CutFault::Unknown(lacking) => {
            append_word(output, name)?;
            append_lacking(output, *lacking)
        }
        CutFault::RoomDiffers => append_last_word(output, name),
    }
}

/// Appends a verdict's line.
fn append_verdict(output: &mut Vec<u8>, verdict: &Result<u64, CutFault>) -> Result<(), AllocError>
    ensures { OnOk result (output.new.items ≡ output.old.items ++ verdict_text verdict.now) }
{
    match verdict {
        Ok(lots) => {
            append_word(output, b"OK")?;
            append_last_number(output, *lots)
        }
        Err(fault) => {
            append_word(output, b"FAULT")?;
            append_number(output, fault.number())?;
            append_fault(output, *fault)
        }
    }
}

/// Returns the line with the answer to a check.
pub fn verdict_text(alloc: Global, verdict: &Result<u64, CutFault>) -> Result<Vec<u8>, AllocError>
    ensures { IfOk result (λ text. text.items ≡ verdict_text verdict.now) }
{
    let mut output = Vec::new(alloc);
    append_verdict(&mut output, verdict)?;
    Ok(output)
}
