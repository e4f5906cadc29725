//! The comments of a batch.

ghost use Rattle.std.specs.Prelude.{◌≡◌, ◌++◌, ◌∷◌, [], List, ℕ, IfOk, OnOk};
ghost use Rattle.std.specs.Fmt.{decimal};
ghost use Rattle.gu_text.specs.Texts.{line_of};
ghost use Rattle.gu_keeping.specs.Batches.{IsOriginRow, digest_row};

use crate::chain::Chain;
use gu_desk::{FirmMessage, Origin};
use gu_msgs::moment_text;
use gu_text::texts::{append_last_number, append_last_word, append_number, append_word};
use std::alloc::{AllocError, Global};

/// Appends the words that name a firm's message, which end the line.
fn append_message(output: &mut Vec<u8>, message: &FirmMessage) -> Result<(), AllocError>
    ensures { OnOk result (output.new.items ≡ output.old.items
        ++ line_of (message.now.firm.name ∷ decimal message.now.connection ∷ decimal message.now.number ∷ [])) }
{
    append_word(output, message.firm.get())?;
    append_number(output, message.connection)?;
    append_last_number(output, message.number)
}

/// Appends the comment that says when an entry was made, and by which message of a firm, if any.
pub(crate) fn append_origin(output: &mut Vec<u8>, origin: &Origin) -> Result<(), AllocError>
    ensures { OnOk result ((row : List (List ℕ)) × IsOriginRow origin.now row × (output.new.items ≡ output.old.items ++ line_of row)) }
{
    let stamp = moment_text(origin.moment);
    append_word(output, b"#")?;
    match &origin.message {
        Some(message) => {
            append_word(output, stamp.as_slice())?;
            append_message(output, message)
        }
        None => append_last_word(output, stamp.as_slice()),
    }
}

/// Appends the comment with the digest of a chain.
pub(crate) fn append_digest(
    alloc: Global,
    output: &mut Vec<u8>,
    chain: &Chain,
) -> Result<(), AllocError>
    ensures { OnOk result (output.new.items ≡ output.old.items ++ line_of (digest_row chain.now)) }
{
    let digest = hex::encode(alloc, chain.digest().as_slice())?;
    append_word(output, b"#")?;
    append_number(output, chain.count() as u64)?;
    append_last_word(output, digest.as_bytes())
}

/// Returns the next text for a day that is resumed: comments, and then the comment with the digest of its chain, so that entries after the
/// last digest, from a batch whose end a crash cut off, are covered by one.
pub fn resume_text(alloc: Global, comments: &[u8], chain: &Chain) -> Result<Vec<u8>, AllocError>
    ensures { IfOk result (λ text. text.items ≡ comments.now ++ line_of (digest_row chain.now)) }
{
    let mut text = Vec::from_slice(alloc, comments)?;
    append_digest(alloc, &mut text, chain)?;
    Ok(text)
}
