//! Appending words and numbers to a text.

ghost use Rattle.std.specs.Prelude.{◌≡◌, ◌++◌, ◌∷◌, [], OnErr, OnOk};
ghost use Rattle.std.specs.Fmt.{decimal};
ghost use Rattle.gu_text.specs.Texts.{word, last_word};

use crate::reserved::put_ended;
use itoa::Buffer;
use std::alloc::AllocError;

/// Appends a word and the byte that ends it, with at most one allocation.
fn append_ended(output: &mut Vec<u8>, bytes: &[u8], end: u8) -> Result<(), AllocError>
    ensures ok { OnOk result (output.new.items ≡ output.old.items ++ (bytes.now ++ end ∷ [])) }
    ensures refused { OnErr result (output.new.items ≡ output.old.items) }
{
    output.reserve(bytes.len() + 1)?;
    put_ended(output, bytes, end);
    Ok(())
}

/// Appends a word and a space.
pub fn append_word(output: &mut Vec<u8>, bytes: &[u8]) -> Result<(), AllocError>
    ensures ok { OnOk result (output.new.items ≡ output.old.items ++ word bytes.now) }
    ensures refused { OnErr result (output.new.items ≡ output.old.items) }
{
    append_ended(output, bytes, b' ')
}

/// Appends a word and the end of the line.
pub fn append_last_word(output: &mut Vec<u8>, bytes: &[u8]) -> Result<(), AllocError>
    ensures ok { OnOk result (output.new.items ≡ output.old.items ++ last_word bytes.now) }
    ensures refused { OnErr result (output.new.items ≡ output.old.items) }
{
    append_ended(output, bytes, b'\n')
}

/// Appends a number and a space.
pub fn append_number(output: &mut Vec<u8>, number: u64) -> Result<(), AllocError>
    ensures ok { OnOk result (output.new.items ≡ output.old.items ++ word (decimal number)) }
    ensures refused { OnErr result (output.new.items ≡ output.old.items) }
{
    let mut digits = Buffer::new();
    append_word(output, digits.format(number).as_bytes())
}

/// Appends a number and the end of the line.
pub fn append_last_number(output: &mut Vec<u8>, number: u64) -> Result<(), AllocError>
    ensures ok { OnOk result (output.new.items ≡ output.old.items ++ last_word (decimal number)) }
    ensures refused { OnErr result (output.new.items ≡ output.old.items) }
{
    let mut digits = Buffer::new();
    append_last_word(output, digits.format(number).as_bytes())
}
