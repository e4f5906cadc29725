//! Appending words and numbers for which there is room.

ghost use Rattle.std.specs.Prelude.{◌≡◌, ◌+◌, ◌≤◌, ◌++◌, ◌∷◌, [], length, vec_capacity, vec_len};
ghost use Rattle.std.specs.Fmt.{decimal};
ghost use Rattle.gu_text.specs.Texts.{word, last_word};

use itoa::Buffer;

/// The room reserved for a line: eight words of at most 20 bytes, each with the byte that ends it.
pub(crate) const LINE_ROOM: usize = 168;

/// Appends bytes to a text.
#[inline(always)]
pub(crate) fn put(output: &mut Vec<u8>, bytes: &[u8])
    requires { vec_len output.old + length bytes.now ≤ vec_capacity output.old }
    ensures items { output.new.items ≡ output.old.items ++ bytes.now }
    ensures len { vec_len output.new ≡ vec_len output.old + length bytes.now }
    ensures capacity { vec_capacity output.old ≤ vec_capacity output.new }
{
    let Ok(()) = output.extend_from_slice(bytes) else {
        unreachable!();
    };
}

/// Appends a word and the byte that ends it to a text.
#[inline(always)]
pub(crate) fn put_ended(output: &mut Vec<u8>, bytes: &[u8], end: u8)
    requires { vec_len output.old + length bytes.now + 1 ≤ vec_capacity output.old }
    ensures items { output.new.items ≡ output.old.items ++ (bytes.now ++ end ∷ []) }
    ensures len { vec_len output.new ≡ vec_len output.old + length bytes.now + 1 }
    ensures capacity { vec_capacity output.old ≤ vec_capacity output.new }
{
    put(output, bytes);
    output.push_reserved(end);
}

/// Appends a word and a space to a text.
#[inline(always)]
pub(crate) fn put_word(output: &mut Vec<u8>, bytes: &[u8])
    requires short { length bytes.now ≤ 20 }
    requires room { vec_len output.old + 21 ≤ vec_capacity output.old }
    ensures items { output.new.items ≡ output.old.items ++ word bytes.now }
    ensures len { vec_len output.new ≤ vec_len output.old + 21 }
    ensures capacity { vec_capacity output.old ≤ vec_capacity output.new }
{
    put_ended(output, bytes, b' ');
}

/// Appends a word and the end of the line to a text.
#[inline(always)]
pub(crate) fn put_last_word(output: &mut Vec<u8>, bytes: &[u8])
    requires short { length bytes.now ≤ 20 }
    requires room { vec_len output.old + 21 ≤ vec_capacity output.old }
    ensures items { output.new.items ≡ output.old.items ++ last_word bytes.now }
    ensures len { vec_len output.new ≤ vec_len output.old + 21 }
    ensures capacity { vec_capacity output.old ≤ vec_capacity output.new }
{
    put_ended(output, bytes, b'\n');
}

/// Appends a number and a space to a text.
#[inline(always)]
pub(crate) fn put_number(output: &mut Vec<u8>, number: u64)
    requires { vec_len output.old + 21 ≤ vec_capacity output.old }
    ensures items { output.new.items ≡ output.old.items ++ word (decimal number) }
    ensures len { vec_len output.new ≤ vec_len output.old + 21 }
    ensures capacity { vec_capacity output.old ≤ vec_capacity output.new }
{
    let mut digits = Buffer::new();
    put_word(output, digits.format(number).as_bytes());
}

/// Appends a number and the end of the line to a text.
#[inline(always)]
pub(crate) fn put_last_number(output: &mut Vec<u8>, number: u64)
    requires { vec_len output.old + 21 ≤ vec_capacity output.old }
    ensures items { output.new.items ≡ output.old.items ++ last_word (decimal number) }
    ensures len { vec_len output.new ≤ vec_len output.old + 21 }
    ensures capacity { vec_capacity output.old ≤ vec_capacity output.new }
{
    let mut digits = Buffer::new();
    put_last_word(output, digits.format(number).as_bytes());
}
