//! Replies to commands as lines.

ghost use Rattle.std.specs.Prelude.{◌≡◌, ◌++◌, ◌∷◌, ◌+◌, ◌-◌, ◌≤◌, [], codes, length, vec_capacity, vec_len, IfOk, OnOk};
ghost use Rattle.std.specs.Fmt.{decimal};
ghost use Rattle.gu_terms.specs.LimitKeys.{kind_of};
ghost use Rattle.gu_text.specs.Replies.{done_words, key_words, refusal_words, reply_text};
ghost use Rattle.gu_text.specs.Texts.{last_word, line_of};

use crate::reserved::{
    LINE_ROOM, put, put_ended, put_last_number, put_last_word, put_number, put_word,
};
use gu_terms::{Done, LimitKey, Lots, OfferNo, Refusal, Reply};
use itoa::Buffer;
use std::alloc::{AllocError, Global};

/// Returns the word for a key's kind.
#[inline(always)]
pub(crate) fn kind_word(key: &LimitKey) -> &'static [u8]
    ensures word { result.now ≡ kind_of key.now }
    ensures short { length result.now ≤ 20 }
{
    key.kind().as_bytes()
}

/// Appends a key, which ends the line. There is room for it.
pub(crate) fn put_key(output: &mut Vec<u8>, key: &LimitKey)
    requires { vec_len output.old + 42 ≤ vec_capacity output.old }
    ensures { output.new.items ≡ output.old.items ++ line_of (key_words key.now) }
{
    put_word(output, kind_word(key));
    put_last_word(output, key.name());
}

/// Appends a key, which ends the line.
pub(crate) fn append_key(output: &mut Vec<u8>, key: LimitKey) -> Result<(), AllocError>
    ensures { OnOk result (output.new.items ≡ output.old.items ++ line_of (key_words key)) }
{
    output.reserve(LINE_ROOM)?;
    put_key(output, &key);
    Ok(())
}

/// Appends the number of the last of `count` offers, which ends the line. There is room for it.
fn put_last_offer(output: &mut Vec<u8>, first: OfferNo, count: u8)
    requires { vec_len output.old + 42 ≤ vec_capacity output.old }
    ensures { output.new.items ≡ output.old.items ++ last_word (decimal (first + count - 1)) }
{
    put_last_number(output, first.get() + u64::from(count) - 1);
}

/// Appends lots, which end the line. There is room for them.
fn put_lots(output: &mut Vec<u8>, lots: Lots)
    requires { vec_len output.old + 63 ≤ vec_capacity output.old }
    ensures { output.new.items ≡ output.old.items ++ line_of (codes "OK" ∷ codes "LOTS" ∷ decimal lots ∷ []) }
{
    put(output, b"OK LOTS ");
    put_last_number(output, lots.get());
}

/// Appends the effect of an accepted command, which ends the line. There is room for it.
fn put_done(output: &mut Vec<u8>, done: Done)
    requires { vec_len output.old + 105 ≤ vec_capacity output.old }
    ensures { output.new.items ≡ output.old.items ++ line_of (codes "OK" ∷ done_words done) }
{
    match done {
        Done::Opened | Done::LimitSet => put(output, b"OK\n"),
        Done::Reported { matched: true } => put(output, b"OK MATCHED\n"),
        Done::Reported { matched: false } => put(output, b"OK OPEN\n"),
        Done::Offered {
            group: _,
            first,
            count,
        } => {
            put(output, b"OK OFFERS ");
            put_number(output, first.get());
            put_last_offer(output, first, count);
        }
        Done::Claimed { lots } | Done::Refused { lots } | Done::Reversed { lots } => {
            put_lots(output, lots)
        }
    }
}

/// Appends the reason that a command was refused, which ends the line. There is room for it.
fn put_refusal(output: &mut Vec<u8>, refusal: Refusal)
    requires { vec_len output.old + 105 ≤ vec_capacity output.old }
    ensures { output.new.items ≡ output.old.items ++ line_of (codes "NO" ∷ refusal_words refusal) }
{
    let name = refusal.name().as_bytes();
    put_word(output, b"NO");
    put_number(output, refusal.number());
    match refusal.key() {
        Some(key) => {
            put_word(output, name);
            put_key(output, &key);
        }
        None => put_last_word(output, name),
    }
}

#[tactic(auto, using(crate::proofs::JoinedWords::reply_line))]
/// Appends the reply to the command in the entry with this number.
pub fn append_reply(output: &mut Vec<u8>, number: u64, reply: &Reply) -> Result<(), AllocError>
    ensures text { OnOk result (output.new.items ≡ output.old.items ++ reply_text number reply.now) }
{
    output.reserve(LINE_ROOM)?;
    put_number(output, number);
    match reply {
        Reply::Accepted(done) => put_done(output, *done),
        Reply::Denied(refusal) => put_refusal(output, *refusal),
    }
    Ok(())
}

/// Returns the text of the reply to the command in the entry with this number.
pub fn reply_text(alloc: Global, number: u64, reply: &Reply) -> Result<Vec<u8>, AllocError>
    ensures text { IfOk result (λ text. text.items ≡ reply_text number reply.now) }
{
    let mut output = Vec::new(alloc);
    append_reply(&mut output, number, reply)?;
    Ok(output)
}
