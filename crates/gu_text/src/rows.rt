//! Positions, open interest and limits as lines.

ghost use Rattle.std.specs.Prelude.{◌≡◌, ◌++◌, IfOk, OnOk};
ghost use Rattle.gu_text.specs.Rows.{interest_text, limit_text, position_text, unknown_text};

use crate::replies::kind_word;
use crate::reserved::{LINE_ROOM, put_last_number, put_number, put_word};
use crate::texts::append_last_word;
use gu_terms::{AccountId, Group, LimitRow, Symbol};
use std::alloc::{AllocError, Global};

/// Appends an account's position in an instrument.
pub fn append_position(
    output: &mut Vec<u8>,
    account: &AccountId,
    symbol: &Symbol,
    long: u64,
    short: u64,
) -> Result<(), AllocError>
    ensures text { OnOk result (output.new.items ≡ output.old.items ++ position_text account.now symbol.now long short) }
{
    output.reserve(LINE_ROOM)?;
    put_word(output, b"POSITION");
    put_word(output, account.get());
    put_word(output, symbol.get());
    put_number(output, long);
    put_last_number(output, short);
    Ok(())
}

/// Returns an account's position in an instrument, as a line.
pub fn position_text(
    alloc: Global,
    account: &AccountId,
    symbol: &Symbol,
    long: u64,
    short: u64,
) -> Result<Vec<u8>, AllocError>
    ensures text { IfOk result (λ text. text.items ≡ position_text account.now symbol.now long short) }
{
    let mut output = Vec::new(alloc);
    append_position(&mut output, account, symbol, long, short)?;
    Ok(output)
}

/// Appends the open interest of an instrument.
pub fn append_interest(output: &mut Vec<u8>, symbol: &Symbol, lots: u64) -> Result<(), AllocError>
    ensures text { OnOk result (output.new.items ≡ output.old.items ++ interest_text symbol.now lots) }
{
    output.reserve(LINE_ROOM)?;
    put_word(output, b"INTEREST");
    put_word(output, symbol.get());
    put_last_number(output, lots);
    Ok(())
}

/// Returns the open interest of an instrument, as a line.
pub fn interest_text(alloc: Global, symbol: &Symbol, lots: u64) -> Result<Vec<u8>, AllocError>
    ensures text { IfOk result (λ text. text.items ≡ interest_text symbol.now lots) }
{
    let mut output = Vec::new(alloc);
    append_interest(&mut output, symbol, lots)?;
    Ok(output)
}

/// Appends a limit in a group, with its use and its room.
pub fn append_limit(output: &mut Vec<u8>, group: &Group, row: &LimitRow) -> Result<(), AllocError>
    ensures text { OnOk result (output.new.items ≡ output.old.items ++ limit_text group.now row.now) }
{
    output.reserve(LINE_ROOM)?;
    put_word(output, b"LIMIT");
    put_word(output, group.get());
    put_word(output, kind_word(&row.key));
    put_word(output, row.key.name());
    put_number(output, row.limit);
    put_number(output, row.used);
    put_last_number(output, row.room);
    Ok(())
}

/// Returns a limit in a group, with its use and its room, as a line.
pub fn limit_text(alloc: Global, group: &Group, row: &LimitRow) -> Result<Vec<u8>, AllocError>
    ensures text { IfOk result (λ text. text.items ≡ limit_text group.now row.now) }
{
    let mut output = Vec::new(alloc);
    append_limit(&mut output, group, row)?;
    Ok(output)
}

/// Appends the answer to a question about a name that the reference lacks.
pub fn append_unknown(output: &mut Vec<u8>) -> Result<(), AllocError>
    ensures text { OnOk result (output.new.items ≡ output.old.items ++ unknown_text) }
{
    append_last_word(output, b"UNKNOWN")
}
