//! Answers to a script's questions.

ghost use Rattle.std.specs.Prelude.{◌≡◌, ◌++◌, OnOk};
ghost use Rattle.gu_script.specs.Replaying.{interest_answer, limits_answer, position_answer};

use gu_book::Book;
use gu_terms::{AccountId, Group, Symbol};
use gu_text::{append_interest, append_limit, append_position, append_unknown};
use std::alloc::AllocError;

/// Appends an account's position in an instrument.
pub fn answer_position(
    book: &Book,
    account: AccountId,
    symbol: Symbol,
    output: &mut Vec<u8>,
) -> Result<(), AllocError>
    ensures { OnOk result (output.new.items ≡ output.old.items ++ position_answer book.now account symbol) }
{
    let reference = book.reference();
    if reference.account(account).is_some() && reference.is_instrument(symbol) {
        let (long, short) = book.position(account, symbol);
        append_position(output, &account, &symbol, long, short)
    } else {
        append_unknown(output)
    }
}

/// Appends the open interest of an instrument.
pub fn answer_interest(book: &Book, symbol: Symbol, output: &mut Vec<u8>) -> Result<(), AllocError>
    ensures { OnOk result (output.new.items ≡ output.old.items ++ interest_answer book.now symbol) }
{
    if book.reference().is_instrument(symbol) {
        let lots = book.open_interest(symbol);
        append_interest(output, &symbol, lots)
    } else {
        append_unknown(output)
    }
}

/// Appends the limits set in a group.
pub fn answer_limits(book: &Book, group: Group, output: &mut Vec<u8>) -> Result<(), AllocError>
    ensures { OnOk result (output.new.items ≡ output.old.items ++ limits_answer book.now group) }
{
    if !book.reference().group(group) {
        return append_unknown(output);
    }
    let rows = book.limits(&group)?;
    for row in &rows {
        append_limit(output, &group, row)?;
    }
    Ok(())
}
