//! Positions as lines of text.

ghost use Rattle.std.specs.Prelude.{◌≡◌, ◌++◌, IfOk, OnOk};
ghost use Rattle.gu_capture.specs.PositionText.{account_text, position_line, positions_text};

use gu_book::Book;
use gu_terms::{AccountId, Symbol};
use gu_text::append_position;
use std::alloc::{AllocError, Global};

/// Appends a position's line, unless the account holds nothing of the instrument.
fn append_line(
    output: &mut Vec<u8>,
    book: &Book,
    account: AccountId,
    symbol: Symbol,
) -> Result<(), AllocError>
    ensures { OnOk result (output.new.items ≡ output.old.items ++ position_line book.now account symbol) }
{
    let (long, short) = book.position(account, symbol);
    if long == 0 && short == 0 {
        return Ok(());
    }
    append_position(output, &account, &symbol, long, short)
}

/// Appends the lines of an account.
fn append_account(output: &mut Vec<u8>, book: &Book, account: &AccountId) -> Result<(), AllocError>
    ensures { OnOk result (output.new.items ≡ output.old.items ++ account_text book.now account.now) }
{
    for instrument in book.reference().instruments() {
        append_line(output, book, *account, instrument.symbol)?;
    }
    Ok(())
}

/// Returns the lines of all accounts.
pub fn positions_text(alloc: Global, book: &Book) -> Result<Vec<u8>, AllocError>
    ensures { IfOk result (λ text. text.items ≡ positions_text book.now) }
{
    let mut output = Vec::new(alloc);
    for row in book.reference().accounts() {
        append_account(&mut output, book, &row.account)?;
    }
    Ok(output)
}
