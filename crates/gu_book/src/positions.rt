//! An account's positions, in the order of the reference.

ghost use Rattle.std.specs.Prelude.{◌≡◌, ◌++◌, IfOk, OnOk};
ghost use Rattle.std.specs.List.{filter_map};
ghost use Rattle.std.specs.Option.{option_to_list};
ghost use Rattle.gu_positions.specs.Rows.{lots_in};
ghost use Rattle.gu_ref.specs.declared.instruments.Instrument.{Instrument as InstrumentOf};
ghost use Rattle.gu_terms.specs.declared.side.Side.TheVariants.{Buy, Sell};
ghost use Rattle.gu_rules.specs.Positions.{is_of_firm, row_of_lots};

use gu_positions::Positions;
use gu_ref::{Instrument, Reference};
use gu_terms::{AccountId, FirmId, PositionRow, Symbol};
use std::alloc::{AllocError, Global};

/// Returns whether an account is in the reference and is this firm's.
pub fn is_of_firm(reference: &Reference, firm: FirmId, account: AccountId) -> bool
    ensures { result ≡ is_of_firm reference.now firm account }
{
    match reference.account(account) {
        Some(row) => row.firm == firm,
        None => false,
    }
}

/// Returns the row of an instrument, if there are any lots.
fn row_of_lots(symbol: Symbol, long: u64, short: u64) -> Option<PositionRow>
    ensures { result ≡ row_of_lots symbol long short }
{
    if long == 0 && short == 0 {
        return None;
    }
    Some(PositionRow {
        symbol,
        long,
        short,
    })
}

/// Appends a row, if there is one.
fn append_row(rows: &mut Vec<PositionRow>, row: Option<PositionRow>) -> Result<(), AllocError>
    ensures { OnOk result (rows.new.items ≡ rows.old.items ++ option_to_list row) }
{
    // Taken apart and rebuilt, so that the checker sees the types inside.
    if let Some(
        PositionRow {
            symbol,
            long,
            short,
        },
    ) = row
    {
        rows.push(PositionRow {
            symbol,
            long,
            short,
        })?;
    }
    Ok(())
}

/// Appends an account's positions in these instruments.
fn append_rows(
    rows: &mut Vec<PositionRow>,
    positions: &Positions,
    account: &AccountId,
    instruments: &[Instrument],
) -> Result<(), AllocError>
    ensures { OnOk result (rows.new.items ≡ rows.old.items
        ++ filter_map (λ (i : InstrumentOf). row_of_lots i.symbol (lots_in positions.now Buy account.now i.symbol) (lots_in positions.now Sell account.now i.symbol)) instruments.now) }
{
    for instrument in instruments {
        let (long, short) = positions.of(*account, instrument.symbol);
        append_row(rows, row_of_lots(instrument.symbol, long, short))?;
    }
    Ok(())
}

/// Returns an account's positions, in the order of the reference's instruments.
pub fn rows_of_account(
    alloc: Global,
    reference: &Reference,
    positions: &Positions,
    account: &AccountId,
) -> Result<Vec<PositionRow>, AllocError>
    ensures { IfOk result (λ rows. rows.items
        ≡ filter_map (λ (i : InstrumentOf). row_of_lots i.symbol (lots_in positions.now Buy account.now i.symbol) (lots_in positions.now Sell account.now i.symbol)) reference.now.instruments) }
{
    let mut rows = Vec::new(alloc);
    append_rows(&mut rows, positions, account, reference.instruments())?;
    Ok(rows)
}
