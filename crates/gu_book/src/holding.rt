//! Lots as they are added to positions, and as they move between them.

ghost use Rattle.std.specs.Prelude.{◌≡◌, ◌<◌, ◌≤◌, ◌+◌, ◌^◌, IfOk};
ghost use Rattle.gu_positions.specs.Changes.{KeepsLots, KeepsNumbers, KeepsRows, lots_at};
ghost use Rattle.gu_positions.specs.Numbers.{IsRowOf};
ghost use Rattle.gu_positions.specs.Rows.{lots_in, lots_on};
ghost use Rattle.gu_terms.specs.declared.account.AccountId.{AccountId as AccountOf};
ghost use Rattle.gu_terms.specs.declared.side.Side.{Side as SideOf};
ghost use Rattle.gu_terms.specs.declared.symbol.Symbol.{Symbol as SymbolOf};
ghost use Rattle.gu_book.specs.Effects.{HoldsMoved};
ghost use Rattle.gu_book.specs.Moving.{HasRows, IsHeld};

use crate::deed::Moved;
use gu_positions::{Positions, RowNo};
use gu_terms::{AccountId, Symbol};
use gu_trades::Terms;
use std::alloc::AllocError;

/// Makes the rows of two accounts, each with its instrument.
pub fn make_rows(
    positions: &mut Positions,
    one: (&AccountId, &Symbol),
    two: (&AccountId, &Symbol),
) -> Result<(RowNo, RowNo), AllocError>
    ensures first { IfOk result (λ rows. IsRowOf positions.new one.entry.0.now one.entry.1.now rows.0) }
    ensures second { IfOk result (λ rows. IsRowOf positions.new two.entry.0.now two.entry.1.now rows.1) }
    ensures stay { KeepsNumbers positions.old positions.new }
    ensures same_lots { KeepsLots positions.old positions.new }
{
    let first = positions.make_row(one.0, one.1)?;
    let second = positions.make_row(two.0, two.1)?;
    Ok((first, second))
}

/// Moves lots of an offer from the row of its report to its own.
pub fn move_over(positions: &mut Positions, claimed: &Moved, rows: &(RowNo, RowNo))
    requires rows { HasRows positions.old claimed.now rows.now }
    requires there { IsHeld positions.old claimed.now claimed.now.report.account }
    ensures moved { HoldsMoved positions.old positions.new claimed.now.report claimed.now.report.account claimed.now.account claimed.now.lots }
    ensures stay { KeepsNumbers positions.old positions.new }
{
    positions.shift_between(&rows.0, &rows.1, claimed.report.side, claimed.lots);
}

/// Moves those lots back.
pub fn move_back(positions: &mut Positions, returned: &Moved, rows: &(RowNo, RowNo))
    requires rows { HasRows positions.old returned.now rows.now }
    requires there { IsHeld positions.old returned.now returned.now.account }
    ensures { HoldsMoved positions.old positions.new returned.now.report returned.now.account returned.now.report.account returned.now.lots }
{
    positions.shift_between(&rows.1, &rows.0, returned.report.side, returned.lots);
}

/// Adds the lots of a report to its row.
pub fn hold(positions: &mut Positions, row: &RowNo, report: &Terms)
    requires row { IsRowOf positions.old report.now.account report.now.symbol row.now }
    requires fits { lots_on positions.old report.now.side report.now.symbol + 1000000 < 2 ^ 64 }
    ensures same_rows { KeepsRows positions.old positions.new }
    ensures lots { (on : SideOf) (other : AccountOf) (another : SymbolOf) → lots_in positions.new on other another
        ≡ lots_in positions.old on other another + lots_at report.now.side report.now.account report.now.symbol report.now.lots on other another }
    ensures sums { (on : SideOf) (another : SymbolOf) → lots_on positions.new on another ≤ lots_on positions.old on another + 1000000 }
    ensures most { report.now.lots ≤ 1000000 }
    ensures stay { KeepsNumbers positions.old positions.new }
{
    positions.add_to(row, report.side, report.lots.get());
}
