//! Limits as they are now, in the order of the reference.

ghost use Rattle.std.specs.Prelude.{◌≡◌, ◌++◌, IfOk, OnOk};
ghost use Rattle.std.specs.Fn.{FnReturnsAt};
ghost use Rattle.std.specs.List.{filter_map};
ghost use Rattle.std.specs.Option.{option_to_list};
ghost use Rattle.gu_limits.specs.Limits.{row_in};
ghost use Rattle.gu_rules.specs.Limits.{keys_in_order};
ghost use Rattle.gu_terms.specs.declared.limit_key.LimitKey.{LimitKey as LimitKeyOf};

use gu_limits::LimitTable;
use gu_ref::Reference;
use gu_terms::{Group, LimitKey, LimitRow};
use std::alloc::{AllocError, Global};

/// Appends a limit, if there is one.
fn append_row(rows: &mut Vec<LimitRow>, row: Option<LimitRow>) -> Result<(), AllocError>
    ensures { OnOk result (rows.new.items ≡ rows.old.items ++ option_to_list row) }
{
    // Taken apart and rebuilt, so that the checker sees the types inside.
    if let Some(
        LimitRow {
            key,
            limit,
            used,
            room,
        },
    ) = row
    {
        rows.push(LimitRow {
            key,
            limit,
            used,
            room,
        })?;
    }
    Ok(())
}

/// Appends the limits set in a group on these items, each found by its key.
fn append_rows<T, F: Fn(&T) -> LimitKey>(
    rows: &mut Vec<LimitRow>,
    limits: &LimitTable,
    group: &Group,
    items: &[T],
    key_of: F,
) -> Result<(), AllocError>
    requires { F.IsAlwaysCallable key_of }
    ensures { (key : T → LimitKeyOf) → ((item : T) (k : LimitKeyOf) → FnReturnsAt F.Fn key_of item k → k ≡ key item)
        → OnOk result (rows.new.items ≡ rows.old.items ++ filter_map (λ item. row_in limits.now group.now (key item)) items.now) }
{
    for item in items {
        append_row(rows, limits.row(group, &key_of(item)))?;
    }
    Ok(())
}

/// Appends all limits set in a group.
fn append_in_order(
    rows: &mut Vec<LimitRow>,
    reference: &Reference,
    limits: &LimitTable,
    group: &Group,
) -> Result<(), AllocError>
    ensures { OnOk result (rows.new.items ≡ rows.old.items ++ filter_map (row_in limits.now group.now) (keys_in_order reference.now)) }
{
    let firms = reference.firms();
    let agreements = reference.agreements();
    let accounts = reference.accounts();
    append_rows(rows, limits, group, firms, |firm| LimitKey::Exec(*firm))?;
    append_rows(rows, limits, group, agreements, |row| LimitKey::Agr(row.id))?;
    append_rows(
        rows,
        limits,
        group,
        accounts,
        |row| LimitKey::Acct(row.account),
    )?;
    append_rows(rows, limits, group, firms, |firm| LimitKey::Carry(*firm))?;
    append_rows(rows, limits, group, firms, |firm| LimitKey::Guar(*firm))
}

/// Returns the limits set in a group: executing firms, agreements, accounts, carrying firms and guarantors, each in the order of the
/// reference.
pub fn rows_in_order(
    alloc: Global,
    reference: &Reference,
    limits: &LimitTable,
    group: &Group,
) -> Result<Vec<LimitRow>, AllocError>
    ensures { IfOk result (λ rows. rows.items ≡ filter_map (row_in limits.now group.now) (keys_in_order reference.now)) }
{
    let mut rows = Vec::new(alloc);
    append_in_order(&mut rows, reference, limits, group)?;
    Ok(rows)
}
