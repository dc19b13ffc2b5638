//! The prices and capacities of rows that have numbers.
ghost use Rattle.std.specs.Prelude.{◌≡◌, ◌≤◌, true, pos, All, Contains, IfOk, OnOk, length, map, replicate, take};
ghost use Rattle.optra_node.specs.Duals.{ArePrices};
ghost use Rattle.optra_prices.specs.Courses.{listed, HaveCapacities};
ghost use Rattle.optra_prices.specs.Levels.{IsLevels, AreUnused};
ghost use Rattle.optra_prices.specs.Listings.{AddsZeros, rows_at};
ghost use Rattle.optra_prices.specs.Tables.{IsNumbering, Extends};

use crate::levels::{Levels, free_levels, push_level, reserve_levels};
use crate::rooms::unused;
use crate::row_numbers::{RowNumbers, number};
use crate::stepping::push_price;
use optra_network::{Network, NoMemory};
use optra_walk::{CodedRow, RowFamily, RowList};
use std::alloc::Global;

/// Gives each listed row a number, where it has none yet.
pub(crate) fn number_more<F: RowFamily>(
    net: &Network,
    rows: &F,
    numbering: &mut RowNumbers<F::Row>,
    entries: &[(F::Row, i64)],
) -> Result<(), NoMemory>
    requires prices { ArePrices (F.rows_of rows.now net.now) entries.now }
    requires numbering { IsNumbering F.Row.cmp numbering.old.order.items numbering.old.rows.items }
    requires rows { All (λ row. (F.rows_of rows.now net.now).is_row row ≡ true)
        numbering.old.rows.items }
    ensures numbering { OnOk result (IsNumbering F.Row.cmp numbering.new.order.items
        numbering.new.rows.items) }
    ensures rows { OnOk result (All (λ row. (F.rows_of rows.now net.now).is_row row ≡ true)
        numbering.new.rows.items) }
    ensures extends { OnOk result (Extends numbering.old.rows.items numbering.new.rows.items) }
    ensures same { OnOk result (length numbering.new.rows.items ≡ length numbering.old.rows.items
        → numbering.new ≡ numbering.old) }
    ensures numbered { OnOk result (All (λ e. Contains numbering.new.rows.items e.0) entries.now) }
{
    for entry in entries {
        number::<F>(numbering, entry.0)?;
    }
    Ok(())
}

/// All rows that have numbers, at no price and with no use.
pub(crate) fn first_levels<F: RowFamily>(
    alloc: Global,
    net: &Network,
    rows: &F,
    numbered: &RowList<F::Row>,
) -> Result<Levels, NoMemory>
    requires { All (λ row. (F.rows_of rows.now net.now).is_row row ≡ true) numbered.now.items }
    ensures levels { IfOk result IsLevels }
    ensures unused { IfOk result AreUnused }
    ensures capacities { IfOk result (λ levels. HaveCapacities (F.rows_of rows.now net.now)
        numbered.now.items levels.loads.capacities) }
    ensures prices { IfOk result (λ levels. levels.prices.items
        ≡ replicate (length numbered.now.items) (pos 0)) }
{
    net.laws();
    let loads = unused(alloc, net, rows, numbered)?;
    let levels = free_levels(alloc, loads)?;
    Ok(levels)
}

/// Makes room for all rows that have numbers, at no price and with no use.
pub(crate) fn widen<F: RowFamily>(
    levels: &mut Levels,
    net: &Network,
    rows: &F,
    numbered: &RowList<F::Row>,
) -> Result<(), NoMemory>
    requires levels { IsLevels levels.old }
    requires unused { AreUnused levels.old }
    requires rows { All (λ row. (F.rows_of rows.now net.now).is_row row ≡ true) numbered.now.items }
    requires few { length levels.old.prices.items ≤ length numbered.now.items }
    requires capacities { HaveCapacities (F.rows_of rows.now net.now)
        (take (length levels.old.prices.items) numbered.now.items) levels.old.loads.capacities }
    ensures levels { OnOk result (IsLevels levels.new) }
    ensures unused { OnOk result (AreUnused levels.new) }
    ensures capacities { OnOk result (HaveCapacities (F.rows_of rows.now net.now) numbered.now.items
        levels.new.loads.capacities) }
    ensures prices { OnOk result (AddsZeros levels.old.prices.items levels.new.prices.items) }
    ensures count { OnOk result (length levels.new.prices.items ≡ length numbered.now.items) }
{
    net.laws();
    reserve_levels(levels, numbered.len())?;
    for n in levels.prices.len()..numbered.len() {
        push_level(levels, rows.cap(net, numbered.at(n)))?;
    }
    Ok(())
}

/// The prices of active rows that are above zero.
fn active_prices<R: CodedRow>(
    alloc: Global,
    numbered: &RowList<R>,
    levels: &Levels,
) -> Result<Vec<(R, i64)>, NoMemory>
    requires levels { IsLevels levels.now }
    requires count { length levels.now.prices.items ≡ length numbered.now.items }
    ensures { IfOk result (λ entries. entries.items ≡ listed (rows_at numbered.now.items
        levels.now.active.items) levels.now.prices.items) }
{
    let mut entries = Vec::new(alloc);
    for k in 0..levels.active.len() {
        let number = levels.active[k];
        push_price(&mut entries, numbered.at(number), levels.prices.at(number))?;
    }
    Ok(entries)
}

/// The list of prices above zero.
pub(crate) fn list_prices<F: RowFamily>(
    alloc: Global,
    numbering: &RowNumbers<F::Row>,
    levels: &Levels,
) -> Result<Vec<(F::Row, i64)>, NoMemory>
    requires numbering { IsNumbering F.Row.cmp numbering.now.order.items numbering.now.rows.items }
    requires levels { IsLevels levels.now }
    requires count { length levels.now.prices.items ≡ length numbering.now.rows.items }
    ensures { IfOk result (λ entries. entries.items ≡ listed numbering.now.order.items
        levels.now.prices.items) }
{
    let mut entries = active_prices(alloc, numbering.rows(), levels)?;
    entries.sort_by_key(|entry| entry.0)?;
    Ok(entries)
}
