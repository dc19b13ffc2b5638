//! Dual values and replies of what stands.
ghost use Rattle.std.specs.Prelude.{◌≡◌, ◌≤◌, [], List, ℤ, All, IfOk, OnOk, ◌<◌, ◌^◌, length, replicate, pos, ◌+ℤ◌};
ghost use Rattle.std.specs.List.{list_any};
ghost use Rattle.optra_prices.specs.Bounds.{IsWholePrice};
ghost use Rattle.optra_node.specs.Duals.{sum_of};
ghost use Rattle.optra_node.specs.Certificates.{AreAscending};
ghost use Rattle.optra_graph.specs.Timed.{IsRoute};
ghost use Rattle.optra_prices.specs.Arcs.{path_reply};
ghost use Rattle.optra_prices.specs.Tables.{IsNumbering, IsRowPrice};
ghost use Rattle.optra_prices.specs.Standings.{Agrees, IsTermSize, value_of, terms_of, replies_of, AllStand, SetsPrice, valuation_of};
ghost use Rattle.optra_prices.specs.Columns.{IsColumns, PricesAllButDue};
ghost use Rattle.optra_prices.specs.Levels.{IsLevels, KeepsUses};

use crate::Dual;
use crate::columns::Columns;
use crate::levels::{Levels, set_price};
use crate::numbering::{BidTable, Standing};
use crate::row_numbers::{RowNumbers, number_of};
use optra_graph::TimeGraph;
use optra_network::NoMemory;
use optra_node::Prices;
use optra_walk::{RowFamily, Walk};
use std::alloc::Global;

/// Whether some bid is stuck.
fn any_stuck(standings: &[Standing]) -> bool
    ensures { result ≡ list_any (λ standing. standing.stuck) standings.now }
{
    standings.iter().any(|standing| standing.stuck)
}

/// The sum of the terms, and the price of all capacity.
fn with_terms(capacity: i128, standings: &[Standing]) -> i128
    requires capacity { IsWholePrice capacity }
    requires few { length standings.now ≤ 1000 }
    requires small { All (λ standing. IsTermSize standing.term) standings.now }
    ensures { result ≡ capacity +ℤ sum_of (λ standing. standing.term) standings.now }
{
    let mut total = capacity;
    for standing in standings {
        total += standing.term;
    }
    total
}

/// The dual value: 0 where some bid is stuck.
pub(crate) fn dual_value(capacity: i128, standings: &[Standing]) -> i128
    requires capacity { IsWholePrice capacity }
    requires few { length standings.now ≤ 1000 }
    requires small { All (λ standing. IsTermSize standing.term) standings.now }
    ensures { result ≡ value_of capacity standings.now }
{
    if any_stuck(standings) {
        0
    } else {
        with_terms(capacity, standings)
    }
}

/// The terms.
pub(crate) fn terms(alloc: Global, standings: &[Standing]) -> Result<Vec<i128>, NoMemory>
    ensures { IfOk result (λ terms. terms.items ≡ terms_of standings.now) }
{
    standings
        .iter()
        .map(|standing| standing.term)
        .collect(alloc)
}

/// The walk of a path; none where the path is empty.
pub(crate) fn reply(
    alloc: Global,
    graph: &TimeGraph,
    path: &[u32],
) -> Result<Option<Walk>, NoMemory>
    requires { (path.now ≡ [] → ⊥) → IsRoute graph.now path.now }
    ensures { IfOk result (λ reply. reply ≡ path_reply graph.now path.now) }
{
    if path.is_empty() {
        return Ok(None);
    }
    let walk = graph.walk_of(alloc, path)?;
    Ok(Some(walk))
}

/// The walks of the replies.
pub(crate) fn replies(
    alloc: Global,
    tables: &[BidTable<'_>],
    standings: &[Standing],
) -> Result<Vec<Option<Walk>>, NoMemory>
    requires { (grouped : List ℤ) × AllStand tables.now grouped standings.now }
    ensures { IfOk result (λ replies. replies.items ≡ replies_of tables.now standings.now) }
{
    let mut replies = Vec::with_capacity(alloc, tables.len())?;
    for number in 0..tables.len() {
        let standing = &standings[number];
        let walk = reply(alloc, tables[number].graph, &standing.path)?;
        replies.push(walk)?;
    }
    Ok(replies)
}

/// Sets the listed prices of rows that have numbers, where all prices were 0.
pub(crate) fn put_prices<F: RowFamily>(
    numbering: &RowNumbers<F::Row>,
    levels: &mut Levels,
    columns: &mut Columns,
    entries: &[(F::Row, i64)],
) -> Result<(), NoMemory>
    requires numbering { IsNumbering F.Row.cmp numbering.now.order.items numbering.now.rows.items }
    requires levels { IsLevels levels.old }
    requires columns { IsColumns columns.old.groups columns.old }
    requires due { PricesAllButDue levels.old.prices.items columns.old }
    requires ascending { AreAscending F.Row.cmp entries.now }
    requires range { All (λ entry. IsRowPrice entry.1) entries.now }
    requires zero { levels.old.prices.items ≡ replicate (length numbering.now.rows.items) (pos 0) }
    ensures agrees { OnOk result (Agrees F.Row.cmp numbering.now.rows.items levels.new.prices.items
        entries.now) }
    ensures levels { OnOk result (IsLevels levels.new) }
    ensures columns { OnOk result (IsColumns columns.old.groups columns.new) }
    ensures due { OnOk result (PricesAllButDue levels.new.prices.items columns.new) }
    ensures grouped { OnOk result (columns.new.grouped ≡ columns.old.grouped) }
    ensures rest { OnOk result (KeepsUses levels.old levels.new) }
    ensures count { OnOk result (length levels.new.prices.items ≡ length numbering.now.rows.items) }
{
    for entry in entries {
        put_row_price::<F>(numbering, levels, columns, *entry)?;
    }
    Ok(())
}

/// Sets the price of a row, where the row has a number.
fn put_row_price<F: RowFamily>(
    numbering: &RowNumbers<F::Row>,
    levels: &mut Levels,
    columns: &mut Columns,
    entry: (F::Row, i64),
) -> Result<(), NoMemory>
    requires numbering { IsNumbering F.Row.cmp numbering.now.order.items numbering.now.rows.items }
    requires levels { IsLevels levels.old }
    requires columns { IsColumns columns.old.groups columns.old }
    requires due { PricesAllButDue levels.old.prices.items columns.old }
    requires price { IsRowPrice entry.1 }
    requires count { length levels.old.prices.items ≡ length numbering.now.rows.items }
    ensures prices { OnOk result (SetsPrice F.Row.cmp numbering.now.rows.items entry
        levels.old.prices.items levels.new.prices.items) }
    ensures levels { OnOk result (IsLevels levels.new) }
    ensures columns { OnOk result (IsColumns columns.old.groups columns.new) }
    ensures due { OnOk result (PricesAllButDue levels.new.prices.items columns.new) }
    ensures grouped { OnOk result (columns.new.grouped ≡ columns.old.grouped) }
    ensures rest { OnOk result (KeepsUses levels.old levels.new) }
{
    if let Some(number) = number_of::<F>(numbering, entry.0) {
        set_price(levels, columns, number, entry.1)?;
    }
    Ok(())
}

/// The entries of prices.
pub(crate) fn entries<R>(prices: &Prices<R>) -> &[(R, i64)]
    ensures value { result.now ≡ prices.now }
    ensures few { length result.now < 2 ^ 63 }
{
    &prices.entries
}

/// The dual value, the replies and the terms of what stands.
pub(crate) fn assemble(
    alloc: Global,
    capacity: i128,
    tables: &[BidTable<'_>],
    standings: &[Standing],
) -> Result<Dual, NoMemory>
    requires capacity { IsWholePrice capacity }
    requires few { length standings.now ≤ 1000 }
    requires small { All (λ standing. IsTermSize standing.term) standings.now }
    requires stand { (grouped : List ℤ) × AllStand tables.now grouped standings.now }
    ensures { IfOk result (λ dual. dual ≡ valuation_of capacity tables.now standings.now) }
{
    let value = dual_value(capacity, standings);
    let replies = replies(alloc, tables, standings)?;
    let terms = terms(alloc, standings)?;
    Ok(Dual {
        value,
        replies,
        terms,
    })
}
