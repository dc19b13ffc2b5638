//! The rows that the replies overfill, by tables that are at a node.
//!
//! The uses of rows are counted from step to step, so that only what the last replies changed is counted; and a row of
//! which more is used than its capacity is active, so that no other row is looked at.
ghost use Rattle.std.specs.Prelude.{◌≡◌, ◌↔◌, ◌<◌, IsTrue, IfOk, OnOk, length};
ghost use Rattle.optra_prices.specs.Courses.{replies_at};
ghost use Rattle.optra_prices.specs.Keepings.{AreKeptAt};
ghost use Rattle.optra_prices.specs.Levels.{IsLevels};
ghost use Rattle.optra_prices.specs.Overfull.{AreOverfilled, IsAbove, ListsAbove};

use crate::arc_tables::ArcTables;
use crate::levels::Levels;
use crate::loading::count_uses;
use optra_network::NoMemory;
use optra_node::Node;
use optra_walk::{CodedRow, Instance, RowFamily, RowList};
use std::alloc::Global;

/// Whether more is used of the row with this number than its capacity.
fn is_above(levels: &Levels, number: usize) -> bool
    requires levels { IsLevels levels.now }
    requires within { number < length levels.now.prices.items }
    ensures { IsTrue result ↔ IsAbove levels.now number }
{
    !levels.loads.is_within(number)
}

/// The rows of which more is used than their capacity.
fn rows_above<R: CodedRow>(
    alloc: Global,
    numbered: &RowList<R>,
    levels: &Levels,
) -> Result<Vec<R>, NoMemory>
    requires levels { IsLevels levels.now }
    requires count { length levels.now.prices.items ≡ length numbered.now.items }
    ensures { IfOk result (λ listed. ListsAbove numbered.now.items levels.now listed.items) }
{
    let mut listed = Vec::new(alloc);
    for k in 0..levels.active.len() {
        let number = levels.active[k];
        if is_above(levels, number) {
            listed.push(numbered.at(number))?;
        }
    }
    Ok(listed)
}

/// The rows of which the replies at the prices of the tables use more than there is. The tables are at the node and stay
/// there. After `NoMemory`, its only refusal, they serve no more.
pub fn overfull_rows<F: RowFamily>(
    alloc: Global,
    inst: Instance<'_>,
    rows: &F,
    node: &Node,
    kept: &mut ArcTables<'_, F::Row>,
) -> Result<Vec<F::Row>, NoMemory>
    requires { AreKeptAt F.Row.cmp inst.net.now (F.rows_of rows.now inst.net.now)
        (F.rows_used rows.now inst.net.now) inst.bids.now node.now kept.old }
    ensures kept { OnOk result (AreKeptAt F.Row.cmp inst.entry.net.now
        (F.rows_of rows.now inst.entry.net.now) (F.rows_used rows.now inst.entry.net.now)
        inst.entry.bids.now node.now kept.new) }
    ensures rows { IfOk result (λ listed. AreOverfilled (F.rows_of rows.now inst.entry.net.now)
        inst.entry.bids.now (replies_at kept.old) listed.items) }
{
    let _ = node;
    count_uses(
        &mut kept.levels,
        &kept.columns.groups,
        &mut kept.counted,
        &kept.standings,
    )?;
    rows_above(alloc, kept.numbering.rows(), &kept.levels)
}
