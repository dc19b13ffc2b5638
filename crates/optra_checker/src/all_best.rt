//! The best walks of all bids, as a tree is gone through.
ghost use Rattle.std.specs.Prelude.{◌≤◌, OnOk, length, take};
ghost use Rattle.optra_checker.specs.BestOnWay.{AreAllBest, AreAllBestAt};
ghost use Rattle.optra_open.specs.Loaded.{AreLatestAt};

use crate::best_on_way::BestOnWay;
use optra_network::NoMemory;
use optra_open::OpenNode;
use optra_rests::RestTable;
use optra_walk::RowFamily;
use std::alloc::Global;

/// As [`advance_all`], with the rows of the last decision at hand.
fn advance_each<F: RowFamily>(
    alloc: Global,
    node: &OpenNode<'_, F>,
    latest: &[F::Row],
    walks: &mut [BestOnWay],
    table: &mut RestTable,
) -> Result<(), NoMemory>
    requires latest { AreLatestAt F.Row.cmp F.rows_of node.now latest.now }
    requires walks { AreAllBestAt F.rows_of F.rows_used node.now walks.old }
    ensures { OnOk result (AreAllBestAt F.rows_of F.rows_used node.now walks.new) }
{
    let count = node.inst().bids.len() as u32;
    'bids: for bid in 0..count {
        let _ = walks[bid as usize].advance(alloc, node, latest, bid, table)?;
    }
    Ok(())
}

/// Advances the best walks of all bids to the open node, so that they serve all nodes below it.
/// `NoMemory` is its only refusal.
pub fn advance_all<F: RowFamily>(
    alloc: Global,
    node: &OpenNode<'_, F>,
    walks: &mut [BestOnWay],
    table: &mut RestTable,
) -> Result<(), NoMemory>
    requires { AreAllBestAt F.rows_of F.rows_used node.now walks.old }
    ensures { OnOk result (AreAllBestAt F.rows_of F.rows_used node.now walks.new) }
{
    let latest = node.latest_rows(alloc)?;
    let advanced = advance_each(alloc, node, &latest, walks, table);
    drop(latest);
    advanced
}

/// Turns the best walks of all bids from the open node to that of so many first decisions.
pub fn turn_back_all<F: RowFamily>(node: &OpenNode<'_, F>, walks: &mut [BestOnWay], depth: usize)
    requires depth { depth ≤ length node.now.node }
    requires walks { AreAllBestAt F.rows_of F.rows_used node.now walks.old }
    ensures { AreAllBest node.now.net (F.rows_of node.now.family node.now.net)
        (F.rows_used node.now.family node.now.net) node.now.bids (take depth node.now.node)
        walks.new }
{
    let count = node.inst().bids.len() as u32;
    'bids: for bid in 0..count {
        walks[bid as usize].turn_back(depth);
    }
}
