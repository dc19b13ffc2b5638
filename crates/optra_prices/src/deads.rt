//! Whether a node is dead.
ghost use Rattle.std.specs.Prelude.{◌≡◌, ◌≤◌, All, Contains, IfOk, length};
ghost use Rattle.optra_node.specs.Nodes.{IsNode};
ghost use Rattle.optra_prices.specs.Keepings.{AreKept};
ghost use Rattle.optra_prices.specs.Deads.{IsDeadAs};

use crate::Dead;
use crate::arc_tables::ArcTables;
use crate::keeping::{bring_to, dead_over, keep_arcs};
use optra_graph::Graphs;
use optra_network::NoMemory;
use optra_node::Node;
use optra_walk::{Instance, RowFamily};
use std::alloc::Global;

/// As [`dead`], over tables that are brought to the node.
fn brought_reason<F: RowFamily>(
    alloc: Global,
    inst: Instance<'_>,
    rows: &F,
    node: &Node,
    kept: &mut ArcTables<'_, F::Row>,
) -> Result<Option<Dead<F::Row>>, NoMemory>
    requires node { IsNode inst.net.now (length inst.bids.now) node.now }
    requires kept { AreKept F.Row.cmp inst.net.now (F.rows_of rows.now inst.net.now)
        (F.rows_used rows.now inst.net.now) inst.bids.now kept.old }
    ensures { IfOk result (IsDeadAs F.Row.cmp inst.entry.net.now
        (F.rows_of rows.now inst.entry.net.now) inst.entry.bids.now node.now) }
{
    bring_to(alloc, inst, rows, node, kept)?;
    Ok(dead_over(inst, rows, node, kept))
}

/// Why no choice that keeps the rule is of the node; `None` exactly where the node's yes legs overfill no row and each
/// bid with a yes leg has an allowed walk.
///
/// `Forced` comes with the least row that the yes legs overfill. Where they overfill none, `NoWalk` comes with the first
/// bid that has a yes leg and no allowed walk.
///
/// It needs at most 1,000 bids, and the graphs of the bids on the instance's network. `NoMemory` is its only refusal.
pub fn dead<F: RowFamily, G: Graphs>(
    alloc: Global,
    inst: Instance<'_>,
    graphs: &G,
    rows: &F,
    node: &Node,
) -> Result<Option<Dead<F::Row>>, NoMemory>
    requires node { IsNode inst.net.now (length inst.bids.now) node.now }
    requires network { G.network graphs.now ≡ inst.net.now }
    requires held { All (λ bid. Contains (G.held graphs.now) bid.path) inst.bids.now }
    ensures { IfOk result (λ reason. IsDeadAs F.Row.cmp inst.entry.net.now
        (F.rows_of rows.now inst.entry.net.now) inst.entry.bids.now node.now reason) }
{
    let mut kept = keep_arcs(alloc, inst, graphs, rows)?;
    let reason = brought_reason(alloc, inst, rows, node, &mut kept);
    drop(kept);
    reason
}
