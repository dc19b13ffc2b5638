//! The price path of a node.
ghost use Rattle.std.specs.Prelude.{◌≡◌, ◌≤◌, All, Contains, IfOk, length};
ghost use Rattle.optra_node.specs.Nodes.{IsNode};
ghost use Rattle.optra_prices.specs.Keepings.{AreKept};
ghost use Rattle.optra_prices.specs.Paths.{IsPathResult};
ghost use Rattle.optra_prices.specs.Steps.{AreProper};

use crate::Priced;
use crate::arc_tables::ArcTables;
use crate::keeping::{bring_to, keep_arcs, price_path_over};
use crate::path_ends::PathEnds;
use optra_graph::Graphs;
use optra_network::{Cents, NoMemory};
use optra_node::{Node, Prices};
use optra_walk::{Instance, RowFamily};
use std::alloc::Global;

/// As [`price_path`], over tables that are brought to the node.
fn brought_path<F: RowFamily>(
    alloc: Global,
    inst: Instance<'_>,
    rows: &F,
    node: &Node,
    kept: &mut ArcTables<'_, F::Row>,
    ends: &PathEnds<'_, F::Row>,
    incumbent: Cents,
) -> Result<Priced<F::Row>, NoMemory>
    requires node { IsNode inst.net.now (length inst.bids.now) node.now }
    requires kept { AreKept F.Row.cmp inst.net.now (F.rows_of rows.now inst.net.now)
        (F.rows_used rows.now inst.net.now) inst.bids.now kept.old }
    requires start { AreProper F.Row.cmp (F.rows_of rows.now inst.net.now) ends.now.start.now }
    ensures { IfOk result (IsPathResult F.Row.cmp inst.entry.net.now
        (F.rows_of rows.now inst.entry.net.now) inst.entry.bids.now node.now ends.now.start.now
        ends.now.steps incumbent) }
{
    bring_to(alloc, inst, rows, node, kept)?;
    price_path_over(alloc, inst, rows, node, kept, ends, incumbent)
}

/// The result of the node's price path, with its dual value.
///
/// The candidates are the zero prices, the start prices, and then the prices after step 0, after steps 0 and 1, and so on,
/// each step by the replies at the candidate before it, for at most `steps` steps. The path ends after the first
/// candidate whose dual value in whole cents, rounded down, is at most `incumbent`, or after the last step. Its result is
/// the first candidate of least dual value.
///
/// It needs at most 1,000 bids, proper start prices, and the graphs of the bids on the instance's network. `NoMemory` is
/// its only refusal.
pub fn price_path<F: RowFamily, G: Graphs>(
    alloc: Global,
    inst: Instance<'_>,
    graphs: &G,
    rows: &F,
    node: &Node,
    start: &Prices<F::Row>,
    steps: u32,
    incumbent: Cents,
) -> Result<Priced<F::Row>, NoMemory>
    requires node { IsNode inst.net.now (length inst.bids.now) node.now }
    requires network { G.network graphs.now ≡ inst.net.now }
    requires held { All (λ bid. Contains (G.held graphs.now) bid.path) inst.bids.now }
    requires start { AreProper F.Row.cmp (F.rows_of rows.now inst.net.now) start.now }
    ensures { IfOk result (λ priced. IsPathResult F.Row.cmp inst.entry.net.now
        (F.rows_of rows.now inst.entry.net.now) inst.entry.bids.now node.now start.now steps
        incumbent priced) }
{
    let mut kept = keep_arcs(alloc, inst, graphs, rows)?;
    let ends = PathEnds { start, steps };
    let found = brought_path(alloc, inst, rows, node, &mut kept, &ends, incumbent);
    drop(kept);
    found
}
