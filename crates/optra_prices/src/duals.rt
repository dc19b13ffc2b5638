//! The dual value of a node at prices.
ghost use Rattle.std.specs.Prelude.{◌≡◌, ◌≤◌, All, Contains, IfOk, length};
ghost use Rattle.optra_node.specs.Nodes.{IsNode};
ghost use Rattle.optra_prices.specs.Keepings.{AreKept};
ghost use Rattle.optra_prices.specs.Replies.{IsValuation};
ghost use Rattle.optra_prices.specs.Steps.{AreProper};

use crate::Dual;
use crate::arc_tables::ArcTables;
use crate::keeping::{bring_to, dual_over, keep_arcs};
use optra_graph::Graphs;
use optra_network::NoMemory;
use optra_node::{Node, Prices};
use optra_walk::{Instance, RowFamily};
use std::alloc::Global;

/// As [`dual`], over tables that are brought to the node.
fn brought_dual<F: RowFamily>(
    alloc: Global,
    inst: Instance<'_>,
    rows: &F,
    node: &Node,
    kept: &mut ArcTables<'_, F::Row>,
    prices: &Prices<F::Row>,
) -> Result<Dual, NoMemory>
    requires node { IsNode inst.net.now (length inst.bids.now) node.now }
    requires kept { AreKept F.Row.cmp inst.net.now (F.rows_of rows.now inst.net.now)
        (F.rows_used rows.now inst.net.now) inst.bids.now kept.old }
    requires prices { AreProper F.Row.cmp (F.rows_of rows.now inst.net.now) prices.now }
    ensures { IfOk result (IsValuation inst.entry.net.now (F.rows_of rows.now inst.entry.net.now)
        inst.entry.bids.now node.now prices.now) }
{
    bring_to(alloc, inst, rows, node, kept)?;
    dual_over(alloc, inst, rows, node, kept, prices)
}

/// The dual value of the node at the prices, in thousandths of a cent, with the reply and the term of each bid.
///
/// The dual value is the sum of price times capacity, and for each bid its term: the greatest, over the bid's allowed
/// walks, of 1,000 times the walk's value less the prices of the rows that its legs use. Zero takes part where the bid has
/// no yes leg. Where a bid with a yes leg has no allowed walk, its term is 0 and so is the dual value.
///
/// A reply is the first walk, in walk order, of those that reach this greatest value; there is none where the bid has no
/// yes leg and that value isn't above zero, or where no walk is allowed.
///
/// It needs at most 1,000 bids, proper prices, and the graphs of the bids on the instance's network. `NoMemory` is its
/// only refusal.
pub fn dual<F: RowFamily, G: Graphs>(
    alloc: Global,
    inst: Instance<'_>,
    graphs: &G,
    rows: &F,
    node: &Node,
    prices: &Prices<F::Row>,
) -> Result<Dual, NoMemory>
    requires node { IsNode inst.net.now (length inst.bids.now) node.now }
    requires network { G.network graphs.now ≡ inst.net.now }
    requires held { All (λ bid. Contains (G.held graphs.now) bid.path) inst.bids.now }
    requires prices { AreProper F.Row.cmp (F.rows_of rows.now inst.net.now) prices.now }
    ensures { IfOk result (λ dual. IsValuation inst.entry.net.now
        (F.rows_of rows.now inst.entry.net.now) inst.entry.bids.now node.now prices.now dual) }
{
    let mut kept = keep_arcs(alloc, inst, graphs, rows)?;
    let found = brought_dual(alloc, inst, rows, node, &mut kept, prices);
    drop(kept);
    found
}
