//! The best walk of a bid at a node and prices, by a search.
ghost use Rattle.std.specs.Prelude.{◌<◌, length, IfOk, IfSome};
ghost use Rattle.optra_node.specs.Duals.{ArePrices};
ghost use Rattle.optra_node.specs.Certificates.{AreAscending};
ghost use Rattle.optra_checker.specs.BestOnWay.{IsBestAt};
ghost use Rattle.optra_open.specs.Loaded.{AreRising, AreLoaded};
ghost use Rattle.optra_rests.specs.Weights.{IsWorthSize};

use crate::leaf_weights::LeafWeights;
use optra_network::NoMemory;
use optra_open::OpenNode;
use optra_rests::{RestTable, search};
use optra_walk::RowFamily;
use std::alloc::Global;

/// As [`best_found`], with the loaded rows of the node at hand.
fn best_beside<F: RowFamily>(
    alloc: Global,
    node: &OpenNode<'_, F>,
    prices: &[(F::Row, i64)],
    bid: u32,
    loaded: &[F::Row],
    table: &mut RestTable,
) -> Result<Option<i128>, NoMemory>
    requires bid { bid < length node.now.bids }
    requires ascending { AreAscending F.Row.cmp prices.now }
    requires proper { ArePrices (F.rows_of node.now.family node.now.net) prices.now }
    requires rising { AreRising F.Row.cmp loaded.now }
    requires all { AreLoaded F.Row.cmp (F.rows_of node.now.family node.now.net) node.now.bids
        node.now.node loaded.now }
    ensures best { IfOk result (IsBestAt F.rows_of F.rows_used node.now bid prices.now) }
    ensures size { IfOk result (λ best. IfSome best IsWorthSize) }
{
    let inst = node.inst();
    let weights = LeafWeights {
        node,
        bid,
        prices,
        loaded,
    };
    search(alloc, inst.net, &inst.bids[bid as usize], &weights, table)
}

/// What the best walk of the bid is worth that the node allows, in thousandths of a cent, by a
/// search; `None` exactly where there is none. `NoMemory` is its only refusal.
pub(crate) fn best_found<F: RowFamily>(
    alloc: Global,
    node: &OpenNode<'_, F>,
    prices: &[(F::Row, i64)],
    bid: u32,
    table: &mut RestTable,
) -> Result<Option<i128>, NoMemory>
    requires bid { bid < length node.now.bids }
    requires ascending { AreAscending F.Row.cmp prices.now }
    requires proper { ArePrices (F.rows_of node.now.family node.now.net) prices.now }
    ensures best { IfOk result (IsBestAt F.rows_of F.rows_used node.now bid prices.now) }
    ensures size { IfOk result (λ best. IfSome best IsWorthSize) }
{
    let loaded = node.loaded(alloc)?;
    let best = best_beside(alloc, node, prices, bid, &loaded, table);
    drop(loaded);
    best
}
