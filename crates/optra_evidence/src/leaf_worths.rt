//! What the best walks of all bids are worth at a leaf, and the dual value that they make.
ghost use Rattle.std.specs.Prelude.{◌≡◌, IfOk, IfSome, OnOk, length, IsTrue};
ghost use Rattle.optra_bid.specs.Instances.{IsInstance};
ghost use Rattle.optra_node.specs.Duals.{ArePrices};
ghost use Rattle.optra_node.specs.Certificates.{AreAscending};
ghost use Rattle.optra_checker.specs.BestOnWay.{AreAllBestAt};
ghost use Rattle.optra_checker.specs.Leaves.{AreTerms, IsSumSize, plus_of};
ghost use Rattle.optra_open.specs.Loaded.{AreLatestAt};
ghost use Rattle.optra_rests.specs.Sizes.{IsCapacityPrice};
ghost use Rattle.optra_rests.specs.Weights.{IsWorthSize};
ghost use Rattle.optra_evidence.specs.Worths.{AreWorthsAt, IsLiveValue, value_by};

use optra_checker::{BestOnWay, offer_of};
use optra_network::NoMemory;
use optra_open::OpenNode;
use optra_rests::RestTable;
use optra_walk::RowFamily;
use std::alloc::Global;

/// What the best walk of each bid is worth that the node allows, at the prices, in thousandths of a cent; none where it allows
/// none. The bids' best walks are advanced to the node. `NoMemory` is its only refusal.
pub(crate) fn best_worths<F: RowFamily>(
    alloc: Global,
    node: &OpenNode<'_, F>,
    latest: &[F::Row],
    prices: &[(F::Row, i64)],
    walks: &mut [BestOnWay],
    table: &mut RestTable,
) -> Result<Vec<Option<i128>>, NoMemory>
    requires latest { AreLatestAt F.Row.cmp F.rows_of node.now latest.now }
    requires ascending { AreAscending F.Row.cmp prices.now }
    requires proper { ArePrices (F.rows_of node.now.family node.now.net) prices.now }
    requires walks { AreAllBestAt F.rows_of F.rows_used node.now walks.old }
    ensures walks { OnOk result (AreAllBestAt F.rows_of F.rows_used node.now walks.new) }
    ensures worths { IfOk result (λ worths. AreWorthsAt F.rows_of F.rows_used node.now prices.now
        worths.items) }
{
    let count = node.inst().bids.len() as u32;
    let mut worths = Vec::new(alloc);
    'bids: for bid in 0..count {
        let best = walks[bid as usize].advance_at(alloc, node, latest, prices, bid, table)?;
        worths.push(best)?;
    }
    Ok(worths)
}

/// A sum with one offer more; none where either is missing.
fn plus(sum: Option<i128>, offer: Option<i128>) -> Option<i128>
    requires sum { IfSome sum (IsSumSize 1000) }
    requires offer { IfSome offer IsWorthSize }
    ensures { result ≡ plus_of sum offer }
{
    match (sum, offer) {
        (Some(sum), Some(offer)) => Some(sum + offer),
        _ => None,
    }
}

/// The sum of the bids' terms, by what their best walks are worth; none exactly where some bid has a yes leg and no allowed walk.
fn term_sum<F: RowFamily>(
    node: &OpenNode<'_, F>,
    prices: &[(F::Row, i64)],
    worths: &[Option<i128>],
) -> Option<i128>
    requires instance { IsInstance node.now.net node.now.bids }
    requires worths { AreWorthsAt F.rows_of F.rows_used node.now prices.now worths.now }
    ensures terms { AreTerms node.now.net (F.rows_of node.now.family node.now.net) node.now.bids
        node.now.node prices.now (length node.now.bids) result }
    ensures size { IfSome result (IsSumSize 1000) }
{
    let count = node.inst().bids.len() as u32;
    let mut sum = Some(0);
    'bids: for bid in 0..count {
        let offer = offer_of(node, prices, bid, worths[bid as usize]);
        sum = plus(sum, offer);
    }
    sum
}

/// The price of all capacity and a sum of terms; none where there is no sum.
fn value_by(capacity: i128, sum: Option<i128>) -> Option<i128>
    requires capacity { IsCapacityPrice capacity }
    requires sum { IfSome sum (IsSumSize 1000) }
    ensures { result ≡ value_by capacity sum }
{
    match sum {
        Some(sum) => Some(capacity + sum),
        None => None,
    }
}

/// The dual value of the node at the prices, by what the bids' best walks are worth; none exactly where some bid has a yes leg and
/// no allowed walk. Then no choice that keeps the rule is of the node, and it doesn't count.
pub(crate) fn live_value<F: RowFamily>(
    node: &OpenNode<'_, F>,
    prices: &[(F::Row, i64)],
    worths: &[Option<i128>],
) -> Option<i128>
    requires instance { IsInstance node.now.net node.now.bids }
    requires proper { ArePrices (F.rows_of node.now.family node.now.net) prices.now }
    requires worths { AreWorthsAt F.rows_of F.rows_used node.now prices.now worths.now }
    ensures { IsLiveValue node.now.net (F.rows_of node.now.family node.now.net) node.now.bids
        node.now.node prices.now result }
{
    let sum = term_sum(node, prices, worths);
    value_by(node.capacity_price(prices), sum)
}
