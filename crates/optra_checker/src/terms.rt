//! What the bids add to the dual value of a node, and the dual value.
ghost use Rattle.std.specs.Prelude.{◌≡◌, ◌⊎◌, ◌<◌, length, slice_get, Some, IfOk, IfSome, OnOk, pos, ◌≤ℤ◌};
ghost use Rattle.optra_bid.specs.Instances.{IsInstance};
ghost use Rattle.optra_bid.specs.declared.bids.Bid.{Bid as Asked};
ghost use Rattle.optra_node.specs.Duals.{ArePrices, whole_cents};
ghost use Rattle.optra_node.specs.Certificates.{AreAscending, IsBoundOf};
ghost use Rattle.optra_checker.specs.BestOnWay.{AreAllBestAt, AreBestAt, IsBestAt};
ghost use Rattle.optra_open.specs.Loaded.{AreLatestAt};
ghost use Rattle.optra_checker.specs.Leaves.{IsBestOffer, AreTerms, IsSumSize, plus_of, dual_by};
ghost use Rattle.optra_rests.specs.Sizes.{IsCapacityPrice};
ghost use Rattle.optra_rests.specs.Weights.{IsWorthSize};

use crate::best_on_way::BestOnWay;
use optra_network::NoMemory;
use optra_open::OpenNode;
use optra_rests::RestTable;
use optra_walk::RowFamily;
use std::alloc::Global;

/// The greater of zero and a number, which may be missing.
fn or_zero(best: Option<i128>) -> i128
    ensures least { pos 0 ≤ℤ result }
    ensures most { IfSome best (λ b. b ≤ℤ result) }
    ensures reached { (result ≡ pos 0) ⊎ (best ≡ Some result) }
{
    match best {
        Some(best) if best > 0 => best,
        _ => 0,
    }
}

/// The greatest offer to a bid at the node and prices, in thousandths of a cent, by what the best
/// walk is worth that the node allows: the greatest reduced value of its allowed walks, and zero
/// where it has no yes leg. `None` exactly where it has a yes leg and no allowed walk.
pub fn offer_of<F: RowFamily>(
    node: &OpenNode<'_, F>,
    prices: &[(F::Row, i64)],
    bid: u32,
    best: Option<i128>,
) -> Option<i128>
    requires bid { bid < length node.now.bids }
    requires best { IsBestAt F.rows_of F.rows_used node.now bid prices.now best }
    requires size { IfSome best IsWorthSize }
    ensures best { (b : Asked) → slice_get node.now.bids bid ≡ Some b → IsBestOffer node.now.net
        (F.rows_of node.now.family node.now.net) node.now.bids node.now.node prices.now bid b
        result }
    ensures size { IfSome result IsWorthSize }
{
    let _ = prices;
    node.laws();
    let least = or_zero(best);
    if node.has_yes(bid) { best } else { Some(least) }
}

/// The greatest offer to a bid at the node and prices, as [`offer_of`], by its best walks at nodes
/// on the way. They are advanced to the node. `NoMemory` is its only refusal.
fn offer_at<F: RowFamily>(
    alloc: Global,
    node: &OpenNode<'_, F>,
    latest: &[F::Row],
    prices: &[(F::Row, i64)],
    bid: u32,
    walks: &mut BestOnWay,
    table: &mut RestTable,
) -> Result<Option<i128>, NoMemory>
    requires bid { bid < length node.now.bids }
    requires latest { AreLatestAt F.Row.cmp F.rows_of node.now latest.now }
    requires ascending { AreAscending F.Row.cmp prices.now }
    requires proper { ArePrices (F.rows_of node.now.family node.now.net) prices.now }
    requires walks { AreBestAt F.rows_of F.rows_used node.now bid walks.old }
    ensures walks { OnOk result (AreBestAt F.rows_of F.rows_used node.now bid walks.new) }
    ensures best { IfOk result (λ best. (b : Asked) → slice_get node.now.bids bid ≡ Some b
        → IsBestOffer node.now.net (F.rows_of node.now.family node.now.net) node.now.bids
        node.now.node prices.now bid b best) }
    ensures size { IfOk result (λ best. IfSome best IsWorthSize) }
{
    let best = walks.advance_at(alloc, node, latest, prices, bid, table)?;
    Ok(offer_of(node, prices, bid, best))
}

/// A sum with one offer more; none where either is missing.
fn plus(sum: Option<i128>, best: Option<i128>) -> Option<i128>
    requires sum { IfSome sum (IsSumSize 1000) }
    requires best { IfSome best IsWorthSize }
    ensures { result ≡ plus_of sum best }
{
    match (sum, best) {
        (Some(sum), Some(best)) => Some(sum + best),
        _ => None,
    }
}

/// The sum of the bids' terms; `None` exactly where some bid has a yes leg and no allowed walk.
fn term_sum<F: RowFamily>(
    alloc: Global,
    node: &OpenNode<'_, F>,
    latest: &[F::Row],
    prices: &[(F::Row, i64)],
    walks: &mut [BestOnWay],
    table: &mut RestTable,
) -> Result<Option<i128>, NoMemory>
    requires instance { IsInstance node.now.net node.now.bids }
    requires latest { AreLatestAt F.Row.cmp F.rows_of node.now latest.now }
    requires ascending { AreAscending F.Row.cmp prices.now }
    requires proper { ArePrices (F.rows_of node.now.family node.now.net) prices.now }
    requires walks { AreAllBestAt F.rows_of F.rows_used node.now walks.old }
    ensures walks { OnOk result (AreAllBestAt F.rows_of F.rows_used node.now walks.new) }
    ensures terms { IfOk result (AreTerms node.now.net (F.rows_of node.now.family node.now.net)
        node.now.bids node.now.node prices.now (length node.now.bids)) }
    ensures size { IfOk result (λ sum. IfSome sum (IsSumSize 1000)) }
{
    let count = node.inst().bids.len() as u32;
    let mut sum = Some(0);
    'bids: for bid in 0..count {
        let best = offer_at(
            alloc,
            node,
            latest,
            prices,
            bid,
            &mut walks[bid as usize],
            table,
        )?;
        sum = plus(sum, best);
    }
    Ok(sum)
}

/// The price of all capacity and a sum of terms; zero where there is no sum.
fn dual_by(capacity: i128, sum: Option<i128>) -> i128
    requires capacity { IsCapacityPrice capacity }
    requires sum { IfSome sum (IsSumSize 1000) }
    ensures { result ≡ dual_by capacity sum }
{
    match sum {
        Some(sum) => capacity + sum,
        None => 0,
    }
}

/// Thousandths of a cent as whole cents, rounded down.
fn whole_cents(value: i128) -> i128
    ensures { result ≡ whole_cents value }
{
    value.div_euclid(1000)
}

/// The dual value of the node at the prices, in whole cents and rounded down. The bids' best walks
/// are advanced to the node. `NoMemory` is its only refusal.
pub(crate) fn leaf_bound<F: RowFamily>(
    alloc: Global,
    node: &OpenNode<'_, F>,
    prices: &[(F::Row, i64)],
    walks: &mut [BestOnWay],
    table: &mut RestTable,
) -> Result<i128, NoMemory>
    requires instance { IsInstance node.now.net node.now.bids }
    requires ascending { AreAscending F.Row.cmp prices.now }
    requires proper { ArePrices (F.rows_of node.now.family node.now.net) prices.now }
    requires walks { AreAllBestAt F.rows_of F.rows_used node.now walks.old }
    ensures walks { OnOk result (AreAllBestAt F.rows_of F.rows_used node.now walks.new) }
    ensures bound { IfOk result (IsBoundOf node.now.net (F.rows_of node.now.family node.now.net)
        node.now.bids node.now.node prices.now) }
{
    let latest = node.latest_rows(alloc)?;
    let sum = term_sum(alloc, node, &latest, prices, walks, table);
    drop(latest);
    let value = dual_by(node.capacity_price(prices), sum?);
    Ok(whole_cents(value))
}
