//! Whether the open node allows legs of a bid, at no price.
//!
//! A walk that was the best at an earlier node, and that is allowed at no price, is still the best.
ghost use Rattle.std.specs.Prelude.{◌≡◌, ◌↔◌, ◌<◌, ◌≤◌, [], length, IsTrue, All, true, pos};
ghost use Rattle.optra_node.specs.Duals.{ArePrices};
ghost use Rattle.optra_node.specs.Certificates.{AreAscending};
ghost use Rattle.optra_node.specs.Nodes.{kind_at};
ghost use Rattle.optra_walk.specs.Families.{IsUsable};
ghost use Rattle.optra_walk.specs.Values.{first_departure};
ghost use Rattle.optra_checker.specs.BestOnWay.{AreFreeAt, weights_within};
ghost use Rattle.optra_checker.specs.Frees.{IsFreeLeg, IsStillFree};
ghost use Rattle.optra_open.specs.Loaded.{AreLatestAt};
ghost use Rattle.optra_open.specs.NodeWeights.{weights_at};
ghost use Rattle.optra_open.specs.Tests.{may_start_at};

use optra_open::OpenNode;
use optra_walk::{Leg, RowFamily};

/// Whether the price is zero.
fn is_zero(price: i128) -> bool
    ensures { IsTrue result ↔ (price ≡ pos 0) }
{
    price == 0
}

/// Whether a walk of the bid may have the leg at the node, at no price.
fn is_free_leg<F: RowFamily>(
    node: &OpenNode<'_, F>,
    prices: &[(F::Row, i64)],
    bid: u32,
    leg: Leg,
) -> bool
    requires bid { bid < length node.now.bids }
    requires usable { IsUsable node.now.net (kind_at node.now.bids bid) leg }
    requires ascending { AreAscending F.Row.cmp prices.now }
    requires proper { ArePrices (F.rows_of node.now.family node.now.net) prices.now }
    ensures { IsTrue result ↔ IsFreeLeg (weights_at F.rows_of F.rows_used node.now bid prices.now)
        leg }
{
    if !node.leg_ok(bid, leg) {
        return false;
    }
    is_zero(node.leg_price(prices, bid, leg))
}

/// Whether a walk of the bid may have each leg at the node, at no price.
fn each_is_free<F: RowFamily>(
    node: &OpenNode<'_, F>,
    prices: &[(F::Row, i64)],
    bid: u32,
    legs: &[Leg],
) -> bool
    requires bid { bid < length node.now.bids }
    requires usable { All (IsUsable node.now.net (kind_at node.now.bids bid)) legs.now }
    requires ascending { AreAscending F.Row.cmp prices.now }
    requires proper { ArePrices (F.rows_of node.now.family node.now.net) prices.now }
    ensures { IsTrue result
        ↔ All (IsFreeLeg (weights_at F.rows_of F.rows_used node.now bid prices.now)) legs.now }
{
    'legs: for leg in legs {
        if !is_free_leg(node, prices, bid, *leg) {
            return false;
        }
    }
    true
}

/// Whether a walk of the bid may start at the first departure of the legs.
fn is_allowed_start<F: RowFamily>(node: &OpenNode<'_, F>, bid: u32, legs: &[Leg]) -> bool
    requires { bid < length node.now.bids }
    ensures start { IsTrue result → may_start_at node.now.node bid (first_departure legs.now)
        ≡ true }
    ensures some { IsTrue result → 0 < length legs.now }
{
    match legs.first() {
        Some(leg) => node.may_start(bid, leg.depart),
        None => false,
    }
}

/// Whether the node allows the legs of a walk of the bid, at no price.
///
/// That it allows them where the answer is no is left open: it is no of no legs too. Then a walk is
/// searched anew, which costs time alone.
pub(crate) fn are_free_legs<F: RowFamily>(
    node: &OpenNode<'_, F>,
    prices: &[(F::Row, i64)],
    bid: u32,
    legs: &[Leg],
) -> bool
    requires bid { bid < length node.now.bids }
    requires usable { All (IsUsable node.now.net (kind_at node.now.bids bid)) legs.now }
    requires ascending { AreAscending F.Row.cmp prices.now }
    requires proper { ArePrices (F.rows_of node.now.family node.now.net) prices.now }
    ensures free { IsTrue result → AreFreeAt F.rows_of F.rows_used node.now bid prices.now
        legs.now }
    ensures some { IsTrue result → 0 < length legs.now }
{
    if !is_allowed_start(node, bid, legs) {
        return false;
    }
    each_is_free(node, prices, bid, legs)
}

/// Whether it is seen at once that the node allows legs that so many of its first decisions allow:
/// no later decision bears on them.
///
/// What it allows where it isn't seen is left open: then each leg is looked at, which costs time
/// alone.
pub(crate) fn still_allows<F: RowFamily>(
    node: &OpenNode<'_, F>,
    latest: &[F::Row],
    bid: u32,
    allowed_depth: usize,
    legs: &[Leg],
) -> bool
    requires bid { bid < length node.now.bids }
    requires latest { AreLatestAt F.Row.cmp F.rows_of node.now latest.now }
    requires usable { All (IsUsable node.now.net (kind_at node.now.bids bid)) legs.now }
    requires within { allowed_depth ≤ length node.now.node }
    requires allowed_depth { 0 < length legs.now → IsStillFree (weights_within node.now.net
        (F.rows_of node.now.family node.now.net) (F.rows_used node.now.family node.now.net)
        node.now.bids node.now.node bid allowed_depth) legs.now }
    ensures free { IsTrue result → AreFreeAt F.rows_of F.rows_used node.now bid [] legs.now }
    ensures some { IsTrue result → 0 < length legs.now }
{
    if legs.is_empty() {
        return false;
    }
    if allowed_depth == node.depth() {
        return true;
    }
    if allowed_depth + 1 != node.depth() || node.is_last_for(bid) {
        return false;
    }
    node.all_keep_off(latest, bid, legs)
}
