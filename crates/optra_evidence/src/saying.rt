//! What a leaf says of a bid.
ghost use Rattle.std.specs.Prelude.{◌≡◌, ◌<◌, IfSome, None, Some, cond, length, slice_get};
ghost use Rattle.std.specs.Option.{option_map};
ghost use Rattle.optra_bid.specs.declared.bids.Bid.{Bid as Asked};
ghost use Rattle.optra_node.specs.Duals.{whole_cents};
ghost use Rattle.optra_checker.specs.BestOnWay.{IsBestAt};
ghost use Rattle.optra_checker.specs.Leaves.{plus_of};
ghost use Rattle.optra_rests.specs.Weights.{IsWorthSize};
ghost use Rattle.optra_evidence.specs.Figures.{IsSaid, less_of};
ghost use Rattle.optra_evidence.specs.Worths.{IsDualSize, IsLiveValue, IsRestSize};

use crate::figures::Figures;
use optra_checker::offer_of;
use optra_open::OpenNode;
use optra_walk::RowFamily;

/// Thousandths of a cent as whole cents, rounded down.
fn whole_cents(value: i128) -> i128
    ensures { result ≡ whole_cents value }
{
    value.div_euclid(1000)
}

/// The dual value without the bid's term, which is what it is offered; none where the leaf doesn't count.
fn without_term(value: Option<i128>, offer: Option<i128>) -> Option<i128>
    requires value { IfSome value IsDualSize }
    requires offer { IfSome offer IsWorthSize }
    ensures is { result ≡ less_of value offer }
    ensures size { IfSome result IsRestSize }
{
    match (value, offer) {
        (Some(value), Some(offer)) => Some(value - offer),
        _ => None,
    }
}

/// The dual value with what the bid's best walk is worth in place of its term, in whole cents; none where the leaf doesn't count
/// or allows the bid no walk.
fn with_bid(rest: Option<i128>, worth: Option<i128>) -> Option<i128>
    requires rest { IfSome rest IsRestSize }
    requires worth { IfSome worth IsWorthSize }
    ensures { result ≡ option_map whole_cents (plus_of rest worth) }
{
    match (rest, worth) {
        (Some(rest), Some(worth)) => Some(whole_cents(rest + worth)),
        _ => None,
    }
}

/// The dual value without the bid's term, in whole cents; none where the leaf doesn't count or the bid has a yes leg there.
fn without_bid(rest: Option<i128>, has_yes: bool) -> Option<i128>
    ensures { result ≡ option_map whole_cents (cond has_yes None rest) }
{
    match rest {
        Some(rest) if !has_yes => Some(whole_cents(rest)),
        _ => None,
    }
}

/// What the leaf says of the bid at the prices, by what the bid's best walk is worth there and by the dual value where it counts.
pub(crate) fn said_of<F: RowFamily>(
    node: &OpenNode<'_, F>,
    prices: &[(F::Row, i64)],
    bid: u32,
    worth: Option<i128>,
    value: Option<i128>,
) -> Figures
    requires bid { bid < length node.now.bids }
    requires worth { IsBestAt F.rows_of F.rows_used node.now bid prices.now worth }
    requires size { IfSome worth IsWorthSize }
    requires value { IsLiveValue node.now.net (F.rows_of node.now.family node.now.net) node.now.bids
        node.now.node prices.now value }
    ensures { (b : Asked) → slice_get node.now.bids bid ≡ Some b → IsSaid node.now.net (F.rows_of
        node.now.family node.now.net) node.now.bids node.now.node prices.now bid b result }
{
    node.laws();
    let offer = offer_of(node, prices, bid, worth);
    let rest = without_term(value, offer);
    Figures {
        served: with_bid(rest, worth),
        left: without_bid(rest, node.has_yes(bid)),
    }
}
