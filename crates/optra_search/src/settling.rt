//! The better of two choices, and small steps of pricing a node.
ghost use Rattle.std.specs.Prelude.{◌≡◌, ◌≤◌, [], length};
ghost use Rattle.optra_walk.specs.Choices.{IsChoice, revenue_of};
ghost use Rattle.optra_node.specs.Duals.{whole_cents};
ghost use Rattle.optra_search.specs.Planner.{IsBetter};

use optra_bid::Bid;
use optra_network::{Cents, Network};
use optra_node::Prices;
use optra_walk::{Choice, revenue};
use std::alloc::Global;

/// Thousandths of a cent as whole cents, rounded down.
pub(crate) fn whole_cents(value: i128) -> i128
    ensures { result ≡ whole_cents value }
{
    value.div_euclid(1000)
}

/// The better of two choices, with what it earns; the old one where both earn the same.
pub(crate) fn better(
    net: &Network,
    bids: &[Bid],
    old: Choice,
    earned: Cents,
    new: Choice,
) -> (Choice, Cents)
    requires few { length bids.now ≤ 1000 }
    requires earned { earned ≡ revenue_of net.now bids.now old }
    requires choice { IsChoice net.now bids.now new }
    ensures better { IsBetter net.now bids.now old new result.0 }
    ensures earned { result.1 ≡ revenue_of net.now bids.now result.0 }
{
    let earns = revenue(net, bids, &new.walks);
    if earned < earns {
        (new, earns)
    } else {
        (old, earned)
    }
}

/// Zero prices.
pub(crate) fn zero_prices<R>(alloc: Global) -> Prices<R>
    ensures { result ≡ [] }
{
    Prices {
        entries: Vec::new(alloc),
    }
}
