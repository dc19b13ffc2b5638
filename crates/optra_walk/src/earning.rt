//! What a choice earns.
ghost use Rattle.std.specs.Prelude.{◌≡◌, ◌≤◌, [], ◌∷◌, length, IfSome};
ghost use Rattle.optra_walk.specs.Walks.{IsWalk};
ghost use Rattle.optra_walk.specs.Choices.{IsChoice, revenue_of};
ghost use Rattle.optra_walk.specs.Values.{IsValue};

use crate::Walk;
use crate::valuing::value;
use optra_bid::Bid;
use optra_network::{Cents, Network};

/// What is earned by one bid.
fn earned(net: &Network, bid: &Bid, walk: &Option<Walk>) -> Cents
    requires { IfSome walk.now (IsWalk net.now bid.now.path) }
    ensures value { result ≡ revenue_of net.now (bid.now ∷ []) (walk.now ∷ []) }
    ensures range { IsValue result }
{
    match walk {
        Some(walk) => value(net, bid, &walk.legs),
        None => 0,
    }
}

/// What a choice earns: the sum of the values of its walks, in cents.
pub fn revenue(net: &Network, bids: &[Bid], walks: &[Option<Walk>]) -> Cents
    requires few { length bids.now ≤ 1000 }
    requires choice { IsChoice net.now bids.now walks.now }
    ensures { result ≡ revenue_of net.now bids.now walks.now }
{
    let mut total: Cents = 0;
    'bids: for (i, bid) in bids.iter().enumerate() {
        total += earned(net, bid, &walks[i]);
    }
    total
}
