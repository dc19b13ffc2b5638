//! Standing bids as the planner takes them.
ghost use Rattle.std.specs.Prelude.{◌≡◌, IfOk, true};
ghost use Rattle.optra_network.specs.Names.{is_name};
ghost use Rattle.optra_auction.specs.Kept.{named};
ghost use Rattle.optra_bid.specs.Offers.{offer_of};
ghost use Rattle.optra_auction.specs.Machine.{IsAmount, offer_on};

use crate::terms::Terms;
use optra_bid::{Bid, Money, Name, PathSpec};
use optra_network::NoMemory;
use std::alloc::Global;

/// A standing bid as it is planned: its specification with its own name and bidder, and with its amount as base.
pub(crate) fn planned(alloc: Global, spec: &Bid, name: &str, terms: &Terms) -> Result<Bid, NoMemory>
    requires name { is_name name.now ≡ true }
    requires amount { IsAmount terms.now.amount }
    ensures { IfOk result (λ bid. offer_of bid ≡ offer_on spec.now (named name.now terms.now)) }
{
    let path = path_copied(alloc, &spec.path)?;
    Ok(Bid {
        name: name_of(alloc, name)?,
        bidder: terms.bidder.copied(alloc)?,
        path,
        money: Money {
            base: terms.amount,
            ..spec.money
        },
    })
}

/// A text that is a name, as a name.
fn name_of(alloc: Global, text: &str) -> Result<Name, NoMemory>
    requires { is_name text.now ≡ true }
    ensures { IfOk result (λ name. name ≡ text.now) }
{
    let made = Name::new(alloc, text)?;
    Ok(made.unwrap())
}

/// An equal path specification in memory of its own.
fn path_copied(alloc: Global, path: &PathSpec) -> Result<PathSpec, NoMemory>
    ensures { IfOk result (λ copy. copy ≡ path.now) }
{
    let mut stops = Vec::new(alloc);
    stops.extend_from_slice(&path.stops)?;
    Ok(PathSpec {
        kind: path.kind,
        origin: path.origin,
        destination: path.destination,
        depart: path.depart,
        arrive: path.arrive,
        wait_max: path.wait_max,
        stops,
    })
}
