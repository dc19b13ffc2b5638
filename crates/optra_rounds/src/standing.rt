//! The bids that stand, and their plan.
ghost use Rattle.std.specs.Prelude.{◌≡◌, length, map, option_map, IfOk, IfSome};
ghost use Rattle.optra_walk.specs.Choices.{IsChoice};
ghost use Rattle.optra_walk.specs.Walks.{IsWalk};
ghost use Rattle.optra_walk.specs.Values.{value_of};
ghost use Rattle.optra_auction.specs.Machine.{spec_names};
ghost use Rattle.optra_rounds.specs.Rounds.{standing_specs, values_of};

use optra_auction::Auction;
use optra_bid::{Bid, Name};
use optra_network::{Cents, Network, NoMemory};
use optra_walk::{Choice, Walk, value};
use std::alloc::Global;

/// The names of specifications, in memory of their own.
pub fn spec_names(alloc: Global, specs: &[Bid]) -> Result<Vec<Name>, NoMemory>
    ensures { IfOk result (λ names. names.items ≡ spec_names specs.now) }
{
    let mut names = Vec::with_capacity(alloc, specs.len())?;
    'specs: for spec in specs {
        let name = spec.name.copied(alloc)?;
        names.push(name)?;
    }
    Ok(names)
}

/// The name of each standing bid's specification, where these are the names of the auction's specifications.
pub fn standing_specs(
    alloc: Global,
    auction: &Auction,
    names: &[Name],
) -> Result<Vec<Name>, NoMemory>
    requires { names.now ≡ spec_names auction.now.specs }
    ensures { IfOk result (λ specs. specs.items ≡ standing_specs names.now auction.now.standing) }
{
    let count = auction.count();
    let mut specs = Vec::with_capacity(alloc, count as usize)?;
    'bids: for bid in 0..count {
        let spec = auction.spec_of(bid);
        let name = names[spec as usize].copied(alloc)?;
        specs.push(name)?;
    }
    Ok(specs)
}

/// The value of each bid's walk in cents, where it is served.
pub fn values_of(
    alloc: Global,
    net: &Network,
    bids: &[Bid],
    choice: &Choice,
) -> Result<Vec<Option<Cents>>, NoMemory>
    requires { IsChoice net.now bids.now choice.now }
    ensures { IfOk result (λ values. values.items ≡ values_of net.now bids.now choice.now) }
{
    values_in(alloc, net, bids, &choice.walks)
}

/// The value of each bid's walk in cents, where there is one.
fn values_in(
    alloc: Global,
    net: &Network,
    bids: &[Bid],
    walks: &[Option<Walk>],
) -> Result<Vec<Option<Cents>>, NoMemory>
    requires { IsChoice net.now bids.now walks.now }
    ensures values { IfOk result (λ values. values.items ≡ values_of net.now bids.now walks.now) }
{
    let mut values = Vec::with_capacity(alloc, bids.len())?;
    'bids: for (i, bid) in bids.iter().enumerate() {
        values.push(value_at(net, bid, &walks[i]))?;
    }
    Ok(values)
}

/// The value of a walk, if there is one.
fn value_at(net: &Network, bid: &Bid, walk: &Option<Walk>) -> Option<Cents>
    requires { IfSome walk.now (IsWalk net.now bid.now.path) }
    ensures { result ≡ option_map (value_of net.now bid.now.path bid.now.money) walk.now }
{
    match walk {
        Some(walk) => Some(value(net, bid, &walk.legs)),
        None => None,
    }
}
