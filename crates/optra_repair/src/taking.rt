//! The order in which the bids are taken.
ghost use Rattle.std.specs.Prelude.{◌≡◌, ◌≤◌, IfOk, length};
ghost use Rattle.optra_prices.specs.Repairs.{term_with, IsTakingOrder};
ghost use Rattle.optra_repair.specs.Takings.{positions_of, AreRanks};

use optra_network::NoMemory;
use optra_prices::Dual;
use optra_walk::Walk;
use std::alloc::Global;
use std::cmp::Reverse;

/// What a bid contributes: its term, or 0 without a reply.
fn contribution(reply: &Option<Walk>, term: i128) -> i128
    ensures { result ≡ term_with reply.now term }
{
    match reply {
        Some(_) => term,
        None => 0,
    }
}

/// What each bid contributes, with its position. Of two ranks, that of the bid that is taken before is the less.
fn ranks(alloc: Global, dual: &Dual) -> Result<Vec<(Reverse<i128>, u32)>, NoMemory>
    requires few { length dual.now.terms ≤ 1000 }
    requires replies { length dual.now.replies ≡ length dual.now.terms }
    ensures { IfOk result (λ ranks. AreRanks dual.now (length dual.now.terms) ranks.items) }
{
    let mut ranks = Vec::with_capacity(alloc, dual.terms.len())?;
    for number in 0..dual.terms.len() {
        let contribution = contribution(&dual.replies[number], dual.terms[number]);
        ranks.push((Reverse(contribution), number as u32))?;
    }
    Ok(ranks)
}

/// The positions of ranks.
fn positions(alloc: Global, ranks: &[(Reverse<i128>, u32)]) -> Result<Vec<u32>, NoMemory>
    ensures { IfOk result (λ positions. positions.items ≡ positions_of ranks.now) }
{
    ranks.iter().map(|rank| rank.1).collect(alloc)
}

/// The positions of the bids, by falling contribution and then rising.
pub(crate) fn taking_order(alloc: Global, dual: &Dual) -> Result<Vec<u32>, NoMemory>
    requires few { length dual.now.terms ≤ 1000 }
    requires replies { length dual.now.replies ≡ length dual.now.terms }
    ensures { IfOk result (λ order. IsTakingOrder dual.now (length dual.now.terms) order.items) }
{
    let mut ranks = ranks(alloc, dual)?;
    ranks.sort_unstable();
    let order = positions(alloc, &ranks)?;
    Ok(order)
}
