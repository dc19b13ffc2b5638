//! The best walks of bids where nothing is decided, nothing is used and nothing has a price.
//!
//! Such a walk that a node still allows, at no price, is the best that the node allows.
ghost use Rattle.std.specs.Prelude.{[], IfOk};
ghost use Rattle.optra_bid.specs.Specs.{IsPathOn};
ghost use Rattle.optra_checker.specs.BestOnWay.{AreAllBest};
ghost use Rattle.optra_checker.specs.Frees.{IsFree};

use crate::best_on_way::BestOnWay;
use crate::best_walk::BestWalk;
use optra_bid::Bid;
use optra_network::{Minute, Network, NoMemory, TypeId};
use optra_rests::{EveryLeg, RestTable, Weighing, kind_of, search, trace};
use optra_walk::{Instance, Leg, RowFamily};
use std::alloc::Global;

/// A walk may have every start and every leg of the type, at no cost.
#[derive(Drop)]
pub(crate) struct FreeWeights<'a> {
    pub(crate) net: &'a Network,
    pub(crate) kind: TypeId,
}

impl<'a> Weighing for FreeWeights<'a> {
    ghost use Rattle.optra_checker.specs.Frees.{free_weights};

    ghost weights = { λ s. free_weights s.net.now s.kind };

    fn cost(&self, _leg: Leg) -> Option<i128> {
        Some(0)
    }

    /// It always is. An answer of no would be let through too, and cost time alone: the price of
    /// each leg would be asked for.
    fn is_free(&self) -> bool {
        true
    }

    fn may_start(&self, _minute: Minute) -> bool {
        true
    }
}

/// The best of all walks of a bid. `NoMemory` is its only refusal.
fn find_free<F: RowFamily>(
    alloc: Global,
    net: &Network,
    rows: &F,
    bid: &Bid,
    table: &mut RestTable,
) -> Result<BestWalk, NoMemory>
    requires { IsPathOn net.now bid.now.path }
    ensures { IfOk result (IsFree F.Row.cmp net.now (F.rows_of rows.now net.now) bid.now) }
{
    let weights = FreeWeights {
        net,
        kind: kind_of(bid),
    };
    let worth = search(alloc, net, bid, &weights, table);
    drop(weights);
    let worth = worth?;
    let legs = trace(alloc, net, bid, &EveryLeg, table)?;
    let free = BestWalk {
        depth: 0,
        worth,
        legs,
    };
    if free.attains_at_root(net, rows, bid) {
        return Ok(free);
    }
    Ok(free.without_legs(alloc))
}

/// The best walks of all bids at the root, which has no decision. `NoMemory` is its only refusal.
pub fn find_frees<F: RowFamily>(
    alloc: Global,
    inst: Instance<'_>,
    rows: &F,
    table: &mut RestTable,
) -> Result<Vec<BestOnWay>, NoMemory>
    ensures { IfOk result (λ walks. AreAllBest inst.entry.net.now (F.rows_of rows.now
        inst.entry.net.now) (F.rows_used rows.now inst.entry.net.now) inst.entry.bids.now []
        walks.items) }
{
    let mut all = Vec::new(alloc);
    'bids: for bid in inst.bids {
        let free = find_free(alloc, inst.net, rows, bid, table)?;
        let walks = BestOnWay::at_root(alloc, free)?;
        all.push(walks)?;
    }
    Ok(all)
}
