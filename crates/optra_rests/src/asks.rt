//! What legs cost, asked as seldom as may be.
ghost use Rattle.std.specs.Prelude.{◌≡◌, ◌<◌, None, IfOk, length, replicate};
ghost use Rattle.optra_walk.specs.Families.{IsUsable};
ghost use Rattle.optra_rests.specs.Asks.{AreAsked};
ghost use Rattle.optra_rests.specs.Weights.{TellsCost};

use crate::weighing::Weighing;
use optra_network::NoMemory;
use optra_walk::Leg;
use std::alloc::Global;

/// A leg, and what it costs; `None` where a walk may not have it.
#[derive(Clone, Copy)]
pub(crate) struct Ask {
    pub leg: Leg,
    pub cost: Option<i128>,
}

/// So many tracks of which no leg was asked of. `NoMemory` is its only refusal.
pub(crate) fn no_asks(alloc: Global, tracks: usize) -> Result<Vec<Option<Ask>>, NoMemory>
    ensures { IfOk result (λ asks. asks.items ≡ replicate tracks None) }
{
    let asks = vec![in alloc; None; tracks]?;
    Ok(asks)
}

/// What the leg costs. Of each track the leg that was asked of last is kept, and a leg that is
/// alike isn't asked of.
pub(crate) fn leg_cost<W: Weighing>(
    weighing: &W,
    asks: &mut [Option<Ask>],
    leg: Leg,
) -> Option<i128>
    requires usable { IsUsable (W.weights weighing.now).net (W.weights weighing.now).kind leg }
    requires asks { AreAsked (W.weights weighing.now) asks.old }
    requires track { leg.track.0 < length asks.old }
    ensures told { TellsCost (W.weights weighing.now) leg result }
    ensures asks { AreAsked (W.weights weighing.now) asks.new }
{
    if weighing.is_free() {
        return Some(0);
    }
    let place = leg.track.0 as usize;
    if let Some(last) = asks[place] {
        if weighing.alike(last.leg, leg) {
            return last.cost;
        }
    }
    let cost = weighing.cost(leg);
    asks[place] = Some(Ask { leg, cost });
    cost
}
