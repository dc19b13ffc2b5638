//! The planner of an auction house's rounds.
ghost use Rattle.std.specs.Prelude.{◌≡◌, IfOk};
ghost use Rattle.optra_bid.specs.Instances.{IsInstance};
ghost use Rattle.optra_play.specs.HouseRounds.{IsRoundPlan};

use crate::plans::certified_plan_over;
use crate::playing::ROUND_LIMITS;
use optra_bid::Bid;
use optra_house::Rounds;
use optra_network::{Cents, Network, NoMemory};
use optra_reuse::GraphStore;
use optra_rounds::values_of;
use optra_search::Plan;
use optra_walk::{Instance, RowFamily};
use std::alloc::Global;

/// A round that was planned.
#[derive(Drop)]
pub struct PlannedRound<R> {
    /// The bids that stood.
    pub bids: Vec<Bid>,
    pub plan: Plan<R>,
    /// How many graphs were built for it.
    pub graphs: u64,
}

/// Plans rounds on a network by a family of rows, and keeps the last one.
#[derive(Drop)]
pub struct RoundPlanner<'n, 'r, F: RowFamily> {
    pub net: &'n Network,
    pub rows: &'r F,
    pub round: Option<PlannedRound<F::Row>>,
}

/// Plans bids by a round's price steps and budget, with graphs of their own.
fn planned<F: RowFamily>(
    alloc: Global,
    net: &Network,
    rows: &F,
    bids: &[Bid],
) -> Result<PlannedRound<F::Row>, NoMemory>
    requires instance { IsInstance net.now bids.now }
    ensures bids { IfOk result (λ round. round.bids.items ≡ bids.now) }
    ensures plan { IfOk result (λ round. IsRoundPlan F.Row.cmp net.now (F.rows_of rows.now net.now)
        (F.KeepsRule rows.now net.now) round.bids.items round.plan round.graphs) }
{
    let inst = Instance::new(net, bids);
    let mut store = GraphStore::new(alloc, net)?;
    let plan = certified_plan_over(alloc, inst, rows, &mut store, ROUND_LIMITS)?;
    let graphs = store.builds();
    drop(store);
    let bids = copied(alloc, bids)?;
    Ok(PlannedRound { bids, plan, graphs })
}

/// Equal bids in memory of their own.
fn copied(alloc: Global, bids: &[Bid]) -> Result<Vec<Bid>, NoMemory>
    ensures { IfOk result (λ copies. copies.items ≡ bids.now) }
{
    let mut copies = Vec::with_capacity(alloc, bids.len())?;
    'bids: for bid in bids {
        copies.push(bid.copied(alloc)?)?;
    }
    Ok(copies)
}

impl<'n, 'r, F: RowFamily> Rounds for RoundPlanner<'n, 'r, F> {
    ghost use Rattle.std.specs.Prelude.{◌≡◌, IsSomeAnd, map};
    ghost use Rattle.optra_bid.specs.Specs.{IsPathOn};
    ghost use Rattle.optra_auction.specs.Machine.{offer_of};
    ghost use Rattle.optra_play.specs.HouseRounds.{AreRoundValues, IsRoundPlan};
    ghost use Rattle.optra_play.specs.RoundsPlanned.{one_values};

    ghost Means = { λ planner offers values. AreRoundValues F.Row.cmp planner.net.now
        (F.rows_of planner.rows.now planner.net.now)
        (F.KeepsRule planner.rows.now planner.net.now) offers values };

    ghost takes = { λ planner path. IsPathOn planner.net.now path };

    ghost After = { λ planner offers after. IsSomeAnd after.round
        (λ r. IsRoundPlan F.Row.cmp planner.net.now
        (F.rows_of planner.rows.now planner.net.now)
        (F.KeepsRule planner.rows.now planner.net.now) r.bids.items r.plan r.graphs
        × (map offer_of r.bids.items ≡ offers)) };

    fn values(&mut self, alloc: Global, bids: &[Bid]) -> Result<Vec<Option<Cents>>, NoMemory> {
        let round = planned(alloc, self.net, self.rows, bids)?;
        let values = values_of(alloc, self.net, &round.bids, &round.plan.choice)?;
        self.round = Some(round);
        Ok(values)
    }

    ghost one = { λ planner offers a b. one_values F.Row.cmp planner.net.now
        (F.rows_of planner.rows.now planner.net.now)
        (F.KeepsRule planner.rows.now planner.net.now) offers a b };
}
