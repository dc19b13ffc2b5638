//! The planner of payments.
ghost use Rattle.std.specs.Prelude.{◌≤◌};

use optra_bid::Bid;
use optra_graph::FreshGraphs;
use optra_network::{Network, NoMemory};
use optra_payment::{Found, Planner};
use optra_play::certified_plan_over;
use optra_search::Limits;
use optra_walk::{Instance, RowFamily};
use std::alloc::Global;

/// Plans by the search, within the limits.
#[derive(Drop)]
pub struct PaymentPlanner {
    pub limits: Limits,
    pub ghost budget: { 1 ≤ limits.budget },
}

impl<F: RowFamily> Planner<F> for PaymentPlanner {
    ghost use Rattle.optra_top.specs.PaymentPlans.{IsPlanFound, found_encloses, one_found};

    ghost Finds = { λ planner rows net bids found. IsPlanFound F.Row.cmp net (F.rows_of rows net)
        (F.KeepsRule rows net) bids planner.limits found };

    fn find(
        &mut self,
        alloc: Global,
        net: &Network,
        rows: &F,
        bids: &[Bid],
    ) -> Result<Found, NoMemory> {
        net.laws();
        let inst = Instance { net, bids };
        let mut graphs = FreshGraphs::new(net);
        let plan = certified_plan_over(alloc, inst, rows, &mut graphs, self.limits)?;
        Ok(Found {
            revenue: plan.revenue,
            bound: plan.bound,
        })
    }

    ghost one = { λ planner rows net bids a b. one_found F.Row.cmp net (F.rows_of rows net)
        (F.KeepsRule rows net) bids planner.limits a b };

    ghost encloses = { λ planner rows net bids found proper instance is. found_encloses F.Row.cmp net
        (F.rows_of rows net) (F.KeepsRule rows net) bids planner.limits found is };
}
