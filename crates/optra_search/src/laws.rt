//! The laws of the plain planner, as the contract of a call that does nothing else.
//!
//! They speak of the definition of the plan alone, and not of how [`crate::plan`] finds it.
ghost use Rattle.std.specs.Prelude.{◌≡◌};
ghost use Rattle.optra_search.specs.Laws.{OneTurn, OnePlan, PlansAreCertified, PlansEarnEach, PlansHaveNumbers, SufficientBudget};
ghost use Rattle.optra_search.specs.Plans.{CertifiesPlans};

use optra_node::bound_holds;
use optra_prices::price_laws;
use optra_walk::{Instance, RowFamily};

/// A turn of the plain planner leads to one state, and there is at most one plan, so the plan is a function of the
/// instance, the family, the number of steps and the budget. Its choice, revenue, bound and tree make a formed and valid
/// certificate. The revenue is 0 to the bound, the bound is at most the sum of the bases, and it is above the revenue
/// only where the count of nodes is the budget. Where N is the number of different pairs of a bid and a leg of one of its
/// walks, a budget of `2^(N + 1) - 1` suffices for a bound equal to the revenue. Each served walk is worth 1 to
/// 1,000,000,000 cents.
pub fn plan_laws<F: RowFamily>(inst: Instance<'_>, rows: &F)
    ensures one_turn { OneTurn F.Row.cmp inst.entry.net.now (F.rows_of rows.now inst.entry.net.now)
        inst.entry.bids.now }
    ensures one_plan { OnePlan F.Row.cmp inst.entry.net.now (F.rows_of rows.now inst.entry.net.now)
        inst.entry.bids.now }
    ensures certified { PlansAreCertified F.Row.cmp inst.entry.net.now
        (F.rows_of rows.now inst.entry.net.now) (F.KeepsRule rows.now inst.entry.net.now)
        inst.entry.bids.now }
    ensures numbers { PlansHaveNumbers F.Row.cmp inst.entry.net.now
        (F.rows_of rows.now inst.entry.net.now) inst.entry.bids.now }
    ensures sufficient { SufficientBudget F.Row.cmp inst.entry.net.now
        (F.rows_of rows.now inst.entry.net.now) inst.entry.bids.now }
    ensures worth { PlansEarnEach F.Row.cmp inst.entry.net.now
        (F.rows_of rows.now inst.entry.net.now) inst.entry.bids.now }
{
    price_laws(inst, rows);
}

/// The same of each plan by itself, with the bound over every choice that keeps the family's rule, whatever the rule says: what a
/// planner over any family needs.
pub fn certified_plans<F: RowFamily>(inst: Instance<'_>, rows: &F)
    ensures { CertifiesPlans F.Row.cmp inst.entry.net.now (F.rows_of rows.now inst.entry.net.now)
        (F.KeepsRule rows.now inst.entry.net.now) inst.entry.bids.now }
{
    plan_laws(inst, rows);
    bound_holds(inst, rows);
}
