//! The plan of some bids by a family of rows: by itself, and where the rows state the rule.
ghost use Rattle.std.specs.Prelude.{◌≡◌, ◌⊎◌, ◌≤◌, map, true, All, Contains, IfOk, OnOk};
ghost use Rattle.optra_search.specs.Plans.{IsCertifiedPlan};
ghost use Rattle.optra_verdict.specs.Promises.{TellsConflicts};
ghost use Rattle.optra_play.specs.Plans.{IsPlanOf};

use crate::family_repairer::FamilyRepairer;
use optra_graph::{FreshGraphs, Graphs};
use optra_network::NoMemory;
use optra_search::{Limits, Plan, certified_plans, planning};
use optra_walk::{Instance, RowFamily};
use std::alloc::Global;

/// The plan of the search by a family of rows, within the limits, with graphs built anew. It needs that the family's rule is
/// freedom of conflict.
pub fn plan_by<F: RowFamily>(
    alloc: Global,
    inst: Instance<'_>,
    rows: &F,
    limits: Limits,
) -> Result<Plan<F::Row>, NoMemory>
    requires budget { 1 ≤ limits.budget }
    requires rule { TellsConflicts inst.net.now inst.bids.now (F.KeepsRule rows.now inst.net.now) }
    ensures { IfOk result (λ plan. let net = inst.entry.net.now in IsPlanOf F.Row.cmp net
        (F.rows_of rows.now net) (F.KeepsRule rows.now net) inst.entry.bids.now limits.steps
        limits.budget plan) }
{
    let mut graphs = FreshGraphs::new(inst.net);
    plan_over(alloc, inst, rows, &mut graphs, limits)
}

/// The same, with graphs that were made with the instance's network: after it, they hold the path specification of each bid, no
/// other one that they did not hold before, and all that they held where they keep.
pub fn plan_over<F: RowFamily, G: Graphs>(
    alloc: Global,
    inst: Instance<'_>,
    rows: &F,
    graphs: &mut G,
    limits: Limits,
) -> Result<Plan<F::Row>, NoMemory>
    requires network { G.network graphs.old ≡ inst.net.now }
    requires budget { 1 ≤ limits.budget }
    requires rule { TellsConflicts inst.net.now inst.bids.now (F.KeepsRule rows.now inst.net.now) }
    ensures plan { IfOk result (λ plan. let net = inst.entry.net.now in IsPlanOf F.Row.cmp net
        (F.rows_of rows.now net) (F.KeepsRule rows.now net) inst.entry.bids.now limits.steps
        limits.budget plan) }
    ensures held { OnOk result (All (λ bid. Contains (G.held graphs.new) bid.path)
        inst.entry.bids.now) }
    ensures others { OnOk result (All (λ path. Contains (G.held graphs.old) path
        ⊎ Contains (map (λ bid. bid.path) inst.entry.bids.now) path) (G.held graphs.new)) }
    ensures kept { OnOk result (G.keeps graphs.old ≡ true
        → All (Contains (G.held graphs.new)) (G.held graphs.old)) }
    ensures network { G.network graphs.new ≡ G.network graphs.old }
{
    certified_plan_over(alloc, inst, rows, graphs, limits)
}

/// The plan of the search by any family of rows, whatever its rule says, within the limits. It has the clauses on graphs that
/// `plan_over` has; its bound is over the choices that keep the family's rule.
pub fn certified_plan_over<F: RowFamily, G: Graphs>(
    alloc: Global,
    inst: Instance<'_>,
    rows: &F,
    graphs: &mut G,
    limits: Limits,
) -> Result<Plan<F::Row>, NoMemory>
    requires network { G.network graphs.old ≡ inst.net.now }
    requires budget { 1 ≤ limits.budget }
    ensures plan { IfOk result (λ plan. let net = inst.entry.net.now in IsCertifiedPlan F.Row.cmp
        net (F.rows_of rows.now net) (F.KeepsRule rows.now net) inst.entry.bids.now limits.steps
        limits.budget plan) }
    ensures held { OnOk result (All (λ bid. Contains (G.held graphs.new) bid.path)
        inst.entry.bids.now) }
    ensures others { OnOk result (All (λ path. Contains (G.held graphs.old) path
        ⊎ Contains (map (λ bid. bid.path) inst.entry.bids.now) path) (G.held graphs.new)) }
    ensures kept { OnOk result (G.keeps graphs.old ≡ true
        → All (Contains (G.held graphs.new)) (G.held graphs.old)) }
    ensures network { G.network graphs.new ≡ G.network graphs.old }
{
    let plan = planning::plan(alloc, inst, rows, graphs, limits, &FamilyRepairer)?;
    certified_plans(inst, rows);
    Ok(plan)
}
