//! The plan of a search.
ghost use Rattle.std.specs.Prelude.{◌≡◌, ◌⊎◌, ◌≤◌, ◌∷◌, [], None, true, pos, length, map, All, Contains, IfOk, OnOk};
ghost use Rattle.optra_prices.specs.Repairs.{empty_choice};
ghost use Rattle.optra_prices.specs.Keepings.{AreKept};
ghost use Rattle.optra_search.specs.Laws.{EarnEach};
ghost use Rattle.optra_search.specs.Planner.{IsPlainPlan};
ghost use Rattle.optra_search.specs.Reached.{parts_of};
ghost use Rattle.optra_search.specs.Closings.{IsBound, plan_of};

use crate::closing::close_all;
use crate::means::Means;
use crate::searching::Search;
use crate::turning::take_turns;
use crate::waiting::Waiting;
use crate::{Limits, Plan, Repairer};
use optra_graph::Graphs;
use optra_network::{Cents, NoMemory};
use optra_node::Node;
use optra_prices::ArcTables;
use optra_prices::keeping::keep_arcs;
use optra_walk::{Choice, Instance, RowFamily};
use std::alloc::Global;

/// The choice that serves no bid.
fn empty_choice(alloc: Global, inst: Instance<'_>) -> Result<Choice, NoMemory>
    ensures { IfOk result (λ choice. choice ≡ empty_choice inst.entry.bids.now) }
{
    let mut walks = Vec::with_capacity(alloc, inst.bids.len())?;
    for _bid in inst.bids {
        walks.push(None)?;
    }
    Ok(Choice { walks })
}

/// The search before its first turn: the root waits, and no bid is served.
fn first_search<R: Drop>(alloc: Global, inst: Instance<'_>) -> Result<Search<R>, NoMemory>
    ensures { IfOk result (λ first. parts_of first
        ≡ record
        { node = []; waiting = record { depth = 0; decision = None; start = None } ∷ []; items = []; incumbent = empty_choice inst.entry.bids.now; revenue = pos 0; bound = pos 0; count = 0 }) }
{
    let incumbent = empty_choice(alloc, inst)?;
    let mut waiting = Vec::new(alloc);
    waiting.push(Waiting {
        depth: 0,
        decision: None,
        start: None,
    })?;
    Ok(Search {
        node: Node::root(alloc),
        waiting,
        items: Vec::new(alloc),
        incumbent,
        revenue: 0,
        bound: 0,
        count: 0,
    })
}

/// The plan of a search in which no node waits.
fn finish<R: Drop>(search: Search<R>) -> Plan<R>
    requires { IsBound search.bound }
    ensures { result ≡ plan_of (parts_of search) }
{
    Plan {
        choice: search.incumbent,
        revenue: search.revenue,
        bound: search.bound as Cents,
        nodes: search.count,
        tree: search.items,
    }
}

/// The plan over tables of arcs that are kept.
fn plan_over<F: RowFamily, G: Graphs, P: Repairer<F, G>>(
    alloc: Global,
    inst: Instance<'_>,
    rows: &F,
    means: &Means<'_, G, P>,
    kept: &mut ArcTables<'_, F::Row>,
) -> Result<Plan<F::Row>, NoMemory>
    requires network { G.network means.now.graphs.now ≡ inst.net.now }
    requires held { All (λ bid. Contains (G.held means.now.graphs.now) bid.path) inst.bids.now }
    requires kept { AreKept F.Row.cmp inst.net.now (F.rows_of rows.now inst.net.now)
        (F.rows_used rows.now inst.net.now) inst.bids.now kept.old }
    ensures { IfOk result (λ plan. IsPlainPlan F.Row.cmp inst.entry.net.now
        (F.rows_of rows.now inst.entry.net.now) inst.entry.bids.now means.now.limits.steps
        means.now.limits.budget plan) }
{
    let first = first_search(alloc, inst)?;
    let last = take_turns(alloc, inst, rows, means, kept, first)?;
    let closed = close_all(alloc, inst, rows, kept, last)?;
    Ok(finish(closed))
}

/// The plan by graphs that hold those of the bids.
fn plan_with<F: RowFamily, G: Graphs, P: Repairer<F, G>>(
    alloc: Global,
    inst: Instance<'_>,
    rows: &F,
    means: &Means<'_, G, P>,
) -> Result<Plan<F::Row>, NoMemory>
    requires network { G.network means.now.graphs.now ≡ inst.net.now }
    requires held { All (λ bid. Contains (G.held means.now.graphs.now) bid.path) inst.bids.now }
    ensures { IfOk result (λ plan. IsPlainPlan F.Row.cmp inst.entry.net.now
        (F.rows_of rows.now inst.entry.net.now) inst.entry.bids.now means.now.limits.steps
        means.now.limits.budget plan) }
{
    let mut kept = keep_arcs(alloc, inst, means.graphs, rows)?;
    let plan = plan_over(alloc, inst, rows, means, &mut kept);
    drop(kept);
    plan
}

/// The plan of the plain planner: its choice, revenue, bound, count of nodes and tree are exactly those of its turns.
///
/// The root is open at zero prices, and no bid is served. The first open node is taken and counted. Where it is dead it
/// becomes a leaf that says why. Else its price path runs from its start prices with the incumbent's revenue, and repair
/// may better the incumbent. Where the dual value of the path's result in whole cents, rounded down, is then at most the
/// incumbent's revenue, the node becomes a leaf with the result's prices. Else it is split, and its yes child and then its
/// no child stand first, both at the result's prices. Once the count is the budget, each open node becomes a leaf with its
/// start prices. The bound is the greatest dual value of the priced leaves in whole cents, rounded down. Repair keeps no walk
/// that earns nothing, so each walk of the choice is worth 1 to 1,000,000,000 cents.
///
/// It needs a budget of at least 1, at most 1,000 bids, and graphs that were made with the instance's network, which it
/// prepares itself: after it answered, the path specification of each bid is held, no other one that was not held before,
/// and all that was held where the graphs keep. After `NoMemory`, its only refusal, they may hold others than before.
pub fn plan<F: RowFamily, G: Graphs, P: Repairer<F, G>>(
    alloc: Global,
    inst: Instance<'_>,
    rows: &F,
    graphs: &mut G,
    limits: Limits,
    repairer: &P,
) -> Result<Plan<F::Row>, NoMemory>
    requires network { G.network graphs.old ≡ inst.net.now }
    requires budget { 1 ≤ limits.budget }
    ensures plan { IfOk result (λ plan. IsPlainPlan F.Row.cmp inst.entry.net.now
        (F.rows_of rows.now inst.entry.net.now) inst.entry.bids.now limits.steps limits.budget
        plan) }
    ensures worth { IfOk result (λ plan. EarnEach inst.entry.net.now inst.entry.bids.now
        plan.choice) }
    ensures held { OnOk result (All (λ bid. Contains (G.held graphs.new) bid.path)
        inst.entry.bids.now) }
    ensures others { OnOk result (All (λ path. Contains (G.held graphs.old) path
        ⊎ Contains (map (λ bid. bid.path) inst.entry.bids.now) path) (G.held graphs.new)) }
    ensures kept { OnOk result (G.keeps graphs.old ≡ true
        → All (Contains (G.held graphs.new)) (G.held graphs.old)) }
    ensures network { G.network graphs.new ≡ G.network graphs.old }
    ensures keeps { G.keeps graphs.new ≡ G.keeps graphs.old }
{
    graphs.prepare(alloc, inst.bids)?;
    let means = Means {
        graphs,
        limits,
        repairer,
    };
    let plan = plan_with(alloc, inst, rows, &means)?;
    Ok(plan)
}
