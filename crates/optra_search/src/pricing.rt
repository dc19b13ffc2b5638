//! Pricing a node that is not dead: its price path, repair, and what becomes of it.
ghost use Rattle.std.specs.Prelude.{◌≡◌, ◌+◌, ◌<◌, ◌≤◌, ◌≤ℤ◌, ◌<ℤ◌, ◌-◌, ◌^◌, None, length, All, Contains, IfOk, OnOk, MatchBool, unwrap_or};
ghost use Rattle.optra_walk.specs.Choices.{IsChoice, revenue_of};
ghost use Rattle.optra_node.specs.Nodes.{IsNode};
ghost use Rattle.optra_node.specs.Duals.{whole_cents};
ghost use Rattle.optra_prices.specs.Courses.{replies_at};
ghost use Rattle.optra_prices.specs.Deads.{IsDeadAs};
ghost use Rattle.optra_prices.specs.Keepings.{AreKept, AreKeptAt};
ghost use Rattle.optra_prices.specs.Paths.{IsPathResult};
ghost use Rattle.optra_prices.specs.Steps.{AreProper};
ghost use Rattle.optra_search.specs.Planner.{IsBetter};
ghost use Rattle.optra_search.specs.Marks.{AreSettled};
ghost use Rattle.optra_search.specs.Openings.{front, start_below, IsOutcome};
ghost use Rattle.optra_search.specs.Searches.{IsReached, IsEntered};
ghost use Rattle.optra_search.specs.Reached.{parts_of};

use crate::Repairer;
use crate::entered::Entered;
use crate::means::Means;
use crate::searching::{Search, close_or_split, start_of};
use crate::settling::{better, whole_cents, zero_prices};
use crate::splitting::split_leg;
use optra_graph::Graphs;
use optra_network::{Cents, NoMemory};
use optra_node::{Node, Prices};
use optra_prices::keeping::price_path_over;
use optra_prices::overfull::overfull_rows;
use optra_prices::{ArcTables, Dual, PathEnds, Priced};
use optra_walk::{Choice, Instance, Leg, RowFamily};
use std::alloc::Global;

/// Whether a dual value in whole cents, rounded down, is at most the revenue.
fn is_low(value: i128, revenue: Cents) -> bool
    ensures { MatchBool result (whole_cents value ≤ℤ revenue) (revenue <ℤ whole_cents value) }
{
    whole_cents(value) <= i128::from(revenue)
}

/// The leg on which the search's node is split, by its dual value and replies at the result of its price path, at which
/// the tables are. `None` where the dual value in whole cents, rounded down, is at most the revenue: then the node becomes
/// a leaf.
fn outcome<F: RowFamily, G: Graphs>(
    alloc: Global,
    inst: Instance<'_>,
    graphs: &G,
    rows: &F,
    kept: &mut ArcTables<'_, F::Row>,
    dual: &Dual,
    search: &Search<F::Row>,
) -> Result<Option<(u32, Leg)>, NoMemory>
    requires network { G.network graphs.now ≡ inst.net.now }
    requires held { All (λ bid. Contains (G.held graphs.now) bid.path) inst.bids.now }
    requires node { IsNode inst.net.now (length inst.bids.now) search.now.node }
    requires kept { AreKeptAt F.Row.cmp inst.net.now (F.rows_of rows.now inst.net.now)
        (F.rows_used rows.now inst.net.now) inst.bids.now search.now.node kept.old }
    requires stand { dual.now.replies ≡ replies_at kept.old }
    requires replies { IsChoice inst.net.now inst.bids.now dual.now.replies }
    requires closes { AreSettled inst.net.now (F.rows_of rows.now inst.net.now) inst.bids.now
        search.now.node → whole_cents dual.now.value ≤ℤ search.now.revenue }
    ensures outcome { IfOk result (λ split. IsOutcome inst.entry.net.now
        (F.rows_of rows.now inst.entry.net.now) inst.entry.bids.now search.now.node dual.now
        search.now.revenue split) }
    ensures kept { OnOk result (AreKeptAt F.Row.cmp inst.entry.net.now
        (F.rows_of rows.now inst.entry.net.now) (F.rows_used rows.now inst.entry.net.now)
        inst.entry.bids.now search.now.node kept.new) }
{
    if is_low(dual.value, search.revenue) {
        return Ok(None);
    }
    let node = &search.node;
    let listed = overfull_rows(alloc, inst, rows, node, kept)?;
    let found = split_leg(alloc, inst, graphs, rows, node, &dual.replies, &listed)?;
    Ok(found)
}

/// The result of the price path of the node that was entered, at whose prices the tables of arcs stay.
fn path_result<F: RowFamily>(
    alloc: Global,
    inst: Instance<'_>,
    rows: &F,
    steps: u32,
    kept: &mut ArcTables<'_, F::Row>,
    search: &Search<F::Row>,
    start: &Option<Prices<F::Row>>,
) -> Result<Priced<F::Row>, NoMemory>
    requires node { IsNode inst.net.now (length inst.bids.now) search.now.node }
    requires kept { AreKeptAt F.Row.cmp inst.net.now (F.rows_of rows.now inst.net.now)
        (F.rows_used rows.now inst.net.now) inst.bids.now search.now.node kept.old }
    requires start { AreProper F.Row.cmp (F.rows_of rows.now inst.net.now)
        (unwrap_or start.now (start_below (front search.now.waiting.items))) }
    ensures path { IfOk result (IsPathResult F.Row.cmp inst.entry.net.now
        (F.rows_of rows.now inst.entry.net.now) inst.entry.bids.now search.now.node
        (unwrap_or start.now (start_below (front search.now.waiting.items))) steps
        search.now.revenue) }
    ensures kept { OnOk result (AreKeptAt F.Row.cmp inst.entry.net.now
        (F.rows_of rows.now inst.entry.net.now) (F.rows_used rows.now inst.entry.net.now)
        inst.entry.bids.now search.now.node kept.new) }
    ensures replies { IfOk result (λ priced. priced.dual.replies ≡ replies_at kept.new) }
{
    let zero = zero_prices(alloc);
    let from = start_of(start, &search.waiting, &zero);
    let ends = PathEnds { start: from, steps };
    let priced = price_path_over(alloc, inst, rows, &search.node, kept, &ends, search.revenue)?;
    Ok(priced)
}

/// Counts the node, and takes the repaired choice as the incumbent where it earns more.
fn improve<R>(inst: Instance<'_>, search: Search<R>, repaired: Choice) -> Search<R>
    requires earned { search.revenue ≡ revenue_of inst.net.now inst.bids.now search.incumbent }
    requires choice { IsChoice inst.net.now inst.bids.now repaired }
    requires room { search.count < 2 ^ 64 - 1 }
    ensures parts { parts_of result
        ≡ record (parts_of search)
        { incumbent = result.incumbent; revenue = result.revenue; count = search.count + 1 } }
    ensures better { IsBetter inst.entry.net.now inst.entry.bids.now search.incumbent repaired
        result.incumbent }
    ensures earned { result.revenue ≡ revenue_of inst.entry.net.now inst.entry.bids.now
        result.incumbent }
{
    let Search {
        node,
        waiting,
        items,
        incumbent,
        revenue,
        bound,
        count,
    } = search;
    let (incumbent, revenue) = better(inst.net, inst.bids, incumbent, revenue, repaired);
    Search {
        node,
        waiting,
        items,
        incumbent,
        revenue,
        bound,
        count: count + 1,
    }
}

/// The turn of an entered node that is not dead. Its price path runs from its start prices with the incumbent's revenue,
/// repair may better the incumbent, and the node becomes a leaf or is split.
pub(crate) fn price_node<F: RowFamily, G: Graphs, P: Repairer<F, G>>(
    alloc: Global,
    inst: Instance<'_>,
    rows: &F,
    means: &Means<'_, G, P>,
    kept: &mut ArcTables<'_, F::Row>,
    search: Search<F::Row>,
    start: Option<Prices<F::Row>>,
) -> Result<Search<F::Row>, NoMemory>
    requires network { G.network means.now.graphs.now ≡ inst.net.now }
    requires held { All (λ bid. Contains (G.held means.now.graphs.now) bid.path) inst.bids.now }
    requires kept { AreKeptAt F.Row.cmp inst.net.now (F.rows_of rows.now inst.net.now)
        (F.rows_used rows.now inst.net.now) inst.bids.now search.node kept.old }
    requires entered { IsEntered F.Row.cmp inst.net.now (F.rows_of rows.now inst.net.now)
        inst.bids.now means.now.limits.steps means.now.limits.budget start (parts_of search) }
    requires lives { IsDeadAs F.Row.cmp inst.net.now (F.rows_of rows.now inst.net.now) inst.bids.now
        search.node None }
    ensures reached { IfOk result (λ after. IsReached F.Row.cmp inst.entry.net.now
        (F.rows_of rows.now inst.entry.net.now) inst.entry.bids.now means.now.limits.steps
        means.now.limits.budget (parts_of after)) }
    ensures count { IfOk result (λ after. after.count ≡ search.count + 1) }
    ensures kept { OnOk result (AreKept F.Row.cmp inst.entry.net.now
        (F.rows_of rows.now inst.entry.net.now) (F.rows_used rows.now inst.entry.net.now)
        inst.entry.bids.now kept.new) }
{
    let priced = path_result(alloc, inst, rows, means.limits.steps, kept, &search, &start)?;
    let Priced { prices, dual } = priced;
    let repairer = means.repairer;
    let entered = Entered {
        node: &search.node,
        graphs: means.graphs,
        kept,
    };
    let repaired = repairer.repair_over(alloc, inst, rows, &entered, &dual)?;
    let search = improve(inst, search, repaired);
    let split = outcome(alloc, inst, means.graphs, rows, kept, &dual, &search)?;
    let cents = whole_cents(dual.value);
    let after = close_or_split(search, split, prices, cents)?;
    Ok(after)
}
