//! Turns: from the root to a state in which no node waits or the budget is spent.
ghost use Rattle.std.specs.Prelude.{◌≡◌, ◌+◌, ◌<◌, ◌-◌, ◌^◌, ◌++◌, ◌∷◌, [], All, Contains, IfOk, OnOk};
ghost use Rattle.optra_prices.specs.Keepings.{AreKept};
ghost use Rattle.optra_search.specs.Planner.{IsOver, dead_item};
ghost use Rattle.optra_search.specs.Openings.{state_of};
ghost use Rattle.optra_search.specs.Searches.{IsReached};
ghost use Rattle.optra_search.specs.Reached.{parts_of};

use crate::Repairer;
use crate::means::Means;
use crate::pricing::price_node;
use crate::searching::{Search, dead_item};
use crate::waiting::{Waiting, enter};
use optra_graph::Graphs;
use optra_network::NoMemory;
use optra_prices::keeping::{bring_to, dead_over};
use optra_prices::{ArcTables, Dead};
use optra_walk::{Instance, RowFamily};
use std::alloc::Global;

/// Counts the node, which becomes a leaf that says why it is dead.
fn end_dead<R: Drop>(search: Search<R>, reason: Dead<R>) -> Result<Search<R>, NoMemory>
    requires { search.count < 2 ^ 64 - 1 }
    ensures { IfOk result (λ after. parts_of after
        ≡ record (parts_of search)
        { items = search.items.items ++ dead_item reason ∷ []; count = search.count + 1 }) }
{
    let mut search = search;
    search.items.push(dead_item(reason))?;
    search.count += 1;
    Ok(search)
}

/// One turn: the node that was on top of the stack is entered and becomes an item. The tables of arcs are brought to it.
fn turn<F: RowFamily, G: Graphs, P: Repairer<F, G>>(
    alloc: Global,
    inst: Instance<'_>,
    rows: &F,
    means: &Means<'_, G, P>,
    kept: &mut ArcTables<'_, F::Row>,
    search: Search<F::Row>,
    top: Waiting<F::Row>,
) -> Result<Search<F::Row>, NoMemory>
    requires network { G.network means.now.graphs.now ≡ inst.net.now }
    requires held { All (λ bid. Contains (G.held means.now.graphs.now) bid.path) inst.bids.now }
    requires kept { AreKept F.Row.cmp inst.net.now (F.rows_of rows.now inst.net.now)
        (F.rows_used rows.now inst.net.now) inst.bids.now kept.old }
    requires below { search.count < means.now.limits.budget }
    requires reached { IsReached F.Row.cmp inst.net.now (F.rows_of rows.now inst.net.now)
        inst.bids.now means.now.limits.steps means.now.limits.budget
        (record (parts_of search) { waiting = search.waiting.items ++ top ∷ [] }) }
    ensures reached { IfOk result (λ after. IsReached F.Row.cmp inst.entry.net.now
        (F.rows_of rows.now inst.entry.net.now) inst.entry.bids.now means.now.limits.steps
        means.now.limits.budget (parts_of after)) }
    ensures count { IfOk result (λ after. after.count ≡ search.count + 1) }
    ensures kept { OnOk result (AreKept F.Row.cmp inst.entry.net.now
        (F.rows_of rows.now inst.entry.net.now) (F.rows_used rows.now inst.entry.net.now)
        inst.entry.bids.now kept.new) }
{
    let mut search = search;
    let Waiting {
        depth,
        decision,
        start,
    } = top;
    enter(&mut search.node, depth, decision)?;
    bring_to(alloc, inst, rows, &search.node, kept)?;
    match dead_over(inst, rows, &search.node, kept) {
        Some(reason) => {
            let after = end_dead(search, reason)?;
            Ok(after)
        }
        None => {
            let after = price_node(alloc, inst, rows, means, kept, search, start)?;
            Ok(after)
        }
    }
}

/// Turns while a node waits and the count is below the budget, over the same tables of arcs.
pub(crate) fn take_turns<F: RowFamily, G: Graphs, P: Repairer<F, G>>(
    alloc: Global,
    inst: Instance<'_>,
    rows: &F,
    means: &Means<'_, G, P>,
    kept: &mut ArcTables<'_, F::Row>,
    search: Search<F::Row>,
) -> Result<Search<F::Row>, NoMemory>
    requires network { G.network means.now.graphs.now ≡ inst.net.now }
    requires held { All (λ bid. Contains (G.held means.now.graphs.now) bid.path) inst.bids.now }
    requires kept { AreKept F.Row.cmp inst.net.now (F.rows_of rows.now inst.net.now)
        (F.rows_used rows.now inst.net.now) inst.bids.now kept.old }
    requires first { search.count ≡ 0 }
    requires reached { IsReached F.Row.cmp inst.net.now (F.rows_of rows.now inst.net.now)
        inst.bids.now means.now.limits.steps means.now.limits.budget (parts_of search) }
    ensures reached { IfOk result (λ after. IsReached F.Row.cmp inst.entry.net.now
        (F.rows_of rows.now inst.entry.net.now) inst.entry.bids.now means.now.limits.steps
        means.now.limits.budget (parts_of after)) }
    ensures over { IfOk result (λ after. IsOver means.now.limits.budget
        (state_of after.node after.waiting.items after.items.items after.incumbent after.count)) }
    ensures kept { OnOk result (AreKept F.Row.cmp inst.entry.net.now
        (F.rows_of rows.now inst.entry.net.now) (F.rows_used rows.now inst.entry.net.now)
        inst.entry.bids.now kept.new) }
{
    let mut search = search;
    'turns: for _taken in 0..means.limits.budget {
        let Some(top) = search.waiting.pop() else {
            return Ok(search);
        };
        search = turn(alloc, inst, rows, means, kept, search, top)?;
    }
    Ok(search)
}
